//! Commands that read bytes.
ghost use Rattle.std.specs.Prelude.{◌≡◌, ◌<◌, ◌≤◌, length, IfOk, OnOk, OnErr};
ghost use Rattle.octets.specs.Cursor.{bytes, position};
ghost use Rattle.octets.specs.Does.{view_answer};
ghost use Rattle.octets.specs.Slices.{reference};
ghost use Rattle.octets_script.specs.Runs.{AnswersLeaving, RefusedForMemory};
ghost use Rattle.octets_script.specs.Calls.{Call, answer_of};
ghost use Rattle.octets_script.specs.Plays.{HoldsByte};
ghost use Rattle.octets.specs.Requests.{WasRefused};

use crate::copied::copied;
use crate::reply::Reply;
use octets::{Octets, OctetsMut};
use std::alloc::{AllocError, Global};

pub(crate) fn peek_bytes(
    alloc: Global,
    cursor: &mut OctetsMut<'_>,
    len: usize,
) -> Result<Reply, AllocError>
    ensures answers { IfOk result (λ r.
        AnswersLeaving (Call.PeekBytes len) cursor.old r cursor.new) }
    ensures refused { OnErr result (RefusedForMemory (Call.PeekBytes len) cursor.old cursor.new) }
    ensures memory { OnErr result WasRefused }
{
    copied_reply(alloc, cursor.peek_bytes(len))
}

pub(crate) fn get_bytes(
    alloc: Global,
    cursor: &mut OctetsMut<'_>,
    len: usize,
) -> Result<Reply, AllocError>
    ensures answers { IfOk result (λ r.
        AnswersLeaving (Call.GetBytes len) cursor.old r cursor.new) }
    ensures refused { OnErr result (RefusedForMemory (Call.GetBytes len) cursor.old cursor.new) }
    ensures memory { OnErr result WasRefused }
{
    let from = cursor.off();
    let reply = copied_reply(alloc, cursor.get_bytes(len));
    or_go_back(cursor, from, reply)
}

pub(crate) fn get_bytes_with_u8_length(
    alloc: Global,
    cursor: &mut OctetsMut<'_>,
) -> Result<Reply, AllocError>
    ensures answers { IfOk result (λ r. AnswersLeaving Call.GetBytesU8 cursor.old r cursor.new) }
    ensures refused { OnErr result (RefusedForMemory Call.GetBytesU8 cursor.old cursor.new) }
    ensures memory { OnErr result WasRefused }
{
    let from = cursor.off();
    let reply = copied_reply(alloc, cursor.get_bytes_with_u8_length());
    or_go_back(cursor, from, reply)
}

pub(crate) fn get_bytes_with_u16_length(
    alloc: Global,
    cursor: &mut OctetsMut<'_>,
) -> Result<Reply, AllocError>
    ensures answers { IfOk result (λ r. AnswersLeaving Call.GetBytesU16 cursor.old r cursor.new) }
    ensures refused { OnErr result (RefusedForMemory Call.GetBytesU16 cursor.old cursor.new) }
    ensures memory { OnErr result WasRefused }
{
    let from = cursor.off();
    let reply = copied_reply(alloc, cursor.get_bytes_with_u16_length());
    or_go_back(cursor, from, reply)
}

pub(crate) fn get_bytes_with_varint_length(
    alloc: Global,
    cursor: &mut OctetsMut<'_>,
) -> Result<Reply, AllocError>
    ensures answers { IfOk result (λ r.
        AnswersLeaving Call.GetBytesVarint cursor.old r cursor.new) }
    ensures refused { OnErr result (RefusedForMemory Call.GetBytesVarint cursor.old cursor.new) }
    ensures memory { OnErr result WasRefused }
{
    let from = cursor.off();
    let reply = copied_reply(alloc, cursor.get_bytes_with_varint_length());
    or_go_back(cursor, from, reply)
}

/// Copies what a call lent for reading. The reply is `Short` if the call failed.
fn copied_reply(alloc: Global, lent: octets::Result<Octets<'_>>) -> Result<Reply, AllocError>
    ensures copied { IfOk result (λ r. answer_of r ≡ view_answer lent.entry) }
    ensures refused { OnErr result (HoldsByte (view_answer lent.entry)) }
    ensures memory { OnErr result WasRefused }
{
    match lent {
        Ok(view) => Ok(Reply::Bytes(copied(alloc, view.buf())?)),
        Err(_) => Ok(Reply::Short),
    }
}

/// Returns the reply. If its allocation failed, the cursor goes back to `from`, so that a later run
/// can make the same call again.
fn or_go_back(
    cursor: &mut OctetsMut<'_>,
    from: usize,
    reply: Result<Reply, AllocError>,
) -> Result<Reply, AllocError>
    requires { from ≤ position cursor.old }
    ensures same_reply { result ≡ reply }
    ensures stays { OnOk reply (position cursor.new ≡ position cursor.old) }
    ensures back { OnErr reply (position cursor.new ≡ from) }
    ensures same_bytes { bytes cursor.new ≡ bytes cursor.old }
    ensures same_reference { reference cursor.new ≡ reference cursor.old }
{
    if reply.is_err() {
        // This returns `Ok`, since the cursor is past `from`.
        let _ = cursor.rewind(cursor.off() - from);
    }
    reply
}
