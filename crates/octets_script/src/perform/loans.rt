//! Commands that lend a range of the buffer, and reply what it held before the write.
//!
//! The bytes for the reply are copied first, so that nothing is written if their allocation fails.
ghost use Rattle.std.specs.Prelude.{◌≡◌, ◌-◌, ◌<◌, ◌≤◌, length, take, drop, IfOk, OnErr};
ghost use Rattle.octets.specs.Cursor.{bytes, rest};
ghost use Rattle.octets_script.specs.Runs.{AnswersLeaving, RefusedForMemory};
ghost use Rattle.octets_script.specs.Calls.{Call};
ghost use Rattle.octets.specs.Requests.{WasRefused};

use crate::copied::copied;
use crate::over::slices::{over_last, over_slice, write_over};
use crate::over::views::{over_next, over_peeked};
use crate::reply::{Reply, bytes_or_short};
use octets::OctetsMut;
use std::alloc::{AllocError, Global};

pub(crate) fn get_bytes_mut(
    alloc: Global,
    cursor: &mut OctetsMut<'_>,
    len: usize,
    w: &[u8],
) -> Result<Reply, AllocError>
    ensures answers { IfOk result (λ r.
        AnswersLeaving (Call.GetBytesMut len w.now) cursor.old r cursor.new) }
    ensures refused { OnErr result
        (RefusedForMemory (Call.GetBytesMut len w.now) cursor.old cursor.new) }
    ensures memory { OnErr result WasRefused }
{
    let before = next_bytes(alloc, cursor, len)?;
    Ok(bytes_or_short(over_next(cursor, len, w), before))
}

pub(crate) fn peek_bytes_mut(
    alloc: Global,
    cursor: &mut OctetsMut<'_>,
    len: usize,
    w: &[u8],
) -> Result<Reply, AllocError>
    ensures answers { IfOk result (λ r.
        AnswersLeaving (Call.PeekBytesMut len w.now) cursor.old r cursor.new) }
    ensures refused { OnErr result
        (RefusedForMemory (Call.PeekBytesMut len w.now) cursor.old cursor.new) }
    ensures memory { OnErr result WasRefused }
{
    let before = next_bytes(alloc, cursor, len)?;
    Ok(bytes_or_short(over_peeked(cursor, len, w), before))
}

pub(crate) fn slice(
    alloc: Global,
    cursor: &mut OctetsMut<'_>,
    len: usize,
    w: &[u8],
) -> Result<Reply, AllocError>
    ensures answers { IfOk result (λ r.
        AnswersLeaving (Call.Slice len w.now) cursor.old r cursor.new) }
    ensures refused { OnErr result (RefusedForMemory (Call.Slice len w.now) cursor.old cursor.new) }
    ensures memory { OnErr result WasRefused }
{
    let before = next_bytes(alloc, cursor, len)?;
    Ok(bytes_or_short(over_slice(cursor, len, w), before))
}

pub(crate) fn slice_last(
    alloc: Global,
    cursor: &mut OctetsMut<'_>,
    len: usize,
    w: &[u8],
) -> Result<Reply, AllocError>
    ensures answers { IfOk result (λ r.
        AnswersLeaving (Call.SliceLast len w.now) cursor.old r cursor.new) }
    ensures refused { OnErr result
        (RefusedForMemory (Call.SliceLast len w.now) cursor.old cursor.new) }
    ensures memory { OnErr result WasRefused }
{
    let before = last_bytes(alloc, cursor, len)?;
    Ok(bytes_or_short(over_last(cursor, len, w), before))
}

#[tactic(auto, using(crate::proofs::Endings::rest_lent))]
pub(crate) fn as_mut(
    alloc: Global,
    cursor: &mut OctetsMut<'_>,
    w: &[u8],
) -> Result<Reply, AllocError>
    ensures answers { IfOk result (λ r. AnswersLeaving (Call.AsMut w.now) cursor.old r cursor.new) }
    ensures refused { OnErr result (RefusedForMemory (Call.AsMut w.now) cursor.old cursor.new) }
    ensures memory { OnErr result WasRefused }
{
    let before = cursor.to_vec(alloc)?;
    write_over(cursor.as_mut(), w);
    Ok(Reply::Bytes(before))
}

/// Copies the next `len` bytes. If fewer remain, it copies nothing, since the call that is to lend
/// them fails.
fn next_bytes(alloc: Global, cursor: &OctetsMut<'_>, len: usize) -> Result<Vec<u8>, AllocError>
    ensures copied { IfOk result (λ b.
        len ≤ length (rest cursor.now) → b.items ≡ take len (rest cursor.now)) }
    ensures there { OnErr result (len ≤ length (rest cursor.now)) }
    ensures some { OnErr result (0 < length (take len (rest cursor.now))) }
    ensures memory { OnErr result WasRefused }
{
    if len > cursor.cap() {
        return Ok(Vec::new(alloc));
    }
    copied(alloc, &cursor.as_ref()[..len])
}

/// Copies the last `len` bytes of the buffer. If fewer remain, it copies nothing, since the call
/// that is to lend them fails.
fn last_bytes(alloc: Global, cursor: &OctetsMut<'_>, len: usize) -> Result<Vec<u8>, AllocError>
    ensures copied { IfOk result (λ b.
        len ≤ length (rest cursor.now)
        → b.items ≡ drop (length (bytes cursor.now) - len) (bytes cursor.now)) }
    ensures there { OnErr result (len ≤ length (rest cursor.now)) }
    ensures some { OnErr result
        (0 < length (drop (length (bytes cursor.now) - len) (bytes cursor.now))) }
    ensures memory { OnErr result WasRefused }
{
    if len > cursor.cap() {
        return Ok(Vec::new(alloc));
    }
    let from = cursor.len() - len;
    copied(alloc, &cursor.buf()[from..])
}
