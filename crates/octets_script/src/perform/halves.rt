//! The command that lends both halves of the buffer.
//!
//! Both halves are copied for the reply before either is written.
ghost use Rattle.std.specs.Prelude.{◌≡◌, ◌+◌, ◌<◌, ◌≤◌, length, take, drop, IfOk, OnErr};
ghost use Rattle.octets.specs.Cursor.{bytes};
ghost use Rattle.octets_script.specs.Runs.{AnswersLeaving, RefusedForMemory};
ghost use Rattle.octets_script.specs.Calls.{Call};
ghost use Rattle.octets.specs.Requests.{WasRefused};

use crate::copied::copied;
use crate::over::halves::over_halves;
use crate::reply::Reply;
use octets::OctetsMut;
use std::alloc::{AllocError, Global};

#[tactic(auto, using(crate::proofs::Endings::split_ends))]
pub(crate) fn split_at(
    alloc: Global,
    cursor: &mut OctetsMut<'_>,
    off: usize,
    left: &[u8],
    right: &[u8],
) -> Result<Reply, AllocError>
    ensures answers { IfOk result (λ r.
        AnswersLeaving (Call.SplitAt off left.now right.now) cursor.old r cursor.new) }
    ensures refused { OnErr result
        (RefusedForMemory (Call.SplitAt off left.now right.now) cursor.old cursor.new) }
    ensures memory { OnErr result WasRefused }
{
    let (before, after) = copied_halves(alloc, cursor, off)?;
    match over_halves(cursor, off, left, right) {
        Ok(()) => Ok(Reply::Two(before, after)),
        Err(_) => Ok(Reply::Short),
    }
}

/// Copies the bytes before position `off` and those from it on. If the buffer ends before that
/// position, it copies nothing, since the call that is to lend them fails.
fn copied_halves(
    alloc: Global,
    cursor: &OctetsMut<'_>,
    off: usize,
) -> Result<(Vec<u8>, Vec<u8>), AllocError>
    ensures before { IfOk result (λ b.
        off ≤ length (bytes cursor.now) → b.0.items ≡ take off (bytes cursor.now)) }
    ensures after { IfOk result (λ b.
        off ≤ length (bytes cursor.now) → b.1.items ≡ drop off (bytes cursor.now)) }
    ensures there { OnErr result (off ≤ length (bytes cursor.now)) }
    ensures some { OnErr result
        (0 < length (take off (bytes cursor.now)) + length (drop off (bytes cursor.now))) }
    ensures memory { OnErr result WasRefused }
{
    if off > cursor.len() {
        return Ok((Vec::new(alloc), Vec::new(alloc)));
    }
    let (before, after) = cursor.buf().split_at(off);
    let before = copied(alloc, before)?;
    let after = copied(alloc, after)?;
    Ok((before, after))
}
