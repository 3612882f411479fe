//! The command that decodes a Huffman-encoded string.
ghost use Rattle.std.specs.Prelude.{IfOk, OnErr};
ghost use Rattle.octets_script.specs.Runs.{AnswersLeaving, RefusedForMemory};
ghost use Rattle.octets_script.specs.Calls.{Call};
ghost use Rattle.octets.specs.Requests.{WasRefused};

use crate::reply::Reply;
use octets::{DecodeError, Octets, OctetsMut};
use std::alloc::{AllocError, Global};

pub(crate) fn decode(
    alloc: Global,
    cursor: &mut OctetsMut<'_>,
    max_len: usize,
) -> Result<Reply, AllocError>
    ensures answers { IfOk result (λ r.
        AnswersLeaving (Call.Decode max_len) cursor.old r cursor.new) }
    ensures refused { OnErr result (RefusedForMemory (Call.Decode max_len) cursor.old cursor.new) }
    ensures memory { OnErr result WasRefused }
{
    // Only a cursor for reading decodes, so a second one reads what remains.
    let mut remaining = Octets::with_slice(cursor.as_ref());
    let answer = remaining.get_huffman_decoded_with_max_length(alloc, max_len);
    let passed = remaining.off();
    // This returns `Ok`, since the decode passed no more bytes than remained.
    let _ = cursor.skip(passed);
    match answer {
        Ok(value) => Ok(Reply::Bytes(value)),
        Err(DecodeError::Short(_)) => Ok(Reply::Short),
        Err(DecodeError::Memory(refused)) => Err(refused),
    }
}
