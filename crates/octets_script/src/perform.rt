//! The function that performs one command: it makes the call, and returns its reply.
ghost use Rattle.std.specs.Prelude.{IfOk, OnErr};
ghost use Rattle.octets_script.specs.Calls.{call_of};
ghost use Rattle.octets_script.specs.Runs.{AnswersLeaving, RefusedForMemory};
ghost use Rattle.octets.specs.Requests.{WasRefused};

mod halves;
mod loans;
mod puts;
mod queries;
mod reads;
mod texts;

use crate::command::Command;
use crate::reply::{Reply, done_or_short, number_or_short, varint_or_fault};
use octets::OctetsMut;
use std::alloc::{AllocError, Global};

/// Performs `command` on the cursor. If the memory for the reply can't be allocated, the cursor is
/// unchanged.
#[tactic(auto, using(crate::proofs::Performed::performed))]
pub(crate) fn perform(
    alloc: Global,
    cursor: &mut OctetsMut<'_>,
    command: &Command,
) -> Result<Reply, AllocError>
    ensures answers { IfOk result (λ r.
        AnswersLeaving (call_of command.now) cursor.old r cursor.new) }
    ensures refused { OnErr result (RefusedForMemory (call_of command.now) cursor.old cursor.new) }
    ensures memory { OnErr result WasRefused }
{
    match command {
        Command::GetU8 => Ok(number_or_short(cursor.get_u8().map(u64::from))),
        Command::GetU16 => Ok(number_or_short(cursor.get_u16().map(u64::from))),
        Command::GetU24 => Ok(number_or_short(cursor.get_u24().map(u64::from))),
        Command::GetU32 => Ok(number_or_short(cursor.get_u32().map(u64::from))),
        Command::GetU64 => Ok(number_or_short(cursor.get_u64())),
        Command::PeekU8 => Ok(number_or_short(cursor.peek_u8().map(u64::from))),
        Command::GetVarint => Ok(number_or_short(cursor.get_varint())),
        Command::GetVarintShortest => Ok(varint_or_fault(cursor.get_varint_shortest())),
        Command::GetBytes(len) => reads::get_bytes(alloc, cursor, *len),
        Command::PeekBytes(len) => reads::peek_bytes(alloc, cursor, *len),
        Command::GetBytesU8 => reads::get_bytes_with_u8_length(alloc, cursor),
        Command::GetBytesU16 => reads::get_bytes_with_u16_length(alloc, cursor),
        Command::GetBytesVarint => reads::get_bytes_with_varint_length(alloc, cursor),
        Command::GetBytesMut(len, w) => loans::get_bytes_mut(alloc, cursor, *len, w.as_slice()),
        Command::PeekBytesMut(len, w) => loans::peek_bytes_mut(alloc, cursor, *len, w.as_slice()),
        Command::PutU8(v, w) => Ok(puts::put_u8(cursor, *v, w.as_slice())),
        Command::PutU16(v, w) => Ok(puts::put_u16(cursor, *v, w.as_slice())),
        Command::PutU24(v, w) => Ok(puts::put_u24(cursor, *v, w.as_slice())),
        Command::PutU32(v, w) => Ok(puts::put_u32(cursor, *v, w.as_slice())),
        Command::PutU64(v, w) => Ok(puts::put_u64(cursor, *v, w.as_slice())),
        Command::PutVarint(v, w) => Ok(puts::put_varint(cursor, v, w.as_slice())),
        Command::PutVarintWithLen(v, w) => Ok(puts::put_varint_with_len(cursor, v, w.as_slice())),
        Command::PutBytes(bytes) => Ok(done_or_short(cursor.put_bytes(bytes.as_slice()))),
        Command::PutHuffman(value) => {
            Ok(done_or_short(cursor.put_huffman_encoded::<false>(value.as_slice())))
        }
        Command::PutHuffmanLower(value) => {
            Ok(done_or_short(cursor.put_huffman_encoded::<true>(value.as_slice())))
        }
        Command::Decode(max_len) => texts::decode(alloc, cursor, *max_len),
        Command::Rewind(len) => Ok(done_or_short(cursor.rewind(*len))),
        Command::Skip(len) => Ok(done_or_short(cursor.skip(*len))),
        Command::Slice(len, w) => loans::slice(alloc, cursor, *len, w.as_slice()),
        Command::SliceLast(len, w) => loans::slice_last(alloc, cursor, *len, w.as_slice()),
        Command::SplitAt(off, left, right) => halves::split_at(
            alloc,
            cursor,
            *off,
            left.as_slice(),
            right.as_slice(),
        ),
        Command::AsMut(w) => loans::as_mut(alloc, cursor, w.as_slice()),
        Command::Cap => Ok(Reply::Number(cursor.cap() as u64)),
        Command::Len => Ok(Reply::Number(cursor.len() as u64)),
        Command::Off => Ok(Reply::Number(cursor.off() as u64)),
        Command::IsEmpty => Ok(Reply::Number(u64::from(cursor.is_empty()))),
        Command::Buf => queries::buf(alloc, cursor),
        Command::ToVec => queries::to_vec(alloc, cursor),
    }
}
