//! Runs of lists of calls by `octets_script`. The cases are plain data, so that one loop is proved for
//! all of them.

mod loans;
mod moves;
mod reads;
mod views;
mod writes;

use super::assert_held;
use octets::{MAX_VAR_INT, OctetsMut};
use octets_script::{Command, Reply, Varint, Wide, run};
use std::alloc::{AllocError, Global};
use std::process::Abort;

/// A command, whose bytes are borrowed.
#[derive(Clone, Copy)]
enum Call {
    GetU8,
    GetU16,
    GetU24,
    GetU32,
    GetU64,
    PeekU8,
    GetVarint,
    GetVarintShortest,
    GetBytes(usize),
    PeekBytes(usize),
    GetBytesU8,
    GetBytesU16,
    GetBytesVarint,
    GetBytesMut(usize, &'static [u8]),
    PeekBytesMut(usize, &'static [u8]),
    PutU8(u8, &'static [u8]),
    PutU16(u16, &'static [u8]),
    PutU24(u32, &'static [u8]),
    PutU32(u32, &'static [u8]),
    PutU64(u64, &'static [u8]),
    PutVarint(u64, &'static [u8]),
    PutVarintWithLen(u64, usize, &'static [u8]),
    PutBytes(&'static [u8]),
    PutHuffman(&'static [u8]),
    PutHuffmanLower(&'static [u8]),
    Decode(usize),
    Rewind(usize),
    Skip(usize),
    Slice(usize, &'static [u8]),
    SliceLast(usize, &'static [u8]),
    SplitAt(usize, &'static [u8], &'static [u8]),
    AsMut(&'static [u8]),
    Cap,
    Len,
    Off,
    IsEmpty,
    Buf,
    ToVec,
}

/// A reply, whose bytes are borrowed.
#[derive(Clone, Copy)]
enum Answer {
    Done,
    Number(u64),
    Bytes(&'static [u8]),
    Two(&'static [u8], &'static [u8]),
    Short,
    Overlong,
}

/// Calls on a buffer, their replies, and the bytes and the offset that they leave.
#[derive(Clone, Copy)]
struct Row {
    buffer: &'static [u8],
    calls: &'static [(Call, Answer)],
    left: &'static [u8],
    off: usize,
}

/// Returns the command of a call that has no bytes.
fn plain(call: &Call) -> Option<Command> {
    Some(match *call {
        Call::GetU8 => Command::GetU8,
        Call::GetU16 => Command::GetU16,
        Call::GetU24 => Command::GetU24,
        Call::GetU32 => Command::GetU32,
        Call::GetU64 => Command::GetU64,
        Call::PeekU8 => Command::PeekU8,
        Call::GetVarint => Command::GetVarint,
        Call::GetVarintShortest => Command::GetVarintShortest,
        Call::GetBytes(len) => Command::GetBytes(len),
        Call::PeekBytes(len) => Command::PeekBytes(len),
        Call::GetBytesU8 => Command::GetBytesU8,
        Call::GetBytesU16 => Command::GetBytesU16,
        Call::GetBytesVarint => Command::GetBytesVarint,
        Call::Decode(limit) => Command::Decode(limit),
        Call::Rewind(len) => Command::Rewind(len),
        Call::Skip(len) => Command::Skip(len),
        Call::Cap => Command::Cap,
        Call::Len => Command::Len,
        Call::Off => Command::Off,
        Call::IsEmpty => Command::IsEmpty,
        Call::Buf => Command::Buf,
        Call::ToVec => Command::ToVec,
        _ => return None,
    })
}

/// Returns the bytes of a call: those that it writes through its loan, or its value.
fn bytes_of(call: &Call) -> &'static [u8] {
    match *call {
        Call::GetBytesMut(_, w) | Call::PeekBytesMut(_, w) => w,
        Call::Slice(_, w) | Call::SliceLast(_, w) | Call::AsMut(w) => w,
        Call::PutU8(_, w) | Call::PutU16(_, w) | Call::PutU24(_, w) => w,
        Call::PutU32(_, w) | Call::PutU64(_, w) | Call::PutVarint(_, w) => w,
        Call::PutVarintWithLen(_, _, w) | Call::SplitAt(_, w, _) => w,
        Call::PutBytes(w) | Call::PutHuffman(w) | Call::PutHuffmanLower(w) => w,
        _ => &[],
    }
}

/// Returns the command of a call with these bytes, if such a command can be made.
fn with_bytes(call: &Call, w: Vec<u8>) -> Option<Command> {
    Some(match *call {
        Call::GetBytesMut(len, _) => Command::GetBytesMut(len, w),
        Call::PeekBytesMut(len, _) => Command::PeekBytesMut(len, w),
        Call::PutU8(v, _) => Command::PutU8(v, w),
        Call::PutU16(v, _) => Command::PutU16(v, w),
        Call::PutU24(v, _) => Command::PutU24(v, w),
        Call::PutU32(v, _) => Command::PutU32(v, w),
        Call::PutU64(v, _) => Command::PutU64(v, w),
        Call::PutVarint(v, _) => Command::PutVarint(Varint::new(v)?, w),
        Call::PutVarintWithLen(v, len, _) => Command::PutVarintWithLen(Wide::new(v, len)?, w),
        Call::PutBytes(_) => Command::PutBytes(w),
        Call::PutHuffman(_) => Command::PutHuffman(w),
        Call::PutHuffmanLower(_) => Command::PutHuffmanLower(w),
        Call::Slice(len, _) => Command::Slice(len, w),
        Call::SliceLast(len, _) => Command::SliceLast(len, w),
        Call::AsMut(_) => Command::AsMut(w),
        _ => return None,
    })
}

/// Returns the command of a call, if such a command can be made.
fn command_of(alloc: Global, call: &Call) -> Result<Option<Command>, AllocError> {
    if let Some(command) = plain(call) {
        return Ok(Some(command));
    }
    let bytes = bytes_of(call).to_vec(alloc)?;
    match *call {
        Call::SplitAt(off, _, right) => {
            let right = right.to_vec(alloc)?;
            Ok(Some(Command::SplitAt(off, bytes, right)))
        }
        _ => Ok(with_bytes(call, bytes)),
    }
}

/// Whether the reply is the expected one.
fn is_answer(reply: &Reply, answer: &Answer) -> bool {
    match (reply, *answer) {
        (Reply::Done, Answer::Done) | (Reply::Short, Answer::Short) => true,
        (Reply::Overlong, Answer::Overlong) => true,
        (Reply::Number(number), Answer::Number(wanted)) => *number == wanted,
        (Reply::Bytes(bytes), Answer::Bytes(wanted)) => bytes.as_slice() == wanted,
        (Reply::Two(left, right), Answer::Two(first, second)) => {
            left.as_slice() == first && right.as_slice() == second
        }
        _ => false,
    }
}

/// Returns the commands of the calls of a case.
fn commands_of(alloc: Global, calls: &[(Call, Answer)]) -> Result<Vec<Command>, AllocError> {
    let mut commands = Vec::new(alloc);
    for (call, _) in calls {
        if let Some(command) = command_of(alloc, call)? {
            commands.push(command)?;
        }
    }
    Ok(commands)
}

/// Whether the replies are those that the calls expect.
fn are_answers(replies: &[Reply], calls: &[(Call, Answer)]) -> bool {
    if replies.len() != calls.len() {
        return false;
    }
    for (reply, (_, answer)) in replies.iter().zip(calls) {
        if !is_answer(reply, answer) {
            return false;
        }
    }
    true
}

/// Whether the calls of a case have its replies, and leave its bytes and its offset.
fn is_as_expected(alloc: Global, row: &Row) -> Result<bool, AllocError> {
    let commands = commands_of(alloc, row.calls)?;
    let mut buffer = row.buffer.to_vec(alloc)?;
    let mut cursor = OctetsMut::with_slice(&mut buffer);
    let Ok(replies) = run(alloc, &mut cursor, &commands) else {
        return Ok(false);
    };
    Ok(cursor.off() == row.off && buffer.as_slice() == row.left && are_answers(&replies, row.calls))
}

/// Each case holds.
fn assert_rows(rt: &impl Abort, alloc: Global, rows: &[Row]) {
    for (i, row) in rows.iter().enumerate() {
        assert_held(rt, "runs as expected", i, is_as_expected(alloc, row));
    }
}

#[test]
fn makes_varints_that_may_be_put(rt: HostRuntime) {
    assert!(rt; Varint::new(MAX_VAR_INT).is_some() && Varint::new(MAX_VAR_INT + 1).is_none());
    assert!(rt; Wide::new(63, 1).is_some() && Wide::new(64, 1).is_none());
    assert!(rt; Wide::new(0, 3).is_none());
}
