//! Scripts that move, or that read nothing of an empty buffer or by a length that is too great.

use super::{Answer, Call, Row, assert_rows};

#[rattlefmt::skip]
static MOVES: [Row; 7] = [
    // The worked example of the crate.
    Row {
        buffer: &[0; 4],
        calls: &[
            (Call::PutU16(258, &[]), Answer::Done),
            (Call::Rewind(1), Answer::Done),
            (Call::GetU8, Answer::Number(2)),
            (Call::PutVarint(37, &[0x40]), Answer::Done),
            (Call::Skip(2), Answer::Short),
        ],
        left: &[1, 2, 0x40, 0],
        off: 3,
    },
    // No commands.
    Row {
        buffer: &[],
        calls: &[],
        left: &[],
        off: 0,
    },
    // Moves, and what is then said of the cursor.
    Row {
        buffer: &[1, 2, 3],
        calls: &[
            (Call::Rewind(1), Answer::Short),
            (Call::Skip(2), Answer::Done),
            (Call::Skip(2), Answer::Short),
            (Call::Rewind(1), Answer::Done),
            (Call::Cap, Answer::Number(2)),
            (Call::Len, Answer::Number(3)),
            (Call::Off, Answer::Number(1)),
            (Call::IsEmpty, Answer::Number(0)),
            (Call::Buf, Answer::Bytes(&[1, 2, 3])),
            (Call::ToVec, Answer::Bytes(&[2, 3])),
        ],
        left: &[1, 2, 3],
        off: 1,
    },
    // The buffer has ten bytes, five of which were passed.
    Row {
        buffer: b"helloworld",
        calls: &[
            (Call::Skip(5), Answer::Done),
            (Call::GetBytes(usize::MAX), Answer::Short),
            (Call::PeekBytes(usize::MAX), Answer::Short),
            (Call::GetBytesMut(usize::MAX, &[]), Answer::Short),
            (Call::PeekBytesMut(usize::MAX, &[]), Answer::Short),
            (Call::Slice(usize::MAX, &[]), Answer::Short),
            (Call::SliceLast(usize::MAX, &[]), Answer::Short),
            (Call::SplitAt(usize::MAX, &[], &[]), Answer::Short),
            (Call::Skip(usize::MAX), Answer::Short),
            (Call::Rewind(usize::MAX), Answer::Short),
        ],
        left: b"helloworld",
        off: 5,
    },
    // The sum of this length and the offset would overflow.
    Row {
        buffer: b"helloworld",
        calls: &[
            (Call::Skip(5), Answer::Done),
            (Call::GetBytes(usize::MAX - 4), Answer::Short),
            (Call::PeekBytes(usize::MAX - 4), Answer::Short),
            (Call::GetBytesMut(usize::MAX - 4, &[]), Answer::Short),
            (Call::PeekBytesMut(usize::MAX - 4, &[]), Answer::Short),
            (Call::Slice(usize::MAX - 4, &[]), Answer::Short),
            (Call::SliceLast(usize::MAX - 4, &[]), Answer::Short),
            (Call::SplitAt(usize::MAX - 4, &[], &[]), Answer::Short),
            (Call::Skip(usize::MAX - 4), Answer::Short),
            (Call::Rewind(usize::MAX - 4), Answer::Short),
        ],
        left: b"helloworld",
        off: 5,
    },
    // Nothing is read of an empty buffer.
    Row {
        buffer: &[],
        calls: &[
            (Call::IsEmpty, Answer::Number(1)),
            (Call::Len, Answer::Number(0)),
            (Call::Cap, Answer::Number(0)),
            (Call::GetU8, Answer::Short),
            (Call::GetU16, Answer::Short),
            (Call::GetU24, Answer::Short),
            (Call::GetU32, Answer::Short),
            (Call::GetU64, Answer::Short),
            (Call::PeekU8, Answer::Short),
            (Call::GetVarint, Answer::Short),
            (Call::GetBytes(1), Answer::Short),
            (Call::PeekBytes(1), Answer::Short),
            (Call::GetBytesU8, Answer::Short),
            (Call::GetBytesU16, Answer::Short),
            (Call::GetBytesVarint, Answer::Short),
            (Call::Skip(1), Answer::Short),
            (Call::Rewind(1), Answer::Short),
        ],
        left: &[],
        off: 0,
    },
    // Nothing is written into an empty buffer.
    Row {
        buffer: &[],
        calls: &[
            (Call::PutBytes(&[]), Answer::Done),
            (Call::SplitAt(0, &[], &[]), Answer::Two(&[], &[])),
            (Call::SplitAt(1, &[], &[]), Answer::Short),
            (Call::AsMut(&[]), Answer::Bytes(&[])),
            (Call::GetBytesMut(1, &[]), Answer::Short),
            (Call::PeekBytesMut(1, &[]), Answer::Short),
            (Call::Slice(1, &[]), Answer::Short),
            (Call::SliceLast(1, &[]), Answer::Short),
            (Call::PutU8(1, &[]), Answer::Short),
        ],
        left: &[],
        off: 0,
    },
];

#[test]
fn moves_and_fails_beyond_the_buffer(rt: HostRuntime) {
    assert_rows(&rt, rt.alloc(), &MOVES);
}
