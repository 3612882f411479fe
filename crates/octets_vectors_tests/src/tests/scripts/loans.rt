//! Each command that lends a part of the buffer, in a script that has no other loan: what it lends,
//! what is written through it, and where the cursor is then.

use super::{Answer, Call, Row, assert_rows};

#[rattlefmt::skip]
static LOANS: [Row; 12] = [
    Row {
        buffer: &[1, 2, 3, 4],
        calls: &[
            (Call::Skip(1), Answer::Done),
            (Call::Slice(2, &[8]), Answer::Bytes(&[2, 3])),
        ],
        left: &[1, 8, 3, 4],
        off: 1,
    },
    Row {
        buffer: &[1, 2, 3, 4],
        calls: &[
            (Call::Skip(1), Answer::Done),
            (Call::SliceLast(2, &[8]), Answer::Bytes(&[3, 4])),
        ],
        left: &[1, 2, 8, 4],
        off: 1,
    },
    Row {
        buffer: &[0],
        calls: &[
            (Call::PutU8(6, &[]), Answer::Done),
        ],
        left: &[6],
        off: 1,
    },
    Row {
        buffer: &[0; 2],
        calls: &[
            (Call::PutU16(0x0204, &[9]), Answer::Done),
        ],
        left: &[9, 4],
        off: 2,
    },
    Row {
        buffer: &[0; 3],
        calls: &[
            (Call::PutU24(0x02_0406, &[9]), Answer::Done),
        ],
        left: &[9, 4, 6],
        off: 3,
    },
    Row {
        buffer: &[0; 4],
        calls: &[
            (Call::PutU32(0x0204_0608, &[9]), Answer::Done),
        ],
        left: &[9, 4, 6, 8],
        off: 4,
    },
    Row {
        buffer: &[0; 8],
        calls: &[
            (Call::PutU64(0x0204_0608_0a0c_0e10, &[9]), Answer::Done),
        ],
        left: &[9, 4, 6, 8, 10, 12, 14, 16],
        off: 8,
    },
    Row {
        buffer: &[0; 2],
        calls: &[
            (Call::PutVarint(74, &[]), Answer::Done),
        ],
        left: &[0x40, 0x4a],
        off: 2,
    },
    Row {
        buffer: &[0; 4],
        calls: &[
            (Call::PutVarintWithLen(74, 4, &[]), Answer::Done),
        ],
        left: &[0x80, 0, 0, 0x4a],
        off: 4,
    },
    Row {
        buffer: &[1, 2, 3],
        calls: &[
            (Call::GetBytesMut(2, &[8]), Answer::Bytes(&[1, 2])),
        ],
        left: &[8, 2, 3],
        off: 2,
    },
    Row {
        buffer: &[1, 2, 3],
        calls: &[
            (Call::PeekBytesMut(2, &[8]), Answer::Bytes(&[1, 2])),
        ],
        left: &[8, 2, 3],
        off: 0,
    },
    Row {
        buffer: &[1, 2, 3],
        calls: &[
            (Call::SplitAt(1, &[8], &[9]), Answer::Two(&[1], &[2, 3])),
        ],
        left: &[8, 9, 3],
        off: 0,
    },
];

#[test]
fn lends_one_part(rt: HostRuntime) {
    assert_rows(&rt, rt.alloc(), &LOANS);
}
