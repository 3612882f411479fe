//! Scripts that read numbers, varints, runs of bytes and encodings.

use super::{Answer, Call, Row, assert_rows};

#[rattlefmt::skip]
static READS: [Row; 10] = [
    // Numbers, and numbers of which bytes are missing.
    Row {
        buffer: &[1, 2, 3, 4, 5, 6, 7, 8, 9, 10, 11, 12, 13, 14, 15, 16, 17, 18],
        calls: &[
            (Call::PeekU8, Answer::Number(1)),
            (Call::GetU8, Answer::Number(1)),
            (Call::GetU16, Answer::Number(0x0203)),
            (Call::GetU24, Answer::Number(0x040506)),
            (Call::GetU32, Answer::Number(0x0708_090a)),
            (Call::GetU64, Answer::Number(0x0b0c_0d0e_0f10_1112)),
        ],
        left: &[1, 2, 3, 4, 5, 6, 7, 8, 9, 10, 11, 12, 13, 14, 15, 16, 17, 18],
        off: 18,
    },
    Row {
        buffer: &[9],
        calls: &[
            (Call::GetU64, Answer::Short),
            (Call::GetU32, Answer::Short),
            (Call::GetU24, Answer::Short),
            (Call::GetU16, Answer::Short),
            (Call::GetU8, Answer::Number(9)),
            (Call::PeekU8, Answer::Short),
            (Call::GetU8, Answer::Short),
        ],
        left: &[9],
        off: 1,
    },
    // Varints, also in a width that is greater than the least.
    Row {
        buffer: &[0x40, 0x25, 0x7b, 0xbd, 0xc2],
        calls: &[
            (Call::GetVarint, Answer::Number(37)),
            (Call::GetVarint, Answer::Number(15293)),
            (Call::GetVarint, Answer::Short),
        ],
        left: &[0x40, 0x25, 0x7b, 0xbd, 0xc2],
        off: 4,
    },
    Row {
        buffer: &[0x40, 0x25, 0x40, 0x40, 0x40],
        calls: &[
            (Call::GetVarintShortest, Answer::Overlong),
            (Call::Off, Answer::Number(0)),
            (Call::GetVarint, Answer::Number(37)),
            (Call::GetVarintShortest, Answer::Number(64)),
            (Call::GetVarintShortest, Answer::Short),
            (Call::Cap, Answer::Number(1)),
        ],
        left: &[0x40, 0x25, 0x40, 0x40, 0x40],
        off: 4,
    },
    // Runs, also after their length. A length that is complete is passed, even if its run is not.
    Row {
        buffer: &[1, 2, 3],
        calls: &[
            (Call::PeekBytes(2), Answer::Bytes(&[1, 2])),
            (Call::GetBytes(1), Answer::Bytes(&[1])),
            (Call::GetBytes(3), Answer::Short),
            (Call::PeekBytes(3), Answer::Short),
            (Call::GetBytes(0), Answer::Bytes(&[])),
        ],
        left: &[1, 2, 3],
        off: 1,
    },
    Row {
        buffer: &[1, 7, 0, 2, 8, 9, 0x40, 1, 6, 3, 5],
        calls: &[
            (Call::GetBytesU8, Answer::Bytes(&[7])),
            (Call::GetBytesU16, Answer::Bytes(&[8, 9])),
            (Call::GetBytesVarint, Answer::Bytes(&[6])),
            (Call::GetBytesVarint, Answer::Short),
        ],
        left: &[1, 7, 0, 2, 8, 9, 0x40, 1, 6, 3, 5],
        off: 10,
    },
    Row {
        buffer: &[0, 9, 5, 1],
        calls: &[
            (Call::GetBytesU16, Answer::Short),
            (Call::GetBytesU8, Answer::Short),
            (Call::GetBytesU16, Answer::Short),
            (Call::GetBytesU8, Answer::Short),
            (Call::GetBytesVarint, Answer::Short),
        ],
        left: &[0, 9, 5, 1],
        off: 4,
    },
    // Encodings. A decode that fails passes what it read.
    Row {
        buffer: &[0x1f, 0xff],
        calls: &[
            (Call::Decode(0), Answer::Short),
            (Call::GetU8, Answer::Number(255)),
        ],
        left: &[0x1f, 0xff],
        off: 2,
    },
    Row {
        buffer: &[0x1f, 0xff],
        calls: &[
            (Call::Decode(1), Answer::Short),
            (Call::Cap, Answer::Number(0)),
        ],
        left: &[0x1f, 0xff],
        off: 2,
    },
    Row {
        buffer: &[9, 0x1f],
        calls: &[
            (Call::GetU8, Answer::Number(9)),
            (Call::Decode(1), Answer::Bytes(b"a")),
            (Call::Decode(0), Answer::Bytes(&[])),
        ],
        left: &[9, 0x1f],
        off: 2,
    },
];

#[test]
fn reads(rt: HostRuntime) {
    assert_rows(&rt, rt.alloc(), &READS);
}
