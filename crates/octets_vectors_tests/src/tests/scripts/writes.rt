//! Scripts that write numbers, varints, bytes and encodings, and then write over them.

use super::{Answer, Call, Row, assert_rows};

#[rattlefmt::skip]
static WRITES: [Row; 7] = [
    // Numbers and bytes, and those that do not fit.
    Row {
        buffer: &[0; 19],
        calls: &[
            (Call::PutU8(1, &[]), Answer::Done),
            (Call::PutU16(0x0203, &[0xff]), Answer::Done),
            (Call::PutU24(0x0104_0506, &[]), Answer::Done),
            (Call::PutU32(0x0708_090a, &[0xee, 0xdd, 0xcc, 0xbb, 0xaa]), Answer::Done),
            (Call::PutU64(0x0b0c_0d0e_0f10_1112, &[]), Answer::Done),
            (Call::PutBytes(&[19]), Answer::Done),
        ],
        left: &[1, 0xff, 3, 4, 5, 6, 0xee, 0xdd, 0xcc, 0xbb, 11, 12, 13, 14, 15, 16, 17, 18, 19],
        off: 19,
    },
    Row {
        buffer: &[0],
        calls: &[
            (Call::PutU64(1, &[1]), Answer::Short),
            (Call::PutU32(1, &[1]), Answer::Short),
            (Call::PutU24(1, &[1]), Answer::Short),
            (Call::PutU16(1, &[1]), Answer::Short),
            (Call::PutBytes(&[1, 2]), Answer::Short),
            (Call::PeekBytes(1), Answer::Bytes(&[0])),
            (Call::PutBytes(&[9]), Answer::Done),
            (Call::PutU8(1, &[1]), Answer::Short),
        ],
        left: &[9],
        off: 1,
    },
    // Varints, and those that do not fit.
    Row {
        buffer: &[0; 5],
        calls: &[
            (Call::PutVarintWithLen(37, 2, &[]), Answer::Done),
            (Call::PutVarint(64, &[0x7f]), Answer::Done),
        ],
        left: &[0x40, 0x25, 0x7f, 0x40, 0],
        off: 4,
    },
    Row {
        buffer: &[0],
        calls: &[
            (Call::PutVarintWithLen(0, 4, &[1]), Answer::Short),
            (Call::PutVarint(64, &[1]), Answer::Short),
        ],
        left: &[0],
        off: 0,
    },
    // Encodings, the first of which does not fit.
    Row {
        buffer: &[0],
        calls: &[
            (Call::PutHuffman(b"aaa"), Answer::Short),
        ],
        left: &[0x18],
        off: 1,
    },
    Row {
        buffer: &[0; 3],
        calls: &[
            (Call::PutHuffman(b"a"), Answer::Done),
            (Call::PutHuffmanLower(b"A"), Answer::Done),
            (Call::PutHuffman(b"A"), Answer::Done),
        ],
        left: &[0x1f, 0x1f, 0x87],
        off: 3,
    },
    Row {
        buffer: &[],
        calls: &[
            (Call::PutHuffmanLower(b"A"), Answer::Short),
        ],
        left: &[],
        off: 0,
    },
];

#[test]
fn writes_and_writes_over(rt: HostRuntime) {
    assert_rows(&rt, rt.alloc(), &WRITES);
}
