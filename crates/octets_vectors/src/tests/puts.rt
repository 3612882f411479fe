//! Numbers, varints and bytes that are written.

use super::assert_writes;
use crate::calls::reads::Read;
use crate::calls::writes::{Row, Write};

/// Each number, into as many bytes as it has; and the first number, into three bytes.
#[rattlefmt::skip]
static PUT_VARINT: [Row; 5] = [
    Row {
        bytes: &[0; 8],
        writes: &[
            Write::PutVarint(151288809941952652, Some((b"\xc2\x19\x7c\x5e\xff\x14\xe8\x8c", &[]))),
            Write::Read(Read::At(8, 0)),
        ],
        left: b"\xc2\x19\x7c\x5e\xff\x14\xe8\x8c",
    },
    Row {
        bytes: &[0; 4],
        writes: &[
            Write::PutVarint(494878333, Some((b"\x9d\x7f\x3e\x7d", &[]))),
            Write::Read(Read::At(4, 0)),
        ],
        left: b"\x9d\x7f\x3e\x7d",
    },
    Row {
        bytes: &[0; 2],
        writes: &[
            Write::PutVarint(15293, Some((b"\x7b\xbd", &[]))),
            Write::Read(Read::At(2, 0)),
        ],
        left: b"\x7b\xbd",
    },
    Row {
        bytes: &[0; 1],
        writes: &[
            Write::PutVarint(37, Some((b"\x25", &[]))),
            Write::Read(Read::At(1, 0)),
        ],
        left: b"\x25",
    },
    Row {
        bytes: &[0; 3],
        writes: &[
            Write::PutVarint(151288809941952652, None),
            Write::Read(Read::At(0, 3)),
        ],
        left: &[0; 3],
    },
];

#[test]
fn put_varint(rt: HostRuntime) {
    assert_writes(&rt, &PUT_VARINT);
}

#[rattlefmt::skip]
static PUT_U: [Row; 1] = [
    Row {
        bytes: &[0; 18],
        writes: &[
            Write::PutU8(1, Some((&[1], &[]))),
            Write::Read(Read::At(1, 17)),
            Write::PutU16(0x0203, Some((&[2, 3], &[]))),
            Write::Read(Read::At(3, 15)),
            Write::PutU24(0x04_0506, Some((&[4, 5, 6], &[]))),
            Write::Read(Read::At(6, 12)),
            Write::PutU32(0x0708_090a, Some((&[7, 8, 9, 10], &[]))),
            Write::Read(Read::At(10, 8)),
            Write::PutU64(0x0b0c_0d0e_0f10_1112, Some((&[11, 12, 13, 14, 15, 16, 17, 18], &[]))),
            Write::Read(Read::At(18, 0)),
            Write::PutU8(1, None),
        ],
        left: &[1, 2, 3, 4, 5, 6, 7, 8, 9, 10, 11, 12, 13, 14, 15, 16, 17, 18],
    },
];

#[test]
fn put_u(rt: HostRuntime) {
    assert_writes(&rt, &PUT_U);
}

#[rattlefmt::skip]
static PUT_BYTES: [Row; 1] = [
    Row {
        bytes: &[0; 5],
        writes: &[
            Write::PutBytes(&[10, 11, 12, 13, 14], Some(())),
            Write::Read(Read::At(5, 0)),
            Write::PutU8(1, None),
        ],
        left: &[10, 11, 12, 13, 14],
    },
];

#[test]
fn put_bytes(rt: HostRuntime) {
    assert_writes(&rt, &PUT_BYTES);
}
