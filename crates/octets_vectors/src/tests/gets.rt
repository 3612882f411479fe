//! Numbers, and a move back over one.

use super::{assert_reads, assert_reads_mut};
use crate::calls::reads::{Read, Row};

#[rattlefmt::skip]
static GET_U: [Row; 1] = [
    (&[1, 2, 3, 4, 5, 6, 7, 8, 9, 10, 11, 12, 13, 14, 15, 16, 17, 18], &[
        Read::At(0, 18),
        Read::GetU8(Some(1)),
        Read::At(1, 17),
        Read::GetU16(Some(0x0203)),
        Read::At(3, 15),
        Read::GetU24(Some(0x04_0506)),
        Read::At(6, 12),
        Read::GetU32(Some(0x0708_090a)),
        Read::At(10, 8),
        Read::GetU64(Some(0x0b0c_0d0e_0f10_1112)),
        Read::At(18, 0),
        Read::GetU8(None),
        Read::GetU16(None),
        Read::GetU24(None),
        Read::GetU32(None),
        Read::GetU64(None),
    ]),
];

#[test]
fn get_u(rt: HostRuntime) {
    assert_reads(&rt, &GET_U);
}

#[test]
fn get_u_mut(rt: HostRuntime) {
    assert_reads_mut(&rt, &GET_U);
}

#[rattlefmt::skip]
static PEEK_U: [Row; 1] = [
    (&[1, 2], &[
        Read::At(0, 2),
        Read::PeekU8(Some(1)),
        Read::At(0, 2),
        Read::PeekU8(Some(1)),
        Read::At(0, 2),
        Read::GetU16(Some(0x0102)),
        Read::PeekU8(None),
    ]),
];

#[test]
fn peek_u(rt: HostRuntime) {
    assert_reads(&rt, &PEEK_U);
}

#[test]
fn peek_u_mut(rt: HostRuntime) {
    assert_reads_mut(&rt, &PEEK_U);
}

/// The examples of RFC 9000, section A.1, of which one is wider than its value needs.
#[rattlefmt::skip]
static GET_VARINT: [Row; 5] = [
    (b"\xc2\x19\x7c\x5e\xff\x14\xe8\x8c", &[Read::GetVarint(Some(151288809941952652)), Read::At(8, 0)]),
    (b"\x9d\x7f\x3e\x7d", &[Read::GetVarint(Some(494878333)), Read::At(4, 0)]),
    (b"\x7b\xbd", &[Read::GetVarint(Some(15293)), Read::At(2, 0)]),
    (b"\x40\x25", &[Read::GetVarint(Some(37)), Read::At(2, 0)]),
    (b"\x25", &[Read::GetVarint(Some(37)), Read::At(1, 0)]),
];

#[test]
fn get_varint(rt: HostRuntime) {
    assert_reads(&rt, &GET_VARINT);
}

#[test]
fn get_varint_mut(rt: HostRuntime) {
    assert_reads_mut(&rt, &GET_VARINT);
}

#[rattlefmt::skip]
static REWIND: [Row; 1] = [
    (b"\xc2\x19\x7c\x5e\xff\x14\xe8\x8c", &[
        Read::GetVarint(Some(151288809941952652)),
        Read::At(8, 0),
        Read::Rewind(4, Some(())),
        Read::At(4, 4),
        Read::GetU8(Some(0xff)),
        Read::At(5, 3),
        Read::Rewind(6, None),
        Read::At(5, 3),
        Read::Rewind(5, Some(())),
        Read::At(0, 8),
        Read::Rewind(1, None),
    ]),
];

#[test]
fn rewind(rt: HostRuntime) {
    assert_reads(&rt, &REWIND);
}

#[test]
fn rewind_mut(rt: HostRuntime) {
    assert_reads_mut(&rt, &REWIND);
}
