//! Runs of bytes, as views and as slices.

use super::{assert_reads, assert_reads_mut};
use crate::calls::reads::{Read, Row};

#[rattlefmt::skip]
static GET_BYTES: [Row; 1] = [
    (&[1, 2, 3, 4, 5, 6, 7, 8, 9, 10], &[
        Read::At(0, 10),
        Read::GetBytes(5, Some(&[1, 2, 3, 4, 5])),
        Read::At(5, 5),
        Read::GetBytes(3, Some(&[6, 7, 8])),
        Read::At(8, 2),
        Read::GetBytes(3, None),
        Read::At(8, 2),
        Read::GetBytes(2, Some(&[9, 10])),
        Read::At(10, 0),
        Read::GetBytes(2, None),
    ]),
];

#[test]
fn get_bytes(rt: HostRuntime) {
    assert_reads(&rt, &GET_BYTES);
}

#[test]
fn get_bytes_mut(rt: HostRuntime) {
    assert_reads_mut(&rt, &GET_BYTES);
}

#[rattlefmt::skip]
static PEEK_BYTES: [Row; 1] = [
    (&[1, 2, 3, 4, 5, 6, 7, 8, 9, 10], &[
        Read::At(0, 10),
        Read::PeekBytes(5, Some(&[1, 2, 3, 4, 5])),
        Read::At(0, 10),
        Read::PeekBytes(5, Some(&[1, 2, 3, 4, 5])),
        Read::At(0, 10),
        Read::GetBytes(5, Some(&[1, 2, 3, 4, 5])),
    ]),
];

#[test]
fn peek_bytes(rt: HostRuntime) {
    assert_reads(&rt, &PEEK_BYTES);
}

#[test]
fn peek_bytes_mut(rt: HostRuntime) {
    assert_reads_mut(&rt, &PEEK_BYTES);
}

#[rattlefmt::skip]
static SLICE: [Row; 1] = [
    (b"helloworld", &[
        Read::Slice(5, Some(b"hello")),
        Read::Slice(0, Some(b"")),
        Read::Slice(11, None),
        Read::GetBytes(5, Some(b"hello")),
        Read::Slice(5, Some(b"world")),
    ]),
];

#[test]
fn slice(rt: HostRuntime) {
    assert_reads(&rt, &SLICE);
}

#[test]
fn slice_mut(rt: HostRuntime) {
    assert_reads_mut(&rt, &SLICE);
}

#[rattlefmt::skip]
static SLICE_LAST: [Row; 1] = [
    (b"helloworld", &[
        Read::SliceLast(4, Some(b"orld")),
        Read::SliceLast(1, Some(b"d")),
        Read::SliceLast(0, Some(b"")),
        Read::SliceLast(10, Some(b"helloworld")),
        Read::SliceLast(11, None),
        Read::GetBytes(5, Some(b"hello")),
        Read::SliceLast(4, Some(b"orld")),
    ]),
];

#[test]
fn slice_last(rt: HostRuntime) {
    assert_reads(&rt, &SLICE_LAST);
}

#[test]
fn slice_last_mut(rt: HostRuntime) {
    assert_reads_mut(&rt, &SLICE_LAST);
}
