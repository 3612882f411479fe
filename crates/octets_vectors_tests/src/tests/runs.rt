//! Runs of bytes, with and without a length before them.

use super::assert_reads;
use octets::{Bytes, Cursor, Octets, OctetsMut};
use octets_vectors::calls::reads::{Read, Row};
use std::alloc::{AllocError, Global};

/// Calls for runs of bytes.
#[rattlefmt::skip]
static RUNS: [Row; 9] = [
    // The last bytes of the whole buffer, at most as many as remain.
    (b"helloworld", &[
        Read::GetBytes(5, Some(b"hello")),
        Read::SliceLast(4, Some(b"orld")),
        Read::SliceLast(6, None),
        Read::Rewind(6, None),
        Read::At(5, 5),
        Read::Rewind(5, Some(())),
        Read::At(0, 10),
    ]),
    // Each run, and the offset after it.
    (b"\x02ab\x00\x02cd\x40\x02efgh", &[
        Read::GetBytesU8(Some(b"ab")),
        Read::At(3, 10),
        Read::GetBytesU16(Some(b"cd")),
        Read::At(7, 6),
        Read::GetBytesVarint(Some(b"ef")),
        Read::At(11, 2),
        Read::Rest(b"gh"),
    ]),
    // The first call fails, and the second returns where the offset is then.
    (b"\x05\x01", &[Read::GetBytesU8(None), Read::At(1, 1)]),
    (b"", &[Read::GetBytesU8(None), Read::At(0, 0)]),
    (b"\x00\x05\x01", &[Read::GetBytesU16(None), Read::At(2, 1)]),
    (b"\x00", &[Read::GetBytesU16(None), Read::At(0, 1)]),
    (b"\xff\xff\xff\xff\xff\xff\xff\xff", &[Read::GetBytesVarint(None), Read::At(8, 0)]),
    (b"\x40", &[Read::GetBytesVarint(None), Read::At(0, 1)]),
    (b"\xc0\x00\x00\x01\x00\x00\x00\x00", &[Read::GetBytesVarint(None), Read::At(8, 0)]),
];

#[test]
fn reads_runs(rt: HostRuntime) {
    assert_reads(&rt, &RUNS);
}

/// Whether the cursor copies what remains, and has the whole buffer afterwards.
fn is_copied<B: Bytes>(alloc: Global, cursor: &mut Cursor<B>) -> Result<bool, AllocError> {
    let is_passed = cursor.skip(5).is_ok();
    Ok(is_passed && cursor.to_vec(alloc)?.as_slice() == b"world".as_slice() && cursor.off() == 5)
}

#[test]
fn copies_what_remains(rt: HostRuntime) {
    let mut cursor = Octets::with_slice(b"helloworld");
    assert!(rt; is_copied(rt.alloc(), &mut cursor) == Ok(true));
    assert!(rt; cursor.buf() == b"helloworld".as_slice());
    let mut bytes = *b"helloworld";
    let mut cursor = OctetsMut::with_slice(&mut bytes);
    assert!(rt; is_copied(rt.alloc(), &mut cursor) == Ok(true));
    assert!(rt; cursor.buf() == b"helloworld".as_slice());
}
