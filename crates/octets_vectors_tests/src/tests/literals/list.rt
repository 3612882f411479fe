//! Lists of literals.

use crate::tests::assert_holds;
use octets::Octets;
use octets_literal::{LiteralError, get_strings};
use std::alloc::Global;

/// Whether these are the values `a`, none and `aaa`.
fn are_three(values: &[Vec<u8>]) -> bool {
    match values {
        [first, second, third] => {
            first.as_slice() == b"a".as_slice()
                && second.is_empty()
                && third.as_slice() == b"aaa".as_slice()
        }
        _ => false,
    }
}

/// Whether a read of these three literals returns their values.
fn is_read(alloc: Global) -> bool {
    let mut cursor = Octets::with_slice(b"\x01\x61\x80\x82\x18\xc7");
    match get_strings(alloc, &mut cursor, 3) {
        Ok(values) => are_three(&values) && cursor.cap() == 0,
        Err(_) => false,
    }
}

#[test]
fn reads_a_list(rt: HostRuntime) {
    assert!(rt; is_read(rt.alloc()));
}

/// Bytes, a limit, the error of the read, and the offset after it.
type Refusal = (&'static [u8], usize, LiteralError, usize);

#[rattlefmt::skip]
static REFUSED: [Refusal; 4] = [
    (b"\x01\x61\x82\x18", 3, LiteralError::Short, 2),
    (b"\x01\x61\x80\x82\x18\xc7", 2, LiteralError::Value, 3),
    (b"\x01\x61\x80\x03\x61\x61\x61", 2, LiteralError::Value, 3),
    (b"\x01\x61", 0, LiteralError::Value, 0),
];

/// Whether a read of the bytes fails as the case says.
fn is_refused(alloc: Global, row: &Refusal) -> bool {
    let (bytes, limit, error, off) = *row;
    let mut cursor = Octets::with_slice(bytes);
    get_strings(alloc, &mut cursor, limit).err() == Some(error) && cursor.off() == off
}

#[test]
fn stops_at_the_first_refused(rt: HostRuntime) {
    for (i, row) in REFUSED.iter().enumerate() {
        assert_holds(&rt, "is refused", i, is_refused(rt.alloc(), row));
    }
}
