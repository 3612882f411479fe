//! Reads of literals into memory and into the caller's slice.

use super::rows::{READ, REFUSED, Row, WRITTEN};
use crate::tests::assert_holds;
use octets::Octets;
use octets_literal::{LiteralError, get_string, get_string_into};
use std::alloc::Global;
use std::process::Abort;

/// Whether the value is read from the whole literal, under the limit that just admits it.
fn is_read(alloc: Global, value: &[u8], literal: &[u8]) -> bool {
    let mut cursor = Octets::with_slice(literal);
    match get_string(alloc, &mut cursor, value.len()) {
        Ok(read) => read.as_slice() == value && cursor.off() == literal.len(),
        Err(_) => false,
    }
}

/// Whether the value of the whole literal is written at the start of the slice, and all after it is
/// unchanged.
fn is_read_into(value: &[u8], literal: &[u8], out: &mut [u8]) -> bool {
    let mut cursor = Octets::with_slice(literal);
    get_string_into(&mut cursor, out).ok() == Some(value.len())
        && cursor.off() == literal.len()
        && out.starts_with(value)
        && out.iter().skip(value.len()).all(|byte| *byte == 0xee)
}

/// Whether the value is read into a slice that it just fits.
fn is_fitted(value: &[u8], literal: &[u8]) -> bool {
    let mut out = [0xee; 64];
    match out.get_mut(..value.len()) {
        Some(part) => is_read_into(value, literal, part),
        None => false,
    }
}

/// Each value is read from its literal.
fn assert_read(rt: &impl Abort, alloc: Global, rows: &[Row]) {
    for (i, (value, literal)) in rows.iter().enumerate() {
        assert_holds(rt, "is read", i, is_read(alloc, value, literal));
        assert_holds(rt, "is read into as much", i, is_fitted(value, literal));
        let is_front = is_read_into(value, literal, &mut [0xee; 64]);
        assert_holds(rt, "is read into more", i, is_front);
    }
}

#[test]
fn reads_what_is_written(rt: HostRuntime) {
    assert_read(&rt, rt.alloc(), &WRITTEN);
}

#[test]
fn reads_other_spellings(rt: HostRuntime) {
    assert_read(&rt, rt.alloc(), &READ);
}

/// Whether a read of the bytes fails with this error and leaves the offset unchanged.
fn is_refused(alloc: Global, bytes: &[u8], limit: usize, error: LiteralError) -> bool {
    let mut cursor = Octets::with_slice(bytes);
    get_string(alloc, &mut cursor, limit).err() == Some(error) && cursor.off() == 0
}

/// The same for a read into a slice of as many bytes as the limit.
fn is_refused_into(bytes: &[u8], limit: usize, error: LiteralError) -> bool {
    let mut out = [0xee; 100];
    let Some(part) = out.get_mut(..limit) else {
        return false;
    };
    let mut cursor = Octets::with_slice(bytes);
    get_string_into(&mut cursor, part).err() == Some(error) && cursor.off() == 0
}

#[test]
fn refuses_by_the_first_fault(rt: HostRuntime) {
    for (i, (bytes, limit, error)) in REFUSED.iter().enumerate() {
        let is_refused = is_refused(rt.alloc(), bytes, *limit, *error);
        assert_holds(&rt, "is refused", i, is_refused);
        let is_refused = is_refused_into(bytes, *limit, *error);
        assert_holds(&rt, "is refused with a slice", i, is_refused);
    }
}

/// The literal has the length 127 with an additional group of zeros, and 127 times `a`.
#[test]
fn reads_a_padded_length(rt: HostRuntime) {
    let mut bytes = [b'a'; 130];
    bytes[0] = 0x7f;
    bytes[1] = 0x80;
    bytes[2] = 0x00;
    assert!(rt; is_read(rt.alloc(), &bytes[3..], &bytes));
}
