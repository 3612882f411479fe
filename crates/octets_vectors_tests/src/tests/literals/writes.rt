//! Writes of literals to a sink, and into the caller's bytes.

use super::rows::{LOWERED, PLAIN, Row, WRITTEN};
use crate::tests::assert_holds;
use octets::OctetsMut;
use octets_literal::{put_string, write_string};
use std::process::Abort;

/// The greatest length of a value in these tests.
const MOST: usize = 255;

/// Whether the bytes begin with the length and the data, and all after them have this value.
fn is_literal(bytes: &[u8], length: &[u8], data: &[u8], after: u8) -> bool {
    let Some(rest) = bytes.strip_prefix(length) else {
        return false;
    };
    rest.starts_with(data) && rest.iter().skip(data.len()).all(|byte| *byte == after)
}

/// Whether `put_string` writes exactly the literal of the value, which has this length and these
/// data.
fn is_put<const LOWER_CASE: bool>(value: &[u8], length: &[u8], data: &[u8]) -> bool {
    if value.len() > MOST {
        return false;
    }
    let mut bytes = [0; MOST + 4];
    let mut cursor = OctetsMut::with_slice(&mut bytes);
    put_string::<LOWER_CASE, _>(&mut cursor, value).is_ok()
        && cursor.off().checked_sub(length.len()) == Some(data.len())
        && is_literal(cursor.buf(), length, data, 0)
}

/// Whether `write_string` writes exactly this literal, and leaves the byte before it unchanged.
fn is_written<const LOWER_CASE: bool>(value: &[u8], length: &[u8], data: &[u8]) -> bool {
    if value.len() > MOST {
        return false;
    }
    let mut bytes = [0xee; MOST + 4];
    let mut cursor = OctetsMut::with_slice(&mut bytes);
    let is_written = cursor.skip(1).is_ok()
        && write_string::<LOWER_CASE>(&mut cursor, value).is_ok();
    let Some(len) = cursor.off().checked_sub(1) else {
        return false;
    };
    is_written
        && len.checked_sub(length.len()) == Some(data.len())
        && bytes[0] == 0xee
        && is_literal(&bytes[1..], length, data, 0xee)
}

/// Both calls write the literal of each value.
fn assert_written<const LOWER_CASE: bool>(rt: &impl Abort, rows: &[Row]) {
    for (i, (value, literal)) in rows.iter().enumerate() {
        assert_holds(rt, "is put", i, is_put::<LOWER_CASE>(value, b"", literal));
        let is_written = is_written::<LOWER_CASE>(value, b"", literal);
        assert_holds(rt, "is written", i, is_written);
    }
}

#[test]
fn writes_the_shorter_spelling(rt: HostRuntime) {
    assert_written::<false>(&rt, &WRITTEN);
    assert_written::<true>(&rt, &LOWERED);
}

/// The value follows its length as it is.
#[test]
fn writes_the_shortest_length(rt: HostRuntime) {
    for (i, (value, length)) in PLAIN.iter().enumerate() {
        assert_holds(&rt, "is put", i, is_put::<false>(value, length, value));
        let is_written = is_written::<false>(value, length, value);
        assert_holds(&rt, "is written", i, is_written);
    }
}

/// Whether `put_string` fails if only `room` bytes remain, and writes a prefix of the literal.
fn is_cut(value: &[u8], literal: &[u8], room: usize) -> bool {
    let mut bytes = [0; MOST + 4];
    let Some(part) = bytes.get_mut(..room) else {
        return false;
    };
    let mut cursor = OctetsMut::with_slice(part);
    value.len() <= MOST
        && put_string::<false, _>(&mut cursor, value).is_err()
        && cursor
            .buf()
            .get(..cursor.off())
            .is_some_and(|front| literal.starts_with(front))
}

/// Whether `write_string` fails if only `room` bytes remain, and writes nothing.
fn is_refused(value: &[u8], room: usize) -> bool {
    let mut bytes = [0xee; MOST + 4];
    let Some(part) = bytes.get_mut(..room) else {
        return false;
    };
    let mut cursor = OctetsMut::with_slice(part);
    value.len() <= MOST
        && write_string::<false>(&mut cursor, value).is_err()
        && cursor.off() == 0
        && bytes == [0xee; MOST + 4]
}

/// The last byte of the literal doesn't fit.
#[test]
fn fails_where_a_literal_does_not_fit(rt: HostRuntime) {
    for (i, (value, literal)) in WRITTEN.iter().enumerate() {
        let room = literal.len().saturating_sub(1);
        assert_holds(&rt, "is cut", i, is_cut(value, literal, room));
        assert_holds(&rt, "is refused", i, is_refused(value, room));
    }
}

/// The Huffman encoding of 127 times `a` is shorter, and its length has one byte.
#[test]
fn writes_another_spelling(rt: HostRuntime) {
    let mut written = [0; 128];
    let mut sink = OctetsMut::with_slice(&mut written);
    assert!(rt; put_string::<false, _>(&mut sink, &[b'a'; 127]).is_ok() && written[0] == 0xd0);
}
