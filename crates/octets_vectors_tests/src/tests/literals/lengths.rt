//! Literals of values of each length up to 320 bytes, and of some lengths up to 4,096, with the
//! flag set and clear.
ghost use Rattle.std.specs.Prelude.{◌≤◌, length};

use crate::tests::assert_holds;
use octets::{Octets, OctetsMut};
use octets_literal::{get_string, get_strings, write_string};
use std::alloc::Global;
use std::process::Abort;

/// The greatest length of a value in these tests.
const MOST: usize = 4096;

/// Each of these bytes has a code of 5 bits, so that the encoding of three or more is shorter.
static SHORT_CODES: [u8; MOST] = [b'a'; MOST];

/// Each of these bytes has a code of 26 bits, so that no encoding is shorter.
static LONG_CODES: [u8; MOST] = [0xff; MOST];

/// Whether the literal of the value is read as the value, up to the literal's end.
fn is_read_back(alloc: Global, value: &[u8]) -> bool
    requires { length value.now ≤ 4096 }
{
    let mut bytes = [0; MOST + 8];
    let mut sink = OctetsMut::with_slice(&mut bytes);
    if write_string::<false>(&mut sink, value).is_err() {
        return false;
    }
    let mut cursor = Octets::with_slice(&sink.buf()[..sink.off()]);
    match get_string(alloc, &mut cursor, value.len()) {
        Ok(read) => read.as_slice() == value && cursor.cap() == 0,
        Err(_) => false,
    }
}

/// Values of both kinds with so many bytes are read back.
fn assert_read_back(rt: &impl Abort, alloc: Global, len: usize)
    requires { len ≤ 4096 }
{
    let is_read = is_read_back(alloc, &SHORT_CODES[..len]);
    assert_holds(rt, "is read back, its flag set", len, is_read);
    let is_read = is_read_back(alloc, &LONG_CODES[..len]);
    assert_holds(rt, "is read back, its flag clear", len, is_read);
}

#[test]
fn reads_values_of_each_length(rt: HostRuntime) {
    for len in 0..=320 {
        assert_read_back(&rt, rt.alloc(), len);
    }
    for count in 1..=16 {
        assert_read_back(&rt, rt.alloc(), count * 256);
    }
}

/// Whether the literals of the value and of as many bytes of the other kind are read as these two
/// values.
fn are_read_back(alloc: Global, first: &[u8], second: &[u8]) -> bool
    requires first { length first.now ≤ 4096 }
    requires second { length second.now ≤ 4096 }
{
    let mut bytes = [0; 2 * MOST + 16];
    let mut sink = OctetsMut::with_slice(&mut bytes);
    if write_string::<false>(&mut sink, first).is_err() {
        return false;
    }
    if write_string::<false>(&mut sink, second).is_err() {
        return false;
    }
    let mut cursor = Octets::with_slice(&sink.buf()[..sink.off()]);
    match get_strings(alloc, &mut cursor, first.len()) {
        Ok(values) => {
            values.len() == 2 && values[0].as_slice() == first && values[1].as_slice() == second
        }
        Err(_) => false,
    }
}

#[test]
fn reads_lists_of_long_values(rt: HostRuntime) {
    for count in 0..=8 {
        let len = count * 512;
        let are_read = are_read_back(rt.alloc(), &SHORT_CODES[..len], &LONG_CODES[..len]);
        assert_holds(&rt, "are read back", len, are_read);
    }
}
