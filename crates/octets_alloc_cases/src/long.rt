//! Calls over several thousand bytes. For their results, the lengths and a first byte are printed.

use crate::print;
use octets::{Octets, OctetsMut};
use octets_literal::{get_string, get_strings};
use octets_script::{Command, Reply, run};
use std::fmt::Debug;
use std::io;

/// Returns the buffer, which begins with a literal: a length of three bytes, and then its data,
/// which are zeros. The Huffman-encoded literal has the flag set, and its value is 6,552 times `0`.
fn literal(length: [u8; 3]) -> [u8; 4099] {
    let mut bytes = [0; 4099];
    bytes[..3].copy_from_slice(&length);
    bytes
}

/// The length of 4,096 bytes of data.
static PLAIN: [u8; 3] = [0x7f, 0x81, 0x1f];

/// The length of 4,095 bytes of Huffman-encoded data, with the flag.
static TEXT: [u8; 3] = [0xff, 0x80, 0x1f];

/// Prints the offset.
fn print_off<R: Print>(rt: &R, off: usize) -> io::Result<()> {
    println!(rt; "off {off}")
}

/// Prints how many bytes were returned and the first of them, or the error, and then the offset.
pub fn print_first<R: Print + AllocGlobal, E: Debug + Drop>(
    rt: &R,
    answer: Result<Vec<u8>, E>,
    off: usize,
) -> io::Result<()> {
    match answer {
        Ok(bytes) => println!(rt; "{} bytes, the first {:?}", bytes.len(), bytes.first())?,
        Err(error) => print::answer(rt, &error)?,
    }
    print_off(rt, off)
}

/// Calls `to_vec` of a cursor for reading that has passed a byte.
pub fn of_reader<R: Print + AllocGlobal>(rt: &R, bytes: &[u8]) -> io::Result<()> {
    let mut cursor = Octets::with_slice(bytes);
    let _ = cursor.skip(1);
    let answer = cursor.to_vec(rt.alloc());
    print_first(rt, answer, cursor.off())
}

/// Calls `to_vec` of a cursor for writing that has passed a byte.
pub fn of_writer<R: Print + AllocGlobal>(rt: &R) -> io::Result<()> {
    let mut bytes = [7; 4096];
    let mut cursor = OctetsMut::with_slice(&mut bytes);
    let _ = cursor.skip(1);
    let answer = cursor.to_vec(rt.alloc());
    let off = cursor.off();
    print_first(rt, answer, off)
}

/// Reads a literal of 4,096 bytes, whose flag is clear.
pub fn plain<R: Print + AllocGlobal>(rt: &R) -> io::Result<()> {
    let bytes = literal(PLAIN);
    let mut cursor = Octets::with_slice(&bytes);
    let answer = get_string(rt.alloc(), &mut cursor, 9999);
    print_first(rt, answer, cursor.off())
}

/// Reads a literal of 4,095 bytes of Huffman-encoded data.
pub fn text<R: Print + AllocGlobal>(rt: &R) -> io::Result<()> {
    let bytes = literal(TEXT);
    let mut cursor = Octets::with_slice(&bytes);
    let answer = get_string(rt.alloc(), &mut cursor, 9999);
    print_first(rt, answer, cursor.off())
}

/// Reads this literal, and the literal of no bytes that follows it, to the end.
pub fn list<R: Print + AllocGlobal>(rt: &R) -> io::Result<()> {
    let bytes = literal(TEXT);
    let mut cursor = Octets::with_slice(&bytes);
    match get_strings(rt.alloc(), &mut cursor, 9999) {
        Ok(values) => {
            for value in &values {
                print::count(rt, value.len(), "bytes")?;
            }
        }
        Err(error) => print::answer(rt, &error)?,
    }
    print_off(rt, cursor.off())
}

/// Prints a reply by its length, or by the lengths of both halves.
fn print_reply<R: Print + AllocGlobal>(rt: &R, reply: &Reply) -> io::Result<()> {
    match reply {
        Reply::Bytes(bytes) => println!(rt; "bytes {}", bytes.len()),
        Reply::Two(left, right) => println!(rt; "two {} {}", left.len(), right.len()),
        other => print::answer(rt, other),
    }
}

/// Performs commands with long replies on 4,096 zeros, up to the end or to the first allocation
/// that fails.
pub fn replies<R: Print + AllocGlobal>(rt: &R) -> io::Result<()> {
    let commands = [
        Command::Buf,
        Command::SplitAt(96, Vec::new(rt.alloc()), Vec::new(rt.alloc())),
        Command::PeekBytes(4000),
        Command::Slice(4000, Vec::new(rt.alloc())),
        Command::GetBytes(1),
        Command::GetBytes(2000),
        Command::Rewind(2000),
        Command::ToVec,
        Command::Decode(9999),
    ];
    let mut bytes = [0; 4096];
    let mut cursor = OctetsMut::with_slice(&mut bytes);
    let replies = match run(rt.alloc(), &mut cursor, &commands) {
        Ok(replies) => replies,
        Err(stopped) => stopped.replies,
    };
    for reply in &replies {
        print_reply(rt, reply)?;
    }
    print_off(rt, cursor.off())
}
