//! The examples of `octets_lists` that allocate memory.

use crate::print;
use octets::{Octets, OctetsWriter};
use octets_lists::growing_sink::{GrowingSink, huffman_text};
use octets_lists::header_field::read_field;
use octets_lists::records::read_records;
use octets_lists::tcp::read_edges;
use std::io;

/// Reads records to the end.
pub fn records<R: Print + AllocGlobal>(rt: &R, bytes: &[u8]) -> io::Result<()> {
    print::answer(rt, &read_records(rt.alloc(), bytes))
}

/// Reads edges of four bytes each.
pub fn edges<R: Print + AllocGlobal>(rt: &R, bytes: &[u8], n: usize) -> io::Result<()> {
    let mut cursor = Octets::with_slice(bytes);
    let answer = read_edges(rt.alloc(), &mut cursor, n);
    print::answer_at(rt, &answer, cursor.off())
}

/// Reads a header field under a limit.
pub fn field<R: Print + AllocGlobal>(rt: &R, bytes: &[u8], max_len: usize) -> io::Result<()> {
    let mut cursor = Octets::with_slice(bytes);
    let answer = read_field(rt.alloc(), &mut cursor, max_len);
    print::answer_at(rt, &answer, cursor.off())
}

/// Encodes a value, in memory that grows with it.
pub fn text<R: Print + AllocGlobal>(rt: &R, value: &[u8]) -> io::Result<()> {
    print::answer(rt, &huffman_text(rt.alloc(), value))
}

/// Appends three runs of bytes to a growing sink, each whether or not the one before it failed.
pub fn sink<R: Print + AllocGlobal>(
    rt: &R,
    first: &[u8],
    second: &[u8],
    third: &[u8],
) -> io::Result<()> {
    let mut sink = GrowingSink::new(rt.alloc());
    let first = sink.put_bytes(first);
    let second = sink.put_bytes(second);
    let third = sink.put_bytes(third);
    println!(rt; "{first:?} {second:?} {third:?} {:?}", sink.into_bytes())
}
