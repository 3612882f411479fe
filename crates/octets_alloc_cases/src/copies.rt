//! `to_vec` of both cursors, over `helloworld`.

use crate::print;
use octets::{Octets, OctetsMut};
use std::io;

/// Calls `to_vec` of a cursor for reading that has passed so many bytes.
pub fn of_reader<R: Print + AllocGlobal>(rt: &R, passed: usize) -> io::Result<()> {
    let mut cursor = Octets::with_slice(b"helloworld");
    let _ = cursor.skip(passed);
    print::answer_at(rt, &cursor.to_vec(rt.alloc()), cursor.off())
}

/// Calls `to_vec` of a cursor for writing that has passed so many bytes.
pub fn of_writer<R: Print + AllocGlobal>(rt: &R, passed: usize) -> io::Result<()> {
    let mut bytes = *b"helloworld";
    let mut cursor = OctetsMut::with_slice(&mut bytes);
    let _ = cursor.skip(passed);
    print::answer_at(rt, &cursor.to_vec(rt.alloc()), cursor.off())
}
