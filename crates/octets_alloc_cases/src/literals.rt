//! String literals, read by a cursor at its start.

use crate::print;
use octets::Octets;
use octets_literal::{get_string, get_strings};
use std::io;

/// Reads one literal under a limit.
pub fn read<R: Print + AllocGlobal>(rt: &R, bytes: &[u8], max_len: usize) -> io::Result<()> {
    let mut cursor = Octets::with_slice(bytes);
    let answer = get_string(rt.alloc(), &mut cursor, max_len);
    print::answer_at(rt, &answer, cursor.off())
}

/// Reads literals to the end under a limit.
pub fn read_all<R: Print + AllocGlobal>(rt: &R, bytes: &[u8], max_len: usize) -> io::Result<()> {
    let mut cursor = Octets::with_slice(bytes);
    let answer = get_strings(rt.alloc(), &mut cursor, max_len);
    print::answer_at(rt, &answer, cursor.off())
}
