//! The three decodes, by a cursor that has passed a first byte, and the law that encodes first.

use crate::long::print_first;
use crate::print;
use octets::{Octets, OctetsMut};
use octets_code::{State, Steps};
use octets_vectors::laws::huffman::encode_rewind_decode;
use octets_vectors::listed::decode_both;
use std::io;

/// Decodes without a limit.
pub fn whole<R: Print + AllocGlobal>(rt: &R, bytes: &[u8]) -> io::Result<()> {
    let mut cursor = Octets::with_slice(bytes);
    let _ = cursor.skip(1);
    let answer = cursor.get_huffman_decoded(rt.alloc());
    print::answer_at(rt, &answer, cursor.off())
}

/// Does the same for an encoding whose value is too long to be printed. It prints the length and
/// the first byte of the value.
pub fn long<R: Print + AllocGlobal>(rt: &R, bytes: &[u8]) -> io::Result<()> {
    let mut cursor = Octets::with_slice(bytes);
    let answer = cursor.get_huffman_decoded(rt.alloc());
    print_first(rt, answer, cursor.off())
}

/// Decodes under a limit.
pub fn under_limit<R: Print + AllocGlobal>(rt: &R, bytes: &[u8], max_len: usize) -> io::Result<()> {
    let mut cursor = Octets::with_slice(bytes);
    let _ = cursor.skip(1);
    let answer = cursor.get_huffman_decoded_with_max_length(rt.alloc(), max_len);
    print::answer_at(rt, &answer, cursor.off())
}

/// Decodes under a limit, with a count that already has one step.
pub fn with_steps<R: Print + AllocGlobal>(rt: &R, bytes: &[u8], max_len: usize) -> io::Result<()> {
    let mut steps = Steps::new();
    let _ = State::root().step(0, &mut steps);
    let mut cursor = Octets::with_slice(bytes);
    let _ = cursor.skip(1);
    let answer = cursor.get_huffman_decoded_counted(rt.alloc(), max_len, &mut steps);
    println!(rt; "{answer:?} off {} steps {}", cursor.off(), steps.count())
}

/// Decodes two encodings into a list.
pub fn two<R: Print + AllocGlobal>(rt: &R, first: &[u8], second: &[u8]) -> io::Result<()> {
    print::answer(rt, &decode_both(rt.alloc(), first, second))
}

/// Encodes `a` into four bytes, goes back, and decodes it under a limit.
pub fn after_encode<R: Print + AllocGlobal>(rt: &R, max_len: usize) -> io::Result<()> {
    let mut bytes = [9; 4];
    let mut cursor = OctetsMut::with_slice(&mut bytes);
    let answer = encode_rewind_decode::<false>(&mut cursor, rt.alloc(), b"a", max_len);
    let off = cursor.off();
    println!(rt; "{answer:?} {bytes:?} off {off}")
}
