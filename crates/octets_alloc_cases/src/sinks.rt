//! The sink that remembers its pieces.

use crate::print;
use octets::{BufferTooShortError, put_huffman_encoded};
use octets_literal::put_string;
use octets_vectors::PieceSink;
use std::io;

/// Prints the result of the encode, and what the sink holds.
fn print_pieces<R: Print>(
    rt: &R,
    answer: Result<(), BufferTooShortError>,
    sink: &PieceSink,
) -> io::Result<()> {
    println!(rt;
        "{answer:?} bytes {:?} pieces {:?}",
        sink.bytes(),
        sink.pieces()
    )
}

/// Makes the sink for so many bytes and pieces, and encodes `custom-key` into it.
pub fn pieces<R: Print + AllocGlobal>(rt: &R, bytes: usize, pieces: usize) -> io::Result<()> {
    match PieceSink::new(rt.alloc(), bytes, pieces) {
        Ok(mut sink) => {
            let answer = put_huffman_encoded::<false, _>(&mut sink, b"custom-key");
            print_pieces(rt, answer, &sink)
        }
        Err(error) => print::answer(rt, &error),
    }
}

/// Appends the literal of a value to the sink, in lower case if `LOWER_CASE` is true.
pub fn literal<const LOWER_CASE: bool, R: Print + AllocGlobal>(
    rt: &R,
    value: &[u8],
) -> io::Result<()> {
    if value.len() > 8 {
        return print::line(rt, "too long");
    }
    match PieceSink::new(rt.alloc(), 16, 8) {
        Ok(mut sink) => {
            let answer = put_string::<LOWER_CASE, _>(&mut sink, value);
            print_pieces(rt, answer, &sink)
        }
        Err(error) => print::answer(rt, &error),
    }
}
