//! What the calls print.

use std::fmt::Debug;
use std::io;

/// Prints a line.
pub fn line<R: Print>(rt: &R, text: &str) -> io::Result<()> {
    println!(rt; "{text}")
}

/// Prints how many there are of something.
pub fn count<R: Print>(rt: &R, count: usize, what: &str) -> io::Result<()> {
    println!(rt; "{count} {what}")
}

/// Prints a result.
pub fn answer<R: Print, T: Debug>(rt: &R, answer: &T) -> io::Result<()> {
    println!(rt; "{answer:?}")
}

/// Prints a result, or the bytes of a buffer, with the offset.
pub fn answer_at<R: Print, T: Debug>(rt: &R, answer: &T, off: usize) -> io::Result<()> {
    println!(rt; "{answer:?} off {off}")
}
