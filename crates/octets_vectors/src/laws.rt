//! Laws of several calls of a cursor. Each function makes the calls on a cursor, and its contract
//! says what the calls return and leave.

pub mod huffman;
pub mod moves;
pub mod varints;
