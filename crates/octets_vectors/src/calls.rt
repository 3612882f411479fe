//! Calls of cursors as plain data, each with its expected result, and functions that make them and
//! return the first whose result is another. With them a test of calls is a static list, which has
//! a line for each call.

pub mod reads;
pub mod views;
pub mod writes;
