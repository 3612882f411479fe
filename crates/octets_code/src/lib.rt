//! The Huffman code of HPACK (RFC 7541, Appendix B): the code of each symbol, the automaton that
//! reads codes by single bits or half bytes, a table of the codes with which twelve bits begin, and
//! the laws of the code and its texts.
#![tactic(auto)]

mod automaton;
mod counting;
mod entries;
#[doc(hidden)]
pub mod laws;
mod long_codes;
mod looks;
mod symbols;
mod tables;

pub use automaton::{State, Step};
pub use counting::Steps;
pub use entries::Code;
pub use long_codes::{Coded, code_behind};
pub use looks::{Look, look_at};
pub use symbols::{code_len, code_of, lookup};
