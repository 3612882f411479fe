//! Literals of `octets_literal`: worked examples, and those of RFC 7541, Appendix C.

mod lengths;
mod list;
mod reads;
mod rows;
mod writes;
