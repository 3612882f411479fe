//! Three sinks: one that isn't whole, one whose calls all fail, and one that remembers its pieces.

pub mod byte_at_a_time;
pub mod failing;
pub mod pieces;
