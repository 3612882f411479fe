//! What the cursors and the Huffman code are tested with: laws of several calls, as functions whose
//! contracts state them; callers with the greatest numbers; sinks; calls as plain data; and a
//! simple encoder, with which the fast one is compared. Its tests are those of the crate `octets`
//! 0.3.7, by their names. `octets_vectors_tests` has all others.
#![tactic(auto)]

pub mod calls;
pub mod edges;
pub mod laws;
pub mod listed;
pub mod nested;
pub mod owned;
mod plain;
pub mod scripts;
mod sinks;
#[cfg(test)]
mod tests;

pub use plain::put_huffman_plain;
pub use sinks::byte_at_a_time::ByteAtATimeSink;
pub use sinks::failing::{FailingSink, SinkError};
pub use sinks::pieces::PieceSink;
