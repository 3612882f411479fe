//! Lists of calls of a cursor for writing, and the function that runs a list. A run has one reply
//! for each call.
#![tactic(auto)]

mod command;
mod copied;
#[doc(hidden)]
pub mod laws;
mod memory;
mod over;
mod perform;
mod reply;
mod runs;
mod varint;

pub use command::Command;
pub use reply::{Reply, Stopped};
pub use runs::run;
pub use varint::{Varint, Wide};
