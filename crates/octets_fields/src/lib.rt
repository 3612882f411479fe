//! Proved examples of numbers, flags and byte strings, to be copied. `docs/FORMATS.md` says which
//! module has what.
#![tactic(auto)]

pub mod addresses;
pub mod arrays;
pub mod fixed_lengths;
pub mod flags;
pub mod groups;
pub mod lengths;
pub mod number_by_width;
pub mod numbers;
pub mod padded;
pub mod samples;
pub mod shortest;
pub mod strings;
pub mod udp;
pub mod utf8;
pub mod varints;
pub mod zeros;
