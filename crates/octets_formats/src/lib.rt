//! Proved examples of messages of several fields, to be copied. `docs/FORMATS.md` says which
//! module has what.
#![tactic(auto)]

pub mod claims;
pub mod datagram;
pub mod fragments;
pub mod frame;
pub mod in_place;
pub mod items;
pub mod kinds;
pub mod loans;
pub mod message;
pub mod optional;
pub mod pairs;
pub mod params;
pub mod points;
pub mod preferred;
pub mod stream;
pub mod tagged;
pub mod tokens;
pub mod unproved;
pub mod versions;
pub mod within;
