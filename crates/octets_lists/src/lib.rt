//! Proved examples of lists, and of what is collected in memory, to be copied. `docs/FORMATS.md` says which
//! module has what.
#![tactic(auto)]

pub mod ack;
pub mod builder;
pub mod copies;
pub mod dhcp;
pub mod domain_names;
pub mod encodings;
pub mod extensions;
pub mod growing_sink;
pub mod header_field;
pub mod ids;
pub mod integer;
pub mod known;
pub mod literals;
pub mod marked;
pub mod name_lists;
pub mod nested_loops;
pub mod records;
pub mod settings;
pub mod tcp;
pub mod varint_lists;
