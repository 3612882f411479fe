//! The tests of `octets_code`, `octets`, `octets_literal` and `octets_script`, but for those of the
//! crate `octets` 0.3.7, which are in `octets_vectors`. Among them are encodings as an attacker
//! would send them, and a simple decoder with whose results those of the library are compared. They
//! use the laws, the callers, the sinks and the calls of `octets_vectors`.
//!
//! Most tests are a static list of cases. `octets_vectors::calls` and `tests::scripts` have enums
//! with a variant for each call, and functions that make the calls.
#![tactic(auto)]

#[cfg(test)]
mod tests;
