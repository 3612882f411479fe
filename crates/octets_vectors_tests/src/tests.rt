//! Tests of the codes, of both cursors, of the writer, of both encoders and of the decoder, and of
//! literals and scripts. The expected values are those of RFC 9000, section 16, and of RFC 7541, or
//! were calculated manually. `octets_vectors` has the tests of the crate `octets`.

use octets_vectors::calls::{reads, writes};
use std::alloc::AllocError;
use std::process::Abort;

mod code;
mod comparison;
mod decoding;
mod edges;
mod greatest;
mod hostile_texts;
mod literals;
mod loans;
mod long_replies;
mod long_texts;
mod messages;
mod moves;
mod numbers;
mod owned;
mod pieces;
mod runs;
mod scripts;
mod sink_writes;
mod texts;
mod varints;
mod views;
mod walk;

/// What is said of this case holds.
fn assert_holds(rt: &impl Abort, what: &str, case: usize, holds: bool) {
    assert!(rt; holds, "case {case}: {what}");
}

/// All calls of the case return what is expected, so none is named.
fn assert_answered(rt: &impl Abort, case: usize, wrong: Option<usize>) {
    assert!(rt; wrong == None, "case {case}: call {wrong:?}");
}

/// What is said of this case holds, and no allocation failed.
fn assert_held(rt: &impl Abort, what: &str, case: usize, answer: Result<bool, AllocError>) {
    assert_holds(rt, what, case, answer == Ok(true));
}

/// In each case the calls of both cursors return what is expected.
fn assert_reads(rt: &impl Abort, rows: &[reads::Row]) {
    for (case, (bytes, reads)) in rows.iter().enumerate() {
        assert_answered(rt, case, reads::wrong_read(bytes, reads));
        assert_answered(rt, case, reads::wrong_read_mut(bytes, reads));
    }
}

/// In each case the calls return what is expected, and leave the expected bytes.
fn assert_writes(rt: &impl Abort, rows: &[writes::Row]) {
    for (case, row) in rows.iter().enumerate() {
        assert_answered(rt, case, writes::wrong_call(row));
    }
}
