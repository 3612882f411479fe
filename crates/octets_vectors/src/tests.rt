//! The tests of the crate `octets` 0.3.7, by their names and with their values. All other tests are
//! in `octets_vectors_tests`.

use crate::calls::{reads, views, writes};
use std::process::Abort;

mod gets;
mod huffman;
mod puts;
mod runs;
mod splits;

/// All calls of the case return what is expected, so none is named.
fn assert_answered(rt: &impl Abort, case: usize, wrong: Option<usize>) {
    assert!(rt; wrong == None, "case {case}: call {wrong:?}");
}

/// In each case the calls of a cursor for reading return what is expected.
fn assert_reads(rt: &impl Abort, rows: &[reads::Row]) {
    for (case, (bytes, reads)) in rows.iter().enumerate() {
        assert_answered(rt, case, reads::wrong_read(bytes, reads));
    }
}

/// In each case the calls of a cursor for writing return what is expected.
fn assert_reads_mut(rt: &impl Abort, rows: &[reads::Row]) {
    for (case, (bytes, reads)) in rows.iter().enumerate() {
        assert_answered(rt, case, reads::wrong_read_mut(bytes, reads));
    }
}

/// In each case the calls return what is expected, and leave the expected bytes.
fn assert_writes(rt: &impl Abort, rows: &[writes::Row]) {
    for (case, row) in rows.iter().enumerate() {
        assert_answered(rt, case, writes::wrong_call(row));
    }
}

/// The same for calls that lend views.
fn assert_shows(rt: &impl Abort, rows: &[views::Row]) {
    for (case, row) in rows.iter().enumerate() {
        assert_answered(rt, case, views::wrong_call(row));
    }
}
