//! Halves of a buffer.

use super::assert_shows;
use crate::calls::reads::Read;
use crate::calls::views::{Row, Show};
use crate::calls::writes::Write;

#[rattlefmt::skip]
static SPLIT: [Row; 1] = [
    Row {
        bytes: b"helloworld",
        shows: &[
            Show::Read(Read::GetBytes(5, Some(b"hello"))),
            Show::Read(Read::Rest(b"world")),
            Show::SplitAt(5, Some((
                &[Write::Read(Read::At(0, 5)), Write::Read(Read::Rest(b"hello"))],
                &[Write::Read(Read::At(0, 5)), Write::Read(Read::Rest(b"world"))],
            ))),
        ],
        left: b"helloworld",
    },
];

#[test]
fn split(rt: HostRuntime) {
    assert_shows(&rt, &SPLIT);
}

#[rattlefmt::skip]
static SPLIT_AT: [Row; 1] = [
    Row {
        bytes: b"helloworld",
        shows: &[
            Show::SplitAt(5, Some((
                &[Write::Read(Read::Rest(b"hello"))],
                &[Write::Read(Read::Rest(b"world"))],
            ))),
            Show::SplitAt(9, Some((
                &[Write::Read(Read::Rest(b"helloworl"))],
                &[Write::Read(Read::Rest(b"d"))],
            ))),
            Show::SplitAt(10, Some((
                &[Write::Read(Read::Rest(b"helloworld"))],
                &[Write::Read(Read::Rest(b""))],
            ))),
            Show::SplitAt(11, None),
        ],
        left: b"helloworld",
    },
];

#[test]
fn split_at(rt: HostRuntime) {
    assert_shows(&rt, &SPLIT_AT);
}
