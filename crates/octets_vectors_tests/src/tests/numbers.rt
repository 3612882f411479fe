//! Numbers in network order.

use super::assert_reads;
use octets_vectors::calls::reads::{Read, Row};

/// Calls for numbers.
#[rattlefmt::skip]
static NUMBERS: [Row; 2] = [
    // A number that is incomplete isn't read partially.
    (&[1, 2, 3, 4, 5, 6, 7], &[
        Read::GetU64(None),
        Read::At(0, 7),
    ]),
    (&[1, 2, 3], &[
        Read::GetU32(None),
        Read::At(0, 3),
        Read::GetU24(Some(0x010203)),
        Read::At(3, 0),
    ]),
];

#[test]
fn reads_numbers(rt: HostRuntime) {
    assert_reads(&rt, &NUMBERS);
}
