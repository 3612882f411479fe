// Written by tools/tables.py.

/// The number of the state of each prefix of at most three bits. The index is the number that these
/// bits spell after a one bit.
#[rattlefmt::skip]
pub(crate) static FRONTS: [u8; 16] = [
    0, 0, 8, 1, 9, 10, 11, 2, // 0
    12, 13, 14, 15, 16, 17, 18, 3, // 8
];
