//! Scripts that write over views, slices and halves.

use super::{Answer, Call, Row, assert_rows};

#[rattlefmt::skip]
static VIEWS: [Row; 4] = [
    // Views and slices.
    Row {
        buffer: &[1, 2, 3, 4, 5],
        calls: &[
            (Call::PeekBytesMut(2, &[9]), Answer::Bytes(&[1, 2])),
            (Call::GetBytesMut(2, &[8, 7, 6]), Answer::Bytes(&[9, 2])),
            (Call::GetBytesMut(4, &[1]), Answer::Short),
            (Call::PeekBytesMut(4, &[1]), Answer::Short),
            (Call::Slice(1, &[5]), Answer::Bytes(&[3])),
            (Call::Slice(4, &[1]), Answer::Short),
            (Call::SliceLast(2, &[4]), Answer::Bytes(&[4, 5])),
            (Call::SliceLast(4, &[1]), Answer::Short),
            (Call::AsMut(&[0xa, 0xb]), Answer::Bytes(&[5, 4, 5])),
        ],
        left: &[8, 7, 0xa, 0xb, 5],
        off: 2,
    },
    // Splits within the buffer, at its end and past its end.
    Row {
        buffer: &[1, 2, 3],
        calls: &[
            (Call::SplitAt(1, &[0xaa], &[0xbb, 0xcc, 0xdd]), Answer::Two(&[1], &[2, 3])),
        ],
        left: &[0xaa, 0xbb, 0xcc],
        off: 0,
    },
    Row {
        buffer: &[1, 2, 3],
        calls: &[
            (Call::Skip(2), Answer::Done),
            (Call::SplitAt(3, &[7], &[8]), Answer::Two(&[1, 2, 3], &[])),
        ],
        left: &[7, 2, 3],
        off: 2,
    },
    Row {
        buffer: &[1, 2, 3],
        calls: &[
            (Call::SplitAt(4, &[7], &[8]), Answer::Short),
        ],
        left: &[1, 2, 3],
        off: 0,
    },
];

#[test]
fn writes_over_views(rt: HostRuntime) {
    assert_rows(&rt, rt.alloc(), &VIEWS);
}
