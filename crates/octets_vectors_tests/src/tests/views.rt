//! Views for writing and halves, and what the cursor holds when they have ended.

use super::assert_answered;
use octets::OctetsMut;
use octets_vectors::calls::reads::Read;
use octets_vectors::calls::views::{Row, Show, wrong_call};
use octets_vectors::calls::writes::Write;
use std::process::Abort;

/// Each case holds.
fn assert_rows(rt: &impl Abort, rows: &[Row]) {
    for (case, row) in rows.iter().enumerate() {
        assert_answered(rt, case, wrong_call(row));
    }
}

/// Views.
#[rattlefmt::skip]
static VIEWS: [Row; 5] = [
    Row {
        bytes: &[1, 2, 3],
        shows: &[
            Show::GetBytesMut(4, None),
            Show::PeekBytesMut(4, None),
            Show::Read(Read::At(0, 3)),
            Show::PeekBytesMut(2, Some(&[
                Write::Read(Read::At(0, 2)),
                Write::Read(Read::Len(2, false)),
                Write::PutU16(0x0a0b, Some((&[10, 11], &[]))),
                Write::PutU8(1, None),
            ])),
            Show::Read(Read::At(0, 3)),
        ],
        left: &[10, 11, 3],
    },
    Row {
        bytes: &[1, 2, 3],
        shows: &[
            Show::GetBytesMut(3, Some(&[Write::Read(Read::Rest(&[1, 2, 3]))])),
            Show::Read(Read::At(3, 0)),
        ],
        left: &[1, 2, 3],
    },
    // A view ends at its own end, even if the buffer goes on.
    Row {
        bytes: &[1, 2],
        shows: &[
            Show::GetBytesMut(1, Some(&[Write::PutBytes(&[9], Some(())), Write::PutBytes(&[9], None)])),
            Show::Read(Read::At(1, 1)),
        ],
        left: &[9, 2],
    },
    Row {
        bytes: &[0; 4],
        shows: &[
            Show::GetBytesMut(4, Some(&[Write::PutU8(1, Some((&[1], &[]))), Write::PutU32(2, None)])),
            Show::Read(Read::At(4, 0)),
        ],
        left: &[1, 0, 0, 0],
    },
    Row {
        bytes: &[0; 9],
        shows: &[
            Show::Read(Read::Skip(1, Some(()))),
            Show::GetBytesMut(7, Some(&[Write::PutHuffman(&[b'a'; 12], None)])),
            Show::Read(Read::At(8, 1)),
        ],
        left: b"\x00\x18\xc6\x31\x8c\x63\x18\xc6\x00",
    },
];

#[test]
fn writes_through_views(rt: HostRuntime) {
    assert_rows(&rt, &VIEWS);
}

/// Halves.
#[rattlefmt::skip]
static HALVES: [Row; 3] = [
    // An empty left half, with all of the bytes in the right one; and two empty halves of no
    // bytes.
    Row {
        bytes: &[1, 2, 3],
        shows: &[
            Show::SplitAt(0, Some((
                &[Write::Read(Read::Len(0, true))],
                &[Write::Read(Read::Rest(&[1, 2, 3]))],
            ))),
            Show::Read(Read::At(0, 3)),
        ],
        left: &[1, 2, 3],
    },
    Row {
        bytes: &[],
        shows: &[
            Show::SplitAt(0, Some((
                &[Write::Read(Read::Len(0, true))],
                &[Write::Read(Read::Rest(&[]))],
            ))),
            Show::Read(Read::At(0, 0)),
        ],
        left: &[],
    },
    // The position is absolute, whatever the cursor's own offset is.
    Row {
        bytes: b"helloworld",
        shows: &[
            Show::Read(Read::Skip(3, Some(()))),
            Show::SplitAt(5, Some((
                &[Write::PutBytes(b"J", Some(()))],
                &[Write::PutBytes(b"W", Some(()))],
            ))),
            Show::SplitAt(10, Some((
                &[Write::Read(Read::Rest(b"JelloWorld"))],
                &[Write::Read(Read::Rest(b""))],
            ))),
            Show::SplitAt(11, None),
            Show::Read(Read::At(3, 7)),
        ],
        left: b"JelloWorld",
    },
];

#[test]
fn splits_and_writes_through_halves(rt: HostRuntime) {
    assert_rows(&rt, &HALVES);
}

/// Whether a byte is put at the start of the second half.
fn puts_in_half(cursor: &mut OctetsMut<'_>, off: usize, byte: u8) -> bool {
    match cursor.split_at(off) {
        Ok((_, mut right)) => right.put_u8(byte).is_ok(),
        Err(_) => false,
    }
}

#[test]
fn writes_in_a_view_and_then_in_a_half_of_it(rt: HostRuntime) {
    let mut bytes = [1, 2, 3, 4, 5];
    let mut cursor = OctetsMut::with_slice(&mut bytes);
    let is_written = match cursor.get_bytes_mut(3) {
        Ok(mut view) => view.put_u16(0x0908).is_ok() && puts_in_half(&mut view, 1, 7),
        Err(_) => false,
    };
    assert!(rt; is_written && cursor.off() == 3 && bytes == [9, 7, 3, 4, 5]);
}
