//! What is lent for writing, and what the cursor holds afterwards.

use super::assert_writes;
use octets::{MAX_VAR_INT, OctetsMut};
use octets_vectors::calls::reads::Read;
use octets_vectors::calls::writes::{Row, Write};
use octets_vectors::nested::{put_in_view, put_in_view_of_view};

/// Numbers and byte strings.
#[rattlefmt::skip]
static PUTS: [Row; 3] = [
    // The lowest three bytes of the value, and a call that fails and writes nothing.
    Row {
        bytes: &[0; 3],
        writes: &[
            Write::PutU24(0x0102_0304, Some((&[2, 3, 4], &[]))),
            Write::Read(Read::At(3, 0)),
        ],
        left: &[2, 3, 4],
    },
    Row {
        bytes: &[0; 2],
        writes: &[
            Write::PutU24(1, None),
            Write::Read(Read::At(0, 2)),
        ],
        left: &[0, 0],
    },
    Row {
        bytes: &[0; 5],
        writes: &[
            Write::PutBytes(&[1; 6], None),
            Write::Read(Read::At(0, 5)),
            Write::Read(Read::Buf(&[0; 5])),
            Write::PutBytes(&[1; 5], Some(())),
            Write::Read(Read::At(5, 0)),
            Write::PutBytes(&[], Some(())),
        ],
        left: &[1; 5],
    },
];

#[test]
fn puts_numbers_and_bytes(rt: HostRuntime) {
    assert_writes(&rt, &PUTS);
}

/// Varints.
#[rattlefmt::skip]
static VARINTS: [Row; 3] = [
    // The least and the greatest value of a width, one after the other; and given widths.
    Row {
        bytes: &[0; 15],
        writes: &[
            Write::PutVarint(63, Some((&[0x3f], &[]))),
            Write::PutVarint(64, Some((&[0x40, 0x40], &[]))),
            Write::PutVarint(16_384, Some((&[0x80, 0, 0x40, 0], &[]))),
            Write::PutVarint(MAX_VAR_INT, Some((&[0xff; 8], &[]))),
        ],
        left: b"\x3f\x40\x40\x80\x00\x40\x00\xff\xff\xff\xff\xff\xff\xff\xff",
    },
    Row {
        bytes: &[0; 8],
        writes: &[
            Write::PutVarintWithLen(37, 2, Some((&[0x40, 0x25], &[]))),
            Write::Read(Read::At(2, 6)),
            Write::PutVarintWithLen(16_383, 2, Some((&[0x7f, 0xff], &[]))),
            Write::PutVarintWithLen(0, 8, None),
            Write::Read(Read::At(4, 4)),
        ],
        left: b"\x40\x25\x7f\xff\x00\x00\x00\x00",
    },
    Row {
        bytes: &[1; 13],
        writes: &[
            Write::PutVarintWithLen(0, 8, Some((&[0xc0, 0, 0, 0, 0, 0, 0, 0], &[]))),
            Write::PutVarintWithLen(1_073_741_823, 4, Some((&[0xbf, 0xff, 0xff, 0xff], &[]))),
            Write::PutVarintWithLen(63, 1, Some((&[0x3f], &[]))),
            Write::Read(Read::At(13, 0)),
        ],
        left: b"\xc0\x00\x00\x00\x00\x00\x00\x00\xbf\xff\xff\xff\x3f",
    },
];

#[test]
fn puts_varints(rt: HostRuntime) {
    assert_writes(&rt, &VARINTS);
}

/// Loans that are written through.
#[rattlefmt::skip]
static LOANS: [Row; 4] = [
    // Bytes that are written through a loan are in the lent range, and nowhere else.
    Row {
        bytes: &[0; 2],
        writes: &[
            Write::PutU8(7, Some((&[7], &[9]))),
            Write::Read(Read::At(1, 1)),
        ],
        left: &[9, 0],
    },
    Row {
        bytes: b"helloworld",
        writes: &[
            Write::Read(Read::Skip(5, Some(()))),
            Write::Slice(2, Some((b"wo", b"WO"))),
            Write::Read(Read::At(5, 5)),
        ],
        left: b"helloWOrld",
    },
    Row {
        bytes: b"helloworld",
        writes: &[
            Write::Read(Read::Skip(5, Some(()))),
            Write::SliceLast(4, Some((b"orld", b"O"))),
            Write::Read(Read::At(5, 5)),
        ],
        left: b"hellowOrld",
    },
    Row {
        bytes: &[1, 2, 3],
        writes: &[
            Write::Read(Read::Skip(2, Some(()))),
            Write::AsMut(Some((&[3], &[0xff]))),
            Write::Read(Read::At(2, 1)),
        ],
        left: &[1, 2, 0xff],
    },
];

#[test]
fn keeps_what_was_written_through_loans(rt: HostRuntime) {
    assert_writes(&rt, &LOANS);
}

#[test]
fn writes_in_a_view(rt: HostRuntime) {
    let mut bytes = [1, 2, 3, 4];
    let mut cursor = OctetsMut::with_slice(&mut bytes);
    assert!(rt; cursor.skip(1).is_ok() && put_in_view(&mut cursor, 2, 8).is_ok());
    assert!(rt; cursor.off() == 3 && put_in_view(&mut cursor, 2, 9).is_err());
    assert!(rt; cursor.off() == 3 && cursor.buf() == [1, 8, 3, 4].as_slice());
}

#[test]
fn writes_in_a_view_of_a_view(rt: HostRuntime) {
    let mut bytes = [1, 2, 3, 4];
    let mut cursor = OctetsMut::with_slice(&mut bytes);
    assert!(rt; cursor.skip(1).is_ok() && put_in_view_of_view(&mut cursor, 4, 1, 9).is_err());
    assert!(rt; cursor.off() == 1 && put_in_view_of_view(&mut cursor, 2, 1, 8).is_ok());
    assert!(rt; cursor.off() == 3 && cursor.buf() == [1, 8, 3, 4].as_slice());
}
