//! Numbers, varints and byte strings that are written to sinks.

use super::{assert_held, assert_holds};
use octets::{
    MAX_VAR_INT, OctetsMut, OctetsWriter, varint_fits, write_bytes_with_varint_length, write_u8,
    write_u16, write_u24, write_u32, write_u64, write_varint, write_varint_with_len,
};
use octets_vectors::{ByteAtATimeSink, FailingSink, PieceSink};
use std::alloc::{AllocError, Global};

/// A write to a sink.
#[derive(Clone, Copy)]
enum Write {
    U8(u8),
    U16(u16),
    U24(u32),
    U32(u32),
    U64(u64),
    Varint(u64),
    Wide(u64, usize),
    Run(&'static [u8]),
}

/// A write, the bytes that a sink gets, and the length of each piece.
type Row = (Write, &'static [u8], &'static [usize]);

/// The varints that come first are the examples of RFC 9000, appendix A.1.
#[rattlefmt::skip]
static ROWS: [Row; 24] = [
    (Write::Varint(151288809941952652), b"\xc2\x19\x7c\x5e\xff\x14\xe8\x8c", &[8]),
    (Write::Varint(494878333), b"\x9d\x7f\x3e\x7d", &[4]),
    (Write::Varint(15293), b"\x7b\xbd", &[2]),
    (Write::Varint(37), b"\x25", &[1]),
    (Write::Wide(37, 2), b"\x40\x25", &[2]),
    (Write::Wide(37, 1), b"\x25", &[1]),
    (Write::Wide(37, 4), b"\x80\x00\x00\x25", &[4]),
    (Write::Wide(37, 8), b"\xc0\x00\x00\x00\x00\x00\x00\x25", &[8]),
    // The least and the greatest number of each width.
    (Write::Varint(0), b"\x00", &[1]),
    (Write::Varint(63), b"\x3f", &[1]),
    (Write::Varint(64), b"\x40\x40", &[2]),
    (Write::Varint(16383), b"\x7f\xff", &[2]),
    (Write::Varint(16384), b"\x80\x00\x40\x00", &[4]),
    (Write::Varint(1073741823), b"\xbf\xff\xff\xff", &[4]),
    (Write::Varint(1073741824), b"\xc0\x00\x00\x00\x40\x00\x00\x00", &[8]),
    (Write::Varint(4611686018427387903), b"\xff\xff\xff\xff\xff\xff\xff\xff", &[8]),
    // Numbers, of which `write_u24` writes the lowest three bytes.
    (Write::U8(1), b"\x01", &[1]),
    (Write::U16(0x0102), b"\x01\x02", &[2]),
    (Write::U24(0xf9010203), b"\x01\x02\x03", &[3]),
    (Write::U32(0x01020304), b"\x01\x02\x03\x04", &[4]),
    (Write::U64(0x0102030405060708), b"\x01\x02\x03\x04\x05\x06\x07\x08", &[8]),
    // Bytes after their length. A sink gets no piece of no bytes.
    (Write::Run(b""), b"\x00", &[1]),
    (Write::Run(b"ab"), b"\x02ab", &[1, 2]),
    (Write::Run(&[b'c'; 64]), b"\x40\x40cccccccccccccccccccccccccccccccccccccccccccccccccccccccccccccccc", &[2, 64]),
];

/// Makes the write. A varint that can't be written is left out.
fn write_to<W: OctetsWriter>(sink: &mut W, write: Write) -> Result<(), W::Error> {
    match write {
        Write::U8(v) => write_u8(sink, v),
        Write::U16(v) => write_u16(sink, v),
        Write::U24(v) => write_u24(sink, v),
        Write::U32(v) => write_u32(sink, v),
        Write::U64(v) => write_u64(sink, v),
        Write::Varint(v) if v <= MAX_VAR_INT => write_varint(sink, v),
        Write::Wide(v, len) if varint_fits(v, len) => write_varint_with_len(sink, v, len),
        Write::Run(v) if v.len() < 1 << 20 => write_bytes_with_varint_length(sink, v),
        _ => Ok(()),
    }
}

/// Whether a sink gets the bytes in these pieces.
fn is_given(alloc: Global, row: &Row) -> Result<bool, AllocError> {
    let (write, bytes, pieces) = *row;
    let mut sink = PieceSink::new(alloc, 80, 4)?;
    let is_put = write_to(&mut sink, write).is_ok();
    Ok(is_put && *sink.bytes() == *bytes && *sink.pieces() == *pieces)
}

#[test]
fn gives_each_number_in_one_piece(rt: HostRuntime) {
    for (case, row) in ROWS.iter().enumerate() {
        assert_held(&rt, "is given", case, is_given(rt.alloc(), row));
    }
}

/// Whether a sink that is whole, and takes at most `room` bytes, keeps the pieces that fit, if the
/// write fails.
fn is_kept(alloc: Global, row: &Row, room: usize) -> Result<bool, AllocError> {
    let (write, bytes, pieces) = *row;
    let mut sink = PieceSink::new(alloc, room, 4)?;
    let is_refused = write_to(&mut sink, write).is_err();
    let first = pieces.first().copied().unwrap_or(0);
    let kept = if room < first { 0 } else { first };
    Ok(is_refused && bytes.get(..kept) == Some(sink.bytes()))
}

#[test]
fn keeps_whole_numbers(rt: HostRuntime) {
    for (case, row) in ROWS.iter().enumerate() {
        for room in 0..row.1.len() {
            assert_held(&rt, "is kept", case, is_kept(rt.alloc(), row, room));
        }
    }
}

/// Whether a sink over `room` bytes holds as many bytes of the write, which fails if these aren't
/// all of them.
fn is_cut(row: &Row, room: usize) -> bool {
    let (write, bytes, _) = *row;
    let mut buffer = [0; 80];
    let (Some(part), Some(front)) = (buffer.get_mut(..room), bytes.get(..room)) else {
        return false;
    };
    let is_put = write_to(&mut ByteAtATimeSink::new(part), write).is_ok();
    is_put == (room == bytes.len()) && buffer.starts_with(front)
}

#[test]
fn cuts_at_the_end_of_a_sink_that_is_not_whole(rt: HostRuntime) {
    for (case, row) in ROWS.iter().enumerate() {
        for room in 0..=row.1.len() {
            assert_holds(&rt, "is cut", case, is_cut(row, room));
        }
    }
}

/// Whether a cursor writes the bytes and nothing after them.
fn is_written(row: &Row) -> bool {
    let (write, bytes, _) = *row;
    let mut buffer = [0xee; 80];
    let mut cursor = OctetsMut::with_slice(&mut buffer);
    write_to(&mut cursor, write).is_ok()
        && cursor.off() == bytes.len()
        && cursor.buf().starts_with(bytes)
        && cursor.as_ref().iter().all(|byte| *byte == 0xee)
}

#[test]
fn writes_to_a_cursor(rt: HostRuntime) {
    for (case, row) in ROWS.iter().enumerate() {
        assert_holds(&rt, "is written", case, is_written(row));
    }
}

#[test]
fn fails_with_the_sink(rt: HostRuntime) {
    for (case, row) in ROWS.iter().enumerate() {
        let is_refused = write_to(&mut FailingSink, row.0).is_err();
        assert_holds(&rt, "fails", case, is_refused);
    }
}
