//! Calls that read and move, and one function for each cursor that makes them.

use octets::{BufferTooShortError, Bytes, Cursor, Octets, OctetsMut, VarintError};

/// A call, and its expected result. `None` is expected of a call that is to fail as too short.
#[derive(Clone, Copy)]
pub enum Read {
    GetU8(Option<u8>),
    GetU16(Option<u16>),
    GetU24(Option<u32>),
    GetU32(Option<u32>),
    GetU64(Option<u64>),
    PeekU8(Option<u8>),
    GetVarint(Option<u64>),
    GetVarintShortest(Result<u64, VarintError>),
    GetBytes(usize, Option<&'static [u8]>),
    PeekBytes(usize, Option<&'static [u8]>),
    Slice(usize, Option<&'static [u8]>),
    SliceLast(usize, Option<&'static [u8]>),
    GetBytesU8(Option<&'static [u8]>),
    GetBytesU16(Option<&'static [u8]>),
    GetBytesVarint(Option<&'static [u8]>),
    Rewind(usize, Option<()>),
    Skip(usize, Option<()>),
    /// The expected results of `off` and `cap`.
    At(usize, usize),
    /// The expected results of `len` and `is_empty`.
    Len(usize, bool),
    Rest(&'static [u8]),
    Buf(&'static [u8]),
}

/// Whether a call that both cursors share returns what is expected.
fn answers<B: Bytes>(cursor: &mut Cursor<B>, read: &Read) -> bool {
    match *read {
        Read::GetU8(wanted) => cursor.get_u8().ok() == wanted,
        Read::GetU16(wanted) => cursor.get_u16().ok() == wanted,
        Read::GetU24(wanted) => cursor.get_u24().ok() == wanted,
        Read::GetU32(wanted) => cursor.get_u32().ok() == wanted,
        Read::GetU64(wanted) => cursor.get_u64().ok() == wanted,
        Read::PeekU8(wanted) => cursor.peek_u8().ok() == wanted,
        Read::GetVarint(wanted) => cursor.get_varint().ok() == wanted,
        Read::GetVarintShortest(wanted) => cursor.get_varint_shortest() == wanted,
        Read::Rewind(len, wanted) => cursor.rewind(len).ok() == wanted,
        Read::Skip(len, wanted) => cursor.skip(len).ok() == wanted,
        Read::At(off, cap) => cursor.off() == off && cursor.cap() == cap,
        Read::Len(len, is_empty) => cursor.len() == len && cursor.is_empty() == is_empty,
        Read::Rest(wanted) => cursor.as_ref() == wanted,
        _ => false,
    }
}

/// Whether there is a view and it shows the expected bytes from its start on, or there is neither.
fn shows(view: octets::Result<Octets<'_>>, wanted: Option<&[u8]>) -> bool {
    match (view, wanted) {
        (Ok(view), Some(bytes)) => view.off() == 0 && view.as_ref() == bytes,
        (Err(BufferTooShortError), None) => true,
        _ => false,
    }
}

/// Whether a call of a cursor for reading returns what is expected.
fn answers_reader(cursor: &mut Octets<'_>, read: &Read) -> bool {
    match *read {
        Read::GetBytes(len, wanted) => shows(cursor.get_bytes(len), wanted),
        Read::PeekBytes(len, wanted) => shows(cursor.peek_bytes(len), wanted),
        Read::Slice(len, wanted) => cursor.slice(len).ok() == wanted,
        Read::SliceLast(len, wanted) => cursor.slice_last(len).ok() == wanted,
        Read::GetBytesU8(wanted) => shows(cursor.get_bytes_with_u8_length(), wanted),
        Read::GetBytesU16(wanted) => shows(cursor.get_bytes_with_u16_length(), wanted),
        Read::GetBytesVarint(wanted) => shows(cursor.get_bytes_with_varint_length(), wanted),
        Read::Buf(wanted) => cursor.buf() == wanted,
        _ => answers(cursor, read),
    }
}

/// Whether the bytes that were lent for writing are the expected ones, or there are neither.
fn lends(lent: octets::Result<&mut [u8]>, wanted: Option<&[u8]>) -> bool {
    match (lent, wanted) {
        (Ok(lent), Some(bytes)) => *lent == *bytes,
        (Err(BufferTooShortError), None) => true,
        _ => false,
    }
}

/// Whether a call of a cursor for writing returns what is expected.
pub(crate) fn answers_mut(cursor: &mut OctetsMut<'_>, read: &Read) -> bool {
    match *read {
        Read::GetBytes(len, wanted) => shows(cursor.get_bytes(len), wanted),
        Read::PeekBytes(len, wanted) => shows(cursor.peek_bytes(len), wanted),
        Read::Slice(len, wanted) => lends(cursor.slice(len), wanted),
        Read::SliceLast(len, wanted) => lends(cursor.slice_last(len), wanted),
        Read::GetBytesU8(wanted) => shows(cursor.get_bytes_with_u8_length(), wanted),
        Read::GetBytesU16(wanted) => shows(cursor.get_bytes_with_u16_length(), wanted),
        Read::GetBytesVarint(wanted) => shows(cursor.get_bytes_with_varint_length(), wanted),
        Read::Buf(wanted) => cursor.buf() == wanted,
        _ => answers(cursor, read),
    }
}

/// Bytes, and calls on a cursor over them with their expected results.
pub type Row = (&'static [u8], &'static [Read]);

/// Returns the first call of a cursor for reading the bytes that doesn't return what is expected.
pub fn wrong_read(bytes: &[u8], reads: &[Read]) -> Option<usize> {
    let mut cursor = Octets::with_slice(bytes);
    for (i, read) in reads.iter().enumerate() {
        if !answers_reader(&mut cursor, read) {
            return Some(i);
        }
    }
    None
}

/// Returns the first such call of a cursor for writing over a copy of the bytes. If the copy
/// changes, the result is the number of calls.
pub fn wrong_read_mut(bytes: &[u8], reads: &[Read]) -> Option<usize> {
    let mut buffer = [0; 64];
    let Some(copy) = buffer.get_mut(..bytes.len()) else {
        return Some(reads.len());
    };
    copy.copy_from_slice(bytes);
    let mut cursor = OctetsMut::with_slice(copy);
    for (i, read) in reads.iter().enumerate() {
        if !answers_mut(&mut cursor, read) {
            return Some(i);
        }
    }
    if cursor.buf() == bytes {
        None
    } else {
        Some(reads.len())
    }
}
