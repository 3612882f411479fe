//! Calls that lend, each with the bytes that it is expected to lend, and those that are then
//! written over them.

use super::reads::{Read, answers_mut};
use octets::{MAX_VAR_INT, OctetsMut};
use octets_script::Wide;

/// The bytes that are expected to be lent, and those that are then written over them, from their
/// start on. `None` is expected of a call that is to fail as too short.
pub type Loan = Option<(&'static [u8], &'static [u8])>;

/// A call that lends, and what it is expected to lend; or one of the calls that read and move.
#[derive(Clone, Copy)]
pub enum Write {
    PutU8(u8, Loan),
    PutU16(u16, Loan),
    PutU24(u32, Loan),
    PutU32(u32, Loan),
    PutU64(u64, Loan),
    PutVarint(u64, Loan),
    PutVarintWithLen(u64, usize, Loan),
    PutBytes(&'static [u8], Option<()>),
    PutHuffman(&'static [u8], Option<()>),
    Slice(usize, Loan),
    SliceLast(usize, Loan),
    AsMut(Loan),
    Read(Read),
}

/// Calls on bytes, and what they leave.
#[derive(Clone, Copy)]
pub struct Row {
    pub bytes: &'static [u8],
    pub writes: &'static [Write],
    pub left: &'static [u8],
}

/// Whether the expected bytes were lent, or there are neither. They are then written over.
fn lent_and_written(lent: octets::Result<&mut [u8]>, wanted: Loan) -> bool {
    match (lent, wanted) {
        (Ok(lent), Some((shown, written))) => {
            let is_shown = *lent == *shown;
            for (place, byte) in lent.iter_mut().zip(written) {
                *place = *byte;
            }
            is_shown
        }
        (Err(_), None) => true,
        _ => false,
    }
}

/// Whether the call of the cursor returns what is expected.
fn answers(cursor: &mut OctetsMut<'_>, write: &Write) -> bool {
    match *write {
        Write::PutU8(v, wanted) => lent_and_written(cursor.put_u8(v), wanted),
        Write::PutU16(v, wanted) => lent_and_written(cursor.put_u16(v), wanted),
        Write::PutU24(v, wanted) => lent_and_written(cursor.put_u24(v), wanted),
        Write::PutU32(v, wanted) => lent_and_written(cursor.put_u32(v), wanted),
        Write::PutU64(v, wanted) => lent_and_written(cursor.put_u64(v), wanted),
        Write::PutVarint(v, wanted) => {
            v <= MAX_VAR_INT && lent_and_written(cursor.put_varint(v), wanted)
        }
        Write::PutVarintWithLen(v, len, wanted) => match Wide::new(v, len) {
            Some(wide) => {
                let lent = cursor.put_varint_with_len(wide.value(), wide.width());
                lent_and_written(lent, wanted)
            }
            None => false,
        },
        Write::PutBytes(bytes, wanted) => cursor.put_bytes(bytes).ok() == wanted,
        Write::PutHuffman(value, wanted) => {
            cursor.put_huffman_encoded::<false>(value).ok() == wanted
        }
        Write::Slice(len, wanted) => lent_and_written(cursor.slice(len), wanted),
        Write::SliceLast(len, wanted) => lent_and_written(cursor.slice_last(len), wanted),
        Write::AsMut(wanted) => lent_and_written(Ok(cursor.as_mut()), wanted),
        Write::Read(ref read) => answers_mut(cursor, read),
    }
}

/// Returns the first call of the cursor that doesn't return what is expected.
pub(crate) fn wrong_write(cursor: &mut OctetsMut<'_>, writes: &[Write]) -> Option<usize> {
    for (i, write) in writes.iter().enumerate() {
        if !answers(cursor, write) {
            return Some(i);
        }
    }
    None
}

/// Returns the first such call on the bytes. If the calls leave other bytes than those of the case,
/// the result is their number.
pub fn wrong_call(row: &Row) -> Option<usize> {
    let mut buffer = [0; 64];
    let Some(bytes) = buffer.get_mut(..row.bytes.len()) else {
        return Some(row.writes.len());
    };
    bytes.copy_from_slice(row.bytes);
    let wrong = wrong_write(&mut OctetsMut::with_slice(bytes), row.writes);
    if wrong == None && *bytes != *row.left {
        return Some(row.writes.len());
    }
    wrong
}
