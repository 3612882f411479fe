//! Views for writing and halves, and what the cursor holds when they have ended.

use super::reads::{Read, answers_mut};
use super::writes::{Write, wrong_write};
use octets::OctetsMut;

/// A call that lends cursors over ranges of the buffer, and the calls on each of them; or one of
/// the calls that read and move. `None` is expected of a call that is to fail as too short.
#[derive(Clone, Copy)]
pub enum Show {
    GetBytesMut(usize, Option<&'static [Write]>),
    PeekBytesMut(usize, Option<&'static [Write]>),
    SplitAt(usize, Option<(&'static [Write], &'static [Write])>),
    Read(Read),
}

/// Calls on bytes, and what they leave.
#[derive(Clone, Copy)]
pub struct Row {
    pub bytes: &'static [u8],
    pub shows: &'static [Show],
    pub left: &'static [u8],
}

/// Whether there is a view of the next `len` bytes and each of its calls returns what is expected,
/// or there are neither.
fn is_view(cursor: &mut OctetsMut<'_>, len: usize, wanted: Option<&[Write]>) -> bool {
    let Some(writes) = wanted else {
        return cursor.get_bytes_mut(len).is_err();
    };
    match cursor.get_bytes_mut(len) {
        Ok(mut view) => wrong_write(&mut view, writes) == None,
        Err(_) => false,
    }
}

/// The same for a view that leaves the offset where it is.
fn is_view_ahead(cursor: &mut OctetsMut<'_>, len: usize, wanted: Option<&[Write]>) -> bool {
    let Some(writes) = wanted else {
        return cursor.peek_bytes_mut(len).is_err();
    };
    match cursor.peek_bytes_mut(len) {
        Ok(mut view) => wrong_write(&mut view, writes) == None,
        Err(_) => false,
    }
}

/// Whether each call of each half returns what is expected, or the split fails.
fn is_split(cursor: &mut OctetsMut<'_>, off: usize, wanted: Option<(&[Write], &[Write])>) -> bool {
    match (cursor.split_at(off), wanted) {
        (Ok((mut left, mut right)), Some((on_left, on_right))) => {
            wrong_write(&mut left, on_left) == None && wrong_write(&mut right, on_right) == None
        }
        (Err(_), None) => true,
        _ => false,
    }
}

/// Whether the call of the cursor returns what is expected.
fn answers(cursor: &mut OctetsMut<'_>, show: &Show) -> bool {
    match *show {
        Show::GetBytesMut(len, wanted) => is_view(cursor, len, wanted),
        Show::PeekBytesMut(len, wanted) => is_view_ahead(cursor, len, wanted),
        Show::SplitAt(off, wanted) => is_split(cursor, off, wanted),
        Show::Read(ref read) => answers_mut(cursor, read),
    }
}

/// Returns the first call of the cursor that doesn't return what is expected.
fn wrong_show(cursor: &mut OctetsMut<'_>, shows: &[Show]) -> Option<usize> {
    for (i, show) in shows.iter().enumerate() {
        if !answers(cursor, show) {
            return Some(i);
        }
    }
    None
}

/// Returns the first such call on the bytes. If the calls leave other bytes than those of the case,
/// the result is their number.
pub fn wrong_call(row: &Row) -> Option<usize> {
    let mut buffer = [0; 64];
    let Some(bytes) = buffer.get_mut(..row.bytes.len()) else {
        return Some(row.shows.len());
    };
    bytes.copy_from_slice(row.bytes);
    let wrong = wrong_show(&mut OctetsMut::with_slice(bytes), row.shows);
    if wrong == None && *bytes != *row.left {
        return Some(row.shows.len());
    }
    wrong
}
