//! Records: a kind of one byte, a length of one byte, and a value.
//!
//! An export can't return a cursor. It returns a byte string as an offset and a length, which say where
//! the string is in the buffer that the C program passed. For a list of records it takes the offset as
//! a parameter, and changes it to the offset of the next record. `drop off.old buffer.now` are the
//! bytes from the offset on, and the clauses state the numbers by their positions in these bytes. We
//! also tried an export whose clause states the bytes by `network` and `prefixed`, and which calls a
//! reader with such a clause. The checker found no proof of it.
//!
//! An export that writes takes the whole buffer as `&mut [u8]`, and writes at its start. (To write at
//! another place, a C program passes a pointer to this place, and the number of bytes from there to the
//! end.) The contract describes the whole buffer after the call: the bytes that were written, followed
//! by the unchanged ones. `record_bytes` defines the bytes that were written, and only the writer
//! expands it. If the clause `written` had the three fields in its place, the checker would find no
//! proof. The clause `past` of `put_record` states the new offset as a number, from which the export's
//! clause `len` follows.
ghost use Rattle.std.specs.Prelude.{◌≡◌, ◌≢◌, ◌⊎◌, ◌↔◌, ◌+◌, ◌≤◌, ◌<◌, ◌++◌, length, drop, IsOk, IfOk};
ghost use Rattle.std.specs.Prelude.{OnOk, OnErr};
ghost use Rattle.octets.specs.Bytes.{number, part};
ghost use Rattle.octets.specs.Cursor.{position, rest, IsUnchanged, Passes, Writes};
ghost use Rattle.udp_c.specs.Written.{record_bytes};

use crate::{DONE, LONG, SHORT};
use octets::{BufferTooShortError, Octets, OctetsMut, Result};

/// A record of a buffer.
#[repr(C)]
#[derive(Clone, Copy, Debug, PartialEq, Eq)]
pub struct Record {
    /// The offset in the buffer at which the value begins.
    pub from: usize,
    /// The number of bytes of the value.
    pub len: usize,
    /// What the value is.
    pub kind: u8,
}

/// Reads the kind and the length of a record, and passes its value.
fn pass_record(cursor: &mut Octets<'_>) -> Result<(u8, usize)>
    ensures fits { IsOk result
        ↔ (2 + number (part (rest cursor.old) 1 1) ≤ length (rest cursor.old)) }
    ensures kind { IfOk result (λ r. r.0 ≡ number (part (rest cursor.old) 0 1)) }
    ensures len { IfOk result (λ r. r.1 ≡ number (part (rest cursor.old) 1 1)) }
    ensures passes { IfOk result (λ r. Passes cursor.old cursor.new (2 + r.1)) }
{
    let kind = cursor.get_u8()?;
    let len = usize::from(cursor.get_u8()?);
    cursor.skip(len)?;
    Ok((kind, len))
}

/// Reads the record at the offset `off`, and moves `off` to the next record.
///
/// It returns SHORT and changes nothing if the buffer ends before the record does.
#[unsafe(no_mangle)]
pub extern "C" fn next_record(buffer: &[u8], off: &mut usize, next: &mut Record) -> u8
    ensures fits { (result ≡ 0)
        ↔ (2 + number (part (drop off.old buffer.now) 1 1) ≤ length (drop off.old buffer.now)) }
    ensures status { (result ≡ 0) ⊎ (result ≡ 1) }
    ensures kind { result ≡ 0 → next.new.kind ≡ number (part (drop off.old buffer.now) 0 1) }
    ensures from { result ≡ 0 → next.new.from ≡ off.old + 2 }
    ensures len { result ≡ 0 → next.new.len ≡ number (part (drop off.old buffer.now) 1 1) }
    ensures passes { result ≡ 0 → off.new ≡ next.new.from + next.new.len }
    ensures within { result ≡ 0 → off.new ≤ length buffer.now }
    ensures unchanged { result ≢ 0 → (off.new ≡ off.old) × (next.new ≡ next.old) }
{
    let mut cursor = Octets::with_slice(buffer);
    if cursor.skip(*off).is_err() {
        return SHORT;
    }
    let Ok((kind, len)) = pass_record(&mut cursor) else {
        return SHORT;
    };
    *next = Record {
        from: *off + 2,
        len,
        kind,
    };
    *off = cursor.off();
    DONE
}

/// Writes a record, or nothing if it doesn't fit.
#[tactic(auto, unfolding(crate::specs::Written::record_bytes))]
fn put_record(cursor: &mut OctetsMut<'_>, kind: u8, value: &[u8]) -> Result<()>
    requires { length value.now < 256 }
    ensures fits { IsOk result ↔ (2 + length value.now ≤ length (rest cursor.old)) }
    ensures writes { OnOk result (Writes cursor.old cursor.new (record_bytes kind value.now)) }
    ensures past { OnOk result (position cursor.new ≡ position cursor.old + (2 + length value.now)) }
    ensures unchanged { OnErr result (IsUnchanged cursor.old cursor.new) }
{
    if cursor.cap() < 2 + value.len() {
        return Err(BufferTooShortError);
    }
    cursor.write_u8(kind)?;
    cursor.write_u8(value.len() as u8)?;
    cursor.put_bytes(value)
}

/// Writes a record at the start of `buffer`, and stores the number of its bytes in `len`.
///
/// It returns LONG if `value` has more than 255 bytes, and otherwise SHORT if the record doesn't
/// fit. Then it changes nothing.
#[unsafe(no_mangle)]
pub extern "C" fn write_record(buffer: &mut [u8], len: &mut usize, kind: u8, value: &[u8]) -> u8
    ensures long { (result ≡ 2) ↔ (256 ≤ length value.now) }
    ensures short { (result ≡ 1) ↔ ((length value.now < 256)
        × (length buffer.old < 2 + length value.now)) }
    ensures status { (result ≡ 0) ⊎ (result ≡ 1) ⊎ (result ≡ 2) }
    ensures len { result ≡ 0 → len.new ≡ 2 + length value.now }
    ensures written { result ≡ 0 → buffer.new ≡ record_bytes kind value.now ++ drop len.new buffer.old }
    ensures unchanged { result ≢ 0 → (buffer.new ≡ buffer.old) × (len.new ≡ len.old) }
{
    if value.len() > 255 {
        return LONG;
    }
    let mut cursor = OctetsMut::with_slice(buffer);
    if put_record(&mut cursor, kind, value).is_err() {
        return SHORT;
    }
    *len = cursor.off();
    DONE
}
