//! Writes into the caller's buffer.
ghost use Rattle.std.specs.Prelude.{◌≡◌, ◌≢◌, ◌⊎◌, ◌↔◌, ◌+◌, ◌-◌, ◌*◌, ◌^◌, ◌<◌, ◌≤◌, length};
ghost use Rattle.std.specs.Prelude.{◌++◌, IsOk, IfOk, OnErr};
ghost use Rattle.octets.specs.Bytes.{network, splice};
ghost use Rattle.octets.specs.Cursor.{bytes, position, rest, IsUnchanged, Writes};
ghost use Rattle.octets.specs.Slices.{reference};
ghost use Rattle.octets.specs.Varints.{IsWidth, shortest, varint};
ghost use Rattle.octets_c.specs.Statuses.{done, short, unfit, long};

use crate::cursors::write_at;
use crate::status::{DONE, LONG, SHORT, UNFIT};
use octets::{BufferTooShortError, MAX_VAR_INT, OctetsMut, Result, varint_fits, varint_len};

/// Copies all bytes of value to the buffer.
///
/// Returns OCTETS_SHORT if and only if fewer than value_len bytes remain, otherwise OCTETS_DONE.
#[unsafe(no_mangle)]
pub extern "C" fn octets_put_bytes(bytes: &mut [u8], off: &mut usize, value: &[u8]) -> u8
    ensures fits { (result ≡ done) ↔ (off.old + length value.now ≤ length bytes.old) }
    ensures status { (result ≡ done) ⊎ (result ≡ short) }
    ensures writes { result ≡ done → bytes.new ≡ splice bytes.old off.old value.now }
    ensures passes { result ≡ done → off.new ≡ off.old + length value.now }
    ensures refused { result ≢ done → (bytes.new ≡ bytes.old) × (off.new ≡ off.old) }
{
    write_at!(bytes, off, cursor => cursor.put_bytes(value))
}

/// Write value as 1, 2, 3, 4 or 8 bytes, the most significant byte first. octets_put_u24 writes the
/// low 24 bits of value.
///
/// Returns OCTETS_SHORT if and only if fewer bytes remain than are to be written, otherwise
/// OCTETS_DONE.
#[unsafe(no_mangle)]
pub extern "C" fn octets_put_u8(bytes: &mut [u8], off: &mut usize, value: u8) -> u8
    ensures fits { (result ≡ done) ↔ (off.old + 1 ≤ length bytes.old) }
    ensures status { (result ≡ done) ⊎ (result ≡ short) }
    ensures writes { result ≡ done → bytes.new ≡ splice bytes.old off.old (network 1 value) }
    ensures passes { result ≡ done → off.new ≡ off.old + 1 }
    ensures refused { result ≢ done → (bytes.new ≡ bytes.old) × (off.new ≡ off.old) }
{
    write_at!(bytes, off, cursor => cursor.write_u8(value))
}

/// As octets_put_u8.
#[unsafe(no_mangle)]
pub extern "C" fn octets_put_u16(bytes: &mut [u8], off: &mut usize, value: u16) -> u8
    ensures fits { (result ≡ done) ↔ (off.old + 2 ≤ length bytes.old) }
    ensures status { (result ≡ done) ⊎ (result ≡ short) }
    ensures writes { result ≡ done → bytes.new ≡ splice bytes.old off.old (network 2 value) }
    ensures passes { result ≡ done → off.new ≡ off.old + 2 }
    ensures refused { result ≢ done → (bytes.new ≡ bytes.old) × (off.new ≡ off.old) }
{
    write_at!(bytes, off, cursor => cursor.write_u16(value))
}

/// As octets_put_u8.
#[unsafe(no_mangle)]
pub extern "C" fn octets_put_u24(bytes: &mut [u8], off: &mut usize, value: u32) -> u8
    ensures fits { (result ≡ done) ↔ (off.old + 3 ≤ length bytes.old) }
    ensures status { (result ≡ done) ⊎ (result ≡ short) }
    ensures writes { result ≡ done → bytes.new ≡ splice bytes.old off.old (network 3 value) }
    ensures passes { result ≡ done → off.new ≡ off.old + 3 }
    ensures refused { result ≢ done → (bytes.new ≡ bytes.old) × (off.new ≡ off.old) }
{
    // The cursor makes the same test. Only with this additional one does the compiler vectorize a
    // loop over this call.
    if bytes.len() < 3 || bytes.len() - 3 < *off {
        return SHORT;
    }
    write_at!(bytes, off, cursor => cursor.write_u24(value))
}

/// As octets_put_u8.
#[unsafe(no_mangle)]
pub extern "C" fn octets_put_u32(bytes: &mut [u8], off: &mut usize, value: u32) -> u8
    ensures fits { (result ≡ done) ↔ (off.old + 4 ≤ length bytes.old) }
    ensures status { (result ≡ done) ⊎ (result ≡ short) }
    ensures writes { result ≡ done → bytes.new ≡ splice bytes.old off.old (network 4 value) }
    ensures passes { result ≡ done → off.new ≡ off.old + 4 }
    ensures refused { result ≢ done → (bytes.new ≡ bytes.old) × (off.new ≡ off.old) }
{
    write_at!(bytes, off, cursor => cursor.write_u32(value))
}

/// As octets_put_u8.
#[unsafe(no_mangle)]
pub extern "C" fn octets_put_u64(bytes: &mut [u8], off: &mut usize, value: u64) -> u8
    ensures fits { (result ≡ done) ↔ (off.old + 8 ≤ length bytes.old) }
    ensures status { (result ≡ done) ⊎ (result ≡ short) }
    ensures writes { result ≡ done → bytes.new ≡ splice bytes.old off.old (network 8 value) }
    ensures passes { result ≡ done → off.new ≡ off.old + 8 }
    ensures refused { result ≢ done → (bytes.new ≡ bytes.old) × (off.new ≡ off.old) }
{
    write_at!(bytes, off, cursor => cursor.write_u64(value))
}

/// Writes value as a varint of the smallest width that holds it.
///
/// Returns OCTETS_UNFIT if value is above OCTETS_VARINT_MAX; otherwise OCTETS_SHORT if fewer bytes
/// remain than the varint has; otherwise OCTETS_DONE.
#[unsafe(no_mangle)]
pub extern "C" fn octets_put_varint(bytes: &mut [u8], off: &mut usize, value: u64) -> u8
    ensures fits { (result ≡ done)
        ↔ ((value < 2 ^ 62) × (off.old + shortest value ≤ length bytes.old)) }
    ensures unfit { (result ≡ unfit) ↔ (2 ^ 62 ≤ value) }
    ensures status { (result ≡ done) ⊎ (result ≡ short) ⊎ (result ≡ unfit) }
    ensures writes { result ≡ done
        → bytes.new ≡ splice bytes.old off.old (varint (shortest value) value) }
    ensures passes { result ≡ done → off.new ≡ off.old + shortest value }
    ensures refused { result ≢ done → (bytes.new ≡ bytes.old) × (off.new ≡ off.old) }
{
    if value > MAX_VAR_INT {
        return UNFIT;
    }
    write_at!(bytes, off, cursor => cursor.write_varint(value))
}

/// Writes value as a varint of width bytes.
///
/// Returns OCTETS_UNFIT if width isn't 1, 2, 4 or 8, or if value isn't below 2^(8 * width - 2);
/// otherwise OCTETS_SHORT if fewer than width bytes remain; otherwise OCTETS_DONE.
#[tactic(auto, using(octets::proofs::CallerLemmas::length_varint))]
#[unsafe(no_mangle)]
pub extern "C" fn octets_put_varint_with_len(
    bytes: &mut [u8],
    off: &mut usize,
    value: u64,
    width: usize,
) -> u8
    ensures fits { (result ≡ done)
        ↔ (IsWidth width × (value < 2 ^ (8 * width - 2)) × (off.old + width ≤ length bytes.old)) }
    ensures unfit { (result ≡ unfit) ↔ (IsWidth width → value < 2 ^ (8 * width - 2) → ⊥) }
    ensures status { (result ≡ done) ⊎ (result ≡ short) ⊎ (result ≡ unfit) }
    ensures writes { result ≡ done
        → bytes.new ≡ splice bytes.old off.old (varint width value) }
    ensures passes { result ≡ done → off.new ≡ off.old + width }
    ensures refused { result ≢ done → (bytes.new ≡ bytes.old) × (off.new ≡ off.old) }
{
    if !varint_fits(value, width) {
        return UNFIT;
    }
    write_at!(bytes, off, cursor => cursor.write_varint_with_len(value, width))
}

/// Writes the length of `value` at the cursor, as a varint of the least width, and then `value`.
fn put_parts(cursor: &mut OctetsMut<'_>, value: &[u8]) -> Result<()>
    requires { length value.now < 2 ^ 62 }
    ensures fits { IsOk result ↔ (shortest (length value.now) + length value.now
        ≤ length (rest cursor.old)) }
    ensures writes { IfOk result (λ _. Writes cursor.old cursor.new
        (varint (shortest (length value.now)) (length value.now) ++ value.now)) }
    ensures past { IfOk result (λ _. position cursor.new
        ≡ position cursor.old + (shortest (length value.now) + length value.now)) }
    ensures unchanged { OnErr result (IsUnchanged cursor.old cursor.new) }
    ensures same_reference { reference cursor.new ≡ reference cursor.old }
{
    let len = value.len() as u64;
    // Both parts are measured first, so that a call that fails doesn't leave the length alone.
    if cursor.cap() < varint_len(len) + value.len() {
        return Err(BufferTooShortError);
    }
    cursor.write_varint(len)?;
    cursor.put_bytes(value)
}

/// Does what `put_parts` does, and says so of all bytes of the buffer.
#[tactic(auto, using(octets_literal::proofs::Fitting::bytes_after_ok))]
fn put_prefixed(cursor: &mut OctetsMut<'_>, value: &[u8]) -> Result<()>
    requires { length value.now < 2 ^ 62 }
    ensures fits { IsOk result ↔ (shortest (length value.now) + length value.now
        ≤ length (rest cursor.old)) }
    ensures past { IfOk result (λ _. position cursor.new
        ≡ position cursor.old + (shortest (length value.now) + length value.now)) }
    ensures bytes { IfOk result (λ _. bytes cursor.new
        ≡ splice (bytes cursor.old) (position cursor.old)
        (varint (shortest (length value.now)) (length value.now) ++ value.now)) }
    ensures unchanged { OnErr result (IsUnchanged cursor.old cursor.new) }
    ensures same_reference { reference cursor.new ≡ reference cursor.old }
{
    put_parts(cursor, value)
}

/// Writes value_len as a varint of the smallest width that holds it, and then all bytes of value.
///
/// Returns OCTETS_LONG if value_len is above OCTETS_VARINT_MAX; otherwise OCTETS_SHORT if fewer bytes
/// remain than the varint and value have together; otherwise OCTETS_DONE.
#[unsafe(no_mangle)]
pub extern "C" fn octets_put_bytes_with_varint_length(
    bytes: &mut [u8],
    off: &mut usize,
    value: &[u8],
) -> u8
    ensures fits { (result ≡ done) ↔ ((length value.now < 2 ^ 62)
        × (off.old + (shortest (length value.now) + length value.now) ≤ length bytes.old)) }
    ensures long { (result ≡ long) ↔ (2 ^ 62 ≤ length value.now) }
    ensures status { (result ≡ done) ⊎ (result ≡ short) ⊎ (result ≡ long) }
    ensures writes { result ≡ done → bytes.new ≡ splice bytes.old off.old
        (varint (shortest (length value.now)) (length value.now) ++ value.now) }
    ensures passes { result ≡ done
        → off.new ≡ off.old + (shortest (length value.now) + length value.now) }
    ensures refused { result ≢ done → (bytes.new ≡ bytes.old) × (off.new ≡ off.old) }
{
    if value.len() as u64 > MAX_VAR_INT {
        return LONG;
    }
    write_at!(bytes, off, cursor => put_prefixed(&mut cursor, value))
}
