//! Reads of runs of bytes, which aren't copied.
ghost use Rattle.std.specs.Prelude.{◌≡◌, ◌≢◌, ◌⊎◌, ◌↔◌, ℕ, ◌+◌, ◌-◌, ◌<◌};
ghost use Rattle.std.specs.Prelude.{◌≤◌, drop, length, IfOk, OnOk, OnErr};
ghost use Rattle.octets.specs.Bytes.{number, part};
ghost use Rattle.octets.specs.Cursor.{bytes};
ghost use Rattle.octets.specs.Varints.{BeginsVarint, HoldsPrefixed};
ghost use Rattle.octets_c.specs.Runs.{PassesLength};
ghost use Rattle.octets_c.specs.Statuses.{done, short};

use crate::cursors::at;
use crate::status::{DONE, SHORT};
use octets::{Octets, Result};

/// Where a run of bytes is in its buffer.
#[derive(Clone, Copy)]
#[repr(C)]
pub struct Run {
    /// The offset of its first byte.
    pub from: usize,
    /// Its number of bytes.
    pub len: usize,
}

/// Moves the offset past len bytes.
///
/// Returns OCTETS_SHORT if and only if fewer than len bytes remain, otherwise OCTETS_DONE.
///
/// If size_t has 32 bits, C cuts a len of 64 bits to its low 32 bits without a warning. To skip as
/// many bytes as a varint says, call octets_get_bytes_u64.
#[unsafe(no_mangle)]
pub extern "C" fn octets_skip(bytes: &[u8], off: &mut usize, len: usize) -> u8
    ensures fits { (result ≡ done) ↔ (off.old + len ≤ length bytes.now) }
    ensures status { (result ≡ done) ⊎ (result ≡ short) }
    ensures passes { result ≡ done → off.new ≡ off.old + len }
    ensures refused { result ≢ done → off.new ≡ off.old }
{
    let Ok(mut cursor) = at(bytes, *off) else {
        return SHORT;
    };
    if cursor.skip(len).is_err() {
        return SHORT;
    }
    *off = cursor.off();
    DONE
}

/// Sets *run to the next len bytes, and moves the offset past them. It copies no byte.
///
/// Returns OCTETS_SHORT if and only if fewer than len bytes remain, otherwise OCTETS_DONE.
///
/// If size_t has 32 bits, C cuts a len of 64 bits to its low 32 bits without a warning: a length of
/// 2^32 + 5 becomes 5. For a length that was read as a varint, call octets_get_bytes_u64.
#[unsafe(no_mangle)]
pub extern "C" fn octets_get_bytes(bytes: &[u8], off: &mut usize, len: usize, run: &mut Run) -> u8
    ensures fits { (result ≡ done) ↔ (off.old + len ≤ length bytes.now) }
    ensures status { (result ≡ done) ⊎ (result ≡ short) }
    ensures run { result ≡ done → (run.new.from ≡ off.old) × (run.new.len ≡ len) }
    ensures passes { result ≡ done → off.new ≡ off.old + len }
    ensures refused { result ≢ done → (off.new ≡ off.old) × (run.new ≡ run.old) }
{
    let from = *off;
    if octets_skip(bytes, off, len) != DONE {
        return SHORT;
    }
    *run = Run { from, len };
    DONE
}

/// Does what octets_get_bytes does, with a len of 64 bits.
#[unsafe(no_mangle)]
pub extern "C" fn octets_get_bytes_u64(bytes: &[u8], off: &mut usize, len: u64, run: &mut Run) -> u8
    ensures fits { (result ≡ done) ↔ (off.old + len ≤ length bytes.now) }
    ensures status { (result ≡ done) ⊎ (result ≡ short) }
    ensures run { result ≡ done → (run.new.from ≡ off.old) × (run.new.len ≡ len) }
    ensures passes { result ≡ done → off.new ≡ off.old + len }
    ensures refused { result ≢ done → (off.new ≡ off.old) × (run.new ≡ run.old) }
{
    if len > bytes.len() as u64 {
        return SHORT;
    }
    octets_get_bytes(bytes, off, len as usize, run)
}

/// Stores in `run` where the bytes of the view are, which end at `end`. It fails if there is no
/// view, and then changes nothing.
fn tell(view: Result<Octets<'_>>, end: usize, run: &mut Run) -> u8
    requires { IfOk view (λ v. length (bytes v) ≤ end) }
    ensures done { OnOk view.entry (result ≡ done) }
    ensures len { IfOk view.entry (λ v. run.new.len ≡ length (bytes v)) }
    ensures from { IfOk view.entry (λ v. run.new.from ≡ end - length (bytes v)) }
    ensures short { OnErr view.entry (result ≡ short) }
    ensures no_run { OnErr view.entry (run.new ≡ run.old) }
{
    let Ok(view) = view else {
        return SHORT;
    };
    let len = view.len();
    *run = Run {
        from: end - len,
        len,
    };
    DONE
}

/// Read a length, set *run to that many bytes after the length, and move the offset past these
/// bytes. The length is an integer of one or two bytes (the most significant first), or a varint of
/// any width. They copy no byte.
///
/// Returns OCTETS_SHORT if and only if the length is incomplete or fewer bytes follow than it says,
/// otherwise OCTETS_DONE.
///
/// On error: the offset is after the length if the length is complete, and unchanged if it isn't;
/// *run is unchanged. To try again with more bytes, assign to the offset what it was before the
/// call.
#[unsafe(no_mangle)]
pub extern "C" fn octets_get_bytes_with_u8_length(
    bytes: &[u8],
    off: &mut usize,
    run: &mut Run,
) -> u8
    ensures fits { (result ≡ done)
        ↔ (off.old + 1 + number (part bytes.now off.old 1) ≤ length bytes.now) }
    ensures status { (result ≡ done) ⊎ (result ≡ short) }
    ensures from { result ≡ done → run.new.from ≡ off.old + 1 }
    ensures len { result ≡ done → run.new.len ≡ number (part bytes.now off.old 1) }
    ensures passes { result ≡ done → off.new ≡ run.new.from + run.new.len }
    ensures past_length { result ≢ done → off.old + 1 ≤ length bytes.now
        → off.new ≡ off.old + 1 }
    ensures refused { length bytes.now < off.old + 1 → off.new ≡ off.old }
    ensures no_run { result ≢ done → run.new ≡ run.old }
{
    let Ok(mut cursor) = at(bytes, *off) else {
        return SHORT;
    };
    let answer = cursor.get_bytes_with_u8_length();
    *off = cursor.off();
    tell(answer, *off, run)
}

/// As octets_get_bytes_with_u8_length.
#[unsafe(no_mangle)]
pub extern "C" fn octets_get_bytes_with_u16_length(
    bytes: &[u8],
    off: &mut usize,
    run: &mut Run,
) -> u8
    ensures fits { (result ≡ done)
        ↔ (off.old + 2 + number (part bytes.now off.old 2) ≤ length bytes.now) }
    ensures status { (result ≡ done) ⊎ (result ≡ short) }
    ensures from { result ≡ done → run.new.from ≡ off.old + 2 }
    ensures len { result ≡ done → run.new.len ≡ number (part bytes.now off.old 2) }
    ensures passes { result ≡ done → off.new ≡ run.new.from + run.new.len }
    ensures past_length { result ≢ done → off.old + 2 ≤ length bytes.now
        → off.new ≡ off.old + 2 }
    ensures refused { length bytes.now < off.old + 2 → off.new ≡ off.old }
    ensures no_run { result ≢ done → run.new ≡ run.old }
{
    let Ok(mut cursor) = at(bytes, *off) else {
        return SHORT;
    };
    let answer = cursor.get_bytes_with_u16_length();
    *off = cursor.off();
    tell(answer, *off, run)
}

/// As octets_get_bytes_with_u8_length.
#[unsafe(no_mangle)]
pub extern "C" fn octets_get_bytes_with_varint_length(
    bytes: &[u8],
    off: &mut usize,
    run: &mut Run,
) -> u8
    ensures fits { (result ≡ done)
        ↔ ((off.old ≤ length bytes.now) × HoldsPrefixed (drop off.old bytes.now)) }
    ensures status { (result ≡ done) ⊎ (result ≡ short) }
    ensures run { result ≡ done → (w : ℕ) × BeginsVarint (drop off.old bytes.now) w run.new.len
        × (run.new.from ≡ off.old + w) }
    ensures passes { result ≡ done → off.new ≡ run.new.from + run.new.len }
    ensures within { result ≡ done → off.new ≤ length bytes.now }
    ensures past_length { result ≢ done → off.old ≤ length bytes.now
        → PassesLength bytes.now off.old off.new }
    ensures refused { length bytes.now < off.old → off.new ≡ off.old }
    ensures no_run { result ≢ done → run.new ≡ run.old }
{
    let Ok(mut cursor) = at(bytes, *off) else {
        return SHORT;
    };
    let answer = cursor.get_bytes_with_varint_length();
    *off = cursor.off();
    tell(answer, *off, run)
}
