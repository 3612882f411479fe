//! Variable-length integers (RFC 9000 section 16).
ghost use Rattle.std.specs.Prelude.{◌≡◌, ◌≤◌, ◌<◌, ◌+◌, ◌-◌, ◌*◌, ◌/◌, ◌^◌, ◌∷◌, ◌++◌, ℕ, List};
ghost use Rattle.std.specs.Prelude.{drop, length, ◌↔◌, IsTrue, IsOk, OnErr, IfOk, Ok, Err};
ghost use Rattle.octets.specs.Bytes.{AreBytes};
ghost use Rattle.octets.specs.Varints.{BeginsVarint, BeginsOverlong, HasNoVarint};
ghost use Rattle.octets.specs.Varints.{HoldsVarint, IsVarint, IsWidth, shortest, varint};
ghost use Rattle.octets.specs.declared.error.VarintError.TheVariants.{Short, Overlong};

use crate::error::{BufferTooShortError, Result, VarintError};
use crate::number::{read_u16, read_u32, read_u64};

/// The greatest value of a varint: 2 to the power 62, less one.
pub const MAX_VAR_INT: u64 = 4_611_686_018_427_387_903;

/// Returns the least width in bytes (1, 2, 4 or 8) in which a varint can have the value `v`. `v`
/// must be below 2 to the power 62, so at most [`MAX_VAR_INT`].
///
/// ```
/// assert_eq!(varint_len(63), 1);
/// assert_eq!(varint_len(64), 2);
/// ```
pub const fn varint_len(v: u64) -> usize
    requires { v < 2 ^ 62 }
    ensures shortest { result ≡ shortest v }
    ensures holds { (b : List ℕ) × IsVarint b result v }
    ensures least { (b : List ℕ) (w : ℕ) → IsVarint b w v → result ≤ w }
{
    if v < 1 << 6 {
        1
    } else if v < 1 << 14 {
        2
    } else if v < 1 << 30 {
        4
    } else {
        8
    }
}

/// Returns whether a varint of `width` bytes can have the value `v`: whether the width is 1, 2, 4
/// or 8, and `v` is below 2 to the power `8 * width - 2`. `put_varint_with_len` requires this.
///
/// ```
/// assert!(varint_fits(63, 1));
/// assert!(!varint_fits(64, 1));
/// ```
pub fn varint_fits(v: u64, width: usize) -> bool
    ensures { IsTrue result ↔ (IsWidth width × (v < 2 ^ (8 * width - 2))) }
{
    match width {
        1 => v < 1 << 6,
        2 => v < 1 << 14,
        4 => v < 1 << 30,
        8 => v < 1 << 62,
        _ => false,
    }
}

/// Returns the number of bytes of a varint whose first byte is `first`: 1, 2, 4 or 8, as its two
/// most significant bits say.
///
/// ```
/// assert_eq!(varint_parse_len(0x25), 1);
/// assert_eq!(varint_parse_len(0x7b), 2);
/// ```
pub const fn varint_parse_len(first: u8) -> usize
    ensures width { (b : List ℕ) (w n : ℕ) → IsVarint (first ∷ b) w n → w ≡ result }
    ensures any { (b : List ℕ) → AreBytes b → length b + 1 ≡ result
        → (n : ℕ) × IsVarint (first ∷ b) result n }
    ensures marked { result ≡ 2 ^ (first / 64) }
    ensures is_width { IsWidth result }
{
    1 << (first >> 6)
}

/// Returns the byte at the position `from`. `read_u8` returns the same, but in a loop LLVM compares
/// once more where that is followed by a longer read.
#[inline(always)]
fn first_byte(bytes: &[u8], from: usize) -> Result<u8>
    requires { from ≤ length bytes.now }
    ensures fits { IsOk result ↔ (1 ≤ length (drop from bytes.now)) }
    ensures spells { IfOk result (λ n. drop from bytes.now ≡ n ∷ drop 1 (drop from bytes.now)) }
{
    match bytes.get(..from + 1) {
        Some(front) => match front.last() {
            Some(byte) => Ok(*byte),
            None => Err(BufferTooShortError),
        },
        None => Err(BufferTooShortError),
    }
}

/// Returns the width and the value of the varint at the position `from`.
#[inline(always)]
#[tactic(auto, unfolding(crate::specs::Varints::BeginsVarint))]
pub(crate) fn read_varint(bytes: &[u8], from: usize) -> Result<(usize, u64)>
    requires { from ≤ length bytes.now }
    ensures fits { IsOk result ↔ HoldsVarint (drop from bytes.now) }
    ensures eight_suffice { 8 ≤ length (drop from bytes.now) → IsOk result }
    ensures value { IfOk result (λ r. BeginsVarint (drop from bytes.now) r.0 r.1) }
    ensures some { IfOk result (λ r. 1 ≤ r.0) }
    ensures eight_at_most { IfOk result (λ r. r.0 ≤ 8) }
    ensures within { IfOk result (λ r. r.0 ≤ length (drop from bytes.now)) }
    ensures refused { OnErr result (HasNoVarint (drop from bytes.now)) }
{
    let first = first_byte(bytes, from)?;
    if first < 64 {
        return Ok((1, u64::from(first)));
    }
    // One byte is tested by itself, so that fewer branches are mispredicted if widths are mixed.
    let mark = first >> 6;
    if mark % 2 == 0 {
        Ok((4, u64::from(read_u32(bytes, from)? & 0x3fff_ffff)))
    } else if mark < 2 {
        Ok((2, u64::from(read_u16(bytes, from)? & 0x3fff)))
    } else {
        Ok((8, read_u64(bytes, from)? & MAX_VAR_INT))
    }
}

/// Returns the value of the varint at the position `from`, if the value needs its width.
#[tactic(auto, using(crate::proofs::lemmas::Outcomes::reads))]
pub(crate) fn read_varint_shortest(
    bytes: &[u8],
    from: usize,
) -> std::result::Result<u64, VarintError>
    requires { from ≤ length bytes.now }
    ensures value { IfOk result (λ n. BeginsVarint (drop from bytes.now) (shortest n) n) }
    ensures within { IfOk result (λ n. shortest n ≤ length (drop from bytes.now)) }
    ensures spells { IfOk result
        (λ n. (drop from bytes.now) ≡ varint (shortest n) n ++ drop (shortest n) (drop from bytes.now)) }
    ensures every { (n : ℕ) → BeginsVarint (drop from bytes.now) (shortest n) n → result ≡ Ok n }
    ensures short { (result ≡ Err Short) ↔ HasNoVarint (drop from bytes.now) }
    ensures overlong { (result ≡ Err Overlong) ↔ BeginsOverlong (drop from bytes.now) }
{
    let Ok((width, value)) = read_varint(bytes, from) else {
        return Err(VarintError::Short);
    };
    if varint_len(value) < width {
        return Err(VarintError::Overlong);
    }
    Ok(value)
}
