//! Reads of variable-length integers (RFC 9000, section 16).
ghost use Rattle.std.specs.Prelude.{◌≡◌, ◌≢◌, ◌⊎◌, ◌↔◌, ℕ, ◌+◌, ◌/◌, ◌^◌, ◌<◌, ◌≤◌, ◌∷◌, List};
ghost use Rattle.std.specs.Prelude.{drop, length};
ghost use Rattle.octets.specs.Bytes.{AreBytes};
ghost use Rattle.octets.specs.Varints.{BeginsVarint, BeginsOverlong};
ghost use Rattle.octets.specs.Varints.{HasNoVarint, HoldsVarint, IsVarint, IsWidth, shortest};
ghost use Rattle.octets_c.specs.Statuses.{done, short, overlong};

use crate::cursors::at_byte;
use crate::status::{DONE, OVERLONG, SHORT};
use octets::{MAX_VAR_INT, VarintError, varint_len, varint_parse_len};

/// Reads a varint of any width, even if a smaller width could hold its value.
///
/// Returns OCTETS_SHORT if and only if the buffer ends before the varint does, otherwise
/// OCTETS_DONE. If at least eight bytes remain, the buffer never ends before the varint.
#[tactic(auto, using(crate::proofs::Places::none_begins))]
#[unsafe(no_mangle)]
pub extern "C" fn octets_get_varint(bytes: &[u8], off: &mut usize, value: &mut u64) -> u8
    ensures fits { (result ≡ done)
        ↔ ((off.old ≤ length bytes.now) × HoldsVarint (drop off.old bytes.now)) }
    ensures eight_suffice { off.old + 8 ≤ length bytes.now → result ≡ done }
    ensures status { (result ≡ done) ⊎ (result ≡ short) }
    ensures value { result ≡ done → (w : ℕ)
        × BeginsVarint (drop off.old bytes.now) w value.new × (off.new ≡ off.old + w) }
    ensures one { (w n : ℕ) → off.old ≤ length bytes.now → BeginsVarint (drop off.old bytes.now) w n
        → (result ≡ done) × (value.new ≡ n) × (off.new ≡ off.old + w) }
    ensures small { result ≡ done → value.new < 2 ^ 62 }
    ensures refused { result ≢ done → (off.new ≡ off.old) × (value.new ≡ value.old) }
{
    let Ok(mut cursor) = at_byte(bytes, *off) else {
        return SHORT;
    };
    let Ok(read) = cursor.get_varint() else {
        return SHORT;
    };
    *value = read;
    *off = cursor.off();
    DONE
}

/// Reads a varint, and fails if it is wider than its value needs.
///
/// Returns OCTETS_SHORT if and only if the buffer ends before the varint does, OCTETS_OVERLONG if
/// and only if the varint is complete and wider than its value needs, otherwise OCTETS_DONE.
#[tactic(auto, using(crate::proofs::Places::varints))]
#[unsafe(no_mangle)]
pub extern "C" fn octets_get_varint_shortest(bytes: &[u8], off: &mut usize, value: &mut u64) -> u8
    ensures status { (result ≡ done) ⊎ (result ≡ short) ⊎ (result ≡ overlong) }
    ensures value { result ≡ done
        → BeginsVarint (drop off.old bytes.now) (shortest value.new) value.new
        × (off.new ≡ off.old + shortest value.new) }
    ensures small { result ≡ done → value.new < 2 ^ 62 }
    ensures every { (n : ℕ) → BeginsVarint (drop off.old bytes.now) (shortest n) n → result ≡ done }
    ensures short { (result ≡ short) ↔ HasNoVarint (drop off.old bytes.now) }
    ensures overlong { (result ≡ overlong) ↔ BeginsOverlong (drop off.old bytes.now) }
    ensures refused { result ≢ done → (off.new ≡ off.old) × (value.new ≡ value.old) }
{
    let Ok(mut cursor) = at_byte(bytes, *off) else {
        return SHORT;
    };
    match cursor.get_varint_shortest() {
        Ok(read) => {
            *value = read;
            *off = cursor.off();
            DONE
        }
        Err(VarintError::Short) => SHORT,
        Err(VarintError::Overlong) => OVERLONG,
    }
}

/// Returns the smallest width of a varint that holds value: 1, 2, 4 or 8 bytes; or 0 if value is
/// above OCTETS_VARINT_MAX.
#[unsafe(no_mangle)]
pub extern "C" fn octets_varint_len(value: u64) -> usize
    ensures shortest { value < 2 ^ 62 → result ≡ shortest value }
    ensures none { 2 ^ 62 ≤ value → result ≡ 0 }
{
    if value > MAX_VAR_INT {
        return 0;
    }
    varint_len(value)
}

/// Returns the width of a varint whose first byte is first: 1, 2, 4 or 8 bytes. Every byte is the
/// first byte of a varint.
#[unsafe(no_mangle)]
pub extern "C" fn octets_varint_parse_len(first: u8) -> usize
    ensures width { (b : List ℕ) (w n : ℕ) → IsVarint (first ∷ b) w n → w ≡ result }
    ensures any { (b : List ℕ) → AreBytes b → length b + 1 ≡ result
        → (n : ℕ) × IsVarint (first ∷ b) result n }
    ensures marked { result ≡ 2 ^ (first / 64) }
    ensures is_width { IsWidth result }
{
    varint_parse_len(first)
}
