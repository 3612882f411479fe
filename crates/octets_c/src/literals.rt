//! String literals of HPACK (RFC 7541, section 5.2) in the caller's buffers.
ghost use Rattle.std.specs.Prelude.{◌≡◌, ◌≢◌, ◌⊎◌, ◌↔◌, ℕ, ◌+◌, ◌<◌, ◌≤◌, ◌++◌};
ghost use Rattle.std.specs.Prelude.{List, drop, length, IsOk, IfOk, OnErr};
ghost use Rattle.octets.specs.Bytes.{splice};
ghost use Rattle.octets.specs.Encodes.{cased};
ghost use Rattle.octets.specs.Cursor.{bytes, position, rest, IsUnchanged, Writes};
ghost use Rattle.octets.specs.Slices.{reference};
ghost use Rattle.octets_literal.specs.Faults.{HoldsData};
ghost use Rattle.octets_literal.specs.Literals.{BeginsLiteral, canon};
ghost use Rattle.octets_literal.specs.Values.{LeavesRead};
ghost use Rattle.octets_c.specs.Refusals.{RefusesLiteral, TellsFault, status_of_fault, written_by};
ghost use Rattle.octets_c.specs.Statuses.{done, short, long, not_text, no_room};

use crate::cursors::{at, write_at};
use crate::huffman::{stop_status, stop_written};
use crate::status::{DONE, LONG, NO_ROOM, SHORT};
use octets::{OctetsMut, Result};
use octets_literal::{LiteralError, MAX_LITERAL_LEN, ValueError, read_string_into, write_string};

/// Returns the status for a fault of a value.
fn fault_status(fault: ValueError) -> u8
    ensures status { result ≡ status_of_fault fault }
    ensures one_of { (result ≡ not_text) ⊎ (result ≡ no_room) }
{
    match fault {
        ValueError::Text(why) => stop_status(why),
        ValueError::Long => NO_ROOM,
    }
}

/// Returns how many bytes were written into `room` bytes before the fault.
fn fault_written(fault: ValueError, room: usize) -> usize
    ensures { result ≡ written_by fault room }
{
    match fault {
        ValueError::Text(why) => stop_written(why, room),
        ValueError::Long => 0,
    }
}

/// Reads a string literal of HPACK (RFC 7541, section 5.2): a length, which need not be encoded in
/// its shortest form, and then a value or the Huffman encoding of a value. The literal is read from
/// bytes, of bytes_len bytes, at *off. The value is written to out, which has space for out_len
/// bytes; *len is the length of the value. The other bytes of out are unchanged, and the offset
/// moves past the literal. An out_len of OCTETS_VALUE_MOST(bytes_len - *off) always suffices.
///
/// Returns the first of these that applies:
///
/// - OCTETS_LONG if the length is encoded in more than six bytes, or is greater than
/// OCTETS_LITERAL_MAX;
///
/// - OCTETS_SHORT if the buffer ends before the length does, or fewer bytes follow the length than
/// it says;
///
/// - OCTETS_NO_ROOM or OCTETS_NOT_TEXT for the first error in the value, as from
/// octets_get_huffman_decoded;
///
/// - OCTETS_DONE.
///
/// On error: the offset is unchanged. After OCTETS_SHORT or OCTETS_LONG, nothing was written to
/// out, and *len is 0. After OCTETS_NOT_TEXT or OCTETS_NO_ROOM, the first *len bytes of out are
/// what was decoded before the error if the value is Huffman-encoded; otherwise nothing was written
/// to out, and *len is 0.
#[unsafe(no_mangle)]
pub extern "C" fn octets_get_string(
    bytes: &[u8],
    off: &mut usize,
    out: &mut [u8],
    len: &mut usize,
) -> u8
    ensures value { result ≡ done → (k : ℕ) × (v : List ℕ)
        × BeginsLiteral (drop off.old bytes.now) k v × (length v ≡ len.new)
        × (out.new ≡ v ++ drop len.new out.old) × (off.new ≡ off.old + k) }
    ensures every { (k : ℕ) (v : List ℕ) → off.old ≤ length bytes.now
        → BeginsLiteral (drop off.old bytes.now) k v → length v ≤ length out.old → result ≡ done }
    ensures few { result ≡ done → len.new ≤ length out.old }

    // Which errors there are, and when which is returned.
    ensures status { (result ≡ done) ⊎ (result ≡ short) ⊎ (result ≡ long)
        ⊎ (result ≡ not_text) ⊎ (result ≡ no_room) }
    ensures refused { result ≢ done → off.old ≤ length bytes.now
        → RefusesLiteral (drop off.old bytes.now) (length out.old) result }
    ensures for_value { (k : ℕ) (v : List ℕ) → off.old ≤ length bytes.now
        → BeginsLiteral (drop off.old bytes.now) k v
        → (result ≡ done) ⊎ (result ≡ not_text) ⊎ (result ≡ no_room) }
    ensures stays { result ≢ done → off.new ≡ off.old }

    // What an error leaves in `out`, and which number of bytes it stores in `len`.
    ensures kept { (result ≡ short) ⊎ (result ≡ long) → (out.new ≡ out.old) × (len.new ≡ 0) }
    ensures front { (result ≡ not_text) ⊎ (result ≡ no_room) → HoldsData (drop off.old bytes.now)
        (λ huffman d. LeavesRead huffman d out.old out.new) }
    ensures fault { (result ≡ not_text) ⊎ (result ≡ no_room) → HoldsData (drop off.old bytes.now)
        (λ huffman d. TellsFault result len.new huffman d out.old out.new) }
    ensures outside { length bytes.now < off.old → (result ≡ short) × (out.new ≡ out.old) }
{
    *len = 0;
    let Ok(mut cursor) = at(bytes, *off) else {
        return SHORT;
    };
    let room = out.len();
    // The call replaces this if it fails with `Value`.
    let mut fault = ValueError::Long;
    match read_string_into(&mut cursor, out, &mut fault) {
        Ok(value_len) => {
            *len = value_len;
            *off = cursor.off();
            DONE
        }
        Err(LiteralError::Short) => SHORT,
        Err(LiteralError::Length) => LONG,
        Err(LiteralError::Value) => {
            *len = fault_written(fault, room);
            fault_status(fault)
        }
        // This call allocates nothing.
        Err(LiteralError::OutOfMemory) => unreachable!(),
    }
}

/// Writes the literal of `value` at the cursor, in lower case if `lower_case` is true.
fn put_literal(cursor: &mut OctetsMut<'_>, value: &[u8], lower_case: bool) -> Result<()>
    requires { length value.now ≤ 4294967295 }
    ensures fits { IsOk result
        ↔ (length (canon (cased lower_case value.now)) ≤ length (rest cursor.old)) }
    ensures writes { IfOk result
        (λ _. Writes cursor.old cursor.new (canon (cased lower_case value.now))) }
    ensures bytes { IfOk result (λ _. bytes cursor.new
        ≡ splice (bytes cursor.old) (position cursor.old) (canon (cased lower_case value.now))) }
    ensures unchanged { OnErr result (IsUnchanged cursor.old cursor.new) }
    ensures same_reference { reference cursor.new ≡ reference cursor.old }
{
    if lower_case {
        write_string::<true>(cursor, value)
    } else {
        write_string::<false>(cursor, value)
    }
}

/// Writes the string literal of value: its length in the shortest form, and then the Huffman
/// encoding of value if that is shorter than value, or else value itself. If lower_case is true, A
/// to Z are written as a to z, in both forms. OCTETS_LITERAL_MOST(value_len) bytes always suffice.
///
/// Returns OCTETS_LONG if value_len exceeds OCTETS_LITERAL_MAX; otherwise OCTETS_SHORT if fewer
/// bytes remain than the literal has; otherwise OCTETS_DONE.
#[unsafe(no_mangle)]
pub extern "C" fn octets_put_string(
    bytes: &mut [u8],
    off: &mut usize,
    value: &[u8],
    lower_case: bool,
) -> u8
    ensures fits { (result ≡ done) ↔ ((length value.now ≤ 4294967295)
        × (off.old + length (canon (cased lower_case value.now)) ≤ length bytes.old)) }
    ensures long { (result ≡ long) ↔ (4294967295 < length value.now) }
    ensures status { (result ≡ done) ⊎ (result ≡ short) ⊎ (result ≡ long) }
    ensures writes { result ≡ done
        → bytes.new ≡ splice bytes.old off.old (canon (cased lower_case value.now)) }
    ensures passes { result ≡ done
        → off.new ≡ off.old + length (canon (cased lower_case value.now)) }
    ensures refused { result ≢ done → (bytes.new ≡ bytes.old) × (off.new ≡ off.old) }
{
    if value.len() > MAX_LITERAL_LEN {
        return LONG;
    }
    write_at!(bytes, off, cursor => put_literal(&mut cursor, value, lower_case))
}
