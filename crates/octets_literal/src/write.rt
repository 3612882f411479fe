//! The call that writes a literal into a cursor's buffer.
ghost use Rattle.std.specs.Prelude.{◌≡◌, ◌↔◌, ◌+◌, ◌≤◌, length, IsOk, IfOk, OnErr};
ghost use Rattle.octets.specs.Bytes.{splice};
ghost use Rattle.octets.specs.Encodes.{cased};
ghost use Rattle.octets.specs.Cursor.{bytes, position, rest, IsUnchanged, Keeps, Writes};
ghost use Rattle.octets.specs.Slices.{reference};
ghost use Rattle.octets_code.specs.Texts.{AreBytes};
ghost use Rattle.octets_literal.specs.Integers.{integer};
ghost use Rattle.octets_literal.specs.Laws.{CanonIsLiteralOf};
ghost use Rattle.octets_literal.specs.Literals.{canon, flag};

use crate::length::put_length;
use crate::put::shorter_text_len;
use octets::{BufferTooShortError, OctetsMut, Result};

/// Writes the string literal of `v` (RFC 7541, section 5.2), in lower case if `LOWER_CASE` is true,
/// and moves the offset past it. It is the same literal that `put_string` appends.
///
/// The call fails if fewer bytes remain than the literal has, and then writes nothing. `v` must
/// have at most 4294967295 bytes, which is [`crate::MAX_LITERAL_LEN`].
///
/// ```
/// let mut bytes = [0, 0, 0, 0];
/// let mut cursor = OctetsMut::with_slice(&mut bytes);
/// write_string::<false>(&mut cursor, b"aa")?;
/// assert_eq!(cursor.buf(), [2, 97, 97, 0].as_slice());
/// ```
#[tactic(auto, using(crate::proofs::Fitting::strings_written))]
pub fn write_string<const LOWER_CASE: bool>(cursor: &mut OctetsMut<'_>, v: &[u8]) -> Result<()>
    requires { length v.now ≤ 4294967295 }
    ensures fits { IsOk result
        ↔ (length (canon (cased LOWER_CASE v.now)) ≤ length (rest cursor.old)) }
    ensures writes { IfOk result
        (λ _. Writes cursor.old cursor.new (canon (cased LOWER_CASE v.now))) }
    ensures bytes { IfOk result (λ _. bytes cursor.new
        ≡ splice (bytes cursor.old) (position cursor.old) (canon (cased LOWER_CASE v.now))) }
    ensures unchanged { OnErr result (IsUnchanged cursor.old cursor.new) }
    ensures same_reference { reference cursor.new ≡ reference cursor.old }
    ensures keeps { Keeps cursor.old cursor.new }

    // Each element of `v` is below 256, which a caller that reads the literal back needs to know.
    // What is written is a literal of the value, and can be read.
    ensures are_bytes { AreBytes v.now }
    ensures literal { CanonIsLiteralOf (cased LOWER_CASE v.now) }
{
    write_parts::<LOWER_CASE>(cursor, v)
}

/// Writes the length of the data and then the data, which are the Huffman encoding of `v` exactly
/// if it is shorter than `v`. The clauses of `write_string` follow from these.
#[tactic(auto, using(crate::proofs::Written::literals_written))]
fn write_parts<const LOWER_CASE: bool>(cursor: &mut OctetsMut<'_>, v: &[u8]) -> Result<()>
    requires { length v.now ≤ 4294967295 }
    ensures fits { IsOk result
        ↔ (length (canon (cased LOWER_CASE v.now)) ≤ length (rest cursor.old)) }
    ensures writes { IfOk result
        (λ _. Writes cursor.old cursor.new (canon (cased LOWER_CASE v.now))) }
    ensures unchanged { OnErr result (IsUnchanged cursor.old cursor.new) }
    ensures same_reference { reference cursor.new ≡ reference cursor.old }
{
    match shorter_text_len::<LOWER_CASE>(v) {
        Some(len) => {
            write_length(cursor, true, len)?;
            cursor.put_huffman_encoded::<LOWER_CASE>(v)
        }
        None => {
            write_length(cursor, false, v.len())?;
            write_plain(cursor, v, LOWER_CASE);
            Ok(())
        }
    }
}

/// Writes the shortest length of `len` data bytes, with the flag, if the data fit after it. If
/// there are no data, `put_bytes` alone decides whether the length fits.
#[tactic(auto, using(crate::proofs::Fitting::lengths), unfolding(crate::specs::Puts::Puts))]
fn write_length(cursor: &mut OctetsMut<'_>, huffman: bool, len: usize) -> Result<()>
    requires { len ≤ 4294967295 }
    ensures fits { IsOk result
        ↔ (length (integer 7 (flag huffman) len) + len ≤ length (rest cursor.old)) }
    ensures writes { IfOk result
        (λ _. Writes cursor.old cursor.new (integer 7 (flag huffman) len)) }
    ensures unchanged { OnErr result (IsUnchanged cursor.old cursor.new) }
{
    let mut six = [0; 6];
    let mut front = OctetsMut::with_slice(&mut six);
    put_length(&mut front, huffman, len)?;
    let length = &front.buf()[..front.off()];
    if cursor.cap().saturating_sub(length.len()) < len {
        return Err(BufferTooShortError);
    }
    cursor.put_bytes(length)
}

/// Writes the bytes of `v`, in lower case if `to_lower` is true.
#[tactic(auto, using(crate::proofs::Fitting::lent_data))]
fn write_plain(cursor: &mut OctetsMut<'_>, v: &[u8], to_lower: bool)
    requires { length v.now ≤ length (rest cursor.old) }
    ensures { Writes cursor.old cursor.new (cased to_lower v.now) }
{
    copy_cased(cursor.lend(v.len()), v, to_lower);
}

/// Copies the bytes of `v` into `out`, in lower case if `to_lower` is true.
#[tactic(auto, using(crate::proofs::Written::copied_cased))]
fn copy_cased(out: &mut [u8], v: &[u8], to_lower: bool)
    requires { length out.old ≡ length v.now }
    ensures { out.new ≡ cased to_lower v.now }
{
    out.copy_from_slice(v);
    if to_lower {
        out.make_ascii_lowercase();
    }
}
