//! The call that writes a literal to a sink.
ghost use Rattle.std.specs.Prelude.{◌≡◌, ◌<◌, ◌≤◌, ◌↔◌, ◌++◌, length, is_ok};
ghost use Rattle.std.specs.Prelude.{IsOk, IfSome, IfNone, OnOk, OnErr};
ghost use Rattle.octets.specs.Encodes.{cased, text_of};
ghost use Rattle.octets.specs.Sinks.{AppendsFront, capacity_of};
ghost use Rattle.octets_code.specs.Texts.{AreBytes};
ghost use Rattle.octets_literal.specs.Laws.{CanonIsLiteralOf};
ghost use Rattle.octets_literal.specs.Literals.{canon};
ghost use Rattle.octets_literal.specs.Puts.{Puts};

use crate::length::put_length;
use octets::{OctetsWriter, huffman_encoding_len, put_huffman_encoded};

/// Appends the string literal of `v` (RFC 7541, section 5.2) to `sink`, in lower case if
/// `LOWER_CASE` is true. The data are the Huffman encoding exactly if it is shorter than `v`, and
/// the length is the shortest one.
///
/// The call stops at the first call on the sink that fails, and what was appended before stays
/// appended. `v` must have at most 4294967295 bytes, which is [`crate::MAX_LITERAL_LEN`]. For an
/// empty value the sink gets only the length.
///
/// ```
/// let mut bytes = [0, 0, 0, 0];
/// let mut cursor = OctetsMut::with_slice(&mut bytes);
/// put_string::<true, OctetsMut<'_>>(&mut cursor, b"AA")?;
/// assert_eq!(cursor.off(), 3);
/// ```
#[tactic(auto, using(crate::proofs::Putting::appended), unfolding(crate::specs::Puts::Puts))]
pub fn put_string<const LOWER_CASE: bool, W: OctetsWriter>(
    sink: &mut W,
    v: &[u8],
) -> Result<(), W::Error>
    requires { length v.now ≤ 4294967295 }
    ensures ok { OnOk result
        (W.written sink.new ≡ W.written sink.old ++ canon (cased LOWER_CASE v.now)) }
    ensures err { OnErr result (AppendsFront (W.written sink.old) (W.written sink.new)
        (canon (cased LOWER_CASE v.now))) }
    ensures fits { IfSome (W.room sink.old)
        (λ c. IsOk result ↔ (length (canon (cased LOWER_CASE v.now)) ≤ c)) }

    // `room` decreases by the number of bytes that were appended, or stays unknown.
    ensures capacity { capacity_of (W.written sink.new) (W.room sink.new)
        ≡ capacity_of (W.written sink.old) (W.room sink.old) }
    ensures same_kind { W.whole sink.new ≡ W.whole sink.old }

    // Each element of `v` is below 256, which a caller that reads the literal back needs to know.
    // What is written is a literal of the value, and can be read.
    ensures are_bytes { AreBytes v.now }
    ensures literal { CanonIsLiteralOf (cased LOWER_CASE v.now) }
{
    put_parts::<LOWER_CASE, W>(sink, v)
}

/// Appends the length of the data and then the data to `sink`. The data are the Huffman encoding of
/// `v` exactly if it is shorter than `v`. The clauses of `put_string` follow from this one.
#[tactic(auto, using(crate::proofs::Putting::calls, crate::proofs::Written::parts_written))]
fn put_parts<const LOWER_CASE: bool, W: OctetsWriter>(
    sink: &mut W,
    v: &[u8],
) -> Result<(), W::Error>
    requires { length v.now ≤ 4294967295 }
    ensures puts { Puts W.written W.room W.whole sink.old sink.new (is_ok result)
        (canon (cased LOWER_CASE v.now)) }
{
    match shorter_text_len::<LOWER_CASE>(v) {
        Some(len) => {
            put_length(sink, true, len)?;
            put_huffman_encoded::<LOWER_CASE, W>(sink, v)
        }
        None => {
            put_length(sink, false, v.len())?;
            put_plain(sink, v, LOWER_CASE)
        }
    }
}

/// Returns the length of the Huffman encoding of `v`, if the encoding is shorter than `v`.
pub(crate) fn shorter_text_len<const LOWER_CASE: bool>(v: &[u8]) -> Option<usize>
    ensures shorter { IfSome result
        (λ n. (n ≡ length (text_of LOWER_CASE v.now)) × (n < length v.now)) }
    ensures not_shorter { IfNone result (length v.now ≤ length (text_of LOWER_CASE v.now)) }
{
    match huffman_encoding_len::<LOWER_CASE>(v) {
        Ok(len) if len < v.len() => Some(len),
        _ => None,
    }
}

/// Appends the bytes of `v` to the sink, in lower case if `to_lower` is true. An empty `v` makes no
/// call.
#[tactic(auto, using(crate::proofs::Putting::calls, crate::proofs::Written::data_written))]
fn put_plain<W: OctetsWriter>(sink: &mut W, v: &[u8], to_lower: bool) -> Result<(), W::Error>
    ensures puts { Puts W.written W.room W.whole sink.old sink.new (is_ok result)
        (cased to_lower v.now) }
{
    if v.is_empty() {
        return Ok(());
    }
    if !to_lower {
        return sink.put_bytes(v);
    }
    for byte in v {
        sink.put_bytes(&[byte.to_ascii_lowercase()])?;
    }
    Ok(())
}
