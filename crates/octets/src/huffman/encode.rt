//! The encoder, which collects bits in words of 64 bits.
ghost use Rattle.std.specs.Prelude.{◌≡◌, ◌+◌, ◌≤◌, ◌↔◌, ◌++◌, [], true, length};
ghost use Rattle.std.specs.Prelude.{take, IsTrue, IsOk, OnOk, OnErr, IfSome};
ghost use Rattle.octets.specs.Encodes.{cased, text_of};
ghost use Rattle.octets.specs.Bytes.{AreBytes};
ghost use Rattle.octets.specs.Pieces.{tail_pieces, pieces, kept_length, EndsGiving};
ghost use Rattle.octets.specs.Sinks.{AppendsFront, capacity_of};
ghost use Rattle.std.specs.Int.{to_be_bytes, w64};

pub(crate) mod front;
pub(crate) mod target;

use crate::huffman::case::cased_byte;
use crate::huffman::encode::target::{SinkTarget, Target};
use crate::huffman::pending::Pending;
use crate::huffman::words::word_bytes;
use crate::writer::OctetsWriter;

/// Gives the last bytes to the target: one piece of four bytes, if there are at least four, and
/// then single bytes.
fn put_tail<T: Target>(target: &mut T, tail: &[u8]) -> Result<(), T::Error>
    ensures gives { EndsGiving T.appends T.room T.whole target.old target.new result tail.now
        (tail_pieces (length tail.now)) }
    ensures same_reference { T.name target.new ≡ T.name target.old }
{
    // This case is written out, since the compiler doesn't inline the loop below.
    if tail.len() == 1 {
        return target.put_piece(tail);
    }
    let mut rest = tail;
    if tail.len() >= 4 {
        target.put_piece(&tail[..4])?;
        rest = &tail[4..];
    }
    for byte in rest {
        target.put_piece(&[*byte])?;
    }
    Ok(())
}

/// Gives the `len` most significant bytes of `word` to the target, most significant byte first. It
/// gives several bytes at once if the target can take them so, and otherwise as `put_tail` does.
#[inline]
fn put_last<T: Target>(target: &mut T, word: u64, len: usize) -> Result<(), T::Error>
    requires some { 1 ≤ len }
    requires few { len ≤ 8 }
    ensures gives { EndsGiving T.appends T.room T.whole target.old target.new result
        (take len (to_be_bytes w64 word)) (tail_pieces (length (take len (to_be_bytes w64 word)))) }
    ensures same_reference { T.name target.new ≡ T.name target.old }
{
    if len > 1 && target.put_at_once(word, len) {
        Ok(())
    } else {
        put_tail(target, &word_bytes(word)[..len])
    }
}

/// Gives the Huffman encoding of `v` to the target, in lower case if `to_lower` is true: first
/// words of 64 bits, and then the bits that remain.
///
/// Each iteration pushes two codes. The function is always inlined, so that each of the two cases
/// has a loop of its own. Both public calls are always inlined, so that the cursor stays in
/// registers while a short value is encoded.
#[inline(always)]
pub(crate) fn put_words<T: Target>(target: &mut T, v: &[u8], to_lower: bool) -> Result<(), T::Error>
    ensures gives { EndsGiving T.appends T.room T.whole target.old target.new result
        (text_of to_lower v.now) (pieces (cased to_lower v.now)) }
    ensures empty { v.now ≡ [] → IsOk result × (target.new ≡ target.old) }
    ensures same_reference { T.name target.new ≡ T.name target.old }
{
    // If the number of bytes is odd, the first byte belongs to no pair. Its code fills no word.
    let odd = v.len() % 2;
    let mut pending = if odd == 1 {
        Pending::of_byte(cased_byte(v[0], to_lower))
    } else {
        Pending::new()
    };
    let (pairs, _) = v[odd..].as_chunks::<2>();
    for pair in pairs {
        let first = cased_byte(pair[0], to_lower);
        let second = cased_byte(pair[1], to_lower);
        if let Some(word) = pending.push_pair(first, second) {
            target.put_piece(&word_bytes(word))?;
        }
    }
    if pending.is_empty() {
        return Ok(());
    }
    put_last(target, pending.last_word(), pending.byte_len())
}

/// Appends the Huffman encoding of `v` to `sink`, in lower case if `LOWER_CASE` is true (RFC 7541,
/// section 5.2): the codes of the bytes, and then fewer than eight one bits up to the end of a
/// byte.
///
/// The sink gets eight bytes in each call. If at least four bytes remain at the end, it gets four
/// of them in one call; it gets each further byte in a call of its own. The encode stops at the
/// first call that fails, and what was appended before remains in the sink.
///
/// ```
/// let mut bytes = [0, 0, 0];
/// let mut cursor = OctetsMut::with_slice(&mut bytes);
/// put_huffman_encoded::<true, OctetsMut<'_>>(&mut cursor, b"AA")?;
/// assert_eq!(cursor.buf(), [0x18, 0xff, 0].as_slice());
/// ```
#[inline(always)]
pub fn put_huffman_encoded<const LOWER_CASE: bool, W: OctetsWriter>(
    sink: &mut W,
    v: &[u8],
) -> Result<(), W::Error>
    ensures ok { OnOk result (W.written sink.new ≡ W.written sink.old ++ text_of LOWER_CASE v.now) }
    ensures err { OnErr result
        (AppendsFront (W.written sink.old) (W.written sink.new) (text_of LOWER_CASE v.now)) }
    ensures fits { IfSome (W.room sink.old)
        (λ c. IsOk result ↔ (length (text_of LOWER_CASE v.now) ≤ c)) }

    // A sink whose `whole` is true, and into which c bytes still fit, keeps the longest prefix of
    // the pieces that fits.
    ensures kept { IsTrue (W.whole sink.old)
        → IfSome (W.room sink.old) (λ c. OnErr result (W.written sink.new ≡ W.written sink.old
        ++ take (kept_length c (cased LOWER_CASE v.now)) (text_of LOWER_CASE v.now))) }

    // Encoding an empty value leaves the three values that describe the sink unchanged.
    ensures empty { v.now ≡ [] → IsOk result }
    ensures empty_written { v.now ≡ [] → W.written sink.new ≡ W.written sink.old }
    ensures empty_room { v.now ≡ [] → W.room sink.new ≡ W.room sink.old }

    // `room` decreases by the number of bytes that were appended, or stays unknown.
    ensures capacity { capacity_of (W.written sink.new) (W.room sink.new)
        ≡ capacity_of (W.written sink.old) (W.room sink.old) }
    ensures same_kind { W.whole sink.new ≡ W.whole sink.old }

    // Each element of `v` is below 256. A caller that reads the encoding back needs to know that.
    ensures are_bytes { AreBytes v.now }
{
    let mut lent = SinkTarget(sink);
    let result = put_words(&mut lent, v, LOWER_CASE);
    // This ends the loan, so that the proof knows the last value of the sink.
    let SinkTarget(_) = lent;
    result
}
