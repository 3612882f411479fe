//! The simple encoder, which gives the sink one byte in each call. It is public for the edits that
//! the checker must reject. Tests compare the fast encoder with it.
ghost use Rattle.std.specs.Prelude.{◌≡◌, ◌≤◌, ◌↔◌, ◌++◌, [], length, take, replicate};
ghost use Rattle.std.specs.Prelude.{IsTrue, IsOk, OnOk, OnErr, IfSome};
ghost use Rattle.octets.specs.Encodes.{cased_byte, text_of};
ghost use Rattle.octets.specs.Sinks.{AppendsFront, capacity_of};
ghost use Rattle.octets.specs.Capacities.{Appends};
ghost use Rattle.octets.specs.Pieces.{EndsGiving};

mod waiting;

use octets::OctetsWriter;
use waiting::Waiting;

/// Returns `byte`, or its lower case if `to_lower` is true.
#[tactic(auto, using(crate::proofs::PlainSteps::lowercase_is_lower))]
fn cased_byte(byte: u8, to_lower: bool) -> u8
    ensures { result ≡ cased_byte to_lower byte }
{
    if to_lower {
        byte.to_ascii_lowercase()
    } else {
        byte
    }
}

/// Appends the Huffman encoding of `v` to `sink`, in lower case if `to_lower` is true.
fn put_text<W: OctetsWriter>(sink: &mut W, v: &[u8], to_lower: bool) -> Result<(), W::Error>
    ensures gives { EndsGiving (Appends W.written W.room W.whole)
        W.room W.whole sink.old sink.new result
        (text_of to_lower v.now) (replicate (length (text_of to_lower v.now)) 1) }
    ensures empty { v.now ≡ [] → IsOk result }
{
    let mut waiting = Waiting::new();
    for byte in v {
        waiting.push(cased_byte(*byte, to_lower));
        while let Some(whole) = waiting.take_byte() {
            sink.put_bytes(&[whole])?;
        }
    }
    if !waiting.is_empty() {
        sink.put_bytes(&[waiting.last_byte()])?;
    }
    Ok(())
}

/// Appends the Huffman encoding of `v` to `sink`, in lower case if `LOWER_CASE` is true, one byte
/// in each call (RFC 7541, section 5.2).
///
/// It writes the same bytes as [`octets::put_huffman_encoded`]. If it fails, it has written as many
/// bytes as fit, while that call has written only complete pieces.
pub fn put_huffman_plain<const LOWER_CASE: bool, W: OctetsWriter>(
    sink: &mut W,
    v: &[u8],
) -> Result<(), W::Error>
    ensures ok { OnOk result (W.written sink.new ≡ W.written sink.old ++ text_of LOWER_CASE v.now) }
    ensures err { OnErr result
        (AppendsFront (W.written sink.old) (W.written sink.new) (text_of LOWER_CASE v.now)) }
    ensures fits { IfSome (W.room sink.old)
        (λ c. IsOk result ↔ (length (text_of LOWER_CASE v.now) ≤ c)) }
    ensures kept { IsTrue (W.whole sink.old) → IfSome (W.room sink.old) (λ c. OnErr result
        (W.written sink.new ≡ W.written sink.old ++ take c (text_of LOWER_CASE v.now))) }
    ensures empty { v.now ≡ [] → IsOk result }
    ensures capacity { capacity_of (W.written sink.new) (W.room sink.new)
        ≡ capacity_of (W.written sink.old) (W.room sink.old) }
    ensures same_kind { W.whole sink.new ≡ W.whole sink.old }
{
    put_text(sink, v, LOWER_CASE)
}
