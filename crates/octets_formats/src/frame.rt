//! HTTP/3 frames (RFC 9114, section 7.1): a type, a length, and as many bytes of payload.
ghost use Rattle.std.specs.Prelude.{◌≡◌, ◌↔◌, ◌+◌, ◌^◌, ◌≤◌, ◌<◌, ◌++◌, ℕ};
ghost use Rattle.std.specs.Prelude.{List, length, IsOk, IsOkAnd, IfOk, IfSome, OnOk, OnErr};
ghost use Rattle.octets.specs.Cursor.{bytes, position, rest, Advances, IsUnchanged, Passes, Writes};
ghost use Rattle.octets.specs.Sinks.{AppendsFront, capacity_of};
ghost use Rattle.octets.specs.Varints.{shortest};
ghost use Rattle.octets_formats.specs.Frames.{frame, BeginsFrame, IsRefusedAt};

use octets::{
    Buffer, BufferTooShortError, Cursor, Octets, OctetsWriter, Result, varint_len,
    write_bytes_with_varint_length, write_varint,
};

/// A frame.
#[derive(Debug, Drop, PartialEq, Eq)]
pub struct Frame<'a> {
    /// The type of the frame, which is a varint in its bytes.
    pub kind: u64,
    /// A cursor over the payload, at its start.
    pub payload: Octets<'a>,
}

/// Reads a frame, whose type and length may be varints of any width.
///
/// If it fails, it leaves the offset before the first incomplete field: the type, the length or the
/// payload.
pub fn read_frame<'a>(cursor: &mut Octets<'a>) -> Result<Frame<'a>>
    ensures frame { IfOk result (λ frame. (n : ℕ)
        × BeginsFrame (rest cursor.old) frame.kind (bytes frame.payload) n
        × Passes cursor.old cursor.new n) }
    ensures view { IfOk result (λ frame. position frame.payload ≡ 0) }

    // A frame at the offset is read as this frame, and the offset moves past exactly this frame.
    ensures every { (kind n : ℕ) (payload : List ℕ)
        → BeginsFrame (rest cursor.old) kind payload n
        → IsOkAnd result (λ frame. (frame.kind ≡ kind) × (bytes frame.payload ≡ payload))
        × Passes cursor.old cursor.new n }

    // What is written for a frame is read as the frame, whatever follows.
    ensures written { (kind : ℕ) (payload after : List ℕ) → kind < 2 ^ 62 → length payload < 2 ^ 62
        → rest cursor.old ≡ frame kind payload ++ after
        → IsOkAnd result (λ frame. (frame.kind ≡ kind) × (bytes frame.payload ≡ payload))
        × (rest cursor.new ≡ after) }
    ensures refused { OnErr result ((n : ℕ)
        × IsRefusedAt (rest cursor.old) n × Passes cursor.old cursor.new n) }
    ensures advances { Advances cursor.old cursor.new }
{
    let kind = cursor.get_varint()?;
    let payload = cursor.get_bytes_with_varint_length()?;
    Ok(Frame { kind, payload })
}

/// Reads a frame as [`read_frame`] does, but leaves the offset where it was if it fails: of a
/// stream more bytes may still arrive.
pub fn next_frame<'a>(cursor: &mut Octets<'a>) -> Result<Frame<'a>>
    ensures frame { IfOk result (λ frame. (n : ℕ)
        × BeginsFrame (rest cursor.old) frame.kind (bytes frame.payload) n
        × Passes cursor.old cursor.new n) }
    ensures view { IfOk result (λ frame. position frame.payload ≡ 0) }
    ensures every { (kind n : ℕ) (payload : List ℕ)
        → BeginsFrame (rest cursor.old) kind payload n
        → IsOkAnd result (λ frame. (frame.kind ≡ kind) × (bytes frame.payload ≡ payload)) }

    // After an error there is no complete frame at the offset, and the cursor is unchanged.
    ensures refused { OnErr result ((n : ℕ) × IsRefusedAt (rest cursor.old) n) }
    ensures unmoved { OnErr result (IsUnchanged cursor.old cursor.new) }
{
    let start = cursor.off();
    let frame = read_frame(cursor);
    if frame.is_err() {
        cursor.rewind(cursor.off() - start)?;
    }
    frame
}

/// Writes a frame, with its type and its length in the least width. If it doesn't fit, it fails and
/// writes nothing. The type and the length of the payload must be below 2 to the power 62.
pub fn put_frame<B: Buffer>(cursor: &mut Cursor<B>, kind: u64, payload: &[u8]) -> Result<()>
    requires kind { kind < 2 ^ 62 }
    requires small { length payload.now < 2 ^ 62 }
    ensures fits { IsOk result ↔ (shortest kind + shortest (length payload.now)
        + length payload.now ≤ length (rest cursor.old)) }
    ensures writes { IfOk result (λ _. Writes cursor.old cursor.new (frame kind payload.now)) }
    ensures unchanged { OnErr result (IsUnchanged cursor.old cursor.new) }
{
    let len = payload.len() as u64;
    if cursor.cap() < varint_len(kind) + varint_len(len) + payload.len() {
        return Err(BufferTooShortError);
    }
    cursor.write_varint(kind)?;
    cursor.write_varint(len)?;
    cursor.put_bytes(payload)
}

/// Appends a frame to any sink, with its type and its length in the least width. The type and the
/// length of the payload must be below 2 to the power 62.
///
/// The call stops at the first call on the sink that fails, and what was appended before stays
/// appended.
#[tactic(auto, using(octets::proofs::CallerLemmas::sinks, octets::proofs::CallerLemmas::length_varint))]
pub fn append_frame<W: OctetsWriter>(
    sink: &mut W,
    kind: u64,
    payload: &[u8],
) -> std::result::Result<(), W::Error>
    requires kind { kind < 2 ^ 62 }
    requires small { length payload.now < 2 ^ 62 }
    ensures ok { OnOk result
        (W.written sink.new ≡ W.written sink.old ++ frame kind payload.now) }
    ensures err { OnErr result
        (AppendsFront (W.written sink.old) (W.written sink.new) (frame kind payload.now)) }
    ensures fits { IfSome (W.room sink.old) (λ c. IsOk result ↔ (shortest kind
        + shortest (length payload.now) + length payload.now ≤ c)) }
    ensures capacity { capacity_of (W.written sink.new) (W.room sink.new)
        ≡ capacity_of (W.written sink.old) (W.room sink.old) }
    ensures same_kind { W.whole sink.new ≡ W.whole sink.old }
{
    write_varint(sink, kind)?;
    write_bytes_with_varint_length(sink, payload)
}
