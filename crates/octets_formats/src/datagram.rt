//! A QUIC datagram that is written into a buffer and read back.
ghost use Rattle.std.specs.Prelude.{◌≡◌, ◌↔◌, ◌+◌, ◌^◌, ◌<◌, ◌≤◌, ◌++◌, ℕ, List};
ghost use Rattle.std.specs.Prelude.{length, drop, take, IsOk, IsOkAnd, IfOk, OnErr};
ghost use Rattle.octets.specs.Bytes.{network, number, part};
ghost use Rattle.octets.specs.Cursor.{bytes, position, rest, IsUnchanged, Passes, Writes};
ghost use Rattle.octets.specs.Varints.{BeginsVarint, HasNoVarint, shortest};
ghost use Rattle.octets_formats.specs.Varints.{least};

use octets::{Buffer, BufferTooShortError, Cursor, Octets, OctetsMut, Result, varint_len};

/// A DATAGRAM frame with a length field (RFC 9221, section 4).
#[derive(Debug, Drop, PartialEq, Eq)]
pub struct Datagram<'a> {
    /// The type of the frame: 0x31 for this frame. A type below 64 has one byte.
    pub kind: u8,
    /// A cursor over the data. In the frame they follow their length, which is a varint.
    pub payload: Octets<'a>,
}

/// Writes a frame: its type, which must be below 64, the length of its data in the least width, and
/// the data, which must have fewer than 2 to the power 62 bytes.
///
/// It fails if the frame doesn't fit, and then writes nothing.
pub fn write_datagram<B: Buffer>(cursor: &mut Cursor<B>, kind: u8, payload: &[u8]) -> Result<()>
    requires kind { kind < 64 }
    requires few { length payload.now < 2 ^ 62 }
    ensures fits { IsOk result ↔ (1 + shortest (length payload.now) + length payload.now
        ≤ length (rest cursor.old)) }
    ensures writes { IfOk result (λ _. Writes cursor.old cursor.new
        (network 1 kind ++ least (length payload.now) ++ payload.now)) }
    ensures past { IfOk result (λ _. position cursor.new
        ≡ position cursor.old + (1 + shortest (length payload.now) + length payload.now)) }
    ensures unchanged { OnErr result (IsUnchanged cursor.old cursor.new) }
{
    let len = payload.len() as u64;
    if cursor.cap() < 1 + varint_len(len) + payload.len() {
        return Err(BufferTooShortError);
    }
    cursor.write_u8(kind)?;
    cursor.write_varint(len)?;
    cursor.put_bytes(payload)
}

/// Reads a frame, and moves the offset past it. The length of the data may be a varint of any
/// width.
///
/// If it fails, it leaves the offset before the first incomplete field: the type, the length or the
/// data.
pub fn read_datagram<'a>(cursor: &mut Octets<'a>) -> Result<Datagram<'a>>
    ensures reads { IfOk result (λ d. (d.kind ≡ number (take 1 (rest cursor.old)))
        × ((w : ℕ) × BeginsVarint (drop 1 (rest cursor.old)) w (length (bytes d.payload))
        × (bytes d.payload ≡ part (drop 1 (rest cursor.old)) w (length (bytes d.payload)))
        × Passes cursor.old cursor.new (1 + (w + length (bytes d.payload))))) }
    ensures start { IfOk result (λ d. position d.payload ≡ 0) }

    // A frame at the offset is read as this frame. What is written for a frame is read as the
    // frame, whether or not other bytes follow.
    ensures every { (w n : ℕ) → BeginsVarint (drop 1 (rest cursor.old)) w n
        → w + n ≤ length (drop 1 (rest cursor.old))
        → IsOkAnd result (λ d. (d.kind ≡ number (take 1 (rest cursor.old)))
        × (bytes d.payload ≡ part (drop 1 (rest cursor.old)) w n))
        × Passes cursor.old cursor.new (1 + (w + n)) }
    ensures written { (kind : ℕ) (payload after : List ℕ) → kind < 64 → length payload < 2 ^ 62
        → rest cursor.old ≡ network 1 kind ++ least (length payload) ++ payload ++ after
        → IsOkAnd result (λ d. (d.kind ≡ kind) × (bytes d.payload ≡ payload))
        × (rest cursor.new ≡ after) }
    ensures written_last { (kind : ℕ) (payload : List ℕ) → kind < 64 → length payload < 2 ^ 62
        → rest cursor.old ≡ network 1 kind ++ least (length payload) ++ payload
        → IsOkAnd result (λ d. (d.kind ≡ kind) × (bytes d.payload ≡ payload)) }

    // Where the offset is after an error.
    ensures no_kind { length (rest cursor.old) < 1 → IsUnchanged cursor.old cursor.new }
    ensures no_length { 1 ≤ length (rest cursor.old) → HasNoVarint (drop 1 (rest cursor.old))
        → Passes cursor.old cursor.new 1 }
    ensures no_data { (w n : ℕ) → BeginsVarint (drop 1 (rest cursor.old)) w n
        → length (drop 1 (rest cursor.old)) < w + n → Passes cursor.old cursor.new (1 + w) }
{
    let kind = cursor.get_u8()?;
    let payload = cursor.get_bytes_with_varint_length()?;
    Ok(Datagram { kind, payload })
}

/// Writes a frame at the start of `buffer`, and returns its length.
fn write_at_start(buffer: &mut [u8], kind: u8, payload: &[u8]) -> Result<usize>
    requires kind { kind < 64 }
    requires few { length payload.now < 2 ^ 62 }
    ensures fits { IsOk result
        ↔ (1 + shortest (length payload.now) + length payload.now ≤ length buffer.old) }
    ensures count { IfOk result
        (λ n. n ≡ 1 + shortest (length payload.now) + length payload.now) }
    ensures written { IfOk result (λ n. buffer.new
        ≡ (network 1 kind ++ least (length payload.now) ++ payload.now) ++ drop n buffer.old) }
    ensures unchanged { OnErr result (buffer.new ≡ buffer.old) }
{
    let mut writer = OctetsMut::with_slice(buffer);
    write_datagram(&mut writer, kind, payload)?;
    Ok(writer.off())
}

/// Writes a frame at the start of `buffer`, as [`write_datagram`] does, and reads back what was
/// written.
///
/// It fails if the frame doesn't fit, and then writes nothing.
pub fn write_and_read<'a>(buffer: &'a mut [u8], kind: u8, payload: &[u8]) -> Result<Datagram<'a>>
    requires kind { kind < 64 }
    requires few { length payload.now < 2 ^ 62 }
    ensures fits { IsOk result
        ↔ (1 + shortest (length payload.now) + length payload.now ≤ length buffer.old) }
    ensures kind { IfOk result (λ d. d.kind ≡ kind) }
    ensures payload { IfOk result (λ d. bytes d.payload ≡ payload.now) }
    ensures start { IfOk result (λ d. position d.payload ≡ 0) }
{
    let end = write_at_start(buffer, kind, payload)?;
    read_datagram(&mut Octets::with_slice(&buffer[..end]))
}
