//! Packets, as they are read from bytes.

ghost use Rattle.std.specs.Prelude.{◌≡◌, ◌↔◌, ℕ, [], IfOk, OnErr};
ghost use Rattle.octets.specs.Cursor.{bytes, position, rest};
ghost use Rattle.octets_tool.specs.Packets.{PacketFields, IsPacket, HasTrailing};
ghost use Rattle.octets_tool.specs.Packets.{IsRefusedAt, IsPacketResult, shown};
ghost use Rattle.octets_tool.specs.Packets.{ShortestVarint, IsPacketOf};
ghost use Rattle.octets_tool.specs.Packets.{HasTrailingOf, IsRefusedOf, IsResultOf};
ghost use Rattle.octets_tool.specs.Packets.{IsBody, RefusesBody, IsBodyResult};

use octets::{Octets, VarintError};

/// The fields of a packet.
#[derive(Drop)]
pub struct Packet<'a> {
    /// The kind, which is one byte or a varint.
    pub kind: u64,
    /// The number, which is two bytes in network order.
    pub number: u16,
    /// A cursor over the payload, at its start.
    pub payload: Octets<'a>,
}

/// Why some bytes aren't a packet.
#[derive(Clone, Copy)]
pub enum PacketFault {
    /// A field is incomplete, or the kind is wider than its value needs. The first such field
    /// begins at this offset, where the cursor that read the bytes is.
    Refused(usize),
    /// The bytes are a packet, followed by so many bytes.
    Trailing(usize),
}

/// Reads a packet, which must be the whole input: a kind of one byte, a number of two bytes in
/// network order, and a payload after its length, which is a varint of any width (RFC 9000,
/// section 16).
pub fn read_packet(input: &[u8]) -> Result<Packet<'_>, PacketFault>
    ensures packet { (fields : PacketFields) → (shown result ≡ Ok fields)
        ↔ IsPacket input.now fields [] }
    ensures trailing { (count : ℕ)
        → (shown result ≡ Err (PacketFault.Trailing count)) ↔ HasTrailing input.now count }
    ensures refused { (offset : ℕ)
        → (shown result ≡ Err (PacketFault.Refused offset)) ↔ IsRefusedAt input.now offset }
    ensures start { IfOk result (λ packet. position packet.payload ≡ 0) }
    ensures answer { IsPacketResult input.now (shown result) }
{
    let mut cursor = Octets::with_slice(input);
    match cursor.get_u8() {
        Ok(kind) => read_behind(cursor, u64::from(kind)),
        Err(_) => Err(PacketFault::Refused(0)),
    }
}

/// Reads a packet whose kind is a varint of the least width that holds it. All other fields are
/// those of [`read_packet`]; the length may be a varint of any width. If the kind is incomplete or
/// wider than its value needs, the call fails at the offset 0.
pub fn read_packet2(input: &[u8]) -> Result<Packet<'_>, PacketFault>
    ensures packet { (fields : PacketFields)
        → (shown result ≡ Ok fields) ↔ IsPacketOf ShortestVarint input.now fields [] }
    ensures trailing { (count : ℕ)
        → (shown result ≡ Err (PacketFault.Trailing count))
        ↔ HasTrailingOf ShortestVarint input.now count }
    ensures refused { (offset : ℕ)
        → (shown result ≡ Err (PacketFault.Refused offset))
        ↔ IsRefusedOf ShortestVarint input.now offset }
    ensures start { IfOk result (λ packet. position packet.payload ≡ 0) }
    ensures answer { IsResultOf ShortestVarint input.now (shown result) }
{
    let mut cursor = Octets::with_slice(input);
    match cursor.get_varint_shortest() {
        Ok(kind) => read_behind(cursor, kind),
        Err(VarintError::Short | VarintError::Overlong) => Err(PacketFault::Refused(0)),
    }
}

/// Reads what follows the kind of a packet, up to the end of the input.
fn read_behind(mut cursor: Octets<'_>, kind: u64) -> Result<Packet<'_>, PacketFault>
    ensures answer { IsBodyResult (rest cursor.entry) (position cursor.entry) kind (shown result) }
    ensures start { IfOk result (λ packet. position packet.payload ≡ 0) }
{
    match read_body(&mut cursor, kind) {
        Ok(packet) if cursor.cap() == 0 => Ok(packet),
        Ok(_) => Err(PacketFault::Trailing(cursor.cap())),
        Err(_) => Err(PacketFault::Refused(cursor.off())),
    }
}

/// Reads the number and the payload. If it fails, it leaves the offset before the first incomplete
/// field.
fn read_body<'a>(cursor: &mut Octets<'a>, kind: u64) -> octets::Result<Packet<'a>>
    ensures same_kind { IfOk result (λ packet. packet.kind ≡ kind) }
    ensures body { IfOk result (λ packet.
        IsBody (rest cursor.old) packet.number (bytes packet.payload) (rest cursor.new)) }
    ensures view { IfOk result (λ packet. position packet.payload ≡ 0) }
    ensures refused { OnErr result (RefusesBody cursor.old cursor.new) }
{
    let number = cursor.get_u16()?;
    let payload = cursor.get_bytes_with_varint_length()?;
    Ok(Packet {
        kind,
        number,
        payload,
    })
}
