//! The header of a TCP segment without options (RFC 9293, section 3.1), which is eight numbers of
//! two and of four bytes. And an option with any number of items, which are read into a vector.
ghost use Rattle.std.specs.Prelude.{◌≡◌, ◌↔◌, ◌+◌, ◌*◌, ◌<◌, ◌≤◌, ◌++◌};
ghost use Rattle.std.specs.Prelude.{length, flat_map, IsOk, IfOk, OnOk, OnErr};
ghost use Rattle.octets.specs.Bytes.{network};
ghost use Rattle.octets.specs.Decodes.{OnMemory, OnShort};
ghost use Rattle.octets.specs.Cursor.{rest, IsUnchanged, Passes, Reads, position, Writes};
ghost use Rattle.octets_lists.specs.TcpHeaders.{tcp_header, IsHeaderAt};

use octets::{Buffer, BufferTooShortError, Cursor, DecodeError, Octets, Result};
use std::alloc::Global;

/// The fields of a header, in the order in which they are written.
#[derive(Clone, Copy, Debug, PartialEq, Eq)]
pub struct TcpHeader {
    /// The port of the sender.
    pub source: u16,
    /// The port of the receiver.
    pub destination: u16,
    /// The number of the first byte of data, or of SYN if that flag is set.
    pub sequence: u32,
    /// If ACK is set, the number of the byte that the sender expects next.
    pub acknowledgment: u32,
    /// Four bits of data offset, which is 5 if no options follow, four reserved bits, and eight
    /// flags.
    pub offset_and_flags: u16,
    /// How many bytes the sender is ready to receive, from the one that it expects next.
    pub window: u16,
    /// The checksum over the addresses and the whole segment.
    pub checksum: u16,
    /// If URG is set, how far after the sequence number the urgent bytes end.
    pub urgent: u16,
}

/// Writes a header.
///
/// It fails if fewer than 20 bytes remain, and then writes nothing.
#[tactic(auto, using(octets::proofs::CallerLemmas::rows))]
pub fn write_tcp_header<B: Buffer>(cursor: &mut Cursor<B>, header: TcpHeader) -> Result<()>
    ensures fits { IsOk result ↔ (20 ≤ length (rest cursor.old)) }
    ensures writes { IfOk result (λ _. Writes cursor.old cursor.new (tcp_header header)) }
    ensures past { IfOk result (λ _. position cursor.new ≡ position cursor.old + 20) }
    ensures unchanged { OnErr result (IsUnchanged cursor.old cursor.new) }
{
    if cursor.cap() < 20 {
        return Err(BufferTooShortError);
    }
    cursor.write_u16(header.source)?;
    cursor.write_u16(header.destination)?;
    cursor.write_u32(header.sequence)?;
    cursor.write_u32(header.acknowledgment)?;
    cursor.write_u16(header.offset_and_flags)?;
    cursor.write_u16(header.window)?;
    cursor.write_u16(header.checksum)?;
    cursor.write_u16(header.urgent)?;
    Ok(())
}

/// Reads a header. If the data offset is above 5, options follow, which aren't read.
///
/// If fewer than 20 bytes remain, it fails and leaves the offset where it was.
pub fn read_tcp_header(cursor: &mut Octets<'_>) -> Result<TcpHeader>
    ensures fits { IsOk result ↔ (20 ≤ length (rest cursor.old)) }
    ensures fields { IfOk result (IsHeaderAt (rest cursor.old)) }
    ensures passes { OnOk result (Passes cursor.old cursor.new 20) }

    // The bytes that were read are exactly those that are written for this header.
    ensures spelled { IfOk result
        (λ h. rest cursor.old ≡ tcp_header h ++ rest cursor.new) }
    ensures unchanged { OnErr result (IsUnchanged cursor.old cursor.new) }
{
    if cursor.cap() < 20 {
        return Err(BufferTooShortError);
    }
    let source = cursor.get_u16()?;
    let destination = cursor.get_u16()?;
    let sequence = cursor.get_u32()?;
    let acknowledgment = cursor.get_u32()?;
    let offset_and_flags = cursor.get_u16()?;
    let window = cursor.get_u16()?;
    let checksum = cursor.get_u16()?;
    let urgent = cursor.get_u16()?;
    Ok(TcpHeader {
        source,
        destination,
        sequence,
        acknowledgment,
        offset_and_flags,
        window,
        checksum,
        urgent,
    })
}

/// Reads `n` edges of received blocks from the option SACK, after its kind and its length (RFC
/// 2018, section 3). Each edge is a sequence number.
///
/// It fails with [`DecodeError::Short`] if fewer than `4 * n` bytes remain. Otherwise it allocates
/// the list, and fails with [`DecodeError::Memory`] if that fails. After an error nothing was read.
#[tactic(auto, using(octets::proofs::CallerLemmas::reads_none, crate::proofs::Passing::reads_item))]
pub fn read_edges(
    alloc: Global,
    cursor: &mut Octets<'_>,
    n: usize,
) -> std::result::Result<Vec<u32>, DecodeError>
    // The bytes that were read are exactly those of the edges.
    ensures spelled { IfOk result (λ edges. Reads cursor.old cursor.new
        (flat_map (λ edge. network 4 edge) edges.items)) }
    ensures count { IfOk result (λ edges. length edges.items ≡ n) }
    ensures there { IfOk result (λ _. 4 * n ≤ length (rest cursor.old)) }
    ensures short { OnShort result (length (rest cursor.old) < 4 * n) }
    ensures memory { OnMemory result ((0 < n) × (4 * n ≤ length (rest cursor.old))) }
    ensures unchanged { OnErr result (IsUnchanged cursor.old cursor.new) }
{
    if cursor.cap() / 4 < n {
        return Err(DecodeError::Short(BufferTooShortError));
    }
    let mut edges = Vec::with_capacity(alloc, n)?;
    'edges: while edges.len() < n {
        let edge = cursor.get_u32()?;
        edges.push_reserved(edge);
    }
    Ok(edges)
}
