//! A UDP header (RFC 768): two ports, a length and a checksum, of two bytes each.
ghost use Rattle.std.specs.Prelude.{◌≡◌, ◌↔◌, ◌+◌, ◌≤◌, ◌<◌, ◌^◌, ◌++◌, ℕ, List};
ghost use Rattle.std.specs.Prelude.{length, IsOk, IsOkAnd, IfOk, OnOk, OnErr};
ghost use Rattle.octets.specs.Bytes.{network, number, part};
ghost use Rattle.octets.specs.Cursor.{rest, IsUnchanged, Passes, position, Keeps, Writes};

use octets::{BufferTooShortError, Octets, OctetsMut, Result};

/// Reads a header, and returns the ports of the source and of the destination.
///
/// It fails if fewer than 8 bytes remain. It then leaves the offset before the first incomplete
/// field: a port, or what follows both ports.
#[tactic(auto, using(octets::proofs::CallerLemmas::read_back))]
pub fn read_ports(cursor: &mut Octets<'_>) -> Result<(u16, u16)>
    ensures fits { IsOk result ↔ (8 ≤ length (rest cursor.old)) }
    ensures source { IfOk result (λ ports. ports.0 ≡ number (part (rest cursor.old) 0 2)) }
    ensures destination { IfOk result (λ ports. ports.1 ≡ number (part (rest cursor.old) 2 2)) }
    ensures passes { OnOk result (Passes cursor.old cursor.new 8) }

    // A header at the offset is read as this header.
    ensures every { (source destination len sum : ℕ) (after : List ℕ)
        → source < 2 ^ 16 → destination < 2 ^ 16
        → rest cursor.old
        ≡ network 2 source ++ network 2 destination ++ network 2 len ++ network 2 sum ++ after
        → IsOkAnd result (λ ports. (ports.0 ≡ source) × (ports.1 ≡ destination))
        × (rest cursor.new ≡ after) }

    // Where the offset is after an error.
    ensures no_source { length (rest cursor.old) < 2 → IsUnchanged cursor.old cursor.new }
    ensures no_destination { 2 ≤ length (rest cursor.old) → length (rest cursor.old) < 4
        → Passes cursor.old cursor.new 2 }
    ensures no_length { 4 ≤ length (rest cursor.old) → length (rest cursor.old) < 8
        → Passes cursor.old cursor.new 4 }
{
    let source = cursor.get_u16()?;
    let destination = cursor.get_u16()?;
    cursor.skip(4)?;
    Ok((source, destination))
}

/// Writes a header without a checksum.
///
/// It fails if fewer than 8 bytes remain, and then writes nothing.
#[tactic(auto, using(octets::proofs::CallerLemmas::keeps))]
pub fn write_header(
    cursor: &mut OctetsMut<'_>,
    source: u16,
    destination: u16,
    len: u16,
) -> Result<()>
    ensures fits { IsOk result ↔ (8 ≤ length (rest cursor.old)) }
    ensures writes { IfOk result (λ _. Writes cursor.old cursor.new
        (network 2 source ++ network 2 destination ++ network 2 len ++ network 2 0)) }
    ensures past { IfOk result (λ _. position cursor.new ≡ position cursor.old + 8) }
    ensures unchanged { OnErr result (IsUnchanged cursor.old cursor.new) }
    ensures keeps { Keeps cursor.old cursor.new }
{
    if cursor.cap() < 8 {
        return Err(BufferTooShortError);
    }
    cursor.write_u16(source)?;
    cursor.write_u16(destination)?;
    cursor.write_u16(len)?;
    cursor.write_u16(0)
}
