//! Byte strings of a fixed length, or of a length that is computed.
//!
//! The checker doesn't find that 16 and 16 bytes are 32, so it doesn't prove `passes` of a
//! function that reads the two addresses of an IPv6 header. (docs/CLOSING.md says which sums it
//! finds.) So `read_addresses` has no clause `passes`, and its caller moves the offset past all
//! fields by one call of `skip`.
//!
//! `u32_at` has the form of `view_at`, with `get_u32` in place of `get_bytes`. A reader that gets
//! its fields by such functions, as `read_flow` does, states each field by its position, whatever
//! comes before it. It calls `skip` once, at the end, and an error leaves the cursor unchanged.
ghost use Rattle.std.specs.Prelude.{◌≡◌, ◌↔◌, ◌+◌, ◌-◌, ◌≤◌, ◌++◌, ℕ, List, [], length, IsOk, IsOkAnd, IfOk};
ghost use Rattle.std.specs.Prelude.{OnOk, OnErr};
ghost use Rattle.octets.specs.Bytes.{number, part};
ghost use Rattle.octets.specs.Cursor.{bytes, position, rest, IsUnchanged, Passes};

use octets::{BufferTooShortError, Octets, Result};

/// Reads the two addresses of an IPv6 header.
fn read_addresses<'a>(cursor: &mut Octets<'a>) -> Result<(Octets<'a>, Octets<'a>)>
    ensures fits { IsOk result ↔ (32 ≤ length (rest cursor.old)) }
    ensures source { IfOk result (λ a. bytes a.0 ≡ part (rest cursor.old) 0 16) }
    ensures destination { IfOk result (λ a. bytes a.1 ≡ part (rest cursor.old) 16 16) }
    ensures starts { IfOk result (λ a. (position a.0 ≡ 0) × (position a.1 ≡ 0)) }
{
    Ok((cursor.get_bytes(16)?, cursor.get_bytes(16)?))
}

/// Does the same, and says where the cursor is afterwards.
pub fn addresses<'a>(cursor: &mut Octets<'a>) -> Result<(Octets<'a>, Octets<'a>)>
    ensures fits { IsOk result ↔ (32 ≤ length (rest cursor.old)) }
    ensures source { IfOk result (λ a. bytes a.0 ≡ part (rest cursor.old) 0 16) }
    ensures destination { IfOk result (λ a. bytes a.1 ≡ part (rest cursor.old) 16 16) }
    ensures starts { IfOk result (λ a. (position a.0 ≡ 0) × (position a.1 ≡ 0)) }
    ensures passes { OnOk result (Passes cursor.old cursor.new 32) }
    ensures unchanged { OnErr result (IsUnchanged cursor.old cursor.new) }
{
    let mut ahead = cursor.peek_bytes(cursor.cap())?;
    let both = read_addresses(&mut ahead)?;
    cursor.skip(32)?;
    Ok(both)
}

// A field of a fixed length can also be the last one, after a payload that has no length of its
// own. An authentication tag is such a field. Compute the length of the payload by `checked_sub`,
// and name the set `written` for the clause `every`.

/// A payload and its tag.
#[derive(Drop)]
pub struct Sealed<'a> {
    pub payload: Octets<'a>,
    pub tag: Octets<'a>,
}

/// Reads all bytes that remain: a payload, and a tag of 16 bytes.
#[tactic(auto, using(octets::proofs::CallerLemmas::written))]
pub fn read_sealed<'a>(cursor: &mut Octets<'a>) -> Result<Sealed<'a>>
    ensures fits { IsOk result ↔ (16 ≤ length (rest cursor.old)) }
    ensures payload { IfOk result (λ s. bytes s.payload
        ≡ part (rest cursor.old) 0 (length (rest cursor.old) - 16)) }
    ensures tag { IfOk result (λ s. bytes s.tag
        ≡ part (rest cursor.old) (length (rest cursor.old) - 16) 16) }
    ensures starts { IfOk result (λ s. (position s.payload ≡ 0) × (position s.tag ≡ 0)) }
    ensures every { (payload tag : List ℕ) → length tag ≡ 16 → rest cursor.old ≡ payload ++ tag
        → IsOkAnd result (λ s. (bytes s.payload ≡ payload) × (bytes s.tag ≡ tag)) }
    ensures end { OnOk result (rest cursor.new ≡ []) }
    ensures unchanged { OnErr result (IsUnchanged cursor.old cursor.new) }
{
    let Some(len) = cursor.cap().checked_sub(16) else {
        return Err(BufferTooShortError);
    };
    let payload = cursor.get_bytes(len)?;
    let tag = cursor.get_bytes(16)?;
    Ok(Sealed { payload, tag })
}

// If the last byte says how many bytes of padding there are, as in RTP, read this byte from a view
// of all bytes that remain. At the end, pass what remains by `skip(cursor.cap())`. Don't write
// `skip(padding)`: the checker doesn't find that `padding` bytes still remain.

/// Reads all bytes that remain: a payload, and padding after it. The last byte says how many bytes
/// the padding has, and is one of them.
pub fn read_before_padding<'a>(cursor: &mut Octets<'a>) -> Result<Octets<'a>>
    ensures fits { IsOk result ↔ ((1 ≤ length (rest cursor.old))
        × (1 ≤ number (part (rest cursor.old) (length (rest cursor.old) - 1) 1))
        × (number (part (rest cursor.old) (length (rest cursor.old) - 1) 1)
        ≤ length (rest cursor.old))) }
    ensures payload { IfOk result (λ p. bytes p ≡ part (rest cursor.old) 0
        (length (rest cursor.old)
        - number (part (rest cursor.old) (length (rest cursor.old) - 1) 1))) }
    ensures start { IfOk result (λ p. position p ≡ 0) }
    ensures end { OnOk result (rest cursor.new ≡ []) }
    ensures unchanged { OnErr result (IsUnchanged cursor.old cursor.new) }
{
    let Some(before) = cursor.cap().checked_sub(1) else {
        return Err(BufferTooShortError);
    };
    let mut ahead = cursor.peek_bytes(cursor.cap())?;
    ahead.skip(before)?;
    let padding = usize::from(ahead.get_u8()?);
    if padding == 0 || cursor.cap() < padding {
        return Err(BufferTooShortError);
    }
    let payload = cursor.get_bytes(cursor.cap() - padding)?;
    cursor.skip(cursor.cap())?;
    Ok(payload)
}

// A function may also read a field at any position, and leave the cursor where it is. The skip and
// the read are in a function of their own, because the search finds no proof if the function that
// calls `peek_bytes` also skips bytes of the view and reads a run from it.

/// Skips `at` bytes, and reads a view of `len` bytes.
fn take_view<'a>(cursor: &mut Octets<'a>, at: usize, len: usize) -> Result<Octets<'a>>
    ensures fits { IsOk result ↔ (at + len ≤ length (rest cursor.old)) }
    ensures view { IfOk result (λ v. bytes v ≡ part (rest cursor.old) at len) }
    ensures start { IfOk result (λ v. position v ≡ 0) }
{
    cursor.skip(at)?;
    cursor.get_bytes(len)
}

/// Returns a view of the `len` bytes from position `at` on.
pub fn view_at<'a>(cursor: &Octets<'a>, at: usize, len: usize) -> Result<Octets<'a>>
    ensures fits { IsOk result ↔ (at + len ≤ length (rest cursor.now)) }
    ensures view { IfOk result (λ v. bytes v ≡ part (rest cursor.now) at len) }
    ensures start { IfOk result (λ v. position v ≡ 0) }
{
    let mut ahead = cursor.peek_bytes(cursor.cap())?;
    take_view(&mut ahead, at, len)
}

/// Skips `at` bytes, and reads a number of four bytes.
fn take_u32(cursor: &mut Octets<'_>, at: usize) -> Result<u32>
    ensures fits { IsOk result ↔ (at + 4 ≤ length (rest cursor.old)) }
    ensures value { IfOk result (λ n. n ≡ number (part (rest cursor.old) at 4)) }
{
    cursor.skip(at)?;
    cursor.get_u32()
}

/// Returns the number of four bytes at position `at`.
pub fn u32_at(cursor: &Octets<'_>, at: usize) -> Result<u32>
    ensures fits { IsOk result ↔ (at + 4 ≤ length (rest cursor.now)) }
    ensures value { IfOk result (λ n. n ≡ number (part (rest cursor.now) at 4)) }
{
    let mut ahead = cursor.peek_bytes(cursor.cap())?;
    take_u32(&mut ahead, at)
}

/// Some fields of a flow record of NetFlow version 5.
#[derive(Clone, Copy, Debug, PartialEq, Eq)]
pub struct Flow {
    pub source: u32,
    pub destination: u32,
    pub packets: u32,
    pub octets: u32,
}

/// Reads a flow record, which has 48 bytes, and returns four of its fields.
pub fn read_flow(cursor: &mut Octets<'_>) -> Result<Flow>
    ensures fits { IsOk result ↔ (48 ≤ length (rest cursor.old)) }
    ensures source { IfOk result (λ f. f.source ≡ number (part (rest cursor.old) 0 4)) }
    ensures destination { IfOk result (λ f. f.destination ≡ number (part (rest cursor.old) 4 4)) }
    ensures packets { IfOk result (λ f. f.packets ≡ number (part (rest cursor.old) 16 4)) }
    ensures octets { IfOk result (λ f. f.octets ≡ number (part (rest cursor.old) 20 4)) }
    ensures passes { OnOk result (Passes cursor.old cursor.new 48) }
    ensures unchanged { OnErr result (IsUnchanged cursor.old cursor.new) }
{
    let source = u32_at(cursor, 0)?;
    let destination = u32_at(cursor, 4)?;
    let packets = u32_at(cursor, 16)?;
    let octets = u32_at(cursor, 20)?;
    cursor.skip(48)?;
    Ok(Flow {
        source,
        destination,
        packets,
        octets,
    })
}
