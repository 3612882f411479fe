//! A run with padding to a multiple of four bytes.
//!
//! In STUN (RFC 5389, section 15) and in XDR (RFC 4506, section 4.10), up to three bytes of
//! padding follow a run. The length before the run doesn't count the padding. `network k 0` is
//! a list of k zero bytes. Only `pass_padding` and `write_padding` expand the definitions.
//! `read_padded` gets the length of the view v by `v.len()`: with `v.cap()` its clause `fits`
//! would be unproved.
//!
//! The bytes in the clause `writes` of `write_padded` are those that come before `after` in the
//! clause `every` of the readers. So the readers read what the writer wrote. They also accept
//! padding of other bytes, as RFC 5389 demands: the clause `fits` says so, because it depends
//! only on lengths.
//!
//! These forms are also proved:
//!
//! - A STUN attribute. Its reader calls `get_u16` and then `read_padded`. Its `every` has
//!   `network 2 kind ++` before the length, and it names the set `parts`.
//! - A length of four bytes, as in XDR. The reader has the lines
//!   `let len = cursor.get_u32()? as usize;`, `let v = cursor.get_bytes(len)?;` and
//!   `pass_padding(cursor, len)?;`. Its clauses are those of `read_padded`, with 4 for 2 and
//!   `2 ^ 32` for `2 ^ 16`, and it names the set `parts`.
//! - Padding that has to be zero bytes. Write a function `zero(n: u32)` with the clause
//!   `IsOk result ↔ (n ≡ 0)`. The body of `pass_padding` is then `match len % 4`, with the arms
//!   `1 => zero(cursor.get_u24()?)`, `2 => zero(u32::from(cursor.get_u16()?))`,
//!   `3 => zero(u32::from(cursor.get_u8()?))` and `_ => Ok(())`. The function `pass_padding`
//!   names the set `parts`. Two clauses change. `fits` of `pass_padding` gets a second
//!   condition, by `×`: `number (part l 0 (padding_len len)) ≡ 0`, where l is
//!   `rest cursor.old`. `fits` of `read_padded` gets the condition
//!   `number (part l (2 + n) (padding_len n)) ≡ 0`, where n is `number (part l 0 2)`.
//! - A function that writes a run and reads it back. It calls `write_padded` with an
//!   `OctetsMut` over its parameter `buffer`, and then `read_padded` with
//!   `Octets::with_slice(&buffer[..end])`, where `end` is the offset after the write. Its
//!   clause `bytes r ≡ v.now` needs the set `read_back`.
//! - A run whose length is the parameter `len`. Name the set `written`. In `every`, write `len
//!   ≡ length v → rest cursor.old ≡ v ++ padding_bytes (length v) ++ after`.
ghost use Rattle.std.specs.Prelude.{◌≡◌, ◌↔◌, ◌+◌, ◌≤◌, ◌<◌, ◌^◌, ◌++◌, ℕ, List, length, IsOk, IsOkAnd, IfOk};
ghost use Rattle.std.specs.Prelude.{OnOk, OnErr};
ghost use Rattle.octets.specs.Bytes.{network, part};
ghost use Rattle.octets.specs.Cursor.{bytes, position, rest, IsUnchanged, Passes, Writes};
ghost use Rattle.octets_fields.specs.Padded.{padding_len, padding_bytes, said, padded_len, padded};

use octets::{Octets, OctetsMut, Result};

/// Passes the padding after `len` bytes.
#[tactic(auto, using(octets::proofs::CallerLemmas::read_back), unfolding(crate::specs::Padded::padding_len, crate::specs::Padded::padding_bytes))]
fn pass_padding(cursor: &mut Octets<'_>, len: usize) -> Result<()>
    ensures fits { IsOk result ↔ (padding_len len ≤ length (rest cursor.old)) }
    ensures passes { OnOk result (Passes cursor.old cursor.new (padding_len len)) }
    ensures every { (after : List ℕ) → rest cursor.old ≡ padding_bytes len ++ after
        → IsOk result × (rest cursor.new ≡ after) }
{
    cursor.skip((4 - len % 4) % 4)
}

/// Reads a run after its length, and passes the padding after the run.
#[tactic(auto, using(octets::proofs::CallerLemmas::parts))]
pub fn read_padded<'a>(cursor: &mut Octets<'a>) -> Result<Octets<'a>>
    ensures fits { IsOk result ↔ (padded_len 2 (rest cursor.old) ≤ length (rest cursor.old)) }
    ensures view { IfOk result (λ v. bytes v
        ≡ part (rest cursor.old) 2 (said 2 (rest cursor.old))) }
    ensures start { IfOk result (λ v. position v ≡ 0) }
    ensures passes { OnOk result (Passes cursor.old cursor.new (padded_len 2 (rest cursor.old))) }
    ensures every { (v after : List ℕ) → length v < 2 ^ 16 → rest cursor.old ≡ padded 2 v after
        → IsOkAnd result (λ r. bytes r ≡ v) × (rest cursor.new ≡ after) }
{
    let v = cursor.get_bytes_with_u16_length()?;
    pass_padding(cursor, v.len())?;
    Ok(v)
}

/// Does the same, but leaves the cursor unchanged if it fails.
pub fn next_padded<'a>(cursor: &mut Octets<'a>) -> Result<Octets<'a>>
    ensures fits { IsOk result ↔ (padded_len 2 (rest cursor.old) ≤ length (rest cursor.old)) }
    ensures view { IfOk result (λ v. bytes v
        ≡ part (rest cursor.old) 2 (said 2 (rest cursor.old))) }
    ensures start { IfOk result (λ v. position v ≡ 0) }
    ensures passes { OnOk result (Passes cursor.old cursor.new (padded_len 2 (rest cursor.old))) }
    ensures every { (v after : List ℕ) → length v < 2 ^ 16 → rest cursor.old ≡ padded 2 v after
        → IsOkAnd result (λ r. bytes r ≡ v) × (rest cursor.new ≡ after) }
    ensures unchanged { OnErr result (IsUnchanged cursor.old cursor.new) }
{
    let mut ahead = cursor.peek_bytes(cursor.cap())?;
    let v = read_padded(&mut ahead)?;
    cursor.skip(ahead.off())?;
    Ok(v)
}

/// Writes the padding after `len` bytes.
#[tactic(auto, using(octets::specs::Writing::writes_nothing), unfolding(crate::specs::Padded::padding_len, crate::specs::Padded::padding_bytes, octets::specs::Bytes::network))]
fn write_padding(cursor: &mut OctetsMut<'_>, len: usize) -> Result<()>
    ensures fits { IsOk result ↔ (padding_len len ≤ length (rest cursor.old)) }
    ensures writes { IfOk result (λ _. Writes cursor.old cursor.new (padding_bytes len)) }
    ensures past { IfOk result (λ _. position cursor.new ≡ position cursor.old + padding_len len) }
{
    match len % 4 {
        1 => cursor.write_u24(0),
        2 => cursor.write_u16(0),
        3 => cursor.write_u8(0),
        _ => Ok(()),
    }
}

/// Writes a run after its length, and the padding after the run.
pub fn write_padded(cursor: &mut OctetsMut<'_>, v: &[u8]) -> Result<()>
    requires { length v.now < 2 ^ 16 }
    ensures fits { IsOk result
        ↔ (2 + length v.now + padding_len (length v.now) ≤ length (rest cursor.old)) }
    ensures writes { IfOk result (λ _. Writes cursor.old cursor.new
        (network 2 (length v.now) ++ v.now ++ padding_bytes (length v.now))) }
    ensures past { IfOk result (λ _. position cursor.new
        ≡ position cursor.old + (2 + length v.now + padding_len (length v.now))) }
{
    cursor.write_u16(v.len() as u16)?;
    cursor.put_bytes(v)?;
    write_padding(cursor, v.len())
}

/// Reads an attribute of STUN: a kind, and a run with padding.
#[tactic(auto, using(octets::proofs::CallerLemmas::parts))]
pub fn read_attribute<'a>(cursor: &mut Octets<'a>) -> Result<(u16, Octets<'a>)>
    ensures every { (kind : ℕ) (v after : List ℕ) → kind < 2 ^ 16 → length v < 2 ^ 16
        → rest cursor.old ≡ network 2 kind ++ padded 2 v after
        → IsOkAnd result (λ r. (r.0 ≡ kind) × (bytes r.1 ≡ v)) × (rest cursor.new ≡ after) }
{
    Ok((cursor.get_u16()?, read_padded(cursor)?))
}

/// Reads opaque data of XDR: a run after its length in four bytes, and the padding after the run.
#[tactic(auto, using(octets::proofs::CallerLemmas::parts))]
pub fn read_opaque<'a>(cursor: &mut Octets<'a>) -> Result<Octets<'a>>
    ensures fits { IsOk result ↔ (padded_len 4 (rest cursor.old) ≤ length (rest cursor.old)) }
    ensures view { IfOk result (λ v. bytes v
        ≡ part (rest cursor.old) 4 (said 4 (rest cursor.old))) }
    ensures start { IfOk result (λ v. position v ≡ 0) }
    ensures passes { OnOk result (Passes cursor.old cursor.new (padded_len 4 (rest cursor.old))) }
    ensures every { (v after : List ℕ) → length v < 2 ^ 32 → rest cursor.old ≡ padded 4 v after
        → IsOkAnd result (λ r. bytes r ≡ v) × (rest cursor.new ≡ after) }
{
    let len = cursor.get_u32()? as usize;
    let v = cursor.get_bytes(len)?;
    pass_padding(cursor, len)?;
    Ok(v)
}
