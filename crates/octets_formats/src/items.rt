//! A reader and a writer of an item: a kind of two bytes, the length of a body in two bytes,
//! and the body.
//!
//! The clause `every` of the reader says that every item is read, whatever follows it.
//! `next_item` leaves the cursor unchanged if it fails, and `find_item` reads items in a loop.
ghost use Rattle.std.specs.Prelude.{◌≡◌, ◌↔◌, ◌+◌, ◌≤◌, ◌<◌, ◌^◌, ◌++◌, ◌∷◌, ℕ, List, [], length, IsOk, IsOkAnd, IfOk};
ghost use Rattle.std.specs.Prelude.{IfSome, IfNone, OnOk, OnErr};
ghost use Rattle.octets.specs.Bytes.{network, number, part, prefixed};
ghost use Rattle.octets.specs.Cursor.{bytes, position, rest, IsUnchanged, Passes, Reads, Writes};
ghost use Rattle.octets_formats.specs.Others.{AreOthers};

use octets::{Buffer, Bytes, Cursor, Octets, OctetsMut, Result};

/// Reads an item; its body is a cursor over the body alone.
#[tactic(auto, using(octets::proofs::CallerLemmas::parts, octets::proofs::CallerLemmas::reads_more))]
pub fn read_item<'a>(cursor: &mut Octets<'a>) -> Result<(u16, Octets<'a>)>
    ensures fits { IsOk result
        ↔ (4 + number (part (rest cursor.old) 2 2) ≤ length (rest cursor.old)) }
    ensures spelled { IfOk result (λ item. Reads cursor.old cursor.new
        (network 2 item.0 ++ prefixed 2 (bytes item.1))) }
    ensures start { IfOk result (λ item. position item.1 ≡ 0) }
    ensures small { IfOk result (λ item. length (bytes item.1) < 2 ^ 16) }
    ensures passes { IfOk result (λ item. Passes cursor.old cursor.new (4 + length (bytes item.1))) }
    ensures every { (kind : ℕ) (body after : List ℕ) → kind < 2 ^ 16 → length body < 2 ^ 16
        → rest cursor.old ≡ network 2 kind ++ network 2 (length body) ++ body ++ after
        → IsOkAnd result (λ item. (item.0 ≡ kind) × (bytes item.1 ≡ body))
        × (rest cursor.new ≡ after) }
    ensures shorter { IfOk result (λ _. length (rest cursor.new) < length (rest cursor.old)) }
{
    Ok((cursor.get_u16()?, cursor.get_bytes_with_u16_length()?))
}

/// Writes an item.
pub fn write_item(cursor: &mut OctetsMut<'_>, kind: u16, body: &[u8]) -> Result<()>
    requires { length body.now < 2 ^ 16 }
    ensures fits { IsOk result ↔ (4 + length body.now ≤ length (rest cursor.old)) }
    ensures writes { IfOk result (λ _. Writes cursor.old cursor.new
        (network 2 kind ++ network 2 (length body.now) ++ body.now)) }
    ensures past { IfOk result (λ _. position cursor.new
        ≡ position cursor.old + (4 + length body.now)) }
{
    cursor.write_u16(kind)?;
    cursor.write_u16(body.len() as u16)?;
    cursor.put_bytes(body)
}

// If a reader reads only numbers and varints, a type parameter lets it take an `OctetsMut` as well as
// an `Octets`. The clauses and the lemmas are the same. Such a reader can call `get_u8` to `get_u64`,
// `peek_u8`, `get_varint`, `get_varint_shortest`, `skip` and `rewind`. It can't call `get_bytes`,
// `peek_bytes` and `get_bytes_with_..`, since these calls don't exist for every B. `Octets` and
// `OctetsMut` have them, but those of `OctetsMut` don't have the clauses `spelled` and `passes`. So a
// reader of runs, such as `read_item`, takes an `Octets`. A writer is generic by `B: Buffer`, and
// needs no other lemmas than a writer to an `OctetsMut`.

/// Reads two numbers.
#[tactic(auto, using(octets::proofs::CallerLemmas::parts, octets::proofs::CallerLemmas::reads_more))]
pub fn read_numbers<B: Bytes>(cursor: &mut Cursor<B>) -> Result<(u16, u32)>
    ensures fits { IsOk result ↔ (6 ≤ length (rest cursor.old)) }
    ensures spelled { IfOk result (λ p. Reads cursor.old cursor.new (network 2 p.0 ++ network 4 p.1)) }
    ensures every { (a b : ℕ) (after : List ℕ) → a < 2 ^ 16 → b < 2 ^ 32
        → rest cursor.old ≡ network 2 a ++ network 4 b ++ after
        → IsOkAnd result (λ p. (p.0 ≡ a) × (p.1 ≡ b)) × (rest cursor.new ≡ after) }
{
    Ok((cursor.get_u16()?, cursor.get_u32()?))
}

/// Writes two numbers.
pub fn write_numbers<B: Buffer>(cursor: &mut Cursor<B>, a: u16, b: u32) -> Result<()>
    ensures fits { IsOk result ↔ (6 ≤ length (rest cursor.old)) }
    ensures writes { OnOk result (Writes cursor.old cursor.new (network 2 a ++ network 4 b)) }
{
    cursor.write_u16(a)?;
    cursor.write_u32(b)
}

// A reader can also return the bytes of a run as a slice, which is `buf()` of the view. In the
// clauses, `value.now` then takes the place of `bytes value`. With the set `parts`, `every` states the
// length by `network`, followed by the run. It doesn't use `prefixed`, since the set has no lemma
// about it.

/// Reads a kind, and a value after its length.
#[tactic(auto, using(octets::proofs::CallerLemmas::parts))]
pub fn read_value<'a>(cursor: &mut Octets<'a>) -> Result<(u8, &'a [u8])>
    ensures fits { IsOk result
        ↔ (2 + number (part (rest cursor.old) 1 1) ≤ length (rest cursor.old)) }
    ensures kind { IfOk result (λ r. r.0 ≡ number (part (rest cursor.old) 0 1)) }
    ensures every { (kind : ℕ) (value after : List ℕ) → kind < 2 ^ 8 → length value < 2 ^ 8
        → rest cursor.old ≡ network 1 kind ++ network 1 (length value) ++ value ++ after
        → IsOkAnd result (λ r. (r.0 ≡ kind) × (r.1.now ≡ value)) × (rest cursor.new ≡ after) }
{
    let kind = cursor.get_u8()?;
    Ok((kind, cursor.get_bytes_with_u8_length()?.buf()))
}

/// Reads items up to the first of the wanted kind, and returns its body, or `None` if there is no such
/// item up to the end.
#[tactic(auto, using(octets::proofs::CallerLemmas::reads_more, octets::proofs::CallerLemmas::reads_none, octets::proofs::CallerLemmas::reads_rest, crate::specs::Others::nothing, crate::specs::Others::another))]
pub fn find_item<'a>(cursor: &mut Octets<'a>, wanted: u16) -> Result<Option<Octets<'a>>>
    ensures found { IfOk result (λ o. IfSome o (λ body. (before : List ℕ) × AreOthers wanted before
        × (length (bytes body) < 2 ^ 16) × (position body ≡ 0)
        × Reads cursor.old cursor.new (before ++ (network 2 wanted ++ prefixed 2 (bytes body))))) }
    ensures none { IfOk result (λ o. IfNone o ((before : List ℕ) × AreOthers wanted before
        × Reads cursor.old cursor.new before × (rest cursor.new ≡ []))) }
    ensures refused { OnErr result ((before after : List ℕ) × AreOthers wanted before
        × (rest cursor.old ≡ before ++ after) × (1 ≤ length after)
        × (length after < 4 + number (part after 2 2))) }
{
    while cursor.cap() > 0 {
        let (kind, body) = read_item(cursor)?;
        if kind == wanted {
            return Ok(Some(body));
        }
    }
    Ok(None)
}

/// Two items of other kinds than 9 are such items.
#[tactic(auto, using(crate::specs::Others::nothing, crate::specs::Others::another))]
pub fn example_others()
    ensures { (before : List ℕ) → before ≡ []
        → AreOthers 9 (before ++ (network 2 7 ++ prefixed 2 (1 ∷ [])) ++ (network 2 8 ++ prefixed 2 [])) }
{}

/// Reads an item as `read_item` does, but leaves the cursor unchanged if it fails.
pub fn next_item<'a>(cursor: &mut Octets<'a>) -> Result<(u16, Octets<'a>)>
    ensures fits { IsOk result
        ↔ (4 + number (part (rest cursor.old) 2 2) ≤ length (rest cursor.old)) }
    ensures start { IfOk result (λ item. position item.1 ≡ 0) }
    ensures passes { IfOk result (λ item. Passes cursor.old cursor.new (4 + length (bytes item.1))) }
    ensures every { (kind : ℕ) (body after : List ℕ) → kind < 2 ^ 16 → length body < 2 ^ 16
        → rest cursor.old ≡ network 2 kind ++ network 2 (length body) ++ body ++ after
        → IsOkAnd result (λ item. (item.0 ≡ kind) × (bytes item.1 ≡ body)) }
    ensures unchanged { OnErr result (IsUnchanged cursor.old cursor.new) }
{
    let mut ahead = cursor.peek_bytes(cursor.cap())?;
    let item = read_item(&mut ahead)?;
    cursor.skip(ahead.off())?;
    Ok(item)
}

// To show that the clauses of a reader leave no choice, write a function with an empty body that takes
// two results, requires the clauses of both for the same bytes l, and ensures that the results are
// equal. For a result that contains a view v, ensure that `bytes v` and `position v` of both are
// equal. In an `ensures` the parameters are then `r.entry` and `q.entry`, because a view contains a
// reference.

/// Two results that meet the same clauses for the same bytes are equal.
pub fn views_are_decided(r: Result<(u16, Octets<'_>)>, q: Result<(u16, Octets<'_>)>, l: &[u8])
    requires r_fits { IsOk r ↔ (4 + number (part l.now 2 2) ≤ length l.now) }
    requires r_kind { IfOk r (λ item. item.0 ≡ number (part l.now 0 2)) }
    requires r_body { IfOk r (λ item. bytes item.1 ≡ part l.now 4 (number (part l.now 2 2))) }
    requires r_start { IfOk r (λ item. position item.1 ≡ 0) }
    requires q_fits { IsOk q ↔ (4 + number (part l.now 2 2) ≤ length l.now) }
    requires q_kind { IfOk q (λ item. item.0 ≡ number (part l.now 0 2)) }
    requires q_body { IfOk q (λ item. bytes item.1 ≡ part l.now 4 (number (part l.now 2 2))) }
    requires q_start { IfOk q (λ item. position item.1 ≡ 0) }
    ensures both { IsOk r.entry ↔ IsOk q.entry }
    ensures same { IfOk r.entry (λ one. IfOk q.entry (λ other. (one.0 ≡ other.0)
        × (bytes one.1 ≡ bytes other.1) × (position one.1 ≡ position other.1))) }
{}

// If a clause mentions `cursor.new`, add a parameter for the bytes that remain after the call.
// `Reads cursor.old cursor.new b` becomes an equation of lists, and `r_after.now` takes the place of
// `rest cursor.new`.

/// Two results that meet the clauses of `read_numbers` for the same bytes are equal.
pub fn numbers_are_decided(
    r: Result<(u16, u32)>,
    r_after: &[u8],
    q: Result<(u16, u32)>,
    q_after: &[u8],
    l: &[u8],
)
    requires r_spelled { IfOk r (λ p. l.now ≡ network 2 p.0 ++ network 4 p.1 ++ r_after.now) }
    requires r_every { (a b : ℕ) (after : List ℕ) → a < 2 ^ 16 → b < 2 ^ 32
        → l.now ≡ network 2 a ++ network 4 b ++ after
        → IsOkAnd r (λ p. (p.0 ≡ a) × (p.1 ≡ b)) × (r_after.now ≡ after) }
    requires q_spelled { IfOk q (λ p. l.now ≡ network 2 p.0 ++ network 4 p.1 ++ q_after.now) }
    requires q_every { (a b : ℕ) (after : List ℕ) → a < 2 ^ 16 → b < 2 ^ 32
        → l.now ≡ network 2 a ++ network 4 b ++ after
        → IsOkAnd q (λ p. (p.0 ≡ a) × (p.1 ≡ b)) × (q_after.now ≡ after) }
    ensures { r ≡ q }
{}
