//! Text that ends at a zero byte.
//!
//! `text ++ network 1 0 ++ after` alone doesn't say where the text ends, because the text could
//! contain a zero byte. So `IsText` defines what a text is. The kit's `position` looks for the
//! first zero byte. Its contract states each byte by its index, as `slice_index_or l k 0`,
//! which is byte number k of l. Two lemmas in `proofs/Endings.antt` translate between this and
//! the definitions. They use lemmas of the kit about lists; `rt lemma WORD..` finds such
//! lemmas. Only `end_of_text` names the lemmas.
//!
//! `read_before_zero` and `read_ended` are for the clause `every`: the first reads a run whose
//! length was computed, and the second also the zero byte. `read_string` itself, and a reader
//! of two texts, need no attribute. The clauses of `read_string` describe it completely:
//! `every` says that each text is read, `text` that nothing else is, and `refused` that the
//! call fails if and only if no zero byte remains. A writer that calls `write_string` needs its
//! clause `past` for clauses such as `fits` of its own. A caller that reads other fields too
//! states `ended text` in its own `every`, and expands nothing.
ghost use Rattle.std.specs.Prelude.{◌≡◌, ◌↔◌, ◌+◌, ◌≤◌, ◌<◌, ◌++◌, ℕ, List, length, IsOk, IsOkAnd, IfOk, IfSome};
ghost use Rattle.std.specs.Prelude.{OnOk, OnErr, IsErr, None, Some, take, slice_index_or};
ghost use Rattle.octets.specs.Cursor.{bytes, position, rest, IsUnchanged, Passes, Writes};
ghost use Rattle.octets_fields.specs.Strings.{IsText, ended};

use octets::{BufferTooShortError, Octets, OctetsMut, Result};

/// Returns how many bytes are before the first zero byte.
#[tactic(auto, using(crate::proofs::Endings::text_before, crate::proofs::Endings::zero_at_end), unfolding(crate::specs::Strings::IsText))]
fn end_of_text(bytes: &[u8]) -> Option<usize>
    ensures some { IfSome result (λ n. (n < length bytes.now) × (slice_index_or bytes.now n 0 ≡ 0)) }
    ensures text { IfSome result (λ n. IsText (take n bytes.now)) }
    ensures every { (text after : List ℕ) → IsText text → bytes.now ≡ ended text ++ after
        → result ≡ Some (length text) }
    ensures none { result ≡ None ↔ IsText bytes.now }
{
    bytes.iter().position(|byte| *byte == 0)
}

/// Reads a run whose length the caller knows.
fn read_before_zero<'a>(cursor: &mut Octets<'a>, len: usize) -> Result<Octets<'a>>
    ensures fits { IsOk result ↔ (len ≤ length (rest cursor.old)) }
    ensures view { IfOk result (λ v. bytes v ≡ take len (rest cursor.old)) }
    ensures start { IfOk result (λ v. position v ≡ 0) }
    ensures every { (run after : List ℕ) → len ≡ length run → rest cursor.old ≡ run ++ after
        → IsOkAnd result (λ v. bytes v ≡ run) × (rest cursor.new ≡ after) }
    ensures passes { OnOk result (Passes cursor.old cursor.new len) }
{
    cursor.get_bytes(len)
}

/// Reads such a run, and the byte after it.
#[tactic(auto, using(octets::proofs::CallerLemmas::parts), unfolding(crate::specs::Strings::ended))]
fn read_ended<'a>(cursor: &mut Octets<'a>, len: usize) -> Result<Octets<'a>>
    ensures fits { IsOk result ↔ (len + 1 ≤ length (rest cursor.old)) }
    ensures view { IfOk result (λ v. bytes v ≡ take len (rest cursor.old)) }
    ensures start { IfOk result (λ v. position v ≡ 0) }
    ensures every { (text after : List ℕ) → len ≡ length text → rest cursor.old ≡ ended text ++ after
        → IsOkAnd result (λ v. bytes v ≡ text) × (rest cursor.new ≡ after) }
    ensures passes { OnOk result (Passes cursor.old cursor.new (len + 1)) }
{
    let run = read_before_zero(cursor, len)?;
    cursor.get_u8()?;
    Ok(run)
}

/// Reads a text, and the zero byte that ends it.
pub fn read_string<'a>(cursor: &mut Octets<'a>) -> Result<Octets<'a>>
    ensures every { (text after : List ℕ) → IsText text → rest cursor.old ≡ ended text ++ after
        → IsOkAnd result (λ v. bytes v ≡ text) × (rest cursor.new ≡ after) }
    ensures text { IfOk result (λ v. (n : ℕ) × (bytes v ≡ take n (rest cursor.old)) × IsText (bytes v)
        × (n < length (rest cursor.old)) × (slice_index_or (rest cursor.old) n 0 ≡ 0)
        × Passes cursor.old cursor.new (n + 1)) }
    ensures start { IfOk result (λ v. position v ≡ 0) }
    ensures refused { IsErr result ↔ IsText (rest cursor.old) }
    ensures unchanged { OnErr result (IsUnchanged cursor.old cursor.new) }
{
    let Some(len) = end_of_text(cursor.as_ref()) else {
        return Err(BufferTooShortError);
    };
    read_ended(cursor, len)
}

/// Reads two texts.
pub fn read_strings<'a>(cursor: &mut Octets<'a>) -> Result<(Octets<'a>, Octets<'a>)>
    ensures every { (a b after : List ℕ) → IsText a → IsText b
        → rest cursor.old ≡ ended a ++ (ended b ++ after)
        → IsOkAnd result (λ r. (bytes r.0 ≡ a) × (bytes r.1 ≡ b)) × (rest cursor.new ≡ after) }
    ensures texts { IfOk result (λ r. IsText (bytes r.0) × IsText (bytes r.1)) }
{
    Ok((read_string(cursor)?, read_string(cursor)?))
}

/// Writes a text, and the zero byte that ends it, or nothing if they don't fit.
#[tactic(auto, unfolding(crate::specs::Strings::ended))]
pub fn write_string(cursor: &mut OctetsMut<'_>, text: &[u8]) -> Result<()>
    requires { IsText text.now }
    ensures fits { IsOk result ↔ (length text.now + 1 ≤ length (rest cursor.old)) }
    ensures writes { OnOk result (Writes cursor.old cursor.new (ended text.now)) }
    ensures past { OnOk result (position cursor.new ≡ position cursor.old + (length text.now + 1)) }
    ensures unchanged { OnErr result (IsUnchanged cursor.old cursor.new) }
{
    if cursor.cap() < text.len() + 1 {
        return Err(BufferTooShortError);
    }
    cursor.put_bytes(text)?;
    cursor.write_u8(0)
}
