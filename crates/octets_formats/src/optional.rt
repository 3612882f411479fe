//! Fields that may be absent.
//!
//! A function of its own reads such a field. Its parameter `is_there` says whether the field is
//! there. A reader of a header with flags calls `read_word` once for each number of four bytes
//! that may be absent, and passes the value of the field's flag. The reader of the header has
//! one clause `every` for all combinations of the flags:
//! `.. ++ word_bytes key ++ word_bytes sequence ++ after`, where `key` and `sequence` are of
//! the type `Option ℕ`.
//!
//! A byte string that may be absent has two clauses, one for each case.
//! `MatchOption r ⊥ (λ v. P)` says that r is `Some`, and that P is true of its value v.
ghost use Rattle.std.specs.Prelude.{◌≡◌, ◌↔◌, ◌*◌, ◌≤◌, ◌<◌, ◌^◌, ◌++◌, ℕ, List, [], length, IsOk, IsOkAnd, IfOk};
ghost use Rattle.std.specs.Prelude.{IfSome, IfNone, OnOk, OnErr, Option, is_some, true, false, None, MatchOption};
ghost use Rattle.octets.specs.Bytes.{network, number, part};
ghost use Rattle.octets.specs.Cursor.{bytes, rest, Passes};
ghost use Rattle.octets_formats.specs.Optional.{bit, word_bytes};

use octets::{Octets, Result};

/// Reads a number of four bytes, if it is there.
#[tactic(auto, using(octets::proofs::CallerLemmas::parts), unfolding(crate::specs::Optional::word_bytes, crate::specs::Optional::bit))]
pub fn read_word(cursor: &mut Octets<'_>, is_there: bool) -> Result<Option<u32>>
    ensures fits { IsOk result ↔ (4 * bit is_there ≤ length (rest cursor.old)) }
    ensures passes { OnOk result (Passes cursor.old cursor.new (4 * bit is_there)) }
    ensures some { IfOk result (λ r. is_some r ≡ is_there) }
    ensures value { IfOk result (λ r. IfSome r (λ n. n ≡ number (part (rest cursor.old) 0 4))) }
    ensures every { (word : Option ℕ) (after : List ℕ) → is_there ≡ is_some word
        → IfSome word (λ n. n < 2 ^ 32) → rest cursor.old ≡ word_bytes word ++ after
        → IsOkAnd result (λ r. r ≡ word) × (rest cursor.new ≡ after) }
{
    if is_there {
        Ok(Some(cursor.get_u32()?))
    } else {
        Ok(None)
    }
}

// A field at the end of the input may also be there exactly if bytes remain.

/// Reads a number of four bytes, if bytes remain.
#[tactic(auto, using(octets::proofs::CallerLemmas::parts), unfolding(crate::specs::Optional::word_bytes))]
pub fn read_last_word(cursor: &mut Octets<'_>) -> Result<Option<u32>>
    ensures none { IfOk result (λ r. IfNone r (rest cursor.old ≡ [])) }
    ensures value { IfOk result (λ r. IfSome r (λ n. n ≡ number (part (rest cursor.old) 0 4))) }
    ensures passes { IfOk result (λ r. IfSome r (λ _. Passes cursor.old cursor.new 4)) }
    ensures refused { OnErr result ((1 ≤ length (rest cursor.old)) × (length (rest cursor.old) < 4)) }
    ensures every { (word : Option ℕ) → IfSome word (λ n. n < 2 ^ 32)
        → rest cursor.old ≡ word_bytes word → IsOkAnd result (λ r. r ≡ word) × (rest cursor.new ≡ []) }
{
    if cursor.cap() == 0 {
        Ok(None)
    } else {
        Ok(Some(cursor.get_u32()?))
    }
}

/// Reads a name after its length, if it is there.
#[tactic(auto, using(octets::proofs::CallerLemmas::parts))]
pub fn read_name<'a>(cursor: &mut Octets<'a>, is_there: bool) -> Result<Option<Octets<'a>>>
    ensures some { IfOk result (λ r. is_some r ≡ is_there) }
    ensures every { (name after : List ℕ) → length name < 2 ^ 16 → is_there ≡ true
        → rest cursor.old ≡ network 2 (length name) ++ name ++ after
        → IsOkAnd result (λ r. MatchOption r ⊥ (λ v. bytes v ≡ name)) × (rest cursor.new ≡ after) }
    ensures none { is_there ≡ false → IsOkAnd result (λ r. r ≡ None) × (rest cursor.new ≡ rest cursor.old) }
{
    if is_there {
        Ok(Some(cursor.get_bytes_with_u16_length()?))
    } else {
        Ok(None)
    }
}
