//! A list that ends at a mark, with an exact clause for each of several errors.
//!
//! A record is a kind and a length, which have one byte each, and a value. The kind 0 is the
//! mark at which the list ends; it has neither a length nor a value. The kind 255 is reserved.
//! The reader returns one of three errors: the bytes end before the mark, a record isn't
//! complete, or a record has the kind 255.
//!
//! Which error is returned depends on what remains after the last complete record. `EndsAt l m`
//! says that the list l is records, as many as there are, and that m remains. In its case
//! `later` a record is added before the others. (In the case `another` of `HasLabels` in the
//! module `domain_names`, a label is added after the others.) The lemma `one_end` says that m
//! is the only list that remains: if `EndsAt l m` and `EndsAt l k` are true, then m is k.
//!
//! The loop is in a function that can't fail, `pass_tlvs`. It stops at bytes that don't begin
//! with a record. Its invariant is about every list m, not about what was passed so far: if m
//! remains after the records that are still to be passed, then m also remains after the records
//! of the whole list.
//!
//! The reader `pass_list` has no loop, and names the lemma. Its clauses `fits`, `no_mark`,
//! `reserved` and `cut` say exactly when each result is returned, since `one_end` leaves only
//! one m. If no byte remains, `number (part m 0 1)` is 0, so `fits` also says that m isn't
//! empty. In the same way you can state conditions on what follows the mark, such as a length
//! that has to be 0: read it in `pass_list`, and state it by `part m 1 1`.
ghost use Rattle.std.specs.Prelude.{◌≡◌, ◌↔◌, ◌≤◌, ◌<◌, ℕ, List, length, drop, IsOk, OnOk, OnErr, IsErrOf};
ghost use Rattle.octets.specs.Bytes.{number, part};
ghost use Rattle.octets.specs.Cursor.{rest, IsUnchanged, Advances};
ghost use Rattle.octets_lists.specs.Marked.{BeginsTlv, LacksTlv, EndsAt};
ghost use Rattle.octets_lists.specs.declared.marked.ListError.TheVariants.{NoMark, Cut, Reserved};

use octets::{BufferTooShortError, Octets, Result};

/// Why a list has no end.
#[derive(Clone, Copy, Debug, PartialEq, Eq)]
pub enum ListError {
    /// The bytes end before the mark.
    NoMark,
    /// A record isn't complete.
    Cut,
    /// A record has the kind 255, which is reserved.
    Reserved,
}

/// Passes a record. If the bytes don't begin with one, it changes nothing.
#[tactic(auto, unfolding(crate::specs::Marked::BeginsTlv, crate::specs::Marked::LacksTlv))]
fn pass_tlv(cursor: &mut Octets<'_>) -> Result<()>
    ensures record { OnOk result ((n : ℕ) × BeginsTlv (rest cursor.old) n
        × (rest cursor.new ≡ drop n (rest cursor.old))) }
    ensures shorter { OnOk result (length (rest cursor.new) < length (rest cursor.old)) }
    ensures none { OnErr result (LacksTlv (rest cursor.old)) }
    ensures unchanged { OnErr result (IsUnchanged cursor.old cursor.new) }
    ensures advances { Advances cursor.old cursor.new }
{
    let mut ahead = cursor.peek_bytes(cursor.cap())?;
    let kind = ahead.get_u8()?;
    if kind == 0 || kind == 255 {
        return Err(BufferTooShortError);
    }
    ahead.get_bytes_with_u8_length()?;
    cursor.skip(ahead.off())
}

/// Passes as many records as there are.
#[tactic(auto, using(crate::specs::Marked::here, crate::specs::Marked::later))]
fn pass_tlvs(cursor: &mut Octets<'_>)
    ensures ends { EndsAt (rest cursor.old) (rest cursor.new) }
    ensures advances { Advances cursor.old cursor.new }
{
    'records: while let Ok(()) = pass_tlv(cursor) {}
}

/// Passes records and the mark.
#[tactic(auto, using(crate::proofs::OneEnd::one_end))]
pub fn pass_list(cursor: &mut Octets<'_>) -> std::result::Result<(), ListError>
    ensures fits { IsOk result ↔ ((m : List ℕ) × EndsAt (rest cursor.old) m
        × (1 ≤ length m) × (number (part m 0 1) ≡ 0)) }
    ensures no_mark { IsErrOf result NoMark ↔ ((m : List ℕ) × EndsAt (rest cursor.old) m
        × (length m ≡ 0)) }
    ensures reserved { IsErrOf result Reserved ↔ ((m : List ℕ) × EndsAt (rest cursor.old) m
        × (number (part m 0 1) ≡ 255)) }
    ensures cut { IsErrOf result Cut ↔ ((m : List ℕ) × EndsAt (rest cursor.old) m
        × (1 ≤ number (part m 0 1)) × (number (part m 0 1) < 255)) }
    ensures after { (m : List ℕ) → EndsAt (rest cursor.old) m → OnOk result (rest cursor.new ≡ drop 1 m) }
    ensures advances { Advances cursor.old cursor.new }
{
    pass_tlvs(cursor);
    match cursor.get_u8() {
        Err(_) => Err(ListError::NoMark),
        Ok(0) => Ok(()),
        Ok(255) => Err(ListError::Reserved),
        Ok(_) => Err(ListError::Cut),
    }
}
