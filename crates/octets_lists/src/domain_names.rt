//! Records that end at a mark, with fields after them: a question of DNS (RFC 1035, section
//! 4.1.2).
//!
//! A question is a name, a type and a class. The name is a list of labels, each after its
//! length, which has one byte. An empty label is the mark where the name ends. A function of
//! its own reads one label. `pass_domain_name` calls it in a loop, and its caller reads the
//! fields after the name. In a message the name may end by a pointer instead, whose first byte
//! is 192 or more. `read_label` refuses it.
//!
//! These functions have one error. The module `marked` has several.
ghost use Rattle.std.specs.Prelude.{◌≡◌, ◌+◌, ◌<◌, ℕ, List, length, drop, IfOk, OnOk, OnErr, ◌⊎◌};
ghost use Rattle.octets.specs.Bytes.{number, part};
ghost use Rattle.octets.specs.Cursor.{bytes, position, rest};
ghost use Rattle.octets_lists.specs.DomainNames.{BeginsLabel, BeginsName, LacksLabel, LacksName};

use octets::{BufferTooShortError, Octets, Result};

/// Reads a label of fewer than 64 bytes, after its length.
#[tactic(auto, using(octets::proofs::CallerLemmas::parts), unfolding(crate::specs::DomainNames::BeginsLabel, crate::specs::DomainNames::LacksLabel))]
pub fn read_label<'a>(cursor: &mut Octets<'a>) -> Result<Octets<'a>>
    ensures label { IfOk result (λ v. BeginsLabel (rest cursor.old) (length (bytes v))) }
    ensures view { IfOk result (λ v. bytes v ≡ part (rest cursor.old) 1 (length (bytes v))) }
    ensures start { IfOk result (λ v. position v ≡ 0) }
    ensures after { IfOk result (λ v. rest cursor.new ≡ drop (1 + length (bytes v)) (rest cursor.old)) }
    ensures shorter { OnOk result (length (rest cursor.new) < length (rest cursor.old)) }
    ensures refused { OnErr result (LacksLabel (rest cursor.old)) }
{
    let len = cursor.get_u8()?;
    if len >= 64 {
        return Err(BufferTooShortError);
    }
    cursor.get_bytes(usize::from(len))
}

/// Passes a name.
#[tactic(auto, using(crate::specs::DomainNames::nothing, crate::specs::DomainNames::another), unfolding(crate::specs::DomainNames::BeginsName, crate::specs::DomainNames::LacksName))]
pub fn pass_domain_name(cursor: &mut Octets<'_>) -> Result<()>
    ensures name { OnOk result (BeginsName (rest cursor.old) (rest cursor.new)) }
    ensures refused { OnErr result (LacksName (rest cursor.old)) }
{
    'labels: loop {
        let label = read_label(cursor)?;
        if label.is_empty() {
            return Ok(());
        }
    }
}

/// Reads a question: its name, its type and its class.
pub fn read_question(cursor: &mut Octets<'_>) -> Result<(u16, u16)>
    ensures fields { IfOk result (λ q. (after : List ℕ) × BeginsName (rest cursor.old) after
        × (q.0 ≡ number (part after 0 2)) × (q.1 ≡ number (part after 2 2)) × (rest cursor.new ≡ drop 4 after)) }
    ensures refused { OnErr result (LacksName (rest cursor.old)
        ⊎ ((after : List ℕ) × BeginsName (rest cursor.old) after × (length after < 4))) }
{
    pass_domain_name(cursor)?;
    Ok((cursor.get_u16()?, cursor.get_u16()?))
}
