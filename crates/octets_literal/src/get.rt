//! The call that reads a literal into a new `Vec`.
ghost use Rattle.std.specs.Prelude.{◌≡◌, ◌⊎◌, ℕ, ◌<◌, ◌≤◌, true, false, List};
ghost use Rattle.std.specs.Prelude.{length, vec_len, IfOk, IfErr, OnOk, OnErr};
ghost use Rattle.octets.specs.Cursor.{remaining, rest, Passes, IsUnchanged};
ghost use Rattle.octets_literal.specs.Literals.{BeginsLiteral, WhereLiteral};
ghost use Rattle.octets_literal.specs.Laws.{CanonBegins, CanonAlone};
ghost use Rattle.octets_literal.specs.Faults.{IsRefused, GivesString};
ghost use Rattle.octets_literal.specs.Values.{IsNoValue, IsValue};
ghost use Rattle.octets_literal.specs.declared.error.LiteralError.TheVariants.{Value, OutOfMemory};

use crate::data::find_data;
use crate::error::LiteralError;
use octets::{DecodeError, Octets};
use std::alloc::Global;

/// Reads a string literal (RFC 7541, section 5.2) whose value has at most `max_len` bytes, and
/// moves the offset past it.
///
/// The length of the literal may have groups of zeros at its end, but it has at most six bytes and
/// is at most 4294967295. If the call fails, the offset is unchanged.
///
/// ```
/// let mut cursor = Octets::with_slice(&[2, 97, 98, 7]);
/// assert_eq!(&*get_string(alloc, &mut cursor, 9)?, b"ab".as_slice());
/// assert_eq!(cursor.get_u8()?, 7);
/// ```
#[tactic(auto, using(crate::proofs::Refusals::answers))]
pub fn get_string(
    alloc: Global,
    cursor: &mut Octets<'_>,
    max_len: usize,
) -> Result<Vec<u8>, LiteralError>
    // The result is `Ok` exactly if the rest begins with a literal of a value within the limit.
    ensures value { IfOk result (λ v. (k : ℕ) × BeginsLiteral (rest cursor.old) k v.items
        × (vec_len v ≤ max_len) × Passes cursor.old cursor.new k) }
    ensures every { WhereLiteral (rest cursor.old)
        (λ _ v. length v ≤ max_len → GivesString result v) }

    // A literal of v is read as v, and the offset moves past exactly this literal.
    ensures one { WhereLiteral (rest cursor.old) (λ _ v. IfOk result (λ w. w.items ≡ v)) }
    ensures passes { WhereLiteral (rest cursor.old)
        (λ k _. OnOk result (Passes cursor.old cursor.new k)) }
    ensures shorter { OnOk result (remaining cursor.new < remaining cursor.old) }
    ensures within { IfOk result (λ v. length v.items ≤ max_len) }

    // What is written for a value is a literal of the value, whether or not other bytes follow.
    ensures written { CanonBegins (rest cursor.old) }
    ensures written_last { CanonAlone (rest cursor.old) }

    // The error is the first fault. `OutOfMemory` is returned only if memory is needed. A complete
    // literal fails only because of its value or because an allocation fails.
    ensures refused { IfErr result (IsRefused (rest cursor.old) max_len) }
    ensures for_value { WhereLiteral (rest cursor.old)
        (λ _ _. IfErr result (λ why. (why ≡ Value) ⊎ (why ≡ OutOfMemory))) }
    ensures unchanged { OnErr result (IsUnchanged cursor.old cursor.new) }
{
    read_string(alloc, cursor, max_len)
}

/// Reads a literal as `get_string` does. Its contract says which literal it is, or why there is
/// none; the clauses of `get_string` follow from it.
#[tactic(auto, using(crate::proofs::Refusals::begun))]
fn read_string(
    alloc: Global,
    cursor: &mut Octets<'_>,
    max_len: usize,
) -> Result<Vec<u8>, LiteralError>
    ensures value { IfOk result (λ v. (k : ℕ) × BeginsLiteral (rest cursor.old) k v.items
        × (vec_len v ≤ max_len) × Passes cursor.old cursor.new k) }
    ensures refused { IfErr result (IsRefused (rest cursor.old) max_len) }
    ensures unchanged { OnErr result (IsUnchanged cursor.old cursor.new) }
{
    let data = find_data(cursor.as_ref())?;
    let whole = data.whole;
    let value = read_value(alloc, data.huffman, data.content, max_len)?;
    cursor.skip(whole)?;
    Ok(value)
}

/// Returns the value of the data, which are Huffman-encoded if the flag is set.
fn read_value(
    alloc: Global,
    huffman: bool,
    content: &[u8],
    max_len: usize,
) -> Result<Vec<u8>, LiteralError>
    ensures value { IfOk result (λ v. IsValue huffman content.now max_len v.items) }
    ensures refused { IfErr result (IsNoValue huffman content.now max_len) }
{
    if huffman {
        huffman_value(alloc, content, max_len)
    } else {
        plain_value(alloc, content, max_len)
    }
}

/// Returns the value of Huffman-encoded data.
#[tactic(auto, using(crate::proofs::Values::values))]
fn huffman_value(alloc: Global, content: &[u8], max_len: usize) -> Result<Vec<u8>, LiteralError>
    ensures value { IfOk result (λ v. IsValue true content.now max_len v.items) }
    ensures refused { IfErr result (IsNoValue true content.now max_len) }
{
    match Octets::with_slice(content).get_huffman_decoded_with_max_length(alloc, max_len) {
        Ok(value) => Ok(value),
        Err(DecodeError::Short(_)) => Err(LiteralError::Value),
        Err(DecodeError::Memory(_)) => Err(LiteralError::OutOfMemory),
    }
}

/// Returns a copy of the data, which are the value.
#[tactic(auto, using(crate::proofs::Values::values))]
fn plain_value(alloc: Global, content: &[u8], max_len: usize) -> Result<Vec<u8>, LiteralError>
    ensures value { IfOk result (λ v. IsValue false content.now max_len v.items) }
    ensures refused { IfErr result (IsNoValue false content.now max_len) }
{
    if content.len() > max_len {
        return Err(LiteralError::Value);
    }
    Ok(Octets::with_slice(content).to_vec(alloc)?)
}
