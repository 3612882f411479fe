//! A list of decoded values. It shows `?` for the decode and for the list.
ghost use Rattle.std.specs.Prelude.{◌≡◌, ◌⊎◌, [], ◌∷◌, map, IfOk, IsOkAnd};
ghost use Rattle.octets_code.specs.Texts.{text};
ghost use Rattle.octets.specs.Decodes.{OnShort, UnlessMemory, WhereText};
ghost use Rattle.octets_vectors.specs.Answers.{IsNoText};

use octets::{DecodeError, Octets};
use std::alloc::Global;

/// Returns the values of two Huffman-encoded strings, in order.
///
/// The call fails with `Short` if a string isn't the Huffman encoding of a value, and with `Memory`
/// if an allocation fails. The strings are decoded in order, and the first error is returned.
pub fn decode_both(alloc: Global, first: &[u8], second: &[u8]) -> Result<Vec<Vec<u8>>, DecodeError>
    // The result is `Ok` if and only if both strings are the encoding of a value, unless an
    // allocation failed.
    ensures values { IfOk result
        (λ vs. map (λ v. text v.items) vs.items ≡ first.now ∷ second.now ∷ []) }
    ensures every { WhereText first.now (λ v. WhereText second.now (λ w. UnlessMemory result
        (IsOkAnd result (λ vs. map (λ v. v.items) vs.items ≡ v ∷ w ∷ [])))) }
    ensures short { OnShort result (IsNoText first.now ⊎ IsNoText second.now) }
{
    let mut values = Vec::new(alloc);
    values.push(Octets::with_slice(first).get_huffman_decoded(alloc)?)?;
    values.push(Octets::with_slice(second).get_huffman_decoded(alloc)?)?;
    Ok(values)
}
