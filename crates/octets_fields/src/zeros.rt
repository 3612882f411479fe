//! A loop that looks at the next byte: it skips padding, which is bytes of zero.
//!
//! The function names both cases of the definition in `using(..)`.
ghost use Rattle.std.specs.Prelude.{◌≡◌, ◌++◌, ℕ, List, length, ◌⊎◌, ◌≢◌};
ghost use Rattle.octets.specs.Bytes.{number, part};
ghost use Rattle.octets.specs.Cursor.{rest};
ghost use Rattle.octets_fields.specs.Padding.{IsPadding};

use octets::Octets;

/// Passes bytes of zero.
#[tactic(auto, using(octets::proofs::CallerLemmas::spelled, octets::proofs::CallerLemmas::reads_rest, crate::specs::Padding::nothing, crate::specs::Padding::another))]
pub fn skip_padding(cursor: &mut Octets<'_>)
    ensures padding { (padding : List ℕ) × IsPadding padding × (rest cursor.old ≡ padding ++ rest cursor.new) }
    ensures stops { (length (rest cursor.new) ≡ 0) ⊎ (number (part (rest cursor.new) 0 1) ≢ 0) }
{
    'padding: while cursor.peek_u8() == Ok(0) {
        let _ = cursor.get_u8();
    }
}
