//! Text in UTF-8 after its length, as in MQTT (version 5.0, section 1.5.4).
//!
//! The kit's function `str::from_utf8` returns a run as a `&str`, or an error if it isn't valid
//! UTF-8. `IsUtf8 b` says that the bytes b are valid UTF-8. The clause `invalid` ends with
//! `→ ⊥` ("never"): if the error is `NotUtf8`, the bytes of the run are not valid UTF-8.
ghost use Rattle.std.specs.Prelude.{◌≡◌, ◌↔◌, ◌+◌, ◌<◌, ◌^◌, ◌++◌, ℕ, List, length, IsOkAnd, IfOk, IsErrOf};
ghost use Rattle.octets.specs.Bytes.{network, number, part};
ghost use Rattle.octets.specs.Cursor.{rest};
ghost use Rattle.std.specs.Str.{IsUtf8};
ghost use Rattle.octets_fields.specs.declared.utf8.TextError.TheVariants as TextErrors;

use octets::{BufferTooShortError, Octets, Result};

/// Why no text was read.
#[derive(Clone, Copy, Debug, PartialEq, Eq)]
pub enum TextError {
    /// More bytes are needed.
    Short,
    /// The text isn't UTF-8.
    NotUtf8,
}

impl From<BufferTooShortError> for TextError {
    ghost from_gives = { λ _ r. r ≡ TextErrors.Short };

    fn from(_: BufferTooShortError) -> TextError {
        TextError::Short
    }
}

/// Reads a text after its length.
#[tactic(auto, using(octets::proofs::CallerLemmas::parts))]
pub fn read_utf8<'a>(cursor: &mut Octets<'a>) -> std::result::Result<&'a str, TextError>
    ensures text { IfOk result (λ text. text.now ≡ part (rest cursor.old) 2 (number (part (rest cursor.old) 0 2))) }
    ensures valid { IfOk result (λ text. IsUtf8 text.now) }
    ensures short { IsErrOf result TextErrors.Short
        ↔ (length (rest cursor.old) < 2 + number (part (rest cursor.old) 0 2)) }
    ensures invalid { IsErrOf result TextErrors.NotUtf8
        → IsUtf8 (part (rest cursor.old) 2 (number (part (rest cursor.old) 0 2))) → ⊥ }
    ensures every { (text after : List ℕ) → length text < 2 ^ 16 → IsUtf8 text
        → rest cursor.old ≡ network 2 (length text) ++ text ++ after
        → IsOkAnd result (λ r. r.now ≡ text) × (rest cursor.new ≡ after) }
{
    let bytes = cursor.get_bytes_with_u16_length()?.buf();
    std::str::from_utf8(bytes).map_err(|_| TextError::NotUtf8)
}
