//! Records of two varints, as the settings in HTTP/3's SETTINGS frame.
//!
//! A function of its own reads one setting. `AreSettings l ps m` says that the list l begins
//! with the settings ps, followed by the list m. `read_settings` reads to the end of the
//! buffer, so you pass it a view of the payload. To keep the example short, its contract says
//! nothing about the error `Memory`. So a function that always returns `Memory` would be proved
//! too. In a contract of your own, add a clause such as `memory` of
//! `varint_lists::read_varints`, and test that the call succeeds.
//!
//! For records with other fields, change the two premises of `another` and the length `w + u`
//! to what your function's clause `value` says.
ghost use Rattle.std.specs.Prelude.{◌≡◌, ◌+◌, ◌<◌, ℕ, [], length, drop, IsOkAnd, IfOk, OnOk, OnErr};
ghost use Rattle.octets.specs.Varints.{BeginsVarint};
ghost use Rattle.octets.specs.Cursor.{rest, Passes, Advances};
ghost use Rattle.octets.specs.Decodes.{OnShort};
ghost use Rattle.octets_lists.specs.Settings.{AreSettings, EndsInSetting, LacksSetting};

use octets::{DecodeError, Octets, Result};
use std::alloc::Global;

/// Reads a setting: an identifier and a value.
#[tactic(auto, using(octets::proofs::CallerLemmas::passes_more), unfolding(crate::specs::Settings::LacksSetting))]
pub fn read_setting(cursor: &mut Octets<'_>) -> Result<(u64, u64)>
    ensures value { IfOk result (λ s. (w u : ℕ) × BeginsVarint (rest cursor.old) w s.0
        × BeginsVarint (drop w (rest cursor.old)) u s.1 × Passes cursor.old cursor.new (w + u)) }
    ensures every { (w u i v : ℕ) → BeginsVarint (rest cursor.old) w i
        → BeginsVarint (drop w (rest cursor.old)) u v
        → IsOkAnd result (λ s. (s.0 ≡ i) × (s.1 ≡ v)) × Passes cursor.old cursor.new (w + u) }
    ensures refused { OnErr result (LacksSetting (rest cursor.old)) }
    ensures shorter { OnOk result (length (rest cursor.new) < length (rest cursor.old)) }
    ensures advances { Advances cursor.old cursor.new }
{
    Ok((cursor.get_varint()?, cursor.get_varint()?))
}

/// Reads settings up to the end of the buffer.
#[tactic(auto, using(crate::specs::Settings::nothing, crate::specs::Settings::another), unfolding(crate::specs::Settings::EndsInSetting))]
pub fn read_settings(
    alloc: Global,
    cursor: &mut Octets<'_>,
) -> std::result::Result<Vec<(u64, u64)>, DecodeError>
    ensures settings { IfOk result (λ ps. AreSettings (rest cursor.old) ps.items []) }
    ensures short { OnShort result (EndsInSetting (rest cursor.old)) }
    ensures ends { OnOk result (rest cursor.new ≡ []) }
{
    let mut settings = Vec::new(alloc);
    'settings: while cursor.cap() > 0 {
        let setting = read_setting(cursor)?;
        settings.push(setting)?;
    }
    Ok(settings)
}
