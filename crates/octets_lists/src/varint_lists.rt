//! Records with varints of any width, in a `Vec`.
//!
//! A value has several encodings, so the values don't determine the bytes, and you can't state
//! the bytes by an equation such as `rest cursor.old ≡ ..`. Instead `AreVarints l vs m` says
//! that the list l begins with the varints of the numbers vs, followed by the list m. The
//! function names both cases of `AreVarints` in `using(..)`. The clause `short` says when the
//! error `Short` may be returned: only if fewer than n varints are complete. If the bytes begin
//! with n complete varints, this isn't so. So the function reads them, unless it returns
//! `Memory`, and it needs no `every`.
ghost use Rattle.std.specs.Prelude.{◌≡◌, ◌<◌, ℕ, List, length, IfOk};
ghost use Rattle.octets.specs.Varints.{BeginsVarint};
ghost use Rattle.octets.specs.Cursor.{rest, Advances};
ghost use Rattle.octets.specs.Decodes.{OnShort, OnMemory};
ghost use Rattle.octets_lists.specs.VarintLists.{AreVarints, LacksVarints};

use octets::{DecodeError, Octets, Result};
use std::alloc::Global;

/// Reads n varints of any width.
#[tactic(auto, using(crate::specs::VarintLists::nothing, crate::specs::VarintLists::another), unfolding(crate::specs::VarintLists::LacksVarints))]
pub fn read_varints(
    alloc: Global,
    cursor: &mut Octets<'_>,
    n: usize,
) -> std::result::Result<Vec<u64>, DecodeError>
    ensures values { IfOk result (λ vs. AreVarints (rest cursor.old) vs.items (rest cursor.new)) }
    ensures count { IfOk result (λ vs. length vs.items ≡ n) }
    ensures short { OnShort result (LacksVarints (rest cursor.old) n) }
    ensures memory { OnMemory result ((vs m : List ℕ) × (w v : ℕ)
        × AreVarints (rest cursor.old) vs m × BeginsVarint m w v × (length vs < n)) }
    ensures advances { Advances cursor.old cursor.new }
{
    let mut values = Vec::new(alloc);
    'values: while values.len() < n {
        let value = cursor.get_varint()?;
        values.push(value)?;
    }
    Ok(values)
}
