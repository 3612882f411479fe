//! The call that reads literals one after another.
ghost use Rattle.std.specs.Prelude.{◌≡◌, ℕ, ◌≤◌, List, [], length, map, All};
ghost use Rattle.std.specs.Prelude.{IfOk, IfErr, IsOkAnd, OnOk, MatchResult};
ghost use Rattle.octets.specs.Cursor.{bytes, rest};
ghost use Rattle.octets_literal.specs.Literals.{AreLiterals};
ghost use Rattle.octets_literal.specs.Faults.{StopsAt};
ghost use Rattle.octets_literal.specs.declared.error.LiteralError.TheVariants.{OutOfMemory};

use crate::error::LiteralError;
use crate::get::get_string;
use crate::memory::append;
use octets::Octets;
use std::alloc::Global;

/// Reads string literals up to the end of the buffer. The value of each may have at most `max_len`
/// bytes.
///
/// If the call fails at a literal, it leaves the offset before that literal. If the list of values
/// can't grow, it leaves the offset after the literal whose value didn't fit.
///
/// ```
/// let mut cursor = Octets::with_slice(&[1, 97, 1, 98]);
/// assert_eq!(get_strings(alloc, &mut cursor, 9)?.len(), 2);
/// ```
#[tactic(auto, using(crate::proofs::Lists::lists))]
pub fn get_strings(
    alloc: Global,
    cursor: &mut Octets<'_>,
    max_len: usize,
) -> Result<Vec<Vec<u8>>, LiteralError>
    // The result is `Ok` exactly if the rest is literals of values within the limit, unless an
    // allocation fails.
    ensures values { IfOk result
        (λ vs. AreLiterals (rest cursor.old) (map (λ v. v.items) vs.items) []) }
    ensures within { IfOk result (λ vs. All (λ v. length v.items ≤ max_len) vs.items) }
    ensures every { (vs : List (List ℕ)) → AreLiterals (rest cursor.old) vs []
        → All (λ v. length v ≤ max_len) vs
        → MatchResult result (λ ws. map (λ w. w.items) ws.items ≡ vs) (λ why. why ≡ OutOfMemory) }
    ensures empty { rest cursor.old ≡ [] → IsOkAnd result (λ vs. vs.items ≡ []) }

    // Literals of the values vs are read as vs, and the offset is then at the end.
    ensures one { (vs : List (List ℕ)) → AreLiterals (rest cursor.old) vs []
        → IfOk result (λ ws. map (λ w. w.items) ws.items ≡ vs) }
    ensures passed { OnOk result (rest cursor.new ≡ []) }

    // The offset is after literals of such values. Either a read of what follows fails, or the list
    // couldn't grow for the last value, since a request for memory was refused.
    ensures refused { IfErr result (StopsAt (rest cursor.old) (rest cursor.new) max_len) }
    ensures same_bytes { bytes cursor.new ≡ bytes cursor.old }
{
    let mut values = Vec::new(alloc);
    'literals: while cursor.cap() > 0 {
        let value = get_string(alloc, cursor, max_len)?;
        if append(&mut values, value).is_err() {
            return Err(LiteralError::OutOfMemory);
        }
    }
    Ok(values)
}
