//! A function that names a lemma of its own crate, and the same function with a hand-written proof.
//!
//! The lemma `reads_pair` in `proofs/PairReads.antt` is about a cursor over any buffer: `Cursor X g` is a
//! cursor whose buffer has the type X and the ghost members g.
ghost use Rattle.std.specs.Prelude.{◌≤◌, ◌↔◌, ◌++◌, length, IsOk, IfOk};
ghost use Rattle.octets.specs.Bytes.{network};
ghost use Rattle.octets.specs.Cursor.{rest, Reads};

use octets::{Octets, Result};

/// Reads two numbers.
#[tactic(auto, using(crate::proofs::PairReads::reads_pair))]
pub fn read_pair(cursor: &mut Octets<'_>) -> Result<(u16, u32)>
    ensures fits { IsOk result ↔ (6 ≤ length (rest cursor.old)) }
    ensures spelled { IfOk result (λ p. Reads cursor.old cursor.new (network 2 p.0 ++ network 4 p.1)) }
{
    let first = cursor.get_u16()?;
    let second = cursor.get_u32()?;
    Ok((first, second))
}

/// Does the same. `proofs/pairs/read_pair_by_hand/Answers.antt` has a term for a goal.
pub fn read_pair_by_hand(cursor: &mut Octets<'_>) -> Result<(u16, u32)>
    ensures fits { IsOk result ↔ (6 ≤ length (rest cursor.old)) }
    ensures spelled { IfOk result (λ p. Reads cursor.old cursor.new (network 2 p.0 ++ network 4 p.1)) }
{
    let first = cursor.get_u16()?;
    let second = cursor.get_u32()?;
    Ok((first, second))
}
