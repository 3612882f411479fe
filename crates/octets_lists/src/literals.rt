//! String literals of HPACK: two of them, one after the other.
//!
//! `BeginsLiteral l k v` says that the first `k` bytes of `l` are a literal of `v`, in any form of its
//! length, and with or without Huffman encoding. The definition is opaque: the checker doesn't expand
//! it. Therefore it also finds proofs of clauses about every literal at the early return of a `?`.
ghost use Rattle.std.specs.Prelude.{◌≡◌, ◌+◌, ◌≤◌, ℕ, List, drop, length, OnOk, MatchResult};
ghost use Rattle.octets.specs.Cursor.{rest, Passes};
ghost use Rattle.octets_literal.specs.Literals.{BeginsLiteral};
ghost use Rattle.octets_literal.specs.declared.error.LiteralError.TheVariants.{OutOfMemory};

use octets::Octets;
use octets_literal::{LiteralError, get_string};
use std::alloc::Global;

/// Reads a name and a value, each of at most `max` bytes.
pub fn read_two(
    alloc: Global,
    cursor: &mut Octets<'_>,
    max: usize,
) -> Result<(Vec<u8>, Vec<u8>), LiteralError>
    ensures every { (i j : ℕ) (u v : List ℕ) → BeginsLiteral (rest cursor.old) i u
        → BeginsLiteral (drop i (rest cursor.old)) j v
        → length u ≤ max → length v ≤ max
        → MatchResult result (λ r. (r.0.items ≡ u) × (r.1.items ≡ v)) (λ e. e ≡ OutOfMemory) }
    ensures passes { (i j : ℕ) (u v : List ℕ) → BeginsLiteral (rest cursor.old) i u
        → BeginsLiteral (drop i (rest cursor.old)) j v
        → OnOk result (Passes cursor.old cursor.new (i + j)) }
{
    let name = get_string(alloc, cursor, max)?;
    let value = get_string(alloc, cursor, max)?;
    Ok((name, value))
}
