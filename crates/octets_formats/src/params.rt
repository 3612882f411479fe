//! A record of varints whose error is stated: an id, a length and a value, as QUIC's transport
//! parameters.
//!
//! In a function that reads a parameter, a clause `refused` is unproved, because
//! `get_bytes_with_varint_length` can fail in several ways. So there are two functions. The
//! first reads the parameter, and states `fits`. The second only calls the first, and states
//! `refused`. The proof of `refused` uses the clause `fits` of the first function. (A proof
//! can't use the other clauses of its own function.) `read_param` expands the first definition,
//! and `take_param` the second. `next_param` looks ahead.
ghost use Rattle.std.specs.Prelude.{◌≡◌, ◌↔◌, ◌+◌, ◌≤◌, ℕ, List, length, drop, IsOk, IsOkAnd, IfOk, OnErr};
ghost use Rattle.octets.specs.Varints.{BeginsVarint};
ghost use Rattle.octets.specs.Cursor.{bytes, position, rest, IsUnchanged, Passes};
ghost use Rattle.octets_formats.specs.Params.{BeginsParam, LacksParam};

use octets::{Octets, Result};

/// Reads the id and the value of a parameter.
#[tactic(auto, unfolding(crate::specs::Params::BeginsParam))]
fn read_param<'a>(cursor: &mut Octets<'a>) -> Result<(u64, Octets<'a>)>
    ensures value { IfOk result (λ p. (n : ℕ) × BeginsParam (rest cursor.old) p.0 (bytes p.1) n
        × (position p.1 ≡ 0) × Passes cursor.old cursor.new n) }
    ensures every { (id n : ℕ) (v : List ℕ) → BeginsParam (rest cursor.old) id v n
        → IsOkAnd result (λ p. (p.0 ≡ id) × (bytes p.1 ≡ v)) }
    ensures fits { (i j id len : ℕ) → BeginsVarint (rest cursor.old) i id
        → BeginsVarint (drop i (rest cursor.old)) j len
        → IsOk result ↔ (i + j + len ≤ length (rest cursor.old)) }
{
    Ok((cursor.get_varint()?, cursor.get_bytes_with_varint_length()?))
}

/// Does the same, and says which bytes it rejects.
#[tactic(auto, unfolding(crate::specs::Params::LacksParam))]
fn take_param<'a>(cursor: &mut Octets<'a>) -> Result<(u64, Octets<'a>)>
    ensures value { IfOk result (λ p. (n : ℕ) × BeginsParam (rest cursor.old) p.0 (bytes p.1) n
        × (position p.1 ≡ 0) × Passes cursor.old cursor.new n) }
    ensures every { (id n : ℕ) (v : List ℕ) → BeginsParam (rest cursor.old) id v n
        → IsOkAnd result (λ p. (p.0 ≡ id) × (bytes p.1 ≡ v)) }
    ensures refused { OnErr result (LacksParam (rest cursor.old)) }
{
    read_param(cursor)
}

/// Reads a parameter, and leaves the cursor unchanged if it fails.
pub fn next_param<'a>(cursor: &mut Octets<'a>) -> Result<(u64, Octets<'a>)>
    ensures value { IfOk result (λ p. (n : ℕ) × BeginsParam (rest cursor.old) p.0 (bytes p.1) n
        × (position p.1 ≡ 0) × Passes cursor.old cursor.new n) }
    ensures every { (id n : ℕ) (v : List ℕ) → BeginsParam (rest cursor.old) id v n
        → IsOkAnd result (λ p. (p.0 ≡ id) × (bytes p.1 ≡ v)) }
    ensures refused { OnErr result (LacksParam (rest cursor.old)) }
    ensures unchanged { OnErr result (IsUnchanged cursor.old cursor.new) }
{
    let mut ahead = cursor.peek_bytes(cursor.cap())?;
    let param = take_param(&mut ahead)?;
    cursor.skip(ahead.off())?;
    Ok(param)
}
