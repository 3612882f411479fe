//! Claims that are tried on small inputs, before a proof of a clause is looked for.
//!
//! Each function has an empty body, and its contract is the claim for a few values. If you
//! write `2 ∷ 1 ∷ []` instead of `1 ∷ 2 ∷ []` in `example`, the check fails, and its message
//! adds `the facts known there allow values at which this goal is false`. To try a clause of a
//! reader, replace `result` by a parameter `r`, and `rest cursor.old` by a list l. A `requires`
//! states the result, and a premise states the bytes of l.
ghost use Rattle.std.specs.Prelude.{◌≡◌, ◌↔◌, ◌≤◌, ℕ, List, [], length, IsOk, IfOk, ◌∷◌, Ok, IsErr};
ghost use Rattle.octets.specs.Bytes.{network, number, part};

use octets::Result;

/// The number 258 in two bytes.
#[tactic(auto, unfolding(octets::specs::Bytes::network))]
pub fn example()
    ensures { network 2 258 ≡ 1 ∷ 2 ∷ [] }
{}

/// A value by its position.
pub fn example_of_a_value(r: Result<u16>)
    requires { r ≡ Ok 53 }
    ensures { (l : List ℕ) → l ≡ 48 ∷ 57 ∷ 0 ∷ 53 ∷ [] → IfOk r (λ n. n ≡ number (part l 2 2)) }
{}

/// An error, because two of four bytes are missing.
pub fn example_of_an_error(r: Result<u16>)
    requires { IsErr r }
    ensures { (l : List ℕ) → l ≡ 48 ∷ 57 ∷ [] → IsOk r ↔ (4 ≤ length l) }
{}
