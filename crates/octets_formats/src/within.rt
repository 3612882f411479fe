//! A reader that takes another reader, as `length_value` of the crate `nom` does.
//!
//! The contract has to say what the closure returns, without knowing it. For a type parameter F
//! with a bound `FnOnce`, `F.post read view result` says that `result` is something that `read`
//! may return for `view`, and `F.IsAlwaysCallable read` that `read` may be called with every
//! argument. The kit's page `CLOSURES.md` describes these and others. The caller `read_long`
//! passes a closure, and its contract says the same as if it called `get_u32` itself.
//!
//! The checker finds no proof of the clause `read`, because it would have to guess the view. So
//! `proofs/within/read_within/Answers.antt` names it: `c.in_ok-view.view` is the view that
//! `get_bytes_with_u8_length` returned, and the other two parts are what the clauses of that
//! call and of `read` say.
ghost use Rattle.std.specs.Prelude.{◌≡◌, ◌↔◌, ◌+◌, ◌≤◌, ◌<◌, length, IsOk, IfOk, OnOk, OnErr, IsErr};
ghost use Rattle.octets.specs.Bytes.{number, part};
ghost use Rattle.octets.specs.Cursor.{rest, Passes, Advances};
ghost use Rattle.octets_formats.specs.Views.{HoldsOfView};

use octets::{Octets, Result};

/// Reads a length of one byte, and calls `read` with a view of as many bytes.
pub fn read_within<'a, T: Drop, F: Drop + FnOnce(Octets<'a>) -> Result<T>>(
    cursor: &mut Octets<'a>,
    read: F,
) -> Result<T>
    requires { F.IsAlwaysCallable read }
    ensures short { length (rest cursor.old) < 1 + number (part (rest cursor.old) 0 1) → IsErr result }
    ensures read { 1 + number (part (rest cursor.old) 0 1) ≤ length (rest cursor.old)
        → HoldsOfView (part (rest cursor.old) 1 (number (part (rest cursor.old) 0 1)))
        (λ view. F.post read view result) }
    ensures passes { 1 + number (part (rest cursor.old) 0 1) ≤ length (rest cursor.old)
        → Passes cursor.old cursor.new (1 + number (part (rest cursor.old) 0 1)) }
    ensures advances { Advances cursor.old cursor.new }
{
    let view = cursor.get_bytes_with_u8_length()?;
    read(view)
}

/// Reads a length of one byte, and a number of four bytes, which may be followed by others.
pub fn read_long(cursor: &mut Octets<'_>) -> Result<u32>
    ensures fits { IsOk result ↔ ((4 ≤ number (part (rest cursor.old) 0 1))
        × (1 + number (part (rest cursor.old) 0 1) ≤ length (rest cursor.old))) }
    ensures value { IfOk result (λ n. n ≡ number (part (rest cursor.old) 1 4)) }
    ensures passes { OnOk result (Passes cursor.old cursor.new (1 + number (part (rest cursor.old) 0 1))) }
    ensures advances { OnErr result (Advances cursor.old cursor.new) }
{
    read_within(cursor, |mut view| view.get_u32())
}
