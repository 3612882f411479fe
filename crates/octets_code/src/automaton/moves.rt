//! One move of the automaton, read from its tables.

ghost use Rattle.std.specs.Prelude.{◌<◌, [], ◌∷◌};
ghost use Rattle.octets_code.specs.Bits.{bits_of};
ghost use Rattle.octets_code.specs.Moves.{IsMove};
ghost use Rattle.octets_code.specs.States.{path};

use crate::entries::Move;
use crate::tables::bit_moves::BIT_MOVES;
use crate::tables::nibble_moves::NIBBLE_MOVES;

/// The move from the state with the number `index` over one bit.
pub(super) fn bit_move(index: u8, bit: bool) -> Move
    ensures { IsMove (path index) (bit ∷ []) result }
{
    BIT_MOVES[index as usize][bit as usize]
}

/// The move from the state with the number `index` over the four bits of `nibble`.
#[inline(always)]
pub(super) fn nibble_move(index: u8, nibble: u8) -> Move
    requires { nibble < 16 }
    ensures { IsMove (path index) (bits_of 4 nibble) result }
{
    NIBBLE_MOVES[index as usize][nibble as usize]
}
