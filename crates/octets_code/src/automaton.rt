//! The automaton that reads codes, one bit or half a byte at a time.
//!
//! Its 256 states are the prefixes of codes that aren't codes. The numbers of the states are
//! private.

ghost use Rattle.std.specs.Prelude.{◌≡◌, ◌<◌, ◌≤◌, ◌+◌, ◌^◌, Bool, List, [], ◌∷◌, IsTrue, ◌↔◌};
ghost use Rattle.octets_code.specs.Bits.{bits_of};
ghost use Rattle.octets_code.specs.Moves.{IsMove};
ghost use Rattle.octets_code.specs.Steps.{IsFill, IsOpen, IsStep, IsOpenStep};
ghost use Rattle.std.specs.Cmp.{partial_equiv_from_equiv, bool_eq_equiv};
ghost use Rattle.std.specs.Cmp.Lexicographic.{pointwise, lists_equiv};
ghost use mathlib.Core.Bool.{beq};

mod moves;

use crate::counting::Steps;
use crate::entries::Move;
use crate::tables::fronts::FRONTS;
use moves::{bit_move, nibble_move};
use std::marker::Model;

/// The bits that were read since the last code. They are a prefix of some code, but not a code.
///
/// Contracts see a state as these bits, which are its path. Two states are equal exactly if their
/// paths are.
#[derive(Clone, Copy, Debug)]
pub struct State {
    index: u8,
}

impl Model for State {
    ghost use Rattle.std.specs.Prelude.{◌<◌, Bool, List};
    ghost use Rattle.std.proofs.Common.{ap};
    ghost use Rattle.octets_code.specs.States.{path};
    ghost use Rattle.octets_code.specs.Inverse.{index_of, index_of-path};

    ghost Value = { List Bool };

    ghost view = { λ s. path s.index };

    ghost invariant = { λ s. s.index < 256 };

    ghost inverse = { λ p. record { index = index_of p } };

    ghost inverse_ok = { λ s h. ap (λ i. record { index = i }) (index_of-path s.index h) };
}

impl PartialEq for State {
    ghost eq = { pointwise beq };

    ghost laws = { partial_equiv_from_equiv (lists_equiv bool_eq_equiv) };

    fn eq(&self, other: &State) -> bool
        // Whether the paths are equal, as a value and as a statement.
        ensures value { result ≡ pointwise beq self.now other.now }
        ensures same { IsTrue result ↔ (self.now ≡ other.now) }
    {
        self.index == other.index
    }
}

impl Eq for State {
    ghost laws = { lists_equiv bool_eq_equiv };
}

/// The result of a step over one bit or more.
#[derive(Clone, Copy, Debug, PartialEq, Eq)]
pub enum Step {
    /// No code was completed. The state has all bits since the last code.
    On(State),
    /// The code of this byte was completed. The state has the bits after it.
    Byte(State, u8),
    /// The end code was completed, which RFC 7541 calls EOS.
    End,
}

/// The step of a move of the tables, from whatever path over whatever bits it leads.
#[inline(always)]
fn step_of(read: Move) -> Step
    ensures { (p x : List Bool) → IsMove p x read → IsStep p x result × IsOpenStep result }
{
    match read {
        Move::On(index) => Step::On(State { index }),
        Move::Byte(index, byte) => Step::Byte(State { index }, byte),
        Move::End => Step::End,
    }
}

impl State {
    /// Returns the state at the start, which has no bits.
    pub fn root() -> State
        ensures path { result ≡ [] }
        ensures open { IsOpen result }
    {
        State { index: 0 }
    }

    /// Returns the state whose path is the number `bits`, written in `len` bits. `len` must be at
    /// most three, and `bits` must be below 2 to the power `len`. Each code has more bits than
    /// that, so any three bits are a prefix of a code.
    #[inline(always)]
    pub fn of_front(len: u8, bits: u8) -> State
        requires few { len ≤ 3 }
        requires small { bits < 2 ^ len }
        ensures path { result ≡ bits_of len bits }
        ensures open { IsOpen result }
    {
        // A one bit before the others keeps paths of different lengths apart, such as 0 and 00.
        State {
            index: FRONTS[(1 << len | bits) as usize],
        }
    }

    /// Returns whether the path is 0 to 7 one bits, with which a text may end (RFC 7541, section
    /// 5.2, calls them padding).
    #[inline(always)]
    pub fn is_fill(&self) -> bool
        ensures fill { IsTrue result ↔ IsFill self.now }

        // The path of every state is open, by its type. A caller's proof may need to know that.
        ensures open { IsOpen self.now }
    {
        // The states of 0 to 7 one bits have the first numbers, so that no table is read.
        self.index < 8
    }

    /// Takes a step over one bit. It is meant for tests; a decoder uses [`State::step`].
    pub fn step_bit(self, bit: bool) -> Step
        ensures moves { IsStep self (bit ∷ []) result }
        ensures from { IsOpen self }
        ensures open { IsOpenStep result }
    {
        step_of(bit_move(self.index, bit))
    }

    /// Takes a step over the four bits of `nibble`, the most significant first, and adds one to
    /// `steps`. `nibble` must be below 16, and the count below 2 to the power 128, less one.
    ///
    /// Each code has at least 5 bits, so a step completes at most one.
    #[inline(always)]
    pub fn step(self, nibble: u8, steps: &mut Steps) -> Step
        requires small { nibble < 16 }
        requires room { steps.old + 1 < 2 ^ 128 }
        ensures moves { IsStep self (bits_of 4 nibble) result }
        ensures from { IsOpen self }
        ensures open { IsOpenStep result }
        ensures counted { steps.new ≡ steps.old + 1 }
    {
        steps.add_one();
        step_of(nibble_move(self.index, nibble))
    }
}
