//! A step of the automaton over a whole byte, which has no branch but for the end code.
//!
//! A state is its number in `octets_code`, whose path is the bits since the last code.

ghost use Rattle.std.specs.Prelude.{◌≡◌, ◌<◌, ◌≤◌, ◌++◌, IfSome, IfNone};
ghost use Rattle.octets_code.specs.Bits.{bits_of};
ghost use Rattle.octets_code.specs.States.{path};
ghost use Rattle.octets_pieces.specs.Pieces.{IsHalf, IsByteStep, BeginsEnd};

use crate::tables::halves::HALVES;

/// What a half byte completes.
#[derive(Clone, Copy)]
pub(crate) struct Half {
    /// The number of the next state.
    pub(crate) index: u8,
    /// The byte whose code was completed.
    pub(crate) byte: u8,
    /// How many codes were completed, 0 or 1; or 3 for the end code.
    pub(crate) count: usize,
}

/// What a byte completes after the bits that remained before it.
#[derive(Clone, Copy)]
pub(crate) struct ByteStep {
    /// The number of the next state.
    pub(crate) index: u8,
    /// The byte whose code was completed first.
    pub(crate) first: u8,
    /// The byte whose code was completed second.
    pub(crate) second: u8,
    /// How many codes were completed, at most two.
    pub(crate) count: usize,
}

/// Takes the step over the four bits of `half`.
#[inline(always)]
fn step_half(index: u8, half: u8) -> Half
    requires small { half < 16 }
    ensures { IsHalf (path index) (bits_of 4 half) result.index result.byte result.count }
{
    let entry = HALVES[index as usize * 16 + half as usize];
    Half {
        index: (entry % 256) as u8,
        byte: (entry / 256 % 256) as u8,
        count: (entry / 65536) as usize,
    }
}

/// Takes the step over the eight bits of `byte`, and returns `None` if they complete the end code.
#[inline(always)]
pub(crate) fn step_byte(index: u8, byte: u8) -> Option<ByteStep>
    ensures step { IfSome result (IsByteStep (path index) (bits_of 8 byte)) }
    ensures few { IfSome result (λ s. s.count ≤ 2) }
    ensures end { IfNone result (BeginsEnd (path index ++ bits_of 8 byte)) }
{
    let high = step_half(index, byte / 16);
    let low = step_half(high.index, byte % 16);
    let count = high.count + low.count;
    if count > 2 {
        return None;
    }
    Some(ByteStep {
        index: low.index,
        first: if high.count == 1 { high.byte } else { low.byte },
        second: low.byte,
        count,
    })
}
