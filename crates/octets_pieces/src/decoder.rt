//! The decoder, and its state between two pieces.

ghost use Rattle.std.specs.Prelude.{◌≡◌, ◌+◌, ◌-◌, ◌*◌, ◌<◌, ◌≤◌, ◌⊎◌, ◌↔◌, ◌++◌, [], length, take};
ghost use Rattle.std.specs.Prelude.{drop, false, IsTrue, IfOk, IfErr, IsOk};
ghost use Rattle.octets_code.specs.States.{path};
ghost use Rattle.octets_code.specs.Steps.{IsFill};
ghost use Rattle.octets_pieces.specs.Pieces.{HasRead, IsTooMuch, StopsForRoom, StopsForEnd};
ghost use Rattle.octets_pieces.specs.Pieces.{bytes_of_step};

use crate::byte_step::{ByteStep, step_byte};
use crate::error::{EosError, IncompleteError};
use std::marker::Model;

/// A Huffman decoder of an encoding that comes in pieces. It keeps the bits that were read since
/// the last code, as one byte.
///
/// Contracts see it as these bits.
#[derive(Clone, Copy, Debug)]
pub struct Decoder {
    index: u8,
}

impl Model for Decoder {
    ghost use Rattle.std.specs.Prelude.{◌<◌, Bool, List};
    ghost use Rattle.std.proofs.Common.{ap};
    ghost use Rattle.octets_code.specs.States.{path};
    ghost use Rattle.octets_code.specs.Inverse.{index_of, index_of-path};

    ghost Value = { List Bool };

    ghost view = { λ d. path d.index };

    ghost invariant = { λ d. d.index < 256 };

    ghost inverse = { λ p. record { index = index_of p } };

    ghost inverse_ok = { λ d h. ap (λ i. record { index = i }) (index_of-path d.index h) };
}

/// How far a decode of a piece came.
#[derive(Clone, Copy, Debug, PartialEq, Eq)]
pub struct Progress {
    /// How many bytes of the piece were read.
    pub read: usize,
    /// How many bytes were written.
    pub written: usize,
}

/// Writes the bytes of `step` from the position `at` on, if there is space for them.
///
/// While there is space for two bytes, it makes two writes, whatever the number of bytes: this
/// can't be predicted, and a branch that is predicted wrongly takes longer. The second write may
/// repair what the first one did.
#[inline(always)]
fn put_step(out: &mut [u8], at: usize, step: ByteStep) -> bool
    requires inside { at ≤ length out.old }
    requires few { step.count ≤ 2 }
    ensures len { length out.new ≡ length out.old }
    ensures fits { IsTrue result → at + step.count ≤ length out.old }
    ensures taken { IsTrue result → take (at + step.count) out.new
        ≡ take at out.old ++ bytes_of_step step }
    ensures behind { IsTrue result → drop (at + step.count) out.new
        ≡ drop (at + step.count) out.old }
    ensures same { result ≡ false → out.new ≡ out.old }
    ensures full { result ≡ false → length out.old < at + step.count }
{
    if out.len() - at < 2 {
        if step.count > out.len() - at {
            return false;
        }
        if step.count == 1 {
            out[at] = step.first;
        }
        return true;
    }
    let old = out[at];
    out[at] = step.first;
    out[at + step.count / 2] = [old, step.first, step.second][step.count];
    true
}

impl Decoder {
    /// Writes as many of the bytes that `byte` completes as fit behind the position `at`, where it
    /// completes more. It doesn't read `byte`.
    pub(crate) fn fill(&self, byte: u8, out: &mut [u8], at: usize)
        requires inside { at ≤ length out.old }
        requires more { IsTooMuch self.now byte (length out.old - at) }
        ensures { (m : IsTooMuch self.now byte (length out.old - at))
            → out.new ≡ take at out.old ++ take (length out.old - at) m.value }
    {
        let Some(both) = step_byte(self.index, byte) else {
            return;
        };
        if at < out.len() {
            out[at] = both.first;
        }
    }

    /// Returns a decoder that has read nothing.
    pub fn new() -> Decoder
        ensures { result ≡ [] }
    {
        Decoder { index: 0 }
    }

    /// Returns the decoder whose state is the byte `state`. Each byte is a state, and 0 is that of
    /// a decoder that has read nothing.
    pub fn of_byte(state: u8) -> Decoder
        ensures { result ≡ path state }
    {
        Decoder { index: state }
    }

    /// Returns the state as a byte, for a caller that can store only that.
    pub fn to_byte(&self) -> u8
        ensures { path result ≡ self.now }
    {
        self.index
    }

    /// Reads whole bytes of `piece`, and writes the bytes whose codes they complete to the
    /// beginning of `out`.
    ///
    /// It stops before a byte that completes more bytes than `out` has space for. A byte completes
    /// at most two, so it reads all of `piece` if space for two bytes remains. It stops with an
    /// error before the byte in which EOS ends; the decoder has then read what came before this
    /// byte, and a decode that continues with this byte fails again.
    pub fn decode(&mut self, piece: &[u8], out: &mut [u8]) -> Result<Progress, EosError>
        // The codes that the bytes complete, after the bits that were left before, are those of the
        // bytes that were written. The other bytes of `out` are unchanged. All bytes were read, or
        // the next one completes more bytes than there is space for.
        ensures read { IfOk result (λ p. HasRead self.old self.new piece.now out.old out.new
            p.read p.written) }
        ensures stopped { IfOk result (λ p. (p.read ≡ length piece.now)
            ⊎ StopsForRoom self.new piece.now p.read (length out.old - p.written)) }

        // If there is space for two bytes, it reads on. It writes at most two bytes for each byte.
        ensures all { IfOk result (λ p. p.written + 2 ≤ length out.old
            → p.read ≡ length piece.now) }
        ensures few { IfOk result (λ p. p.written ≤ 2 * p.read) }
        ensures moves { IfOk result (λ p. 2 ≤ length out.old → 0 < length piece.now
            → 0 < p.read) }

        // The same is true of the bytes before the one in which EOS ends.
        ensures before { IfErr result (λ e. HasRead self.old self.new piece.now out.old out.new
            e.read e.written) }
        ensures end { IfErr result (λ e. StopsForEnd self.new piece.now e.read) }
        ensures few_before { IfErr result (λ e. e.written ≤ 2 * e.read) }
    {
        let mut written = 0;
        for (read, byte) in piece.iter().enumerate() {
            let Some(step) = step_byte(self.index, *byte) else {
                return Err(EosError { read, written });
            };
            if !put_step(out, written, step) {
                return Ok(Progress { read, written });
            }
            written += step.count;
            self.index = step.index;
        }
        Ok(Progress {
            read: piece.len(),
            written,
        })
    }

    /// Returns `Ok` exactly if the encoding may end here: the bits that remain are 0 to 7 one bits.
    pub fn finish(&self) -> Result<(), IncompleteError>
        ensures { IsOk result ↔ IsFill self.now }
    {
        let fill = self.index < 8;
        if fill { Ok(()) } else { Err(IncompleteError) }
    }
}
