//! A sink that remembers its pieces.
ghost use Rattle.std.specs.Prelude.{◌≡◌, ◌≤◌, [], IfOk, vec_len, vec_capacity};

use octets::{BufferTooShortError, OctetsWriter};
use std::alloc::{AllocError, Global};
use std::marker::Model;

/// A sink that keeps the bytes and the length of each piece, up to a limit for each. Its `room` is
/// unknown, since it depends on the pieces, and it is whole.
#[derive(Debug, Drop)]
pub struct PieceSink {
    bytes: Vec<u8>,
    pieces: Vec<usize>,
    most_bytes: usize,
    most_pieces: usize,
}

impl Model for PieceSink {
    ghost use Rattle.std.specs.Prelude.{◌≤◌, vec_len, vec_capacity};
    ghost use Rattle.octets_vectors.specs.Sinks.{Pieces};

    ghost Value = { Pieces };

    ghost view = { λ s. record {
      bytes = s.bytes.items;
      lengths = s.pieces.items;
      most_bytes = s.most_bytes;
      most_pieces = s.most_pieces;
    } };

    ghost invariant = { λ s.
        (vec_len s.bytes ≤ s.most_bytes) × (s.most_bytes ≤ vec_capacity s.bytes)
        × (vec_len s.pieces ≤ s.most_pieces) × (s.most_pieces ≤ vec_capacity s.pieces) };
}

impl PieceSink {
    /// Returns a sink for at most `bytes` bytes in at most `pieces` pieces. It allocates the memory
    /// for both, and fails if that fails. Later calls allocate nothing.
    pub fn new(alloc: Global, bytes: usize, pieces: usize) -> Result<PieceSink, AllocError>
        ensures { IfOk result (λ s. s ≡ record {
          bytes = [];
          lengths = [];
          most_bytes = bytes;
          most_pieces = pieces;
        }) }
    {
        Ok(PieceSink {
            bytes: Vec::with_capacity(alloc, bytes)?,
            pieces: Vec::with_capacity(alloc, pieces)?,
            most_bytes: bytes,
            most_pieces: pieces,
        })
    }

    /// Returns the bytes that were kept.
    pub fn bytes(&self) -> &[u8]
        ensures { result.now ≡ self.now.bytes }
    {
        self.bytes.as_slice()
    }

    /// Returns how many bytes each piece had.
    pub fn pieces(&self) -> &[usize]
        ensures { result.now ≡ self.now.lengths }
    {
        self.pieces.as_slice()
    }
}

impl OctetsWriter for PieceSink {
    ghost use Rattle.std.specs.Prelude.{◌≡◌, ◌+◌, ◌<◌, ◌≤◌, ◌↔◌, ◌++◌, [], ◌∷◌, None, true};
    ghost use Rattle.std.specs.Prelude.{length, IsOk, OnOk, OnErr};

    type Error = BufferTooShortError;

    ghost written = { λ s. s.bytes };

    ghost room = { λ _. None };

    ghost whole = { λ _. true };

    /// Keeps a piece, if both limits allow it.
    fn put_bytes(&mut self, v: &[u8]) -> Result<(), BufferTooShortError>
        ensures both_fit { IsOk result
            ↔ ((length self.old.bytes + length v.now ≤ self.old.most_bytes)
            × (length self.old.lengths < self.old.most_pieces)) }
        ensures kept { OnOk result (self.new ≡ record self.old {
          bytes = self.old.bytes ++ v.now;
          lengths = self.old.lengths ++ length v.now ∷ [];
        }) }
        ensures unchanged { OnErr result (self.new ≡ self.old) }
    {
        if v.len() > self.most_bytes - self.bytes.len() || self.pieces.len() == self.most_pieces {
            return Err(BufferTooShortError);
        }
        for byte in v {
            self.bytes.push_reserved(*byte);
        }
        self.pieces.push_reserved(v.len());
        Ok(())
    }
}
