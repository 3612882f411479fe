//! A buffer that owns its bytes: a cursor over it, and how to get the buffer back.
ghost use Rattle.std.specs.Prelude.{◌≡◌, ◌↔◌, ◌<◌, ◌+◌, ◌≤◌, ◌++◌, length, slice_set, List, ℕ};
ghost use Rattle.std.specs.Prelude.{refl, IsOk, IfOk};
ghost use Rattle.octets_code.specs.Texts.{text};
ghost use Rattle.octets.specs.Bytes.{network, splice};
ghost use Rattle.octets.specs.Cursor.{rest, Writes};

use octets::{Buffer, Bytes, Cursor, Result};
use std::marker::Model;

/// A datagram of a fixed length, whose bytes can be written. Contracts see it as the list of its
/// bytes.
#[derive(Drop)]
pub struct Datagram {
    payload: Vec<u8>,
}

impl Model for Datagram {
    ghost Value = { List ℕ };

    ghost view = { λ d. d.payload.items };
}

impl Datagram {
    /// Returns a datagram of these bytes.
    pub fn new(payload: Vec<u8>) -> Self
        ensures { result ≡ payload.items }
    {
        Datagram { payload }
    }

    /// Returns the bytes of the datagram.
    pub fn into_payload(self) -> Vec<u8>
        ensures { result.items ≡ self }
    {
        let Datagram { payload } = self;
        payload
    }
}

impl Bytes for Datagram {
    ghost bytes = { λ d. d };

    ghost holding = { λ d w. w };

    ghost bytes_holding = { λ d w h. refl };

    ghost holding_own = { λ d. refl };

    ghost holding_last = { λ d v w. refl };

    fn len(&self) -> usize {
        self.payload.len()
    }

    fn as_slice(&self) -> &[u8] {
        self.payload.as_slice()
    }
}

impl Buffer for Datagram {
    // This is `&mut self.payload[from..from + len]`, but no proof follows what the `Vec` holds
    // after that expression.
    fn part_mut(&mut self, from: usize, len: usize) -> &mut [u8] {
        self.payload.slice_mut(from..from + len)
    }
}

/// Writes `kind`, and after it the Huffman encoding of `name`, into any kind of buffer.
#[tactic(auto, using(crate::proofs::Sets::addresses))]
pub fn write_address<B: Buffer>(cursor: &mut Cursor<B>, kind: u8, name: &[u8]) -> Result<()>
    ensures fits { IsOk result ↔ (1 + length (text name.now) ≤ length (rest cursor.old)) }
    ensures writes { IfOk result (λ _. Writes cursor.old cursor.new
        (network 1 kind ++ text name.now)) }
{
    cursor.write_u8(kind)?;
    cursor.put_huffman_encoded::<false>(name)
}

/// Returns the datagram with `kind` and the Huffman encoding of `name` over its first bytes. It
/// fails if they don't fit, and the datagram is then dropped.
pub fn address(datagram: Datagram, kind: u8, name: &[u8]) -> Result<Datagram>
    ensures fits { IsOk result ↔ (1 + length (text name.now) ≤ length datagram) }
    ensures bytes { IfOk result (λ d. d ≡ splice datagram 0 (network 1 kind ++ text name.now)) }
{
    let mut cursor = Cursor::with_buffer(datagram);
    write_address(&mut cursor, kind, name)?;
    Ok(cursor.into_buffer())
}

/// Returns the datagram with its byte at `place` set to `mark`, by a loan of all its bytes.
pub fn mark(datagram: Datagram, place: usize, mark: u8) -> Datagram
    requires { place < length datagram }
    ensures { result ≡ splice datagram 0 (slice_set datagram place mark) }
{
    let mut cursor = Cursor::with_buffer(datagram);
    cursor.lend_whole()[place] = mark;
    cursor.into_buffer()
}
