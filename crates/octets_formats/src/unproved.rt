//! Code that can't be proved, or isn't worth a proof, such as a cipher: it is called through a
//! trait.
//!
//! After you have erased your crate, a program in Rust implements the trait. If a proof relies
//! on what a method of the trait does, the method has to say so by an `ensures`. The method of
//! `Cipher` needs none: the proof relies only on the length of the slice, and every `&mut`
//! slice keeps its length.
//!
//! If a proof relies on more, the trait declares a *ghost member*, a value that only contracts
//! mention, and states its methods' clauses by it, as `Checksum` does. Each implementation
//! defines the ghost member, and doesn't repeat the clauses. A function that is generic in the
//! trait names the member by its type parameter, as `C.checksum`. The kit names the
//! implementation `SumChecksum`, after its type and its trait, so the invariant of the loop is
//! in `proofs/unproved/SumChecksum/compute`. The kit's page `GENERIC.md` describes traits with
//! ghost members, and laws that connect them.
ghost use Rattle.std.specs.Prelude.{◌≡◌, ◌↔◌, ◌+◌, ◌≤◌, ◌++◌, ℕ, List, length, IsOk, OnOk, ◌%◌, sum};
ghost use Rattle.octets.specs.Bytes.{network};
ghost use Rattle.octets.specs.Cursor.{bytes, rest, Writes};

use octets::{OctetsMut, Result};

/// A cipher that encrypts in place.
pub trait Cipher {
    /// Encrypts the bytes.
    fn apply(&mut self, bytes: &mut [u8]);
}

/// Writes a kind, and the encrypted payload. Encrypts the payload also if it doesn't fit.
pub fn write_encrypted<C: Cipher>(
    cursor: &mut OctetsMut<'_>,
    cipher: &mut C,
    kind: u8,
    payload: &mut [u8],
) -> Result<()>
    ensures fits { IsOk result ↔ (1 + length payload.old ≤ length (rest cursor.old)) }
    ensures writes { OnOk result (Writes cursor.old cursor.new (network 1 kind ++ payload.new)) }
{
    cipher.apply(payload);
    cursor.write_u8(kind)?;
    cursor.put_bytes(payload)
}

/// A checksum of one byte.
pub trait Checksum {
    /// The checksum of a list of bytes.
    ghost checksum: { Self → List ℕ → ℕ };

    /// Computes the checksum of `bytes`.
    fn compute(&self, bytes: &[u8]) -> u8
        ensures is { result ≡ checksum self.now bytes.now };
}

/// Writes a payload, and its checksum.
pub fn write_checked<C: Checksum>(cursor: &mut OctetsMut<'_>, by: &C, payload: &[u8]) -> Result<()>
    ensures fits { IsOk result ↔ (length payload.now + 1 ≤ length (rest cursor.old)) }
    ensures writes { OnOk result (Writes cursor.old cursor.new
        (payload.now ++ network 1 (C.checksum by.now payload.now))) }
{
    cursor.put_bytes(payload)?;
    cursor.write_u8(by.compute(payload))
}

/// The sum of the bytes, modulo 256.
pub struct Sum;

impl Checksum for Sum {
    ghost checksum = { λ _ l. sum l % 256 };

    fn compute(&self, bytes: &[u8]) -> u8 {
        let mut total: u8 = 0;
        for byte in bytes {
            total = total.wrapping_add(*byte);
        }
        total
    }
}
