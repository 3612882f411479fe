//! The cursor, over bytes that are only read or over bytes that are also written.
ghost use Rattle.std.specs.Prelude.{◌≡◌, ◌↔◌, ◌+◌, ◌≤◌, ◌<◌, ◌^◌, [], length, IsTrue, IsOk, IfOk};
ghost use Rattle.std.specs.Prelude.{OnOk, OnErr};
ghost use Rattle.octets.specs.Requests.{Granted, Refused};

pub mod buffer;
mod decode;
mod moves;
pub mod read_only;
mod reads;
pub mod writable;

use crate::memory::Request;
use crate::slices::vec_of;
use buffer::Bytes;
use std::alloc::{AllocError, Global};

/// A buffer and an offset into it. Every read and write begins at the offset.
///
/// A call that fails changes no byte and leaves the offset where it was, with three exceptions. A
/// call that reads a length and then as many bytes leaves the offset after the length, if only the
/// length was complete. The documentation of each Huffman decode says where the decode leaves the
/// offset. A Huffman encode that doesn't fit leaves a prefix of the encoding in the buffer, and the
/// offset after that prefix.
#[derive(Drop)]
pub struct Cursor<B: Bytes> {
    pub(crate) buf: B,
    pub(crate) off: usize,
    ghost within: { off ≤ length (B.bytes buf) },
}

/// Construction, position and contents.
#[tactic(auto, unfolding(crate::specs::Does::Does))]
impl<B: Bytes> Cursor<B> {
    ghost use Rattle.std.specs.Prelude.{if◌then◌else◌};
    ghost use Rattle.octets.specs.Calls.{Call, Answer};
    ghost use Rattle.octets.specs.Does.{Does};
    ghost use Rattle.octets.specs.Cursor.{bytes, holder, position, rest};

    /// Returns a cursor over a buffer of any type, at its start. For a borrowed slice call
    /// `with_slice`.
    ///
    /// ```
    /// let mut bytes = [1, 2, 3];
    /// let mut cursor = Cursor::with_buffer(&mut bytes[..]);
    /// assert_eq!(cursor.get_u16()?, 0x0102);
    /// ```
    #[inline(always)]
    pub fn with_buffer(buf: B) -> Self
        ensures bytes { bytes result ≡ B.bytes buf }
        ensures start { position result ≡ 0 }
        ensures holder { holder result ≡ B.holding buf [] }
    {
        Self { buf, off: 0 }
    }

    /// Returns the buffer, with everything that was written.
    ///
    /// ```
    /// let mut bytes = [1, 2, 3];
    /// let mut cursor = OctetsMut::with_slice(&mut bytes);
    /// cursor.write_u8(9)?;
    /// assert_eq!(&*cursor.into_buffer(), [9, 2, 3].as_slice());
    /// ```
    #[inline(always)]
    pub fn into_buffer(self) -> B
        ensures bytes { B.bytes result ≡ bytes self }
        ensures holder { B.holding result [] ≡ holder self }
        ensures is { result ≡ B.holding result (bytes self) }
    {
        let Cursor { off: _, buf } = self;
        buf
    }

    /// Returns the number of bytes that remain, from the offset to the end of the buffer.
    ///
    /// ```
    /// let mut cursor = Octets::with_slice(&[1, 2, 3]);
    /// cursor.skip(2)?;
    /// assert_eq!(cursor.cap(), 1);
    /// ```
    #[inline(always)]
    pub fn cap(&self) -> usize
        ensures remaining { result ≡ length (rest self.now) }

        // So `off() + cap()` is `len()`, and no buffer has 2 to the power 63 bytes.
        ensures and_offset { position self.now + result ≡ length (bytes self.now) }
        ensures small { length (bytes self.now) < 2 ^ 63 }
        ensures performs { Does Call.Cap self.now (Answer.Number result) self.now }
    {
        self.buf.len() - self.off
    }

    /// Returns the number of bytes of the whole buffer, including those before the offset.
    ///
    /// ```
    /// let mut cursor = Octets::with_slice(&[1, 2, 3]);
    /// cursor.skip(2)?;
    /// assert_eq!(cursor.len(), 3);
    /// ```
    #[inline(always)]
    pub fn len(&self) -> usize
        ensures length { result ≡ length (bytes self.now) }
        ensures small { length (bytes self.now) < 2 ^ 63 }
        ensures performs { Does Call.Len self.now (Answer.Number result) self.now }
    {
        self.buf.len()
    }

    /// Returns whether the whole buffer has no bytes. A cursor at the end of a buffer with bytes
    /// isn't empty: test whether [`cap`](Self::cap) is 0 to find the end.
    ///
    /// ```
    /// let mut cursor = Octets::with_slice(&[1]);
    /// cursor.skip(1)?;
    /// assert!(!cursor.is_empty());
    /// ```
    #[inline(always)]
    pub fn is_empty(&self) -> bool
        ensures empty { IsTrue result ↔ (bytes self.now ≡ []) }
        ensures performs { Does Call.IsEmpty self.now (Answer.Number (if result then 1 else 0)) self.now }
    {
        self.buf.as_slice().is_empty()
    }

    /// Returns the offset, which is the number of bytes of the buffer before the next byte that is
    /// read or written.
    ///
    /// ```
    /// let mut cursor = Octets::with_slice(&[1, 2, 3]);
    /// cursor.skip(2)?;
    /// assert_eq!(cursor.off(), 2);
    /// ```
    #[inline(always)]
    pub fn off(&self) -> usize
        ensures position { result ≡ position self.now }
        ensures performs { Does Call.Off self.now (Answer.Number result) self.now }
    {
        self.off
    }

    /// Returns the bytes from the offset on.
    ///
    /// ```
    /// let mut cursor = Octets::with_slice(&[1, 2, 3]);
    /// cursor.skip(2)?;
    /// assert_eq!(cursor.as_ref(), [3].as_slice());
    /// ```
    #[inline(always)]
    pub fn as_ref(&self) -> &[u8]
        ensures { result.now ≡ rest self.now }
    {
        &self.buf.as_slice()[self.off..]
    }

    /// Copies the bytes from the offset on into a new `Vec`. If no byte remains, nothing is
    /// allocated.
    ///
    /// ```
    /// let mut cursor = Octets::with_slice(&[1, 2, 3]);
    /// cursor.skip(1)?;
    /// assert_eq!(&*cursor.to_vec(alloc)?, [2, 3].as_slice());
    /// ```
    #[inline(always)]
    pub fn to_vec(&self, alloc: Global) -> Result<Vec<u8>, AllocError>
        ensures bytes { IfOk result (λ v. v.items ≡ rest self.now) }
        ensures empty { rest self.now ≡ [] → IsOk result }
        ensures performs { IfOk result
            (λ v. Does Call.ToVec self.now (Answer.Bytes v.items) self.now) }

        // It asks for this number of bytes, and fails exactly if this request is refused.
        ensures granted { OnOk result (Granted (length (rest self.now))) }
        ensures refused { OnErr result (Refused (length (rest self.now))) }
    {
        vec_of(Request::to(alloc), self.as_ref())
    }
}

impl<B: Bytes> PartialEq for Cursor<B> {
    ghost use Rattle.std.specs.Prelude.{nat_eq, ◌∷◌};
    ghost use Rattle.std.specs.Cmp.{on_per, partial_equiv_from_equiv};
    ghost use Rattle.std.specs.Cmp.Lexicographic.{pointwise, nat_list_eq_equiv};
    ghost use Rattle.octets.specs.Cursor.{bytes, position};

    ghost eq = { λ c d. pointwise nat_eq (position c ∷ bytes c) (position d ∷ bytes d) };

    ghost laws = { on_per (λ c. position c ∷ bytes c)
        (partial_equiv_from_equiv nat_list_eq_equiv) };

    /// Returns whether the whole buffers are equal and the offsets are equal.
    ///
    /// ```
    /// let cursor = Octets::with_slice(&[1, 2, 3]);
    /// assert_eq!(cursor, Octets::with_slice(&[1, 2, 3]));
    /// ```
    #[inline(always)]
    fn eq(&self, other: &Self) -> bool
        ensures { IsTrue result
            ↔ ((bytes self.now ≡ bytes other.now) × (position self.now ≡ position other.now)) }
    {
        self.off == other.off && self.buf.as_slice() == other.buf.as_slice()
    }
}

impl<B: Bytes> Eq for Cursor<B> {
    ghost use Rattle.std.specs.Prelude.{◌∷◌};
    ghost use Rattle.std.specs.Cmp.{on_equiv};
    ghost use Rattle.std.specs.Cmp.Lexicographic.{nat_list_eq_equiv};
    ghost use Rattle.octets.specs.Cursor.{bytes, position};

    ghost laws = { on_equiv (λ c. position c ∷ bytes c) nat_list_eq_equiv };
}
