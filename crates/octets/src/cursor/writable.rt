//! The cursor over bytes that are also written.
ghost use Rattle.std.specs.Prelude.{◌≡◌};
ghost use Rattle.octets.specs.Bytes.{AreBytes};

mod cursor_store;
mod cursor_target;
mod encoded_writes;
mod loans;
mod sink;
mod views;
mod writes;

use crate::cursor::Cursor;
use crate::cursor::buffer::Buffer;
use crate::slices::known_bytes;
use std::fmt;

/// A cursor over mutably borrowed bytes, for reading and writing. A view that the cursor returns
/// borrows the cursor until the last use of the view.
pub type OctetsMut<'a> = Cursor<&'a mut [u8]>;

impl<'a> OctetsMut<'a> {
    ghost use Rattle.octets.specs.Cursor.{bytes, position};
    ghost use Rattle.octets.specs.Slices.{reference};

    /// Makes a cursor over `buf`, with the offset 0.
    ///
    /// ```
    /// let mut bytes = [1, 2, 3];
    /// let cursor = OctetsMut::with_slice(&mut bytes);
    /// assert_eq!(cursor.off(), 0);
    /// assert_eq!(cursor.cap(), 3);
    /// ```
    pub fn with_slice(buf: &'a mut [u8]) -> Self
        ensures bytes { bytes result ≡ buf.old }
        ensures start { position result ≡ 0 }

        // The buffer is the slice of the caller, whose proof so knows what the cursor writes to it.
        ensures same_reference { reference result ≡ buf.entry.ghost_name }
    {
        Cursor { buf, off: 0 }
    }

    /// Consumes the cursor, and returns the whole buffer with everything that was written. The
    /// result lives as long as the borrow of the buffer.
    ///
    /// ```
    /// let mut bytes = [0, 0];
    /// let mut cursor = OctetsMut::with_slice(&mut bytes);
    /// cursor.put_u8(7)?;
    /// cursor.into_inner()[1] = 9;
    /// assert_eq!(bytes, [7, 9]);
    /// ```
    pub fn into_inner(self) -> &'a mut [u8]
        ensures bytes { result.now ≡ bytes self.entry }
        ensures same_reference { result.ghost_name ≡ reference self.entry }
    {
        let Cursor { buf, off: _ } = self;
        buf
    }
}

#[tactic(auto, unfolding(crate::specs::Does::Does))]
impl<B: Buffer> Cursor<B> {
    ghost use Rattle.octets.specs.Calls.{Call, Answer};
    ghost use Rattle.octets.specs.Does.{Does};
    ghost use Rattle.octets.specs.Cursor.{bytes};

    /// Returns the whole buffer, including the bytes before the offset.
    ///
    /// ```
    /// let mut bytes = [1, 2, 3];
    /// let mut cursor = OctetsMut::with_slice(&mut bytes);
    /// cursor.skip(2)?;
    /// assert_eq!(cursor.buf(), [1, 2, 3].as_slice());
    /// ```
    pub fn buf(&self) -> &[u8]
        ensures is { result.now ≡ bytes self.now }
        ensures bytes { AreBytes (bytes self.now) }
        ensures performs { Does Call.Buf self.now (Answer.Bytes result.now) self.now }
    {
        known_bytes(self.buf.as_slice())
    }
}

impl fmt::Debug for OctetsMut<'_> {
    /// Formats the cursor like a struct `OctetsMut` with the fields `buf`, which is the whole
    /// buffer, and `off`.
    fn fmt<W: fmt::Write>(&self, f: &mut fmt::Formatter<W>) -> fmt::Result {
        f.debug_struct("OctetsMut")
            .field("buf", &self.buf)
            .field("off", &self.off)
            .finish()
    }
}
