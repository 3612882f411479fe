//! The cursor over bytes that are only read.
ghost use Rattle.std.specs.Prelude.{◌≡◌};
ghost use Rattle.octets.specs.Bytes.{AreBytes};

mod views;

use crate::cursor::Cursor;
use crate::slices::known_bytes;
use std::fmt;

/// A cursor over borrowed bytes, for reading. The views that it returns borrow the bytes and not
/// the cursor, so they can outlive the cursor.
pub type Octets<'a> = Cursor<&'a [u8]>;

#[tactic(auto, unfolding(crate::specs::Does::Does))]
impl<'a> Octets<'a> {
    ghost use Rattle.octets.specs.Calls.{Call, Answer};
    ghost use Rattle.octets.specs.Does.{Does};
    ghost use Rattle.octets.specs.Cursor.{bytes, position, rest};

    /// Makes a cursor over `buf`, with the offset 0.
    ///
    /// ```
    /// let cursor = Octets::with_slice(&[1, 2, 3]);
    /// assert_eq!(cursor.off(), 0);
    /// assert_eq!(cursor.cap(), 3);
    /// ```
    #[inline(always)]
    pub fn with_slice(buf: &'a [u8]) -> Self
        ensures bytes { bytes result ≡ buf.now }
        ensures start { position result ≡ 0 }
    {
        Cursor { buf, off: 0 }
    }

    /// Returns the whole buffer, including the bytes before the offset.
    ///
    /// ```
    /// let mut cursor = Octets::with_slice(&[1, 2, 3]);
    /// cursor.skip(2)?;
    /// assert_eq!(cursor.buf(), [1, 2, 3].as_slice());
    /// ```
    #[inline(always)]
    pub fn buf(&self) -> &'a [u8]
        ensures is { result.now ≡ bytes self.now }

        // Each of them is below 256.
        ensures bytes { AreBytes (bytes self.now) }
        ensures performs { Does Call.Buf self.now (Answer.Bytes result.now) self.now }
    {
        known_bytes(self.buf)
    }

    /// Returns the bytes from the offset on, with the lifetime of the buffer.
    #[inline(always)]
    pub(crate) fn unread(&self) -> &'a [u8]
        ensures { result.now ≡ rest self.now }
    {
        let buf = self.buf;
        &buf[self.off..]
    }
}

impl fmt::Debug for Octets<'_> {
    /// Formats the cursor like a struct `Octets` with the fields `buf`, which is the whole buffer,
    /// and `off`.
    #[inline(always)]
    fn fmt<W: fmt::Write>(&self, f: &mut fmt::Formatter<W>) -> fmt::Result {
        f.debug_struct("Octets")
            .field("buf", &self.buf)
            .field("off", &self.off)
            .finish()
    }
}
