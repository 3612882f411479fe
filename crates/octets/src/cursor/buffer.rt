//! The traits of a cursor's buffer: a cursor can read a buffer with `Bytes`, and also write one
//! with `Buffer`. To lend bytes for writing means to return a mutable borrow of them.
ghost use Rattle.std.specs.Prelude.{◌≡◌, ◌+◌, ◌≤◌, ◌<◌, ◌^◌, List, ℕ, length};
ghost use Rattle.std.specs.Borrow.{sem, Lends, Array, u8 as byte};
ghost use Rattle.octets.specs.Bytes.{splice, part};

/// A buffer that a cursor can read: it has fewer than 2 to the power 63 bytes, and exposes all of
/// them as a slice.
pub trait Bytes: Drop {
    /// The bytes in the buffer.
    ghost bytes: { Self → List ℕ };

    /// The same buffer with a given list of bytes as its contents.
    ghost holding: { Self → List ℕ → Self };

    /// If the contents are replaced by a list of the same length, the contents are that list.
    ghost bytes_holding: { (b : Self) (w : List ℕ) → length w ≡ length (bytes b)
        → bytes (holding b w) ≡ w };

    /// Replacing the contents of a buffer by themselves leaves the buffer unchanged.
    ghost holding_own: { (b : Self) → holding b (bytes b) ≡ b };

    /// Replacing the contents twice is the same as making only the second replacement.
    ghost holding_last: { (b : Self) (v w : List ℕ) → holding (holding b v) w ≡ holding b w };

    /// Returns the number of bytes.
    ///
    /// ```
    /// let mut bytes = [1, 2, 3];
    /// let buffer = bytes.as_mut_slice();
    /// assert_eq!(Bytes::len(&buffer), 3);
    /// ```
    fn len(&self) -> usize
        ensures is { result ≡ length (bytes self.now) }
        ensures small { length (bytes self.now) < 2 ^ 63 };

    /// Returns all bytes.
    ///
    /// ```
    /// let mut bytes = [1, 2, 3];
    /// let buffer = bytes.as_mut_slice();
    /// assert_eq!(Bytes::as_slice(&buffer), [1, 2, 3].as_slice());
    /// ```
    fn as_slice(&self) -> &[u8]
        ensures { result.now ≡ bytes self.now };
}

/// A buffer that a cursor can also write: it lends ranges of its bytes for writing.
pub trait Buffer: Bytes {
    /// Lends the `len` bytes from position `from` on for writing. `from + len` must be at most the
    /// length of the buffer. When the loan ends, the buffer contains what was written into that
    /// range, and all other bytes are unchanged.
    ///
    /// ```
    /// let mut bytes = [1, 2, 3];
    /// let mut buffer = bytes.as_mut_slice();
    /// Buffer::part_mut(&mut buffer, 1, 2)[0] = 9;
    /// assert_eq!(bytes, [1, 9, 3]);
    /// ```
    fn part_mut(&mut self, from: usize, len: usize) -> &mut [u8]
        requires { from + len ≤ length (Self.bytes self.old) }
        ensures* writes_back { sem 𝓛 (Lends Self.row (Array byte 0) self.entry result
            (λ w. Self.holding self.old (splice (Self.bytes self.old) from w))) }
        ensures shows { result.now ≡ part (Self.bytes self.old) from len };
}

impl<'a> Bytes for &'a [u8] {
    ghost use Rattle.std.specs.Prelude.{refl};

    ghost bytes = { λ b. b.now };

    ghost holding = { λ b w. record b { now = w } };

    ghost bytes_holding = { λ b w h. refl };

    ghost holding_own = { λ b. refl };

    ghost holding_last = { λ b v w. refl };

    fn len(&self) -> usize {
        (**self).len()
    }

    fn as_slice(&self) -> &[u8] {
        *self
    }
}

impl<'a> Bytes for &'a mut [u8] {
    ghost use Rattle.std.specs.Prelude.{refl};

    ghost bytes = { λ b. b.now };

    ghost holding = { λ b w. record b { now = w } };

    ghost bytes_holding = { λ b w h. refl };

    ghost holding_own = { λ b. refl };

    ghost holding_last = { λ b v w. refl };

    fn len(&self) -> usize {
        (**self).len()
    }

    fn as_slice(&self) -> &[u8] {
        &**self
    }
}

impl<'a> Buffer for &'a mut [u8] {
    // The proof is hand-written, so any edit of the body breaks it: see CONTRIBUTING.md.
    fn part_mut(&mut self, from: usize, len: usize) -> &mut [u8] {
        &mut self[from..][..len]
    }
}
