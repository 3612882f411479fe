//! Sinks, which take bytes one piece at a time.
ghost use Rattle.std.specs.Prelude.{◌≡◌, ℕ, ◌≤◌, ◌↔◌, ◌++◌, List, Option, Some, Bool};
ghost use Rattle.std.specs.Prelude.{true, length, IsTrue, IsOk, OnOk, OnErr, IfSome};
ghost use Rattle.octets.specs.Sinks.{AppendsFront, capacity_of};

/// A sink takes bytes. A cursor is a sink, and so may be a ring buffer, or a buffer in front of a
/// stream.
///
/// A contract describes a sink by three values. `written` is the list of the bytes that were
/// written so far. `room` is the number of bytes that still fit, or `None` if that number is
/// unknown. `whole` says whether a call that fails appends nothing. If `room` is known, a call
/// succeeds if and only if its bytes fit. If it is unknown, a contract says nothing about when a
/// call fails.
pub trait OctetsWriter {
    /// The error of a call that fails. Contracts say nothing about its value.
    type Error;

    /// The bytes that were written so far.
    ghost written: { Self → List ℕ };

    /// How many more bytes fit, if that is known.
    ghost room: { Self → Option ℕ };

    /// Whether a call that fails appends nothing.
    ghost whole: { Self → Bool };

    /// Appends all bytes of `v`, or fails after it has appended a prefix of them at most.
    ///
    /// ```
    /// let mut bytes = [0, 0, 0];
    /// let mut sink = OctetsMut::with_slice(&mut bytes);
    /// OctetsWriter::put_bytes(&mut sink, b"ab")?;
    /// assert!(OctetsWriter::put_bytes(&mut sink, b"cd").is_err());
    /// assert_eq!(sink.off(), 2);
    /// ```
    fn put_bytes(&mut self, v: &[u8]) -> std::result::Result<(), Self::Error>
        ensures ok { OnOk result (written self.new ≡ written self.old ++ v.now) }
        ensures err { OnErr result (AppendsFront (written self.old) (written self.new) v.now) }
        ensures nothing_where_whole { IsTrue (whole self.old)
            → OnErr result (written self.new ≡ written self.old) }
        ensures fits { IfSome (room self.old) (λ c. IsOk result ↔ (length v.now ≤ c)) }

        // `room` decreases by the number of bytes that were appended, or stays unknown.
        ensures capacity { capacity_of (written self.new) (room self.new)
            ≡ capacity_of (written self.old) (room self.old) }
        ensures same_kind { whole self.new ≡ whole self.old };
}
