//! The targets of an encode: a sink, about which a proof knows only the law of its trait, or a
//! cursor, of which it also knows the bytes after the offset (`cursor/writable/cursor_target.rt`).
ghost use Rattle.std.specs.Prelude.{◌≡◌, ℕ, ◌+◌, ◌≤◌, ◌↔◌, ◌++◌, List, [], Option, Some, Bool};
ghost use Rattle.std.specs.Prelude.{true, false, length, take, drop, IsTrue, IsOk, OnOk, OnErr};
ghost use Rattle.std.specs.Prelude.{IfSome};
ghost use Rattle.std.specs.Int.{to_be_bytes, w64};
ghost use base.Fml.{GName};
ghost use Rattle.octets.specs.Sinks.{SomeFront};
ghost use Rattle.octets.specs.Pieces.{Lawful};

use crate::writer::OctetsWriter;

/// A target takes the pieces of an encode.
pub(crate) trait Target {
    type Error;

    /// How many more bytes fit, if that is known.
    ghost room: { Self → Option ℕ };

    /// Whether a piece that fails appends nothing.
    ghost whole: { Self → Bool };

    /// The identity (`ghost_name`) of the reference through which the target is written. An encode
    /// doesn't change it.
    ghost name: { Self → GName };

    /// The second state is the first one with exactly these bytes appended.
    ghost appends: { Self → Self → List ℕ → Type 0 };

    /// Appends the piece, or fails after it has appended a prefix of the piece.
    fn put_piece(&mut self, piece: &[u8]) -> Result<(), Self::Error>
        ensures ok { OnOk result (appends self.old self.new piece.now) }
        ensures err { OnErr result (SomeFront piece.now (appends self.old self.new)) }
        ensures nothing_where_whole { IsTrue (whole self.old)
            → OnErr result (appends self.old self.new []) }
        ensures fits { IfSome (room self.old)
            (λ c. IsOk result ↔ (length piece.now ≤ c)) };

    /// Appends the `len` most significant bytes of `word` at once, most significant byte first, if
    /// the target can do that, and returns whether it did.
    fn put_at_once(&mut self, word: u64, len: usize) -> bool
        requires some { 1 ≤ len }
        requires few { len ≤ 8 }
        ensures all { IsTrue result
            → appends self.old self.new (take len (to_be_bytes w64 word)) }
        ensures nothing { result ≡ false → self.new ≡ self.old };

    /// Appending the empty list changes nothing, two appends add up to one, and `room` decreases by
    /// what was appended.
    ghost law: { Lawful appends room whole };

    ghost same_name: { (a b : Self) (w : List ℕ) → appends a b w → name b ≡ name a };
}

/// A sink, as a target that gives each piece to `put_bytes`.
#[derive(Drop)]
pub(super) struct SinkTarget<'a, W: OctetsWriter>(pub(super) &'a mut W);

impl<W: OctetsWriter> Target for SinkTarget<'_, W> {
    type Error = W::Error;

    ghost use Rattle.std.specs.Prelude.{◌≡◌, refl};
    ghost use Rattle.std.proofs.Common.{◌∙◌};
    ghost use Rattle.octets.specs.Capacities.{Appends, appends_none, appends_both, falls};

    ghost room = { λ s. W.room s.0.now };

    ghost whole = { λ s. W.whole s.0.now };

    ghost name = { λ s. s.0.ghost_name };

    ghost appends = { λ a b w. Appends W.written W.room W.whole a.0.now b.0.now w
        × (b.0.ghost_name ≡ a.0.ghost_name) };

    ghost law = { record {
      none = λ s. (appends_none W.written W.room W.whole s.0.now, refl);
      more = λ a b c u w h k.
          (appends_both W.written W.room W.whole a.0.now b.0.now c.0.now u w h.0 k.0, k.1 ∙ h.1);
      falls = λ a b w h. falls W.written W.room W.whole a.0.now b.0.now w h.0;
      kind = λ a b w h. h.0.kind;
    } };

    ghost same_name = { λ a b w h. h.1 };

    fn put_piece(&mut self, piece: &[u8]) -> Result<(), W::Error> {
        self.0.put_bytes(piece)
    }

    /// A sink gets its pieces one by one, so this appends nothing.
    fn put_at_once(&mut self, _word: u64, _len: usize) -> bool {
        false
    }
}
