//! The errors of decodes in pieces.
ghost use Rattle.std.specs.Prelude.{Some, codes};

use octets::IntoError;
use std::error::Error;
use std::fmt;

/// EOS ends in the byte that would have been read next, and an encoding has no EOS.
#[derive(Clone, Copy, Debug, PartialEq, Eq)]
pub struct EosError {
    /// How many bytes of the piece were read before that byte.
    pub read: usize,
    /// How many bytes were written.
    pub written: usize,
}

impl fmt::Display for EosError {
    ghost output = { λ _. Some (codes "the encoding contains EOS") };

    fn fmt<W: fmt::Write>(&self, f: &mut fmt::Formatter<W>) -> fmt::Result {
        write!(f, "the encoding contains EOS")
    }
}

impl Error for EosError {}

/// The encoding can't end here, since the bits after its last code are no padding.
#[derive(Clone, Copy, Debug, PartialEq, Eq)]
pub struct IncompleteError;

impl fmt::Display for IncompleteError {
    ghost output = { λ _. Some (codes "the encoding ends within a code") };

    fn fmt<W: fmt::Write>(&self, f: &mut fmt::Formatter<W>) -> fmt::Result {
        write!(f, "the encoding ends within a code")
    }
}

impl Error for IncompleteError {}

/// Why the joined bytes of some pieces have no value that fits.
#[derive(Clone, Copy, Debug, PartialEq, Eq)]
pub struct PiecesError {
    /// How many of the joined bytes were passed: all up to the one in which the fault ends, or all.
    pub passed: u128,
    /// What the fault is.
    pub why: IntoError,
}

impl fmt::Display for PiecesError {
    ghost use Rattle.octets.specs.ErrorTexts.{into_error_text};

    ghost output = { λ e. Some (into_error_text e.why) };

    fn fmt<W: fmt::Write>(&self, f: &mut fmt::Formatter<W>) -> fmt::Result {
        self.why.fmt(f)
    }
}

impl Error for PiecesError {}
