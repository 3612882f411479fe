//! A sink whose calls all fail.
ghost use Rattle.std.specs.Prelude.{[], None, Some, codes, true, IsErr};

use octets::OctetsWriter;
use std::error::Error;
use std::fmt;

/// The error of [`FailingSink`].
#[derive(Clone, Copy, Debug, PartialEq, Eq)]
pub struct SinkError;

impl fmt::Display for SinkError {
    ghost output = { λ _. Some (codes "the sink takes nothing") };

    fn fmt<W: fmt::Write>(&self, f: &mut fmt::Formatter<W>) -> fmt::Result {
        write!(f, "the sink takes nothing")
    }
}

impl Error for SinkError {}

/// A sink on which each call fails, even one with no bytes. Its `room` is unknown, and it is whole.
#[derive(Debug, Drop)]
pub struct FailingSink;

impl OctetsWriter for FailingSink {
    type Error = SinkError;

    ghost written = { λ _. [] };

    ghost room = { λ _. None };

    ghost whole = { λ _. true };

    fn put_bytes(&mut self, _v: &[u8]) -> Result<(), SinkError>
        ensures refuses { IsErr result }
    {
        Err(SinkError)
    }
}
