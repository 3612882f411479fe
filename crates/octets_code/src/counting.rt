//! The count of the automaton's steps.

ghost use Rattle.std.specs.Prelude.{◌≡◌, ◌+◌, ◌<◌, ◌^◌};

use std::marker::Model;

/// A count of the automaton's steps over half bytes.
///
/// Contracts see it as a number. [`State::step`](crate::State::step) adds one to it.
/// [`Steps::spare`] adds the steps that a decoder saves if it reads several codes at once.
#[derive(Debug, Drop)]
pub struct Steps {
    taken: u128,
}

impl Model for Steps {
    ghost use Rattle.std.specs.Prelude.{ℕ};

    ghost Value = { ℕ };

    ghost view = { λ s. s.taken };
}

impl Steps {
    /// Returns a count of no steps.
    pub fn new() -> Steps
        ensures { result ≡ 0 }
    {
        Steps { taken: 0 }
    }

    /// Returns how many steps were taken.
    pub fn count(&self) -> u128
        ensures { result ≡ self.now }
    {
        self.taken
    }

    /// Counts the steps over `halves` half bytes, whose codes were read at once. The sum must be
    /// below 2 to the power 128.
    #[inline(always)]
    pub fn spare(&mut self, halves: usize)
        requires { self.old + halves < 2 ^ 128 }
        ensures { self.new ≡ self.old + halves }
    {
        let Steps { taken } = self;
        *taken += halves as u128;
    }

    /// Counts one more step.
    #[inline(always)]
    pub(crate) fn add_one(&mut self)
        requires { self.old + 1 < 2 ^ 128 }
        ensures { self.new ≡ self.old + 1 }
    {
        let Steps { taken } = self;
        *taken += 1;
    }
}
