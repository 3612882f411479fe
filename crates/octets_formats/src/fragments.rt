//! State that is kept between calls, such as the fragments of a message that have arrived so
//! far.
//!
//! The state is in a struct with private fields, and its calls are methods. The clauses of a
//! method with `&mut self` relate `self.old`, the state before the call, to `self.new`, the
//! state after it. A ghost field, here `within`, states what is true of every value of the
//! struct. The checker proves it wherever a value is made or changed, and every method may rely
//! on it.
//!
//! Each fragment begins with its number, which has two bytes. After the number 65535, the next
//! one is 0. No clause says when `take` returns `NoMemory`, since a contract can't say whether
//! an allocation failed. So a test shows that the call succeeds. `part` and `drop` are about
//! the fragment, whose cursor is a variable of the method; a method that takes a cursor states
//! the same with `rest cursor.old`.
ghost use Rattle.std.specs.Prelude.{◌≡◌, ◌↔◌, ◌+◌, ◌≤◌, ◌<◌, ◌++◌, [], length, drop, OnOk, OnErr, ◌≢◌, ◌%◌, IsErrOf};
ghost use Rattle.octets.specs.Bytes.{number, part};
ghost use Rattle.octets.specs.Cursor.{bytes};
ghost use Rattle.octets_formats.specs.declared.fragments.FragmentError.TheVariants.{Short, NotNext, Full};

use octets::{BufferTooShortError, Octets, Result};
use std::alloc::Global;

/// The most bytes that a message may have.
pub const MOST_BYTES: usize = 65535;

/// Why a fragment wasn't taken.
#[derive(Clone, Copy, Debug, PartialEq, Eq)]
pub enum FragmentError {
    /// The fragment ends within its header.
    Short,
    /// The fragment isn't the next one.
    NotNext,
    /// The message would have more than `MOST_BYTES` bytes.
    Full,
    /// Memory couldn't be allocated.
    NoMemory,
}

impl From<BufferTooShortError> for FragmentError {
    ghost from_gives = { λ _ r. r ≡ Short };

    fn from(_: BufferTooShortError) -> FragmentError {
        FragmentError::Short
    }
}

/// A message of which some fragments have arrived.
#[derive(Debug, Drop)]
pub struct PartialMessage {
    next: u16,
    bytes: Vec<u8>,
    ghost within: { length bytes.items ≤ 65535 },
}

impl PartialMessage {
    /// Returns a message without fragments.
    pub fn new(alloc: Global) -> PartialMessage
        ensures { (result.next ≡ 0) × (result.bytes.items ≡ []) }
    {
        PartialMessage {
            next: 0,
            bytes: Vec::new(alloc),
        }
    }

    /// Returns the bytes that have arrived.
    pub fn bytes(&self) -> &[u8]
        ensures { result.now ≡ self.now.bytes.items }
    {
        self.bytes.as_slice()
    }

    /// Takes a fragment, which is its number in two bytes and then bytes of the message.
    pub fn take(&mut self, fragment: &[u8]) -> std::result::Result<(), FragmentError>
        ensures short { IsErrOf result Short ↔ (length fragment.now < 2) }
        ensures not_next { IsErrOf result NotNext ↔ ((2 ≤ length fragment.now)
            × (number (part fragment.now 0 2) ≢ self.old.next)) }
        ensures full { IsErrOf result Full ↔ ((2 ≤ length fragment.now)
            × (number (part fragment.now 0 2) ≡ self.old.next)
            × (65537 < length self.old.bytes.items + length fragment.now)) }
        ensures adds { OnOk result (self.new.bytes.items ≡ self.old.bytes.items ++ drop 2 fragment.now) }
        ensures next { OnOk result (self.new.next ≡ (self.old.next + 1) % 65536) }
        ensures unchanged { OnErr result ((self.new.next ≡ self.old.next)
            × (self.new.bytes.items ≡ self.old.bytes.items)) }
    {
        let mut cursor = Octets::with_slice(fragment);
        if cursor.get_u16()? != self.next {
            return Err(FragmentError::NotNext);
        }
        let added = cursor.as_ref();
        if added.len() > MOST_BYTES - self.bytes.len() {
            return Err(FragmentError::Full);
        }
        if self.bytes.extend_from_slice(added).is_err() {
            return Err(FragmentError::NoMemory);
        }
        self.next = self.next.wrapping_add(1);
        Ok(())
    }
}
