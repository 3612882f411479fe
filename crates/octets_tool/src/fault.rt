//! Why a command has no result.

use std::alloc::AllocError;

/// Why a command has no result.
#[derive(Clone, Copy)]
pub enum RunFault {
    /// The input couldn't be read.
    Read,
    /// The output couldn't be written. A part of it may have been written.
    Write,
    /// The input has more than 65,536 bytes.
    TooLong,
    /// An allocation failed.
    Memory,
}

impl From<AllocError> for RunFault {
    ghost use Rattle.std.specs.Prelude.{◌≡◌};
    ghost use Rattle.octets_tool.specs.declared.fault.RunFault.TheVariants.{Memory};

    ghost from_gives = { λ _ fault. fault ≡ Memory };

    fn from(_: AllocError) -> RunFault {
        RunFault::Memory
    }
}
