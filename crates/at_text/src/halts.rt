//! Why a reader stops: at a place of the text, or for want of memory.

ghost use Rattle.std.specs.Prelude.{◌≡◌};
ghost use Rattle.at_text.specs.declared.halts.Halt.TheVariants as halts;

use crate::memory::Memory;
use std::alloc::{AllocError, AllocFailed};

/// Why a text isn't read on.
#[derive(Clone, Copy, Debug, PartialEq, Eq)]
pub enum Halt {
    /// The place in the text up to which it was read: nothing that is looked for goes on there.
    At(usize),
    /// An allocation was refused.
    Memory,
}

impl From<AllocError> for Halt {
    ghost from_gives = { λ refused halt. halt ≡ halts.Memory };

    fn from(_refused: AllocError) -> Halt {
        Halt::Memory
    }
}

impl<T: Drop> From<AllocFailed<T>> for Halt {
    ghost from_gives = { λ refused halt. halt ≡ halts.Memory };

    fn from(_refused: AllocFailed<T>) -> Halt {
        Halt::Memory
    }
}

impl From<Memory> for Halt {
    ghost from_gives = { λ refused halt. halt ≡ halts.Memory };

    fn from(_refused: Memory) -> Halt {
        Halt::Memory
    }
}
