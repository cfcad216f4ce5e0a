//! Why what is read has no value: for its first fault, or for want of memory.

ghost use Rattle.std.specs.Prelude.{◌≡◌};
ghost use Rattle.at_text.specs.declared.refusals.Refusal.TheVariants as refusals;

use crate::faults::Fault;
use crate::memory::Memory;

/// Why a line, a text or a file has no value.
#[derive(Clone, Copy, Debug, PartialEq, Eq)]
pub enum Refusal {
    /// The first fault, at its offset in the file.
    Found(Fault),
    /// An allocation was refused, or a block was given up.
    Memory,
}

impl From<Memory> for Refusal {
    ghost from_gives = { λ _ refusal. refusal ≡ refusals.Memory };

    fn from(_refused: Memory) -> Refusal {
        Refusal::Memory
    }
}

impl From<Fault> for Refusal {
    ghost from_gives = { λ fault refusal. refusal ≡ refusals.Found fault };

    fn from(fault: Fault) -> Refusal {
        Refusal::Found(fault)
    }
}
