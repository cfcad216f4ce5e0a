//! Why a file, or two files, have no answer.

ghost use Rattle.std.specs.Prelude.{◌≡◌};
ghost use Rattle.at_run.specs.Joins.{first_end};

use at_text::{Fault, Refusal};

/// Why a file has no answer: its first fault, or want of memory.
pub type RunFault = Refusal;

/// Why two files have no join.
#[derive(Clone, Copy, Debug, PartialEq, Eq)]
pub enum JoinFault {
    /// The first file's first fault, at its offset.
    First(Fault),
    /// The first file has no fault, and this is the second file's first.
    Second(Fault),
    /// An allocation was refused.
    Memory,
}

impl JoinFault {
    /// Why two files have no join, where this is why the first has no entries.
    pub fn of_first(end: Refusal) -> JoinFault
        ensures { result ≡ first_end end }
    {
        match end {
            Refusal::Found(fault) => JoinFault::First(fault),
            Refusal::Memory => JoinFault::Memory,
        }
    }
}
