//! Why a feed has no part, and two feeds no join.

use at_text::{Fault, Refusal};

/// Why a feed gives no part, or has no answer.
#[derive(Clone, Copy, Debug, PartialEq, Eq)]
pub enum FeedEnd {
    /// The first fault of the bytes that came, at its offset.
    Found(Fault),
    /// More than 2^28 bytes came.
    TooLarge,
    /// An allocation was refused.
    Memory,
}

/// Why two feeds give no entries to join, or their files have no join.
#[derive(Clone, Copy, Debug, PartialEq, Eq)]
pub enum PairEnd {
    /// The first fault of the first feed's bytes, at its offset.
    First(Fault),
    /// The first feed's bytes have no fault, and this is the first of the second feed's.
    Second(Fault),
    /// More than 2^28 bytes came of the first feed.
    FirstTooLarge,
    /// More than 2^28 bytes came of the second feed.
    SecondTooLarge,
    /// An allocation was refused.
    Memory,
}

impl FeedEnd {
    ghost use Rattle.std.specs.Prelude.{◌≡◌};
    ghost use Rattle.at_task.specs.FileEnds.{file_end};

    /// Why a feed gives no part, where this is why a file of its bytes has none.
    pub(crate) fn of_file(end: Refusal) -> FeedEnd
        ensures { result ≡ file_end end }
    {
        match end {
            Refusal::Found(fault) => FeedEnd::Found(fault),
            Refusal::Memory => FeedEnd::Memory,
        }
    }
}
