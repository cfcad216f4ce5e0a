//! How a run ends.

ghost use Rattle.std.specs.Prelude.{◌≡◌};
ghost use Rattle.at_cli.specs.Endings.{status_of};

use at_text::{Fault, Word};

/// The end that a run comes to before anything is written.
#[derive(Drop)]
pub enum Ending {
    /// The words are refused.
    Usage,
    /// The query has a fault at this offset.
    QueryFault(u32),
    /// The verb takes another count of names.
    Names,
    /// The file of that name has this first fault.
    Faulty(Word, Fault),
    /// The shelf failed on the file of that name.
    ReadFailed(Word),
    /// The file of that name has more than 2^28 bytes.
    TooLarge(Word),
    /// Want of memory.
    NoMemory,
    /// This text is the answer.
    Answered(String),
}

impl Ending {
    /// The status of the end, if an answer can be written.
    pub fn status(&self) -> u8
        ensures { result ≡ status_of self.now }
    {
        match self {
            Ending::Answered(_) => 0,
            Ending::Faulty(..) => 1,
            Ending::Usage | Ending::QueryFault(_) | Ending::Names => 2,
            Ending::ReadFailed(_) => 3,
            Ending::NoMemory => 5,
            Ending::TooLarge(_) => 6,
        }
    }
}
