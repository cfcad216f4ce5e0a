//! The right of one thread to claim blocks and to climb with their parts.

ghost use Rattle.std.specs.Prelude.{◌≡◌, ℕ, ◌<◌, ◌≤◌, [], All, Some, None, true};
ghost use Rattle.at_crew.specs.Seats.{IsPassSeat};
ghost use Rattle.at_crew.specs.Views.{claimed};

use crate::job::Job;
use crate::steps::CrewSeat;

/// The right to claim blocks of a crew and to climb with their parts, one for each thread.
///
/// Contracts see beside what its methods answer its number, the blocks that it claimed and the nodes at which it
/// merged. These lists take no memory.
#[derive(Drop)]
pub struct Pass<J: Job> {
    pub(crate) seat: CrewSeat<J>,
    pub(crate) number: u32,
    pub(crate) holding: Option<u32>,
    pub(crate) last: Option<u32>,
    pub(crate) over: bool,
    ghost sits: { IsPassSeat seat.table_id.slots seat.me number holding last over },
    ghost ended: { over ≡ true → holding ≡ None },
    ghost rising: { (n : ℕ) → last ≡ Some n → All (λ m. m ≤ n) (claimed seat.me.0) },
    ghost unclaimed: { last ≡ None → claimed seat.me.0 ≡ [] },
    ghost inside: { (n : ℕ) → holding ≡ Some n → n < seat.table_id.slots },
}

impl<J: Job> Pass<J> {
    ghost use Rattle.at_crew.specs.Shown.{block_held, has_ended, last_number};

    /// The number that the pass fetched last; none where it fetched no number yet.
    pub fn last(&self) -> Option<u32>
        ensures { result ≡ last_number self.now }
    {
        self.last
    }

    /// The block that the pass has claimed and not settled, if there is one.
    pub fn holding(&self) -> Option<u32>
        ensures { result ≡ block_held self.now }
    {
        self.holding
    }

    /// Whether the pass has found no block left.
    pub fn is_over(&self) -> bool
        ensures { result ≡ has_ended self.now }
    {
        self.over
    }
}
