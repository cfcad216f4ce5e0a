//! Where bytes come from that are not there yet.

ghost use Rattle.std.specs.Prelude.{◌≡◌, ◌⊎◌, ◌<◌, ◌≤◌, ℕ, Bool, true, List, [], length, take, drop, Option, Some, IfSome};
ghost use Rattle.at_io.specs.Counts.{Rose};
ghost use Rattle.futures.specs.Poll.{IfReady, OnPending};
ghost use Rattle.futures.specs.Task.{IsArmed, Keeps};
ghost use Rattle.at_task.specs.Ends.{IsEnd};

use futures::task::{Context, Poll};

/// Bytes that come in chunks, as they are asked for by a poll.
///
/// What a source doesn't tell, nothing is claimed of. A count never falls.
pub trait Chunks: Drop {
    /// The bytes still to be given, where the source tells that.
    ghost rest: { Self → Option (List ℕ) };
    /// The end was told. It stays true once it is.
    ghost ended: { Self → Bool };
    /// How often it was pending.
    ghost waits: { Self → ℕ };

    /// Gives some of the bytes that are left into the front of the room, and answers how many. `Ready(0)` into room
    /// that isn't empty is the end. `Pending` gives none, and the task is woken, or is registered to be. It takes no
    /// memory.
    fn poll_fill(&mut self, cx: &mut Context<'_>, room: &mut [u8]) -> Poll<usize>
        ensures bound { IfReady result (λ n. n ≤ length room.new) }
        ensures bytes { IfReady result (λ n. IfSome (rest self.old) (λ told. (take n room.new ≡ take n told)
            × (rest self.new ≡ Some (drop n told)))) }

        // The end is told by one answer, and by no other.
        ensures end { IsEnd result (length room.new) → ended self.new ≡ true }
        ensures nothing_left { IsEnd result (length room.new) → IfSome (rest self.new) (λ told. told ≡ []) }
        ensures told { ended self.new ≡ true → (ended self.old ≡ true) ⊎ IsEnd result (length room.new) }
        ensures ended { ended self.old ≡ true → ended self.new ≡ true }

        // Pending comes only where the count rose, and gives no byte.
        ensures pending { OnPending result (Rose (waits self.old) (waits self.new)) }
        ensures armed { OnPending result (IsArmed cx.new) }
        ensures unread { OnPending result (rest self.new ≡ rest self.old) }

        // What doesn't fall, and what stays.
        ensures counted { waits self.old ≤ waits self.new }
        ensures kept { Keeps cx.old cx.new };
}
