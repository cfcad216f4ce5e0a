//! What files are read from.

ghost use Rattle.std.specs.Prelude.{◌≡◌, ◌+◌, ◌<◌, ◌≤◌, ◌↔◌, ℕ, List, [], length, take, drop, Option, Some, IsSome};
ghost use Rattle.std.specs.Prelude.{IfSome, IfOk, OnOk, OnErr};
ghost use Rattle.at_io.specs.Counts.{next_count, Rose};
ghost use Rattle.at_io.specs.Files.{Files, bytes_named, name_among};

/// A call on a shelf or a sink failed: its count of faults rose.
#[derive(Clone, Copy, Debug, PartialEq, Eq)]
pub struct Failed;

/// Files that are begun by name and read from their first byte on, one at a time.
///
/// A count never falls. Those of begins and of failures stand still at 2^64 - 1; that of bytes is the sum of all that
/// was given. What a shelf doesn't tell, nothing is claimed of.
pub trait Shelf {
    /// The names with the bytes under them, where the shelf tells that. No call changes it.
    ghost files: { Self → Option Files };
    /// The bytes not yet read of the file begun last, where the shelf tells that.
    ghost left: { Self → Option (List ℕ) };
    /// How many bytes its reads have given.
    ghost taken: { Self → ℕ };
    /// How often a file was begun.
    ghost begins: { Self → ℕ };
    /// The name begun last, where the files are told and have it.
    ghost named: { Self → Option (List ℕ) };
    /// The count of begins after the last call that failed, and 0 before any call failed.
    ghost broken: { Self → ℕ };
    /// How often it has failed.
    ghost faults: { Self → ℕ };

    /// Goes to the first byte of the file of that name. After `Failed` nothing is left to read.
    fn begin(&mut self, name: &str) -> Result<(), Failed>
        ensures ok { OnOk result (IfSome (files self.old) (λ told. IsSome (left self.new)
            × (left self.new ≡ bytes_named told name.now))) }
        ensures named { IfSome (files self.old) (λ told. named self.new ≡ name_among told name.now) }
        ensures begins { begins self.new ≡ next_count (begins self.old) }

        // Failed comes only where the count of faults rose.
        ensures failed { OnErr result (Rose (faults self.old) (faults self.new)) }
        ensures broken { OnErr result (broken self.new ≡ begins self.new) }
        ensures nothing_left { OnErr result (IfSome (left self.new) (λ told. told ≡ [])) }

        // What stays, and what doesn't fall.
        ensures unbroken { OnOk result (broken self.new ≡ broken self.old) }
        ensures same_files { files self.new ≡ files self.old }
        ensures same_taken { taken self.new ≡ taken self.old }
        ensures counted { faults self.old ≤ faults self.new };

    /// Reads some of the bytes that are left into the front of the room, and answers how many. `Ok(0)` into
    /// room that isn't empty is the end of the file. After `Failed` the room may hold any bytes.
    fn read(&mut self, room: &mut [u8]) -> Result<usize, Failed>
        ensures bound { IfOk result (λ n. n ≤ length room.new) }
        ensures bytes { IfOk result (λ n. IfSome (left self.old) (λ told. (take n room.new ≡ take n told)
            × (left self.new ≡ Some (drop n told)))) }
        ensures end { IfOk result (λ n. 0 < length room.new → IfSome (left self.old) (λ told. (n ≡ 0) ↔ (told ≡ []))) }
        ensures unbegun { IfOk result (λ n. begins self.old ≡ 0 → n ≡ 0) }
        ensures taken { IfOk result (λ n. taken self.new ≡ taken self.old + n) }

        // Failed comes only where the count of faults rose, and gives no byte.
        ensures failed { OnErr result (Rose (faults self.old) (faults self.new)) }
        ensures broken { OnErr result (broken self.new ≡ begins self.new) }
        ensures untaken { OnErr result (taken self.new ≡ taken self.old) }
        ensures unread { OnErr result (left self.new ≡ left self.old) }

        // What stays, and what doesn't fall.
        ensures unbroken { OnOk result (broken self.new ≡ broken self.old) }
        ensures same_files { files self.new ≡ files self.old }
        ensures same_begins { begins self.new ≡ begins self.old }
        ensures same_named { named self.new ≡ named self.old }
        ensures counted { faults self.old ≤ faults self.new };
}
