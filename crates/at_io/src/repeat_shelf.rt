//! The shelf with one file of equal bytes.

ghost use Rattle.std.specs.Prelude.{false, ◌≡◌, ◌+◌, ◌<◌, ◌≤◌, ◌↔◌, [], ◌∷◌, length, take, drop, replicate};
ghost use Rattle.std.specs.Prelude.{string_bytes, None, Some, IsSome, IsErr, IfOk, OnOk, OnErr};
ghost use Rattle.at_io.specs.Counts.{next_count, Rose};
ghost use Rattle.at_io.specs.Files.{bytes_named, name_among};

use crate::counts::Counts;
use crate::shelf::{Failed, Shelf};

/// A shelf with one file of equal bytes, which tells all that it holds and stores none of the bytes. A call fails
/// exactly where a begin names another file, or where a read would carry the count of bytes taken past 2^64 - 1.
/// A read gives as many bytes as are left and as the room has. No call of its takes memory.
#[derive(Drop)]
pub struct RepeatShelf {
    name: String,
    byte: u8,
    len: u64,
    is_begun: bool,
    left: u64,
    counts: Counts,
    ghost unbegun: { counts.begins ≡ 0 → left ≡ 0 },
}

impl RepeatShelf {
    ghost use Rattle.at_io.specs.RepeatShelves.{files_of, named_of, left_of};

    /// A shelf with the one file of this name, which is `len` times the byte.
    pub fn new(name: String, byte: u8, len: u64) -> Self
        ensures files { files_of result ≡ (string_bytes name, replicate len byte) ∷ [] }
        ensures unbegun { (named_of result ≡ None) × (left_of result ≡ []) }
        ensures counts { let told = ⟦<RepeatShelf as Shelf>⟧ in
            (told.taken result ≡ 0) × (told.begins result ≡ 0) × (told.broken result ≡ 0) × (told.faults result ≡ 0) }
    {
        RepeatShelf {
            name,
            byte,
            len,
            is_begun: false,
            left: 0,
            counts: Counts::zero(),
        }
    }
}

impl Shelf for RepeatShelf {
    ghost use Rattle.std.specs.Prelude.{◌≡◌, ◌+◌, ◌<◌, ◌≤◌, ◌↔◌, [], length, take, drop, Some, IsSome, IsErr, IfOk};
    ghost use Rattle.std.specs.Prelude.{OnOk, OnErr};
    ghost use Rattle.at_io.specs.Counts.{next_count, Rose};
    ghost use Rattle.at_io.specs.Files.{bytes_named, name_among};
    ghost use Rattle.at_io.specs.RepeatShelves.{files_of, named_of, left_of, given_of, taken_of, begins_of, broken_of};
    ghost use Rattle.at_io.specs.RepeatShelves.{faults_of, BeginFails, ReadFails};

    ghost files = { λ s. Some (files_of s) };

    ghost left = { λ s. Some (left_of s) };

    ghost taken = { taken_of };

    ghost begins = { begins_of };

    ghost named = { named_of };

    ghost broken = { broken_of };

    ghost faults = { faults_of };

    fn begin(&mut self, name: &str) -> Result<(), Failed>
        ensures ok { OnOk result (IsSome (bytes_named (files_of self.old) name.now)
            × (Some (left_of self.new) ≡ bytes_named (files_of self.old) name.now)) }
        ensures named { named_of self.new ≡ name_among (files_of self.old) name.now }
        ensures begins { begins_of self.new ≡ next_count (begins_of self.old) }
        ensures failed { OnErr result (Rose (faults_of self.old) (faults_of self.new)) }
        ensures broken { OnErr result (broken_of self.new ≡ begins_of self.new) }
        ensures nothing_left { OnErr result (left_of self.new ≡ []) }
        ensures unbroken { OnOk result (broken_of self.new ≡ broken_of self.old) }
        ensures same_files { files_of self.new ≡ files_of self.old }
        ensures same_taken { taken_of self.new ≡ taken_of self.old }
        ensures counted { faults_of self.old ≤ faults_of self.new }

        // Exactly when it fails.
        ensures cause { IsErr result ↔ BeginFails self.old name.now }
    {
        self.counts.begin();
        self.is_begun = self.name.as_str() == name;
        self.left = if self.is_begun { self.len } else { 0 };
        if self.is_begun {
            Ok(())
        } else {
            Err(self.counts.fail())
        }
    }

    fn read(&mut self, room: &mut [u8]) -> Result<usize, Failed>
        ensures bound { IfOk result (λ n. n ≤ length room.new) }
        ensures bytes { IfOk result (λ n. (take n room.new ≡ take n (left_of self.old))
            × (Some (left_of self.new) ≡ Some (drop n (left_of self.old)))) }
        ensures end { IfOk result (λ n. 0 < length room.new → (n ≡ 0) ↔ (left_of self.old ≡ [])) }
        ensures unbegun { IfOk result (λ n. begins_of self.old ≡ 0 → n ≡ 0) }
        ensures taken { IfOk result (λ n. taken_of self.new ≡ taken_of self.old + n) }
        ensures failed { OnErr result (Rose (faults_of self.old) (faults_of self.new)) }
        ensures broken { OnErr result (broken_of self.new ≡ begins_of self.new) }
        ensures untaken { OnErr result (taken_of self.new ≡ taken_of self.old) }
        ensures unread { OnErr result (Some (left_of self.new) ≡ Some (left_of self.old)) }
        ensures unbroken { OnOk result (broken_of self.new ≡ broken_of self.old) }
        ensures same_files { files_of self.new ≡ files_of self.old }
        ensures same_begins { begins_of self.new ≡ begins_of self.old }
        ensures same_named { named_of self.new ≡ named_of self.old }
        ensures counted { faults_of self.old ≤ faults_of self.new }

        // Exactly when it fails, and how many bytes it gives.
        ensures cause { IsErr result ↔ ReadFails self.old (length room.old) }
        ensures given { IfOk result (λ n. n ≡ given_of self.old (length room.old)) }
    {
        let given = self.left.min(room.len() as u64);
        let Some(taken) = self.counts.taken.checked_add(given) else {
            return Err(self.counts.fail());
        };
        room[..given as usize].fill(self.byte);
        self.counts.taken = taken;
        self.left -= given;
        Ok(given as usize)
    }
}
