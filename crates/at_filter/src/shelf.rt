//! The shelf whose files are another's behind a filter.

ghost use Rattle.std.specs.Prelude.{◌≡◌, ◌+◌, ◌<◌, ◌≤◌, ◌↔◌, [], length, take, drop, Some, IsSome, IfSome, IfOk};
ghost use Rattle.std.specs.Prelude.{OnOk, OnErr, option_map};
ghost use Rattle.at_io.specs.Counts.{next_count, Rose};
ghost use Rattle.at_io.specs.Files.{bytes_named, name_among};
ghost use Rattle.at_filter.specs.Filters.{filtered, filtered_files};

use crate::filter::{Filter, Seen, pass_front};
use at_io::{Failed, Shelf};

/// A shelf that has the files of another one behind a filter, each from its first byte on. Its calls fail where the other
/// one's do, and it counts what that counts.
#[derive(Drop)]
pub struct FilteredShelf<S> {
    shelf: S,
    filter: Filter,
    seen: Seen,
}

impl<S: Shelf> FilteredShelf<S> {
    /// The shelf's files behind the filter.
    pub fn new(shelf: S, filter: Filter) -> Self
        ensures files { ⟦<FilteredShelf<S> as Shelf>⟧.files result ≡ option_map (filtered_files filter) (S.files shelf) }
        ensures left { ⟦<FilteredShelf<S> as Shelf>⟧.left result
            ≡ option_map (filtered filter Seen.Nothing) (S.left shelf) }
        ensures counts { let told = ⟦<FilteredShelf<S> as Shelf>⟧ in (told.taken result ≡ S.taken shelf)
            × (told.begins result ≡ S.begins shelf) × (told.broken result ≡ S.broken shelf)
            × (told.faults result ≡ S.faults shelf) × (told.named result ≡ S.named shelf) }
    {
        FilteredShelf {
            shelf,
            filter,
            seen: Seen::Nothing,
        }
    }
}

impl<S: Shelf> Shelf for FilteredShelf<S> {
    ghost use Rattle.std.specs.Prelude.{option_map};
    ghost use Rattle.at_filter.specs.Filters.{filtered, filtered_files};

    ghost files = { λ s. option_map (filtered_files s.filter) (S.files s.shelf) };

    ghost left = { λ s. option_map (filtered s.filter s.seen) (S.left s.shelf) };

    ghost taken = { λ s. S.taken s.shelf };

    ghost begins = { λ s. S.begins s.shelf };

    ghost named = { λ s. S.named s.shelf };

    ghost broken = { λ s. S.broken s.shelf };

    ghost faults = { λ s. S.faults s.shelf };

    fn begin(&mut self, name: &str) -> Result<(), Failed> {
        self.seen = Seen::Nothing;
        self.shelf.begin(name)
    }

    fn read(&mut self, room: &mut [u8]) -> Result<usize, Failed> {
        let Ok(given) = self.shelf.read(room) else {
            return Err(Failed);
        };
        self.seen = pass_front(self.filter, self.seen, room, given);
        Ok(given)
    }
}
