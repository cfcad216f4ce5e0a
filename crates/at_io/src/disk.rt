//! The shelf over the disk and the standard input.

ghost use Rattle.std.specs.Prelude.{◌≡◌, ◌≤◌, length, IfOk};
ghost use Rattle.at_io.specs.Counts.{Rose};

use crate::counts::Counts;
use crate::shelf::{Failed, Shelf};
use std::fs;
use std::io::Read;
use std::rt::Files;

/// The name under which the shelf has the standard input.
const INPUT_NAME: &str = "@in";

/// What is read now.
#[derive(Drop)]
enum Source<F, I> {
    Nothing,
    File(F),
    Input(I),
}

/// A shelf over the files of the disk and, under the name `@in`, the standard input. It tells no content: what
/// the system gives can't be known. What std's calls refuse is a fault.
#[derive(Drop)]
pub struct DiskShelf<'r, R: Files + Input> {
    rt: &'r R,
    source: Source<R::File, R::Reader>,
    counts: Counts,
}

impl<'r, R: Files + Input> DiskShelf<'r, R> {
    /// A shelf over the runtime's files, of which nothing is begun yet.
    pub fn new(rt: &'r R) -> Self
        ensures taken { ⟦<DiskShelf<'r, R> as Shelf>⟧.taken result ≡ 0 }
        ensures begins { ⟦<DiskShelf<'r, R> as Shelf>⟧.begins result ≡ 0 }
        ensures broken { ⟦<DiskShelf<'r, R> as Shelf>⟧.broken result ≡ 0 }
        ensures faults { ⟦<DiskShelf<'r, R> as Shelf>⟧.faults result ≡ 0 }
    {
        DiskShelf {
            rt,
            source: Source::Nothing,
            counts: Counts::zero(),
        }
    }
}

impl<F: Read, I: Read> Source<F, I> {
    /// Reads as std's `read`; nothing is at its end.
    fn read(&mut self, room: &mut [u8]) -> std::io::Result<usize>
        ensures bound { IfOk result (λ n. n ≤ length room.new) }
    {
        match self {
            Source::Nothing => Ok(0),
            Source::File(file) => file.read(room),
            Source::Input(input) => input.read(room),
        }
    }
}

impl<R: Files + Input> Shelf for DiskShelf<'_, R> {
    ghost use Rattle.std.specs.Prelude.{None};

    ghost files = { λ _. None };

    ghost left = { λ _. None };

    ghost taken = { λ s. s.counts.taken };

    ghost begins = { λ s. s.counts.begins };

    ghost named = { λ _. None };

    ghost broken = { λ s. s.counts.broken };

    ghost faults = { λ s. s.counts.faults };

    fn begin(&mut self, name: &str) -> Result<(), Failed> {
        self.counts.begin();
        if name == INPUT_NAME {
            self.source = Source::Input(self.rt.reader());
            return Ok(());
        }
        match fs::open(self.rt, name) {
            Ok(file) => {
                self.source = Source::File(file);
                Ok(())
            }
            Err(_) => {
                self.source = Source::Nothing;
                Err(self.counts.fail())
            }
        }
    }

    fn read(&mut self, room: &mut [u8]) -> Result<usize, Failed> {
        if self.counts.begins == 0 {
            return Ok(0);
        }
        let Ok(given) = self.source.read(room) else {
            return Err(self.counts.fail());
        };
        let Some(taken) = self.counts.taken.checked_add(given as u64) else {
            return Err(self.counts.fail());
        };
        self.counts.taken = taken;
        Ok(given)
    }
}
