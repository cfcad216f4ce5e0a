//! The bytes that came, and what is read of them so far.

ghost use Rattle.std.specs.Prelude.{◌≡◌, ◌≤◌, ◌++◌, [], false, length, OnOk};
ghost use Rattle.at_task.specs.FeedEnds.{most_bytes, IsFed};
ghost use Rattle.at_task.specs.Keeping.{keeps_any, IsKept};

use crate::ends::FeedEnd;
use crate::kept::Kept;
use crate::ranks::{Ranked, join_all, read_rest, settle};
use at_query::Part;
use at_run::{FileFragment, Reader};
use at_text::Memory;
use std::alloc::Global;
use std::marker::Model;
use std::mem;

/// How many bytes are gathered before they are read as a piece.
const PIECE: usize = 1 << 20;

/// The bytes that came, and the fragments of those that are read. What is wanted of memory to take more is had before
/// they are asked for, so that no byte that was given is lost.
#[derive(Drop)]
pub struct Intake {
    alloc: Global,
    reader: Reader,
    bytes: Vec<u8>,
    ranks: Vec<Ranked<FileFragment>>,
    read: usize,
    kept: Kept,
}

impl Model for Intake {
    ghost use Rattle.std.specs.Prelude.{◌-◌, ◌≤◌, ◌+◌, vec_len, vec_capacity};
    ghost use Rattle.at_run.specs.Readers.{StandsInForm};
    ghost use Rattle.at_task.specs.Ranking.{Taking, ReadUpTo};
    ghost use Rattle.at_task.specs.Keeping.{keeps_any, IsKept};

    ghost Value = { Taking };

    ghost view = { λ i. record {
      asks = i.reader;
      taken = i.bytes.items;
      spare = vec_capacity i.bytes - vec_len i.bytes;
      kept = keeps_any i.kept;
    } };

    ghost invariant = { λ i. ReadUpTo (StandsInForm i.reader) i.bytes.items i.read i.ranks.items
        × IsKept i.reader i.bytes.items i.kept };
}

impl Intake {
    /// Nothing is taken yet.
    pub fn new(alloc: Global, reader: Reader) -> Intake
        ensures asks { result.asks ≡ reader }
        ensures taken { result.taken ≡ [] }
        ensures kept { result.kept ≡ false }
    {
        Intake {
            alloc,
            reader,
            bytes: Vec::new(alloc),
            ranks: Vec::new(alloc),
            read: 0,
            kept: Kept::Nothing,
        }
    }

    /// How many bytes were taken.
    pub fn len(&self) -> usize
        ensures { result ≡ length self.now.taken }
    {
        self.bytes.len()
    }

    /// Makes room for so many more bytes.
    pub fn make_room(&mut self, more: usize) -> Result<(), Memory>
        ensures room { OnOk result (more ≤ self.new.spare) }
        ensures asks { self.new.asks ≡ self.old.asks }
        ensures taken { self.new.taken ≡ self.old.taken }
        ensures kept { self.new.kept ≡ self.old.kept }
    {
        self.bytes.reserve(more)?;
        Ok(())
    }

    /// Takes a chunk, for which there is room.
    pub fn take(&mut self, chunk: &[u8])
        requires room { length chunk.now ≤ self.old.spare }
        ensures asks { self.new.asks ≡ self.old.asks }
        ensures taken { self.new.taken ≡ self.old.taken ++ chunk.now }
        ensures kept { self.new.kept ≡ false }
    {
        self.kept = Kept::Nothing;
        self.bytes.extend_from_slice(chunk).unwrap();
    }

    /// Reads what was taken since the last piece, where that is enough for another one.
    pub fn read_on(&mut self) -> Result<(), Memory>
        requires short { length self.old.taken ≤ most_bytes }
        ensures asks { self.new.asks ≡ self.old.asks }
        ensures taken { self.new.taken ≡ self.old.taken }
        ensures kept { self.new.kept ≡ self.old.kept }
    {
        if self.bytes.len() - self.read < PIECE {
            return Ok(());
        }
        let alloc = self.alloc;
        let bytes = self.bytes.as_slice();
        let to = bytes.len();
        let piece = read_rest(alloc, &self.reader, bytes, self.read);
        match settle(alloc, &self.reader, bytes, &mut self.ranks, piece, to) {
            Ok(()) => {
                self.read = to;
                Ok(())
            }
            Err(_) => {
                self.ranks.clear();
                self.read = 0;
                Err(Memory)
            }
        }
    }

    /// The part of the features of what was taken, or its first fault. Nothing is read of it any more.
    pub fn finish(&mut self) -> Result<Part, FeedEnd>
        requires short { length self.old.taken ≤ most_bytes }
        ensures asks { self.new.asks ≡ self.old.asks }
        ensures taken { self.new.taken ≡ self.old.taken }
        ensures kept { self.new.kept ≡ self.old.kept }
        ensures fed { IsFed self.old.asks self.old.taken result }
    {
        let alloc = self.alloc;
        let bytes = self.bytes.as_slice();
        let last = read_rest(alloc, &self.reader, bytes, self.read);
        let ranks = mem::replace(&mut self.ranks, Vec::new(alloc));
        self.read = 0;
        let whole = join_all(alloc, &self.reader, bytes, ranks, last);
        match self.reader.finish_pieces(alloc, bytes, whole) {
            Ok(part) => Ok(part),
            Err(end) => Err(FeedEnd::of_file(end)),
        }
    }

    /// Keeps what is said of the bytes.
    pub fn keep(&mut self, kept: Kept)
        requires { IsKept self.old.asks self.old.taken kept }
        ensures asks { self.new.asks ≡ self.old.asks }
        ensures taken { self.new.taken ≡ self.old.taken }
        ensures kept { self.new.kept ≡ keeps_any kept }
    {
        self.kept = kept;
    }

    /// Takes what is kept.
    pub fn take_kept(&mut self) -> Kept
        ensures said { IsKept self.old.asks self.old.taken result }
        ensures there { keeps_any result ≡ self.old.kept }
        ensures asks { self.new.asks ≡ self.old.asks }
        ensures taken { self.new.taken ≡ self.old.taken }
    {
        mem::replace(&mut self.kept, Kept::Nothing)
    }
}
