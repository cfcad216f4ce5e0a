//! The shelf in memory, whose calls fail where they are told to.

ghost use Rattle.std.specs.Prelude.{false, ◌≡◌, ◌+◌, ◌^◌, ◌<◌, ◌≤◌, ◌↔◌, [], length, take, drop, map, None, Some};
ghost use Rattle.std.specs.Prelude.{slice_get, Contains, IsErr, IfOk, OnOk, OnErr, MatchOption, IsTrue};
ghost use Rattle.std.specs.Prelude.{bytes_eq};
ghost use Rattle.at_io.specs.Distinct.{all_differ};
ghost use Rattle.at_io.specs.Counts.{next_count, Rose};
ghost use Rattle.at_io.specs.Files.{bytes_named, name_among};
ghost use Rattle.at_io.specs.NamedFiles.{entries_of};

use crate::counts::{self, Counts};
use crate::shelf::{Failed, Shelf};
use at_text::{Bytes, Word};

/// A name and the bytes under it.
#[derive(Drop)]
pub struct NamedFile {
    pub name: Word,
    pub bytes: Bytes,
}

/// A shelf in memory, which tells all that it holds. Its calls of `begin` and `read` are numbered from 0, and
/// one fails exactly where its number is listed, where a begin names no file, or where a read would carry the
/// count of bytes taken past 2^64 - 1. No call of its takes memory.
#[derive(Drop)]
pub struct MemShelf {
    files: Vec<NamedFile>,
    fails: Vec<u32>,
    piece: u32,
    calls: u64,
    begun: Option<usize>,
    is_open: bool,
    at: usize,
    counts: Counts,
    ghost gives: { 1 ≤ piece },
    ghost unbegun: { counts.begins ≡ 0 → is_open ≡ false },
}

impl MemShelf {
    ghost use Rattle.at_io.specs.MemShelves.{files_of, failing_calls, named_of, left_of, calls_of, piece_of};

    /// A shelf with these files, whose names differ, whose calls of the listed numbers fail, and each read of
    /// which gives at most `piece` bytes.
    pub fn new(files: Vec<NamedFile>, fails: Vec<u32>, piece: u32) -> Self
        requires names { IsTrue (all_differ bytes_eq (map (λ (f : _). f.name) files.items)) }
        requires piece { 1 ≤ piece }
        ensures files { files_of result ≡ entries_of files.items }
        ensures fails { failing_calls result ≡ fails.items }
        ensures unbegun { (named_of result ≡ None) × (left_of result ≡ []) }
        ensures piece { piece_of result ≡ piece }
        ensures calls { calls_of result ≡ 0 }
        ensures counts { let told = ⟦<MemShelf as Shelf>⟧ in
            (told.taken result ≡ 0) × (told.begins result ≡ 0) × (told.broken result ≡ 0) × (told.faults result ≡ 0) }
    {
        MemShelf {
            files,
            fails,
            piece,
            calls: 0,
            begun: None,
            is_open: false,
            at: 0,
            counts: Counts::zero(),
        }
    }
}

/// The place of the first file of that name.
fn place_of(files: &[NamedFile], name: &str) -> Option<usize>
    ensures { MatchOption result (bytes_named (entries_of files.now) name.now ≡ None)
        (λ i. (f : _) × (slice_get files.now i ≡ Some f) × (f.name ≡ name.now)
        × (bytes_named (entries_of files.now) name.now ≡ Some f.bytes)) }
{
    for (i, file) in files.iter().enumerate() {
        if file.name.as_str() == name {
            return Some(i);
        }
    }
    None
}

impl MemShelf {
    ghost use Rattle.at_io.specs.MemShelves.{failing_calls, left_of};

    /// Whether the next call is one that fails by its number, and counts the call.
    fn counts_failing_call(&mut self) -> bool
        ensures listed { IsTrue result ↔ Contains (failing_calls self.old) self.old.calls }
        ensures calls { self.new ≡ record self.old { calls = next_count self.old.calls } }
    {
        let number = self.calls;
        self.calls = counts::next(number);
        self.fails.iter().any(|call| u64::from(*call) == number)
    }

    /// The bytes not yet read.
    fn left(&self) -> &[u8]
        ensures bytes { result.now ≡ left_of self.now }
        ensures within { self.now.at + length result.now < 2 ^ 64 }
    {
        let at = self.at;
        match self.begun {
            Some(i) if self.is_open && i < self.files.len() => {
                let bytes = self.files[i].bytes.as_slice();
                if at <= bytes.len() { &bytes[at..] } else { &[] }
            }
            _ => &[],
        }
    }
}

impl Shelf for MemShelf {
    ghost use Rattle.std.specs.Prelude.{◌≡◌, ◌+◌, ◌<◌, ◌≤◌, ◌↔◌, [], length, take, drop, Some, IsSome, IsErr, IfOk};
    ghost use Rattle.std.specs.Prelude.{OnOk, OnErr};
    ghost use Rattle.at_io.specs.Counts.{next_count, Rose};
    ghost use Rattle.at_io.specs.Files.{bytes_named, name_among};
    ghost use Rattle.at_io.specs.MemShelves.{files_of, failing_calls, left_of, named_of, calls_of, piece_of, given_of};
    ghost use Rattle.at_io.specs.MemShelves.{taken_of, begins_of, broken_of, faults_of, BeginFails, ReadFails};

    ghost files = { λ s. Some (files_of s) };

    ghost left = { λ s. Some (left_of s) };

    ghost taken = { taken_of };

    ghost begins = { begins_of };

    ghost named = { named_of };

    ghost broken = { broken_of };

    ghost faults = { faults_of };

    fn begin(&mut self, name: &str) -> Result<(), Failed>
        ensures ok { OnOk result (IsSome (bytes_named (files_of self.old) name.now)
            × (Some (left_of self.new) ≡ bytes_named (files_of self.old) name.now)) }
        ensures named { named_of self.new ≡ name_among (files_of self.old) name.now }
        ensures begins { begins_of self.new ≡ next_count (begins_of self.old) }
        ensures failed { OnErr result (Rose (faults_of self.old) (faults_of self.new)) }
        ensures broken { OnErr result (broken_of self.new ≡ begins_of self.new) }
        ensures nothing_left { OnErr result (left_of self.new ≡ []) }
        ensures unbroken { OnOk result (broken_of self.new ≡ broken_of self.old) }
        ensures same_files { files_of self.new ≡ files_of self.old }
        ensures same_taken { taken_of self.new ≡ taken_of self.old }
        ensures counted { faults_of self.old ≤ faults_of self.new }

        // Exactly when it fails, and what else stays.
        ensures cause { IsErr result ↔ BeginFails self.old name.now }
        ensures calls { calls_of self.new ≡ next_count (calls_of self.old) }
        ensures same_fails { failing_calls self.new ≡ failing_calls self.old }
        ensures same_piece { piece_of self.new ≡ piece_of self.old }
    {
        let fails = self.counts_failing_call();
        self.counts.begin();
        self.begun = place_of(&self.files, name);
        self.is_open = !fails && self.begun.is_some();
        self.at = 0;
        if self.is_open {
            Ok(())
        } else {
            Err(self.counts.fail())
        }
    }

    fn read(&mut self, room: &mut [u8]) -> Result<usize, Failed>
        ensures bound { IfOk result (λ n. n ≤ length room.new) }
        ensures bytes { IfOk result (λ n. (take n room.new ≡ take n (left_of self.old))
            × (Some (left_of self.new) ≡ Some (drop n (left_of self.old)))) }
        ensures end { IfOk result (λ n. 0 < length room.new → (n ≡ 0) ↔ (left_of self.old ≡ [])) }
        ensures unbegun { IfOk result (λ n. begins_of self.old ≡ 0 → n ≡ 0) }
        ensures taken { IfOk result (λ n. taken_of self.new ≡ taken_of self.old + n) }
        ensures failed { OnErr result (Rose (faults_of self.old) (faults_of self.new)) }
        ensures broken { OnErr result (broken_of self.new ≡ begins_of self.new) }
        ensures untaken { OnErr result (taken_of self.new ≡ taken_of self.old) }
        ensures unread { OnErr result (Some (left_of self.new) ≡ Some (left_of self.old)) }
        ensures unbroken { OnOk result (broken_of self.new ≡ broken_of self.old) }
        ensures same_files { files_of self.new ≡ files_of self.old }
        ensures same_begins { begins_of self.new ≡ begins_of self.old }
        ensures same_named { named_of self.new ≡ named_of self.old }
        ensures counted { faults_of self.old ≤ faults_of self.new }

        // Exactly when it fails, how many bytes it gives, and what else stays.
        ensures cause { IsErr result ↔ ReadFails self.old (length room.old) }
        ensures given { IfOk result (λ n. n ≡ given_of self.old (length room.old)) }
        ensures calls { calls_of self.new ≡ next_count (calls_of self.old) }
        ensures same_fails { failing_calls self.new ≡ failing_calls self.old }
        ensures same_piece { piece_of self.new ≡ piece_of self.old }
    {
        let fails = self.counts_failing_call();
        let left = self.left();
        let given = left.len().min(room.len()).min(self.piece as usize);
        let Some(taken) = self.counts.taken.checked_add(given as u64) else {
            return Err(self.counts.fail());
        };
        if fails {
            return Err(self.counts.fail());
        }
        room[..given].copy_from_slice(&left[..given]);
        self.counts.taken = taken;
        self.at += given;
        Ok(given)
    }
}
