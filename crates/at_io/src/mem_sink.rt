//! The sink in memory, whose puts fail where they are told to.

ghost use Rattle.std.specs.Prelude.{◌≡◌, ◌+◌, ◌-◌, ◌<◌, ◌≤◌, ◌↔◌, ◌++◌, [], take, map, None, Some, vec_len};
ghost use Rattle.std.specs.Prelude.{vec_capacity, IfOk, IsErr, nat_eq, IsTrue};
ghost use Rattle.at_io.specs.Distinct.{all_differ};
ghost use Rattle.at_io.specs.Counts.{next_count};
ghost use Rattle.at_io.specs.PutFails.{limit_at};

use crate::counts;
use crate::shelf::Failed;
use crate::sink::Sink;
use at_text::Memory;
use std::alloc::Global;

/// A put that fails: its number, and how many bytes of its piece are kept at most.
#[derive(Clone, Copy, Debug, PartialEq, Eq)]
pub struct PutFail {
    pub call: u32,
    pub kept: u32,
}

/// A sink in memory, which tells what is written. Its puts are numbered from 0, and one fails exactly where its
/// number is listed or its piece is longer than the room that is left. It then keeps the first bytes of the piece,
/// as many as there is room for, and at most so many as are listed with its number. No put takes memory.
#[derive(Drop)]
pub struct MemSink {
    bytes: Vec<u8>,
    room: usize,
    fails: Vec<PutFail>,
    puts: u64,
    faults: u64,
    ghost within: { vec_len bytes ≤ room },
    ghost reserved: { room ≤ vec_capacity bytes },
}

/// How many bytes the put of that number keeps at most, where it is one that fails.
fn limit_of(fails: &[PutFail], number: u64) -> Option<usize>
    ensures { result ≡ limit_at fails.now number }
{
    for fail in fails {
        if u64::from(fail.call) == number {
            return Some(fail.kept as usize);
        }
    }
    None
}

impl MemSink {
    ghost use Rattle.at_io.specs.MemSinks.{written_of, failing_puts, room_left, puts_of};

    /// A sink with room for so many bytes, of whose puts the listed ones fail. The numbers listed differ.
    pub fn new(alloc: Global, room: u32, fails: Vec<PutFail>) -> Result<Self, Memory>
        requires { IsTrue (all_differ nat_eq (map (λ (f : _). f.call) fails.items)) }
        ensures empty { IfOk result (λ s. written_of s ≡ []) }
        ensures room { IfOk result (λ s. room_left s ≡ room) }
        ensures fails { IfOk result (λ s. failing_puts s ≡ fails.items) }
        ensures counts { IfOk result (λ s. (puts_of s ≡ 0) × (⟦<MemSink as Sink>⟧.faults s ≡ 0)) }
    {
        let room = room as usize;
        Ok(MemSink {
            bytes: Vec::with_capacity(alloc, room)?,
            room,
            fails,
            puts: 0,
            faults: 0,
        })
    }

    /// What is written.
    pub fn written(&self) -> &[u8]
        ensures { result.now ≡ written_of self.now }
    {
        self.bytes.as_slice()
    }
}

impl Sink for MemSink {
    ghost use Rattle.std.specs.Prelude.{Some, ◌-◌, ◌≡◌, ◌↔◌, ◌++◌, ◌≤◌, ◌<◌, take, OnOk, OnErr, IsErr};
    ghost use Rattle.at_io.specs.Counts.{next_count, Rose};
    ghost use Rattle.at_io.specs.Sinks.{Grows, GrowsByPrefix};
    ghost use Rattle.at_io.specs.MemSinks.{written_of, failing_puts, puts_of, faults_of, kept_length, PutFails};
    ghost use Rattle.at_io.specs.MemSinks.{room_left};

    ghost written = { λ s. Some (written_of s) };

    ghost faults = { faults_of };

    fn put(&mut self, piece: &[u8]) -> Result<(), Failed>
        ensures ok { OnOk result (Grows (Some (written_of self.old)) (Some (written_of self.new)) piece.now) }
        ensures unfailed { OnOk result (faults_of self.new ≡ faults_of self.old) }
        ensures failed { OnErr result (Rose (faults_of self.old) (faults_of self.new)) }
        ensures kept { OnErr result (GrowsByPrefix (Some (written_of self.old)) (Some (written_of self.new))
            piece.now) }
        ensures counted { faults_of self.old ≤ faults_of self.new }

        // Exactly when it fails, and what it keeps then.
        ensures cause { IsErr result ↔ PutFails self.old piece.now }
        ensures keeps { written_of self.new ≡ written_of self.old ++ take (kept_length self.old piece.now) piece.now }
        ensures puts { puts_of self.new ≡ next_count (puts_of self.old) }
        ensures same_fails { failing_puts self.new ≡ failing_puts self.old }
        ensures room { room_left self.new ≡ room_left self.old - kept_length self.old piece.now }
    {
        let room = self.room - self.bytes.len();
        let limit = limit_of(&self.fails, self.puts);
        let kept = room.min(limit.unwrap_or(piece.len()).min(piece.len()));
        self.puts = counts::next(self.puts);
        self.bytes.extend_from_slice(&piece[..kept]).unwrap();
        if limit.is_some() || room < piece.len() {
            self.faults = counts::next(self.faults);
            Err(Failed)
        } else {
            Ok(())
        }
    }
}
