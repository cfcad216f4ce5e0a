//! A file read in blocks by several threads at once, as a job of a crew.

ghost use Rattle.std.specs.Prelude.{◌+◌, ◌-◌, ◌≤◌, ◌<◌, ◌^◌, IfOk, length};
ghost use Rattle.std.specs.List.Sorted.{IsNonDecreasing};
ghost use Rattle.at_text.specs.Spans.{StandsAt};
ghost use Rattle.at_blocks.specs.Places.{first_place, last_place};
ghost use Rattle.at_blocks.specs.Blocks.{NoneGivenUp, StandsForBlocks};

use crate::cuts::Cuts;
use at_crew::{Gate, Job, run_crew};
use at_text::{Memory, Pieces};
use std::alloc::Global;
use std::collections::LinkedList;
use std::thread::Threads;

/// What the meaning of a file's parts rests on. No value of it is made when a program runs.
pub struct FileFacts<P> {
    pub bytes: LinkedList<u8>,
    pub places: LinkedList<u32>,
    pub reader: P,
    /// The blocks that the gate gives up.
    pub given_up: LinkedList<u32>,
}

/// What some blocks of a file give.
#[derive(Drop)]
pub enum FilePart<F> {
    /// At least one of the blocks is given up.
    GivenUp,
    /// None is, and this is the fragment of their bytes.
    Read(F),
}

/// A file that is read in blocks: the blocks lie between the places, and the gate says which are given up.
#[derive(Drop)]
pub struct FileJob<'a, P, G> {
    reader: &'a P,
    bytes: &'a [u8],
    places: &'a [u32],
    gate: &'a G,
    ghost short: { length bytes.now ≤ 2 ^ 28 },
    ghost some: { 1 < length places.now },
    ghost order: { IsNonDecreasing places.now },
    ghost within: { last_place places.now ≤ length bytes.now },
}

impl<'a, P: Pieces, G: Gate> Job for FileJob<'a, P, G> {
    type Part = FilePart<P::Fragment>;

    type Facts = FileFacts<P>;

    ghost facts = { λ j. record {
      bytes = j.bytes.now;
      places = j.places.now;
      reader = j.reader.now;
      given_up = G.given_up j.gate.now;
    } };

    ghost count = { λ f. length f.places - 1 };

    ghost stands = { λ f part from to. StandsForBlocks (P.stands f.reader) f.bytes f.places f.given_up part from to };

    fn run(&self, alloc: Global, block: u32) -> FilePart<P::Fragment> {
        if self.gate.gives_up(block) {
            return FilePart::GivenUp;
        }
        let from = self.places[block as usize];
        let to = self.places[block as usize + 1];
        let piece = &self.bytes[from as usize..to as usize];
        FilePart::Read(self.reader.run_piece(alloc, piece, from))
    }

    fn merge(
        &self,
        alloc: Global,
        left: FilePart<P::Fragment>,
        right: FilePart<P::Fragment>,
    ) -> FilePart<P::Fragment> {
        match (left, right) {
            (FilePart::Read(left), FilePart::Read(right)) => {
                FilePart::Read(self.reader.merge_pieces(alloc, self.bytes, left, right))
            }
            (FilePart::GivenUp, _) => FilePart::GivenUp,
            (_, FilePart::GivenUp) => FilePart::GivenUp,
        }
    }
}

/// The fragment of all bytes from the first place to the last. The blocks are the job of a crew of so many passes; no
/// clause says which pass reads what, in which order, or that it enters the gate.
///
/// # Errors
/// `Memory` wherever the gate gives up a block, and else for want of memory.
pub fn run_file<P: Pieces, G: Gate, R: Threads + Sync>(
    rt: &R,
    alloc: Global,
    reader: &P,
    bytes: &[u8],
    cuts: &Cuts,
    workers: u32,
    gate: &G,
) -> Result<P::Fragment, Memory>
    requires short { length bytes.now ≤ 2 ^ 28 }
    requires within { last_place cuts.now ≤ length bytes.now }
    requires workers { (0 < workers) × (workers ≤ 64) }
    ensures whole { IfOk result (StandsAt (P.stands reader.now) bytes.now (first_place cuts.now)
        (last_place cuts.now)) }
    ensures given_up { IfOk result (λ _. NoneGivenUp (G.given_up gate.now) 0 (length cuts.now - 1)) }
{
    let places = cuts.as_slice();
    let job = FileJob {
        reader,
        bytes,
        places,
        gate,
    };
    let blocks = (places.len() - 1) as u32;
    match run_crew(rt, alloc, &job, blocks, workers, gate)? {
        FilePart::GivenUp => Err(Memory),
        FilePart::Read(whole) => Ok(whole),
    }
}
