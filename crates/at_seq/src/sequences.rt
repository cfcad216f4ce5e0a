//! The part of a sequence's features.

ghost use Rattle.std.specs.Prelude.{◌≡◌, ◌-◌, ◌<◌, ◌≤◌, ◌^◌, length, MatchResult, IfOk, None, Some, Err};
ghost use Rattle.at_text.specs.Texts.{base_of as text_begin};
ghost use Rattle.at_text.specs.Refusals.{IfFound};
ghost use Rattle.at_query.specs.Ranges.{IsQueryInRange};
ghost use Rattle.at_blocks.specs.Places.{first_place, last_place};
ghost use Rattle.at_blocks.specs.Blocks.{SomeGivenUp};
ghost use Rattle.at_seq.specs.Sequences.{HasSeqFault, TheSeqFault};
ghost use Rattle.at_seq.specs.Answers.{IsSeqPart, HasProperEntries};

use crate::finishing::finish_spans;
use crate::fragments::run_span;
use crate::readers::SeqReader;
use crate::seq_files::SeqFile;
use at_blocks::{Cuts, run_file};
use at_crew::Gate;
use at_fixed::Coords;
use at_geojson::GeoAlgebra;
use at_query::{Part, Query};
use at_text::{Refusal, Span, base_of};
use std::alloc::Global;
use std::thread::Threads;

/// Why a sequence has no part: its first fault, or want of memory.
pub type SeqEnd = Refusal;

/// The part of a sequence's features under a query, or the sequence's first fault.
///
/// The cuts say in which blocks the bytes are read, and there are so many passes to read them. No clause says anything
/// of the cuts but that they cover the file's text, of the passes but that there are 1 to 64, or of an order of steps:
/// whatever they are, the part is that of the whole bytes.
///
/// # Errors
/// `Found` is the sequence's first fault, exactly where it has one: that of its encoding, or else the first of all
/// others by tiers, then by offset, then by number. `Memory` comes where an allocation was refused, and wherever the
/// gate gives up a block.
pub fn part_seq<G: Gate, R: Threads + Sync>(
    rt: &R,
    alloc: Global,
    bytes: &[u8],
    cuts: &Cuts,
    query: &Query,
    digits: u8,
    how: Coords,
    workers: u32,
    gate: &G,
) -> Result<Part, SeqEnd>
    requires short { length bytes.now ≤ 2 ^ 28 }
    requires first { first_place cuts.now ≡ text_begin bytes.now }
    requires last { last_place cuts.now ≡ length bytes.now }
    requires in_range { IsQueryInRange query.now }
    requires workers { (0 < workers) × (workers ≤ 64) }
    ensures part { MatchResult result (IsSeqPart digits how query.now bytes.now)
        (λ end. IfFound end (λ fault. HasSeqFault digits how bytes.now (Some fault))) }
    ensures only { MatchResult result (λ part. TheSeqFault digits how bytes.now None)
        (λ end. IfFound end (λ fault. TheSeqFault digits how bytes.now (Some fault))) }

    // the part of a join can be joined
    ensures proper { IfOk result HasProperEntries }
    ensures given_up { SomeGivenUp (G.given_up gate.now) 0 (length cuts.now - 1) → result ≡ Err Refusal.Memory }
{
    let copy = query.copy(alloc)?;
    let reader = SeqReader::new(bytes, copy, digits, how);
    let whole = run_file(rt, alloc, &reader, bytes, cuts, workers, gate)?;
    reader.finish_pieces(alloc, whole)
}

/// The part of a sequence's features under the algebra's query, or the sequence's first fault, where all bytes are there
/// and are read at once, without threads.
///
/// # Errors
/// `Found` is the sequence's first fault, exactly where it has one. `Memory` comes where an allocation was refused.
pub fn part_of_whole(alloc: Global, algebra: &GeoAlgebra, bytes: &[u8]) -> Result<Part, SeqEnd>
    requires { length bytes.now ≤ 2 ^ 28 }
    ensures { MatchResult result (IsSeqPart algebra.now.digits algebra.now.how algebra.now.query bytes.now)
        (λ end. IfFound end (λ fault. HasSeqFault algebra.now.digits algebra.now.how bytes.now (Some fault))) }
{
    let file = SeqFile {
        algebra,
        alloc,
        bytes,
    };
    let text = Span {
        from: base_of(bytes),
        to: bytes.len() as u32,
    };
    finish_spans(&file, run_span(&file, text))
}
