//! The answer to a query over a file, and the part of its features.

ghost use Rattle.std.specs.Prelude.{◌≡◌, ◌≢◌, ◌-◌, ◌<◌, ◌≤◌, ◌^◌, length, MatchResult, None, Some, Err};
ghost use Rattle.at_text.specs.Texts.{base_of as text_begin};
ghost use Rattle.at_text.specs.Refusals.{IfFound};
ghost use Rattle.at_query.specs.Ranges.{IsQueryInRange};
ghost use Rattle.at_blocks.specs.Places.{first_place, last_place};
ghost use Rattle.at_blocks.specs.Blocks.{SomeGivenUp};
ghost use Rattle.at_run.specs.Files.{HasFileFaultIn, TheFileFaultIn};
ghost use Rattle.at_run.specs.Answers.{IsFilePart, IsFileAnswer};

use crate::faults::RunFault;
use crate::forms::Form;
use crate::readers::Reader;
use at_blocks::{Cuts, run_file};
use at_crew::Gate;
use at_fixed::Coords;
use at_query::{Answer, Part, Query, Verb, answer_of};
use at_seq::part_seq;
use at_text::Refusal;
use std::alloc::Global;
use std::thread::Threads;

/// The part of a file's features under a query, or the file's first fault. It is what [`answer`] answers from, and
/// what two files are joined by; the cuts, the passes and the gate are those of `answer`.
///
/// The blocks of a sequence are read by at_seq, which has all the file's bytes at hand.
///
/// # Errors
/// Those of `answer`.
pub fn part<G: Gate, R: Threads + Sync>(
    rt: &R,
    alloc: Global,
    bytes: &[u8],
    form: Form,
    cuts: &Cuts,
    query: &Query,
    digits: u8,
    how: Coords,
    workers: u32,
    gate: &G,
) -> Result<Part, RunFault>
    requires short { length bytes.now ≤ 2 ^ 28 }
    requires first { first_place cuts.now ≡ text_begin bytes.now }
    requires last { last_place cuts.now ≡ length bytes.now }
    requires in_range { IsQueryInRange query.now }
    requires workers { (0 < workers) × (workers ≤ 64) }
    ensures answer { MatchResult result (IsFilePart form digits how query.now bytes.now)
        (λ end. IfFound end (λ fault. HasFileFaultIn form digits how bytes.now (Some fault))) }
    ensures given_up { SomeGivenUp (G.given_up gate.now) 0 (length cuts.now - 1) → result ≡ Err Refusal.Memory }
{
    match form {
        Form::Seq => part_seq(rt, alloc, bytes, cuts, query, digits, how, workers, gate),
        _ => {
            let copy = query.copy(alloc)?;
            let reader = Reader::new(form, copy, digits, how);
            let whole = run_file(rt, alloc, &reader, bytes, cuts, workers, gate)?;
            reader.finish_pieces(alloc, bytes, whole)
        }
    }
}

/// The answer to a query over a file's features, or the file's first fault.
///
/// The cuts say in which blocks the bytes are read, and there are so many passes to read them. No clause says anything
/// of the cuts but that they cover the file's text, of the passes but that there are 1 to 64, or of an order of steps:
/// whatever they are, the answer is that of the whole bytes.
///
/// # Errors
/// `Found` is the file's first fault, exactly where it has one: that of its encoding, or else the first of all others
/// by tiers, then by offset, then by number. `Memory` comes where an allocation was refused, and wherever the gate
/// gives up a block.
pub fn answer<G: Gate, R: Threads + Sync>(
    rt: &R,
    alloc: Global,
    bytes: &[u8],
    form: Form,
    cuts: &Cuts,
    query: &Query,
    digits: u8,
    how: Coords,
    workers: u32,
    gate: &G,
) -> Result<Answer, RunFault>
    requires short { length bytes.now ≤ 2 ^ 28 }
    requires first { first_place cuts.now ≡ text_begin bytes.now }
    requires last { last_place cuts.now ≡ length bytes.now }
    requires no_join { query.now.verb ≢ Verb.Join }
    requires in_range { IsQueryInRange query.now }
    requires workers { (0 < workers) × (workers ≤ 64) }
    ensures answer { MatchResult result (IsFileAnswer form digits how query.now bytes.now)
        (λ end. IfFound end (λ fault. HasFileFaultIn form digits how bytes.now (Some fault))) }
    ensures only { MatchResult result (λ answer. TheFileFaultIn form digits how bytes.now None)
        (λ end. IfFound end (λ fault. TheFileFaultIn form digits how bytes.now (Some fault))) }
    ensures given_up { SomeGivenUp (G.given_up gate.now) 0 (length cuts.now - 1) → result ≡ Err Refusal.Memory }
{
    let part = part(
        rt, alloc, bytes, form, cuts, query, digits, how, workers, gate,
    )?;
    Ok(answer_of(part))
}
