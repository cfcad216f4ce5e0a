//! The answer to a join over two files.

ghost use Rattle.std.specs.Prelude.{◌≡◌, ◌-◌, ◌<◌, ◌≤◌, ◌^◌, [], length, MatchResult, Some, None, Err, IfOk};
ghost use Rattle.at_text.specs.Texts.{base_of as text_begin};
ghost use Rattle.at_text.specs.Refusals.{IfFound};
ghost use Rattle.at_query.specs.Ranges.{IsQueryInRange};
ghost use Rattle.at_query.specs.Parts.{AreProper};
ghost use Rattle.at_blocks.specs.Places.{first_place, last_place};
ghost use Rattle.at_blocks.specs.Blocks.{NoneGivenUp};
ghost use Rattle.at_run.specs.Files.{HasFileFaultIn};
ghost use Rattle.at_run.specs.Answers.{IsFilePart, IsJoinAnswer, IsJoinFault, TheFilesFaults, IsTheJoinFault};
ghost use Rattle.at_run.specs.Joins.{PairsWith, EndsSecond};

use crate::answers::part;
use crate::faults::JoinFault;
use crate::forms::Form;
use at_blocks::Cuts;
use at_crew::Gate;
use at_fixed::Coords;
use at_join::pairs_grid;
use at_query::{Answer, Entries, Part, Query, Tests, Verb};
use at_text::{Fault, Refusal};
use std::alloc::Global;
use std::thread::Threads;

/// The entries that are the part of a join. It takes no memory.
pub fn entries_of(part: Part) -> Entries
    requires { (entries : Entries) × (part ≡ Part.Entries entries) }
    ensures { part ≡ Part.Entries result }
{
    match part {
        Part::Entries(entries) => entries,
        _ => unreachable!(),
    }
}

/// The query that asks for all features, to join them with others. It takes no memory.
pub fn of_all(alloc: Global) -> Query
    ensures verb { result.verb ≡ Verb.Join }
    ensures tests { result.tests ≡ [] }
{
    Query {
        verb: Verb::Join,
        tests: Tests::from_vec(Vec::new(alloc)),
    }
}

/// The entries of a file's features under a query, or the file's first fault.
fn entries<G: Gate, R: Threads + Sync>(
    rt: &R,
    alloc: Global,
    bytes: &[u8],
    form: Form,
    cuts: &Cuts,
    query: &Query,
    digits: u8,
    how: Coords,
    workers: u32,
    gate: &G,
) -> Result<Entries, Refusal>
    requires short { length bytes.now ≤ 2 ^ 28 }
    requires first { first_place cuts.now ≡ text_begin bytes.now }
    requires last { last_place cuts.now ≡ length bytes.now }
    requires join { query.now.verb ≡ Verb.Join }
    requires in_range { IsQueryInRange query.now }
    requires workers { (0 < workers) × (workers ≤ 64) }
    ensures part { MatchResult result (λ (entries : _). IsFilePart form digits how query.now bytes.now
        (Part.Entries entries))
        (λ end. IfFound end (λ fault. HasFileFaultIn form digits how bytes.now (Some fault))) }
    ensures proper { IfOk result AreProper }
    ensures given_up { IfOk result (λ _. NoneGivenUp (G.given_up gate.now) 0 (length cuts.now - 1)) }
{
    let part = part(
        rt, alloc, bytes, form, cuts, query, digits, how, workers, gate,
    )?;
    Ok(entries_of(part))
}

/// The answer to a join of entries with those of a second file, or why the second file has none.
///
/// It searches the 64 cells of a grid over both, and there are so many passes to do it; no clause says which of them
/// searches what, or that it enters the gate.
///
/// # Errors
/// `Second` is the second file's fault, exactly where it has one. `Memory` comes where an allocation was refused, and
/// in the place of an answer wherever the gate gives up a cell.
fn join_with<G: Gate, R: Threads + Sync>(
    rt: &R,
    alloc: Global,
    first: Entries,
    second: Result<Entries, Refusal>,
    workers: u32,
    gate: &G,
) -> Result<Answer, JoinFault>
    requires first { AreProper first }
    requires second { IfOk second AreProper }
    requires workers { (0 < workers) × (workers ≤ 64) }
    ensures answer { MatchResult result (PairsWith first second) (EndsSecond second) }
    ensures found { (fault : Fault) → second ≡ Err (Refusal.Found fault) → result ≡ Err (JoinFault.Second fault) }
    ensures gate { IfOk result (λ _. NoneGivenUp (G.given_up gate.now) 0 64) }
{
    let entries = match second {
        Ok(entries) => entries,
        Err(Refusal::Found(fault)) => return Err(JoinFault::Second(fault)),
        Err(Refusal::Memory) => return Err(JoinFault::Memory),
    };
    match pairs_grid(rt, alloc, first, entries, workers, gate) {
        Ok(pairs) => Ok(Answer::Pairs(pairs)),
        Err(_) => Err(JoinFault::Memory),
    }
}

/// The answer to a join over the features of two files, or the first fault of the first file that has one.
///
/// The query's tests are of the features of `a`: those of which all tests hold are joined with all features of `b`.
/// The cuts say in which blocks each file is read, and there are so many passes to read them, and to search the 64
/// cells of a grid over both. No clause says anything of the cuts but that they cover the files' texts, of the passes
/// but that there are 1 to 64, of an order of steps, or of entering the gate: whatever they are, the answer is that of
/// the whole bytes.
///
/// # Errors
/// `First` comes exactly where `a` has a fault, and `Second` exactly where `a` has none and `b` has one, each with the
/// first of them. `Memory` comes where an allocation was refused, and in the place of an answer wherever the gate gives
/// up a block or a cell.
pub fn answer_join<G: Gate, R: Threads + Sync>(
    rt: &R,
    alloc: Global,
    a: &[u8],
    form_a: Form,
    b: &[u8],
    form_b: Form,
    cuts_a: &Cuts,
    cuts_b: &Cuts,
    query: &Query,
    digits: u8,
    how: Coords,
    workers: u32,
    gate: &G,
) -> Result<Answer, JoinFault>
    requires short_a { length a.now ≤ 2 ^ 28 }
    requires short_b { length b.now ≤ 2 ^ 28 }
    requires first_a { first_place cuts_a.now ≡ text_begin a.now }
    requires last_a { last_place cuts_a.now ≡ length a.now }
    requires first_b { first_place cuts_b.now ≡ text_begin b.now }
    requires last_b { last_place cuts_b.now ≡ length b.now }
    requires join { query.now.verb ≡ Verb.Join }
    requires in_range { IsQueryInRange query.now }
    requires workers { (0 < workers) × (workers ≤ 64) }
    ensures answer { MatchResult result (IsJoinAnswer form_a form_b digits how query.now a.now b.now)
        (IsJoinFault form_a form_b digits how a.now b.now) }
    ensures only { MatchResult result (λ _. TheFilesFaults form_a form_b digits how a.now b.now None None)
        (IsTheJoinFault form_a form_b digits how a.now b.now) }
    ensures gate_a { IfOk result (λ _. NoneGivenUp (G.given_up gate.now) 0 (length cuts_a.now - 1)) }
    ensures gate_b { IfOk result (λ _. NoneGivenUp (G.given_up gate.now) 0 (length cuts_b.now - 1)) }
    ensures gate_cells { IfOk result (λ _. NoneGivenUp (G.given_up gate.now) 0 64) }
{
    let all = of_all(alloc);
    let first = match entries(
        rt, alloc, a, form_a, cuts_a, query, digits, how, workers, gate,
    ) {
        Ok(entries) => entries,
        Err(end) => return Err(JoinFault::of_first(end)),
    };
    let second = entries(
        rt, alloc, b, form_b, cuts_b, &all, digits, how, workers, gate,
    );
    join_with(rt, alloc, first, second, workers, gate)
}
