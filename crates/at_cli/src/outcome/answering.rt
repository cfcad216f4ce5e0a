//! The end over the bytes of the files that were read, in blocks or in chunks.

ghost use Rattle.std.specs.Prelude.{◌≡◌, ◌≢◌, ◌+◌, ◌≤◌, ◌^◌, List, ℕ, length, Some, None, IsSome, IsOk, IfOk, MatchResult};
ghost use Rattle.at_query.specs.declared.query.queries.Verb.{Verb};
ghost use Rattle.at_query.specs.Ranges.{IsQueryInRange};
ghost use Rattle.at_run.specs.Answers.{IsFileAnswer, IsJoinAnswer, IsJoinFault};
ghost use Rattle.at_blocks.specs.Places.{IsLeastCount, first_place, last_place};
ghost use Rattle.at_text.specs.Texts.{base_of as text_begin};
ghost use Rattle.at_text.specs.Refusals.{IfFound};
ghost use Rattle.at_run.specs.Files.{HasFileFaultIn};
ghost use Rattle.at_cli.specs.LineOf.{form_of as form_told, KeepsLimits};
ghost use Rattle.at_cli.specs.Gates.{PassesGate};
ghost use Rattle.at_cli.specs.Endings.{status_of};
ghost use Rattle.at_cli.specs.Loading.{IsLate, TellsAnswer, IsEndOf, IsEndOfJoin, EndsOne, EndsTwo, Leads};
ghost use Rattle.at_cli.specs.Loading.{IsOneReady, IsTwoReady, IsReady, PassesLoaded, chunk_size as size_asked};

use crate::outcome::ending::Ending;
use crate::outcome::feeding::{fed_answer, fed_join};
use crate::outcome::loading::{Loaded, OneFile, TwoFiles, second_of, second_text};
use crate::words::form::form_of;
use crate::words::line::Line;
use at_blocks::Cuts;
use at_crew::Gate;
use at_query::{Answer, Query, answer_text};
use at_run::{Form, JoinFault, answer, answer_join};
use at_text::{Memory, Refusal, base_of};
use std::alloc::{AllocGlobal, Global};
use std::random::RandomSource;
use std::sync::Wait;
use std::thread::Threads;

/// The cuts of a file into at least so many blocks: even ones, which in GeoJSON are moved to where features seem to begin.
fn cuts_of(alloc: Global, bytes: &[u8], form: Form, blocks: u32) -> Result<Cuts, Memory>
    requires limit { length bytes.now ≤ 2 ^ 28 }
    requires blocks { (1 ≤ blocks) × (blocks ≤ 4096) }
    ensures first { IfOk result (λ cuts. first_place cuts ≡ text_begin bytes.now) }
    ensures last { IfOk result (λ cuts. last_place cuts ≡ length bytes.now) }
    ensures count { IfOk result (λ cuts. (count : ℕ) × IsLeastCount blocks count × (length cuts ≡ count + 1)) }
{
    let cuts = Cuts::even(alloc, base_of(bytes), bytes.len() as u32, blocks)?;
    match form {
        Form::GeoJson => Ok(cuts.near_features(bytes)),
        Form::Wkt => Ok(cuts),
        Form::Seq => Ok(cuts),
    }
}

/// The answer to a query over the bytes of the line's file, cut into the blocks that the words ask for.
fn answer_in_blocks<G: Gate, R: Threads + Sync>(
    rt: &R,
    alloc: Global,
    file: &OneFile,
    gate: &G,
) -> Result<Answer, Refusal>
    requires { IsOneReady file.now }
    ensures answer { MatchResult result (IsFileAnswer (form_told file.now.line file.now.line.first) file.now.line.digits
        file.now.line.how file.now.query file.now.bytes.items)
        (λ end. IfFound end (λ fault. HasFileFaultIn (form_told file.now.line file.now.line.first) file.now.line.digits
        file.now.line.how file.now.bytes.items (Some fault))) }
    ensures passes { IfOk result (λ _. PassesGate (G.given_up gate.now) file.now.line) }
{
    let line = &file.line;
    let bytes = file.bytes.as_slice();
    let form = form_of(line, line.first.as_str());
    let Ok(cuts) = cuts_of(alloc, bytes, form, line.blocks) else {
        return Err(Refusal::Memory);
    };
    let (digits, how, workers) = (line.digits, line.how, line.workers);
    answer(
        rt,
        alloc,
        bytes,
        form,
        &cuts,
        &file.query,
        digits,
        how,
        workers,
        gate,
    )
}

/// The answer to a query over the bytes of the line's file, which a future takes in chunks of that size.
fn answer_in_chunks<R: Wait + RandomSource + AllocGlobal>(
    rt: &R,
    alloc: Global,
    line: &Line,
    query: &Query,
    bytes: Vec<u8>,
    size: u32,
) -> Result<Answer, Refusal>
    requires limit { length bytes.items ≤ 2 ^ 28 }
    requires line { KeepsLimits line.now }
    requires in_range { IsQueryInRange query.now }
    requires verb { query.now.verb ≢ Verb.Join }
    requires feed { line.now.feed ≡ Some size }
    ensures answer { MatchResult result (IsFileAnswer (form_told line.now line.now.first) line.now.digits line.now.how
        query.now bytes.items)
        (λ end. IfFound end (λ fault. HasFileFaultIn (form_told line.now line.now.first) line.now.digits line.now.how
        bytes.items (Some fault))) }
{
    let form = form_of(line, line.first.as_str());
    let (digits, how) = (line.digits, line.how);
    fed_answer(rt, alloc, bytes, form, query, digits, how, size)
}

/// The answer to a join over the bytes of the line's two files, each cut into the blocks that the words ask for.
fn join_in_blocks<G: Gate, R: Threads + Sync>(
    rt: &R,
    alloc: Global,
    files: &TwoFiles,
    gate: &G,
) -> Result<Answer, JoinFault>
    requires { IsTwoReady files.now }
    ensures answer { (second : List ℕ) → files.now.line.second ≡ Some second
        → MatchResult result (IsJoinAnswer (form_told files.now.line files.now.line.first) (form_told files.now.line second)
        files.now.line.digits files.now.line.how files.now.query files.now.first.items files.now.second.items)
        (IsJoinFault (form_told files.now.line files.now.line.first) (form_told files.now.line second)
        files.now.line.digits files.now.line.how files.now.first.items files.now.second.items) }
    ensures passes { IfOk result (λ _. PassesGate (G.given_up gate.now) files.now.line) }
{
    let line = &files.line;
    let (a, b) = (files.first.as_slice(), files.second.as_slice());
    let form_a = form_of(line, line.first.as_str());
    let form_b = form_of(line, second_text(line));
    let Ok(cuts_a) = cuts_of(alloc, a, form_a, line.blocks) else {
        return Err(JoinFault::Memory);
    };
    let Ok(cuts_b) = cuts_of(alloc, b, form_b, line.blocks) else {
        return Err(JoinFault::Memory);
    };
    answer_join(
        rt,
        alloc,
        a,
        form_a,
        b,
        form_b,
        &cuts_a,
        &cuts_b,
        &files.query,
        line.digits,
        line.how,
        line.workers,
        gate,
    )
}

/// The answer to a join over the bytes of the line's two files, which a future takes in chunks of that size.
fn join_in_chunks<G: Gate, R: Threads + Sync + Wait + RandomSource + AllocGlobal>(
    rt: &R,
    alloc: Global,
    line: &Line,
    query: &Query,
    a: Vec<u8>,
    b: Vec<u8>,
    size: u32,
    gate: &G,
) -> Result<Answer, JoinFault>
    requires limit_a { length a.items ≤ 2 ^ 28 }
    requires limit_b { length b.items ≤ 2 ^ 28 }
    requires line { KeepsLimits line.now }
    requires feed { line.now.feed ≡ Some size }
    requires second { IsSome line.now.second }
    requires in_range { IsQueryInRange query.now }
    requires verb { query.now.verb ≡ Verb.Join }
    ensures answer { (second : List ℕ) → line.now.second ≡ Some second
        → MatchResult result (IsJoinAnswer (form_told line.now line.now.first) (form_told line.now second) line.now.digits
        line.now.how query.now a.items b.items)
        (IsJoinFault (form_told line.now line.now.first) (form_told line.now second) line.now.digits line.now.how
        a.items b.items) }
    ensures passes { IfOk result (λ _. PassesGate (G.given_up gate.now) line.now) }
{
    let form_a = form_of(line, line.first.as_str());
    let form_b = form_of(line, second_text(line));
    let (digits, how, workers) = (line.digits, line.how, line.workers);
    fed_join(
        rt, alloc, a, form_a, b, form_b, query, digits, how, size, workers, gate,
    )
}

/// The end with the text of an answer.
fn end_of_text(alloc: Global, line: &Line, answer: &Answer) -> Ending
    ensures end { TellsAnswer line.now answer.now result }
    ensures late { IsLate result }
{
    match answer_text(alloc, answer, line.digits) {
        Ok(text) => Ending::Answered(text),
        Err(_) => Ending::NoMemory,
    }
}

/// The end over one file: the text of the answer, or the file's fault.
fn end_of_one(alloc: Global, line: Line, answer: Result<Answer, Refusal>) -> Ending
    ensures end { IsEndOf line answer result }
    ensures late { IsLate result }
    ensures answered { status_of result ≡ 0 → IsOk answer }
{
    match answer {
        Ok(answer) => end_of_text(alloc, &line, &answer),
        Err(Refusal::Found(fault)) => Ending::Faulty(line.first, fault),
        Err(Refusal::Memory) => Ending::NoMemory,
    }
}

/// The end over two files: the text of the answer, or the fault of the first that has one.
fn end_of_two(alloc: Global, line: Line, answer: Result<Answer, JoinFault>) -> Ending
    requires { IsSome line.second }
    ensures end { IsEndOfJoin line answer result }
    ensures late { IsLate result }
    ensures answered { status_of result ≡ 0 → IsOk answer }
{
    match answer {
        Ok(answer) => end_of_text(alloc, &line, &answer),
        Err(JoinFault::First(fault)) => Ending::Faulty(line.first, fault),
        Err(JoinFault::Second(fault)) => Ending::Faulty(second_of(line), fault),
        Err(JoinFault::Memory) => Ending::NoMemory,
    }
}

/// The end over what is loaded, where files are read in the blocks that the words ask for. It joins threads, and takes
/// nothing to wait by.
pub fn end_in_blocks<G: Gate, R: Threads + Sync>(
    rt: &R,
    alloc: Global,
    loaded: Loaded,
    gate: &G,
) -> Ending
    requires { IsReady loaded }
    ensures leads { Leads loaded result }
    ensures passes { status_of result ≡ 0 → PassesLoaded (G.given_up gate.now) loaded }
{
    match loaded {
        Loaded::Ended(end) => end,
        Loaded::One(file) => {
            let answer = answer_in_blocks(rt, alloc, &file, gate);
            end_of_one(alloc, file.line, answer)
        }
        Loaded::Two(files) => {
            let answer = join_in_blocks(rt, alloc, &files, gate);
            end_of_two(alloc, files.line, answer)
        }
    }
}

/// The end over one file, which a future takes in chunks of that size.
fn one_in_chunks<R: Wait + RandomSource + AllocGlobal>(
    rt: &R,
    alloc: Global,
    file: OneFile,
    size: u32,
) -> Ending
    requires ready { IsOneReady file }
    requires feed { file.line.feed ≡ Some size }
    ensures { EndsOne file result }
{
    let OneFile { line, query, bytes } = file;
    let answer = answer_in_chunks(rt, alloc, &line, &query, bytes, size);
    end_of_one(alloc, line, answer)
}

/// The end over two files, which a future takes side by side in chunks of that size.
fn two_in_chunks<G: Gate, R: Threads + Sync + Wait + RandomSource + AllocGlobal>(
    rt: &R,
    alloc: Global,
    files: TwoFiles,
    size: u32,
    gate: &G,
) -> Ending
    requires ready { IsTwoReady files }
    requires feed { files.line.feed ≡ Some size }
    ensures end { EndsTwo files result }
    ensures passes { status_of result ≡ 0 → PassesGate (G.given_up gate.now) files.line }
{
    let TwoFiles {
        line,
        query,
        first,
        second,
    } = files;
    let answer = join_in_chunks(rt, alloc, &line, &query, first, second, size, gate);
    end_of_two(alloc, line, answer)
}

/// The end over what is loaded, where a future takes the files in chunks of that size. It may wait.
pub fn end_in_chunks<G: Gate, R: Threads + Sync + Wait + RandomSource + AllocGlobal>(
    rt: &R,
    alloc: Global,
    loaded: Loaded,
    size: u32,
    gate: &G,
) -> Ending
    requires ready { IsReady loaded }
    requires feed { size_asked loaded ≡ Some size }
    ensures leads { Leads loaded result }
    ensures passes { status_of result ≡ 0 → PassesLoaded (G.given_up gate.now) loaded }
{
    match loaded {
        Loaded::Ended(end) => end,
        Loaded::One(file) => one_in_chunks(rt, alloc, file, size),
        Loaded::Two(files) => two_in_chunks(rt, alloc, files, size, gate),
    }
}
