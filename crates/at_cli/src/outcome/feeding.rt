//! Answers over a file's bytes that a future takes in chunks.

ghost use Rattle.std.specs.Prelude.{◌≡◌, ◌≢◌, ◌<◌, ◌≤◌, ◌^◌, [], false, length, Some, IfOk, MatchResult};
ghost use Rattle.at_text.specs.Refusals.{IfFound};
ghost use Rattle.at_query.specs.Ranges.{IsQueryInRange};
ghost use Rattle.at_run.specs.Files.{HasFileFaultIn};
ghost use Rattle.at_run.specs.Answers.{IsFileAnswer, IsJoinAnswer, IsJoinFault};
ghost use Rattle.at_blocks.specs.Blocks.{NoneGivenUp};
ghost use Rattle.at_task.specs.Feeds.{source_of, asks_of, taken_of, has_given};
ghost use Rattle.at_task.specs.SlicedChunks.{rest_of};
ghost use Rattle.at_task.specs.JoinFeeds.{first_of, second_of, has_answered};
ghost use Rattle.at_cli.specs.Forms.{AsksSo};

use at_crew::Gate;
use at_fixed::Coords;
use at_query::{Answer, Query, Verb};
use at_run::{Form, JoinFault, of_all};
use at_task::{Feed, FeedEnd, JoinFeed, PairEnd, Sliced, run_feed, run_join_feed};
use at_text::{Memory, Refusal};
use std::alloc::{AllocGlobal, Global};
use std::random::RandomSource;
use std::sync::Wait;
use std::thread::Threads;

/// How many bytes a poll of a feed takes at least before it lets others go on.
const TURN: u32 = 16;

/// A feed of a file's bytes in chunks of that size, none of which is waited for.
fn feed_of(
    alloc: Global,
    bytes: Vec<u8>,
    form: Form,
    query: Query,
    digits: u8,
    how: Coords,
    size: u32,
) -> Result<Feed<Sliced>, Memory>
    requires size { 1 ≤ size }
    requires in_range { IsQueryInRange query }
    ensures rest { IfOk result (λ feed. rest_of (source_of feed) ≡ bytes.items) }
    ensures taken { IfOk result (λ feed. taken_of feed ≡ []) }
    ensures asks { IfOk result (λ feed. asks_of feed ≡ record {
      form = form;
      query = query;
      digits = digits;
      how = how;
    }) }
    ensures new { IfOk result (λ feed. has_given feed ≡ false) }
{
    let source = Sliced::new(bytes, size, Vec::new(alloc));
    Feed::new(alloc, source, form, query, digits, how, TURN)
}

/// The answer to a query over a file's bytes, which a future takes in chunks of that size, or the file's first fault.
pub fn fed_answer<R: Wait + RandomSource + AllocGlobal>(
    rt: &R,
    alloc: Global,
    bytes: Vec<u8>,
    form: Form,
    query: &Query,
    digits: u8,
    how: Coords,
    size: u32,
) -> Result<Answer, Refusal>
    requires short { length bytes.items ≤ 2 ^ 28 }
    requires no_join { query.now.verb ≢ Verb.Join }
    requires in_range { IsQueryInRange query.now }
    requires size { 1 ≤ size }
    ensures answer { MatchResult result (IsFileAnswer form digits how query.now bytes.items)
        (λ end. IfFound end (λ fault. HasFileFaultIn form digits how bytes.items (Some fault))) }
{
    let Ok(copy) = query.copy(alloc) else {
        return Err(Refusal::Memory);
    };
    let Ok(feed) = feed_of(alloc, bytes, form, copy, digits, how, size) else {
        return Err(Refusal::Memory);
    };
    match run_feed(rt, feed) {
        Ok(answer) => Ok(answer),
        Err(FeedEnd::Found(fault)) => Err(Refusal::Found(fault)),
        Err(FeedEnd::TooLarge) => unreachable!(),
        Err(FeedEnd::Memory) => Err(Refusal::Memory),
    }
}

/// A join of the feeds of two files, in chunks of that size.
fn join_feed_of(
    alloc: Global,
    a: Vec<u8>,
    form_a: Form,
    b: Vec<u8>,
    form_b: Form,
    query: &Query,
    digits: u8,
    how: Coords,
    size: u32,
) -> Result<JoinFeed<Sliced, Sliced>, Memory>
    requires size { 1 ≤ size }
    requires in_range { IsQueryInRange query.now }
    requires join { query.now.verb ≡ Verb.Join }
    ensures rest_a { IfOk result (λ feed. rest_of (source_of (first_of feed)) ≡ a.items) }
    ensures rest_b { IfOk result (λ feed. rest_of (source_of (second_of feed)) ≡ b.items) }
    ensures taken_a { IfOk result (λ feed. taken_of (first_of feed) ≡ []) }
    ensures taken_b { IfOk result (λ feed. taken_of (second_of feed) ≡ []) }
    ensures asks_a { IfOk result (λ feed. AsksSo form_a digits how (asks_of (first_of feed))) }
    ensures asks_b { IfOk result (λ feed. AsksSo form_b digits how (asks_of (second_of feed))) }
    ensures query { IfOk result (λ feed. (asks_of (first_of feed)).query ≡ query.now) }
    ensures new { IfOk result (λ feed. has_answered feed ≡ false) }
{
    let first = feed_of(alloc, a, form_a, query.copy(alloc)?, digits, how, size)?;
    let second = feed_of(alloc, b, form_b, of_all(alloc), digits, how, size)?;
    Ok(JoinFeed::new(first, second))
}

/// The answer to a join over the bytes of two files, which a future takes side by side in chunks of that size, or the
/// first fault of the first file that has one. The cells are shared by so many passes.
pub fn fed_join<G: Gate, R: Threads + Sync + Wait + RandomSource + AllocGlobal>(
    rt: &R,
    alloc: Global,
    a: Vec<u8>,
    form_a: Form,
    b: Vec<u8>,
    form_b: Form,
    query: &Query,
    digits: u8,
    how: Coords,
    size: u32,
    workers: u32,
    gate: &G,
) -> Result<Answer, JoinFault>
    requires short_a { length a.items ≤ 2 ^ 28 }
    requires short_b { length b.items ≤ 2 ^ 28 }
    requires join { query.now.verb ≡ Verb.Join }
    requires in_range { IsQueryInRange query.now }
    requires size { 1 ≤ size }
    requires workers { (0 < workers) × (workers ≤ 64) }
    ensures answer { MatchResult result (IsJoinAnswer form_a form_b digits how query.now a.items b.items)
        (IsJoinFault form_a form_b digits how a.items b.items) }
    ensures gate_cells { IfOk result (λ _. NoneGivenUp (G.given_up gate.now) 0 64) }
{
    let Ok(feed) = join_feed_of(alloc, a, form_a, b, form_b, query, digits, how, size) else {
        return Err(JoinFault::Memory);
    };
    match run_join_feed(rt, alloc, feed, workers, gate) {
        Ok(answer) => Ok(answer),
        Err(PairEnd::First(fault)) => Err(JoinFault::First(fault)),
        Err(PairEnd::Second(fault)) => Err(JoinFault::Second(fault)),
        Err(PairEnd::FirstTooLarge) => unreachable!(),
        Err(PairEnd::SecondTooLarge) => unreachable!(),
        Err(PairEnd::Memory) => Err(JoinFault::Memory),
    }
}
