//! Queries over files that come in chunks: what the tests of this crate ask, and what they are told.

ghost use Rattle.std.specs.Prelude.{◌≡◌, ◌≢◌, ◌≤◌, [], false, IfOk};
ghost use Rattle.at_query.specs.Ranges.{IsQueryInRange};
ghost use Rattle.at_task.specs.Feeds.{asks_of, has_given};

use at_crew::Free;
use at_fixed::Coords;
use at_query::{Query, Tests, Verb, answer_text};
use at_run::{Form, of_all};
use at_task::{Chunks, Feed, FeedEnd, JoinFeed, PairEnd, Sliced, run_feed, run_join_feed};
use at_text::Memory;
use std::alloc::{AllocError, AllocGlobal, Global};
use std::random::RandomSource;
use std::sync::Wait;
use std::test::Fail;
use std::thread::Threads;

/// A query without tests.
pub fn asked(alloc: Global, verb: Verb) -> Query
    ensures in_range { IsQueryInRange result }
    ensures verb { result.verb ≡ verb }
{
    Query {
        verb,
        tests: Tests::from_vec(Vec::new(alloc)),
    }
}

/// A copy of the bytes.
pub fn copied(alloc: Global, bytes: &[u8]) -> Result<Vec<u8>, AllocError> {
    let mut copy = Vec::new(alloc);
    copy.extend_from_slice(bytes)?;
    Ok(copy)
}

/// Where calls are pending: the numbers listed.
pub fn listed(alloc: Global, numbers: &[u32]) -> Result<Vec<u32>, AllocError> {
    let mut copy = Vec::new(alloc);
    copy.extend_from_slice(numbers)?;
    Ok(copy)
}

/// What a file is found to be that comes in chunks of that size: the printed answer, or why there is none.
pub fn told<R: Wait + RandomSource + AllocGlobal>(
    rt: &R,
    bytes: &[u8],
    form: Form,
    query: Query,
    size: u32,
    waits: &[u32],
    turn: u32,
) -> Result<String, Fail>
    requires in_range { IsQueryInRange query }
    requires no_join { query.verb ≢ Verb.Join }
{
    if size == 0 || turn == 0 {
        return Err(Fail::from("no such size or turn"));
    }
    let alloc = rt.alloc();
    let source = Sliced::new(copied(alloc, bytes)?, size, listed(alloc, waits)?);
    let feed = Feed::new(alloc, source, form, query, 7, Coords::Round, turn)?;
    said(rt, feed)
}

/// What a feed that isn't for a join gives: the printed answer, or why there is none.
pub fn said<T: Chunks, R: Wait + RandomSource + AllocGlobal>(
    rt: &R,
    feed: Feed<T>,
) -> Result<String, Fail>
    requires no_join { (asks_of feed).query.verb ≢ Verb.Join }
    requires goes_on { has_given feed ≡ false }
{
    let alloc = rt.alloc();
    match run_feed(rt, feed) {
        Ok(answer) => Ok(answer_text(alloc, &answer, 7)?),
        Err(FeedEnd::Found(fault)) => {
            let kind = fault.kind;
            let at = fault.at;
            Ok(format!(in alloc; "{kind:?} {at}")?)
        }
        Err(FeedEnd::TooLarge) => Ok(String::from_str(alloc, "too large")?),
        Err(FeedEnd::Memory) => Err(Fail::from("out of memory")),
    }
}

/// A feed that asks for all features, to join them.
pub fn all_of(
    alloc: Global,
    bytes: &[u8],
    form: Form,
    size: u32,
    waits: &[u32],
    turn: u32,
) -> Result<Feed<Sliced>, Memory>
    requires size { 1 ≤ size }
    requires turn { 1 ≤ turn }
    ensures join { IfOk result (λ f. (asks_of f).query.verb ≡ Verb.Join) }
    ensures all { IfOk result (λ f. (asks_of f).query.tests ≡ []) }
    ensures new { IfOk result (λ f. has_given f ≡ false) }
{
    let source = Sliced::new(copied(alloc, bytes)?, size, listed(alloc, waits)?);
    let query = of_all(alloc);
    Feed::new(alloc, source, form, query, 7, Coords::Round, turn)
}

/// A file that comes in chunks: its bytes, how many a chunk has, and the numbers of the calls that are pending.
#[derive(Clone, Copy)]
pub struct Fed<'a> {
    pub bytes: &'a [u8],
    pub size: u32,
    pub waits: &'a [u32],
}

/// What the join of a file of lines and one of GeoJSON is found to be: the printed pairs, or why there are none.
pub fn joined_told<R: Threads + Sync + Wait + RandomSource + AllocGlobal>(
    rt: &R,
    lines: Fed<'_>,
    json: Fed<'_>,
) -> Result<String, Fail> {
    if lines.size == 0 || json.size == 0 {
        return Err(Fail::from("no such size"));
    }
    let alloc = rt.alloc();
    let first = all_of(alloc, lines.bytes, Form::Wkt, lines.size, lines.waits, 1)?;
    let second = all_of(alloc, json.bytes, Form::GeoJson, json.size, json.waits, 1)?;
    match run_join_feed(rt, alloc, JoinFeed::new(first, second), 2, &Free) {
        Ok(answer) => Ok(answer_text(alloc, &answer, 7)?),
        Err(PairEnd::First(fault)) => {
            let kind = fault.kind;
            let at = fault.at;
            Ok(format!(in alloc; "first {kind:?} {at}")?)
        }
        Err(PairEnd::Second(fault)) => {
            let kind = fault.kind;
            let at = fault.at;
            Ok(format!(in alloc; "second {kind:?} {at}")?)
        }
        Err(PairEnd::FirstTooLarge) => Err(Fail::from("first too large")),
        Err(PairEnd::SecondTooLarge) => Err(Fail::from("second too large")),
        Err(PairEnd::Memory) => Err(Fail::from("out of memory")),
    }
}

/// Two squares.
pub const SQUARES: &[u8] = b"POLYGON ((0 0,2 0,2 2,0 2,0 0))\nPOLYGON ((1 1,3 1,3 3,1 3,1 1))\n";

/// A point in both, as GeoJSON.
pub const POINT: &[u8] =
    br#"{"type":"Feature","geometry":{"type":"Point","coordinates":[1.5,1.5]},"properties":null}"#;

/// A collection of one feature, of 94 bytes, whose feature stands at 40.
pub const ONE: &str =
    r#"{"type":"FeatureCollection","features":[{"type":"Feature","geometry":null,"properties":null}]}"#;
