//! Answers a query over a file by `rayon` and a merge from left to right: `bench_blocks QUERY FILE BLOCKS` prints what
//! `atgis --blocks BLOCKS QUERY FILE` prints, where that takes one file; a fault goes to the standard output too.
//! `rayon` says how many threads there are: two for each processor.
#![tactic(auto)]

ghost use Rattle.std.specs.Prelude.{◌≡◌, ◌≢◌, ◌≤◌, ◌^◌, length, MatchBool};
ghost use Rattle.at_query.specs.Ranges.{IsQueryInRange};

mod answers;
mod blocks;

use answers::{DIGITS, answer};
use at_fixed::Coords;
use at_io::{DiskShelf, ReadError, read_whole};
use at_query::{Query, QueryEnd, Verb, answer_text, read_query};
use at_run::{Form, RunFault};
use at_text::{MOST_BYTES, Memory};
use std::alloc::Global;
use std::io;
use std::rt::{Env, Files};
use std::thread::Threads;

/// The form of a file of that name.
fn form_of(name: &str) -> Form {
    if name.as_bytes().ends_with(b".wkt") {
        Form::Wkt
    } else {
        Form::GeoJson
    }
}

/// Whether two files are joined.
fn is_join(verb: Verb) -> bool
    ensures { MatchBool result (verb ≡ Verb.Join) (verb ≢ Verb.Join) }
{
    match verb {
        Verb::Join => true,
        Verb::Select => false,
        Verb::Count => false,
        Verb::Area => false,
        Verb::Extent => false,
        Verb::Hull => false,
    }
}

/// What is told of a query over the file of that name: the printed answer, or the line of its first fault.
fn told_of_file<R: Files + Input + Threads + Sync>(
    rt: &R,
    alloc: Global,
    query: Query,
    name: &str,
    blocks: u32,
) -> Result<String, Memory>
    requires blocks { (1 ≤ blocks) × (blocks ≤ 4096) }
    requires no_join { query.verb ≢ Verb.Join }
    requires in_range { IsQueryInRange query }
{
    let bytes = match read_whole(alloc, &mut DiskShelf::new(rt), name) {
        Ok(bytes) => bytes,
        Err(ReadError::Failed) => return Ok(format!(in alloc; "{name}: read failed\n")?),
        Err(ReadError::TooLarge) => {
            return Ok(format!(in alloc; "{name}: more than 268435456 bytes\n")?);
        }
        Err(ReadError::Memory) => return Err(Memory),
    };
    match answer(rt, alloc, &bytes, form_of(name), query, blocks) {
        Ok(answer) => answer_text(alloc, &answer, DIGITS),
        Err(RunFault::Found(fault)) => {
            let kind = fault.kind;
            let at = fault.at;
            Ok(format!(in alloc; "{name}: {kind:?} at {at}\n")?)
        }
        Err(RunFault::Memory) => Err(Memory),
    }
}

/// What is told of a query's text over the file of that name.
fn told<R: Files + Input + Threads + Sync>(
    rt: &R,
    alloc: Global,
    text: &[u8],
    name: &str,
    blocks: u32,
) -> Result<String, Memory>
    requires text { length text.now ≤ 2 ^ 28 }
    requires blocks { (1 ≤ blocks) × (blocks ≤ 4096) }
{
    match read_query(alloc, text, DIGITS, Coords::Round) {
        Ok(query) => {
            if is_join(query.verb) {
                return Ok(format!(in alloc; "files: join takes two, every other verb one\n")?);
            }
            told_of_file(rt, alloc, query, name, blocks)
        }
        Err(QueryEnd::Fault(at)) => Ok(format!(in alloc; "query: at {at}\n")?),
        Err(QueryEnd::Memory) => Err(Memory),
    }
}

/// Prints what is told of the words, where they are a query, a file's name and a count of blocks.
fn run<R: Env + Files + Input + Print + AllocGlobal + Threads + Sync>(rt: &R) -> io::Result<()> {
    let mut words = std::env::args(rt)?;
    let _program = words.next();
    let Some(query) = words.next() else {
        return Ok(());
    };
    let Some(name) = words.next() else {
        return Ok(());
    };
    let blocks = match words.next() {
        Some(word) => word.as_str().parse::<u16>().unwrap_or(1),
        None => 1,
    };
    if query.len() > MOST_BYTES {
        return Ok(());
    }
    let blocks = u32::from(blocks).clamp(1, 4096);
    match told(
        rt,
        rt.alloc(),
        query.as_str().as_bytes(),
        name.as_str(),
        blocks,
    ) {
        Ok(text) => print!(rt; "{text}"),
        Err(Memory) => println!(rt; "out of memory"),
    }
}

fn main(rt: HostRuntime) -> io::Result<()> {
    run(&rt)
}
