//! Counts by the exact predicates, over random positions: `bench_geom segments COUNT` counts the pairs of segments that
//! meet, `bench_geom ring COUNT EDGES` the positions that are in a ring of so many edges, `bench_geom hull COUNT` the
//! corners of the hull of so many positions, and `bench_geom positions COUNT` only makes them and counts them.
#![tactic(auto)]

mod counts;
mod hulls;

use at_text::Memory;
use bench_shared::word;
use counts::{inside, meeting};
use hulls::{corners, positions};
use std::io;
use std::rt::Env;

/// What is counted.
enum Subject {
    Segments,
    Ring,
    Hull,
    Positions,
}

fn asked_subject<R: Env + AllocGlobal>(rt: &R) -> io::Result<Subject> {
    let mut words = std::env::args(rt)?;
    let word = words.nth(1);
    Ok(match &word {
        Some(text) => named_subject(text.as_str()),
        None => Subject::Segments,
    })
}

fn named_subject(name: &str) -> Subject {
    match name {
        "ring" => Subject::Ring,
        "hull" => Subject::Hull,
        "positions" => Subject::Positions,
        _ => Subject::Segments,
    }
}

fn run<R: Env + Print + AllocGlobal>(rt: &R) -> io::Result<()> {
    let count = word(rt, 2)?.unwrap_or(0);
    let edges = word(rt, 3)?.unwrap_or(4);
    let found = match asked_subject(rt)? {
        Subject::Segments => Ok(meeting(count)),
        Subject::Ring => inside(rt.alloc(), count, edges),
        Subject::Hull => corners(rt.alloc(), count),
        Subject::Positions => positions(rt.alloc(), count),
    };
    match found {
        Ok(found) => println!(rt; "{found}"),
        Err(Memory) => println!(rt; "no memory"),
    }
}

fn main(rt: HostRuntime) -> io::Result<()> {
    run(&rt)
}
