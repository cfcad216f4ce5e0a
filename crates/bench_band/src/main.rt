//! Counts by a kept shape's bands, over random positions: `bench_band points COUNT EDGES` counts the positions that
//! meet a closed ring of so many edges, `bench_band lines COUNT EDGES` the short lines that do.
#![tactic(auto)]

mod counts;
mod rings;

use at_text::Memory;
use bench_shared::word;
use counts::{lines_meeting, points_meeting};
use std::io;
use std::rt::Env;

fn run<R: Env + Print + AllocGlobal>(rt: &R) -> io::Result<()> {
    let kind = word(rt, 1)?.unwrap_or(0);
    let count = word(rt, 2)?.unwrap_or(0);
    let edges = word(rt, 3)?.unwrap_or(4);
    let found = if kind == 0 {
        points_meeting(rt.alloc(), count, edges)
    } else {
        lines_meeting(rt.alloc(), count, edges, kind)
    };
    match found {
        Ok(found) => println!(rt; "{found}"),
        Err(Memory) => println!(rt; "no memory"),
    }
}

fn main(rt: HostRuntime) -> io::Result<()> {
    run(&rt)
}
