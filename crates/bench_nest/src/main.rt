//! Counts the values of a JSON file: `bench_nest FILE BLOCKS ROUNDS WORKERS` reads the file once, and counts so many
//! times, each time in so many blocks that are merged, by so many passes at once. With no blocks it counts by the
//! tokens alone. `bench_nest FILE 1 ROUNDS 1 HOW` reads it as GeoJSON instead, so many times: `at-once`, where values are
//! read at once, or `stepwise`, item by item.
#![tactic(auto)]

ghost use Rattle.std.specs.Prelude.{◌≤◌, ◌<◌, ◌^◌, length};

mod blocks;
mod features;
mod nodes;
mod passing;
mod stepwise;
mod tokens;

use at_nest::NestEnd;
use at_text::MOST_BYTES;
use blocks::count_nodes;
use features::is_text;
use std::alloc::Global;
use std::rt::{Env, Files};
use std::thread::Threads;
use std::{fs, io};
use tokens::count_tokens;

/// What the last of so many rounds gives: how many values there are, or in no block how many tokens.
fn count_rounds<R: Threads + Sync>(
    rt: &R,
    alloc: Global,
    bytes: &[u8],
    blocks: u32,
    rounds: u8,
    workers: u32,
) -> Result<u64, NestEnd>
    requires fits { length bytes.now ≤ 2 ^ 28 }
    requires blocks { blocks ≤ 4096 }
    requires workers { (0 < workers) × (workers ≤ 64) }
{
    let mut last = Err(NestEnd::Ended);
    for _ in 0..rounds {
        last = if blocks == 0 {
            Ok(count_tokens(bytes))
        } else {
            count_nodes(rt, alloc, bytes, blocks, workers)
        };
    }
    last
}

/// Whether the file is a JSON text, as the last of so many rounds tells.
fn read_rounds(alloc: Global, bytes: &[u8], rounds: u8, at_once: bool) -> bool
    requires { length bytes.now ≤ 2 ^ 28 }
{
    let mut last = false;
    for _ in 0..rounds {
        last = is_text(alloc, bytes, at_once);
    }
    last
}

/// Tells whether the file is a JSON text.
fn tell_features<R: Print + AllocGlobal>(
    rt: &R,
    bytes: &[u8],
    rounds: u8,
    how: &str,
) -> io::Result<()>
    requires { length bytes.now ≤ 2 ^ 28 }
{
    if read_rounds(rt.alloc(), bytes, rounds, how == "at-once") {
        println!(rt; "a JSON text")
    } else {
        println!(rt; "no JSON text")
    }
}

/// Tells how many values the file has.
fn tell_values<R: Print + AllocGlobal + Threads + Sync>(
    rt: &R,
    bytes: &[u8],
    blocks: u16,
    rounds: u8,
    workers: u8,
) -> io::Result<()>
    requires { length bytes.now ≤ 2 ^ 28 }
{
    let blocks = u32::from(blocks).min(4096);
    let workers = u32::from(workers).clamp(1, 64);
    match count_rounds(rt, rt.alloc(), bytes, blocks, rounds, workers) {
        Ok(count) => println!(rt; "{count}"),
        Err(_) => println!(rt; "no JSON text"),
    }
}

/// The file's bytes, where the words name one of at most 2^28 bytes.
fn run<R: Env + Files + Print + AllocGlobal + Threads + Sync>(rt: &R) -> io::Result<()> {
    let mut words = std::env::args(rt)?;
    let _program = words.next();
    let Some(name) = words.next() else {
        return Ok(());
    };
    let blocks = match words.next() {
        Some(word) => word.as_str().parse::<u16>().unwrap_or(1),
        None => 1,
    };
    let rounds = match words.next() {
        Some(word) => word.as_str().parse::<u8>().unwrap_or(1),
        None => 1,
    };
    let workers = match words.next() {
        Some(word) => word.as_str().parse::<u8>().unwrap_or(1),
        None => 1,
    };
    let bytes = fs::read(rt, name.as_str())?;
    if bytes.len() > MOST_BYTES {
        return Ok(());
    }
    if let Some(how) = words.next() {
        return tell_features(rt, bytes.as_slice(), rounds, how.as_str());
    }
    tell_values(rt, bytes.as_slice(), blocks, rounds, workers)
}

fn main(rt: HostRuntime) -> io::Result<()> {
    run(&rt)
}
