//! Runs a crew over 4,096 blocks, round after round, and prints the sum of what the rounds gave.
//!
//! Its arguments are the number of rounds, of workers (1 to 64), and of turns of work in each block.
#![tactic(auto)]

ghost use Rattle.std.specs.Prelude.{◌≡◌, ℕ, ◌<◌, ◌≤◌, IfSome};

use at_crew::{Free, Job, run_crew};
use std::alloc::Global;
use std::thread::Threads;
use std::{env, io};

const BLOCKS: u32 = 4096;

/// Some turns of a generator of random numbers in each block. The parts are added up.
#[derive(Drop)]
struct Turns {
    turns: u32,
}

impl Job for Turns {
    type Part = u64;

    type Facts = u32;

    ghost facts = { λ j. j.turns };

    ghost count = { λ _. 4096 };

    ghost stands = { λ _ _ a b. a ≤ b };

    fn run(&self, _alloc: Global, block: u32) -> u64 {
        let mut x = block as u64 | 1;
        for _ in 0..self.turns {
            x ^= x << 13;
            x ^= x >> 7;
            x ^= x << 17;
        }
        x
    }

    fn merge(&self, _alloc: Global, left: u64, right: u64) -> u64 {
        left.wrapping_add(right)
    }
}

#[derive(Drop)]
struct Options {
    rounds: u32,
    workers: u32,
    turns: u32,
}

fn read_options(words: &[String]) -> Option<Options>
    ensures { IfSome result (λ o. (0 < o.workers) × (o.workers ≤ 64)) }
{
    let [_, rounds, workers, turns] = words else {
        return None;
    };
    let options = Options {
        rounds: rounds.parse().ok()?,
        workers: workers.parse().ok()?,
        turns: turns.parse().ok()?,
    };
    if options.workers == 0 || options.workers > 64 {
        return None;
    }
    Some(options)
}

fn sum_of_rounds<R: Threads + Sync>(rt: &R, alloc: Global, options: &Options) -> Option<u64>
    requires { (0 < options.now.workers) × (options.now.workers ≤ 64) }
{
    let job = Turns {
        turns: options.turns,
    };
    let workers = options.workers;
    let mut sum = 0u64;
    for _ in 0..options.rounds {
        let part = run_crew(rt, alloc, &job, BLOCKS, workers, &Free).ok()?;
        sum = sum.wrapping_add(part);
    }
    Some(sum)
}

fn main(rt: HostRuntime) -> io::Result<()> {
    let words: Vec<String> = env::args(&rt)?.collect(rt.alloc())?;
    let Some(options) = read_options(words.as_slice()) else {
        return println!(rt; "rounds, workers and turns are wanted");
    };
    match sum_of_rounds(&rt, rt.alloc(), &options) {
        Some(sum) => println!(rt; "{sum}"),
        None => println!(rt; "no memory"),
    }
}
