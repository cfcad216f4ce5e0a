//! Sums the numbers of a file, one JSON number a line, in units of 10^-7: `bench_fixed two FILE` reads each
//! by `json_number` and `read_fixed`, `bench_fixed one FILE` by `leading_number`.
#![tactic(auto)]

mod sums;

use at_text::MOST_BYTES;
use std::rt::{Env, Files};
use std::{fs, io};
use sums::{sum_in_one_pass, sum_in_two_passes};

/// The sum of a file's numbers, where the words name a way and a file.
fn sum_of<R: Env + Files + AllocGlobal>(rt: &R) -> io::Result<i64> {
    let mut words = std::env::args(rt)?;
    let _program = words.next();
    let way = words.next();
    let in_two_passes = match &way {
        Some(word) => word.as_str() == "two",
        None => false,
    };
    let Some(name) = words.next() else {
        return Ok(0);
    };
    let text = fs::read(rt, name.as_str())?;
    if text.len() > MOST_BYTES {
        return Ok(0);
    }
    Ok(if in_two_passes {
        sum_in_two_passes(text.as_slice())
    } else {
        sum_in_one_pass(text.as_slice())
    })
}

fn run<R: Env + Files + Print + AllocGlobal>(rt: &R) -> io::Result<()> {
    let sum = sum_of(rt)?;
    println!(rt; "{sum}")
}

fn main(rt: HostRuntime) -> io::Result<()> {
    run(&rt)
}
