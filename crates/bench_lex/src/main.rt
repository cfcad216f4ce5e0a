//! Counts the tokens of a JSON file by kind: `bench_lex FILE ROUNDS` reads the file once, and its tokens so
//! many times.
#![tactic(auto)]

mod counts;

use at_text::MOST_BYTES;
use counts::count_rounds;
use std::rt::{Env, Files};
use std::{fs, io};

/// The file's bytes, where the words name one of at most 2^28 bytes, and how many times to read its tokens.
fn run<R: Env + Files + Print + AllocGlobal>(rt: &R) -> io::Result<()> {
    let mut words = std::env::args(rt)?;
    let _program = words.next();
    let Some(name) = words.next() else {
        return Ok(());
    };
    let rounds = match words.next() {
        Some(word) => word.as_str().parse::<u8>().unwrap_or(1),
        None => 1,
    };
    let bytes = fs::read(rt, name.as_str())?;
    if bytes.len() > MOST_BYTES {
        return Ok(());
    }
    let counts = count_rounds(bytes.as_slice(), rounds);
    let marks = counts.marks;
    let texts = counts.texts;
    let runs = counts.runs;
    let broken = counts.broken;
    println!(rt; "{marks} {texts} {runs} {broken}")
}

fn main(rt: HostRuntime) -> io::Result<()> {
    run(&rt)
}
