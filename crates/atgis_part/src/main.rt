//! The program `atgis-part`: its words, the disk and the standard streams, handed to the top call over a part.
#![tactic(auto)]

use at_cli::tell_no_memory;
use at_crew::Free;
use at_io::{DiskShelf, StdSink};
use at_part::part_top;
use std::process::ExitCode;
use std::random::RandomSource;
use std::rt::{Env, Files};
use std::sync::Wait;
use std::thread::Threads;
use std::{env, io, process};

/// The words behind the program's name.
fn words<R: Env + AllocGlobal>(rt: &R) -> io::Result<Vec<String>> {
    let mut words = Vec::new(rt.alloc());
    for word in env::args(rt)?.skip(1) {
        words.push(word)?;
    }
    Ok(words)
}

/// Runs the program over the runtime's files, its standard input, and two streams. Words that are no UTF-8 are
/// refused as no words are.
fn run<
    R: Env + Files + Input + AllocGlobal + Threads + Sync + Wait + RandomSource,
    O: Print + Drop,
    E: Print + Drop,
>(rt: &R, out: O, err: E) -> u8 {
    let mut out = StdSink::new(out);
    let mut err = StdSink::new(err);
    let words = match words(rt) {
        Ok(words) => words,
        Err(error) if error.kind() == io::ErrorKind::InvalidData => Vec::new(rt.alloc()),
        Err(_) => return tell_no_memory(&mut err),
    };
    part_top(
        rt,
        rt.alloc(),
        &words,
        DiskShelf::new(rt),
        &mut out,
        &mut err,
        &Free,
    )
}

fn main(rt: HostRuntime) -> ExitCode {
    ExitCode::from(run(&rt, rt.stdout(), rt.stderr()))
}
