//! The words of the command line.

use std::io;
use std::rt::Env;

/// The number that a word spells, counted from the program's name, where there is such a word and it spells one.
pub fn word<R: Env + AllocGlobal>(rt: &R, at: usize) -> io::Result<Option<u64>> {
    let mut words = std::env::args(rt)?;
    let word = words.nth(at);
    Ok(match &word {
        Some(text) => text.as_str().parse::<u64>().ok(),
        None => None,
    })
}
