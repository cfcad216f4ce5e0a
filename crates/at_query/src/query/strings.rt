//! A string of a query line.

ghost use Rattle.std.specs.Prelude.{◌^◌, ◌≤◌, length, MatchResult};
ghost use Rattle.at_text.specs.Halts.{IfStopped};
ghost use Rattle.at_query.specs.Readers.{Ends, Stops, Text};

use at_lex::{Units, take_text, units};
use at_text::Halt;
use std::alloc::Global;

/// A string.
#[derive(Drop)]
pub struct StringRead {
    /// The place behind it.
    pub end: usize,
    pub units: Units,
}

/// Reads a string.
pub fn read_string(alloc: Global, text: &[u8], at: usize) -> Result<StringRead, Halt>
    requires inside { at ≤ length text.now }
    requires short { length text.now ≤ 2 ^ 28 }
    ensures { MatchResult result (λ read. Ends Text text.now at read.end read.units)
        (λ halt. IfStopped halt (Stops Text text.now at)) }
{
    let rest = &text[at..];
    let taken = take_text(rest);
    let len = taken.len as usize;
    if !taken.whole {
        return Err(Halt::At(at + len));
    }
    let found = units(alloc, &rest[..len])?;
    Ok(StringRead {
        end: at + len,
        units: found,
    })
}
