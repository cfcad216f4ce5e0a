//! What the words of a command line say.

ghost use Rattle.std.specs.Prelude.{◌≡◌, ◌↔◌, map, string_bytes, IfOk};
ghost use Rattle.at_cli.specs.LineOf.{SaysLine};
ghost use Rattle.at_cli.specs.declared.words.line.Line.{Line};

use crate::words::said::said_by;
use at_fixed::Coords;
use at_run::Form;
use at_text::Word;
use std::alloc::{AllocError, Global};

/// What the words of a command line say.
#[derive(Drop)]
pub struct Line {
    /// The form of both files, or none where each has the form that its name says.
    pub form: Option<Form>,
    /// How numbers are taken.
    pub how: Coords,
    /// The decimal digits of a coordinate, 7 or 9: a unit is 10^-7 or 10^-9.
    pub digits: u8,
    /// The blocks that a file is cut into, 1 to 4096.
    pub blocks: u32,
    /// The workers that read them, 1 to 64.
    pub workers: u32,
    /// The bytes of a chunk, 1 to 1048576, where files are read in chunks. No sequence is.
    pub feed: Option<u32>,
    /// The query's text, of at most 2^28 bytes.
    pub query: Word,
    /// The name of the first file.
    pub first: Word,
    /// The name of the second file, where there is one.
    pub second: Option<Word>,
}

/// Why words give no line.
#[derive(Clone, Copy, Debug, PartialEq, Eq)]
pub enum WordsEnd {
    /// They say none.
    Refused = 1,
    /// Want of memory.
    Memory = 2,
}

impl From<AllocError> for WordsEnd {
    ghost use Rattle.at_cli.specs.declared.words.line.WordsEnd.TheVariants as ends;

    ghost from_gives = { λ _ end. end ≡ ends.Memory };

    fn from(_refused: AllocError) -> WordsEnd {
        WordsEnd::Memory
    }
}

/// The line that the words say.
///
/// The words are read from left to right. An option is `--form`, `--coords`, `--digits`, `--blocks`, `--workers` or
/// `--feed`, with its value as the next word, whatever that is, or behind `=` in the same word. The end word is the
/// first `--` that is no option's value; it says nothing itself, and each word after it is a positional. Before it, a
/// positional is a word that doesn't begin with `-`. The positionals are the query, the file and, where there is one,
/// the second file.
///
/// Words that say no line are refused, whatever memory there is: where an option is given twice or lacks its value,
/// where another word begins with `-`, where there are fewer than two or more than three positionals, where a value
/// isn't in form, where `--feed` stands beside the form `seq`, where a name that begins with `@g:` or `@w:` doesn't go
/// on with a number from 0 to 1000000, and where the query has more than 2^28 bytes.
pub fn read_words(alloc: Global, words: &[String]) -> Result<Line, WordsEnd>
    ensures line { IfOk result (SaysLine (map string_bytes words.now)) }
    ensures only { IfOk result (λ (line : _). (other : Line) → SaysLine (map string_bytes words.now) other
        → other ≡ line) }
    ensures refused { (result ≡ Err WordsEnd.Refused) ↔ ((line : Line) → SaysLine (map string_bytes words.now) line
        → ⊥) }
{
    match said_by(words) {
        None => Err(WordsEnd::Refused),
        Some(said) => said.line(alloc),
    }
}
