//! What words say, with texts that are the words themselves.

ghost use Rattle.std.specs.Prelude.{◌≡◌, map, string_bytes, IfOk, IfErr, MatchOption};
ghost use Rattle.at_cli.specs.LineOf.{HasValues, SaysLine};
ghost use Rattle.at_cli.specs.Steps.{shown, given_in};
ghost use Rattle.at_cli.specs.Said.{line_said};
ghost use Rattle.at_cli.specs.declared.words.line.Line.{Line};

use crate::words::line::{Line, WordsEnd};
use crate::words::names::{Names, names_of};
use crate::words::pieces::{Pieces, gather};
use crate::words::values::{
    can_feed, coords_or_round, digits_or_seven, feed_said, form_said, number_or,
};
use at_fixed::Coords;
use at_run::Form;
use at_text::Word;
use std::alloc::{AllocError, Global};

/// The blocks and the workers where none are said.
const BLOCKS: u32 = 64;

const WORKERS: u32 = 4;

/// The most blocks and the most workers.
const MOST_BLOCKS: u32 = at_text::MOST_BLOCKS as u32;

const MOST_WORKERS: u32 = 64;

/// A line whose texts are the words themselves.
#[derive(Clone, Copy)]
pub struct Said<'w> {
    pub form: Option<Form>,
    pub how: Coords,
    pub digits: u8,
    pub blocks: u32,
    pub workers: u32,
    pub feed: Option<u32>,
    pub names: Names<'w>,
}

/// The word of that text.
fn word_of(alloc: Global, text: &str) -> Result<Word, AllocError>
    ensures { IfOk result (λ (word : _). word ≡ text.now) }
{
    Ok(Word::from_string(String::from_str(alloc, text)?))
}

impl Said<'_> {
    /// The line with texts of its own. It is refused for want of memory alone.
    pub fn line(&self, alloc: Global) -> Result<Line, WordsEnd>
        ensures line { IfOk result (λ (line : _). line ≡ line_said self.now) }
        ensures memory { IfErr result (λ (end : _). end ≡ WordsEnd.Memory) }
    {
        let second = match self.names.second {
            None => None,
            Some(second) => Some(word_of(alloc, second)?),
        };
        Ok(Line {
            form: self.form,
            how: self.how,
            digits: self.digits,
            blocks: self.blocks,
            workers: self.workers,
            feed: self.feed,
            query: word_of(alloc, self.names.query)?,
            first: word_of(alloc, self.names.first)?,
            second,
        })
    }
}

/// What the pieces say, where each value is in order.
fn said_in<'w>(pieces: &Pieces<'w>) -> Option<Said<'w>>
    ensures { MatchOption result
        ((line : Line) → HasValues (given_in (shown pieces.now)) (shown pieces.now).places line → ⊥)
        (λ (said : _). HasValues (given_in (shown pieces.now)) (shown pieces.now).places (line_said said)) }
{
    let form = form_said(pieces.form)?;
    let how = coords_or_round(pieces.coords)?;
    let digits = digits_or_seven(pieces.digits)?;
    let blocks = number_or(BLOCKS, MOST_BLOCKS, pieces.blocks)?;
    let workers = number_or(WORKERS, MOST_WORKERS, pieces.workers)?;
    let feed = feed_said(pieces.feed)?;
    if !can_feed(form, feed) {
        return None;
    }
    let names = names_of(pieces.places)?;
    Some(Said {
        form,
        how,
        digits,
        blocks,
        workers,
        feed,
        names,
    })
}

/// What the words say.
pub fn said_by(words: &[String]) -> Option<Said<'_>>
    ensures { MatchOption result
        ((line : Line) → SaysLine (map string_bytes words.now) line → ⊥)
        (λ (said : _). SaysLine (map string_bytes words.now) (line_said said)) }
{
    let pieces = gather(words)?;
    said_in(&pieces)
}
