//! Words of a text, in either case.

ghost use Rattle.std.specs.Prelude.{◌≡◌, ◌≤◌, codes, length, IfSome, MatchResult};
ghost use Rattle.std.specs.Str.{str_to_ascii_uppercase};
ghost use Rattle.at_text.specs.Halts.{IfStopped};
ghost use Rattle.at_wkt.specs.Readers.{Matches, KeywordStands, KeywordBreaks};

use crate::line::bytes::letter_stands;
use at_text::Halt;

/// How many letters of the word, which is in capitals, stand at a place of the text in either case.
pub fn matching(text: &[u8], at: usize, word: &[u8]) -> usize
    requires { at ≤ length text.now }
    ensures { Matches text.now at word.now result }
{
    let mut count = 0;
    while count < word.len() && letter_stands(text, at + count, word[count]) {
        count += 1;
    }
    count
}

/// The place behind a word of capitals that stands as it is.
#[inline(always)]
pub fn plain_word(text: &[u8], at: usize, word: &[u8]) -> Option<usize>
    requires inside { at ≤ length text.now }
    requires capitals { str_to_ascii_uppercase word.now ≡ word.now }
    ensures { IfSome result (λ end. KeywordStands text.now at end word.now) }
{
    if text[at..].starts_with(word) {
        Some(at + word.len())
    } else {
        None
    }
}

/// The place behind the word EMPTY.
pub fn read_empty(text: &[u8], at: usize) -> Result<usize, Halt>
    requires { at ≤ length text.now }
    ensures { MatchResult result (λ end. KeywordStands text.now at end (codes "EMPTY"))
        (λ halt. IfStopped halt (λ n. KeywordBreaks text.now at n (codes "EMPTY"))) }
{
    let count = matching(text, at, b"EMPTY");
    if count == 5 {
        Ok(at + count)
    } else {
        Err(Halt::At(at + count))
    }
}
