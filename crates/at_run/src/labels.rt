//! Labels: JSON strings at the beginning of lines (RFC 8259 section 7).

ghost use Rattle.std.specs.Prelude.{◌≡◌, ◌⊎◌, ◌+◌, ◌≤◌, ◌^◌, [], ℕ, None, IsTrue, length, take, IfOk, MatchResult};
ghost use Rattle.std.specs.List.{list_any};
ghost use Rattle.std.specs.Str.{IsUtf8};
ghost use Rattle.at_text.specs.Syntax.{IsSyntaxFault};
ghost use Rattle.at_lex.specs.Fronts.{IsFront};
ghost use Rattle.at_lex.specs.Strings.{JsonString};
ghost use Rattle.at_wkt.specs.Geometry.{is_blank as blank_test};
ghost use Rattle.at_run.specs.Labels.{LabelledLine, label_name as the_label_name};
ghost use Rattle.at_run.specs.Labelling.{QuoteStands, QuoteIs, LabelStands, IsBehind, asks_label as label_asked};
ghost use Rattle.at_run.specs.Labelling.{AreKeptTexts, AreFrontTexts};

use at_blocks::is_valid;
use at_lex::{Units, take_text, units};
use at_query::{Test, TextPair, TextPairs};
use at_text::{Fault, FaultKind, Memory, stop_at};
use at_wkt::is_blank;
use std::alloc::Global;

/// The code units of the name that a label has among the texts of its feature.
const LABEL: &[u16] = &[108, 97, 98, 101, 108];

/// A line as it is read: its label, which is empty where it has none, and behind it the text that spells its geometry.
/// The text is the first `len` of the bytes ahead, and begins at the offset.
#[derive(Clone, Copy)]
pub struct Behind<'a> {
    pub label: &'a [u8],
    pub ahead: &'a [u8],
    pub len: usize,
    pub at: u32,
}

/// How many blanks a text begins with.
fn blank_len(text: &[u8]) -> usize
    ensures { IsFront blank_test text.now result }
{
    for (index, byte) in text.iter().enumerate() {
        if !is_blank(*byte) {
            return index;
        }
    }
    text.len()
}

/// The place of the quote that begins a text past its blanks, where one does.
fn quote_place(text: &[u8]) -> Option<usize>
    ensures { QuoteIs text.now result }
{
    let place = blank_len(text);
    if place == text.len() {
        return None;
    }
    if text[place] == b'"' {
        return Some(place);
    }
    None
}

/// Where the label that begins with the quote of a line ends.
///
/// # Errors
/// The line's syntax fault, exactly where no label begins with the quote.
fn label_end(text: &[u8], at: u32, quote: usize) -> Result<usize, Fault>
    requires quote { QuoteStands text.now quote }
    requires short { at + length text.now ≤ 2 ^ 28 }
    ensures { MatchResult result (LabelStands text.now quote) (IsSyntaxFault (LabelledLine at) at text.now) }
{
    let taken = take_text(&text[quote..]);
    let end = quote + taken.len as usize;
    if !taken.whole {
        return Err(stop_at(text, at, end));
    }
    Ok(end)
}

/// A line without a label.
#[inline(always)]
fn unlabelled<'a>(ahead: &'a [u8], len: usize, at: u32) -> Behind<'a>
    requires inside { len ≤ length ahead.now }
    requires none { QuoteIs (take len ahead.now) None }
    ensures { IsBehind ahead.now len at result }
{
    Behind {
        label: &[],
        ahead,
        len,
        at,
    }
}

/// A line with a label.
///
/// # Errors
/// Where the label isn't UTF-8: such a line only shows that the file has a fault of its encoding.
fn labelled<'a>(
    ahead: &'a [u8],
    len: usize,
    at: u32,
    quote: usize,
    end: usize,
) -> Result<Behind<'a>, Fault>
    requires inside { len ≤ length ahead.now }
    requires label { LabelStands (take len ahead.now) quote end }
    requires short { at + length ahead.now ≤ 2 ^ 28 }
    ensures { MatchResult result (IsBehind ahead.now len at)
        (λ fault. IsUtf8 (take len ahead.now) → IsSyntaxFault (LabelledLine at) at (take len ahead.now) fault) }
{
    let label = &ahead[quote..end];
    if !is_valid(label) {
        return Err(Fault {
            kind: FaultKind::NotUtf8,
            at: at + quote as u32,
        });
    }
    Ok(Behind {
        label,
        ahead: &ahead[end..],
        len: len - end,
        at: at + end as u32,
    })
}

/// A line that may begin with blanks or a quote.
fn quoted<'a>(ahead: &'a [u8], len: usize, at: u32) -> Result<Behind<'a>, Fault>
    requires inside { len ≤ length ahead.now }
    requires short { at + length ahead.now ≤ 2 ^ 28 }
    ensures { MatchResult result (IsBehind ahead.now len at)
        (λ fault. IsUtf8 (take len ahead.now) → IsSyntaxFault (LabelledLine at) at (take len ahead.now) fault) }
{
    let line = &ahead[..len];
    match quote_place(line) {
        None => Ok(unlabelled(ahead, len, at)),
        Some(quote) => {
            let end = label_end(line, at, quote)?;
            labelled(ahead, len, at, quote, end)
        }
    }
}

/// Whether bytes begin with one that is neither a blank nor a quote.
#[inline(always)]
fn begins_plain(ahead: &[u8]) -> bool
    ensures { IsTrue result → (n : ℕ) → QuoteIs (take n ahead.now) None }
{
    match ahead.first() {
        Some(byte) => *byte > b'"',
        None => false,
    }
}

/// The first `len` of the bytes ahead, which are a line at the offset, as they are read. Of a line that begins with a
/// letter only that one byte is looked at.
///
/// # Errors
/// A fault that is the first syntax fault of the line where the line is UTF-8.
#[inline(always)]
pub fn behind_label<'a>(ahead: &'a [u8], len: usize, at: u32) -> Result<Behind<'a>, Fault>
    requires inside { len ≤ length ahead.now }
    requires short { at + length ahead.now ≤ 2 ^ 28 }
    ensures { MatchResult result (IsBehind ahead.now len at)
        (λ fault. IsUtf8 (take len ahead.now) → IsSyntaxFault (LabelledLine at) at (take len ahead.now) fault) }
{
    if begins_plain(ahead) {
        Ok(unlabelled(ahead, len, at))
    } else {
        quoted(ahead, len, at)
    }
}

/// Whether a test asks for a text of the name that labels have.
fn asks_label(test: &Test) -> bool
    ensures { result ≡ label_asked test.now }
{
    match test {
        Test::InBox(_) | Test::MeetsShape(_) => false,
        Test::Has(name, _) => name.as_slice() == LABEL,
    }
}

/// Whether some test does.
fn ask_label(tests: &[Test]) -> bool
    ensures { result ≡ list_any label_asked tests.now }
{
    for test in tests {
        if asks_label(test) {
            return true;
        }
    }
    false
}

/// The name of labels.
fn label_name(alloc: Global) -> Result<Units, Memory>
    ensures { IfOk result (λ name. name ≡ the_label_name) }
{
    Ok(Units::from_slice(alloc, LABEL)?)
}

/// The texts that are kept of a feature with this label: the label under its name where a test asks for that name, and
/// else none. The one refusal is want of memory.
fn label_texts(alloc: Global, label: &[u8], tests: &[Test]) -> Result<TextPairs, Memory>
    requires whole { JsonString label.now }
    requires fits { length label.now ≤ 2 ^ 28 }
    ensures { IfOk result (AreKeptTexts tests.now label.now) }
{
    if !ask_label(tests) {
        return Ok(TextPairs::from_vec(Vec::new(alloc)));
    }
    let name = label_name(alloc)?;
    let value = units(alloc, label)?;
    let mut items = Vec::with_capacity(alloc, 1)?;
    items.push(TextPair { name, value })?;
    Ok(TextPairs::from_vec(items))
}

/// The texts that are kept of a line with this label, or with none. The one refusal is want of memory.
#[inline(always)]
pub fn front_texts(alloc: Global, label: &[u8], tests: &[Test]) -> Result<TextPairs, Memory>
    requires whole { (label.now ≡ []) ⊎ JsonString label.now }
    requires fits { length label.now ≤ 2 ^ 28 }
    ensures { IfOk result (AreFrontTexts tests.now label.now) }
{
    if label.is_empty() {
        Ok(TextPairs::from_vec(Vec::new(alloc)))
    } else {
        label_texts(alloc, label, tests)
    }
}
