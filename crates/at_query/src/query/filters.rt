//! One test of a query line, by its first word.

ghost use Rattle.std.specs.Prelude.{◌^◌, ◌<◌, ◌≤◌, length, MatchResult};
ghost use Rattle.at_text.specs.Halts.{IfStopped};
ghost use Rattle.at_query.specs.Readers.{Ends, Stops, Behind, InTest, MeetsTest, HasTest, OneTest, test_in};

use crate::query::boxes::read_box;
use crate::query::bytes::{skip_word, stands};
use crate::query::precision::Precision;
use crate::query::queries::Test;
use crate::query::strings::read_string;
use crate::query::targets::read_target;
use at_text::Halt;
use std::alloc::Global;

/// A test.
#[derive(Drop)]
pub struct TestRead {
    /// The place behind it.
    pub end: usize,
    pub test: Test,
    /// The least offset of what is wrong with it.
    pub fault: Option<u32>,
}

/// Reads a test whose shapes are in a box.
fn read_in(text: &[u8], at: usize, rules: Precision) -> Result<TestRead, Halt>
    requires inside { at ≤ length text.now }
    requires short { length text.now ≤ 2 ^ 28 }
    ensures { MatchResult result
        (λ read. Ends (InTest rules.digits rules.how) text.now at read.end (test_in read))
        (λ halt. IfStopped halt (Stops (InTest rules.digits rules.how) text.now at)) }
{
    let from = skip_word(text, at, b"in ")?;
    let found = read_box(text, from, rules)?;
    Ok(TestRead {
        end: found.end,
        test: Test::InBox(found.extent),
        fault: found.fault,
    })
}

/// Reads a test whose shapes meet a box or a geometry.
fn read_meets(alloc: Global, text: &[u8], at: usize, rules: Precision) -> Result<TestRead, Halt>
    requires inside { at ≤ length text.now }
    requires short { length text.now ≤ 2 ^ 28 }
    ensures { MatchResult result
        (λ read. Ends (MeetsTest rules.digits rules.how) text.now at read.end (test_in read))
        (λ halt. IfStopped halt (Stops (MeetsTest rules.digits rules.how) text.now at)) }
{
    let from = skip_word(text, at, b"meets ")?;
    read_target(alloc, text, from, rules)
}

/// Reads a test for a name and a value.
fn read_has(alloc: Global, text: &[u8], at: usize) -> Result<TestRead, Halt>
    requires inside { at ≤ length text.now }
    requires short { length text.now ≤ 2 ^ 28 }
    ensures { MatchResult result (λ read. Ends HasTest text.now at read.end (test_in read))
        (λ halt. IfStopped halt (Stops HasTest text.now at)) }
{
    let from = skip_word(text, at, b"has ")?;
    let name = read_string(alloc, text, from)?;
    let behind = skip_word(text, name.end, b" = ")?;
    let value = read_string(alloc, text, behind)?;
    Ok(TestRead {
        end: value.end,
        test: Test::Has(name.units, value.units),
        fault: None,
    })
}

/// Reads a test. Each begins with a letter of its own.
fn read_test(alloc: Global, text: &[u8], at: usize, rules: Precision) -> Result<TestRead, Halt>
    requires inside { at ≤ length text.now }
    requires short { length text.now ≤ 2 ^ 28 }
    ensures { MatchResult result
        (λ read. Ends (OneTest rules.digits rules.how) text.now at read.end (test_in read))
        (λ halt. IfStopped halt (Stops (OneTest rules.digits rules.how) text.now at)) }
{
    if stands(text, at, b'i') {
        return read_in(text, at, rules);
    }
    if stands(text, at, b'm') {
        return read_meets(alloc, text, at, rules);
    }
    if stands(text, at, b'h') {
        return read_has(alloc, text, at);
    }
    Err(Halt::At(at))
}

/// Reads a word, and behind it a test.
pub fn read_behind(
    alloc: Global,
    text: &[u8],
    at: usize,
    word: &[u8],
    rules: Precision,
) -> Result<TestRead, Halt>
    requires inside { at ≤ length text.now }
    requires short { length text.now ≤ 2 ^ 28 }
    requires some { 0 < length word.now }
    ensures { MatchResult result
        (λ read. (at < read.end)
        × Ends (Behind word.now (OneTest rules.digits rules.how)) text.now at read.end (test_in read))
        (λ halt. IfStopped halt (Stops (Behind word.now (OneTest rules.digits rules.how)) text.now at)) }
{
    let from = skip_word(text, at, word)?;
    read_test(alloc, text, from, rules)
}
