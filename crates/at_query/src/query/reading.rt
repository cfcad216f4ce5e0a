//! Reads a whole query line: its verb, then its tests.

ghost use Rattle.std.specs.Prelude.{◌≡◌, [], Some, None, ◌^◌, ◌≤◌, codes, length, IfOk, MatchResult};
ghost use Rattle.at_query.specs.Ranges.{IsQueryInRange};
ghost use Rattle.at_query.specs.Queries.{IsQueryOf, HasQueryFault, IfFaultAt};
ghost use Rattle.at_query.specs.Readers.{Ends, Stops, Breaks, Then, VerbPart, Tests as TestsPart, TestsCover};
ghost use Rattle.at_text.specs.Halts.{IfStopped};
ghost use Rattle.at_query.specs.Readers.{QueryCovers, WordStands, WordBreaks, joint_of};

use crate::query::boxes::least;
use crate::query::bytes::{skip_word, stands};
use crate::query::filters::read_behind;
use crate::query::precision::Precision;
use crate::query::queries::{Query, Test, Tests, Verb};
use at_fixed::Coords;
use at_text::Halt;
use std::alloc::Global;

/// Why a query line is refused.
#[derive(Clone, Copy, Debug, PartialEq, Eq)]
pub enum QueryEnd {
    /// The text is no query from this offset on, or what stands there is wrong.
    Fault(u32),
    /// An allocation was refused.
    Memory,
}

/// The word before a test, behind the tests before it.
fn joint(tests: &[Test]) -> &'static [u8]
    ensures { result.now ≡ joint_of tests.now }
{
    if tests.is_empty() {
        b" where "
    } else {
        b" and "
    }
}

/// Reads tests up to the text's end, each behind its word; the least offset of what is wrong with them.
fn read_tests(
    alloc: Global,
    items: &mut Vec<Test>,
    text: &[u8],
    at: usize,
    rules: Precision,
) -> Result<Option<u32>, Halt>
    requires none { items.old.items ≡ [] }
    requires inside { at ≤ length text.now }
    requires short { length text.now ≤ 2 ^ 28 }
    ensures { MatchResult result
        (TestsCover rules.digits rules.how text.now at items.new.items)
        (λ halt. IfStopped halt (Breaks (TestsPart rules.digits rules.how (codes " where ")) text.now at)) }
{
    let mut fault = None;
    let mut from = at;
    while from < text.len() {
        let read = read_behind(alloc, text, from, joint(items), rules)?;
        items.push(read.test)?;
        fault = least(fault, read.fault);
        from = read.end;
    }
    Ok(fault)
}

/// A verb.
#[derive(Clone, Copy)]
struct VerbRead {
    /// The place behind it.
    end: usize,
    verb: Verb,
}

/// Reads the word of a verb.
fn read_word(text: &[u8], word: &[u8], verb: Verb) -> Result<VerbRead, Halt>
    ensures { MatchResult result (λ read. (read.verb ≡ verb) × WordStands text.now 0 read.end word.now)
        (λ halt. IfStopped halt (λ n. WordBreaks text.now 0 n word.now)) }
{
    let end = skip_word(text, 0, word)?;
    Ok(VerbRead { end, verb })
}

/// Reads a verb. Each begins with a letter of its own.
fn read_verb(text: &[u8]) -> Result<VerbRead, Halt>
    ensures { MatchResult result (λ read. Ends VerbPart text.now 0 read.end read.verb)
        (λ halt. IfStopped halt (Stops VerbPart text.now 0)) }
{
    if stands(text, 0, b's') {
        return read_word(text, b"select", Verb::Select);
    }
    if stands(text, 0, b'c') {
        return read_word(text, b"count", Verb::Count);
    }
    if stands(text, 0, b'a') {
        return read_word(text, b"area", Verb::Area);
    }
    if stands(text, 0, b'e') {
        return read_word(text, b"extent", Verb::Extent);
    }
    if stands(text, 0, b'h') {
        return read_word(text, b"hull", Verb::Hull);
    }
    if stands(text, 0, b'j') {
        return read_word(text, b"join", Verb::Join);
    }
    Err(Halt::At(0))
}

/// A query line, and the least offset of what is wrong with it.
#[derive(Drop)]
struct QueryRead {
    query: Query,
    fault: Option<u32>,
}

/// Reads a verb, and tests behind it.
fn read_whole(alloc: Global, text: &[u8], rules: Precision) -> Result<QueryRead, Halt>
    requires { length text.now ≤ 2 ^ 28 }
    ensures { MatchResult result
        (λ read. QueryCovers rules.digits rules.how text.now read.query.verb read.query.tests read.fault)
        (λ halt. IfStopped halt
        (Breaks (Then VerbPart (TestsPart rules.digits rules.how (codes " where "))) text.now 0)) }
{
    let front = read_verb(text)?;
    let mut items = Vec::new(alloc);
    let fault = read_tests(alloc, &mut items, text, front.end, rules)?;
    Ok(QueryRead {
        query: Query {
            verb: front.verb,
            tests: Tests::from_vec(items),
        },
        fault,
    })
}

/// The query, where nothing is wrong with it.
fn without_fault(read: QueryRead) -> Result<Query, QueryEnd>
    ensures { MatchResult result (λ query. (query ≡ read.query) × (read.fault ≡ None))
        (λ end. IfFaultAt end (λ at. read.fault ≡ Some at)) }
{
    match read.fault {
        None => Ok(read.query),
        Some(at) => Err(QueryEnd::Fault(at)),
    }
}

/// The query that a text spells (docs/QUERY.md has the grammar).
///
/// `Fault` is the offset at which the text stops being a query: the length of its longest prefix that some query
/// begins with. Where the text spells a query it is the least offset of all that is wrong with it: a number that
/// is out of range, or in `Exact` no whole number of units; the word `box` of a box whose low corner is greater
/// than its high one on some axis, where its numbers are right; the opening bracket of a line of fewer than two
/// positions, or of a ring that has fewer than four or isn't closed.
pub fn read_query(alloc: Global, text: &[u8], digits: u8, how: Coords) -> Result<Query, QueryEnd>
    requires { length text.now ≤ 2 ^ 28 }
    ensures answer { MatchResult result (IsQueryOf digits how text.now)
        (λ end. IfFaultAt end (HasQueryFault digits how text.now)) }
    ensures in_range { IfOk result IsQueryInRange }
{
    match read_whole(alloc, text, Precision { digits, how }) {
        Ok(read) => without_fault(read),
        Err(Halt::At(at)) => Err(QueryEnd::Fault(at as u32)),
        Err(Halt::Memory) => Err(QueryEnd::Memory),
    }
}
