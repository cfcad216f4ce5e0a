//! Whole tokens, as a piece gives them, and as two spans give them together.

ghost use Rattle.std.specs.Prelude.{◌≡◌, ℕ, ◌+◌, ◌<◌, ◌≤◌, ◌^◌, List, length, true, false, None, IfOk};
ghost use Rattle.at_lex.specs.Runs.{JsonRun};
ghost use Rattle.at_lex.specs.Spans.{begins_run, is_broken, IsText, IsToken as IsLexed};
ghost use Rattle.at_nest.specs.Shown.{shown};
ghost use Rattle.at_nest.specs.KeptItems.{IsOfItems, IsAtomOf};
ghost use Rattle.at_nest.specs.Unions.{IsToken};
ghost use Rattle.at_nest.specs.Reading.{stop_within, within_from, Reads, ReadsToken, ReadsRun};

use crate::algebra::Algebra;
use crate::bodies::{Body, close, read_text, read_value};
use crate::pieces::{SpanStop, Within, first_byte};
use at_lex::{RunEnd, Token, TokenKind, check_run, take_text};
use at_text::Memory;
use std::alloc::Global;

/// The stop in a string or a run, of which so many bytes read on.
pub fn stop_in(within: Within, item: u32, len: u32) -> SpanStop
    requires { item + len < 2 ^ 32 }
    ensures { result ≡ stop_within within item len }
{
    if len == 0 {
        first_byte(item)
    } else {
        SpanStop {
            within,
            item,
            place: item + len,
        }
    }
}

/// In what a token that spells nothing stops.
fn within_of(text: &[u8]) -> Within
    ensures { result ≡ within_from text.now }
{
    match text {
        [b'"', ..] => Within::Text,
        _ => Within::Run,
    }
}

/// A whole literal or number.
#[inline(always)]
fn read_run<A: Algebra>(
    body: &mut Body<A::Atom>,
    alloc: Global,
    algebra: &A,
    text: &[u8],
    at: u32,
) -> Result<Option<SpanStop>, Memory>
    requires whole { JsonRun text.now }
    requires fits { at + length text.now ≤ 2 ^ 28 }
    requires held { IsOfItems (IsAtomOf A.Algebra algebra.now) (shown body.old) }
    ensures { IfOk result (λ r. ReadsRun (IsAtomOf A.Algebra algebra.now)
        (shown body.old) (shown body.new) r at text.now) }
{
    let atom = algebra.scalar(alloc, text, at)?;
    read_value(body, alloc, algebra, at, atom)
}

/// A token of a piece, with its bytes.
#[inline(always)]
pub fn read_token<A: Algebra>(
    body: &mut Body<A::Atom>,
    alloc: Global,
    algebra: &A,
    text: &[u8],
    token: Token,
) -> Result<Option<SpanStop>, Memory>
    requires token { (after : List ℕ) × IsLexed token.from text.now after token }
    requires fits { token.from + length text.now ≤ 2 ^ 28 }
    requires held { IsOfItems (IsAtomOf A.Algebra algebra.now) (shown body.old) }
    ensures reads { IfOk result
        (λ r. ReadsToken (IsAtomOf A.Algebra algebra.now)
        (shown body.old) (shown body.new) r text.now token) }
    ensures whole { IfOk result (λ r. r ≡ None → is_broken token.kind ≡ false) }
{
    let at = token.from;
    match token.kind {
        TokenKind::Opens(bracket) => {
            body.open(alloc, bracket, at)?;
            Ok(None)
        }
        TokenKind::Closes(bracket) => close(body, alloc, algebra, bracket, at),
        TokenKind::Comma => body.comma(alloc, at),
        TokenKind::Colon => body.colon(alloc, at),
        TokenKind::Text => read_text(body, alloc, algebra, text, at),
        TokenKind::Run => read_run(body, alloc, algebra, text, at),
        TokenKind::Broken(place) => Ok(Some(stop_in(within_of(text), at, place - at))),
    }
}

/// A whole string that was cut.
fn cut_text<A: Algebra>(
    body: &mut Body<A::Atom>,
    alloc: Global,
    algebra: &A,
    text: &[u8],
    at: u32,
) -> Result<Option<SpanStop>, Memory>
    requires closed { IsText text.now }
    requires fits { at + length text.now ≤ 2 ^ 28 }
    requires held { IsOfItems (IsAtomOf A.Algebra algebra.now) (shown body.old) }
    ensures { IfOk result (λ r. Reads (IsAtomOf A.Algebra algebra.now)
        (shown body.old) (shown body.new) r at text.now) }
{
    let taken = take_text(text);
    if taken.len as usize == text.len() {
        read_text(body, alloc, algebra, text, at)
    } else {
        Ok(Some(stop_in(Within::Text, at, taken.len)))
    }
}

/// A whole run that was cut.
pub fn cut_run<A: Algebra>(
    body: &mut Body<A::Atom>,
    alloc: Global,
    algebra: &A,
    text: &[u8],
    at: u32,
) -> Result<Option<SpanStop>, Memory>
    requires begins { begins_run text.now ≡ true }
    requires fits { at + length text.now ≤ 2 ^ 28 }
    requires held { IsOfItems (IsAtomOf A.Algebra algebra.now) (shown body.old) }
    ensures { IfOk result (λ r. Reads (IsAtomOf A.Algebra algebra.now)
        (shown body.old) (shown body.new) r at text.now) }
{
    match check_run(text) {
        RunEnd::BadAt(len) => Ok(Some(stop_in(Within::Run, at, len))),
        _ => read_run(body, alloc, algebra, text, at),
    }
}

/// The token that two spans give together, or none.
pub fn cut_token<A: Algebra>(
    body: &mut Body<A::Atom>,
    alloc: Global,
    algebra: &A,
    text: &[u8],
    at: u32,
) -> Result<Option<SpanStop>, Memory>
    requires token { (more : List ℕ) × IsToken text.now more }
    requires fits { at + length text.now ≤ 2 ^ 28 }
    requires held { IsOfItems (IsAtomOf A.Algebra algebra.now) (shown body.old) }
    ensures { IfOk result (λ r. Reads (IsAtomOf A.Algebra algebra.now)
        (shown body.old) (shown body.new) r at text.now) }
{
    if text.is_empty() {
        Ok(None)
    } else if text[0] == b'"' {
        cut_text(body, alloc, algebra, text, at)
    } else {
        cut_run(body, alloc, algebra, text, at)
    }
}
