//! The answer of a whole text.

ghost use Rattle.std.specs.Prelude.{◌≡◌, ◌+◌, ◌≤◌, ◌^◌, [], ◌∷◌, true, drop, length, Ok, Err, None};
ghost use Rattle.at_text.specs.Spans.{span_of};
ghost use Rattle.at_text.specs.Texts.{base_of as base_in};
ghost use Rattle.at_lex.specs.Runs.{JsonRun};
ghost use Rattle.at_lex.specs.Spans.{begins_run};
ghost use Rattle.at_nest.specs.Shown.{helds_of, top_of, shown, open_levels, stretched, opens_of};
ghost use Rattle.at_nest.specs.declared.finishing.Next.{Next};
ghost use Rattle.at_nest.specs.declared.finishing.Next.TheVariants as next;
ghost use Rattle.at_nest.specs.KeptItems.{IsOfItems, IsAtomOf};
ghost use Rattle.at_nest.specs.FragmentMeanings.{StandsFor, parts_of};
ghost use Rattle.at_nest.specs.VariantMeanings.{HoldsVariant};
ghost use Rattle.at_nest.specs.Variants.{IsPending};
ghost use Rattle.at_nest.specs.NextItems.{takes, level_next, IsNoValue, levels_next as levels_end};
ghost use Rattle.at_nest.specs.NextItems.{outer_next as outer_end};
ghost use Rattle.at_nest.specs.NextItems.{next_of as next_end, value_of, only_of, answer_of as answer_behind};
ghost use Rattle.at_nest.specs.NextItems.{stop_of as stop_behind, open_of as open_behind};
ghost use Rattle.at_nest.specs.LastBytes.{begins_text, IsTail, EndsSo};
ghost use Rattle.at_nest.specs.TextAnswers.{Answers};

use crate::algebra::Algebra;
use crate::bodies::{Body, read_value};
use crate::fragments::Fragment;
use crate::levels::Open;
use crate::open_levels::{Levels, Stretch};
use crate::pieces::{Piece, SpanStop, Within};
use crate::sources::JsonSource;
use crate::tokens::stop_in;
use crate::variants::{Variant, join_items};
use at_lex::{RunEnd, Start, check_run, take_text};
use at_text::{Memory, Span, base_of};
use std::alloc::Global;

/// Why a text has no answer.
#[derive(Clone, Copy, Debug, PartialEq, Eq)]
pub enum NestEnd {
    /// No JSON text goes on with the byte at this offset.
    Syntax(u32),
    /// The bytes end before a JSON text does.
    Ended,
    Memory,
}

impl From<Memory> for NestEnd {
    ghost use Rattle.at_nest.specs.declared.finishing.NestEnd.{NestEnd};

    ghost from_gives = { λ _ end. end ≡ NestEnd.Memory };

    fn from(_refused: Memory) -> NestEnd {
        NestEnd::Memory
    }
}

/// What may stand next where the items of a text end.
#[derive(Clone, Copy)]
enum Next {
    /// A value.
    Value,
    /// A name.
    Name,
    /// A comma, a colon or a closing bracket.
    Mark,
    /// Nothing but white space: the text is one value.
    Nothing,
}

impl Next {
    /// Whether the beginning of an item of this kind may stand there.
    fn takes(self, within: Within) -> bool
        ensures { result ≡ takes within self }
    {
        match within {
            Within::First => false,
            Within::Run => match self {
                Next::Value => true,
                _ => false,
            },
            Within::Text => match self {
                Next::Value | Next::Name => true,
                _ => false,
            },
        }
    }
}

/// What may stand behind the items of the innermost open level.
fn next_in<T: Drop>(level: &Open<T>) -> Next
    ensures { result ≡ level_next (top_of level.now) }
{
    if level.wants_value() {
        Next::Value
    } else if level.wants_name() {
        Next::Name
    } else {
        Next::Mark
    }
}

/// What may stand behind what comes before the first open level, or the first item that may not stand there.
fn outer_next<T: Drop>(outer: &[Piece<T>]) -> Result<Next, u32>
    ensures { result ≡ outer_end outer.now }
{
    match outer {
        [] => Ok(Next::Value),
        [only] => if only.is_value() {
            Ok(Next::Nothing)
        } else {
            Err(only.first())
        },
        [first, second, ..] => if first.is_value() {
            Err(second.first())
        } else {
            Err(first.first())
        },
    }
}

/// The offset of the outermost one's bracket.
fn first_of<T: Drop>(level: &Open<T>) -> u32
    ensures { (n : Next) → IsNoValue n → levels_end (Ok n) (helds_of level.now) ≡ Err result }
{
    match level {
        Open::Nested(nest) => nest.last.saturating_sub(nest.more),
        level => level.first(),
    }
}

/// What may stand behind what is open there, or the first of it, where that may not stand.
fn open_next<T: Drop>(next: Next, level: &Open<T>) -> Result<Next, u32>
    ensures { result ≡ levels_end (Ok next) (helds_of level.now) }
{
    match next {
        Next::Value => Ok(next_in(level)),
        _ => Err(first_of(level)),
    }
}

/// The same behind levels one in the other, or the first that may not stand where it does.
fn opens_next<T: Drop>(next: Next, opens: &[Open<T>]) -> Result<Next, u32>
    ensures { result ≡ levels_end (Ok next) (open_levels opens.now) }
{
    let mut next = next;
    for level in opens {
        next = open_next(next, level)?;
    }
    Ok(next)
}

/// The same behind a stretch of levels.
fn stretch_next<T: Drop>(next: Next, stretch: &Stretch<T>) -> Result<Next, u32>
    ensures { result ≡ levels_end (Ok next) (open_levels (stretched (stretch.now ∷ []))) }
{
    match opens_next(next, stretch.round.as_slice()) {
        Ok(inside) => open_next(inside, &stretch.innermost),
        Err(place) => Err(place),
    }
}

/// The same behind stretches of levels.
fn stretches_next<T: Drop>(next: Next, stretches: &[Stretch<T>]) -> Result<Next, u32>
    ensures { result ≡ levels_end (Ok next) (open_levels (stretched stretches.now)) }
{
    let mut next = next;
    for stretch in stretches {
        next = stretch_next(next, stretch)?;
    }
    Ok(next)
}

/// What may stand behind the open levels, or the first that may not stand where it does.
fn levels_next<T: Drop>(next: Next, levels: &Levels<T>) -> Result<Next, u32>
    ensures { result ≡ levels_end (Ok next) (open_levels (opens_of levels.now)) }
{
    match stretches_next(next, levels.before.as_slice()) {
        Ok(inside) => opens_next(inside, levels.last.as_slice()),
        Err(place) => Err(place),
    }
}

/// What may stand behind the items of a text, or the first one that may not stand where it does.
fn next_of<T: Drop>(body: &Body<T>) -> Result<Next, u32>
    ensures { result ≡ next_end (shown body.now) }
{
    match outer_next(body.outer.as_slice()) {
        Err(place) => Err(place),
        Ok(next) => levels_next(next, &body.levels),
    }
}

/// The atom of an item that is a value.
fn atom_of<T: Drop>(piece: Piece<T>) -> Result<T, NestEnd>
    ensures { result ≡ value_of piece }
{
    match piece {
        Piece::Text { atom, .. } => Ok(atom),
        Piece::Value { atom, .. } => Ok(atom),
        _ => Err(NestEnd::Ended),
    }
}

/// The atom of a text that is one value.
fn only_atom<T: Drop>(mut body: Body<T>) -> Result<T, NestEnd>
    ensures { result ≡ only_of body.outer.items }
{
    match body.outer.pop() {
        None => Err(NestEnd::Ended),
        Some(piece) => atom_of(piece),
    }
}

/// The answer of a text whose items are these.
fn answer_of<T: Drop>(body: Body<T>) -> Result<T, NestEnd>
    ensures { result ≡ answer_behind (shown body) }
{
    match next_of(&body) {
        Err(place) => Err(NestEnd::Syntax(place)),
        Ok(Next::Nothing) => only_atom(body),
        Ok(_) => Err(NestEnd::Ended),
    }
}

/// Where a text stops whose items are these, and which stops behind them.
fn stop_of<T: Drop>(body: &Body<T>, halt: SpanStop) -> NestEnd
    ensures { result ≡ stop_behind (next_end (shown body.now)) halt }
{
    match next_of(body) {
        Err(place) => NestEnd::Syntax(place),
        Ok(next) => if next.takes(halt.within) {
            NestEnd::Syntax(halt.place)
        } else {
            NestEnd::Syntax(halt.item)
        },
    }
}

/// The answer of a text that ends in the beginning of a run or a string.
fn open_of<T: Drop>(body: &Body<T>, within: Within, from: u32) -> NestEnd
    ensures { result ≡ open_behind (next_end (shown body.now)) within from }
{
    match next_of(body) {
        Err(place) => NestEnd::Syntax(place),
        Ok(next) => if next.takes(within) {
            NestEnd::Ended
        } else {
            NestEnd::Syntax(from)
        },
    }
}

/// How the last bytes of a text read.
enum Tail {
    /// There are none.
    Nothing,
    /// A whole literal or number.
    Value,
    /// A run or a string that stops before its end.
    Stops(SpanStop),
    /// The beginning of a run or a string.
    Open(Within),
}

/// How a string without its closing quote reads.
fn text_tail(text: &[u8], from: u32) -> Tail
    requires pending { IsPending text.now }
    requires quote { begins_text text.now ≡ true }
    requires fits { from + length text.now ≤ 2 ^ 28 }
    ensures { IsTail from text.now result }
{
    let taken = take_text(text);
    if taken.len as usize == text.len() {
        Tail::Open(Within::Text)
    } else {
        Tail::Stops(stop_in(Within::Text, from, taken.len))
    }
}

/// How a run at the end of a text reads.
fn run_tail(text: &[u8], from: u32) -> Tail
    requires pending { IsPending text.now }
    requires run { begins_run text.now ≡ true }
    requires fits { from + length text.now ≤ 2 ^ 28 }
    ensures { IsTail from text.now result }
{
    match check_run(text) {
        RunEnd::BadAt(len) => if len as usize == text.len() {
            Tail::Open(Within::Run)
        } else {
            Tail::Stops(stop_in(Within::Run, from, len))
        },
        _ => Tail::Value,
    }
}

fn tail_of(text: &[u8], from: u32) -> Tail
    requires pending { IsPending text.now }
    requires fits { from + length text.now ≤ 2 ^ 28 }
    ensures { IsTail from text.now result }
{
    if text.is_empty() {
        Tail::Nothing
    } else if text[0] == b'"' {
        text_tail(text, from)
    } else {
        run_tail(text, from)
    }
}

/// The answer of a text whose items are these, and which ends in a whole literal or number.
fn last_run<A: Algebra>(
    alloc: Global,
    algebra: &A,
    mut body: Body<A::Atom>,
    text: &[u8],
    from: u32,
) -> Result<A::Atom, NestEnd>
    requires whole { JsonRun text.now }
    requires fits { from + length text.now ≤ 2 ^ 28 }
    requires held { IsOfItems (IsAtomOf A.Algebra algebra.now) (shown body) }
    ensures { EndsSo (IsAtomOf A.Algebra algebra.now) (shown body) from text.now result }
{
    let atom = algebra.scalar(alloc, text, from)?;
    match read_value(&mut body, alloc, algebra, from, atom)? {
        None => answer_of(body),
        Some(halt) => Err(stop_of(&body, halt)),
    }
}

/// The answer of a text whose items are these, and which ends in the bytes of `text`.
fn last<A: Algebra>(
    alloc: Global,
    algebra: &A,
    body: Body<A::Atom>,
    text: &[u8],
    from: u32,
) -> Result<A::Atom, NestEnd>
    requires pending { IsPending text.now }
    requires fits { from + length text.now ≤ 2 ^ 28 }
    requires held { IsOfItems (IsAtomOf A.Algebra algebra.now) (shown body) }
    ensures { EndsSo (IsAtomOf A.Algebra algebra.now) (shown body) from text.now result }
{
    match tail_of(text, from) {
        Tail::Nothing => answer_of(body),
        Tail::Value => last_run(alloc, algebra, body, text, from),
        Tail::Stops(halt) => Err(stop_of(&body, halt)),
        Tail::Open(within) => Err(open_of(&body, within, from)),
    }
}

/// The answer of a span that is read as a whole JSON text.
///
/// # Errors
/// `Syntax` before the first byte with which no JSON text goes on, `Ended` where the span ends before a text does.
pub fn finish_span<A: Algebra>(
    alloc: Global,
    algebra: &A,
    bytes: &[u8],
    span: Span,
    whole: Fragment<A>,
) -> Result<A::Atom, NestEnd>
    requires fits { length bytes.now ≤ 2 ^ 28 }
    requires order { span.from ≤ span.to }
    requires end { span.to ≤ length bytes.now }
    requires whole { StandsFor (IsAtomOf A.Algebra algebra.now) span.from (span_of bytes.now span.from span.to) whole }
    ensures answers { Answers (IsAtomOf A.Algebra algebra.now) span.from (span_of bytes.now span.from span.to) result }
    ensures lost { parts_of whole ≡ None → result ≡ Err NestEnd.Memory }
{
    let Some(parts) = whole.into_parts() else {
        return Err(NestEnd::Memory);
    };
    let source = JsonSource {
        alloc,
        algebra,
        bytes,
    };
    finish_variant(&source, span, parts.out)
}

/// The answer of a span, by what it is from outside text. Its lead is a run of its own.
fn finish_variant<A: Algebra>(
    source: &JsonSource<'_, A>,
    span: Span,
    variant: Variant<A::Atom>,
) -> Result<A::Atom, NestEnd>
    requires order { span.from ≤ span.to }
    requires end { span.to ≤ length source.now.bytes.now }
    requires held { HoldsVariant (IsAtomOf A.Algebra source.now.algebra.now) Start.Out span.from
        (span_of source.now.bytes.now span.from span.to) variant }
    ensures { Answers (IsAtomOf A.Algebra source.now.algebra.now) span.from (span_of source.now.bytes.now span.from span.to) result }
{
    let mut body = Body::new(source.alloc);
    match variant {
        Variant::AllLead { .. } => {
            let text = &source.bytes[span.from as usize..span.to as usize];
            last(source.alloc, source.algebra, body, text, span.from)
        }
        Variant::Whole {
            lead,
            body: behind,
            pend,
            ..
        } => match join_items(&mut body, source, span.from, lead, behind)? {
            None => {
                let text = &source.bytes[pend as usize..span.to as usize];
                last(source.alloc, source.algebra, body, text, pend)
            }
            Some(halt) => Err(stop_of(&body, halt)),
        },
        Variant::Broken {
            lead,
            body: behind,
            halt: end,
        } => match join_items(&mut body, source, span.from, lead, behind)? {
            None => Err(stop_of(&body, end)),
            Some(halt) => Err(stop_of(&body, halt)),
        },
    }
}

/// The answer of a file whose fragment, from behind a byte order mark on, is whole.
///
/// # Errors
/// `Syntax` before the first byte with which no JSON text goes on, `Ended` where the file ends before a text does.
pub fn finish<A: Algebra>(
    alloc: Global,
    algebra: &A,
    bytes: &[u8],
    whole: Fragment<A>,
) -> Result<A::Atom, NestEnd>
    requires fits { length bytes.now ≤ 2 ^ 28 }
    requires whole { StandsFor (IsAtomOf A.Algebra algebra.now) (base_in bytes.now) (drop (base_in bytes.now) bytes.now)
        whole }
    ensures answers { Answers (IsAtomOf A.Algebra algebra.now) (base_in bytes.now) (drop (base_in bytes.now) bytes.now)
        result }
    ensures lost { parts_of whole ≡ None → result ≡ Err NestEnd.Memory }
{
    let span = Span {
        from: base_of(bytes),
        to: bytes.len() as u32,
    };
    finish_span(alloc, algebra, bytes, span, whole)
}
