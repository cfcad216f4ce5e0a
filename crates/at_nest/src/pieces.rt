//! What stands in a span before its first open level, and where a span stops.

ghost use Rattle.std.specs.Prelude.{◌≡◌, ◌-◌, ◌<◌, ◌≤◌, true, IfSome};
ghost use Rattle.at_nest.specs.Shown.{stop_at, first_of_piece, is_value_piece};
ghost use Rattle.at_nest.specs.Closers.{IsLonger, TakeTurns, turn};
ghost use Rattle.at_nest.specs.declared.pieces.Piece.{Piece};
ghost use Rattle.at_nest.specs.MemberMarks.{Awaits};
ghost use Rattle.at_nest.specs.Refusals.{not_behind_value as none_behind_value, not_behind_text as none_behind_text};
ghost use Rattle.at_nest.specs.Refusals.{not_behind_mark as none_behind_mark, not_behind_piece};
ghost use Rattle.at_nest.specs.Refusals.{is_comma as is_comma_piece};

use at_lex::{Bracket, TokenKind};
use at_text::Span;

/// Values one behind another, each behind a comma, which can be items of an array alone: no object goes on with a value
/// behind a comma.
#[derive(Drop)]
pub struct Row<T> {
    /// The offset of the first comma.
    pub comma: u32,
    /// The offset of the first value.
    pub first: u32,
    /// The atoms, as those of an array's items.
    pub items: Vec<T>,
}

/// A value behind a comma, or several, for which the atom stands.
#[derive(Drop)]
pub struct RowValue<T> {
    pub comma: u32,
    pub from: u32,
    pub atom: T,
}

/// A member before the first open level: where its name stands, and what its value became.
#[derive(Drop)]
pub struct NamedValue<T> {
    pub name: Span,
    pub value: T,
}

/// Members one behind another, each behind a comma, which can be members of an object alone: no array goes on with a
/// colon.
#[derive(Drop)]
pub struct MemberRow<T> {
    /// The offset of the first comma.
    pub comma: u32,
    /// The offset of the first colon.
    pub colon: u32,
    pub items: Vec<NamedValue<T>>,
}

/// A member behind a comma whose value comes next: the offsets of the comma and the colon, and where the name stands.
#[derive(Clone, Copy)]
pub struct Awaited {
    pub comma: u32,
    pub name: Span,
    pub colon: u32,
}

/// Closing brackets one right behind another, whose two kinds take turns. The two may be one.
#[derive(Clone, Copy)]
pub struct Closers {
    /// The kind of the first bracket, the third and so on.
    pub first: Bracket,
    /// The kind of the others.
    pub second: Bracket,
    /// The offset of the first.
    pub from: u32,
    /// The offset of the last.
    pub last: u32,
}

impl Closers {
    /// Brackets of one kind.
    pub fn of_kind(bracket: Bracket, from: u32, last: u32) -> Self
        ensures { result ≡ record { first = bracket; second = bracket; from = from; last = last } }
    {
        Closers {
            first: bracket,
            second: bracket,
            from,
            last,
        }
    }

    /// These and those behind them, where those stand right behind these and the kinds go on taking turns.
    pub fn longer(self, behind: Closers) -> Option<Closers>
        ensures { IfSome result (IsLonger self behind) }
    {
        if self.last < self.from || behind.from <= self.last || behind.from - self.last > 1 {
            return None;
        }
        let all = Closers {
            first: self.first,
            second: self.second_with(behind),
            from: self.from,
            last: behind.last,
        };
        if all.take_turns_in(behind) {
            Some(all)
        } else {
            None
        }
    }

    /// Those from the offset on.
    pub fn rest(self, at: u32) -> Closers
        requires { self.from ≤ at }
        ensures first { result.first ≡ turn self.first self.second (at - self.from) }
        ensures second { result.second ≡ turn self.second self.first (at - self.from) }
        ensures from { result.from ≡ at }
        ensures last { result.last ≡ self.last }
    {
        let (first, second) = if (at - self.from) % 2 == 0 {
            (self.first, self.second)
        } else {
            (self.second, self.first)
        };
        Closers {
            first,
            second,
            from: at,
            last: self.last,
        }
    }

    /// The second kind, which only one behind the first bracket decides.
    fn second_with(self, behind: Closers) -> Bracket
        ensures { ¬ (self.from ≡ self.last) → result ≡ self.second }
    {
        if self.from == self.last {
            behind.first
        } else {
            self.second
        }
    }

    /// Whether the kinds go on taking turns in the brackets.
    fn take_turns_in(self, behind: Closers) -> bool
        requires { self.from < behind.from }
        ensures { result ≡ true → TakeTurns self behind }
    {
        is_same(behind.first, self.kind_at(behind.from))
            && (behind.from == behind.last || is_same(behind.second, self.kind_at(behind.from - 1)))
    }

    /// The kind whose turn it is at the offset.
    pub fn kind_at(self, at: u32) -> Bracket
        requires { self.from ≤ at }
        ensures { result ≡ turn self.first self.second (at - self.from) }
    {
        self.rest(at).first
    }
}

/// An item of a span whose level was opened before the span, or several one behind another.
#[derive(Drop)]
pub enum Piece<T> {
    Comma(u32),
    Colon(u32),
    /// A string, which may turn out to be a name or a value, with the atom that it is as a value.
    Text { span: Span, atom: T },
    /// Any other value, with the offset of its first byte.
    Value { from: u32, atom: T },
    Row(Row<T>),
    Members(MemberRow<T>),
    Closers(Closers),
}

impl<T: Drop> Piece<T> {
    /// The offset of the first byte.
    pub fn first(&self) -> u32
        ensures { result ≡ first_of_piece self.now }
    {
        match self {
            Piece::Comma(at) => *at,
            Piece::Colon(at) => *at,
            Piece::Text { span, .. } => span.from,
            Piece::Value { from, .. } => *from,
            Piece::Row(row) => row.comma,
            Piece::Members(row) => row.comma,
            Piece::Closers(closers) => closers.from,
        }
    }

    /// Whether it is one value, or can be one.
    pub fn is_value(&self) -> bool
        ensures { result ≡ is_value_piece self.now }
    {
        match self {
            Piece::Text { .. } | Piece::Value { .. } => true,
            _ => false,
        }
    }

    /// Whether no token of the kind may stand behind it, whatever stands before.
    #[inline(always)]
    pub fn refuses(&self, kind: TokenKind) -> bool
        ensures { result ≡ not_behind_piece self.now kind }
    {
        match self {
            Piece::Comma(_) => not_behind_mark(kind),
            Piece::Colon(_) => not_behind_mark(kind),
            Piece::Text { .. } => not_behind_text(kind),
            Piece::Value { .. } => not_behind_value(kind),
            Piece::Row(_) => not_behind_value(kind),
            Piece::Members(_) => not_behind_text(kind),
            Piece::Closers(_) => not_behind_value(kind),
        }
    }

    /// Whether it is a comma.
    #[inline(always)]
    pub fn is_comma(&self) -> bool
        ensures { result ≡ is_comma_piece self.now }
    {
        match self {
            Piece::Comma(_) => true,
            _ => false,
        }
    }

    /// It with the closing brackets behind it, where they go on with its own.
    pub fn longer(&self, behind: Closers) -> Option<Closers>
        ensures { IfSome result (λ r. (c : Closers) × (self.now ≡ Piece.Closers c) × IsLonger c behind r) }
    {
        match self {
            Piece::Closers(closers) => closers.longer(behind),
            _ => None,
        }
    }
}

fn is_same(left: Bracket, right: Bracket) -> bool
    ensures { result ≡ true → left ≡ right }
{
    match (left, right) {
        (Bracket::Square, Bracket::Square) => true,
        (Bracket::Brace, Bracket::Brace) => true,
        _ => false,
    }
}

/// The member of which the next item is the value, where the last items are a comma, a string and a colon.
#[inline(always)]
pub fn awaited_member<T: Drop>(pieces: &[Piece<T>]) -> Option<Awaited>
    ensures { IfSome result (Awaits pieces.now) }
{
    if pieces.len() < 3 {
        return None;
    }
    let front = pieces.len() - 3;
    let Piece::Colon(colon) = &pieces[front + 2] else {
        return None;
    };
    let Piece::Text { span, .. } = &pieces[front + 1] else {
        return None;
    };
    let Piece::Comma(comma) = &pieces[front] else {
        return None;
    };
    Some(Awaited {
        comma: *comma,
        name: *span,
        colon: *colon,
    })
}

/// Whether no token of the kind may stand behind a closing bracket, or a value that is no string.
fn not_behind_value(kind: TokenKind) -> bool
    ensures { result ≡ none_behind_value kind }
{
    match kind {
        TokenKind::Opens(_) | TokenKind::Text | TokenKind::Run | TokenKind::Colon => true,
        _ => false,
    }
}

/// Whether no token of the kind may stand behind a string.
fn not_behind_text(kind: TokenKind) -> bool
    ensures { result ≡ none_behind_text kind }
{
    match kind {
        TokenKind::Opens(_) | TokenKind::Text | TokenKind::Run => true,
        _ => false,
    }
}

/// Whether no token of the kind may stand behind a comma or a colon.
fn not_behind_mark(kind: TokenKind) -> bool
    ensures { result ≡ none_behind_mark kind }
{
    match kind {
        TokenKind::Closes(_) | TokenKind::Comma | TokenKind::Colon => true,
        _ => false,
    }
}

/// How far a span reads on in the item at which it stops.
#[derive(Clone, Copy, Debug, PartialEq, Eq)]
pub enum Within {
    /// Not past its first byte, whatever stands before.
    First,
    /// In a literal or a number, or at its end.
    Run,
    /// In a string.
    Text,
}

/// Where a span stops: its item, and the first byte that no bytes before the span can make viable.
#[derive(Clone, Copy, Debug, PartialEq, Eq)]
pub struct SpanStop {
    pub within: Within,
    pub item: u32,
    pub place: u32,
}

/// A stop at an item's first byte.
pub fn first_byte(at: u32) -> SpanStop
    ensures { result ≡ stop_at at }
{
    SpanStop {
        within: Within::First,
        item: at,
        place: at,
    }
}
