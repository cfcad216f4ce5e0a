//! A piece of JSON as a stream of its tokens.

ghost use Rattle.std.specs.Prelude.{◌≡◌, ◌≢◌, ◌+◌, ◌≤◌, ◌<◌, ◌^◌, ◌-◌, length, slice_get, drop, true, false};
ghost use Rattle.at_lex.specs.Spans.{begins_run, begins_space, left_behind};
ghost use Rattle.at_lex.specs.Stream.{IsFirstItem, IsBegun, IsOnlyBegun, GivesItem, IsOnlyItem, BeginsItems, IsShorter};

use crate::fronts::{run_len, space_len};
use crate::numbers::ended_number_len;
use crate::runs::take_run;
use crate::strings::{TextEnd, scan_text, text_end};
use crate::tokens::{Bracket, Item, Lead, Pend, Start, Token, TokenKind};
use at_text::is_run;
use std::marker::Model;

/// Reads a piece of JSON, one item at a time, without memory.
///
/// Contracts see of it what is still to be read: the file offset of the next byte, the bytes from there to the
/// piece's end, and the lexical state before them.
#[derive(Drop)]
pub struct Lexer<'a> {
    rest: &'a [u8],
    at: u32,
    state: Start,
}

impl<'a> Model for Lexer<'a> {
    ghost use Rattle.std.specs.Prelude.{◌≡◌, ◌≢◌, ◌+◌, ◌≤◌, ◌^◌, [], length};
    ghost use Rattle.at_lex.specs.Stream.{Left};
    ghost use Rattle.at_lex.specs.declared.tokens.Start.TheVariants.{Out};

    ghost Value = { Left };

    ghost view = { λ s. record { at = s.at; rest = s.rest.now; state = s.state } };

    ghost invariant = { λ s. (s.at + length s.rest.now ≤ 2 ^ 28) × (s.state ≢ Out → s.rest.now ≡ []) };
}

/// The token of one byte.
fn mark(kind: TokenKind, at: u32) -> Item
    requires { at < 2 ^ 28 }
    ensures { result ≡ Item.Whole (record { kind = kind; from = at; to = at + 1 }) }
{
    Item::Whole(Token {
        kind,
        from: at,
        to: at + 1,
    })
}

/// The string that begins the text.
fn read_text(text: &[u8], at: u32) -> Item
    requires begins { slice_get text.now 0 ≡ Some 0x22 }
    requires fits { at + length text.now ≤ 2 ^ 28 }
    ensures { IsFirstItem at text.now result }
{
    let scanned = scan_text(text);
    if scanned.state.is_whole() {
        return Item::Whole(Token {
            kind: TokenKind::Text,
            from: at,
            to: at + scanned.len as u32,
        });
    }
    let place = at + scanned.len as u32;
    match text_end(&text[scanned.len..], scanned.state.lexical()) {
        TextEnd::Closed(more) => Item::Whole(Token {
            kind: TokenKind::Broken(place),
            from: at,
            to: place + more as u32,
        }),
        TextEnd::Open(end) => Item::End {
            pend: Pend::Text(at),
            end,
        },
    }
}

/// The run that begins the text.
fn read_run(text: &[u8], at: u32) -> Item
    requires begins { begins_run text.now ≡ true }
    requires fits { at + length text.now ≤ 2 ^ 28 }
    ensures { IsFirstItem at text.now result }
{
    if let Some(len) = ended_number_len(text) {
        return Item::Whole(Token {
            kind: TokenKind::Run,
            from: at,
            to: at + len as u32,
        });
    }
    let taken = take_run(text);
    let len = taken.len as usize;
    let end = len + run_len(&text[len..]);
    if end == text.len() {
        return Item::End {
            pend: Pend::Run(at),
            end: Start::Out,
        };
    }
    let kind = if taken.whole && end == len {
        TokenKind::Run
    } else {
        TokenKind::Broken(at + taken.len)
    };
    Item::Whole(Token {
        kind,
        from: at,
        to: at + end as u32,
    })
}

/// The first item of a text outside strings that begins with no white space.
fn first_item(text: &[u8], at: u32) -> Item
    requires begins { begins_space text.now ≡ false }
    requires fits { at + length text.now ≤ 2 ^ 28 }
    ensures { IsFirstItem at text.now result }
{
    match text.first() {
        None => Item::End {
            pend: Pend::Nothing,
            end: Start::Out,
        },
        Some(b'{') => mark(TokenKind::Opens(Bracket::Brace), at),
        Some(b'}') => mark(TokenKind::Closes(Bracket::Brace), at),
        Some(b'[') => mark(TokenKind::Opens(Bracket::Square), at),
        Some(b']') => mark(TokenKind::Closes(Bracket::Square), at),
        Some(b',') => mark(TokenKind::Comma, at),
        Some(b':') => mark(TokenKind::Colon, at),
        Some(b'"') => read_text(text, at),
        Some(_) => read_run(text, at),
    }
}

/// What is read behind the token: nothing behind a broken one.
fn behind<'a>(rest: &'a [u8], at: u32, token: Token) -> &'a [u8]
    requires from { at ≤ token.to }
    requires to { token.to ≤ at + length rest.now }
    ensures { result.now ≡ left_behind token.kind (drop (token.to - at) rest.now) }
{
    match token.kind {
        TokenKind::Broken(_) => &[],
        _ => &rest[(token.to - at) as usize..],
    }
}

impl<'a> Lexer<'a> {
    /// The lead of a piece, and the reader of what stands behind it. `base` is the file offset of the piece's
    /// first byte, and `start` the lexical state before it.
    pub fn new(piece: &'a [u8], base: u32, start: Start) -> (Lead, Self)
        requires { base + length piece.now ≤ 2 ^ 28 }
        ensures begun { IsBegun start base piece.now result.0 result.1 }
        ensures only { IsOnlyBegun start base piece.now result.0 result.1 }
    {
        match start {
            Start::Out => Lexer::behind_run(piece, base),
            _ => Lexer::behind_text(piece, base, start),
        }
    }

    fn behind_run(piece: &'a [u8], base: u32) -> (Lead, Self)
        requires { base + length piece.now ≤ 2 ^ 28 }
        ensures { IsBegun Start.Out base piece.now result.0 result.1 }
    {
        let len = run_len(piece);
        let at = base + len as u32;
        let lexer = Lexer {
            rest: &piece[len..],
            at,
            state: Start::Out,
        };
        let lead = if len == 0 {
            Lead::Nothing
        } else if len == piece.len() {
            Lead::AllRun
        } else {
            Lead::RunEnds(at)
        };
        (lead, lexer)
    }

    fn behind_text(piece: &'a [u8], base: u32, start: Start) -> (Lead, Self)
        requires fits { base + length piece.now ≤ 2 ^ 28 }
        requires in_text { start ≢ Start.Out }
        ensures { IsBegun start base piece.now result.0 result.1 }
    {
        match text_end(piece, start) {
            TextEnd::Closed(len) => {
                let at = base + len as u32;
                (
                    Lead::TextEnds(at),
                    Lexer {
                        rest: &piece[len..],
                        at,
                        state: Start::Out,
                    },
                )
            }
            TextEnd::Open(end) => (
                Lead::AllText,
                Lexer {
                    rest: &[],
                    at: base + piece.len() as u32,
                    state: end,
                },
            ),
        }
    }

    /// Goes on at the offset: the bytes up to it were read otherwise, and leave no string open.
    #[inline(always)]
    pub fn skip_to(&mut self, to: u32)
        requires out { self.old.state ≡ Start.Out }
        requires order { self.old.at ≤ to }
        requires inside { to ≤ self.old.at + length self.old.rest }
        ensures { self.new ≡ record { at = to; rest = drop (to - self.old.at) self.old.rest; state = Start.Out } }
    {
        self.rest = &self.rest[(to - self.at) as usize..];
        self.at = to;
    }

    /// The next item: a whole token, or the end of the piece. It passes the white space before a token and the
    /// token's bytes. A run counts as whole where a byte stands behind it, and a string where its closing quote
    /// does; what they spell is checked on the way. Behind a broken token nothing is read: the end comes next.
    /// The end is given again each time.
    pub fn next_item(&mut self) -> Item
        ensures gives { GivesItem self.old result self.new }
        ensures only { IsOnlyItem self.old result self.new }
        ensures items { BeginsItems self.old result self.new }
        ensures shorter { IsShorter self.old result self.new }
    {
        if self.rest.is_empty() {
            return Item::End {
                pend: Pend::Nothing,
                end: self.state,
            };
        }
        let spaces = space_len(self.rest);
        let item = first_item(&self.rest[spaces..], self.at + spaces as u32);
        if let Item::Whole(token) = item {
            self.rest = behind(self.rest, self.at, token);
            self.at = token.to;
        }
        item
    }
}
