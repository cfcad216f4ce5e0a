//! Tables for strings, runs and the tokens of pieces.

ghost use Rattle.std.specs.Prelude.{◌<◌, ◌≤◌, length};

mod slow;

use at_lex::{
    Bracket, Item, Lead, Lexed, Lexer, Pend, RunEnd, Start, Token, TokenKind, Units, check_run,
    lex, take_text, units,
};
use slow::slow_lex;
use std::alloc::{AllocError, Global};
use std::test::Fail;

/// How much of a text begins a string, and whether it is one.
static STRINGS: [(&[u8], u32, bool); 12] = [
    (b"\"ab\"x", 4, true),
    (b"\"\\q\"", 2, false),
    (b"\"a\\u00\"", 6, false),
    (b"", 0, false),
    (b"x", 0, false),
    (b"\"", 1, false),
    (b"\"\"", 2, true),
    (b"\"\\u00aF\"", 8, true),
    (b"\"a\nb\"", 2, false),
    (b"\"\xFF\x7F\"", 4, true),
    (b"\"\\\"\\\\\\/\\b\\f\\n\\r\\t\"", 18, true),
    (
        b"\"0123456789012345678901234567890123456789\x1F\"",
        41,
        false,
    ),
];

/// Whether so many bytes of a text begin a string, and whether it is one.
fn begins_text(text: &[u8], len: u32, whole: bool) -> bool
    requires { length text.now < 100 }
{
    let taken = take_text(text);
    taken.len == len && taken.whole == whole
}

/// How many rows are as told, up to the first that isn't.
fn strings_told(rows: &[(&[u8], u32, bool)]) -> usize {
    for told in 0..rows.len() {
        let (text, len, whole) = rows[told];
        if text.len() >= 100 || !begins_text(text, len, whole) {
            return told;
        }
    }
    rows.len()
}

#[test]
fn strings(rt: HostRuntime) {
    assert_eq!(rt; strings_told(&STRINGS), 12);
}

/// Which literal a text is, that it is a number, or where it is neither.
static RUNS: [(&[u8], RunEnd); 14] = [
    (b"tru", RunEnd::BadAt(3)),
    (b"trux", RunEnd::BadAt(3)),
    (b"1x", RunEnd::BadAt(1)),
    (b"null", RunEnd::Null),
    (b"true", RunEnd::True),
    (b"false", RunEnd::False),
    (b"nulll", RunEnd::BadAt(4)),
    (b"-0.5e+3", RunEnd::Number),
    (b"01", RunEnd::BadAt(1)),
    (b"-", RunEnd::BadAt(1)),
    (b"", RunEnd::BadAt(0)),
    (b"+1", RunEnd::BadAt(0)),
    (b"nul", RunEnd::BadAt(3)),
    (b"1 ", RunEnd::BadAt(1)),
];

/// How many rows are as told, up to the first that isn't.
fn runs_told(rows: &[(&[u8], RunEnd)]) -> usize {
    for told in 0..rows.len() {
        let (text, end) = rows[told];
        if text.len() >= 100 || check_run(text) != end {
            return told;
        }
    }
    rows.len()
}

#[test]
fn runs(rt: HostRuntime) {
    assert_eq!(rt; runs_told(&RUNS), 14);
}

fn token(kind: TokenKind, from: u32, to: u32) -> Token {
    Token { kind, from, to }
}

/// What is wanted of a piece.
#[derive(Drop)]
struct Wanted<'a> {
    lead: Lead,
    tokens: &'a [Token],
    pend: Pend,
    end: Start,
}

/// Whether the items are the ones that are wanted.
fn is_lexed(found: &Lexed, wanted: &Wanted) -> bool {
    found.lead == wanted.lead
        && found.tokens.as_slice() == wanted.tokens
        && found.pend == wanted.pend
        && found.end == wanted.end
}

/// The tokens of a piece that begins in a string and ends in a run.
static FROM_A_STRING: [(TokenKind, u32, u32); 6] = [
    (TokenKind::Comma, 102, 103),
    (TokenKind::Text, 103, 106),
    (TokenKind::Colon, 106, 107),
    (TokenKind::Opens(Bracket::Square), 107, 108),
    (TokenKind::Run, 108, 109),
    (TokenKind::Comma, 109, 110),
];

fn listed(alloc: Global, rows: &[(TokenKind, u32, u32)]) -> Result<Vec<Token>, AllocError> {
    let mut tokens = Vec::new(alloc);
    for row in rows {
        tokens.push(token(row.0, row.1, row.2))?;
    }
    Ok(tokens)
}

#[test]
fn a_piece_from_a_string(rt: HostRuntime) -> Result<(), Fail> {
    let tokens = listed(rt.alloc(), &FROM_A_STRING)?;
    let lexed = lex(rt.alloc(), b"b\",\"c\":[1,tr", 100, Start::InString)?;
    let wanted = Wanted {
        lead: Lead::TextEnds(102),
        tokens: tokens.as_slice(),
        pend: Pend::Run(110),
        end: Start::Out,
    };
    assert!(rt; is_lexed(&lexed, &wanted));
    Ok(())
}

/// Whether the text is a string of the code units.
fn has_units(alloc: Global, text: &[u8], expected: &[u16]) -> Result<bool, Fail>
    requires { length text.now < 100 }
{
    let taken = take_text(text);
    if !taken.whole || (taken.len as usize) < text.len() {
        return Ok(false);
    }
    let found = units(alloc, text)?;
    Ok(found.as_slice() == expected)
}

/// How many texts have their units, up to the first that hasn't.
fn units_told(alloc: Global, rows: &[(&[u8], &[u16])]) -> Result<usize, Fail> {
    for told in 0..rows.len() {
        let (text, expected) = rows[told];
        if text.len() >= 100 || !has_units(alloc, text, expected)? {
            return Ok(told);
        }
    }
    Ok(rows.len())
}

/// Each string with its UTF-16 code units.
static CODE_UNITS: [(&[u8], &[u16]); 10] = [
    (b"\"\\ud83d\"", &[55357]),
    (
        b"\"abcdefghijk\"",
        &[97, 98, 99, 100, 101, 102, 103, 104, 105, 106, 107],
    ),
    (
        b"\"abcdefghijkl\"",
        &[97, 98, 99, 100, 101, 102, 103, 104, 105, 106, 107, 108],
    ),
    (b"\"\xC3\xA9\"", &[233]),
    (b"\"\xF0\x9F\x98\x80\"", &[55357, 56832]),
    (b"\"\"", &[]),
    (b"\"a\\u0041\\n\\\"\"", &[0x61, 0x41, 0x0A, 0x22]),
    (b"\"\xC3A\xA9\"", &[0xFFFD, 0x41, 0xFFFD]),
    (
        b"\"\xE2\x82\\u20ac\xE2\x82\xAC\"",
        &[0xFFFD, 0xFFFD, 0x20AC, 0x20AC],
    ),
    (b"\"\\/\\\\\\b\\f\\r\\t\"", &[0x2F, 0x5C, 8, 12, 13, 9]),
];

#[test]
fn code_units(rt: HostRuntime) -> Result<(), Fail> {
    assert_eq!(rt; units_told(rt.alloc(), &CODE_UNITS)?, 10);
    Ok(())
}

/// Units, of which the first eleven take no memory.
static UNITS: [u16; 13] = [9, 8, 7, 6, 5, 4, 3, 2, 1, 0, 65535, 256, 12];

/// The units, put behind others one by one.
fn pushed(alloc: Global, items: &[u16]) -> Result<Units, AllocError> {
    let mut found = Units::with_capacity(alloc, 0)?;
    for unit in items {
        found.push(alloc, *unit)?;
    }
    Ok(found)
}

/// Whether the units and a copy of them are the ones that are told.
fn are_units(alloc: Global, found: &Units, expected: &[u16]) -> Result<bool, Fail> {
    let copy = found.copy(alloc)?;
    Ok(found.as_slice() == expected && copy.as_slice() == expected)
}

#[test]
fn units_one_by_one(rt: HostRuntime) -> Result<(), Fail> {
    let found = pushed(rt.alloc(), &UNITS)?;
    assert!(rt; are_units(rt.alloc(), &found, &UNITS)?);
    let few = Units::from_slice(rt.alloc(), &UNITS[..11])?;
    assert!(rt; are_units(rt.alloc(), &few, &UNITS[..11])?);
    Ok(())
}

/// The lead of a piece without a byte, from each start state.
static NO_BYTES: [(Start, Lead); 3] = [
    (Start::Out, Lead::Nothing),
    (Start::InString, Lead::AllText),
    (Start::InEscape, Lead::AllText),
];

/// Whether a piece without a byte has the lead, and nothing else.
fn is_nothing(alloc: Global, start: Start, lead: Lead) -> Result<bool, Fail> {
    let lexed = lex(alloc, b"", 7, start)?;
    let wanted = Wanted {
        lead,
        tokens: &[],
        pend: Pend::Nothing,
        end: start,
    };
    Ok(is_lexed(&lexed, &wanted))
}

/// How many rows are as told, up to the first that isn't.
fn nothing_told(alloc: Global, rows: &[(Start, Lead)]) -> Result<usize, Fail> {
    for told in 0..rows.len() {
        let (start, lead) = rows[told];
        if !is_nothing(alloc, start, lead)? {
            return Ok(told);
        }
    }
    Ok(rows.len())
}

#[test]
fn no_bytes(rt: HostRuntime) -> Result<(), Fail> {
    assert_eq!(rt; nothing_told(rt.alloc(), &NO_BYTES)?, 3);
    Ok(())
}

/// Pieces whose last token is broken, with where it begins, the place of the first byte that is refused and the token's
/// end.
static BROKEN: [(&[u8], u32, u32, u32); 9] = [
    (b"[1 tru ]", 3, 6, 6),
    (b"[01]", 1, 2, 3),
    (b"[-]", 1, 2, 2),
    (b"[+1]", 1, 1, 3),
    (b"[nulll]", 1, 5, 6),
    (b"[1e5x]", 1, 4, 5),
    (b"\"\\q\\\"\" 1 ", 0, 2, 6),
    (b"\"a\tb\",", 0, 2, 5),
    (b"\"\\u00\":", 0, 5, 6),
];

/// Whether the last token of the piece is the one that is told, and nothing is behind it.
fn ends_in(alloc: Global, piece: &[u8], wanted: Token) -> Result<bool, Fail>
    requires { length piece.now < 100 }
{
    let lexed = lex(alloc, piece, 0, Start::Out)?;
    let Some(last) = lexed.tokens.as_slice().last() else {
        return Ok(false);
    };
    Ok(*last == wanted && lexed.pend == Pend::Nothing && lexed.end == Start::Out)
}

/// How many rows are as told, up to the first that isn't.
fn broken_told(alloc: Global, rows: &[(&[u8], u32, u32, u32)]) -> Result<usize, Fail> {
    for told in 0..rows.len() {
        let (piece, from, place, to) = rows[told];
        let wanted = token(TokenKind::Broken(place), from, to);
        if piece.len() >= 100 || !ends_in(alloc, piece, wanted)? {
            return Ok(told);
        }
    }
    Ok(rows.len())
}

#[test]
fn broken_tokens(rt: HostRuntime) -> Result<(), Fail> {
    assert_eq!(rt; broken_told(rt.alloc(), &BROKEN)?, 9);
    Ok(())
}

/// The stream gives its items one by one, and then its end each time.
#[test]
fn items_one_by_one(rt: HostRuntime) {
    let (lead, mut lexer) = Lexer::new(b"e\" 10 ,\"", 5, Start::InString);
    assert!(rt; lead == Lead::TextEnds(7));
    assert!(rt; lexer.next_item() == Item::Whole(token(TokenKind::Run, 8, 10)));
    assert!(rt; lexer.next_item() == Item::Whole(token(TokenKind::Comma, 11, 12)));
    let end = Item::End {
        pend: Pend::Text(12),
        end: Start::InString,
    };
    assert!(rt; lexer.next_item() == end);
    assert!(rt; lexer.next_item() == end);
}

const ALPHABET: [u8; 7] = [b'"', b'\\', b'u', b'0', b',', b'[', b' '];

/// Whether the items of a piece from a start state are what the slow program finds.
fn is_as_slow(alloc: Global, piece: &[u8], start: Start) -> Result<bool, Fail>
    requires { length piece.now < 9 }
{
    let found = lex(alloc, piece, 0, start)?;
    let slow = slow_lex(alloc, piece, start)?;
    let wanted = Wanted {
        lead: slow.lead,
        tokens: slow.tokens.as_slice(),
        pend: slow.pend,
        end: slow.end,
    };
    Ok(is_lexed(&found, &wanted))
}

/// The same from each start state.
fn are_as_slow(alloc: Global, piece: &[u8]) -> Result<bool, Fail>
    requires { length piece.now < 9 }
{
    Ok(
        is_as_slow(alloc, piece, Start::Out)?
            && is_as_slow(alloc, piece, Start::InString)?
            && is_as_slow(alloc, piece, Start::InEscape)?,
    )
}

/// The text of a length with a number, to the base of the alphabet, the last digit first.
fn spelled(len: usize, number: usize) -> [u8; 8] {
    let mut rest = number;
    let mut piece = [0; 8];
    for b in piece.iter_mut().take(len) {
        *b = ALPHABET[rest % 7];
        rest /= 7;
    }
    piece
}

/// The first number of a text of the length that isn't as the slow program tells it, or the last one that is asked for.
fn pieces_told(alloc: Global, len: usize, from: usize, to: usize) -> Result<usize, Fail> {
    for number in from..to {
        let piece = spelled(len, number);
        if !are_as_slow(alloc, piece.get(..len).unwrap_or(b""))? {
            return Ok(number);
        }
    }
    Ok(to)
}

/// All texts of up to five bytes over a small alphabet, from each start state.
#[test]
fn all_short_pieces(rt: HostRuntime) -> Result<(), Fail> {
    assert_eq!(rt; pieces_told(rt.alloc(), 0, 0, 1)?, 1);
    assert_eq!(rt; pieces_told(rt.alloc(), 1, 0, 7)?, 7);
    assert_eq!(rt; pieces_told(rt.alloc(), 2, 0, 49)?, 49);
    assert_eq!(rt; pieces_told(rt.alloc(), 3, 0, 343)?, 343);
    assert_eq!(rt; pieces_told(rt.alloc(), 4, 0, 2401)?, 2401);
    assert_eq!(rt; pieces_told(rt.alloc(), 5, 0, 16807)?, 16807);
    Ok(())
}

/// The first third of the texts of six bytes.
#[test]
fn first_pieces_of_six_bytes(rt: HostRuntime) -> Result<(), Fail> {
    assert_eq!(rt; pieces_told(rt.alloc(), 6, 0, 40_000)?, 40_000);
    Ok(())
}

/// The second third.
#[test]
fn middle_pieces_of_six_bytes(rt: HostRuntime) -> Result<(), Fail> {
    assert_eq!(rt; pieces_told(rt.alloc(), 6, 40_000, 80_000)?, 80_000);
    Ok(())
}

/// The last third.
#[test]
fn last_pieces_of_six_bytes(rt: HostRuntime) -> Result<(), Fail> {
    assert_eq!(rt; pieces_told(rt.alloc(), 6, 80_000, 117_649)?, 117_649);
    Ok(())
}

/// What the end of a piece and the lead of the next one are together: a token, or what may go on behind both.
fn between(left: Pend, lead: Lead, cut: u32, is_last: bool) -> (Option<Token>, Option<Pend>) {
    match (left, lead) {
        (Pend::Text(from), Lead::TextEnds(to)) => (Some(token(TokenKind::Text, from, to)), None),
        (Pend::Text(from), _) => (None, Some(Pend::Text(from))),
        (Pend::Run(from), Lead::RunEnds(to)) => (Some(token(TokenKind::Run, from, to)), None),
        (Pend::Run(from), Lead::AllRun) => (None, Some(Pend::Run(from))),
        (Pend::Run(from), _) => if is_last {
            (None, Some(Pend::Run(from)))
        } else {
            (Some(token(TokenKind::Run, from, cut)), None)
        },
        (Pend::Nothing, Lead::RunEnds(to)) => (Some(token(TokenKind::Run, cut, to)), None),
        (Pend::Nothing, Lead::AllRun) => (None, Some(Pend::Run(cut))),
        (Pend::Nothing, _) => (None, None),
    }
}

/// The tokens of two pieces and the one between them.
fn joined(
    alloc: Global,
    left: &[Token],
    middle: Option<Token>,
    right: &[Token],
) -> Result<Vec<Token>, AllocError> {
    let mut tokens = left.to_vec(alloc)?;
    if let Some(found) = middle {
        tokens.push(found)?;
    }
    tokens.extend_from_slice(right)?;
    Ok(tokens)
}

/// Whether the items of the two pieces of a text are those of the whole.
fn is_same_cut(alloc: Global, text: &[u8], cut: usize, whole: &Lexed) -> Result<bool, Fail>
    requires short { length text.now < 100 }
    requires within { cut ≤ length text.now }
{
    let left = lex(alloc, &text[..cut], 0, Start::Out)?;
    let right = lex(alloc, &text[cut..], cut as u32, left.end)?;
    let (middle, pend) = between(left.pend, right.lead, cut as u32, cut == text.len());
    let tokens = joined(
        alloc,
        left.tokens.as_slice(),
        middle,
        right.tokens.as_slice(),
    )?;
    let wanted = Wanted {
        lead: whole.lead,
        tokens: tokens.as_slice(),
        pend: pend.unwrap_or(right.pend),
        end: right.end,
    };
    Ok(is_lexed(whole, &wanted))
}

/// How many of the cuts of a text leave its items, up to the first that doesn't.
fn cuts_told(alloc: Global, text: &[u8]) -> Result<usize, Fail>
    requires { length text.now < 100 }
{
    let whole = lex(alloc, text, 0, Start::Out)?;
    for cut in 0..=text.len() {
        if !is_same_cut(alloc, text, cut, &whole)? {
            return Ok(cut);
        }
    }
    Ok(text.len() + 1)
}

static TEXTS: [&[u8]; 12] = [
    b"",
    b"{}",
    b" [1 ,-2.5e+3,null] ",
    b"{\"a\\\"b\":[true,\"\\\\\",\"\\u00e9\"]}",
    b"\"\"",
    b"\"a\" \"b\\n\" \"\xC3\xA9\"",
    b"[[],[[]],{\"\":{}}]",
    b"\"not closed \\",
    b"[0,0.5,10,\n-0]",
    b"{\"type\":\"Point\",\"coordinates\":[9.987654321012345,48.4]}",
    b"\"0123456789012345678901234567890123456789\\\"0123456789012345678901234567890123456789\",1",
    b"[false,tru",
];

/// Each text at each cut.
#[test]
fn all_cuts(rt: HostRuntime) -> Result<(), Fail> {
    for text in &TEXTS {
        assert!(rt; text.len() < 100);
        let told = cuts_told(rt.alloc(), text)?;
        assert!(rt;
            told > text.len(),
            "the text of {} bytes at {told}",
            text.len()
        );
    }
    Ok(())
}

/// What the page of `at_lex` shows.
#[test]
fn the_example_of_the_crate(rt: HostRuntime) -> Result<(), Fail> {
    let alloc = rt.alloc();
    let found = lex(alloc, b"b\",4", 0, Start::InString)?;
    assert!(rt; found.lead == Lead::TextEnds(2));
    let comma = Token {
        kind: TokenKind::Comma,
        from: 2,
        to: 3,
    };
    assert!(rt; found.tokens.as_slice() == [comma].as_slice());
    assert!(rt; found.pend == Pend::Run(3) && found.end == Start::Out);
    Ok(())
}
