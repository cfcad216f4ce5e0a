//! The items of a piece as they are told: by the lexical state before each byte, and by trying whether a string or
//! a run can be gone on with. It goes over the piece again and again. Of literals and numbers it knows `0` alone.
use at_lex::{Bracket, Lead, Pend, Start, Token, TokenKind};
use at_text::{is_run, is_space};
use std::alloc::{AllocError, Global};

/// What a piece has.
#[derive(Drop)]
pub struct Slow {
    pub lead: Lead,
    pub tokens: Vec<Token>,
    pub pend: Pend,
    pub end: Start,
}

fn after(state: Start, b: u8) -> Start {
    match (state, b) {
        (Start::Out, b'"') => Start::InString,
        (Start::Out, _) => Start::Out,
        (Start::InString, b'"') => Start::Out,
        (Start::InString, b'\\') => Start::InEscape,
        _ => Start::InString,
    }
}

/// The lexical state before the byte at a place.
fn state_before(piece: &[u8], start: Start, place: usize) -> Start {
    let mut state = start;
    for b in piece.iter().take(place) {
        state = after(state, *b);
    }
    state
}

/// The byte at a place, and a space behind the piece.
fn byte_at(piece: &[u8], place: usize) -> u8 {
    if place < piece.len() {
        piece[place]
    } else {
        b' '
    }
}

fn is_run_at(piece: &[u8], place: usize) -> bool {
    is_run(byte_at(piece, place))
}

/// The first place from `from` on that no byte of a run stands at.
fn run_end(piece: &[u8], from: usize) -> usize {
    for place in from..piece.len() {
        if !is_run_at(piece, place) {
            return place;
        }
    }
    piece.len()
}

/// The place behind the first byte from `from` on that leads outside strings.
fn text_end(piece: &[u8], start: Start, from: usize) -> Option<usize> {
    for place in from..piece.len() {
        if state_before(piece, start, place.saturating_add(1)) == Start::Out {
            return Some(place.saturating_add(1));
        }
    }
    None
}

fn is_hex(b: u8) -> bool {
    (b'0' <= b && b <= b'9') || (b'a' <= b && b <= b'f') || (b'A' <= b && b <= b'F')
}

/// How many bytes of a string its first character has, where one begins the text.
fn character_len(text: &[u8]) -> Option<usize> {
    match text {
        [b'\\', b'u', a, b, c, d, ..] if is_hex(*a) && is_hex(*b) && is_hex(*c) && is_hex(*d) =>
            Some(6),
        [b'\\', b, ..] if b"\"\\/bfnrt".contains(b) => Some(2),
        [b, ..] if *b >= 0x20 && *b != b'"' && *b != b'\\' => Some(1),
        _ => None,
    }
}

/// Whether the text is a quote, characters and a quote.
fn is_string(text: &[u8]) -> bool {
    let mut next: usize = 1;
    for place in 0..text.len() {
        if place == next {
            let rest = text.get(place..).unwrap_or(b"");
            match character_len(rest) {
                Some(len) => next = next.saturating_add(len),
                None => return rest == b"\"".as_slice(),
            }
        } else if place == 0 && text.first() != Some(&b'"') {
            return false;
        }
    }
    false
}

/// What may be missing of a string.
static ENDS: [&[u8]; 8] = [
    b"", b"\"", b"\"\"", b"u0000\"", b"0000\"", b"000\"", b"00\"", b"0\"",
];

/// Whether some further bytes make the text a string.
fn begins_string(alloc: Global, text: &[u8]) -> Result<bool, AllocError> {
    for end in &ENDS {
        let mut whole = text.to_vec(alloc)?;
        whole.extend_from_slice(end)?;
        if is_string(whole.as_slice()) {
            return Ok(true);
        }
    }
    Ok(false)
}

/// The greatest length of a front of the text that begins a string.
fn string_place(alloc: Global, text: &[u8]) -> Result<usize, AllocError> {
    let mut most = 0;
    for len in 0..text.len() {
        if begins_string(alloc, text.get(..len).unwrap_or(b""))? {
            most = len;
        }
    }
    Ok(most)
}

fn token(kind: TokenKind, from: usize, to: usize) -> Token {
    Token {
        kind,
        from: from.min(1 << 28) as u32,
        to: to.min(1 << 28) as u32,
    }
}

fn text_token(alloc: Global, piece: &[u8], from: usize, to: usize) -> Result<Token, AllocError> {
    let text = piece.get(from..to).unwrap_or(b"");
    let kind = if is_string(text) {
        TokenKind::Text
    } else {
        TokenKind::Broken(from.saturating_add(string_place(alloc, text)?).min(1 << 28) as u32)
    };
    Ok(token(kind, from, to))
}

fn run_token(piece: &[u8], from: usize, to: usize) -> Token {
    let text = piece.get(from..to).unwrap_or(b"");
    let kind = if text == b"0".as_slice() {
        TokenKind::Run
    } else if text.first() == Some(&b'0') {
        TokenKind::Broken(from.saturating_add(1).min(1 << 28) as u32)
    } else {
        TokenKind::Broken(from.min(1 << 28) as u32)
    };
    token(kind, from, to)
}

fn mark(b: u8) -> TokenKind {
    match b {
        b'{' => TokenKind::Opens(Bracket::Brace),
        b'}' => TokenKind::Closes(Bracket::Brace),
        b'[' => TokenKind::Opens(Bracket::Square),
        b']' => TokenKind::Closes(Bracket::Square),
        b',' => TokenKind::Comma,
        _ => TokenKind::Colon,
    }
}

/// The lead, and where it ends.
fn lead(piece: &[u8], start: Start) -> (Lead, usize) {
    if start == Start::Out {
        let end = run_end(piece, 0);
        if end == 0 {
            return (Lead::Nothing, 0);
        }
        if end == piece.len() {
            return (Lead::AllRun, end);
        }
        return (Lead::RunEnds(end.min(1 << 28) as u32), end);
    }
    match text_end(piece, start, 0) {
        Some(end) => (Lead::TextEnds(end.min(1 << 28) as u32), end),
        None => (Lead::AllText, piece.len()),
    }
}

/// What begins at a place outside strings that no token goes over: a token, or what may go on.
fn item(
    alloc: Global,
    piece: &[u8],
    start: Start,
    from: usize,
) -> Result<(Option<Token>, Pend), AllocError> {
    let place = from.min(1 << 28) as u32;
    let b = byte_at(piece, from);
    if b == b'"' {
        return Ok(match text_end(piece, start, from.saturating_add(1)) {
            Some(to) => (Some(text_token(alloc, piece, from, to)?), Pend::Nothing),
            None => (None, Pend::Text(place)),
        });
    }
    if is_run(b) {
        let to = run_end(piece, from);
        if to == piece.len() {
            return Ok((None, Pend::Run(place)));
        }
        return Ok((Some(run_token(piece, from, to)), Pend::Nothing));
    }
    if is_space(b) {
        return Ok((None, Pend::Nothing));
    }
    Ok((
        Some(token(mark(b), from, from.saturating_add(1))),
        Pend::Nothing,
    ))
}

/// Whether a token can begin at the place: it is outside strings, and no run goes on there.
fn can_begin(piece: &[u8], start: Start, lead_end: usize, place: usize) -> bool {
    let goes_on = place > lead_end
        && is_run_at(piece, place.saturating_sub(1))
        && is_run_at(piece, place);
    place >= lead_end && state_before(piece, start, place) == Start::Out && !goes_on
}

/// The items of a piece that begins the file.
pub fn slow_lex(alloc: Global, piece: &[u8], start: Start) -> Result<Slow, AllocError> {
    let (lead, lead_end) = lead(piece, start);
    let mut slow = Slow {
        lead,
        tokens: Vec::new(alloc),
        pend: Pend::Nothing,
        end: state_before(piece, start, piece.len()),
    };
    for place in 0..piece.len() {
        if can_begin(piece, start, lead_end, place) {
            let (token, pend) = item(alloc, piece, start, place)?;
            slow.pend = pend;
            if let Some(found) = token {
                slow.tokens.push(found)?;
                if let TokenKind::Broken(_) = found.kind {
                    slow.end = Start::Out;
                    return Ok(slow);
                }
            }
        }
    }
    Ok(slow)
}
