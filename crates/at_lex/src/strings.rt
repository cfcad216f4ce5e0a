//! Strings, read by a reader whose every state can still come to an end (RFC 8259 section 7).

ghost use Rattle.std.specs.Prelude.{◌≡◌, ◌≢◌, ◌≤◌, ◌^◌, Some, true, length, take, cond, option_map};
ghost use Rattle.std.specs.Char.{is_ascii_hexdigit};
ghost use Rattle.at_text.specs.Prefix.{TakesLongest};
ghost use Rattle.at_text.proofs.Machine.{run};
ghost use Rattle.at_lex.specs.Strings.{JsonString};
ghost use Rattle.at_lex.specs.StringStates.{inside, opening, escaped, step, accepts, is_escape as escape_test};
ghost use Rattle.at_lex.specs.StringStates.{state_of, lexical_of, StopsAt, GoesTo};
ghost use Rattle.at_lex.specs.Endings.{IsTextEnd};

use crate::fronts::{is_plain, plain_len, quiet_len};
use crate::tokens::Start;
use at_text::Taken;

/// What has been read of a string. The digits are those still wanted behind `\u`.
#[derive(Clone, Copy, Debug, PartialEq, Eq)]
pub enum TextState {
    Opening,
    Inside,
    Escaped,
    FourDigits,
    ThreeDigits,
    TwoDigits,
    OneDigit,
    Closed,
}

/// How far a reader of a string went, and its state there.
#[derive(Clone, Copy)]
pub struct Scanned {
    pub len: usize,
    pub state: TextState,
}

/// Whether a backslash and the byte spell a character.
fn is_escape(b: u8) -> bool
    ensures { result ≡ escape_test b }
{
    match b {
        b'"' | b'\\' | b'/' | b'b' | b'f' | b'n' | b'r' | b't' => true,
        _ => false,
    }
}

/// The state behind one hexadecimal digit more.
fn after_digit(found: TextState, b: u8) -> Option<TextState>
    ensures { option_map state_of result ≡ cond (is_ascii_hexdigit b) (Some (state_of found)) None }
{
    if b.is_ascii_hexdigit() {
        Some(found)
    } else {
        None
    }
}

impl TextState {
    /// The state behind one byte more, where a string goes on with it.
    fn next(self, b: u8) -> Option<TextState>
        ensures { option_map state_of result ≡ step (state_of self) b }
    {
        match self {
            TextState::Opening => if b == b'"' {
                Some(TextState::Inside)
            } else {
                None
            },
            TextState::Inside => inside_next(b),
            TextState::Escaped => if b == b'u' {
                Some(TextState::FourDigits)
            } else if is_escape(b) {
                Some(TextState::Inside)
            } else {
                None
            },
            TextState::FourDigits => after_digit(TextState::ThreeDigits, b),
            TextState::ThreeDigits => after_digit(TextState::TwoDigits, b),
            TextState::TwoDigits => after_digit(TextState::OneDigit, b),
            TextState::OneDigit => after_digit(TextState::Inside, b),
            TextState::Closed => None,
        }
    }

    /// Whether the string is whole.
    pub fn is_whole(self) -> bool
        ensures { result ≡ accepts (state_of self) }
    {
        match self {
            TextState::Closed => true,
            _ => false,
        }
    }

    /// Whether the reader is between the quotes, and in no escape.
    fn is_inside(self) -> bool
        ensures { result ≡ true → state_of self ≡ inside }
    {
        match self {
            TextState::Inside => true,
            _ => false,
        }
    }

    /// The lexical state.
    pub fn lexical(self) -> Start
        ensures { result ≡ lexical_of (state_of self) }
    {
        match self {
            TextState::Opening | TextState::Closed => Start::Out,
            TextState::Escaped => Start::InEscape,
            _ => Start::InString,
        }
    }
}

/// The state behind one byte more in a string.
fn inside_next(b: u8) -> Option<TextState>
    ensures { option_map state_of result ≡ step inside b }
{
    if b == b'"' {
        Some(TextState::Closed)
    } else if b == b'\\' {
        Some(TextState::Escaped)
    } else if is_plain(b) {
        Some(TextState::Inside)
    } else {
        None
    }
}

/// Whether the byte stands at the place.
fn stands(text: &[u8], at: usize, b: u8) -> bool {
    at < text.len() && text[at] == b
}

/// The rest of an escape, whose backslash was read, and the escapes that stand right behind it: to the string behind
/// them, or to what stops the reader.
fn scan_escape(text: &[u8], from: usize) -> Scanned
    requires fits { from ≤ length text.now }
    requires goes { run step opening (take from text.now) ≡ Some escaped }
    ensures { GoesTo text.now from result.len (state_of result.state) }
{
    let mut state = TextState::Escaped;
    let mut len = from;
    while len < text.len() {
        match state.next(text[len]) {
            Some(found) => {
                state = found;
                len += 1;
            }
            None => return Scanned { len, state },
        }
        if state.is_inside() && !stands(text, len, b'\\') {
            return Scanned { len, state };
        }
    }
    Scanned { len, state }
}

/// How far a reader of a string goes through the text. It goes from escape to escape, and from byte to byte in one
/// alone.
pub fn scan_text(text: &[u8]) -> Scanned
    ensures { StopsAt text.now result.len (state_of result.state) }
{
    if text.is_empty() || text[0] != b'"' {
        return Scanned {
            len: 0,
            state: TextState::Opening,
        };
    }
    let mut len: usize = 1;
    loop {
        let end = len + plain_len(&text[len..]);
        if end == text.len() {
            return Scanned {
                len: end,
                state: TextState::Inside,
            };
        }
        if text[end] == b'"' {
            return Scanned {
                len: end + 1,
                state: TextState::Closed,
            };
        }
        if text[end] != b'\\' {
            return Scanned {
                len: end,
                state: TextState::Inside,
            };
        }
        let escape = scan_escape(text, end + 1);
        match escape.state {
            TextState::Inside => len = escape.len,
            _ => return escape,
        }
    }
}

/// The longest prefix of the text that is a prefix of some JSON string, and whether it is one (RFC 8259
/// section 7). It takes no memory.
pub fn take_text(text: &[u8]) -> Taken
    requires { length text.now ≤ 2 ^ 28 }
    ensures { TakesLongest JsonString text.now result }
{
    let scanned = scan_text(text);
    Taken {
        len: scanned.len as u32,
        whole: scanned.state.is_whole(),
    }
}

/// Where a string that is begun ends.
#[derive(Clone, Copy, Debug, PartialEq, Eq)]
pub enum TextEnd {
    /// So many bytes, the last of which is the closing quote.
    Closed(usize),
    /// Not in these bytes; the lexical state behind them.
    Open(Start),
}

/// Where the string ends in which the text begins, which from an escape has its first byte escaped.
pub fn text_end(text: &[u8], start: Start) -> TextEnd
    requires { start ≢ Start.Out }
    ensures { IsTextEnd start text.now result }
{
    let mut state = start;
    let mut len: usize = 0;
    while len < text.len() {
        if let Start::InEscape = state {
            state = Start::InString;
            len += 1;
            continue;
        }
        len += quiet_len(&text[len..]);
        if len == text.len() {
            break;
        }
        if text[len] == b'"' {
            return TextEnd::Closed(len + 1);
        }
        state = Start::InEscape;
        len += 1;
    }
    TextEnd::Open(state)
}
