//! Literals and numbers (RFC 8259 sections 3 and 6), which stand in a piece as runs of bytes.

ghost use Rattle.std.specs.Prelude.{◌≡◌, ◌==◌, ◌≤◌, ◌<◌, ◌^◌, length};
ghost use Rattle.at_text.specs.Prefix.{TakesLongest};
ghost use Rattle.at_lex.specs.Runs.{JsonRun, IsRunEnd};
ghost use Rattle.at_lex.specs.Beginnings.{IsCommon, IsBeginning};

use at_fixed::json_number;
use at_text::Taken;

/// What the whole of a text spells.
#[derive(Clone, Copy, Debug, PartialEq, Eq)]
pub enum RunEnd {
    Null,
    True,
    False,
    Number,
    /// No literal and no number: the length of the longest prefix that begins one.
    BadAt(u32),
}

/// With which literal a text can begin, by its first byte.
#[derive(Clone, Copy)]
enum Beginning {
    Null,
    True,
    False,
    Other,
}

/// The literal that the first byte begins, or none.
fn beginning_of(text: &[u8]) -> Beginning
    ensures { IsBeginning text.now result }
{
    if text.is_empty() {
        return Beginning::Other;
    }
    match text[0] {
        b'n' => Beginning::Null,
        b't' => Beginning::True,
        b'f' => Beginning::False,
        _ => Beginning::Other,
    }
}

/// How many bytes the text and the word have in common at their beginning.
fn common_len(text: &[u8], word: &[u8]) -> usize
    ensures { IsCommon text.now word.now result }
{
    for (i, b) in word.iter().enumerate() {
        if i == text.len() || text[i] != *b {
            return i;
        }
    }
    word.len()
}

/// How far the text goes with the literal.
fn take_literal(text: &[u8], word: &[u8]) -> Taken
    requires { length word.now < 8 }
    ensures common { IsCommon text.now word.now result.len }
    ensures whole { result.whole ≡ (result.len == length word.now) }
{
    let len = common_len(text, word);
    Taken {
        len: len as u32,
        whole: len == word.len(),
    }
}

/// The longest prefix of the text that is a prefix of some literal or number, and whether it is one.
pub fn take_run(text: &[u8]) -> Taken
    requires { length text.now ≤ 2 ^ 28 }
    ensures { TakesLongest JsonRun text.now result }
{
    match beginning_of(text) {
        Beginning::Null => take_literal(text, b"null"),
        Beginning::True => take_literal(text, b"true"),
        Beginning::False => take_literal(text, b"false"),
        Beginning::Other => json_number(text),
    }
}

/// Which literal the text is, or that it is a number; where it is neither, the length of its longest prefix that
/// is a prefix of a literal or a number (RFC 8259 sections 3 and 6). It takes no memory.
pub fn check_run(text: &[u8]) -> RunEnd
    requires { length text.now ≤ 2 ^ 28 }
    ensures { IsRunEnd text.now result }
{
    let taken = take_run(text);
    if !taken.whole || (taken.len as usize) < text.len() {
        return RunEnd::BadAt(taken.len);
    }
    match beginning_of(text) {
        Beginning::Null => RunEnd::Null,
        Beginning::True => RunEnd::True,
        Beginning::False => RunEnd::False,
        Beginning::Other => RunEnd::Number,
    }
}
