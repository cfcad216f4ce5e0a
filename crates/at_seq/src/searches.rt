//! The bytes at which a sequence is taken apart.

ghost use Rattle.std.specs.Prelude.{◌≡◌, ◌≤◌, ◌<◌, true, length, slice_index, IfSome};
ghost use Rattle.std.specs.List.{position_or_len};
ghost use Rattle.at_text.specs.Texts.{is_space as space_test};
ghost use Rattle.at_lex.specs.Fronts.{IsFront};
ghost use Rattle.at_seq.specs.Records.{is_separator};
ghost use Rattle.at_seq.specs.Gathering.{IsSeparatorBehind};

use at_text::is_space;
use memchr::memchr;

/// The byte that stands before each record (RFC 8142 section 2).
const SEPARATOR: u8 = 0x1E;

/// The place of the first separator, or the length where there is none.
pub fn separator_place(bytes: &[u8]) -> usize
    ensures first { result ≡ position_or_len is_separator bytes.now }
    ensures within { result ≤ length bytes.now }
{
    memchr(SEPARATOR, bytes).unwrap_or(bytes.len())
}

/// How many bytes of white space stand at the front.
pub fn spaces_len(text: &[u8]) -> usize
    ensures { IsFront space_test text.now result }
{
    for (index, byte) in text.iter().enumerate() {
        if !is_space(*byte) {
            return index;
        }
    }
    text.len()
}

/// Whether a separator stands at the place.
fn is_separator_at(text: &[u8], at: usize) -> bool
    ensures { result ≡ true → (at < length text.now) × (is_separator (slice_index text.now at) ≡ true) }
{
    if at >= text.len() {
        return false;
    }
    text[at] == SEPARATOR
}

/// The place of the separator that stands behind a place and white space alone, where one does.
pub fn separator_behind(text: &[u8], from: usize) -> Option<usize>
    requires { from ≤ length text.now }
    ensures { IfSome result (IsSeparatorBehind text.now from) }
{
    let end = from + spaces_len(&text[from..]);
    if is_separator_at(text, end) {
        Some(end)
    } else {
        None
    }
}
