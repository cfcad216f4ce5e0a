//! Whether a file is valid UTF-8, found piece by piece (RFC 3629).

ghost use Rattle.std.specs.Prelude.{◌≡◌, ℕ, ◌+◌, ◌≤◌, ◌^◌, ◌↔◌, length, drop, IsTrue, None};
ghost use Rattle.std.specs.Str.{IsUtf8};
ghost use Rattle.std.specs.Str.Lossy.{utf8_valid_len};
ghost use Rattle.at_text.specs.Spans.{AreNeighbours, IsMerged};
ghost use Rattle.at_text.specs.Texts.{utf8_fault as encoding_fault, base_of as text_begin};
ghost use Rattle.at_blocks.specs.Encodings.{IsValidIn};

use at_text::{Span, utf8_fault};

/// How many bytes at the front of a piece can only go on with a character that began before it (RFC 3629).
fn continued_len(piece: &[u8]) -> usize
    ensures { result ≤ length piece.now }
{
    for (index, byte) in piece.iter().enumerate() {
        if !matches!(*byte, 0x80..=0xBF) {
            return index;
        }
    }
    piece.len()
}

/// The length of the longest front that is valid UTF-8.
fn valid_len(bytes: &[u8]) -> u32
    requires { length bytes.now ≤ 2 ^ 28 }
    ensures within { result ≤ length bytes.now }
    ensures longest { result ≡ utf8_valid_len bytes.now }
{
    match utf8_fault(bytes) {
        None => bytes.len() as u32,
        Some(fault) => fault.at,
    }
}

/// Whether the bytes are valid UTF-8.
pub fn is_valid(bytes: &[u8]) -> bool
    requires { length bytes.now ≤ 2 ^ 28 }
    ensures { IsTrue result ↔ IsUtf8 bytes.now }
{
    utf8_fault(bytes).is_none()
}

/// A span of a piece that is valid UTF-8. The first byte of the piece has the offset `base`.
///
/// A cut may fall into a character: of a valid text at most three bytes stand before the span, and at most three behind
/// it.
pub fn valid_span(piece: &[u8], base: u32) -> Span
    requires { base + length piece.now ≤ 2 ^ 28 }
    ensures { IsValidIn base piece.now result }
{
    let continued = continued_len(piece);
    let from = base + continued as u32;
    let len = valid_len(&piece[continued..]);
    Span {
        from,
        to: from + len,
    }
}

/// A span of two neighbouring pieces that is valid UTF-8, from one of each.
///
/// The bytes between the two are tested: where they aren't valid, nothing is said of the right one.
pub fn joined_span(bytes: &[u8], left: Span, right: Span) -> Span
    requires fits { length bytes.now ≤ 2 ^ 28 }
    requires neighbours { (i : ℕ) × (j : ℕ) × (k : ℕ) × AreNeighbours IsValidIn bytes.now i j k left right }
    ensures { IsMerged IsValidIn bytes.now left right result }
{
    if is_valid(&bytes[left.to as usize..right.from as usize]) {
        Span {
            from: left.from,
            to: right.to,
        }
    } else {
        left
    }
}

/// Whether a file is found valid UTF-8 from a span of it that is: only the bytes before it and behind it are tested.
pub fn is_valid_around(bytes: &[u8], valid: Span) -> bool
    requires fits { length bytes.now ≤ 2 ^ 28 }
    requires valid { IsValidIn (text_begin bytes.now) (drop (text_begin bytes.now) bytes.now) valid }
    ensures { IsTrue result → encoding_fault bytes.now ≡ None }
{
    is_valid(&bytes[..valid.from as usize]) && is_valid(&bytes[valid.to as usize..])
}
