//! Numbers that end before the piece does, passed over part by part (RFC 8259 section 6).

ghost use Rattle.std.specs.Prelude.{◌≡◌, ◌<◌, ◌≤◌, [], ◌∷◌, length, take, IfSome};
ghost use Rattle.at_text.specs.Texts.{is_one_of};
ghost use Rattle.at_fixed.specs.Numerals.{IsAtMostOneOf, IsJsonWhole};
ghost use Rattle.at_lex.specs.EndedNumbers.{IsEndedNumber, IsFraction, IsPower};

use crate::fronts::digit_len;
use at_text::is_run;

/// The length of the minus before a number, or 0.
fn sign_len(text: &[u8]) -> usize
    ensures fits { result ≤ length text.now }
    ensures sign { IsAtMostOneOf (0x2D ∷ []) (take result text.now) }
{
    if text.is_empty() || text[0] != b'-' {
        return 0;
    }
    1
}

/// The length of the whole part of a number, or 0 where none begins the text.
fn whole_len(text: &[u8]) -> usize
    ensures fits { result ≤ length text.now }
    ensures whole { 0 < result → IsJsonWhole (take result text.now) }
{
    if text.is_empty() {
        return 0;
    }
    if text[0] == b'0' {
        return 1;
    }
    digit_len(text)
}

/// The length of the point and the digits behind it, or 0 where there is no point; None where no digit follows
/// the point.
fn fraction_len(text: &[u8]) -> Option<usize>
    ensures { IfSome result (IsFraction text.now) }
{
    if text.is_empty() || text[0] != b'.' {
        return Some(0);
    }
    let digits = digit_len(&text[1..]);
    if digits == 0 {
        return None;
    }
    Some(1 + digits)
}

/// The length of the sign that an exponent may have, or 0.
fn power_sign_len(text: &[u8]) -> usize
    ensures fits { result ≤ length text.now }
    ensures sign { IsAtMostOneOf (0x2B ∷ 0x2D ∷ []) (take result text.now) }
{
    if text.is_empty() || (text[0] != b'+' && text[0] != b'-') {
        return 0;
    }
    1
}

/// Whether the byte begins an exponent.
fn is_letter(b: u8) -> bool
    ensures { result ≡ is_one_of (0x65 ∷ 0x45 ∷ []) b }
{
    b == b'e' || b == b'E'
}

/// The length of an exponent, or 0 where none begins; None where its digits are missing.
fn exponent_len(text: &[u8]) -> Option<usize>
    ensures { IfSome result (IsPower text.now) }
{
    if text.is_empty() || !is_letter(text[0]) {
        return Some(0);
    }
    let sign = power_sign_len(&text[1..]);
    let digits = digit_len(&text[1 + sign..]);
    if digits == 0 {
        return None;
    }
    Some(1 + sign + digits)
}

/// The length of the number that begins the text, where a byte of no run follows it.
pub fn ended_number_len(text: &[u8]) -> Option<usize>
    ensures { IfSome result (IsEndedNumber text.now) }
{
    let sign = sign_len(text);
    let whole = whole_len(&text[sign..]);
    if whole == 0 {
        return None;
    }
    let point = sign + whole;
    let fraction = fraction_len(&text[point..])?;
    let power = point + fraction;
    let exponent = exponent_len(&text[power..])?;
    let len = power + exponent;
    if len < text.len() && !is_run(text[len]) {
        return Some(len);
    }
    None
}
