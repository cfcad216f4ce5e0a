//! Numbers that have a value, however they are written, and what stands behind the first two numbers of a position.

ghost use Rattle.std.specs.Prelude.{◌≡◌, ◌+◌, ◌<◌, ◌≤◌, ◌^◌, true, length, take, slice_index, IfSome, Ok, ℤ};
ghost use Rattle.at_text.specs.Prefix.{TakesLongest};
ghost use Rattle.at_fixed.specs.Numerals.{JsonNumber};
ghost use Rattle.at_fixed.specs.Fixed.{IsFixedOf};
ghost use Rattle.at_scan.specs.Numbers.{IsFurther, EndsPosition};

use crate::places::{near_byte, skip_spaces, stands};
use at_fixed::{
    Coords, Notation, PlainNumber, json_number, leading_number, plain_len, plain_number,
};

/// Whether the byte begins a number.
fn begins_number(byte: u8) -> bool {
    byte == b'-' || byte.is_ascii_digit()
}

/// Whether a number may begin at the place: what stands behind the digits begins none.
#[inline(always)]
pub fn may_begin(text: &[u8], at: usize) -> bool {
    at < text.len() && text[at] <= b'9'
}

/// The number that begins a text, however it is written, where it has a value.
#[cold]
#[inline(never)]
fn other_number(text: &[u8], digits: u8, how: Coords) -> Option<PlainNumber>
    requires short { length text.now ≤ 2 ^ 28 }
    ensures taken { IfSome result (λ number. TakesLongest JsonNumber text.now (record {
      len = number.len;
      whole = true;
    })) }
    ensures value { IfSome result (λ number. IsFixedOf (take number.len text.now) digits how (Ok number.value)) }
{
    if text.is_empty() || !begins_number(text[0]) {
        return None;
    }
    let number = leading_number(text, Notation::Json, digits, how);
    match number.value {
        Some(Ok(value)) => Some(PlainNumber {
            len: number.len,
            value,
        }),
        _ => None,
    }
}

/// The number that begins a text, where it has a value. Those that are written plainly are read in line.
#[inline(always)]
pub fn valued_number(text: &[u8], digits: u8, how: Coords) -> Option<PlainNumber>
    requires short { length text.now ≤ 2 ^ 28 }
    ensures taken { IfSome result (λ number. TakesLongest JsonNumber text.now (record {
      len = number.len;
      whole = true;
    })) }
    ensures value { IfSome result (λ number. IsFixedOf (take number.len text.now) digits how (Ok number.value)) }
{
    if let Some(number) = plain_number(text, Notation::Json, digits, how) {
        return Some(number);
    }
    let PlainNumber { len, value } = other_number(text, digits, how)?;
    Some(PlainNumber { len, value })
}

/// The length of the number that begins a text, however it is written, where it has a value.
#[cold]
#[inline(never)]
fn other_len(text: &[u8], digits: u8, how: Coords) -> Option<u32>
    requires short { length text.now ≤ 2 ^ 28 }
    ensures taken { IfSome result (λ len. TakesLongest JsonNumber text.now (record { len = len; whole = true })) }
    ensures value { IfSome result (λ len. (value : ℤ) × IsFixedOf (take len text.now) digits how (Ok value)) }
{
    let number = other_number(text, digits, how)?;
    Some(number.len)
}

/// The length of the number that begins a text, where it has a value, which is computed for few.
#[inline(always)]
pub fn valued_len(text: &[u8], digits: u8, how: Coords) -> Option<u32>
    requires short { length text.now ≤ 2 ^ 28 }
    ensures taken { IfSome result (λ len. TakesLongest JsonNumber text.now (record { len = len; whole = true })) }
    ensures value { IfSome result (λ len. (value : ℤ) × IsFixedOf (take len text.now) digits how (Ok value)) }
{
    if let Some(len) = plain_len(text, Notation::Json, digits, how) {
        return Some(len);
    }
    other_len(text, digits, how)
}

/// The place behind a comma, white space, a further number of a position, and white space.
fn further_number(text: &[u8], at: usize) -> Option<usize>
    requires inside { at < length text.now }
    requires comma { slice_index text.now at ≡ 0x2C }
    requires short { length text.now ≤ 2 ^ 28 }
    ensures { IfSome result (IsFurther text.now at) }
{
    let first = skip_spaces(text, at + 1);
    let taken = json_number(&text[first..]);
    if !taken.whole {
        return None;
    }
    Some(skip_spaces(text, first + taken.len as usize))
}

/// The place behind white space, the further numbers of a position, if there are any, and its bracket. The numbers are
/// passed over, whatever their values.
#[cold]
#[inline(never)]
fn further_end(text: &[u8], at: usize) -> Option<usize>
    requires inside { at ≤ length text.now }
    requires short { length text.now ≤ 2 ^ 28 }
    ensures { IfSome result (EndsPosition text.now at) }
{
    let mut end = skip_spaces(text, at);
    'further: while stands(text, end, b',') {
        end = further_number(text, end)?;
    }
    if stands(text, end, b']') {
        Some(end + 1)
    } else {
        None
    }
}

/// The place behind a position's bracket, behind its first two numbers. Before the bracket so many blanks are expected
/// behind a line end.
#[inline(always)]
pub fn position_end(text: &[u8], at: usize, blanks: usize) -> Option<usize>
    requires inside { at ≤ length text.now }
    requires short { length text.now ≤ 2 ^ 28 }
    ensures { IfSome result (EndsPosition text.now at) }
{
    match near_byte(text, at, b']', blanks) {
        Some(place) => Some(place + 1),
        None => further_end(text, at),
    }
}
