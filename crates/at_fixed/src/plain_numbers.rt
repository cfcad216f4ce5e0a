//! The number that begins a text, where it has a value and is written plainly.

ghost use Rattle.std.specs.Prelude.{◌≡◌, ◌^◌, ◌<◌, ◌≤◌, List, ℕ, length, take, IfSome, Ok, true, ℤ};
ghost use Rattle.at_text.specs.Prefix.{TakesLongest};
ghost use Rattle.at_fixed.specs.Numerals.{NumberOf};
ghost use Rattle.at_fixed.specs.Fixed.{IsFixedOf};
ghost use Rattle.at_fixed.specs.Scanned.{IsPlain, IsScanned};
ghost use Rattle.at_fixed.specs.Scans.{AreEnds};

use crate::ends::{Ends, far_ends, near_ends};
use crate::notation::Notation;
use crate::number_ends::{is_exponent, valued_end};
use crate::plain_scanning::{scan_far, scan_near};
use crate::rounding::Coords;
use crate::scanning::Scanned;
use crate::short_numbers::short_whole;
use crate::units::{value_of, with_sign};

/// A number that begins a text and has a value.
#[derive(Clone, Copy, Debug, PartialEq, Eq)]
pub struct PlainNumber {
    /// The length of the number in bytes.
    pub len: u32,
    /// Its value.
    pub value: i64,
}

/// The number that a scan found, where it has a value.
#[inline(always)]
fn valued(scanned: Scanned, digits: u8, how: Coords) -> Option<PlainNumber>
    requires len { scanned.len < 2 ^ 32 }
    requires fits { scanned.decimal.kept < 10 ^ 19 }
    requires small { scanned.decimal.up < 2 ^ 50 }
    ensures { (notation : Notation) (w : List ℕ) → IsScanned notation w scanned × (scanned.is_number ≡ true)
        → IfSome result (IsPlain notation w digits how) }
{
    match value_of(scanned.decimal, digits, how) {
        Ok(value) => Some(PlainNumber {
            len: scanned.len as u32,
            value,
        }),
        Err(_) => None,
    }
}

/// `plain_number` where a number's parts end there, and twenty-four bytes are left.
#[inline(always)]
fn ended_number(
    text: &[u8],
    ends: Ends,
    notation: Notation,
    digits: u8,
    how: Coords,
) -> Option<PlainNumber>
    requires short { length text.now ≤ 2 ^ 28 }
    requires long { 24 ≤ length text.now }
    requires ends { AreEnds notation text.now ends }
    requires near { ends.second ≤ 20 }
    ensures { IfSome result (IsPlain notation text.now digits how) }
{
    let whole = short_whole(text, ends, digits, notation, how)?;
    if is_exponent(text, whole.end) {
        return None;
    }
    Some(PlainNumber {
        len: whole.end as u32,
        value: with_sign(whole.size, whole.is_minus),
    })
}

/// `plain_number` where thirty-two bytes are left.
#[inline(always)]
fn far_number(text: &[u8], notation: Notation, digits: u8, how: Coords) -> Option<PlainNumber>
    requires short { length text.now ≤ 2 ^ 28 }
    requires long { 32 ≤ length text.now }
    ensures { IfSome result (IsPlain notation text.now digits how) }
{
    let ends = far_ends(text, notation)?;
    if let Some(number) = ended_number(text, ends, notation, digits, how) {
        return Some(number);
    }
    if text.len() < 40 {
        return None;
    }
    let scanned = scan_far(text, ends, notation)?;
    valued(scanned, digits, how)
}

/// `plain_number` near the end of a text.
#[inline(always)]
fn near_number(text: &[u8], notation: Notation, digits: u8, how: Coords) -> Option<PlainNumber>
    requires { length text.now ≤ 2 ^ 28 }
    ensures { IfSome result (IsPlain notation text.now digits how) }
{
    let scanned = scan_near(text, notation)?;
    valued(scanned, digits, how)
}

/// `plain_number` where the number's parts end within sixteen bytes, and twenty-four bytes are left.
#[inline(always)]
fn short_number(text: &[u8], notation: Notation, digits: u8, how: Coords) -> Option<PlainNumber>
    requires short { length text.now ≤ 2 ^ 28 }
    requires long { 24 ≤ length text.now }
    ensures { IfSome result (IsPlain notation text.now digits how) }
{
    ended_number(text, near_ends(text, notation)?, notation, digits, how)
}

/// `plain_number` where the number isn't short.
#[inline(never)]
fn long_number(text: &[u8], notation: Notation, digits: u8, how: Coords) -> Option<PlainNumber>
    requires { length text.now ≤ 2 ^ 28 }
    ensures { IfSome result (IsPlain notation text.now digits how) }
{
    if text.len() >= 32
        && let Some(number) = far_number(text, notation, digits, how)
    {
        return Some(number);
    }
    near_number(text, notation, digits, how)
}

/// The number that begins a text, where it has a value and is written plainly: some digits, a point with some digits
/// behind it or none, and no exponent. For some numbers it answers None. It takes no memory.
#[inline(always)]
pub fn plain_number(text: &[u8], notation: Notation, digits: u8, how: Coords) -> Option<PlainNumber>
    requires { length text.now ≤ 2 ^ 28 }
    ensures taken { IfSome result (λ number. TakesLongest (NumberOf notation) text.now (record {
      len = number.len;
      whole = true;
    })) }
    ensures value { IfSome result (λ number. IsFixedOf (take number.len text.now) digits how (Ok number.value)) }
{
    if text.len() >= 24
        && let Some(number) = short_number(text, notation, digits, how)
    {
        return Some(number);
    }
    let PlainNumber { len, value } = long_number(text, notation, digits, how)?;
    Some(PlainNumber { len, value })
}

/// The length of the number that begins a text, where it is written plainly and surely has a value: what `plain_number`
/// tells of it but for the value, which isn't computed. For some numbers it answers None. It takes no memory.
#[inline(always)]
pub fn plain_len(text: &[u8], notation: Notation, digits: u8, how: Coords) -> Option<u32>
    requires { length text.now ≤ 2 ^ 28 }
    ensures taken { IfSome result (λ len. TakesLongest (NumberOf notation) text.now
        (record { len = len; whole = true })) }
    ensures value { IfSome result (λ len. (value : ℤ) × IsFixedOf (take len text.now) digits how (Ok value)) }
{
    if text.len() < 32 {
        return None;
    }
    let end = valued_end(text, notation, digits, how)?;
    Some(end as u32)
}
