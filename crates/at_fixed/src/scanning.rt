//! Any number, read up to its end: its sign, its digits, its fraction and its exponent.

ghost use Rattle.std.specs.Prelude.{◌≡◌, ◌^◌, ◌<◌, ◌≤◌, ◌==◌, ◌&&◌, ◌||◌, nat_lt, IsTrue, if◌then◌else◌, length};
ghost use Rattle.std.specs.Prelude.{slice_index, List, ℕ};
ghost use Rattle.at_fixed.specs.Scans.{ReadsSign, ReadsLead, ReadsWhole, ReadsMantissa, ReadsPower, may_take_point};
ghost use Rattle.at_fixed.specs.Scans.{is_wkt};
ghost use Rattle.at_fixed.specs.Scanned.{IsScanned};

use crate::digits::{Digits, DigitsRun, read_digits, read_power};
use crate::notation::Notation;

/// A sign or none, before a number or before an exponent's digits.
#[derive(Clone, Copy)]
pub struct Sign {
    pub end: usize,
    pub is_minus: bool,
}

/// A number up to its exponent: where it ends, whether a number may end there, and what it is so far.
#[derive(Clone, Copy)]
pub struct Mantissa {
    pub end: usize,
    pub is_number: bool,
    pub is_minus: bool,
    pub digits: Digits,
    pub fraction: usize,
}

/// An exponent, or nothing where there is none: where it ends, and whether a number may end there.
#[derive(Clone, Copy)]
pub struct Power {
    pub end: usize,
    pub is_number: bool,
    pub is_minus: bool,
    pub size: u64,
}

/// A number as `kept * 10^up / 10^down`, where `is_cut` says that further digits of it aren't 0.
#[derive(Clone, Copy)]
pub struct Decimal {
    pub is_minus: bool,
    pub kept: u64,
    pub is_cut: bool,
    pub up: u64,
    pub down: u64,
}

/// The longest prefix of a text that can become a number, and what it is where it is one.
#[derive(Clone, Copy)]
pub struct Scanned {
    pub len: usize,
    pub is_number: bool,
    pub decimal: Decimal,
}

/// Whether the byte stands at a place of the text.
#[inline(always)]
fn stands(text: &[u8], at: usize, byte: u8) -> bool
    ensures { result ≡ (nat_lt at (length text.now) && (slice_index text.now at == byte)) }
{
    at < text.len() && text[at] == byte
}

/// Reads the sign that a number may have at an offset. Signs come at random, so nothing is chosen by a branch.
#[inline(always)]
pub fn read_sign(text: &[u8], from: usize, notation: Notation) -> Sign
    requires { from ≤ length text.now }
    ensures { ReadsSign notation text.now from result }
{
    let is_minus = stands(text, from, b'-');
    let is_plus = stands(text, from, b'+') && matches!(notation, Notation::Wkt);
    Sign {
        end: from + usize::from(is_minus || is_plus),
        is_minus,
    }
}

/// Reads the digits before the point. In JSON a 0 at their beginning stands alone.
#[inline(always)]
fn read_lead(text: &[u8], from: usize, notation: Notation) -> DigitsRun
    requires { from ≤ length text.now }
    ensures { ReadsLead notation text.now from result }
{
    let none = Digits {
        kept: 0,
        dropped: 0,
        is_cut: false,
    };
    if matches!(notation, Notation::Json) && from < text.len() && text[from] == b'0' {
        DigitsRun {
            end: from + 1,
            digits: none,
        }
    } else {
        read_digits(text, from, none)
    }
}

/// Reads the sign and the digits before the point.
#[inline(always)]
fn read_whole(text: &[u8], notation: Notation) -> Mantissa
    ensures { ReadsWhole notation text.now result }
{
    let sign = read_sign(text, 0, notation);
    let lead = read_lead(text, sign.end, notation);
    Mantissa {
        end: lead.end,
        is_number: sign.end < lead.end,
        is_minus: sign.is_minus,
        digits: lead.digits,
        fraction: 0,
    }
}

/// Whether a point stands behind the digits and may stand there.
#[inline(always)]
pub fn has_point(text: &[u8], whole: Mantissa, notation: Notation) -> bool
    ensures { result ≡ may_take_point notation text.now whole }
{
    whole.end < text.len()
        && text[whole.end] == b'.'
        && (whole.is_number || matches!(notation, Notation::Wkt))
}

/// Whether a number may end behind a point, where digits stand on either side of it or not.
#[inline(always)]
fn may_end(has_fraction: bool, has_whole: bool, notation: Notation) -> bool
    ensures { result ≡ (has_fraction || (has_whole && is_wkt notation)) }
{
    has_fraction || (has_whole && matches!(notation, Notation::Wkt))
}

/// Reads the point, and the digits behind it.
#[inline(always)]
fn read_fraction(text: &[u8], whole: Mantissa, notation: Notation) -> Mantissa
    requires reads { ReadsWhole notation text.now whole }
    requires point { IsTrue (may_take_point notation text.now whole) }
    ensures { ReadsMantissa notation text.now result }
{
    let point = whole.end + 1;
    let fraction = read_digits(text, point, whole.digits);
    Mantissa {
        end: fraction.end,
        is_number: may_end(point < fraction.end, whole.is_number, notation),
        is_minus: whole.is_minus,
        digits: fraction.digits,
        fraction: fraction.end - point,
    }
}

/// Reads a number up to its exponent.
#[inline(always)]
fn read_mantissa(text: &[u8], notation: Notation) -> Mantissa
    ensures { ReadsMantissa notation text.now result }
{
    let whole = read_whole(text, notation);
    if has_point(text, whole, notation) {
        read_fraction(text, whole, notation)
    } else {
        whole
    }
}

/// Reads the exponent that a number may have.
#[inline(always)]
fn read_exponent(text: &[u8], mantissa: Mantissa) -> Power
    requires { mantissa.end ≤ length text.now }
    ensures { ReadsPower text.now mantissa result }
{
    let from = mantissa.end;
    if mantissa.is_number && from < text.len() && (text[from] == b'e' || text[from] == b'E') {
        let sign = read_sign(text, from + 1, Notation::Wkt);
        let (end, size) = read_power(text, sign.end);
        Power {
            end,
            is_number: sign.end < end,
            is_minus: sign.is_minus,
            size,
        }
    } else {
        Power {
            end: from,
            is_number: mantissa.is_number,
            is_minus: false,
            size: 0,
        }
    }
}

/// The exponent where it is 0 or above, else 0.
#[inline(always)]
fn size_above(power: Power) -> u64
    ensures { result ≡ (if power.is_minus then 0 else power.size) }
{
    if power.is_minus { 0 } else { power.size }
}

/// The size of the exponent where it is below 0, else 0.
#[inline(always)]
fn size_below(power: Power) -> u64
    ensures { result ≡ (if power.is_minus then power.size else 0) }
{
    if power.is_minus { power.size } else { 0 }
}

/// What is read of a number by its two halves.
#[inline(always)]
pub fn scanned_of(front: Mantissa, power: Power) -> Scanned
    requires dropped { front.digits.dropped ≤ 2 ^ 28 }
    requires count { front.fraction ≤ 2 ^ 28 }
    requires size { power.size < 2 ^ 40 }
    ensures reads { (notation : Notation) (w : List ℕ) → length w ≤ 2 ^ 28 → ReadsMantissa notation w front
        → ReadsPower w front power → IsScanned notation w result }
    ensures is_number { result.is_number ≡ power.is_number }
{
    Scanned {
        len: power.end,
        is_number: power.is_number,
        decimal: Decimal {
            is_minus: front.is_minus,
            kept: front.digits.kept,
            is_cut: front.digits.is_cut,
            up: front.digits.dropped + size_above(power),
            down: front.fraction as u64 + size_below(power),
        },
    }
}

/// Reads the number that begins a text.
#[inline(always)]
pub fn scan(text: &[u8], notation: Notation) -> Scanned
    requires { length text.now ≤ 2 ^ 28 }
    ensures { IsScanned notation text.now result }
{
    let front = read_mantissa(text, notation);
    let power = read_exponent(text, front);
    scanned_of(front, power)
}
