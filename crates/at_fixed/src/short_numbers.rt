//! Numbers as coordinates mostly are: at most eight digits before the point, and behind it at most eight, all of which
//! are kept, or more than are kept, which are then rounded by the first that isn't.

ghost use Rattle.std.specs.Prelude.{◌≡◌, ◌+◌, ◌*◌, ◌^◌, ◌<◌, ◌≤◌, IfSome, IsTrue, length, slice_index};
ghost use Rattle.at_fixed.specs.declared.rounding.Coords.TheVariants.{Round};
ghost use Rattle.at_fixed.specs.Numerals.{AreDigits};
ghost use Rattle.at_fixed.specs.NumberSoFar.{between, digits_behind};
ghost use Rattle.at_fixed.specs.Scans.{AreEnds, EndsRun, IsLead, IsSizedIn, IsTenth};

use crate::eights::spelled_number;
use crate::ends::Ends;
use crate::notation::Notation;
use crate::number_ends::is_lead;
use crate::powers::power_of_ten;
use crate::rounding::Coords;

/// Where a number ends, and its size in whole units, exact or rounded.
#[derive(Clone, Copy)]
pub struct Whole {
    pub end: usize,
    pub is_minus: bool,
    pub size: u64,
}

/// Whether so many digits before a point are few enough, where units of 10^-digits are asked for.
#[inline(always)]
fn lead_fits(count: usize, digits: u8) -> bool
    ensures { IsTrue result → (count ≤ 8) × (count + digits ≤ 14) }
{
    count <= 8 && count + digits as usize <= 14
}

/// Whether so many digits behind a point are some and few enough, where units of 10^-digits are asked for.
#[inline(always)]
fn fraction_fits(count: usize, digits: u8) -> bool
    ensures { IsTrue result → (0 < count) × (count ≤ 8) × (count ≤ digits) }
{
    count > 0 && count <= 8 && count <= digits as usize
}

/// The number that the digits from one place up to another spell, with so many zeros behind them.
#[inline(always)]
fn size_with_zeros(text: &[u8], from: usize, to: usize, zeros: usize) -> u64
    requires run { EndsRun text.now from to }
    requires inside { from + 8 ≤ length text.now }
    requires some { from < to }
    requires few { to ≤ from + 8 }
    requires fits { to + zeros ≤ from + 14 }
    ensures value { result ≡ digits_behind 0 (between text.now from to) * 10 ^ zeros }
    ensures bound { result < 10 ^ 14 }
{
    spelled_number(text, from, to - from) * power_of_ten(zeros as u64)
}

/// Whether a number with so many digits behind the point is rounded by the first of them that isn't kept, where units
/// of 10^-digits are asked for.
#[inline(always)]
fn is_rounded(count: usize, digits: u8, how: Coords) -> bool
    ensures { IsTrue result → (digits < count) × (digits < 8) × (how ≡ Round) }
{
    match how {
        Coords::Exact => false,
        Coords::Round => count > digits as usize && digits < 8,
    }
}

/// Whether there are digits from one place up to another, the last of which isn't a 0.
#[inline(always)]
fn ends_above_zero(text: &[u8], from: usize, to: usize) -> bool
    requires within { to ≤ length text.now }
    requires digits { AreDigits (between text.now from to) }
    ensures { IsTrue result → 0 < digits_behind 0 (between text.now from to) }
{
    if from >= to {
        return false;
    }
    text[to - 1] != b'0'
}

/// The whole number nearest to a tenth of a number, behind which some further digits stand. Where the number ends in a
/// 5 and none of the digits is surely above 0, it says nothing.
#[inline(always)]
fn nearest_tenth(number: u64, text: &[u8], from: usize, to: usize) -> Option<u64>
    requires fits { number < 10 ^ 14 }
    requires within { to ≤ length text.now }
    requires digits { AreDigits (between text.now from to) }
    ensures { IfSome result (IsTenth number (digits_behind 0 (between text.now from to))) }
{
    let tenth = (number + 5) / 10;
    if number % 10 != 5 {
        return Some(tenth);
    }
    if ends_above_zero(text, from, to) {
        Some(tenth)
    } else {
        None
    }
}

/// The number that the first digits of some at a place spell.
#[inline(always)]
fn first_spelled(text: &[u8], from: usize, count: usize, to: usize) -> u64
    requires run { EndsRun text.now from to }
    requires inside { from + 8 ≤ length text.now }
    requires some { 0 < count }
    requires few { count ≤ 8 }
    requires more { from + count ≤ to }
    ensures value { result ≡ digits_behind 0 (between text.now from (from + count)) }
    ensures bound { result < 10 ^ count }
{
    spelled_number(text, from, count)
}

/// Reads a number with a point up to its exponent, whose parts end there, and behind whose point stand more digits than
/// are kept. Which way it is rounded is told by the first digit that isn't kept, and where that is a 5 by the last.
#[inline(always)]
fn rounded_whole(text: &[u8], ends: Ends, digits: u8, notation: Notation) -> Option<Whole>
    requires ends { AreEnds notation text.now ends }
    requires near { ends.second ≤ 20 }
    requires long { ends.first + 9 ≤ length text.now }
    requires lead { (ends.sign.end < ends.first) × IsLead notation text.now ends.sign.end ends.first }
    requires fits { (ends.first ≤ ends.sign.end + 8) × (ends.first + digits ≤ 14 + ends.sign.end) }
    requires point { slice_index text.now ends.first ≡ 0x2E }
    requires more { (ends.first + 1 + digits < ends.second) × (digits < 8) }
    ensures whole { IfSome result (IsSizedIn notation text.now digits Round) }
    ensures inside { IfSome result (λ whole. whole.end < length text.now) }
{
    let kept = digits as usize + 1;
    let first = first_spelled(text, ends.first + 1, kept, ends.second);
    let tenth = nearest_tenth(first, text, ends.first + 1 + kept, ends.second)?;
    let lead = size_with_zeros(text, ends.sign.end, ends.first, digits as usize);
    Some(Whole {
        end: ends.second,
        is_minus: ends.sign.is_minus,
        size: lead + tenth,
    })
}

/// Reads a number with a point up to its exponent, whose parts end there.
#[inline(always)]
fn pointed_whole(
    text: &[u8],
    ends: Ends,
    digits: u8,
    notation: Notation,
    how: Coords,
) -> Option<Whole>
    requires ends { AreEnds notation text.now ends }
    requires near { ends.second ≤ 20 }
    requires long { ends.first + 9 ≤ length text.now }
    requires lead { (ends.sign.end < ends.first) × IsLead notation text.now ends.sign.end ends.first }
    requires fits { (ends.first ≤ ends.sign.end + 8) × (ends.first + digits ≤ 14 + ends.sign.end) }
    requires point { slice_index text.now ends.first ≡ 0x2E }
    ensures whole { IfSome result (IsSizedIn notation text.now digits how) }
    ensures inside { IfSome result (λ whole. whole.end < length text.now) }
{
    let behind = ends.first + 1;
    let fraction = ends.second - behind;
    if !fraction_fits(fraction, digits) {
        return if is_rounded(fraction, digits, how) {
            rounded_whole(text, ends, digits, notation)
        } else {
            None
        };
    }
    let lead = size_with_zeros(text, ends.sign.end, ends.first, digits as usize);
    let rest = size_with_zeros(text, behind, ends.second, digits as usize - fraction);
    Some(Whole {
        end: ends.second,
        is_minus: ends.sign.is_minus,
        size: lead + rest,
    })
}

/// Reads a number up to its exponent, whose parts end there.
#[inline(always)]
pub fn short_whole(
    text: &[u8],
    ends: Ends,
    digits: u8,
    notation: Notation,
    how: Coords,
) -> Option<Whole>
    requires ends { AreEnds notation text.now ends }
    requires near { ends.second ≤ 20 }
    requires long { 24 ≤ length text.now }
    ensures whole { IfSome result (IsSizedIn notation text.now digits how) }
    ensures inside { IfSome result (λ whole. whole.end < length text.now) }
{
    let from = ends.sign.end;
    let count = ends.first - from;
    if !lead_fits(count, digits) || !is_lead(text, from, ends.first, notation) {
        return None;
    }
    if text[ends.first] == b'.' {
        return pointed_whole(text, ends, digits, notation, how);
    }
    Some(Whole {
        end: ends.first,
        is_minus: ends.sign.is_minus,
        size: size_with_zeros(text, from, ends.first, digits as usize),
    })
}
