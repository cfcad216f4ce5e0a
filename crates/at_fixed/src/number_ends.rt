//! Where numbers end that are written plainly and surely have a value: for callers that don't use the value.

ghost use Rattle.std.specs.Prelude.{◌≡◌, ◌⊎◌, ℕ, ◌+◌, ◌^◌, ◌<◌, ◌≤◌, IfSome, IsTrue, length, slice_index};
ghost use Rattle.at_fixed.specs.declared.rounding.Coords.TheVariants.{Round};
ghost use Rattle.at_fixed.specs.Scans.{AreEnds, EndsRun, IsNumberEnd, IsLead, SurelyFits};
ghost use Rattle.at_fixed.specs.Scanned.{IsValued};
ghost use Rattle.at_fixed.specs.States.{is_letter};

use crate::ends::{Ends, far_ends, near_ends};
use crate::notation::Notation;
use crate::plain_scanning::is_lone_zero;
use crate::rounding::Coords;

/// Where a number ends, and how many of its digits stand behind its point.
#[derive(Clone, Copy)]
pub struct NumberEnd {
    pub end: usize,
    pub fraction: usize,
}

/// Whether digits that end at a place may stand before the point, of which there are some.
#[inline(always)]
pub fn is_lead(text: &[u8], from: usize, end: usize, notation: Notation) -> bool
    requires { EndsRun text.now from end }
    ensures { IsTrue result → (from < end) × IsLead notation text.now from end }
{
    let count = end - from;
    count > 0 && (!is_lone_zero(text, from, notation) || count == 1)
}

/// How far a number reaches, up to its exponent, whose parts end there.
#[inline(always)]
fn number_end(text: &[u8], ends: Ends, notation: Notation) -> Option<NumberEnd>
    requires ends { AreEnds notation text.now ends }
    requires few { ends.second ≤ 20 }
    ensures reads { IfSome result (IsNumberEnd notation text.now) }
    ensures inside { IfSome result (λ number. number.end < length text.now) }
{
    let point = ends.first;
    if !is_lead(text, ends.sign.end, point, notation) {
        return None;
    }
    if text[point] != b'.' {
        return Some(NumberEnd {
            end: point,
            fraction: 0,
        });
    }
    let fraction = ends.second - point - 1;
    if fraction == 0 {
        return None;
    }
    Some(NumberEnd {
        end: ends.second,
        fraction,
    })
}

/// How many digits a number may have behind its point.
#[inline(always)]
fn most_decimals(digits: u8, how: Coords) -> usize
    ensures { (fraction : ℕ) → fraction ≤ result → (how ≡ Round) ⊎ (fraction ≤ digits) }
{
    match how {
        Coords::Exact => digits as usize,
        Coords::Round => usize::MAX,
    }
}

/// Whether a number of so many bytes, of which so many are digits behind its point, surely has a value.
#[inline(always)]
fn surely_fits(number: NumberEnd, digits: u8, how: Coords) -> bool
    requires order { number.fraction ≤ number.end }
    requires few { number.end ≤ 2 ^ 28 }
    ensures { IsTrue result → SurelyFits number.end number.fraction digits how }
{
    number.end - number.fraction + digits as usize <= 14
        && number.fraction <= most_decimals(digits, how)
}

/// Whether the letter of an exponent stands at a place of the text.
#[inline(always)]
pub fn is_exponent(text: &[u8], at: usize) -> bool
    requires { at < length text.now }
    ensures { result ≡ is_letter (slice_index text.now at) }
{
    text[at] == b'e' || text[at] == b'E'
}

/// Where a number ends whose parts end there, where it surely has a value.
#[inline(always)]
fn sure_end(text: &[u8], ends: Ends, notation: Notation, digits: u8, how: Coords) -> Option<usize>
    requires ends { AreEnds notation text.now ends }
    requires few { ends.second ≤ 20 }
    ensures { IfSome result (IsValued notation text.now digits how) }
{
    let number = number_end(text, ends, notation)?;
    if is_exponent(text, number.end) {
        return None;
    }
    if surely_fits(number, digits, how) {
        Some(number.end)
    } else {
        None
    }
}

/// `valued_end` where a part of the number may end beyond the first sixteen bytes.
#[inline(never)]
fn far_end(text: &[u8], notation: Notation, digits: u8, how: Coords) -> Option<usize>
    requires { 32 ≤ length text.now }
    ensures { IfSome result (IsValued notation text.now digits how) }
{
    sure_end(text, far_ends(text, notation)?, notation, digits, how)
}

/// Where the number ends that begins a text, where it is written plainly and surely has a value, which isn't computed.
#[inline(always)]
pub fn valued_end(text: &[u8], notation: Notation, digits: u8, how: Coords) -> Option<usize>
    requires { 32 ≤ length text.now }
    ensures { IfSome result (IsValued notation text.now digits how) }
{
    match near_ends(text, notation) {
        Some(ends) => sure_end(text, ends, notation, digits, how),
        None => far_end(text, notation, digits, how),
    }
}
