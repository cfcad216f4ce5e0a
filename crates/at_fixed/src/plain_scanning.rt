//! Numbers as they mostly are: some digits, a point with some digits behind it or none, no exponent, and few enough
//! digits that all of them are kept. What is written otherwise is left to `scanning`.

ghost use Rattle.std.specs.Prelude.{◌≡◌, ◌+◌, ◌^◌, ◌<◌, ◌≤◌, ◌&&◌, ◌-◌, IfSome, IsTrue, true, false, nat_lt, length};
ghost use Rattle.std.specs.Prelude.{slice_index};
ghost use Rattle.at_fixed.specs.Numerals.{AreDigits};
ghost use Rattle.at_fixed.specs.NumberSoFar.{between, KeepsDigits};
ghost use Rattle.at_fixed.specs.Scans.{AreEnds, EndsRun, IsLoneZero, KeepsFar, KeepsRun, ReadsSign, ReadsLead};
ghost use Rattle.at_fixed.specs.Scans.{ReadsWhole, ReadsMantissa, ReadsPower, may_take_point};
ghost use Rattle.at_fixed.specs.Scanned.{IsScanned};
ghost use Rattle.at_fixed.specs.States.{is_letter};

use crate::digits::{Digits, DigitsRun, FULL, KeptRun, keep_eight, keep_single_digits};
use crate::eights::spelled_number;
use crate::ends::Ends;
use crate::notation::Notation;
use crate::powers::power_of_ten;
use crate::scanning::{Mantissa, Power, Scanned, Sign, has_point, read_sign, scanned_of};

/// Whether the letter of an exponent stands at a place of the text.
#[inline(always)]
fn letter_stands(text: &[u8], at: usize) -> bool
    ensures { result ≡ (nat_lt at (length text.now) && is_letter (slice_index text.now at)) }
{
    at < text.len() && (text[at] == b'e' || text[at] == b'E')
}

/// Reads the digits at a place where fewer than eight bytes are left, behind the number before them.
#[inline(never)]
fn keep_last(text: &[u8], from: usize, before: u64) -> Option<KeptRun>
    requires from_within { from ≤ length text.now }
    requires before_fits { before < 10 ^ 19 }
    ensures { IfSome result (KeepsRun text.now from before) }
{
    let (end, kept) = keep_single_digits(text, from, before);
    if kept < FULL {
        Some(KeptRun {
            end,
            kept,
            is_whole: true,
        })
    } else {
        None
    }
}

/// Reads the digits that begin the next eight bytes, or the last ones, behind the number before them.
#[inline(always)]
fn keep_next(text: &[u8], from: usize, before: u64) -> Option<KeptRun>
    requires from_within { from ≤ length text.now }
    requires before_fits { before < 10 ^ 19 }
    ensures { IfSome result (KeepsRun text.now from before) }
{
    if text.len() - from < 8 {
        return keep_last(text, from, before);
    }
    keep_eight(text, from, before)
}

/// Reads all digits that stand at a place, behind the number before them, where they are fewer than sixteen.
#[inline(always)]
fn keep_sixteen(text: &[u8], from: usize, before: u64) -> Option<KeptRun>
    requires from_within { from ≤ length text.now }
    requires before_fits { before < 10 ^ 19 }
    ensures { IfSome result (λ run. KeepsRun text.now from before run × (run.is_whole ≡ true)) }
{
    let first = keep_next(text, from, before)?;
    if first.is_whole {
        return Some(first);
    }
    let second = keep_next(text, first.end, first.kept)?;
    if second.is_whole { Some(second) } else { None }
}

/// Whether a 0 stands at the place, behind which no digit of a JSON number before its point may stand.
#[inline(always)]
pub fn is_lone_zero(text: &[u8], at: usize, notation: Notation) -> bool
    requires { at < length text.now }
    ensures { IsLoneZero notation (slice_index text.now at) result }
{
    matches!(notation, Notation::Json) && text[at] == b'0'
}

/// The digits before the point, of which there are some.
#[inline(always)]
fn lead_of(text: &[u8], from: usize, run: KeptRun, notation: Notation) -> Option<DigitsRun>
    requires { KeepsRun text.now from 0 run }
    ensures reads { IfSome result (λ lead. ReadsLead notation text.now from lead × (from < lead.end)) }
    ensures same { IfSome result (λ lead. (lead.end ≡ run.end)
        × (lead.digits ≡ record { kept = run.kept; dropped = 0; is_cut = false })) }
{
    if !run.is_whole || run.end == from {
        return None;
    }
    if is_lone_zero(text, from, notation) && run.end != from + 1 {
        return None;
    }
    Some(DigitsRun {
        end: run.end,
        digits: Digits {
            kept: run.kept,
            dropped: 0,
            is_cut: false,
        },
    })
}

/// The sign and the digits before the point.
#[inline(always)]
fn whole_of(text: &[u8], sign: Sign, run: KeptRun, notation: Notation) -> Option<Mantissa>
    requires sign { ReadsSign notation text.now 0 sign }
    requires run { KeepsRun text.now sign.end 0 run }
    ensures reads { IfSome result (λ whole. ReadsWhole notation text.now whole × (whole.is_number ≡ true)) }
    ensures same { IfSome result (λ whole. (whole.end ≡ run.end)
        × (whole.digits ≡ record { kept = run.kept; dropped = 0; is_cut = false })) }
{
    let lead = lead_of(text, sign.end, run, notation)?;
    Some(Mantissa {
        end: lead.end,
        is_number: true,
        is_minus: sign.is_minus,
        digits: lead.digits,
        fraction: 0,
    })
}

/// The number with the digits behind its point, of which there are some.
#[inline(always)]
fn front_of(text: &[u8], whole: Mantissa, run: KeptRun, notation: Notation) -> Option<Mantissa>
    requires reads { ReadsWhole notation text.now whole }
    requires point { IsTrue (may_take_point notation text.now whole) }
    requires run { KeepsRun text.now (whole.end + 1) whole.digits.kept run }
    requires all { run.is_whole ≡ true }
    ensures reads { IfSome result (λ front. ReadsMantissa notation text.now front × (front.is_number ≡ true)) }
    ensures same { IfSome result (λ front. (front.end ≡ run.end) × (front.digits.kept ≡ run.kept)
        × (front.digits.dropped ≡ whole.digits.dropped)) }
{
    let point = whole.end + 1;
    if run.end == point {
        return None;
    }
    Some(Mantissa {
        end: run.end,
        is_number: true,
        is_minus: whole.is_minus,
        digits: Digits {
            kept: run.kept,
            dropped: whole.digits.dropped,
            is_cut: whole.digits.is_cut,
        },
        fraction: run.end - point,
    })
}

/// Reads a number up to its exponent, eight bytes at a time.
#[inline(always)]
fn near_front(text: &[u8], notation: Notation) -> Option<Mantissa>
    ensures { IfSome result (λ front. ReadsMantissa notation text.now front × (front.is_number ≡ true)) }
{
    let sign = read_sign(text, 0, notation);
    let run = keep_next(text, sign.end, 0)?;
    let whole = whole_of(text, sign, run, notation)?;
    if !has_point(text, whole, notation) {
        return Some(whole);
    }
    let run = keep_sixteen(text, whole.end + 1, whole.digits.kept)?;
    front_of(text, whole, run, notation)
}

/// What is kept of so many digits behind the number before them.
#[inline(always)]
fn keep_counted(text: &[u8], from: usize, count: usize, before: u64) -> u64
    requires inside { from + 8 ≤ length text.now }
    requires some { 0 < count }
    requires few { count ≤ 8 }
    requires digits { AreDigits (between text.now from (from + count)) }
    requires room { before < 10 ^ (19 - count) }
    ensures { KeepsDigits text.now from (from + count) before result }
{
    let number = spelled_number(text, from, count);
    before * power_of_ten(count as u64) + number
}

/// What is kept of nine to sixteen digits behind the number before them.
#[inline(always)]
fn keep_long(text: &[u8], from: usize, to: usize, before: u64) -> u64
    requires inside { from + 16 ≤ length text.now }
    requires many { from + 8 < to }
    requires few { to ≤ from + 16 }
    requires digits { AreDigits (between text.now from to) }
    requires room { before < 10 ^ (19 - (to - from)) }
    ensures { KeepsDigits text.now from to before result }
{
    let first = keep_counted(text, from, 8, before);
    keep_counted(text, from + 8, to - from - 8, first)
}

/// What is kept of one to sixteen digits behind the number before them.
#[inline(always)]
fn keep_to(text: &[u8], from: usize, to: usize, before: u64) -> Option<u64>
    requires run { EndsRun text.now from to }
    requires inside { from + 16 ≤ length text.now }
    requires room { before < 10 ^ (19 - (to - from)) }
    ensures { IfSome result (λ kept. KeepsDigits text.now from to before kept × (to ≤ from + 16)) }
{
    let count = to - from;
    if count == 0 || count > 16 {
        None
    } else if count <= 8 {
        Some(keep_counted(text, from, count, before))
    } else {
        Some(keep_long(text, from, to, before))
    }
}

/// Reads the digits that stand at a place up to another, behind the number before them, which has at most so many.
#[inline(always)]
fn far_run(text: &[u8], from: usize, to: usize, before: u64, room: usize) -> Option<KeptRun>
    requires run { EndsRun text.now from to }
    requires inside { from + 16 ≤ length text.now }
    requires room { before < 10 ^ (19 - room) }
    requires fits { to ≤ from + room }
    requires few { room ≤ 19 }
    ensures keeps { IfSome result (KeepsFar text.now from before room) }
    ensures end { IfSome result (λ run. run.end ≡ to) }
{
    let kept = keep_to(text, from, to, before)?;
    Some(KeptRun {
        end: to,
        kept,
        is_whole: true,
    })
}

/// Reads a number up to its exponent, whose parts end there.
#[inline(always)]
fn far_front(text: &[u8], ends: Ends, notation: Notation) -> Option<Mantissa>
    requires ends { AreEnds notation text.now ends }
    requires near { ends.second ≤ 20 }
    requires long { 40 ≤ length text.now }
    ensures { IfSome result (λ front. ReadsMantissa notation text.now front × (front.is_number ≡ true)) }
{
    let from = ends.sign.end;
    let lead = far_run(text, from, ends.first, 0, 19)?;
    let whole = whole_of(text, ends.sign, lead, notation)?;
    if !has_point(text, whole, notation) {
        return Some(whole);
    }
    let room = 19 - (ends.first - from);
    let run = far_run(text, whole.end + 1, ends.second, whole.digits.kept, room)?;
    front_of(text, whole, run, notation)
}

/// The exponent of a number that has none.
#[inline(always)]
fn no_power(text: &[u8], front: Mantissa) -> Option<Power>
    requires { front.is_number ≡ true }
    ensures { IfSome result (λ power. ReadsPower text.now front power × (power.is_number ≡ true)
        × (power.end ≡ front.end)) }
{
    if letter_stands(text, front.end) {
        return None;
    }
    Some(Power {
        end: front.end,
        is_number: true,
        is_minus: false,
        size: 0,
    })
}

/// Reads the number that begins a text and whose parts end there, where it is written plainly and forty bytes are left.
#[inline(always)]
pub fn scan_far(text: &[u8], ends: Ends, notation: Notation) -> Option<Scanned>
    requires short { length text.now ≤ 2 ^ 28 }
    requires long { 40 ≤ length text.now }
    requires ends { AreEnds notation text.now ends }
    requires near { ends.second ≤ 20 }
    ensures { IfSome result (λ scanned. IsScanned notation text.now scanned × (scanned.is_number ≡ true)) }
{
    let front = far_front(text, ends, notation)?;
    let power = no_power(text, front)?;
    Some(scanned_of(front, power))
}

/// Reads the number that begins a text, where it is written plainly.
#[inline(always)]
pub fn scan_near(text: &[u8], notation: Notation) -> Option<Scanned>
    requires { length text.now ≤ 2 ^ 28 }
    ensures { IfSome result (λ scanned. IsScanned notation text.now scanned × (scanned.is_number ≡ true)) }
{
    let front = near_front(text, notation)?;
    let power = no_power(text, front)?;
    Some(scanned_of(front, power))
}
