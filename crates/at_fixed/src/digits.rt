//! What is kept of decimal digits, read one by one.

ghost use Rattle.std.specs.Prelude.{◌≡◌, ℕ, ◌+◌, ◌-◌, ◌^◌, ◌<◌, ◌≤◌, IsTrue, true, false, nat_lt, length};
ghost use Rattle.std.specs.Prelude.{slice_index, IfSome};
ghost use Rattle.at_text.specs.Texts.{is_digit as digit_test};
ghost use Rattle.at_fixed.specs.Numerals.{AreDigits};
ghost use Rattle.at_fixed.specs.NumberSoFar.{between, digits_behind, Keeps, KeepsDigits, SameOrHuge};
ghost use Rattle.at_fixed.specs.Scans.{KeepsRun};

use crate::eights::leading_digits;
use crate::powers::power_of_ten;
use at_text::is_digit;

/// Eight further digits can be kept behind a number below this.
const SMALL: u64 = 10_000_000_000;

/// A further digit is kept while the digits kept so far are below this.
pub const FULL: u64 = 1_000_000_000_000_000_000;

/// A further digit of an exponent counts while the exponent is below this: larger ones decide alike.
const HUGE: u64 = 10_000_000_000;

/// What is kept of decimal digits: the number that the first of them spell, how many further ones were
/// dropped, and whether one of those is other than 0.
#[derive(Clone, Copy)]
pub struct Digits {
    pub kept: u64,
    pub dropped: u64,
    pub is_cut: bool,
}

/// Where a run of digits ends, and what is kept of them and of the digits before.
#[derive(Clone, Copy)]
pub struct DigitsRun {
    pub end: usize,
    pub digits: Digits,
}

/// Where digits that were kept end, and whether surely none stands there.
#[derive(Clone, Copy)]
pub struct KeptRun {
    pub end: usize,
    pub kept: u64,
    pub is_whole: bool,
}

/// Reads digits one by one while there is room to keep them.
#[inline(never)]
pub fn keep_single_digits(text: &[u8], from: usize, before: u64) -> (usize, u64)
    requires from_within { from ≤ length text.now }
    requires before_fits { before < 10 ^ 19 }
    ensures keeps { KeepsDigits text.now from result.0 before result.1 }
    ensures stops { result.0 < length text.now → digit_test (slice_index text.now result.0) ≡ true
        → 10 ^ 18 ≤ result.1 }
{
    let mut kept = before;
    let mut end = from;
    while end < text.len() && is_digit(text[end]) && kept < FULL {
        kept = 10 * kept + (text[end] - b'0') as u64;
        end += 1;
    }
    (end, kept)
}

/// Whether so many further digits can be kept behind a number.
#[inline(always)]
fn has_room(before: u64, count: usize) -> bool
    requires { count ≤ 8 }
    ensures { IsTrue result → before < 10 ^ (19 - count) }
{
    before < SMALL || before < power_of_ten(19 - count as u64)
}

/// Reads the digits that begin the next eight bytes, behind the number before them, where there is room to keep them.
#[inline(always)]
pub fn keep_eight(text: &[u8], from: usize, before: u64) -> Option<KeptRun>
    requires { from + 8 ≤ length text.now }
    ensures { IfSome result (KeepsRun text.now from before) }
{
    let (count, value) = leading_digits(text, from);
    if !has_room(before, count) {
        return None;
    }
    Some(KeptRun {
        end: from + count,
        kept: before * power_of_ten(count as u64) + value,
        is_whole: count < 8,
    })
}

/// Reads digits while there is room to keep them, eight bytes at once where as many are left.
#[inline(never)]
fn keep_more_digits(text: &[u8], from: usize, before: u64) -> (usize, u64)
    requires from_within { from ≤ length text.now }
    requires before_fits { before < 10 ^ 19 }
    ensures keeps { KeepsDigits text.now from result.0 before result.1 }
    ensures stops { result.0 < length text.now → digit_test (slice_index text.now result.0) ≡ true
        → 10 ^ 18 ≤ result.1 }
{
    let mut kept = before;
    let mut end = from;
    while text.len() - end >= 8 {
        let Some(next) = keep_eight(text, end, kept) else {
            break;
        };
        kept = next.kept;
        end = next.end;
        if next.is_whole {
            return (end, kept);
        }
    }
    keep_single_digits(text, end, kept)
}

/// Reads digits while there is room to keep them. The first eight bytes are looked at here, since they have all
/// digits of most numbers.
#[inline(always)]
fn keep_digits(text: &[u8], from: usize, before: u64) -> KeptRun
    requires from_within { from ≤ length text.now }
    requires before_fits { before < 10 ^ 19 }
    ensures keeps { KeepsDigits text.now from result.end before result.kept }
    ensures stops { result.end < length text.now → digit_test (slice_index text.now result.end) ≡ true
        → 10 ^ 18 ≤ result.kept }
    ensures whole { IsTrue result.is_whole → result.end < length text.now → digit_test (slice_index text.now result.end)
        ≡ false }
{
    if text.len() - from >= 8
        && let Some(first) = keep_eight(text, from, before)
    {
        if first.is_whole {
            return first;
        }
        let (end, kept) = keep_more_digits(text, first.end, first.kept);
        return KeptRun {
            end,
            kept,
            is_whole: false,
        };
    }
    let (end, kept) = keep_single_digits(text, from, before);
    KeptRun {
        end,
        kept,
        is_whole: false,
    }
}

/// Passes over digits, and tells whether one of them is other than 0.
#[inline(always)]
fn drop_digits(text: &[u8], from: usize, before: bool) -> (usize, bool)
    requires { from ≤ length text.now }
    ensures order { from ≤ result.0 }
    ensures within { result.0 ≤ length text.now }
    ensures digits { AreDigits (between text.now from result.0) }
    ensures stops { result.0 < length text.now → digit_test (slice_index text.now result.0) ≡ false }
    ensures cut { (rest : ℕ) → before ≡ nat_lt 0 rest
        → result.1 ≡ nat_lt 0 (digits_behind rest (between text.now from result.0)) }
{
    let mut is_cut = before;
    let mut end = from;
    while end < text.len() && is_digit(text[end]) {
        is_cut = is_cut || text[end] != b'0';
        end += 1;
    }
    (end, is_cut)
}

/// Reads the digits that stand at an offset, behind the digits read before.
#[inline(always)]
pub fn read_digits(text: &[u8], from: usize, before: Digits) -> DigitsRun
    requires from_within { from ≤ length text.now }
    requires before_fits { before.kept < 10 ^ 19 }
    requires before_dropped { before.dropped ≤ from }
    ensures order { from ≤ result.end }
    ensures within { result.end ≤ length text.now }
    ensures digits { AreDigits (between text.now from result.end) }
    ensures stops { result.end < length text.now → digit_test (slice_index text.now result.end) ≡ false }
    ensures fits { result.digits.kept < 10 ^ 19 }
    ensures dropped { result.digits.dropped ≤ result.end }
    ensures keeps { (m : ℕ) → Keeps before.kept before.dropped before.is_cut m
        → Keeps result.digits.kept result.digits.dropped result.digits.is_cut
        (digits_behind m (between text.now from result.end)) }
{
    let run = keep_digits(text, from, before.kept);
    if run.is_whole {
        return DigitsRun {
            end: run.end,
            digits: Digits {
                kept: run.kept,
                dropped: before.dropped,
                is_cut: before.is_cut,
            },
        };
    }
    let (end, is_cut) = drop_digits(text, run.end, before.is_cut);
    DigitsRun {
        end,
        digits: Digits {
            kept: run.kept,
            dropped: before.dropped + (end - run.end) as u64,
            is_cut,
        },
    }
}

/// Where the digits of an exponent end, and the number that they spell; one too large is told as some number
/// of at least `HUGE`.
#[inline(never)]
pub fn read_power(text: &[u8], from: usize) -> (usize, u64)
    requires { from ≤ length text.now }
    ensures order { from ≤ result.0 }
    ensures within { result.0 ≤ length text.now }
    ensures digits { AreDigits (between text.now from result.0) }
    ensures stops { result.0 < length text.now → digit_test (slice_index text.now result.0) ≡ false }
    ensures size { SameOrHuge result.1 (digits_behind 0 (between text.now from result.0)) }
    ensures fits { result.1 < 2 ^ 40 }
{
    let mut size = 0;
    let mut end = from;
    while end < text.len() && is_digit(text[end]) {
        if size < HUGE {
            size = 10 * size + (text[end] - b'0') as u64;
        }
        end += 1;
    }
    (end, size)
}
