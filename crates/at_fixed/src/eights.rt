//! Eight bytes looked at together: how many digits they begin with, and what these spell.

ghost use Rattle.std.specs.Prelude.{◌≡◌, ◌+◌, ◌<◌, ◌≤◌, false, length, slice_index};
ghost use Rattle.at_text.specs.Texts.{is_digit as digit_test};
ghost use Rattle.at_fixed.specs.Numerals.{AreDigits};
ghost use Rattle.at_fixed.specs.NumberSoFar.{between, digits_behind};
ghost use Rattle.at_fixed.specs.Eights.{IsDigitRun, first_set as lowest_set, eight_bytes, folded};

use std::simd::prelude::*;

/// The place of the lowest bit of a mask of eight that is set, or 8 where none is.
#[inline(always)]
fn first_set(mask: u64) -> usize
    ensures { result ≡ lowest_set mask 8 }
{
    if mask == 0 {
        8
    } else {
        mask.trailing_zeros() as usize
    }
}

/// With how many digits the eight bytes at a place begin.
#[inline(always)]
fn leading_count(text: &[u8], at: usize) -> usize
    requires { at + 8 ≤ length text.now }
    ensures { IsDigitRun text.now at result }
{
    let from_zero = u8x8::from_slice(&text[at..]) - u8x8::splat(b'0');
    first_set(from_zero.simd_ge(u8x8::splat(10)).to_bitmask())
}

/// The eight bytes at a place as one number, the first of them the lowest.
#[inline(always)]
fn word_at(text: &[u8], at: usize) -> u64
    requires { at + 8 ≤ length text.now }
    ensures { result ≡ eight_bytes text.now at }
{
    u64::from_le_bytes([
        text[at],
        text[at + 1],
        text[at + 2],
        text[at + 3],
        text[at + 4],
        text[at + 5],
        text[at + 6],
        text[at + 7],
    ])
}

/// The number that the first digits of a word of eight bytes spell: neighbours are joined to numbers of two, of four
/// and of eight digits.
#[inline(always)]
fn number_of(word: u64, count: usize) -> u64
    requires some { 0 < count }
    requires few { count ≤ 8 }
    ensures { result ≡ folded word count }
{
    let digits = (word << (64 - 8 * count as u32)) & 0x0F0F_0F0F_0F0F_0F0F;
    let pairs = (10 * digits + (digits >> 8)) & 0x00FF_00FF_00FF_00FF;
    let fours = (100 * pairs + (pairs >> 16)) & 0x0000_FFFF_0000_FFFF;
    (10_000 * fours + (fours >> 32)) & 0xFFFF_FFFF
}

/// The number that so many digits at a place spell.
#[inline(always)]
pub fn spelled_number(text: &[u8], at: usize, count: usize) -> u64
    requires inside { at + 8 ≤ length text.now }
    requires some { 0 < count }
    requires few { count ≤ 8 }
    requires digits { AreDigits (between text.now at (at + count)) }
    ensures { result ≡ digits_behind 0 (between text.now at (at + count)) }
{
    number_of(word_at(text, at), count)
}

/// How many digits begin the eight bytes at a place, and the number that they spell.
#[inline(always)]
pub fn leading_digits(text: &[u8], at: usize) -> (usize, u64)
    requires { at + 8 ≤ length text.now }
    ensures few { result.0 ≤ 8 }
    ensures digits { AreDigits (between text.now at (at + result.0)) }
    ensures stops { result.0 < 8 → digit_test (slice_index text.now (at + result.0)) ≡ false }
    ensures value { result.1 ≡ digits_behind 0 (between text.now at (at + result.0)) }
{
    let count = leading_count(text, at);
    if count == 0 {
        (0, 0)
    } else {
        (count, spelled_number(text, at, count))
    }
}
