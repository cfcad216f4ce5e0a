//! Which bytes of a text are no digits: a bit for each byte, the lowest for the first.

ghost use Rattle.std.specs.Prelude.{◌≡◌, ℕ, ◌+◌, ◌^◌, ◌<◌, ◌≤◌, None, IfSome, length};
ghost use Rattle.at_fixed.specs.Gaps.{AreFirstTwo, IsClearedTo, IsFirstSet, MarksGaps};

use std::simd::prelude::*;

/// Which of the sixteen bytes at a place are no digits.
#[inline(always)]
pub fn sixteen_gaps(text: &[u8], at: usize) -> u64
    requires { at + 16 ≤ length text.now }
    ensures { MarksGaps text.now at 16 result }
{
    let from_zero = u8x16::from_slice(&text[at..]) - u8x16::splat(b'0');
    from_zero.simd_ge(u8x16::splat(10)).to_bitmask()
}

/// Which of the first thirty-two bytes are no digits.
#[inline(always)]
pub fn first_gaps(text: &[u8]) -> u64
    requires { 32 ≤ length text.now }
    ensures { MarksGaps text.now 0 32 result }
{
    let from_zero = u8x32::from_slice(text) - u8x32::splat(b'0');
    from_zero.simd_ge(u8x32::splat(10)).to_bitmask()
}

/// The mask without its lowest bit that is set, where one is.
#[inline(always)]
fn without_first(mask: u64) -> u64
    ensures bits { (place : ℕ) → IsFirstSet mask 0 place → IsClearedTo mask place result }
    ensures less { result ≤ mask }
{
    if mask == 0 { 0 } else { mask & (mask - 1) }
}

/// The places of the two lowest bits that are set, where two are.
#[inline(always)]
pub fn first_two(mask: u64) -> Option<(usize, usize)>
    ensures { IfSome result (AreFirstTwo mask) }
{
    let rest = without_first(mask);
    if rest == 0 {
        None
    } else {
        Some((
            mask.trailing_zeros() as usize,
            rest.trailing_zeros() as usize,
        ))
    }
}
