//! Strings of ASCII without escapes that are so short that their bytes are looked at together.

ghost use Rattle.std.specs.Prelude.{◌≡◌, ◌+◌, ◌≤◌, ◌^◌, length, IfSome};
ghost use Rattle.std.specs.List.{list_all};
ghost use Rattle.at_fixed.specs.Eights.{first_set as lowest_set};
ghost use Rattle.at_lex.specs.Fronts.{IsFrontAt};
ghost use Rattle.at_scan.specs.Places.{IsSimpleTextAt, IsSimpleItem, is_common, is_simple as simple_byte};

use crate::places::{skip_spaces, stands, text_end};
use std::simd::prelude::*;

/// So many bytes of a text are looked at together.
pub const LANES: usize = 16;

/// The place of the lowest bit of a mask of sixteen that is set, or 16 where none is.
#[inline(always)]
pub fn first_set(mask: u64) -> usize
    ensures { result ≡ lowest_set mask 16 }
{
    if mask == 0 {
        16
    } else {
        mask.trailing_zeros() as usize
    }
}

/// How many bytes of ASCII that stand for themselves in a string the sixteen bytes at a place begin with. With bit 1
/// turned over, the quote is the last byte below the others.
#[inline(always)]
fn common_lanes(text: &[u8], at: usize) -> usize
    requires { at + 16 ≤ length text.now }
    ensures { IsFrontAt is_common text.now at 16 result }
{
    let bytes = u8x16::from_slice(&text[at..]);
    let from_first = (bytes ^ u8x16::splat(2)) - u8x16::splat(0x21);
    let others = from_first.simd_ge(u8x16::splat(0x5F));
    let slash = bytes.simd_eq(u8x16::splat(b'\\'));
    first_set((others | slash).to_bitmask())
}

/// The place behind the string of ASCII without escapes that begins at the place, where it has at most sixteen bytes
/// between its quotes. Of strings near the end of the text it answers None.
#[inline(always)]
pub fn short_text_end(text: &[u8], at: usize) -> Option<usize>
    requires { at ≤ length text.now }
    ensures { IfSome result (IsSimpleTextAt text.now at) }
{
    if text.len() - at <= LANES || !stands(text, at, b'"') {
        return None;
    }
    let last = at + 1 + common_lanes(text, at + 1);
    if stands(text, last, b'"') {
        Some(last + 1)
    } else {
        None
    }
}

/// A string of ASCII without escapes with white space round it: the place of its first quote, the place behind its last
/// one, and the place behind the white space.
#[derive(Clone, Copy)]
pub struct SimpleItem {
    pub first: usize,
    pub last: usize,
    pub end: usize,
}

/// A short string of ASCII without escapes with white space round it. Of strings near the end of the text it answers
/// None.
#[inline(always)]
pub fn simple_item(text: &[u8], at: usize) -> Option<SimpleItem>
    requires { at ≤ length text.now }
    ensures { IfSome result (IsSimpleItem text.now at) }
{
    let first = skip_spaces(text, at);
    let last = short_text_end(text, first)?;
    let end = skip_spaces(text, last);
    Some(SimpleItem { first, last, end })
}

/// An item as of `simple_item` near the end of the text, whose bytes are looked at one by one.
#[inline(never)]
fn last_item(text: &[u8], at: usize) -> Option<SimpleItem>
    requires inside { at ≤ length text.now }
    requires short { length text.now ≤ 2 ^ 28 }
    ensures { IfSome result (IsSimpleItem text.now at) }
{
    let first = skip_spaces(text, at);
    if text.len() - first > 2 * LANES {
        return None;
    }
    let Ok(last) = text_end(text, first) else {
        return None;
    };
    if last - first > LANES + 2 || !is_simple(&text[first..last]) {
        return None;
    }
    let end = skip_spaces(text, last);
    Some(SimpleItem { first, last, end })
}

/// An item as of `simple_item`, also near the end of the text.
#[inline(always)]
pub fn simple_item_to_end(text: &[u8], at: usize) -> Option<SimpleItem>
    requires inside { at ≤ length text.now }
    requires short { length text.now ≤ 2 ^ 28 }
    ensures { IfSome result (IsSimpleItem text.now at) }
{
    match simple_item(text, at) {
        Some(item) => Some(item),
        None => last_item(text, at),
    }
}

/// Whether each byte stands for the unit of its own number.
pub fn is_simple(text: &[u8]) -> bool
    ensures { result ≡ list_all simple_byte text.now }
{
    for b in text {
        if *b >= 0x80 || *b == b'\\' {
            return false;
        }
    }
    true
}
