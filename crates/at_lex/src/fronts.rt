//! How far the bytes of a class go from the beginning of a text.

ghost use Rattle.std.specs.Prelude.{◌≡◌, ◌+◌, ◌≤◌, length};
ghost use Rattle.at_text.specs.Texts.{is_space as space_test, is_digit as digit_test, is_run as run_test};
ghost use Rattle.at_lex.specs.Strings.{is_plain as plain_test};
ghost use Rattle.at_lex.specs.Fronts.{IsFront, IsFrontAt, is_quiet};
ghost use Rattle.at_fixed.specs.Eights.{first_set as lowest_set};

use at_text::{is_digit, is_run, is_space};
use memchr::memchr2;
use std::simd::prelude::*;

/// So many bytes of a string are looked at together.
const LANES: usize = 32;

/// How many bytes of white space the text begins with.
pub fn space_len(text: &[u8]) -> usize
    ensures { IsFront space_test text.now result }
{
    for (i, b) in text.iter().enumerate() {
        if !is_space(*b) {
            return i;
        }
    }
    text.len()
}

/// How many bytes of a run the text begins with.
pub fn run_len(text: &[u8]) -> usize
    ensures { IsFront run_test text.now result }
{
    for (i, b) in text.iter().enumerate() {
        if !is_run(*b) {
            return i;
        }
    }
    text.len()
}

/// Whether the byte stands for itself in a string (RFC 8259 section 7): it is no quote, backslash or control
/// character.
pub fn is_plain(b: u8) -> bool
    ensures { result ≡ plain_test b }
{
    b >= 0x20 && b != b'"' && b != b'\\'
}

/// How many digits the text begins with.
pub fn digit_len(text: &[u8]) -> usize
    ensures { IsFront digit_test text.now result }
{
    for (i, b) in text.iter().enumerate() {
        if !is_digit(*b) {
            return i;
        }
    }
    text.len()
}

/// How many bytes that stand for themselves in a string the text begins with, looked at one by one.
fn near_plain_len(text: &[u8]) -> usize
    ensures { IsFront plain_test text.now result }
{
    for (i, b) in text.iter().enumerate() {
        if !is_plain(*b) {
            return i;
        }
    }
    text.len()
}

/// How many bytes the text begins with that are no quote and no backslash.
pub fn quiet_len(text: &[u8]) -> usize
    ensures { IsFront is_quiet text.now result }
{
    match memchr2(b'"', b'\\', text) {
        Some(found) => found,
        None => text.len(),
    }
}

/// The place of the lowest bit of a mask of thirty-two that is set, or 32 where none is.
#[inline(always)]
fn first_set(mask: u64) -> usize
    ensures { result ≡ lowest_set mask 32 }
{
    if mask == 0 {
        32
    } else {
        mask.trailing_zeros() as usize
    }
}

/// How many bytes that stand for themselves in a string the thirty-two bytes at a place begin with. With bit 1 turned
/// over, a quote and the control characters are the bytes up to 20.
#[inline(always)]
fn plain_lanes(text: &[u8], at: usize) -> usize
    requires { at + 32 ≤ length text.now }
    ensures { IsFrontAt plain_test text.now at 32 result }
{
    let bytes = u8x32::from_slice(&text[at..]);
    let low = (bytes ^ u8x32::splat(2)).simd_le(u8x32::splat(0x20));
    let slash = bytes.simd_eq(u8x32::splat(b'\\'));
    first_set((low | slash).to_bitmask())
}

/// How many bytes that stand for themselves in a string the text begins with.
#[inline(always)]
pub fn plain_len(text: &[u8]) -> usize
    ensures { IsFront plain_test text.now result }
{
    let mut len: usize = 0;
    while text.len() - len >= LANES {
        let more = plain_lanes(text, len);
        if more < LANES {
            return len + more;
        }
        len += LANES;
    }
    len + near_plain_len(&text[len..])
}
