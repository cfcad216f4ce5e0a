//! What stands at the places of a text: bytes, white space, strings and the names of members.

ghost use Rattle.std.specs.Prelude.{◌≡◌, ◌+◌, ◌<◌, ◌≤◌, ◌^◌, length, slice_index, true, IfOk, IfSome};
ghost use Rattle.at_fixed.specs.NumberSoFar.{between};
ghost use Rattle.at_text.specs.Texts.{is_space as space_test};
ghost use Rattle.at_lex.specs.Fronts.{IsFrontAt};
ghost use Rattle.at_lex.specs.Spans.{AreSpaces};
ghost use Rattle.at_scan.specs.Places.{is_blank, IsTextAt, IsNameAt};

use crate::short_texts::{LANES, first_set};
use at_lex::take_text;
use at_text::{Halt, Memory, is_space};
use std::alloc::{AllocError, AllocFailed};
use std::simd::prelude::*;

/// Where a member's name stands: the place of its opening quote, the place behind it, and the place of its colon.
#[derive(Clone, Copy)]
pub struct NamePlace {
    pub first: usize,
    pub end: usize,
    pub colon: usize,
}

/// Where a reader gives up what is of another kind than it reads, so that a reader of that kind may be asked. One that
/// gives up at any other place found what no reader of whole values reads.
pub const OTHER_KIND: usize = 0;

/// A reader that came so far was not made for another kind.
const FAR: usize = 1 << 10;

/// So many bytes before its end a text may end within the number or the position at a place.
const CUT: usize = 1 << 6;

/// Whether the byte stands at the place.
#[inline(always)]
pub fn stands(text: &[u8], at: usize, b: u8) -> bool
    ensures inside { result ≡ true → at < length text.now }
    ensures byte { result ≡ true → slice_index text.now at ≡ b }
{
    at < text.len() && text[at] == b
}

/// Whether a value from one place on, which a reader gave up at another, seems to be cut by the text's end: much of it
/// was read, and hardly anything stands behind. Another reader would come no further.
pub fn seems_cut(text: &[u8], from: usize, place: usize) -> bool {
    from.saturating_add(FAR) < place && text.len() < place.saturating_add(CUT)
}

/// Stops where no comma stands at the place.
#[inline(always)]
pub fn expect_comma(text: &[u8], at: usize) -> Result<(), Halt>
    ensures inside { IfOk result (λ _. at < length text.now) }
    ensures byte { IfOk result (λ _. slice_index text.now at ≡ 0x2C) }
{
    if stands(text, at, b',') {
        Ok(())
    } else {
        Err(Halt::At(at))
    }
}

/// How many bytes of white space the sixteen bytes at a place begin with.
#[inline(always)]
fn space_lanes(text: &[u8], at: usize) -> usize
    requires { at + 16 ≤ length text.now }
    ensures { IsFrontAt space_test text.now at 16 result }
{
    let bytes = u8x16::from_slice(&text[at..]);
    let no_blank = bytes.simd_ne(u8x16::splat(b' ')) & bytes.simd_ne(u8x16::splat(b'\t'));
    let no_end = bytes.simd_ne(u8x16::splat(b'\n')) & bytes.simd_ne(u8x16::splat(b'\r'));
    first_set((no_blank & no_end).to_bitmask())
}

/// How many blanks the sixteen bytes at a place begin with.
#[inline(always)]
fn blank_lanes(text: &[u8], at: usize) -> usize
    requires { at + 16 ≤ length text.now }
    ensures { IsFrontAt is_blank text.now at 16 result }
{
    let bytes = u8x16::from_slice(&text[at..]);
    first_set(bytes.simd_ne(u8x16::splat(b' ')).to_bitmask())
}

/// The place behind the white space at the beginning of a line, which is some blanks as a rule.
#[inline(never)]
fn behind_line_end(text: &[u8], at: usize) -> usize
    requires { at ≤ length text.now }
    ensures order { at ≤ result }
    ensures within { result ≤ length text.now }
    ensures spaces { AreSpaces (between text.now at result) }
{
    if text.len() - at <= LANES {
        return far_spaces(text, at);
    }
    let end = at + blank_lanes(text, at);
    if text[end] <= b' ' {
        return far_spaces(text, at);
    }
    end
}

/// The place behind the white space that begins at the place, of which there may be much.
#[inline(never)]
fn far_spaces(text: &[u8], at: usize) -> usize
    requires { at ≤ length text.now }
    ensures order { at ≤ result }
    ensures within { result ≤ length text.now }
    ensures spaces { AreSpaces (between text.now at result) }
{
    let mut end = at;
    'far: while text.len() - end >= LANES {
        let more = space_lanes(text, end);
        end += more;
        if more < LANES {
            return end;
        }
    }
    'near: while end < text.len() && is_space(text[end]) {
        end += 1;
    }
    end
}

/// The place behind the white space that begins at the place. One byte of it at most is passed over in line.
#[inline(always)]
pub fn skip_spaces(text: &[u8], at: usize) -> usize
    requires { at ≤ length text.now }
    ensures order { at ≤ result }
    ensures within { result ≤ length text.now }
    ensures spaces { AreSpaces (between text.now at result) }
{
    if at >= text.len() || text[at] > b' ' {
        return at;
    }
    let next = at + 1;
    match text[at] {
        b' ' => if next < text.len() && text[next] <= b' ' {
            far_spaces(text, next)
        } else {
            next
        },
        b'\n' => behind_line_end(text, next),
        _ => far_spaces(text, at),
    }
}

/// Whether so many blanks stand at the place, of thirty-two at the most.
#[inline(always)]
fn are_blanks(text: &[u8], at: usize, count: usize) -> bool
    requires { at + 32 ≤ length text.now }
    ensures few { result ≡ true → count ≤ 32 }
    ensures blanks { result ≡ true → AreSpaces (between text.now at (at + count)) }
{
    let first = blank_lanes(text, at);
    if count <= first {
        return true;
    }
    if first < LANES || count > 2 * LANES {
        return false;
    }
    count - LANES <= blank_lanes(text, at + LANES)
}

/// Whether so many blanks stand at the place, and a byte behind them. Near the end of the text the answer is no.
#[inline(always)]
fn indents(text: &[u8], at: usize, blanks: usize) -> bool
    requires { at ≤ length text.now }
    ensures inside { result ≡ true → at + blanks < length text.now }
    ensures spaces { result ≡ true → AreSpaces (between text.now at (at + blanks)) }
{
    if text.len() - at <= 2 * LANES {
        return false;
    }
    are_blanks(text, at, blanks)
}

/// `skip_spaces` where so many blanks are expected behind a line end, as they stood at a like place before it. Where they
/// stand there, the place behind them is known without a count of them.
#[inline(always)]
pub fn skip_alike(text: &[u8], at: usize, blanks: usize) -> usize
    requires { at ≤ length text.now }
    ensures order { at ≤ result }
    ensures within { result ≤ length text.now }
    ensures spaces { AreSpaces (between text.now at result) }
{
    if at >= text.len() || text[at] > b' ' {
        return at;
    }
    let next = at + 1;
    if text[at] == b'\n' && indents(text, next, blanks) && text[next + blanks] > b' ' {
        return next + blanks;
    }
    skip_spaces(text, at)
}

/// The place of this byte, where it stands right there, behind a blank, or behind a line end and so many blanks.
#[inline(always)]
pub fn near_byte(text: &[u8], at: usize, byte: u8, blanks: usize) -> Option<usize>
    requires { at ≤ length text.now }
    ensures order { IfSome result (λ place. at ≤ place) }
    ensures spaces { IfSome result (λ place. AreSpaces (between text.now at place)) }
    ensures inside { IfSome result (λ place. place < length text.now) }
    ensures byte { IfSome result (λ place. slice_index text.now place ≡ byte) }
{
    if at >= text.len() {
        return None;
    }
    if text[at] == byte {
        return Some(at);
    }
    let next = at + 1;
    if text[at] == b'\n' {
        if indents(text, next, blanks) && text[next + blanks] == byte {
            return Some(next + blanks);
        }
        return None;
    }
    if text[at] == b' ' && stands(text, next, byte) {
        return Some(next);
    }
    None
}

/// The place of this byte behind any white space.
#[cold]
#[inline(never)]
fn far_byte(text: &[u8], at: usize, byte: u8) -> Option<usize>
    requires { at ≤ length text.now }
    ensures order { IfSome result (λ place. at ≤ place) }
    ensures spaces { IfSome result (λ place. AreSpaces (between text.now at place)) }
    ensures inside { IfSome result (λ place. place < length text.now) }
    ensures byte { IfSome result (λ place. slice_index text.now place ≡ byte) }
{
    let place = skip_spaces(text, at);
    if stands(text, place, byte) {
        Some(place)
    } else {
        None
    }
}

/// The place of this byte, right there or behind white space, which is a blank or a line end and so many blanks as a rule.
#[inline(always)]
pub fn byte_place(text: &[u8], at: usize, byte: u8, blanks: usize) -> Option<usize>
    requires { at ≤ length text.now }
    ensures order { IfSome result (λ place. at ≤ place) }
    ensures spaces { IfSome result (λ place. AreSpaces (between text.now at place)) }
    ensures inside { IfSome result (λ place. place < length text.now) }
    ensures byte { IfSome result (λ place. slice_index text.now place ≡ byte) }
{
    match near_byte(text, at, byte, blanks) {
        Some(place) => Some(place),
        None => far_byte(text, at, byte),
    }
}

/// The place of an opening bracket, right there or behind white space.
#[inline(always)]
pub fn opening(text: &[u8], at: usize) -> Result<usize, Halt>
    requires { at ≤ length text.now }
    ensures order { IfOk result (λ first. at ≤ first) }
    ensures spaces { IfOk result (λ first. AreSpaces (between text.now at first)) }
    ensures inside { IfOk result (λ first. first < length text.now) }
    ensures byte { IfOk result (λ first. slice_index text.now first ≡ 0x5B) }
{
    let first = skip_spaces(text, at);
    if stands(text, first, b'[') {
        Ok(first)
    } else {
        Err(Halt::At(first))
    }
}

/// The place behind the string that begins at the place.
pub fn text_end(text: &[u8], at: usize) -> Result<usize, Halt>
    requires inside { at ≤ length text.now }
    requires short { length text.now ≤ 2 ^ 28 }
    ensures { IfOk result (IsTextAt text.now at) }
{
    take_text(&text[at..]).end_from(at)
}

/// White space and a colon behind a name.
#[inline(always)]
pub fn ended_name(text: &[u8], at: usize, first: usize, end: usize) -> Result<NamePlace, Halt>
    requires order { at ≤ first }
    requires spaces { AreSpaces (between text.now at first) }
    requires text { IsTextAt text.now first end }
    ensures place { IfOk result (IsNameAt text.now at) }
    ensures first { IfOk result (λ name. name.first ≡ first) }
    ensures end { IfOk result (λ name. name.end ≡ end) }
{
    if stands(text, end, b':') {
        return Ok(NamePlace {
            first,
            end,
            colon: end,
        });
    }
    let colon = skip_spaces(text, end);
    if stands(text, colon, b':') {
        Ok(NamePlace { first, end, colon })
    } else {
        Err(Halt::At(colon))
    }
}

/// White space, a name, white space and a colon.
pub fn name_place(text: &[u8], at: usize) -> Result<NamePlace, Halt>
    requires inside { at ≤ length text.now }
    requires short { length text.now ≤ 2 ^ 28 }
    ensures { IfOk result (IsNameAt text.now at) }
{
    let first = skip_spaces(text, at);
    let end = text_end(text, first)?;
    ended_name(text, at, first, end)
}

/// More brackets than stand one behind another in coordinates.
const MOST: usize = 5;

/// How many opening brackets stand one behind another from the place on, with white space between them, up to `MOST`.
pub fn brackets_ahead(text: &[u8], at: usize) -> usize
    requires { at ≤ length text.now }
{
    let mut count = 0;
    let mut place = at;
    'brackets: while count < MOST && stands(text, place, b'[') {
        place = skip_spaces(text, place + 1);
        count += 1;
    }
    count
}
