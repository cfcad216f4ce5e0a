//! Strings, literals and numbers of which nothing is kept.

ghost use Rattle.std.specs.Prelude.{◌≤◌, ◌^◌, length, IfSome};
ghost use Rattle.at_geojson.specs.Members.{PassesItem, IsScalarAt};

use crate::text::Text;
use at_fixed::{Coords, Notation, plain_len};
use at_lex::take_run;
use at_scan::{short_text_end, skip_spaces, stands, text_end};

/// The place behind the string that begins at the place.
#[inline(always)]
fn pass_string(text: &[u8], at: usize) -> Option<usize>
    requires inside { at ≤ length text.now }
    requires short { length text.now ≤ 2 ^ 28 }
    ensures { IfSome result (IsScalarAt text.now at) }
{
    if let Some(end) = short_text_end(text, at) {
        return Some(end);
    }
    match text_end(text, at) {
        Ok(end) => Some(end),
        Err(_) => None,
    }
}

/// The place behind the number that begins at the place, where it is written plainly and isn't long. Nobody asks for its
/// value, so it may have more digits than a coordinate.
#[inline(always)]
fn pass_number(text: &[u8], at: usize) -> Option<usize>
    requires inside { at ≤ length text.now }
    requires short { length text.now ≤ 2 ^ 28 }
    ensures { IfSome result (IsScalarAt text.now at) }
{
    let len = plain_len(&text[at..], Notation::Json, 0, Coords::Round)?;
    Some(at + len as usize)
}

/// The place behind the literal or number that begins at the place, however it is written.
fn pass_run(text: &[u8], at: usize) -> Option<usize>
    requires inside { at ≤ length text.now }
    requires short { length text.now ≤ 2 ^ 28 }
    ensures { IfSome result (IsScalarAt text.now at) }
{
    let taken = take_run(&text[at..]);
    if taken.whole {
        Some(at + taken.len as usize)
    } else {
        None
    }
}

/// The place behind the string, literal or number that begins at the place.
#[inline(always)]
fn pass_scalar(text: &Text<'_>, at: usize) -> Option<usize>
    requires inside { at ≤ length text.now.bytes.now }
    ensures { IfSome result (IsScalarAt text.now.bytes.now at) }
{
    if stands(text.bytes, at, b'"') {
        return pass_string(text.bytes, at);
    }
    if let Some(end) = pass_number(text.bytes, at) {
        return Some(end);
    }
    if stands(text.bytes, at, b'{') || stands(text.bytes, at, b'[') {
        None
    } else {
        pass_run(text.bytes, at)
    }
}

/// A string, literal or number with white space round it.
#[inline(always)]
pub fn pass_item(text: &Text<'_>, at: usize) -> Option<usize>
    requires inside { at ≤ length text.now.bytes.now }
    ensures { IfSome result (PassesItem text.now.algebra.now text.now.bytes.now at) }
{
    let first = skip_spaces(text.bytes, at);
    let end = pass_scalar(text, first)?;
    Some(skip_spaces(text.bytes, end))
}
