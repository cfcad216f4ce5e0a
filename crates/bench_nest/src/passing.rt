//! Values passed over from place to place, and how many values there are in them.

ghost use Rattle.std.specs.Prelude.{◌≡◌, ◌+◌, ◌<◌, ◌≤◌, ◌^◌, ◌&&◌, length, slice_index, nat_lt, nat_eq, true, IfOk};
ghost use Rattle.std.specs.Prelude.{IfSome};
ghost use Rattle.at_fixed.specs.NumberSoFar.{between};
ghost use Rattle.at_lex.specs.Spans.{AreSpaces};
ghost use Rattle.bench_nest.specs.Passed.{IsPassed, IsPassedText, IsPassedItem, IsPassedName};

use at_fixed::{Coords, Notation, plain_len};
use at_lex::{take_run, take_text};
use at_text::is_space;

/// A value that was passed over: the place behind it, and how many values it has, itself among them.
#[derive(Clone, Copy)]
pub struct Passed {
    pub end: usize,
    pub count: u64,
}

/// Whether the byte stands at the place.
#[inline(always)]
fn stands(text: &[u8], at: usize, b: u8) -> bool
    ensures inside { result ≡ true → at < length text.now }
    ensures byte { result ≡ true → slice_index text.now at ≡ b }
{
    at < text.len() && text[at] == b
}

/// The place behind the white space that begins at the place.
#[inline(always)]
fn skip_spaces(text: &[u8], at: usize) -> usize
    requires { at ≤ length text.now }
    ensures order { at ≤ result }
    ensures within { result ≤ length text.now }
    ensures spaces { AreSpaces (between text.now at result) }
{
    let mut end = at;
    while end < text.len() && is_space(text[end]) {
        end += 1;
    }
    end
}

/// A literal, or a number however it is written.
#[inline(never)]
fn pass_run(text: &[u8], at: usize) -> Result<Passed, usize>
    requires inside { at ≤ length text.now }
    requires short { length text.now ≤ 2 ^ 28 }
    ensures { IfOk result (IsPassed text.now at) }
{
    let taken = take_run(&text[at..]);
    let end = at + taken.len as usize;
    if taken.whole {
        Ok(Passed { end, count: 1 })
    } else {
        Err(end)
    }
}

#[inline(always)]
fn pass_number(text: &[u8], at: usize) -> Result<Passed, usize>
    requires inside { at ≤ length text.now }
    requires short { length text.now ≤ 2 ^ 28 }
    ensures { IfOk result (IsPassed text.now at) }
{
    match plain_len(&text[at..], Notation::Json, 0, Coords::Round) {
        Some(len) => Ok(Passed {
            end: at + len as usize,
            count: 1,
        }),
        None => pass_run(text, at),
    }
}

/// The place behind a string.
fn pass_text(text: &[u8], at: usize) -> Result<usize, usize>
    requires inside { at ≤ length text.now }
    requires short { length text.now ≤ 2 ^ 28 }
    ensures { IfOk result (IsPassedText text.now at) }
{
    let taken = take_text(&text[at..]);
    let end = at + taken.len as usize;
    if taken.whole { Ok(end) } else { Err(end) }
}

/// A string as a value.
fn pass_string(text: &[u8], at: usize) -> Result<Passed, usize>
    requires inside { at ≤ length text.now }
    requires short { length text.now ≤ 2 ^ 28 }
    ensures { IfOk result (IsPassed text.now at) }
{
    let end = pass_text(text, at)?;
    Ok(Passed { end, count: 1 })
}

/// White space and a number that is written plainly.
#[inline(always)]
fn pass_plain(text: &[u8], at: usize) -> Option<Passed>
    requires inside { at ≤ length text.now }
    requires short { length text.now ≤ 2 ^ 28 }
    ensures { IfSome result (IsPassedItem text.now at) }
{
    let first = skip_spaces(text, at);
    let len = plain_len(&text[first..], Notation::Json, 0, Coords::Round)?;
    Some(Passed {
        end: first + len as usize,
        count: 1,
    })
}

/// An array of numbers that are written plainly, as a position is, with white space before them alone.
#[inline(always)]
fn pass_numbers(text: &[u8], at: usize) -> Option<Passed>
    requires { length text.now ≤ 2 ^ 28 }
    ensures { IfSome result (IsPassed text.now at) }
{
    if !stands(text, at, b'[') {
        return None;
    }
    let mut place = at + 1;
    let mut count = 1u64;
    'numbers: loop {
        let number = pass_plain(text, place)?;
        count = count.wrapping_add(number.count);
        if stands(text, number.end, b']') {
            return Some(Passed {
                end: number.end + 1,
                count,
            });
        }
        if !stands(text, number.end, b',') {
            return None;
        }
        place = number.end + 1;
    }
}

/// A value in which brackets stand at most so deep, but for an array of numbers.
#[cycle(passing)]
#[inline(always)]
fn pass_any(text: &[u8], at: usize, depth: u8) -> Result<Passed, usize>
    requires inside { at ≤ length text.now }
    requires short { length text.now ≤ 2 ^ 28 }
    ensures { IfOk result (IsPassed text.now at) }
{
    match pass_numbers(text, at) {
        Some(passed) => Ok(passed),
        None => pass_value(text, at, depth),
    }
}

/// A value in which brackets stand at most so deep.
#[cycle(passing)]
fn pass_value(text: &[u8], at: usize, depth: u8) -> Result<Passed, usize>
    requires inside { at ≤ length text.now }
    requires short { length text.now ≤ 2 ^ 28 }
    ensures { IfOk result (IsPassed text.now at) }
{
    if at == text.len() {
        return Err(at);
    }
    match text[at] {
        b'[' => pass_array(text, at, depth),
        b'{' => pass_object(text, at, depth),
        b'"' => pass_string(text, at),
        b't' | b'f' | b'n' => pass_run(text, at),
        _ => pass_number(text, at),
    }
}

/// White space, a value and white space.
#[cycle(passing)]
#[inline(always)]
fn pass_item(text: &[u8], at: usize, depth: u8) -> Result<Passed, usize>
    requires inside { at ≤ length text.now }
    requires short { length text.now ≤ 2 ^ 28 }
    ensures { IfOk result (IsPassedItem text.now at) }
{
    let first = skip_spaces(text, at);
    let passed = pass_any(text, first, depth)?;
    let end = skip_spaces(text, passed.end);
    Ok(Passed {
        end,
        count: passed.count,
    })
}

/// An array from its opening bracket on, which stands at the place.
#[cycle(passing)]
fn pass_array(text: &[u8], at: usize, depth: u8) -> Result<Passed, usize>
    requires inside { at < length text.now }
    requires opens { slice_index text.now at ≡ 0x5B }
    requires short { length text.now ≤ 2 ^ 28 }
    ensures { IfOk result (IsPassed text.now at) }
{
    if depth == 0 {
        return Err(at);
    }
    let first = skip_spaces(text, at + 1);
    if stands(text, first, b']') {
        return Ok(Passed {
            end: first + 1,
            count: 1,
        });
    }
    let mut place = at + 1;
    let mut count = 1u64;
    'items: loop {
        let item = pass_item(text, place, depth - 1)?;
        count = count.wrapping_add(item.count);
        if stands(text, item.end, b']') {
            return Ok(Passed {
                end: item.end + 1,
                count,
            });
        }
        if !stands(text, item.end, b',') {
            return Err(item.end);
        }
        place = item.end + 1;
    }
}

/// White space, a name, white space and a colon: the place of the colon.
fn pass_name(text: &[u8], at: usize) -> Result<usize, usize>
    requires inside { at ≤ length text.now }
    requires short { length text.now ≤ 2 ^ 28 }
    ensures { IfOk result (IsPassedName text.now at) }
{
    let first = skip_spaces(text, at);
    let end = pass_text(text, first)?;
    let colon = skip_spaces(text, end);
    if stands(text, colon, b':') {
        Ok(colon)
    } else {
        Err(colon)
    }
}

/// An object from its opening bracket on, which stands at the place.
#[cycle(passing)]
fn pass_object(text: &[u8], at: usize, depth: u8) -> Result<Passed, usize>
    requires inside { at < length text.now }
    requires opens { slice_index text.now at ≡ 0x7B }
    requires short { length text.now ≤ 2 ^ 28 }
    ensures { IfOk result (IsPassed text.now at) }
{
    if depth == 0 {
        return Err(at);
    }
    let first = skip_spaces(text, at + 1);
    if stands(text, first, b'}') {
        return Ok(Passed {
            end: first + 1,
            count: 1,
        });
    }
    let mut place = at + 1;
    let mut count = 1u64;
    'members: loop {
        let colon = pass_name(text, place)?;
        let item = pass_item(text, colon + 1, depth - 1)?;
        count = count.wrapping_add(item.count);
        if stands(text, item.end, b'}') {
            return Ok(Passed {
                end: item.end + 1,
                count,
            });
        }
        if !stands(text, item.end, b',') {
            return Err(item.end);
        }
        place = item.end + 1;
    }
}

/// The array or object that begins the text, in which brackets stand at most so deep.
pub fn pass_opening(text: &[u8], depth: u8) -> Result<Passed, usize>
    requires { length text.now ≤ 2 ^ 28 }
    ensures { IfOk result (IsPassed text.now 0) }
{
    if stands(text, 0, b'[') {
        return pass_array(text, 0, depth);
    }
    if stands(text, 0, b'{') {
        return pass_object(text, 0, depth);
    }
    Err(0)
}
