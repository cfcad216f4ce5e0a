//! Positions whose first two numbers have values, read at once.

ghost use Rattle.std.specs.Prelude.{◌≡◌, ℕ, ◌+◌, ◌-◌, ◌<◌, ◌≤◌, length, slice_index, IfSome};
ghost use Rattle.at_geojson.specs.Atoms.{to_four};
ghost use Rattle.at_geojson.specs.Values.{IsPlain, IsPair, IsSpacedPair};
ghost use Rattle.at_geojson.specs.Passing.{PassesNumber, PassesPair, PassesTo};

use crate::atoms::atom::{GeoAtom, PositionAtom};
use crate::text::Text;
use at_fixed::{
    Coords, Notation, PlainNumber, json_number, leading_number, plain_len, plain_number,
};
use at_geom::Pos;
use at_scan::{
    byte_place, may_begin, position_end, skip_alike, skip_spaces, stands, valued_len, valued_number,
};

/// A value that was read: the place behind it, and its atom.
#[derive(Drop)]
pub struct Whole {
    pub end: usize,
    pub atom: GeoAtom,
}

/// A number that has a value: the place of its first byte, and the one behind it.
#[derive(Clone, Copy)]
pub struct Plain {
    pub first: usize,
    pub last: usize,
    pub number: PlainNumber,
}

/// Where a number that has a value stands: the place of its first byte, and the one behind it.
#[derive(Clone, Copy)]
pub struct NumberPlace {
    pub first: usize,
    pub last: usize,
}

/// Where a position stands: the places of its bracket, of its first two numbers and of the comma between them, the one
/// behind its closing bracket, and the one behind the white space.
#[derive(Clone, Copy)]
pub struct PairPlace {
    pub bracket: usize,
    pub x: NumberPlace,
    pub comma: usize,
    pub y: NumberPlace,
    pub close: usize,
    pub end: usize,
}

/// A position that was read, and the place behind it.
#[derive(Clone, Copy)]
pub struct PairRead {
    pub end: usize,
    pub pair: PositionAtom,
}

/// How many blanks stand behind a line end before each position of a list, and before each number of one. Where positions
/// are indented, they are so in a like way.
#[derive(Clone, Copy)]
pub struct Margins {
    pub outer: usize,
    pub inner: usize,
}

impl Margins {
    /// Nothing is known of them.
    pub const UNKNOWN: Margins = Margins { outer: 0, inner: 0 };
}

/// The margins of a position behind a byte, by the places of that byte, of its bracket and of its first number.
#[inline(always)]
pub fn margins_of(before: usize, bracket: usize, number: usize) -> Margins
    ensures outer { result.outer ≡ bracket - before - 2 }
    ensures inner { result.inner ≡ number - bracket - 2 }
{
    Margins {
        outer: bracket.saturating_sub(before).saturating_sub(2),
        inner: number.saturating_sub(bracket).saturating_sub(2),
    }
}

/// Positions that were read one behind another: the first, the last, how many they are up to four, and the values of
/// all of them where shapes are kept.
#[derive(Drop)]
pub struct Row {
    pub first: PositionAtom,
    pub last: Pos,
    pub count: u32,
    pub path: Vec<Pos>,
}

/// Room that a list of positions is given at first: that of a ring of four corners.
pub const ROOM: usize = 5;

/// White space, and a number that has a value.
#[inline(always)]
fn read_plain(text: &Text<'_>, at: usize, blanks: usize) -> Option<Plain>
    requires inside { at ≤ length text.now.bytes.now }
    ensures { IfSome result (IsPlain text.now.algebra.now text.now.bytes.now at) }
{
    let first = skip_alike(text.bytes, at, blanks);
    if !may_begin(text.bytes, first) {
        return None;
    }
    let number = valued_number(
        &text.bytes[first..],
        text.algebra.digits(),
        text.algebra.how(),
    )?;
    Some(Plain {
        first,
        last: first + number.len as usize,
        number,
    })
}

/// A position whose first two numbers have values, from its opening bracket on, which stands at the place.
#[inline(always)]
fn opened_pair(text: &Text<'_>, at: usize, margins: Margins) -> Option<PairRead>
    requires inside { at < length text.now.bytes.now }
    requires opens { slice_index text.now.bytes.now at ≡ 0x5B }
    ensures { IfSome result (IsPair text.now.algebra.now text.now.base text.now.bytes.now at) }
{
    let x = read_plain(text, at + 1, margins.inner)?;
    let comma = byte_place(text.bytes, x.last, b',', 0)?;
    let y = read_plain(text, comma + 1, margins.inner)?;
    let end = position_end(text.bytes, y.last, margins.outer)?;
    Some(PairRead {
        end,
        pair: PositionAtom {
            at: text.base + at as u32,
            least: text.base + x.first as u32,
            pos: Pos {
                x: x.number.value,
                y: y.number.value,
            },
        },
    })
}

/// A position whose first two numbers have values.
#[inline(always)]
pub fn read_pair(text: &Text<'_>, at: usize) -> Option<PairRead>
    ensures { IfSome result (IsPair text.now.algebra.now text.now.base text.now.bytes.now at) }
{
    if !stands(text.bytes, at, b'[') {
        return None;
    }
    opened_pair(text, at, Margins::UNKNOWN)
}

/// One more, up to four.
#[inline(always)]
pub fn one_more(count: u32) -> u32
    ensures { (n : ℕ) → count ≡ to_four n → result ≡ to_four (n + 1) }
{
    if count < 4 { count + 1 } else { count }
}

/// A position, behind white space and before white space.
#[inline(always)]
pub fn read_spaced(text: &Text<'_>, at: usize, margins: Margins) -> Option<PairRead>
    requires inside { at ≤ length text.now.bytes.now }
    ensures { IfSome result (IsSpacedPair text.now.algebra.now text.now.base text.now.bytes.now at) }
{
    let first = byte_place(text.bytes, at, b'[', margins.outer)?;
    let PairRead { end, pair } = opened_pair(text, first, margins)?;
    let end = skip_spaces(text.bytes, end);
    Some(PairRead { end, pair })
}

/// White space, and a number that has a value, passed over.
#[inline(always)]
fn pass_plain(text: &Text<'_>, at: usize, blanks: usize) -> Option<NumberPlace>
    requires inside { at ≤ length text.now.bytes.now }
    ensures { IfSome result (PassesNumber text.now.algebra.now text.now.bytes.now at) }
{
    let first = skip_alike(text.bytes, at, blanks);
    let len = valued_len(
        &text.bytes[first..],
        text.algebra.digits(),
        text.algebra.how(),
    )?;
    Some(NumberPlace {
        first,
        last: first + len as usize,
    })
}

/// A position whose first two numbers have values, behind white space and before white space, passed over.
#[inline(always)]
pub fn pass_pair(text: &Text<'_>, at: usize, margins: Margins) -> Option<PairPlace>
    requires inside { at ≤ length text.now.bytes.now }
    ensures { IfSome result (PassesPair text.now.algebra.now text.now.bytes.now at) }
{
    let bracket = byte_place(text.bytes, at, b'[', margins.outer)?;
    let x = pass_plain(text, bracket + 1, margins.inner)?;
    let comma = byte_place(text.bytes, x.last, b',', 0)?;
    let y = pass_plain(text, comma + 1, margins.inner)?;
    let close = position_end(text.bytes, y.last, margins.outer)?;
    let end = skip_spaces(text.bytes, close);
    Some(PairPlace {
        bracket,
        x,
        comma,
        y,
        close,
        end,
    })
}

/// The place behind a position that is passed over.
#[inline(always)]
pub fn pass_spaced(text: &Text<'_>, at: usize, margins: Margins) -> Option<usize>
    requires inside { at ≤ length text.now.bytes.now }
    ensures { IfSome result (PassesTo text.now.algebra.now text.now.bytes.now at) }
{
    let place = pass_pair(text, at, margins)?;
    Some(place.end)
}
