//! Geometries of a type and of coordinates that are written plainly, read at once: no atom is made of them.

ghost use Rattle.std.specs.Prelude.{◌≡◌, ℕ, ◌+◌, ◌<◌, ◌≤◌, ◌^◌, length, slice_index, IfOk};
ghost use Rattle.at_query.specs.Keeping.{Asked};
ghost use Rattle.at_geojson.specs.PlainGeometries.{IsKindRead, IsCoordinatesItem, IsGeometryRead, SeesShape, Sees};

use crate::atoms::geometries::Geometry;
use crate::coordinates::makers::{Keeps, Passes, Sizes, Spreads, Tallies};
use crate::coordinates::makings::coordinates;
use crate::text::Text;
use at_query::{Measure, Part};
use at_scan::{
    Kind, KindRead, OTHER_KIND, SimpleItem, begins_collection, expect_comma, field_name,
    is_coordinates, is_kind, kind_of, known_kind, simple_item_to_end, skip_spaces, stands,
};
use at_text::{Fault, Halt};

/// A geometry that was read: the place behind it, and its shape or its first fault.
#[derive(Drop)]
pub struct ShapeRead {
    pub end: usize,
    pub shape: Result<Geometry, Fault>,
}

/// What is seen of a shape: what is told of it in its place, or the shape itself.
#[derive(Drop)]
pub enum Seen {
    /// The part of a feature that has the shape, where the query measures shapes; for `select` that of `count`.
    Measured(Part),
    Shape(Geometry),
}

/// A geometry that was read: the place behind it, and what is seen of its shape or its first fault.
#[derive(Drop)]
pub struct SeenRead {
    pub end: usize,
    pub seen: Result<Seen, Fault>,
}

/// Where an object is given up whose kind isn't named by a short text. A collection of features isn't read as a value
/// either: it is large, and its features are read one behind another.
fn long_kind(text: &[u8], at: usize) -> usize
    requires { at ≤ length text.now }
{
    let first = skip_spaces(text, at);
    if begins_collection(text, first) {
        first.max(1)
    } else {
        OTHER_KIND
    }
}

/// White space, the name of a kind that isn't looked at as a whole word, and white space.
fn any_kind(text: &[u8], at: usize) -> Result<KindRead, Halt>
    requires inside { at ≤ length text.now }
    requires short { length text.now ≤ 2 ^ 28 }
    ensures { (asked : Asked) (base : ℕ) → IfOk result (IsKindRead asked base text.now at) }
{
    let Some(SimpleItem { first, last, end }) = simple_item_to_end(text, at) else {
        return Err(Halt::At(long_kind(text, at)));
    };
    match kind_of(&text[first + 1..last - 1]) {
        Some(kind) => Ok(KindRead { end, kind }),
        None => Err(Halt::At(OTHER_KIND)),
    }
}

/// White space, the name of a kind, and white space.
#[inline(always)]
pub fn read_kind(text: &Text<'_>, at: usize) -> Result<KindRead, Halt>
    requires inside { at ≤ length text.now.bytes.now }
    ensures { IfOk result (IsKindRead text.now.algebra.now text.now.base text.now.bytes.now at) }
{
    let first = skip_spaces(text.bytes, at);
    let Some(KindRead { end, kind }) = known_kind(text.bytes, first) else {
        return any_kind(text.bytes, at);
    };
    let end = skip_spaces(text.bytes, end);
    Ok(KindRead { end, kind })
}

/// What is seen where a shape was read.
#[inline(always)]
pub fn seen_shape(read: ShapeRead) -> SeenRead
    ensures { SeesShape read result }
{
    let ShapeRead { end, shape } = read;
    match shape {
        Ok(shape) => SeenRead {
            end,
            seen: Ok(Seen::Shape(shape)),
        },
        Err(fault) => SeenRead {
            end,
            seen: Err(fault),
        },
    }
}

/// White space, the coordinates of a geometry of the kind, and white space, and what is seen of its shape: for `select`
/// that of `count`.
#[inline(always)]
fn coordinates_item(text: &Text<'_>, at: usize, kind: Kind) -> Result<SeenRead, Halt>
    requires inside { at ≤ length text.now.bytes.now }
    ensures { IfOk result (Sees text.now.algebra.now (IsCoordinatesItem text.now.algebra.now text.now.base text.now.bytes.now at kind)) }
{
    let Some(measure) = text.algebra.measure() else {
        return coordinates::<Keeps>(text, at, kind);
    };
    match measure {
        Measure::Count => coordinates::<Passes>(text, at, kind),
        Measure::Extent => coordinates::<Tallies<Spreads>>(text, at, kind),
        Measure::Area => coordinates::<Tallies<Sizes>>(text, at, kind),
    }
}

/// A geometry of two members, `type` and `coordinates`, from its opening bracket on, which stands at the place, and what
/// is seen of it.
pub fn read_geometry(text: &Text<'_>, at: usize) -> Result<SeenRead, Halt>
    requires inside { at < length text.now.bytes.now }
    requires opens { slice_index text.now.bytes.now at ≡ 0x7B }
    ensures { IfOk result (Sees text.now.algebra.now (IsGeometryRead text.now.algebra.now text.now.base text.now.bytes.now at)) }
{
    let first = field_name(text.bytes, at + 1)?;
    if !is_kind(first.field) {
        return Err(Halt::At(first.place.end));
    }
    let named = read_kind(text, first.place.colon + 1)?;
    expect_comma(text.bytes, named.end)?;
    let second = field_name(text.bytes, named.end + 1)?;
    if !is_coordinates(second.field) {
        return Err(Halt::At(second.place.end));
    }
    let SeenRead { end, seen } = coordinates_item(text, second.place.colon + 1, named.kind)?;
    if !stands(text.bytes, end, b'}') {
        return Err(Halt::At(end));
    }
    Ok(SeenRead { end: end + 1, seen })
}
