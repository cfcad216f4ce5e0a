//! Coordinates that are written plainly, read at once: lists of positions, arrays of such lists, and arrays of these.

ghost use Rattle.std.specs.Prelude.{◌≡◌, ◌<◌, length, slice_index, IfOk};
ghost use Rattle.at_geojson.specs.Values.{IsWhole};

use crate::atoms::atom::{Areas, AreasAtom, GeoAtom, Lists, ListsAtom, Points, PointsAtom};
use crate::coordinates::makers::{Keeps, Lister, Passes};
use crate::coordinates::makings::{areas, lists, positions};
use crate::coordinates::pairs::Whole;
use crate::text::Text;
use at_scan::{brackets_ahead, skip_spaces, stands};
use at_text::Halt;

/// A list of positions as a value.
fn points_value<S: Lister>(text: &Text<'_>, at: usize) -> Result<Whole, Halt>
    requires inside { at < length text.now.bytes.now }
    requires opens { slice_index text.now.bytes.now at ≡ 0x5B }
    requires served { S.serves text.now.algebra.now.query }
    ensures { IfOk result (IsWhole text.now.algebra.now text.now.base text.now.bytes.now at) }
{
    let read = positions::<S>(text, S::nothing(), at)?;
    let kept = Points {
        path: S::path(text.alloc, read.made),
        as_points: None,
        as_line: read.as_line,
        as_ring: read.as_ring,
    };
    let points = Box::new(text.alloc, kept)?;
    Ok(Whole {
        end: read.end,
        atom: GeoAtom::Points(PointsAtom {
            at: read.at,
            least: read.least,
            points,
        }),
    })
}

/// An array of lists of positions as a value.
fn lists_value<S: Lister>(text: &Text<'_>, at: usize) -> Result<Whole, Halt>
    requires inside { at < length text.now.bytes.now }
    requires opens { slice_index text.now.bytes.now at ≡ 0x5B }
    requires served { S.serves text.now.algebra.now.query }
    ensures { IfOk result (IsWhole text.now.algebra.now text.now.base text.now.bytes.now at) }
{
    let read = lists::<S>(text, S::nothing(), at)?;
    let kept = Lists {
        paths: S::paths(text.alloc, read.made),
        as_lines: read.as_lines,
        as_rings: read.as_rings,
    };
    let lists = Box::new(text.alloc, kept)?;
    Ok(Whole {
        end: read.end,
        atom: GeoAtom::Lists(ListsAtom {
            at: read.at,
            least: read.least,
            lists,
        }),
    })
}

/// An array of areas as a value.
fn areas_value<S: Lister>(text: &Text<'_>, at: usize) -> Result<Whole, Halt>
    requires inside { at < length text.now.bytes.now }
    requires opens { slice_index text.now.bytes.now at ≡ 0x5B }
    requires served { S.serves text.now.algebra.now.query }
    ensures { IfOk result (IsWhole text.now.algebra.now text.now.base text.now.bytes.now at) }
{
    let read = areas::<S>(text, S::nothing(), at)?;
    let kept = Areas {
        polygons: S::polygons(text.alloc, read.made),
        fault: read.fault,
    };
    let areas = Box::new(text.alloc, kept)?;
    Ok(Whole {
        end: read.end,
        atom: GeoAtom::Areas(AreasAtom {
            at: read.at,
            least: read.least,
            areas,
        }),
    })
}

/// Coordinates as a value: a list of positions, an array of such lists, or an array of these. The brackets tell which.
fn value<S: Lister>(text: &Text<'_>, at: usize) -> Result<Whole, Halt>
    requires inside { at < length text.now.bytes.now }
    requires opens { slice_index text.now.bytes.now at ≡ 0x5B }
    requires served { S.serves text.now.algebra.now.query }
    ensures { IfOk result (IsWhole text.now.algebra.now text.now.base text.now.bytes.now at) }
{
    match brackets_ahead(text.bytes, at) {
        2 => points_value::<S>(text, at),
        3 => lists_value::<S>(text, at),
        4 => areas_value::<S>(text, at),
        _ => Err(Halt::At(at)),
    }
}

/// Coordinates of positions of two numbers that are written plainly, from their opening bracket on, which stands at the
/// place: a list of positions, an array of such lists, or an array of these.
pub fn read_coordinates(text: &Text<'_>, at: usize) -> Result<Whole, Halt>
    requires inside { at < length text.now.bytes.now }
    requires opens { slice_index text.now.bytes.now at ≡ 0x5B }
    ensures { IfOk result (IsWhole text.now.algebra.now text.now.base text.now.bytes.now at) }
{
    if text.algebra.needs_shapes() {
        return value::<Keeps>(text, at);
    }
    value::<Passes>(text, at)
}
