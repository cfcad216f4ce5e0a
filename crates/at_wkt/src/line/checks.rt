//! Plain geometries without a fault: they are passed over, and what they cover isn't kept. For all others the answer is
//! None.

ghost use Rattle.std.specs.Prelude.{◌≡◌, ◌+◌, ◌<◌, ◌≤◌, IsTrue, IfSome, None, length, take};
ghost use Rattle.at_geom.specs.declared.shapes.Shape.{Shape};
ghost use Rattle.at_wkt.specs.Answers.{HasLineShape};
ghost use Rattle.at_wkt.specs.Geometry.{SpellsArea, SpellsList, SpellsPoint, SpellsRing};
ghost use Rattle.at_wkt.specs.Meaning.{faults_of_area};
ghost use Rattle.at_wkt.specs.Positions.{faults_of_ring};
ghost use Rattle.at_wkt.specs.Readers.{next, ends_same, HasCount, IsEndedList, IsPassedGeometry, IsPassedBody};
ghost use Rattle.at_wkt.specs.Readers.{IsPassedList, IsPassedRow, PassesItem, PassesPart, line_faults, point_faults};

use crate::line::bytes::{skip_blanks, stands};
use crate::line::kinds::{Head, Kind, read_head};
use crate::line::parts::{ItemRead, Read, end_item, first_item, items_read, next_item};
use crate::line::paths::closes_with;
use crate::line::positions::{NumbersRead, PositionRead, pass_position, plain_position};
use crate::line::sites::{
    LINE_FIRST, LINE_FURTHER, PASSED_POINT, RING_FIRST, RING_FURTHER, RING_LAST,
};
use crate::line::sources::{Place, Source};
use at_geom::{line_fault, ring_fault};

/// A list of positions that was passed over: how many, whether it closes, and the place behind it.
#[derive(Clone, Copy)]
struct ListPassed {
    count: u32,
    closes: bool,
    behind: Place,
}

/// The list of so many positions with this first one and this last.
#[inline(always)]
fn list_passed(first: PositionRead, last: PositionRead, count: u32) -> ListPassed
    ensures { result ≡ record { count = count; closes = ends_same first last; behind = last.behind } }
{
    ListPassed {
        count,
        closes: closes_with(first, last),
        behind: last.behind,
    }
}

/// The list that ends with the position at the place, which is read for whether it closes with the first one.
#[inline(always)]
fn end_list(source: &Source, from: Place, first: PositionRead, count: u32) -> Option<ListPassed>
    requires inside { from.at ≤ length source.now.text.now }
    requires count { HasCount from.dimension }
    ensures { IfSome result (IsEndedList source.now.rules source.now.text.now from.at from.dimension first count) }
{
    let last = plain_position::<RING_LAST>(source, from)?;
    if last.is_last {
        Some(list_passed(first, last, count))
    } else {
        None
    }
}

/// Passes over positions up to the closing bracket. The first and the last are read, for whether they close.
fn pass_positions(source: &Source, from: Place) -> Option<ListPassed>
    requires inside { from.at ≤ length source.now.text.now }
    requires count { HasCount from.dimension }
    ensures { IfSome result (IsPassedList source.now.rules source.now.text.now from.at from.dimension) }
{
    let first = plain_position::<RING_FIRST>(source, from)?;
    if first.is_last {
        return Some(list_passed(first, first, 1));
    }
    let mut next = first.behind;
    let mut count = 1;
    'positions: loop {
        let passed = pass_position::<RING_FURTHER>(source, next)?;
        if passed.is_last {
            let list = end_list(source, next, first, count + 1)?;
            return Some(list);
        }
        next = passed.behind;
        count += 1;
    }
}

/// Positions that were passed over up to the closing bracket: the last of them, and how many.
#[derive(Clone, Copy)]
struct RowPassed {
    last: NumbersRead,
    count: u32,
}

/// Passes over positions up to the closing bracket, whether they close or not.
fn pass_row(source: &Source, from: Place) -> Option<RowPassed>
    requires inside { from.at ≤ length source.now.text.now }
    requires count { HasCount from.dimension }
    ensures { IfSome result (IsPassedRow source.now.rules source.now.text.now from.at from.dimension) }
{
    let mut last = pass_position::<LINE_FIRST>(source, from)?;
    let mut count = 1;
    'positions: while !last.is_last {
        last = pass_position::<LINE_FURTHER>(source, last.behind)?;
        count += 1;
    }
    Some(RowPassed { last, count })
}

/// Passes over a position in brackets, the opening one of which stands at the place.
fn pass_point(source: &Source, from: Place) -> Option<Read>
    requires inside { from.at < length source.now.text.now }
    requires opener { next source.now.text.now from.at ≡ 0x28 }
    requires count { HasCount from.dimension }
    ensures { PassesPart SpellsPoint point_faults source.now.rules source.now.text.now from result }
{
    let inside = Place {
        at: from.at + 1,
        ..from
    };
    let position = pass_position::<PASSED_POINT>(source, inside)?;
    if position.is_last {
        Some(Read {
            fault: None,
            behind: position.behind,
        })
    } else {
        None
    }
}

/// Passes over the positions of a line in brackets, the opening one of which stands at the place.
fn pass_line_string(source: &Source, from: Place) -> Option<Read>
    requires inside { from.at < length source.now.text.now }
    requires opener { next source.now.text.now from.at ≡ 0x28 }
    requires count { HasCount from.dimension }
    ensures { PassesPart SpellsList line_faults source.now.rules source.now.text.now from result }
{
    let inside = Place {
        at: from.at + 1,
        ..from
    };
    let row = pass_row(source, inside)?;
    match line_fault(row.count, source.rules.base + from.at as u32) {
        None => Some(Read {
            fault: None,
            behind: row.last.behind,
        }),
        Some(_) => None,
    }
}

/// Passes over a ring from its opening bracket, which stands at the place, to its closing one.
fn pass_closed(source: &Source, from: Place) -> Option<Read>
    requires inside { from.at < length source.now.text.now }
    requires opener { next source.now.text.now from.at ≡ 0x28 }
    requires count { HasCount from.dimension }
    ensures { PassesPart SpellsRing faults_of_ring source.now.rules source.now.text.now from result }
{
    let inside = Place {
        at: from.at + 1,
        ..from
    };
    let list = pass_positions(source, inside)?;
    match ring_fault(list.count, list.closes, source.rules.base + from.at as u32) {
        None => Some(Read {
            fault: None,
            behind: list.behind,
        }),
        Some(_) => None,
    }
}

/// Passes over a ring and its delimiter.
fn pass_ring(source: &Source, from: Place) -> Option<ItemRead>
    requires inside { from.at ≤ length source.now.text.now }
    requires count { HasCount from.dimension }
    ensures { PassesItem SpellsRing faults_of_ring source.now.rules source.now.text.now from result }
{
    let start = skip_blanks(source.text, from.at);
    if !stands(source.text, start, b'(') {
        return None;
    }
    let ring = pass_closed(source, Place { at: start, ..from })?;
    match end_item(source.text, ring) {
        Ok(item) => Some(item),
        Err(_) => None,
    }
}

/// Passes over the rings of a polygon in brackets, the opening one of which stands at the place.
fn pass_polygon(source: &Source, from: Place) -> Option<Read>
    requires inside { from.at < length source.now.text.now }
    requires opener { next source.now.text.now from.at ≡ 0x28 }
    requires count { HasCount from.dimension }
    ensures { PassesPart SpellsArea faults_of_area source.now.rules source.now.text.now from result }
{
    let mut last = first_item(Place {
        at: from.at + 1,
        ..from
    });
    'rings: while !last.is_last {
        let ring = pass_ring(source, last.behind)?;
        last = next_item(last, ring);
    }
    Some(items_read(last))
}

/// Passes over what stands behind the head of a point, a line or a polygon.
fn pass_body(source: &Source, head: Head) -> Option<Read>
    requires inside { head.behind.at ≤ length source.now.text.now }
    requires count { HasCount head.behind.dimension }
    ensures { IfSome result (IsPassedBody source.now.rules.digits source.now.rules.how source.now.rules.base
        source.now.text.now head) }
{
    if !stands(source.text, head.behind.at, b'(') {
        return None;
    }
    match head.kind {
        Kind::Point => pass_point(source, head.behind),
        Kind::LineString => pass_line_string(source, head.behind),
        Kind::Polygon => pass_polygon(source, head.behind),
        _ => None,
    }
}

/// Passes over blanks and a geometry, and tells the place behind it.
fn pass_geometry(source: &Source, at: usize) -> Option<usize>
    requires inside { at ≤ length source.now.text.now }
    ensures { IfSome result (IsPassedGeometry source.now.rules source.now.text.now at) }
{
    match read_head(source.text, at) {
        Ok(head) => {
            let body = pass_body(source, head)?;
            Some(body.behind.at)
        }
        Err(_) => None,
    }
}

/// Whether the line that has the first `len` of the bytes is a plain geometry without a fault. For some such lines it
/// says no. What stands behind the line is looked at together with its last bytes.
pub fn is_plain_line(ahead: &Source, len: usize) -> bool
    requires inside { len ≤ length ahead.now.text.now }
    ensures { IsTrue result → (shape : Shape)
        × HasLineShape ahead.now.rules.digits ahead.now.rules.how ahead.now.rules.base (take len ahead.now.text.now)
        shape }
{
    let start = skip_blanks(ahead.text, 0);
    match pass_geometry(ahead, start) {
        Some(end) => skip_blanks(ahead.text, end) == len,
        None => false,
    }
}
