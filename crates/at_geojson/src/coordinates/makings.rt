//! Plain coordinates, read at once, whatever is made of them: lists of positions, arrays of such lists and of these, and
//! the coordinates of each kind of geometry.

ghost use Rattle.std.specs.Prelude.{◌≡◌, ◌+◌, ◌<◌, ◌≤◌, length, slice_index, IfOk};
ghost use Rattle.at_geojson.specs.Makings.{MakesLine, MakesLineItem, MakesLines, MakesLinesItem, MakesPolygons};
ghost use Rattle.at_geojson.specs.PlainGeometries.{seen_unless, IsCoordinatesItem, Sees};

use crate::at_once::plain_geometries::{Seen, SeenRead};
use crate::coordinates::makers::Maker;
use crate::coordinates::pairs::{Margins, margins_of, one_more};
use crate::coordinates::spots::{Reads, Stretch};
use crate::text::Text;
use at_geom::{line_fault, ring_fault};
use at_scan::{Kind, expect_comma, opening, skip_spaces, stands};
use at_text::{Fault, Halt, first_fault};

/// A list of positions that was read: its offset, the least offset of its items, the place behind it, its first faults
/// as a line and as a ring, and what is made of it.
#[derive(Drop)]
pub struct LineMade<L> {
    pub at: u32,
    pub least: u32,
    pub end: usize,
    pub as_line: Option<Fault>,
    pub as_ring: Option<Fault>,
    pub made: L,
}

/// An array of lists of positions that was read: its offset, that of the first list, the place behind it, its first
/// faults as lines and as rings, and what is made of it.
#[derive(Drop)]
pub struct LinesMade<L> {
    pub at: u32,
    pub least: u32,
    pub end: usize,
    pub as_lines: Option<Fault>,
    pub as_rings: Option<Fault>,
    pub made: L,
}

/// An array of areas that was read: its offset, that of the first area, the place behind it, its first fault, and what is
/// made of it.
#[derive(Drop)]
pub struct AreasMade<L> {
    pub at: u32,
    pub least: u32,
    pub end: usize,
    pub fault: Option<Fault>,
    pub made: L,
}

/// A list of positions, from its opening bracket on, which stands at the place, behind what was made before it.
#[inline(never)]
pub fn positions<S: Maker>(
    text: &Text<'_>,
    before: S::Before,
    at: usize,
) -> Result<LineMade<S::Line>, Halt>
    requires inside { at < length text.now.bytes.now }
    requires opens { slice_index text.now.bytes.now at ≡ 0x5B }
    ensures { IfOk result (MakesLine S.tells before text.now.algebra.now text.now.base text.now.bytes.now at) }
{
    // a copy of its own stays in registers
    let near = *text;
    let Some(first) = S::Reader::read(&near, at + 1, Margins::UNKNOWN) else {
        return Err(Halt::At(at + 1));
    };
    let margins = margins_of(at, first.bracket, first.number);
    let mut made = S::first(text.alloc, before, first.mark)?;
    let mut last = first;
    let mut place = at + 1;
    let mut count = 1;
    'positions: while !stands(near.bytes, last.end, b']') {
        expect_comma(near.bytes, last.end)?;
        let Some(next) = S::Reader::read(&near, last.end + 1, margins) else {
            return Err(Halt::At(last.end));
        };
        S::next(&mut made, last.mark, next.mark)?;
        place = last.end + 1;
        count = one_more(count);
        last = next;
    }
    let Some(closes) = S::Reader::closes(
        text,
        Stretch {
            from: at + 1,
            to: first.end,
        },
        first.mark,
        Stretch {
            from: place,
            to: last.end,
        },
        last.mark,
    ) else {
        return Err(Halt::At(last.end));
    };
    let offset = text.base + at as u32;
    Ok(LineMade {
        at: offset,
        least: text.base + first.bracket as u32,
        end: last.end + 1,
        as_line: line_fault(count, offset),
        as_ring: ring_fault(count, closes, offset),
        made,
    })
}

/// White space, a list of positions and white space.
#[inline(always)]
fn positions_item<S: Maker>(
    text: &Text<'_>,
    before: S::Before,
    at: usize,
) -> Result<LineMade<S::Line>, Halt>
    requires inside { at ≤ length text.now.bytes.now }
    ensures { IfOk result (MakesLineItem S.tells before text.now.algebra.now text.now.base text.now.bytes.now at) }
{
    let first = opening(text.bytes, at)?;
    let mut line = positions::<S>(text, before, first)?;
    line.end = skip_spaces(text.bytes, line.end);
    Ok(line)
}

/// An array of lists of positions, from its opening bracket on, which stands at the place, behind what was made before
/// it.
pub fn lists<S: Maker>(
    text: &Text<'_>,
    before: S::Before,
    at: usize,
) -> Result<LinesMade<S::Lines>, Halt>
    requires inside { at < length text.now.bytes.now }
    requires opens { slice_index text.now.bytes.now at ≡ 0x5B }
    ensures { IfOk result (MakesLines S.tells_lines before text.now.algebra.now text.now.base text.now.bytes.now at) }
{
    let first = positions_item::<S>(text, before, at + 1)?;
    let least = first.at;
    let mut end = first.end;
    let mut as_lines = first.as_line;
    let mut as_rings = first.as_ring;
    let mut made = S::first_line(text.alloc, first.made)?;
    'lists: while !stands(text.bytes, end, b']') {
        expect_comma(text.bytes, end)?;
        let around = S::around_lines(&made);
        let next = positions_item::<S>(text, around, end + 1)?;
        end = next.end;
        as_lines = first_fault(as_lines, next.as_line);
        as_rings = first_fault(as_rings, next.as_ring);
        S::add_line(&mut made, next.made)?;
    }
    Ok(LinesMade {
        at: text.base + at as u32,
        least,
        end: end + 1,
        as_lines,
        as_rings,
        made,
    })
}

/// White space, an area and white space.
#[inline(always)]
fn lists_item<S: Maker>(
    text: &Text<'_>,
    before: S::Before,
    at: usize,
) -> Result<LinesMade<S::Lines>, Halt>
    requires inside { at ≤ length text.now.bytes.now }
    ensures { IfOk result (MakesLinesItem S.tells_lines before text.now.algebra.now text.now.base text.now.bytes.now at) }
{
    let first = opening(text.bytes, at)?;
    let mut read = lists::<S>(text, before, first)?;
    read.end = skip_spaces(text.bytes, read.end);
    Ok(read)
}

/// An array of areas, from its opening bracket on, which stands at the place, behind what was made before it.
pub fn areas<S: Maker>(
    text: &Text<'_>,
    before: S::Before,
    at: usize,
) -> Result<AreasMade<S::Areas>, Halt>
    requires inside { at < length text.now.bytes.now }
    requires opens { slice_index text.now.bytes.now at ≡ 0x5B }
    ensures { IfOk result (MakesPolygons S.tells_areas before text.now.algebra.now text.now.base text.now.bytes.now at) }
{
    let first = lists_item::<S>(text, before, at + 1)?;
    let least = first.at;
    let mut end = first.end;
    let mut fault = first.as_rings;
    let mut made = S::first_area(text.alloc, first.made)?;
    'areas: while !stands(text.bytes, end, b']') {
        expect_comma(text.bytes, end)?;
        let around = S::around_areas(&made);
        let next = lists_item::<S>(text, around, end + 1)?;
        end = next.end;
        fault = first_fault(fault, next.as_rings);
        S::add_area(&mut made, next.made)?;
    }
    Ok(AreasMade {
        at: text.base + at as u32,
        least,
        end: end + 1,
        fault,
        made,
    })
}

/// What is seen of a shape that was read up to the place, or its fault where it has one.
#[inline(always)]
fn seen_read(end: usize, fault: Option<Fault>, seen: Seen) -> SeenRead
    ensures end { result.end ≡ end }
    ensures seen { result.seen ≡ seen_unless fault seen }
{
    match fault {
        Some(fault) => SeenRead {
            end,
            seen: Err(fault),
        },
        None => SeenRead {
            end,
            seen: Ok(seen),
        },
    }
}

/// White space, the coordinates of a point, and white space.
#[inline(always)]
fn point<S: Maker>(text: &Text<'_>, at: usize) -> Result<SeenRead, Halt>
    requires inside { at ≤ length text.now.bytes.now }
    requires served { S.serves text.now.algebra.now.query }
    ensures { IfOk result (Sees text.now.algebra.now (IsCoordinatesItem text.now.algebra.now text.now.base text.now.bytes.now at Kind.Point)) }
{
    let Some(spot) = S::Reader::read(text, at, Margins::UNKNOWN) else {
        return Err(Halt::At(at));
    };
    let seen = S::see_points(text.alloc, S::alone(text.alloc, spot.mark)?);
    Ok(seen_read(spot.end, None, seen))
}

/// White space, the coordinates of polygons, and white space.
fn multi_polygon<S: Maker>(text: &Text<'_>, at: usize) -> Result<SeenRead, Halt>
    requires inside { at ≤ length text.now.bytes.now }
    requires served { S.serves text.now.algebra.now.query }
    ensures { IfOk result (Sees text.now.algebra.now (IsCoordinatesItem text.now.algebra.now text.now.base text.now.bytes.now at Kind.MultiPolygon)) }
{
    let first = opening(text.bytes, at)?;
    let read = areas::<S>(text, S::nothing(), first)?;
    let seen = S::see_areas(text.alloc, read.made);
    Ok(seen_read(skip_spaces(text.bytes, read.end), read.fault, seen))
}

/// White space, the coordinates of a geometry of the kind, and white space, and what is seen of its shape.
pub fn coordinates<S: Maker>(text: &Text<'_>, at: usize, kind: Kind) -> Result<SeenRead, Halt>
    requires inside { at ≤ length text.now.bytes.now }
    requires served { S.serves text.now.algebra.now.query }
    ensures { IfOk result (Sees text.now.algebra.now (IsCoordinatesItem text.now.algebra.now text.now.base text.now.bytes.now at kind)) }
{
    match kind {
        Kind::Point => point::<S>(text, at),
        Kind::MultiPoint => {
            let read = positions_item::<S>(text, S::nothing(), at)?;
            Ok(seen_read(read.end, None, S::see_points(text.alloc, read.made)))
        }
        Kind::LineString => {
            let read = positions_item::<S>(text, S::nothing(), at)?;
            let lines = S::first_line(text.alloc, read.made)?;
            Ok(seen_read(read.end, read.as_line, S::see_lines(text.alloc, lines)))
        }
        Kind::MultiLineString => {
            let read = lists_item::<S>(text, S::nothing(), at)?;
            Ok(seen_read(read.end, read.as_lines, S::see_lines(text.alloc, read.made)))
        }
        Kind::Polygon => {
            let read = lists_item::<S>(text, S::nothing(), at)?;
            let areas = S::first_area(text.alloc, read.made)?;
            Ok(seen_read(read.end, read.as_rings, S::see_areas(text.alloc, areas)))
        }
        Kind::MultiPolygon => multi_polygon::<S>(text, at),
        _ => Err(Halt::At(at)),
    }
}
