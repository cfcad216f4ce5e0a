//! Tables for the predicates, areas, extents and rules.

ghost use Rattle.std.specs.Prelude.{IfOk, OnOk, All};
ghost use Rattle.at_geom.specs.Segments.{IsInRange};
ghost use Rattle.at_geom.specs.Shapes.{ArePathsInRange, ArePolygonsInRange, IsShapeInRange};

use at_geom::{
    Extent, Path, Paths, Polygon, Polygons, Pos, Shape, all_in, doubled_area, extent, in_polygon,
    line_fault, orient, ring_fault, segments_meet, shapes_meet, shoelace_term,
};
use at_text::{Fault, FaultKind};
use std::alloc::{AllocError, Global};
use std::test::Fail;

/// The ends of two segments, and whether they have a common point. `cases/segment_cases.py` has the pairs and
/// works out the answers by exact arithmetic.
const SEGMENTS: [([i32; 8], bool); 42] = [
    // crossing
    ([0, 0, 4, 4, 0, 4, 4, 0], true),
    ([0, 0, 3, 1, 1, -1, 2, 2], true),
    ([0, 0, 7, 3, 1, 3, 5, 0], true),
    ([-5, -5, 5, 6, -5, 6, 6, -5], true),
    // crossing off the units
    ([0, 0, 3, 2, 1, 2, 2, 0], true),
    ([0, 0, 1, 1, 0, 1, 1, 0], true),
    // touching at an end
    ([0, 0, 4, 0, 2, 0, 2, 5], true),
    ([0, 0, 4, 0, 4, 0, 4, 5], true),
    ([0, 0, 4, 4, 2, 2, 9, 1], true),
    ([1, 2, 3, 6, 5, 5, 2, 4], true),
    // just short of touching
    ([0, 0, 4, 0, 2, 1, 2, 5], false),
    ([0, 0, 4, 4, 3, 2, 9, 1], false),
    ([0, 0, 7, 3, 4, 2, 4, 9], false),
    ([0, 0, 4, 4, 5, 5, 9, 0], false),
    // parallel
    ([0, 0, 4, 4, 0, 1, 4, 5], false),
    ([0, 0, 4, 0, 0, 1, 4, 1], false),
    ([0, 0, 0, 4, 1, 0, 1, 4], false),
    // on one line, apart
    ([0, 0, 1, 1, 2, 2, 3, 3], false),
    ([0, 0, 2, 0, 3, 0, 5, 0], false),
    ([0, 0, 0, 2, 0, 3, 0, 9], false),
    ([6, 3, 4, 2, 2, 1, 0, 0], false),
    // on one line, touching
    ([0, 0, 2, 2, 2, 2, 3, 3], true),
    ([0, 0, 0, 2, 0, 9, 0, 2], true),
    ([5, 0, 3, 0, 3, 0, 1, 0], true),
    // on one line, overlapping
    ([0, 0, 2, 2, 1, 1, 3, 3], true),
    ([0, 0, 0, 4, 0, 3, 0, 9], true),
    ([4, 2, 0, 0, 2, 1, 6, 3], true),
    // on one line, contained
    ([0, 0, 9, 3, 3, 1, 6, 2], true),
    ([3, 1, 6, 2, 9, 3, 0, 0], true),
    ([0, 0, 2, 2, 0, 0, 2, 2], true),
    // a position and a segment
    ([0, 0, 2, 2, 1, 1, 1, 1], true),
    ([1, 1, 1, 1, 0, 0, 2, 2], true),
    ([0, 0, 2, 2, 1, 2, 1, 2], false),
    ([0, 0, 2, 2, 3, 3, 3, 3], false),
    ([0, 0, 0, 4, 0, 5, 0, 5], false),
    ([0, 0, 3, 2, 1, 1, 1, 1], false),
    // two positions
    ([1, 1, 1, 1, 1, 1, 1, 1], true),
    ([1, 1, 1, 1, 1, 2, 1, 2], false),
    ([1, 1, 1, 1, 0, 0, 0, 0], false),
    // boxes that overlap, apart
    ([0, 0, 10, 1, 1, 1, 3, 9], false),
    ([0, 0, 10, 10, 6, 3, 9, 8], false),
    ([0, 5, 5, 0, 4, 4, 4, 2], false),
];

/// A square, and a square hole in it.
const EXTERIOR: [(i32, i32); 5] = [(0, 0), (10, 0), (10, 10), (0, 10), (0, 0)];

const HOLE: [(i32, i32); 5] = [(4, 4), (6, 4), (6, 6), (4, 6), (4, 4)];

/// Positions, and whether they are in the square without the hole.
const IN_SQUARE: [(i32, i32, bool); 12] = [
    (1, 1, true),
    (0, 5, true),
    (4, 5, true),
    (5, 5, false),
    (5, 4, true),
    (3, 4, true),
    (10, 10, true),
    (-1, 0, false),
    (-1, 10, false),
    (-1, 4, false),
    (11, 5, false),
    (5, -1, false),
];

/// A ring that touches itself in (4, 4).
const CORNERS: [(i32, i32); 7] = [(0, 0), (4, 4), (8, 0), (8, 8), (4, 4), (0, 8), (0, 0)];

/// Positions at the height of its corners, and whether they are in it.
const IN_CORNERS: [(i32, i32, bool); 5] = [
    (7, 4, true),
    (1, 4, true),
    (4, 4, true),
    (4, 5, false),
    (-1, 4, false),
];

/// A shape: points, at most one line, and at most one polygon.
#[derive(Clone, Copy)]
struct Parts {
    points: &'static [(i32, i32)],
    line: &'static [(i32, i32)],
    exterior: &'static [(i32, i32)],
    hole: &'static [(i32, i32)],
    meets: bool,
}

const EMPTY: Parts = Parts {
    points: &[],
    line: &[],
    exterior: &[],
    hole: &[],
    meets: false,
};

const MIXED: Parts = Parts {
    points: &[(3, -1)],
    line: &[(1, 7), (2, 2)],
    exterior: &HOLE,
    hole: &[],
    meets: false,
};

const WITH_HOLE: Parts = Parts {
    points: &[],
    line: &[],
    exterior: &EXTERIOR,
    hole: &HOLE,
    meets: true,
};

/// Shapes, and whether they meet the square with the hole.
const AROUND_SQUARE: [Parts; 10] = [
    // a point in the hole
    Parts {
        points: &[(5, 5)],
        ..EMPTY
    },
    // a point on the hole
    Parts {
        points: &[(4, 4)],
        meets: true,
        ..EMPTY
    },
    // a line across
    Parts {
        line: &[(-1, 5), (11, 5)],
        meets: true,
        ..EMPTY
    },
    // a line within
    Parts {
        line: &[(1, 1), (2, 2)],
        meets: true,
        ..EMPTY
    },
    // a line in the hole
    Parts {
        line: &[(5, 5), (5, 5)],
        ..EMPTY
    },
    // a polygon around
    Parts {
        exterior: &[(-9, -9), (90, -9), (-9, 90), (-9, -9)],
        meets: true,
        ..EMPTY
    },
    // a polygon beside
    Parts {
        exterior: &[(11, 0), (20, 0), (20, 10), (11, 0)],
        ..EMPTY
    },
    // an open exterior, whose only edge the rays of the square cross
    Parts {
        exterior: &[(30, -5), (30, 20)],
        meets: true,
        ..EMPTY
    },
    // nothing
    EMPTY,
    // the square itself
    Parts {
        exterior: &EXTERIOR,
        hole: &HOLE,
        meets: true,
        ..EMPTY
    },
];

fn at(x: i32, y: i32) -> Pos
    ensures { IsInRange result }
{
    Pos {
        x: i64::from(x),
        y: i64::from(y),
    }
}

fn path(alloc: Global, places: &[(i32, i32)]) -> Result<Path, AllocError>
    ensures { IfOk result (λ p. All IsInRange p) }
{
    let mut items = Vec::new(alloc);
    for place in places {
        items.push(at(place.0, place.1))?;
    }
    Ok(Path::from_vec(items))
}

fn push(paths: &mut Vec<Path>, path: Path) -> Result<(), AllocError>
    requires paths_in_range { ArePathsInRange paths.old.items }
    requires path_in_range { All IsInRange path }
    ensures { OnOk result (ArePathsInRange paths.new.items) }
{
    paths.push(path)?;
    Ok(())
}

/// The paths of two lists of places, without those that have none.
fn paths(alloc: Global, first: &[(i32, i32)], second: &[(i32, i32)]) -> Result<Paths, AllocError>
    ensures { IfOk result (λ p. ArePathsInRange p) }
{
    let mut items = Vec::new(alloc);
    if !first.is_empty() {
        push(&mut items, path(alloc, first)?)?;
    }
    if !second.is_empty() {
        push(&mut items, path(alloc, second)?)?;
    }
    Ok(Paths::from_vec(items))
}

fn polygon(
    alloc: Global,
    exterior: &[(i32, i32)],
    hole: &[(i32, i32)],
) -> Result<Polygon, AllocError>
    ensures { IfOk result (λ p. ArePathsInRange p.rings) }
{
    Ok(Polygon {
        rings: paths(alloc, exterior, hole)?,
    })
}

fn push_polygon(polygons: &mut Vec<Polygon>, polygon: Polygon) -> Result<(), AllocError>
    requires polygons_in_range { ArePolygonsInRange polygons.old.items }
    requires polygon_in_range { ArePathsInRange polygon.rings }
    ensures { OnOk result (ArePolygonsInRange polygons.new.items) }
{
    polygons.push(polygon)?;
    Ok(())
}

fn polygons(alloc: Global, parts: &Parts) -> Result<Polygons, AllocError>
    ensures { IfOk result ArePolygonsInRange }
{
    let mut items = Vec::new(alloc);
    if !parts.exterior.is_empty() {
        push_polygon(&mut items, polygon(alloc, parts.exterior, parts.hole)?)?;
    }
    Ok(Polygons::from_vec(items))
}

fn shape(alloc: Global, parts: &Parts) -> Result<Shape, AllocError>
    ensures { IfOk result IsShapeInRange }
{
    Ok(Shape {
        points: path(alloc, parts.points)?,
        lines: paths(alloc, parts.line, &[])?,
        polygons: polygons(alloc, parts)?,
    })
}

/// Three positions at the ends of the range.
const LOW: Pos = Pos {
    x: -300_000_000_000_000,
    y: -300_000_000_000_000,
};

const RIGHT: Pos = Pos {
    x: 300_000_000_000_000,
    y: -300_000_000_000_000,
};

const HIGH: Pos = Pos {
    x: 300_000_000_000_000,
    y: 299_999_999_999_999,
};

/// Whether three positions near the origin turn so.
fn turns(a: (i32, i32), b: (i32, i32), c: (i32, i32), expected: i8) -> bool {
    orient(at(a.0, a.1), at(b.0, b.1), at(c.0, c.1)) == expected
}

/// Which way three positions turn.
#[test]
fn orientations(rt: HostRuntime) {
    assert!(rt; turns((0, 0), (1, 0), (0, 1), 1), "left");
    assert!(rt; turns((0, 0), (0, 1), (1, 0), -1), "right");
    assert!(rt; turns((0, 0), (2, 1), (6, 3), 0), "on one line");
    assert!(rt; turns((3, 3), (3, 3), (-7, 1), 0), "twice the same");
}

/// Which way positions turn at the ends of the range.
#[test]
fn orientations_at_the_ends(rt: HostRuntime) {
    assert!(rt; orient(LOW, RIGHT, HIGH) == 1);
    assert!(rt; orient(LOW, at(0, 0), HIGH) == -1);
    assert!(rt; segments_meet(LOW, HIGH, RIGHT, at(0, 0)));
}

/// Whether each row is as it says, with the ends and the segments turned round too.
fn segments_are_as_told(rows: &[([i32; 8], bool)]) -> bool {
    for (ends, expected) in rows {
        let a = at(ends[0], ends[1]);
        let b = at(ends[2], ends[3]);
        let c = at(ends[4], ends[5]);
        let d = at(ends[6], ends[7]);
        if segments_meet(a, b, c, d) != *expected
            || segments_meet(b, a, c, d) != *expected
            || segments_meet(c, d, a, b) != *expected
        {
            return false;
        }
    }
    true
}

#[test]
fn common_points(rt: HostRuntime) {
    assert!(rt; segments_are_as_told(&SEGMENTS));
}

/// Whether each position is in the polygon exactly where its row says so.
fn positions_are_as_told(polygon: &Polygon, rows: &[(i32, i32, bool)]) -> bool
    requires { ArePathsInRange polygon.now.rings }
{
    for (x, y, expected) in rows {
        if in_polygon(at(*x, *y), polygon) != *expected {
            return false;
        }
    }
    true
}

/// Inside, on the exterior, on the hole, in the hole, outside at the height of a corner and of an edge.
#[test]
fn positions_in_a_polygon(rt: HostRuntime) -> Result<(), Fail> {
    let with_hole = polygon(rt.alloc(), &EXTERIOR, &HOLE)?;
    assert!(rt; positions_are_as_told(&with_hole, &IN_SQUARE));
    let with_corners = polygon(rt.alloc(), &CORNERS, &[])?;
    assert!(rt; positions_are_as_told(&with_corners, &IN_CORNERS));
    let empty = polygon(rt.alloc(), &[], &[])?;
    assert!(rt; positions_are_as_told(&empty, &[(0, 0, false)]));
    Ok(())
}

/// Twice the area of a polygon.
fn area(alloc: Global, exterior: &[(i32, i32)], hole: &[(i32, i32)]) -> Result<i128, AllocError> {
    let polygon = polygon(alloc, exterior, hole)?;
    Ok(doubled_area(&polygon))
}

const AROUND: [(i32, i32); 5] = [(0, 0), (2, 0), (2, 2), (0, 2), (0, 0)];

const BACK: [(i32, i32); 5] = [(0, 0), (0, 2), (2, 2), (2, 0), (0, 0)];

/// A square either way round, less a hole, and a hole that is larger than the exterior.
#[test]
fn areas(rt: HostRuntime) -> Result<(), Fail> {
    assert!(rt; area(rt.alloc(), &AROUND, &[])? == 8, "around");
    assert!(rt; area(rt.alloc(), &BACK, &[])? == 8, "back");
    assert!(rt; area(rt.alloc(), &EXTERIOR, &HOLE)? == 192, "less a hole");
    assert!(rt;
        area(rt.alloc(), &HOLE, &EXTERIOR)? == -192,
        "a larger hole"
    );
    assert!(rt; area(rt.alloc(), &[], &[])? == 0, "nothing");
    assert!(rt; shoelace_term(at(3, 1), at(1, 2)) == 5, "an edge");
    assert!(rt; shoelace_term(at(1, 2), at(3, 1)) == -5, "and back");
    Ok(())
}

/// The extent of a shape of all kinds, and which extents it is in.
#[test]
fn extents(rt: HostRuntime) -> Result<(), Fail> {
    let mixed = shape(rt.alloc(), &MIXED)?;
    let around = Extent {
        low: at(1, -1),
        high: at(6, 7),
    };
    let smaller = Extent {
        low: at(1, -1),
        high: at(6, 6),
    };
    assert!(rt; extent(&mixed) == Some(around));
    assert!(rt; all_in(&mixed, around));
    assert!(rt; !all_in(&mixed, smaller));
    assert!(rt; smaller.widened(at(6, 7)) == around, "above");
    assert!(rt; around.widened(at(3, 3)) == around, "inside");
    Ok(())
}

/// A shape without positions has no extent, is in none, and meets nothing.
#[test]
fn nothing(rt: HostRuntime) -> Result<(), Fail> {
    let empty = shape(rt.alloc(), &EMPTY)?;
    let around = Extent {
        low: at(0, 0),
        high: at(1, 1),
    };
    assert!(rt; extent(&empty).is_none());
    assert!(rt; !all_in(&empty, around));
    assert!(rt; !shapes_meet(&empty, &empty));
    Ok(())
}

/// Whether a fault is this one.
fn is_fault(found: Option<Fault>, kind: FaultKind, at: u32) -> bool {
    found == Some(Fault { kind, at })
}

/// What is wrong with lines and rings.
#[test]
fn faults(rt: HostRuntime) {
    assert!(rt;
        is_fault(line_fault(1, 9), FaultKind::Short, 9),
        "a short line"
    );
    assert!(rt; line_fault(2, 9).is_none(), "a line");
    assert!(rt;
        is_fault(ring_fault(3, true, 9), FaultKind::Ring, 9),
        "a short ring"
    );
    assert!(rt;
        is_fault(ring_fault(4, false, 9), FaultKind::Ring, 9),
        "an open ring"
    );
    assert!(rt; ring_fault(4, true, 9).is_none(), "a ring");
}

/// Whether two shapes meet exactly where it is told so, whichever comes first.
fn meet_as_told(one: &Shape, other: &Shape, meets: bool) -> bool
    requires one { IsShapeInRange one.now }
    requires other { IsShapeInRange other.now }
{
    shapes_meet(one, other) == meets && shapes_meet(other, one) == meets
}

/// The number of the first row that meets the shape where it says otherwise.
fn first_wrong_meeting(
    alloc: Global,
    shape_one: &Shape,
    rows: &[Parts],
) -> Result<Option<usize>, AllocError>
    requires { IsShapeInRange shape_one.now }
{
    for row in 0..rows.len() {
        let other = shape(alloc, &rows[row])?;
        if !meet_as_told(shape_one, &other, rows[row].meets) {
            return Ok(Some(row));
        }
    }
    Ok(None)
}

#[test]
fn meetings(rt: HostRuntime) -> Result<(), Fail> {
    let with_hole = shape(rt.alloc(), &WITH_HOLE)?;
    if let Some(row) = first_wrong_meeting(rt.alloc(), &with_hole, &AROUND_SQUARE)? {
        panic!(rt; "row {row}");
    }
    Ok(())
}

/// Whether a path has so many positions, and gives them back.
fn keeps_positions(path: Path, count: usize) -> bool {
    path.as_slice().len() == count && path.into_vec().len() == count
}

fn keeps_paths(paths: Paths, count: usize) -> bool {
    paths.as_slice().len() == count && paths.into_vec().len() == count
}

fn keeps_polygons(polygons: Polygons, count: usize) -> bool {
    polygons.as_slice().len() == count && polygons.into_vec().len() == count
}

/// A list is the list that was handed in, and gives it back.
#[test]
fn lists(rt: HostRuntime) -> Result<(), Fail> {
    assert!(rt;
        keeps_positions(path(rt.alloc(), &[(1, 2)])?, 1),
        "positions"
    );
    assert!(rt;
        keeps_paths(paths(rt.alloc(), &EXTERIOR, &HOLE)?, 2),
        "paths"
    );
    let none = Polygons::from_vec(Vec::new(rt.alloc()));
    assert!(rt; keeps_polygons(none, 0), "polygons");
    Ok(())
}

/// What the page of `at_geom` shows.
#[test]
fn the_example_of_the_crate(rt: HostRuntime) -> Result<(), Fail> {
    let alloc = rt.alloc();
    let low = Pos { x: 0, y: 0 };
    let right = Pos { x: 3, y: 0 };
    let high = Pos { x: 3, y: 1 };
    assert!(rt; orient(low, right, high) == 1);
    let ring = Path::from_vec(vec![in alloc; low, right, high, low]?);
    let triangle = Polygon {
        rings: Paths::from_vec(vec![in alloc; ring]?),
    };
    assert!(rt; doubled_area(&triangle) == 3);
    Ok(())
}
