//! What queries look at, and what is told of positions in place of their lists.

use super::*;
use at_fixed::Coords;
use at_query::{Measure, Tally, needs_shapes, needs_texts, query_measure, read_query, text_tests};

/// Query lines, whether they need shapes, how many of their tests look at texts, and what they ask of positions.
static LINES: [(&str, bool, usize, Option<Measure>); 10] = [
    ("select", false, 0, Some(Measure::Count)),
    ("count", false, 0, Some(Measure::Count)),
    ("area", true, 0, Some(Measure::Area)),
    ("extent", true, 0, Some(Measure::Extent)),
    ("hull", true, 0, None),
    ("join", true, 0, None),
    (
        r#"select where has "a" = "b" and has "c" = "d""#,
        false,
        2,
        Some(Measure::Count),
    ),
    (r#"area where has "a" = "b""#, true, 1, Some(Measure::Area)),
    ("count where in box(0 0,1 1)", true, 0, None),
    (
        r#"extent where has "a" = "b" and meets POINT (1 2)"#,
        true,
        1,
        None,
    ),
];

#[test]
fn what_queries_look_at(rt: HostRuntime) -> Result<(), Fail> {
    for row in &LINES {
        let query = read_query(rt.alloc(), row.0.as_bytes(), 7, Coords::Exact)?;
        let tests = query.tests.as_slice();
        assert!(rt; needs_shapes(&query) == row.1);
        assert!(rt; needs_texts(tests) == (row.2 > 0));
        assert!(rt; text_tests(tests) == row.2);
        assert!(rt; query_measure(&query) == row.3);
    }
    Ok(())
}

/// What is told of four positions one by one.
fn told(measure: Measure, before: Option<Extent>, ring: [(i32, i32); 4]) -> Tally {
    let a = place(ring[0].0, ring[0].1);
    let b = place(ring[1].0, ring[1].1);
    let c = place(ring[2].0, ring[2].1);
    let d = place(ring[3].0, ring[3].1);
    let tally = Tally::of_first(measure, before, a).with(measure, a, b);
    tally.with(measure, b, c).with(measure, c, d)
}

/// What is told of a triangle with a hole that goes the other way round, and of a second triangle: their doubled areas
/// are 100, 4 and 16.
fn polygons_told(measure: Measure) -> Tally {
    let exterior = told(measure, None, [(0, 0), (10, 0), (10, 10), (0, 0)]).of_ring();
    let hole = told(measure, exterior.extent, [(4, 1), (4, 3), (6, 3), (4, 1)]).of_ring();
    let first = exterior.with_hole(hole);
    let second = told(measure, first.extent, [(20, 0), (24, 0), (24, 4), (20, 0)]);
    first.with_polygon(second.of_ring())
}

#[test]
fn tallies(rt: HostRuntime) -> Result<(), Fail> {
    let around = Some(Extent {
        low: place(0, 0),
        high: place(24, 10),
    });
    let areas = polygons_told(Measure::Area);
    assert!(rt; areas.area == 112);
    assert!(rt; areas.extent.is_none());
    assert!(rt; areas.flat().area == 0);
    let extents = polygons_told(Measure::Extent);
    assert!(rt; extents.area == 0);
    assert!(rt; extents.extent == around);
    assert!(rt; extents.flat().extent == around);
    let counted = polygons_told(Measure::Count);
    assert!(rt; counted.area == 0);
    assert!(rt; counted.extent.is_none());
    Ok(())
}
