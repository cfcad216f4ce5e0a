//! Positions one behind another in an array, and what stands between them.

use crate::tests::{Row, compare_rows, told};
use at_fixed::Coords;
use std::alloc::Global;
use std::process::Abort;
use std::test::Fail;

/// Lists of positions, wherever they are cut.
#[test]
fn positions(rt: HostRuntime) -> Result<(), Fail> {
    let rows: [Row; 7] = [
        (
            "join",
            "{\"type\":\"LineString\",\"coordinates\":[[1,2],[3,4],[5,6],[7,8],[9,10,11]]}",
            "0: | 1,2 3,4 5,6 7,8 9,10\n",
        ),
        (
            "join",
            "{\"type\":\"MultiPoint\",\"coordinates\":[[1,2],[3,4],[5,6],[7,8],[9,10,11]]}",
            "0: 1,2 3,4 5,6 7,8 9,10\n",
        ),
        (
            "count",
            "{\"type\":\"LineString\",\"coordinates\":[[1,2],[3,4],[5,6],[7,8],[9,10,11]]}",
            "1\n",
        ),
        (
            "join",
            "{\"type\":\"Polygon\",\"coordinates\":[[[0,0],[4,0],[4,4],[0,4],[0,0]]]}",
            "0: # 0,0 4,0 4,4 0,4 0,0\n",
        ),
        (
            "area",
            "{\"type\":\"Polygon\",\"coordinates\":[[[0,0],[4,0],[4,4],[0,4],[0,0]]]}",
            "3200000000000000\n",
        ),
        (
            "join",
            "{\"type\":\"MultiPolygon\",\"coordinates\":[[[[0,0],[4,0],[4,4],[0,0]],[[1,1],[2,1],[2,2],[1,1]]],[[[5,5],[6,5],[6,6],[5,5]]]]}",
            "0: # 0,0 4,0 4,4 0,0 # 1,1 2,1 2,2 1,1 # 5,5 6,5 6,6 5,5\n",
        ),
        (
            "join",
            "{\"type\":\"MultiLineString\",\"coordinates\":[[[1,1],[2,2],[3,3]],[[4,4],[5,5]],[[6,6],[7,7],[8,8]]]}",
            "0: | 1,1 2,2 3,3 | 4,4 5,5 | 6,6 7,7 8,8\n",
        ),
    ];
    compare_rows(&rt, &rows)
}

/// Rings that are open or short, short lines, and values that are out of range: a ring of which the first or the last
/// position has no value is not tested for being closed.
#[test]
fn faults_in_lists(rt: HostRuntime) -> Result<(), Fail> {
    let rows: [Row; 13] = [
        (
            "area",
            "{\"type\":\"Polygon\",\"coordinates\":[[[0,0],[4,0],[4,4],[0,4],[0,1]]]}",
            "Ring at 33",
        ),
        (
            "count",
            "{\"type\":\"Polygon\",\"coordinates\":[[[0,0],[4,0],[4,4],[1,4],[1,0]]]}",
            "Ring at 33",
        ),
        (
            "count",
            "{\"type\":\"Polygon\",\"coordinates\":[[[0,0],[1,0],[0,0]]]}",
            "Ring at 33",
        ),
        (
            "area",
            "{\"type\":\"Polygon\",\"coordinates\":[[[0,0],[1,1]]]}",
            "Ring at 33",
        ),
        (
            "count",
            "{\"type\":\"LineString\",\"coordinates\":[[5,6]]}",
            "Short at 35",
        ),
        (
            "extent",
            "{\"type\":\"LineString\",\"coordinates\":[[0,0],[1,1],[40000000,1],[2,2],[0,50000000]]}",
            "Range at 49",
        ),
        (
            "extent",
            "{\"type\":\"MultiPoint\",\"coordinates\":[[0,0],[1,40000000],[2,2]]}",
            "Range at 45",
        ),
        (
            "area",
            "{\"type\":\"Polygon\",\"coordinates\":[[[40000000,0],[1,0],[1,1],[2,2]]]}",
            "Range at 35",
        ),
        (
            "area",
            "{\"type\":\"Polygon\",\"coordinates\":[[[0,0],[1,0],[1,1],[2,40000000]]]}",
            "Range at 55",
        ),
        (
            "area",
            "{\"type\":\"Polygon\",\"coordinates\":[[[0,0],[1,0],[1,40000000],[2,2],[3,3]]]}",
            "Ring at 33",
        ),
        (
            "count",
            "{\"type\":\"Polygon\",\"coordinates\":[[[0,0],[1,0],[1,40000000],[2,2],[0,0]]]}",
            "Range at 49",
        ),
        (
            "count",
            "{\"type\":\"Polygon\",\"coordinates\":[[[0,0],[1,40000000],[0,0]]]}",
            "Ring at 33",
        ),
        (
            "extent",
            "{\"type\":\"MultiLineString\",\"coordinates\":[[[0,0],[1,1],[2,2]],[[0,0],[1,1],[2,40000000]],[[5,5]]]}",
            "Range at 77",
        ),
    ];
    compare_rows(&rt, &rows)
}

/// Positions beside other items, and where no positions may stand.
#[test]
fn other_items(rt: HostRuntime) -> Result<(), Fail> {
    let rows: [Row; 14] = [
        (
            "extent",
            "{\"type\":\"LineString\",\"coordinates\":[[0,0],[1,1],5,[2,2],[3,3]]}",
            "Form at 35",
        ),
        (
            "count",
            "{\"type\":\"LineString\",\"coordinates\":[[0,0],[1,1],[],[2,2]]}",
            "Form at 35",
        ),
        (
            "count",
            "{\"type\":\"MultiLineString\",\"coordinates\":[[[0,0],[1,1]],[2,2],[3,3]]}",
            "Form at 40",
        ),
        (
            "count",
            "{\"type\":\"MultiLineString\",\"coordinates\":[[0,0],[1,1],[[2,2],[3,3]]]}",
            "Form at 40",
        ),
        (
            "count",
            "{\"type\":\"MultiLineString\",\"coordinates\":[[0,0],[1,1],[2,2]]}",
            "Form at 40",
        ),
        (
            "count",
            "{\"type\":\"MultiPolygon\",\"coordinates\":[[0,0],[1,1],[2,2]]}",
            "Form at 37",
        ),
        (
            "count",
            "{\"type\":\"MultiPolygon\",\"coordinates\":[[[0,0],[1,0],[1,1],[0,0]]]}",
            "Form at 37",
        ),
        (
            "count",
            "{\"type\":\"Point\",\"coordinates\":[[0,0],[1,1],[2,2]]}",
            "Form at 30",
        ),
        (
            "count",
            "{\"type\":\"LineString\",\"coordinates\":[[0,0],[1,1],{\"a\":1,\"a\":2},[2,2]]}",
            "Twin at 55",
        ),
        (
            "extent",
            "{\"type\":\"LineString\",\"coordinates\":[[0,0],[1,1],{\"type\":\"Point\",\"coordinates\":[2,2]},[3,3]]}",
            "Form at 35",
        ),
        (
            "extent",
            "{\"type\":\"GeometryCollection\",\"geometries\":[[0,0],[1,1],[2,2]]}",
            "Form at 43",
        ),
        (
            "extent",
            "{\"type\":\"GeometryCollection\",\"geometries\":[{\"type\":\"Point\",\"coordinates\":[1,2]},[3,4],[5,6]]}",
            "Form at 80",
        ),
        (
            "count",
            "{\"type\":\"FeatureCollection\",\"features\":[{\"type\":\"Feature\",\"geometry\":null},[3,4],[5,6],7]}",
            "Form at 75",
        ),
        (
            "count",
            "{\"type\":\"FeatureCollection\",\"features\":[[3,4],[5,6],{\"type\":\"Feature\",\"geometry\":null}]}",
            "Form at 40",
        ),
    ];
    compare_rows(&rt, &rows)
}

/// A line of so many positions along a parabola, behind each of which stands a blank.
fn long_line(alloc: Global, count: u32) -> Result<String, Fail> {
    let mut text = String::from_str(alloc, "{\"type\":\"LineString\",\"coordinates\":[")?;
    for index in 0..count {
        if index > 0 {
            text.push(',')?;
        }
        let x = index % 300;
        let y = x.wrapping_mul(x);
        write!(text, "[{x},{y}] ")?;
    }
    text.push_str("]}")?;
    Ok(text)
}

/// Whether a query of so long a line is told so, cut at a few places.
fn compare_long<R: Abort + AllocGlobal>(
    rt: &R,
    count: u32,
    row: (&'static str, &'static str),
) -> Result<(), Fail> {
    let text = long_line(rt.alloc(), count)?;
    let bytes = text.as_bytes();
    assert!(rt; row.0.len() < 100);
    assert!(rt; bytes.len() < 200_000);
    let len = bytes.len() as u32;
    for at in [0, len / 5, len / 2, len - len.min(3)] {
        let found = told(rt.alloc(), row.0.as_bytes(), bytes, Coords::Round, at)?;
        assert_eq!(rt; found.as_str(), row.1, "{at}");
    }
    Ok(())
}

/// Lines of many positions.
#[test]
fn long_lines(rt: HostRuntime) -> Result<(), Fail> {
    let extent = "0.0000000 0.0000000 299.0000000 89401.0000000\n";
    compare_long(&rt, 300, ("extent", extent))?;
    compare_long(&rt, 5000, ("extent", extent))?;
    compare_long(&rt, 5000, ("count", "1\n"))
}
