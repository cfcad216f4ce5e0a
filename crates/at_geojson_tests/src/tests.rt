//! Tables of GeoJSON texts and what queries find in them, with each text cut in many ways.

ghost use Rattle.std.specs.Prelude.{◌≤◌, ◌<◌, ◌^◌, length, IfOk};
ghost use Rattle.at_query.specs.Ranges.{IsQueryInRange};
ghost use Rattle.at_text.specs.Spans.{span_of};
ghost use Rattle.at_nest.specs.FragmentMeanings.{StandsFor};
ghost use Rattle.at_geojson.specs.Atoms.{IsOwn, IsGeoAtom};

use at_fixed::Coords;
use at_geojson::{GeoAlgebra, GeoAtom, RootEnd, root_part};
use at_geom::{Pos, Shape};
use at_nest::{Fragment, NestEnd, finish_span, merge, run_block};
use at_query::{Entry, Part, Query, answer_of, answer_text, read_query};
use at_text::{Fault, Span};
use std::alloc::Global;
use std::process::Abort;
use std::test::Fail;

pub fn read(alloc: Global, line: &[u8]) -> Result<Query, Fail>
    requires { length line.now < 100 }
    ensures { IfOk result IsQueryInRange }
{
    match read_query(alloc, line, 7, Coords::Round) {
        Ok(query) => Ok(query),
        Err(_) => Err(Fail::from("the line is refused")),
    }
}

fn piece(
    alloc: Global,
    algebra: &GeoAlgebra,
    bytes: &[u8],
    from: u32,
    to: u32,
) -> Fragment<GeoAlgebra>
    requires fits { length bytes.now ≤ 2 ^ 28 }
    requires order { from ≤ to }
    requires end { to ≤ length bytes.now }
    ensures { StandsFor (IsGeoAtom algebra.now) from
        (span_of bytes.now from to) result }
{
    run_block(alloc, algebra, &bytes[from as usize..to as usize], from)
}

/// The fragment of a text, from those of its two parts.
fn joined(
    alloc: Global,
    algebra: &GeoAlgebra,
    bytes: &[u8],
    at: u32,
    to: u32,
    left: Fragment<GeoAlgebra>,
    right: Fragment<GeoAlgebra>,
) -> Fragment<GeoAlgebra>
    requires fits { length bytes.now ≤ 2 ^ 28 }
    requires order { at ≤ to }
    requires end { to ≤ length bytes.now }
    requires left { StandsFor (IsGeoAtom algebra.now) 0
        (span_of bytes.now 0 at) left }
    requires right { StandsFor (IsGeoAtom algebra.now) at
        (span_of bytes.now at to) right }
    ensures { StandsFor (IsGeoAtom algebra.now) 0 (span_of bytes.now 0 to)
        result }
{
    merge(alloc, algebra, bytes, left, right)
}

/// What stands for a text that is cut at the place.
fn cut_at(
    alloc: Global,
    algebra: &GeoAlgebra,
    bytes: &[u8],
    at: u32,
    to: u32,
) -> Result<GeoAtom, NestEnd>
    requires fits { length bytes.now ≤ 2 ^ 28 }
    requires order { at ≤ to }
    requires end { to ≤ length bytes.now }
    ensures { IfOk result (IsOwn algebra.now) }
{
    let left = piece(alloc, algebra, bytes, 0, at);
    let right = piece(alloc, algebra, bytes, at, to);
    let whole = joined(alloc, algebra, bytes, at, to, left, right);
    finish_span(alloc, algebra, bytes, Span { from: 0, to }, whole)
}

pub fn fault_text(alloc: Global, fault: Fault) -> Result<String, Fail> {
    let kind = fault.kind;
    let at = fault.at;
    Ok(format!(in alloc; "{kind:?} at {at}")?)
}

/// Positions, in degrees.
fn put_path(text: &mut String, path: &[Pos]) -> Result<(), Fail> {
    for pos in path {
        let x = pos.x / 10_000_000;
        let y = pos.y / 10_000_000;
        write!(text, " {x},{y}")?;
    }
    Ok(())
}

/// A shape: its points, behind a bar each line, and behind a cross each ring.
fn put_shape(text: &mut String, shape: &Shape) -> Result<(), Fail> {
    put_path(text, shape.points.as_slice())?;
    for line in shape.lines.as_slice() {
        text.push_str(" |")?;
        put_path(text, line.as_slice())?;
    }
    for polygon in shape.polygons.as_slice() {
        for ring in polygon.rings.as_slice() {
            text.push_str(" #")?;
            put_path(text, ring.as_slice())?;
        }
    }
    Ok(())
}

/// The offset and the shape of each entry, in a line.
fn entries_text(alloc: Global, entries: &[Entry]) -> Result<String, Fail> {
    let mut text = String::new(alloc);
    for entry in entries {
        let at = entry.at;
        write!(text, "{at}:")?;
        put_shape(&mut text, &entry.shape)?;
        text.push('\n')?;
    }
    Ok(text)
}

pub fn part_text(alloc: Global, part: Part) -> Result<String, Fail> {
    if let Part::Entries(entries) = part {
        return entries_text(alloc, entries.as_slice());
    }
    Ok(answer_text(alloc, &answer_of(part), 7)?)
}

fn root_text(alloc: Global, algebra: &GeoAlgebra, atom: GeoAtom) -> Result<String, Fail>
    requires { IsOwn algebra.now atom }
{
    match root_part(alloc, algebra, atom) {
        Ok(part) => part_text(alloc, part),
        Err(RootEnd::Found(fault)) => fault_text(alloc, fault),
        Err(RootEnd::Memory) => Err(Fail::from("no memory")),
    }
}

/// What is told of a text that is cut at the place.
pub fn told(alloc: Global, line: &[u8], bytes: &[u8], how: Coords, at: u32) -> Result<String, Fail>
    requires line { length line.now < 100 }
    requires fits { length bytes.now ≤ 2 ^ 28 }
    requires end { at ≤ length bytes.now }
{
    let algebra = GeoAlgebra::new(read(alloc, line)?, 7, how);
    match cut_at(alloc, &algebra, bytes, at, bytes.len() as u32) {
        Ok(atom) => root_text(alloc, &algebra, atom),
        Err(NestEnd::Ended) => Ok(String::from_str(alloc, "Ended")?),
        Err(NestEnd::Syntax(at)) => Ok(format!(in alloc; "Syntax at {at}")?),
        Err(NestEnd::Memory) => Err(Fail::from("no memory")),
    }
}

/// A query, a text, and what is told of it, wherever it is cut.
pub type Row = (&'static str, &'static str, &'static str);

fn compare<R: Abort + AllocGlobal>(rt: &R, row: Row) -> Result<(), Fail> {
    assert!(rt; row.0.len() < 100);
    assert!(rt; row.1.len() < 1000);
    for at in 0..row.1.len() as u32 + 1 {
        let found = told(
            rt.alloc(),
            row.0.as_bytes(),
            row.1.as_bytes(),
            Coords::Round,
            at,
        )?;
        assert_eq!(rt; found.as_str(), row.2, "{at}");
    }
    Ok(())
}

/// Compares each row with what is found.
pub fn compare_rows<R: Abort + AllocGlobal>(rt: &R, rows: &[Row]) -> Result<(), Fail> {
    for row in rows {
        compare(rt, *row)?;
    }
    Ok(())
}

/// Texts that are no JSON.
#[test]
fn syntax(rt: HostRuntime) -> Result<(), Fail> {
    let rows: [Row; 5] = [
        (
            "count",
            "{\"type\":\"FeatureCollection\",\"features\":[",
            "Ended",
        ),
        ("count", "{\"a\":tru}", "Syntax at 8"),
        ("count", "{\"a\":-}", "Syntax at 6"),
        ("count", "01", "Syntax at 1"),
        ("count", "tru", "Ended"),
    ];
    compare_rows(&rt, &rows)
}

/// Equal names, also among many.
#[test]
fn names(rt: HostRuntime) -> Result<(), Fail> {
    let rows: [Row; 5] = [
        ("count", "{\"a\":1,\"\\u0061\":2}", "Twin at 7"),
        ("count", "{}", "Form at 0"),
        (
            "count",
            "[{\"a\":[{\"b\":1,\"b\":2}]},{\"c\":1,\"c\":2}]",
            "Twin at 14",
        ),
        (
            "count",
            "{\"a\":0,\"b\":0,\"c\":0,\"d\":0,\"e\":0,\"f\":0,\"g\":0,\"h\":0,\"i\":0,\"j\":0,\"k\":0,\"l\":0,\"m\":0,\"n\":0,\"o\":0,\"p\":0,\"q\":0}",
            "Form at 0",
        ),
        (
            "count",
            "{\"a\":0,\"b\":0,\"c\":0,\"d\":0,\"e\":0,\"f\":0,\"g\":0,\"h\":0,\"i\":0,\"j\":0,\"k\":0,\"l\":0,\"m\":0,\"n\":0,\"o\":0,\"p\":0,\"q\":0,\"b\":1,\"a\":{\"x\":1,\"x\":2}}",
            "Twin at 103",
        ),
    ];
    compare_rows(&rt, &rows)
}

/// Equal names, and unlike ones, of more members than are compared in pairs.
#[test]
fn names_of_many(rt: HostRuntime) -> Result<(), Fail> {
    let rows: [Row; 8] = [
        (
            "count",
            "{\"q\":0,\"p\":0,\"o\":0,\"n\":0,\"m\":0,\"l\":0,\"k\":0,\"j\":0,\"i\":0,\"h\":0,\"g\":0,\"f\":0,\"e\":0,\"d\":0,\"c\":0,\"b\":0,\"a\":0}",
            "Form at 0",
        ),
        (
            "count",
            "{\"a\":0,\"b\":0,\"c\":0,\"d\":0,\"e\":0,\"f\":0,\"g\":0,\"h\":0,\"i\":0,\"j\":0,\"k\":0,\"l\":0,\"m\":0,\"n\":0,\"o\":0,\"p\":0,\"q\":0,\"a\":1}",
            "Twin at 103",
        ),
        (
            "count",
            "{\"a\":0,\"b\":0,\"c\":0,\"d\":0,\"e\":0,\"f\":0,\"g\":0,\"h\":0,\"i\":0,\"j\":0,\"k\":0,\"l\":0,\"m\":0,\"n\":0,\"o\":0,\"p\":0,\"q\":0,\"q\":1}",
            "Twin at 103",
        ),
        (
            "count",
            "{\"a\":0,\"b\":0,\"c\":0,\"d\":0,\"e\":0,\"f\":0,\"g\":0,\"h\":0,\"h\":1,\"h\":2,\"i\":0,\"j\":0,\"k\":0,\"l\":0,\"m\":0,\"n\":0,\"o\":0,\"p\":0,\"q\":0,\"a\":1}",
            "Twin at 49",
        ),
        (
            "count",
            "{\"a\":0,\"b\":0,\"c\":0,\"d\":0,\"e\":0,\"f\":0,\"g\":0,\"h\":0,\"i\":0,\"j\":0,\"k\":0,\"l\":0,\"m\":0,\"n\":0,\"o\":0,\"p\":0,\"q\":{\"x\":1,\"x\":2},\"a\":1}",
            "Twin at 108",
        ),
        (
            "count",
            "{\"a\":0,\"b\":0,\"c\":0,\"d\":0,\"e\":0,\"f\":0,\"g\":0,\"h\":0,\"i\":0,\"j\":0,\"k\":0,\"l\":0,\"m\":0,\"n\":0,\"o\":0,\"p\":0,\"a\":{\"x\":1,\"x\":2},\"b\":1}",
            "Twin at 97",
        ),
        (
            "count",
            "{\"a\":[{\"a\":1,\"b\":2},{\"b\":1,\"b\":2}],\"b\":0,\"c\":0,\"d\":0,\"e\":0,\"f\":0,\"g\":0,\"h\":0,\"i\":0,\"j\":0,\"k\":0,\"l\":0,\"m\":0,\"n\":0,\"o\":0,\"p\":0,\"q\":0,\"b\":1}",
            "Twin at 27",
        ),
        (
            "count",
            "{\"a\":0,\"b\":0,\"c\":0,\"d\":0,\"e\":0,\"f\":0,\"g\":0,\"h\":0,\"i\":0,\"j\":0,\"k\":0,\"l\":0,\"m\":0,\"n\":0,\"o\":0,\"p\":0,\"q\":0,\"\\u0061\":1}",
            "Twin at 103",
        ),
    ];
    compare_rows(&rt, &rows)
}

/// Unlike names of one hash, which a reduction of its multiplier's lattice has found.
#[test]
fn names_of_one_hash(rt: HostRuntime) -> Result<(), Fail> {
    let rows: [Row; 4] = [
        (
            "count",
            "{\"anjnaagaahaacf\":0,\"faaacfagfandaa\":0,\"b\":0,\"c\":0,\"d\":0,\"e\":0,\"f\":0,\"g\":0,\"h\":0,\"i\":0,\"j\":0,\"k\":0,\"l\":0,\"m\":0,\"n\":0,\"o\":0,\"p\":0}",
            "Form at 0",
        ),
        (
            "count",
            "{\"anjnaagaahaacf\":0,\"faaacfagfandaa\":0,\"b\":0,\"c\":0,\"d\":0,\"e\":0,\"f\":0,\"g\":0,\"h\":0,\"i\":0,\"j\":0,\"k\":0,\"l\":0,\"m\":0,\"n\":0,\"o\":0,\"p\":0,\"faaacfagfandaa\":1}",
            "Twin at 129",
        ),
        (
            "count",
            "{\"anjnaagaahaacf\":0,\"faaacfagfandaa\":0,\"b\":0,\"c\":0,\"d\":0,\"e\":0,\"f\":0,\"g\":0,\"h\":0,\"i\":0,\"j\":0,\"k\":0,\"l\":0,\"m\":0,\"n\":0,\"o\":0,\"p\":0,\"anjnaagaahaacf\":1}",
            "Twin at 129",
        ),
        (
            "count",
            "{\"d\":1,\"anjnaagaahaacf\":0,\"b\":0,\"c\":0,\"d\":0,\"e\":0,\"f\":0,\"g\":0,\"h\":0,\"i\":0,\"j\":0,\"k\":0,\"l\":0,\"m\":0,\"n\":0,\"o\":0,\"p\":0,\"faaacfagfandaa\":0}",
            "Twin at 38",
        ),
    ];
    compare_rows(&rt, &rows)
}

/// Features and what they are not.
#[test]
fn features(rt: HostRuntime) -> Result<(), Fail> {
    let rows: [Row; 9] = [
        (
            "select",
            "{\"type\":\"FeatureCollection\",\"features\":[{\"type\":\"Feature\",\"geometry\":null,\"properties\":null}]}",
            "40\n",
        ),
        (
            "select where has \"k\" = \"a\\\"b}]{\"",
            "{\"type\":\"Feature\",\"properties\":{\"k\":\"a\\\"b}]{\"},\"geometry\":null}",
            "0\n",
        ),
        (
            "select where has \"k\" = \"other\"",
            "{\"type\":\"Feature\",\"properties\":{\"k\":\"a\\\"b}]{\"},\"geometry\":null}",
            "",
        ),
        (
            "count",
            "{\"type\":\"Feature\",\"properties\":{\"x\":{\"type\":\"Feature\",\"geometry\":{\"type\":\"Point\",\"coordinates\":[1]},\"properties\":null}},\"geometry\":null}",
            "1\n",
        ),
        (
            "count",
            "{\"type\":\"FeatureCollection\",\"features\":[{\"geometry\":{\"coordinates\":[],\"type\":\"Polygon\"},\"type\":\"Feature\"},{\"type\":\"Feature\",\"geometry\":null}]}",
            "2\n",
        ),
        (
            "extent",
            "{\"type\":\"FeatureCollection\",\"features\":[{\"geometry\":{\"coordinates\":[],\"type\":\"Polygon\"},\"type\":\"Feature\"},{\"type\":\"Feature\",\"geometry\":null}]}",
            "empty\n",
        ),
        (
            "count",
            "{\"type\":\"FeatureCollection\",\"features\":{}}",
            "Form at 0",
        ),
        (
            "count",
            "{\"type\":\"FeatureCollection\",\"features\":[{\"type\":\"Point\",\"coordinates\":[]}]}",
            "Form at 40",
        ),
        (
            "count",
            "{\"type\":\"Feature\",\"properties\":[],\"geometry\":3}",
            "Form at 31",
        ),
    ];
    compare_rows(&rt, &rows)
}

/// Geometries and what is wrong with them.
#[test]
fn shapes(rt: HostRuntime) -> Result<(), Fail> {
    let rows: [Row; 10] = [
        (
            "count",
            "{\"type\":\"Polygon\",\"coordinates\":[[[0,0],[1,0],[1,1],[0,1]]]}",
            "Ring at 33",
        ),
        (
            "count",
            "{\"type\":\"Point\",\"coordinates\":[1]}",
            "Form at 30",
        ),
        (
            "count",
            "{\"type\":\"MultiPolygon\",\"coordinates\":[[]]}",
            "Form at 37",
        ),
        (
            "count",
            "{\"type\":\"MultiPolygon\",\"coordinates\":[[[]]]}",
            "Ring at 39",
        ),
        (
            "count",
            "{\"type\":\"MultiLineString\",\"coordinates\":[[]]}",
            "Short at 41",
        ),
        (
            "count",
            "{\"type\":\"LineString\",\"coordinates\":[[]]}",
            "Form at 35",
        ),
        (
            "area",
            "{\"type\":\"Polygon\",\"coordinates\":[[[0,0],[1,0],[1,1],[0,1],[0,0]]]}",
            "200000000000000\n",
        ),
        (
            "extent",
            "{\"type\":\"GeometryCollection\",\"geometries\":[{\"type\":\"LineString\",\"coordinates\":[[1,2],[3,4]]},{\"type\":\"\\u0050oint\",\"coordinates\":[90e-1,-1,7]}]}",
            "1.0000000 -1.0000000 9.0000000 4.0000000\n",
        ),
        (
            "count",
            "{\"type\":\"GeometryCollection\",\"geometries\":[{\"type\":\"LineString\",\"coordinates\":[[1,2]]},{\"type\":\"Point\"}]}",
            "Short at 78",
        ),
        (
            "count",
            "{\"type\":\"GeometryCollection\",\"geometries\":[1,{}]}",
            "Form at 43",
        ),
    ];
    compare_rows(&rt, &rows)
}

/// Coordinates of several lines and areas, read at once or item by item.
#[test]
fn nested(rt: HostRuntime) -> Result<(), Fail> {
    let rows: [Row; 9] = [
        (
            "area",
            "{\"type\":\"MultiPolygon\",\"coordinates\":[[[[0,0],[2,0],[2,2],[0,2],[0,0]],[[0.5,0.5],[1.5,0.5],[1.5,1.5],[0.5,1.5],[0.5,0.5]]],[[[10,0],[11,0],[11,1],[10,1],[10,0]]]]}",
            "800000000000000\n",
        ),
        (
            "extent",
            "{\"type\":\"MultiLineString\",\"coordinates\": [ [ [0, 1] , [2,3] ] , [ [ -5,7],[8 ,9]]]}",
            "-5.0000000 1.0000000 8.0000000 9.0000000\n",
        ),
        (
            "count",
            "{\"type\":\"MultiPolygon\",\"coordinates\":[[[[0,0],[1,0],[1,1],[0,0]]],[[[0,0],[1,0],[1,1],[0,1]]]]}",
            "Ring at 67",
        ),
        (
            "area",
            "{\"type\":\"MultiPolygon\",\"coordinates\":[[[[0,0],[1,0],[1,1],[0,0]]],[[[0,0],[1,0],[1,1],[0,1]]]]}",
            "Ring at 67",
        ),
        (
            "count",
            "{\"type\":\"MultiLineString\",\"coordinates\":[[[0,0],[1,0]],[[0,0]]]}",
            "Short at 55",
        ),
        (
            "area",
            "{\"type\":\"Polygon\",\"coordinates\":[[[0,0],[2,0],[2,2],[0,2],[0,0,7]]]}",
            "800000000000000\n",
        ),
        (
            "count",
            "{\"type\":\"MultiPolygon\",\"coordinates\":[[[[[0,0]]]]]}",
            "Form at 37",
        ),
        (
            "count",
            "{\"type\":\"Polygon\",\"coordinates\":[[[[0,0],[1,0],[1,1],[0,0]]]]}",
            "Form at 32",
        ),
        (
            "count",
            "{\"type\":\"Polygon\",\"coordinates\":[[[0,0],[1,0],[1,1],[0,0]]}",
            "Syntax at 58",
        ),
    ];
    compare_rows(&rt, &rows)
}

/// Lists of positions one behind another in an array, and what stands between them.
#[test]
fn series(rt: HostRuntime) -> Result<(), Fail> {
    let rows: [Row; 19] = [
        (
            "extent",
            "{\"type\":\"MultiLineString\",\"coordinates\":[[[0,1],[2,3]],[[-5,7],[8,9]],[[4,5],[6,-7]],[[1,1],[1,1,9],[2,2]]]}",
            "-5.0000000 -7.0000000 8.0000000 9.0000000\n",
        ),
        (
            "count",
            "{\"type\":\"MultiLineString\",\"coordinates\":[[[0,1],[2,3]],[[-5,7],[8,9]],[[4,5],[6,-7]],[[1,1],[1,1,9],[2,2]]]}",
            "1\n",
        ),
        (
            "area",
            "{\"type\":\"Polygon\",\"coordinates\":[[[0,0],[4,0],[4,4],[0,4],[0,0]],[[1,1],[2,1],[2,2],[1,2],[1,1]],[[2,2],[3,2],[3,3],[2,3],[2,2]]]}",
            "2800000000000000\n",
        ),
        (
            "area",
            "{\"type\":\"Polygon\",\"coordinates\":[[[0,0],[4,0],[4,4],[0,0]],[[1,1],[2,1],[2,2],[1,2]],[]]}",
            "Ring at 59",
        ),
        (
            "extent",
            "{\"type\":\"MultiLineString\",\"coordinates\":[[[0,1],[2,3]],[],[[4,5],[6,7]],[[8,9]]]}",
            "Short at 55",
        ),
        (
            "count",
            "{\"type\":\"MultiLineString\",\"coordinates\":[[],[],[[0,0]]]}",
            "Short at 41",
        ),
        (
            "extent",
            "{\"type\":\"MultiLineString\",\"coordinates\":[[[0,0],[1,1]],[[2,2],[3,3]],5,[[4,4],[5,5]],[]]}",
            "Form at 40",
        ),
        (
            "count",
            "{\"type\":\"MultiLineString\",\"coordinates\":[[],[[[0,0]]],[]]}",
            "Form at 40",
        ),
        (
            "count",
            "{\"type\":\"MultiLineString\",\"coordinates\":[[[0,0],[1,1]],[],{\"type\":\"Point\",\"coordinates\":[0,0]}]}",
            "Form at 40",
        ),
        (
            "count",
            "{\"type\":\"MultiLineString\",\"coordinates\":[[[0,0],[1,1]],[],{\"a\":1,\"a\":2}]}",
            "Twin at 65",
        ),
        (
            "count",
            "{\"type\":\"MultiPolygon\",\"coordinates\":[[[0,0],[1,1]],[[2,2],[3,3]]]}",
            "Form at 37",
        ),
        (
            "area",
            "{\"type\":\"MultiPolygon\",\"coordinates\":[[[[0,0],[1,0],[1,1],[0,0]],[]]]}",
            "Ring at 65",
        ),
        (
            "extent",
            "{\"type\":\"MultiLineString\",\"coordinates\":[[[0,0],[1,1]],[[0,0],[40000000,1]],[[2,2],[3,3]]]}",
            "Range at 63",
        ),
        (
            "count",
            "{\"type\":\"LineString\",\"coordinates\":[[],[],[]]}",
            "Form at 35",
        ),
        (
            "count",
            "{\"type\":\"Point\",\"coordinates\":[[],[],[]]}",
            "Form at 30",
        ),
        (
            "extent",
            "{\"type\":\"GeometryCollection\",\"geometries\":[[[0,0],[1,1]],[],[[2,2]]]}",
            "Form at 43",
        ),
        (
            "extent",
            "{\"type\":\"GeometryCollection\",\"geometries\":[{\"type\":\"Point\",\"coordinates\":[1,2]},[[0,0],[1,1]],[]]}",
            "Form at 80",
        ),
        (
            "count",
            "{\"type\":\"GeometryCollection\",\"geometries\":[[],[[0,0]],{\"type\":\"Point\"}]}",
            "Form at 43",
        ),
        (
            "count",
            "{\"type\":\"FeatureCollection\",\"features\":[7,[],[[0,0]],{\"type\":\"Feature\",\"geometry\":null}]}",
            "Form at 40",
        ),
    ];
    compare_rows(&rt, &rows)
}

/// What a letter stands for, with `#` for its number: a digit is a point, a small letter a line, a capital one a
/// polygon, a full stop a point of nothing, and round brackets are a collection.
fn letter_text(letter: u8) -> &'static str {
    match letter {
        b'(' => "{\"type\":\"GeometryCollection\",\"geometries\":[",
        b')' => "]}",
        b',' => ",",
        b'.' => "{\"type\":\"Point\",\"coordinates\":[]}",
        b'0'..=b'9' => "{\"type\":\"Point\",\"coordinates\":[#,0]}",
        b'a'..=b'z' => "{\"type\":\"LineString\",\"coordinates\":[[#,0],[#,1]]}",
        _ => "{\"type\":\"Polygon\",\"coordinates\":[[[#,0],[20,0],[20,1],[#,0]]]}",
    }
}

fn put_letter(text: &mut String, letter: u8) -> Result<(), Fail> {
    let x = u32::from(letter % 16);
    for (index, part) in letter_text(letter).split('#').enumerate() {
        if index > 0 {
            write!(text, "{x}")?;
        }
        text.push_str(part)?;
    }
    Ok(())
}

/// A geometry of which a text tells in short.
fn geometry_text(alloc: Global, short: &str) -> Result<String, Fail> {
    let mut text = String::new(alloc);
    for letter in short.bytes() {
        put_letter(&mut text, letter)?;
    }
    Ok(text)
}

/// Whether a geometry of which a text tells in short has the shape, wherever it is cut.
fn compare_geometry<R: Abort + AllocGlobal>(rt: &R, short: &str, wanted: &str) -> Result<(), Fail> {
    let text = geometry_text(rt.alloc(), short)?;
    let bytes = text.as_bytes();
    assert!(rt; bytes.len() < 1000);
    for at in 0..bytes.len() as u32 + 1 {
        let found = told(rt.alloc(), b"join", bytes, Coords::Round, at)?;
        assert_eq!(rt; found.as_str(), wanted, "{short} cut at {at}");
    }
    Ok(())
}

fn compare_geometries<R: Abort + AllocGlobal>(
    rt: &R,
    rows: &[(&'static str, &'static str)],
) -> Result<(), Fail> {
    for row in rows {
        compare_geometry(rt, row.0, row.1)?;
    }
    Ok(())
}

/// Geometries before collections, behind them and on both sides: the parts of a shape stand in the order of its members
/// (RFC 7946 section 3.1.8).
#[test]
fn collections(rt: HostRuntime) -> Result<(), Fail> {
    let rows: [(&'static str, &'static str); 16] = [
        ("()", "0:\n"),
        ("(1,2,3)", "0: 1,0 2,0 3,0\n"),
        ("(1,(2,3))", "0: 1,0 2,0 3,0\n"),
        ("((1,2),3)", "0: 1,0 2,0 3,0\n"),
        ("(1,(2,3,4),5)", "0: 1,0 2,0 3,0 4,0 5,0\n"),
        ("(1,2,3,(4,5))", "0: 1,0 2,0 3,0 4,0 5,0\n"),
        ("(1,(2,(3,4),5),6)", "0: 1,0 2,0 3,0 4,0 5,0 6,0\n"),
        ("(1,2,(3,(4,5,6)))", "0: 1,0 2,0 3,0 4,0 5,0 6,0\n"),
        (
            "((1,(2,3)),(4,(5,6,7,8,9)))",
            "0: 1,0 2,0 3,0 4,0 5,0 6,0 7,0 8,0 9,0\n",
        ),
        (
            "((1,(2,3,4)),(5,(6,7)))",
            "0: 1,0 2,0 3,0 4,0 5,0 6,0 7,0\n",
        ),
        (
            "(a,(b,c),d)",
            "0: | 1,0 1,1 | 2,0 2,1 | 3,0 3,1 | 4,0 4,1\n",
        ),
        (
            "(A,(B,C),D)",
            "0: # 1,0 20,0 20,1 1,0 # 2,0 20,0 20,1 2,0 # 3,0 20,0 20,1 3,0 # 4,0 20,0 20,1 4,0\n",
        ),
        (
            "(1,(a,2,A),3,(4,b))",
            "0: 1,0 2,0 3,0 4,0 | 1,0 1,1 | 2,0 2,1 # 1,0 20,0 20,1 1,0\n",
        ),
        (
            "(a,1,(2,b,3,c,(d,4,5)))",
            "0: 1,0 2,0 3,0 4,0 5,0 | 1,0 1,1 | 2,0 2,1 | 3,0 3,1 | 4,0 4,1\n",
        ),
        ("((),(1,(),(2,(),3)),.)", "0: 1,0 2,0 3,0\n"),
        ("(.,(.,(1,2)),())", "0: 1,0 2,0\n"),
    ];
    compare_geometries(&rt, &rows)
}

/// So many points of a parabola, each a feature: from 0 on by steps, round from 300 to 0.
fn parabola(alloc: Global, count: u32, step: u32) -> Result<String, Fail> {
    let mut text = String::from_str(alloc, "{\"type\":\"FeatureCollection\",\"features\":[")?;
    for index in 0..count {
        if index > 0 {
            text.push(',')?;
        }
        let x = index.wrapping_mul(step) % 300;
        let y = x.wrapping_mul(x);
        write!(
            text,
            "{{\"type\":\"Feature\",\"geometry\":{{\"type\":\"Point\",\"coordinates\":[{x},{y}]}}}}"
        )?;
    }
    text.push_str("]}")?;
    Ok(text)
}

/// The corners of their hull: each of the points, in order.
fn corners_of_parabola(alloc: Global) -> Result<String, Fail> {
    let mut text = String::new(alloc);
    for x in 0..300u32 {
        let y = x.wrapping_mul(x);
        write!(text, "{x}.0000000 {y}.0000000\n")?;
    }
    Ok(text)
}

/// Whether the hull of so many points is told so, read at once, and item by item where the text is cut within the
/// array.
fn compare_parabola<R: Abort + AllocGlobal>(
    rt: &R,
    count: u32,
    step: u32,
    wanted: &str,
) -> Result<(), Fail> {
    let text = parabola(rt.alloc(), count, step)?;
    let bytes = text.as_bytes();
    assert!(rt; bytes.len() < 100_000);
    let len = bytes.len() as u32;
    for at in [0, len / 3, len / 2, len - len.min(2)] {
        let found = told(rt.alloc(), b"hull", bytes, Coords::Round, at)?;
        assert_eq!(rt; found.as_str(), wanted, "{at}");
    }
    Ok(())
}

/// Features each of which is a corner of the hull, in order, and twice over in another order.
#[test]
fn corners_one_by_one(rt: HostRuntime) -> Result<(), Fail> {
    let wanted = corners_of_parabola(rt.alloc())?;
    for row in [(300, 1), (600, 7), (600, 299), (600, 101)] {
        compare_parabola(&rt, row.0, row.1, wanted.as_str())?;
    }
    Ok(())
}

/// A file in the layout of a common converter.
const PLACES: &[u8] =
    b"{\n\"type\": \"FeatureCollection\",\n\"name\": \"places\",\n\"crs\": { \"type\": \"name\", \"properties\": { \"name\": \"urn:ogc:def:crs:OGC:1.3:CRS84\" } },\n\"features\": [\n{ \"type\": \"Feature\", \"properties\": { \"name\": \"Ulm\" }, \"geometry\": { \"type\": \"Point\", \"coordinates\": [ 9.987654321012345, 48.4 ] } },\n{ \"type\": \"Feature\", \"properties\": { \"name\": \"Bonn\" }, \"geometry\": { \"type\": \"Point\", \"coordinates\": [ 7.1, 50.733333333333334 ] } },\n{ \"type\": \"Feature\", \"properties\": { \"name\": \"Jena\" }, \"geometry\": null }\n]\n}\n";

/// Whether the file is told so, cut at each of the places.
fn compare_places<R: Abort + AllocGlobal>(
    rt: &R,
    how: Coords,
    rows: &[(&'static str, &'static str)],
) -> Result<(), Fail> {
    for row in rows {
        assert!(rt; row.0.len() < 100);
        for at in [0, 100, 200, 254, 300, 494] {
            let found = told(rt.alloc(), row.0.as_bytes(), PLACES, how, at)?;
            assert_eq!(rt; found.as_str(), row.1, "{at}");
        }
    }
    Ok(())
}

#[test]
fn places(rt: HostRuntime) -> Result<(), Fail> {
    let rows: [(&'static str, &'static str); 4] = [
        ("select", "149\n282\n416\n"),
        ("extent", "7.1000000 48.4000000 9.9876543 50.7333333\n"),
        ("select where has \"name\" = \"Bonn\"", "282\n"),
        ("select where in box(7 48,10 49)", "149\n"),
    ];
    compare_places(&rt, Coords::Round, &rows)?;
    let exact: [(&'static str, &'static str); 1] = [("select", "Scale at 251")];
    compare_places(&rt, Coords::Exact, &exact)
}
