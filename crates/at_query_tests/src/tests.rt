//! Which shapes pass which tests, and the answers that are gathered from them in parts and one by one.

ghost use Rattle.std.specs.Prelude.{◌≡◌, ◌≢◌, false, List, IfOk, IfSome, All, IsTrue};
ghost use Rattle.at_geom.specs.Segments.{IsInRange};
ghost use Rattle.at_geom.specs.Shapes.{ArePathsInRange, ArePolygonsInRange, IsShapeInRange};
ghost use Rattle.at_query.specs.Ranges.{IsTestInRange, IsQueryInRange, IsFeatureInRange};
ghost use Rattle.at_query.specs.Parts.{AreAlike, IsProper};
ghost use Rattle.at_query.specs.Accumulators.{IsAccumulated};
ghost use Rattle.at_query.specs.declared.features.Feature.{Feature};

mod hulls;
mod lines;
mod looks;

use at_band::Bands;
use at_fixed::Coords;
use at_geom::{Extent, Path, Paths, Polygon, Polygons, Pos, Shape};
use at_lex::Units;
use at_query::{
    Accumulator, Answer, Entries, Feature, Offsets, Pair, Pairs, Part, Query, Test, Tests,
    TextPair, TextPairs, Verb, answer_of, answer_text, holds, joined_extent, lower_corner,
    part_merge, part_none, part_of, read_query, upper_corner,
};
use std::alloc::{AllocError, Global};
use std::test::Fail;

/// A shape: points, and at most one line and one ring.
#[derive(Clone, Copy)]
struct Outline {
    at: u32,
    points: &'static [(i32, i32)],
    line: &'static [(i32, i32)],
    ring: &'static [(i32, i32)],
    is_in: bool,
    meets: bool,
}

/// A shape of nothing, which each row changes.
const NOTHING: Outline = Outline {
    at: 0,
    points: &[],
    line: &[],
    ring: &[],
    is_in: false,
    meets: false,
};

/// Shapes, and whether they are in the box (0, 0) to (10, 10), and meet it.
static AROUND_BOX: [Outline; 10] = [
    Outline {
        at: 0,
        points: &[(5, 5)],
        is_in: true,
        meets: true,
        ..NOTHING
    },
    // a corner
    Outline {
        at: 9,
        points: &[(10, 10)],
        is_in: true,
        meets: true,
        ..NOTHING
    },
    Outline {
        at: 21,
        points: &[(11, 5)],
        ..NOTHING
    },
    // one of two points
    Outline {
        at: 32,
        points: &[(5, 5), (11, 5)],
        meets: true,
        ..NOTHING
    },
    Outline {
        at: 50,
        line: &[(1, 1), (9, 9)],
        is_in: true,
        meets: true,
        ..NOTHING
    },
    // a line across
    Outline {
        at: 77,
        line: &[(-5, 5), (15, 5)],
        meets: true,
        ..NOTHING
    },
    Outline {
        at: 99,
        line: &[(20, 0), (20, 9)],
        ..NOTHING
    },
    Outline {
        at: 120,
        ring: &[(2, 2), (4, 2), (4, 4), (2, 2)],
        is_in: true,
        meets: true,
        ..NOTHING
    },
    // a polygon around the box
    Outline {
        at: 150,
        ring: &[(-9, -9), (30, -9), (30, 30), (-9, 30), (-9, -9)],
        meets: true,
        ..NOTHING
    },
    // nothing
    Outline { at: 200, ..NOTHING },
];

/// What each verb prints of those shapes with no test, with one digit behind the point.
const OF_ALL: [(Verb, &str); 5] = [
    (Verb::Select, "0\n9\n21\n32\n50\n77\n99\n120\n150\n200\n"),
    (Verb::Count, "10\n"),
    (Verb::Area, "3046\n"),
    (Verb::Extent, "-0.9 -0.9 3.0 3.0\n"),
    (Verb::Hull, "-0.9 -0.9\n3.0 -0.9\n3.0 3.0\n-0.9 3.0\n"),
];

/// The same of those in the box.
const OF_INNER: [(Verb, &str); 5] = [
    (Verb::Select, "0\n9\n50\n120\n"),
    (Verb::Count, "4\n"),
    (Verb::Area, "4\n"),
    (Verb::Extent, "0.1 0.1 1.0 1.0\n"),
    (Verb::Hull, "0.1 0.1\n0.4 0.2\n1.0 1.0\n"),
];

/// The same of those in a box that none is in.
const OF_NONE: [(Verb, &str); 5] = [
    (Verb::Select, ""),
    (Verb::Count, "0\n"),
    (Verb::Area, "0\n"),
    (Verb::Extent, "empty\n"),
    (Verb::Hull, "empty\n"),
];

fn place(x: i32, y: i32) -> Pos
    ensures { IsInRange result }
{
    Pos {
        x: i64::from(x),
        y: i64::from(y),
    }
}

fn box_of(low: i32, high: i32) -> Extent {
    Extent {
        low: place(low, low),
        high: place(high, high),
    }
}

fn path(alloc: Global, places: &[(i32, i32)]) -> Result<Path, AllocError>
    ensures { IfOk result (λ p. All IsInRange p) }
{
    let mut items = Vec::new(alloc);
    for at in places {
        items.push(place(at.0, at.1))?;
    }
    Ok(Path::from_vec(items))
}

fn paths(alloc: Global, places: &[(i32, i32)]) -> Result<Paths, AllocError>
    ensures { IfOk result ArePathsInRange }
{
    let mut items = Vec::new(alloc);
    if !places.is_empty() {
        items.push(path(alloc, places)?)?;
    }
    Ok(Paths::from_vec(items))
}

fn polygons(alloc: Global, ring: &[(i32, i32)]) -> Result<Polygons, AllocError>
    ensures { IfOk result ArePolygonsInRange }
{
    let mut items = Vec::new(alloc);
    if !ring.is_empty() {
        items.push(Polygon {
            rings: paths(alloc, ring)?,
        })?;
    }
    Ok(Polygons::from_vec(items))
}

fn shape(alloc: Global, outline: &Outline) -> Result<Shape, AllocError>
    ensures { IfOk result IsShapeInRange }
{
    Ok(Shape {
        points: path(alloc, outline.points)?,
        lines: paths(alloc, outline.line)?,
        polygons: polygons(alloc, outline.ring)?,
    })
}

fn units(alloc: Global, text: &str) -> Result<Units, AllocError> {
    let mut items = Units::with_capacity(alloc, text.len())?;
    for b in text.as_bytes() {
        items.push(alloc, u16::from(*b))?;
    }
    Ok(items)
}

fn pair(alloc: Global, name: &str, value: &str) -> Result<TextPair, AllocError> {
    Ok(TextPair {
        name: units(alloc, name)?,
        value: units(alloc, value)?,
    })
}

/// A feature with two texts.
fn feature(alloc: Global, outline: &Outline) -> Result<Feature, AllocError>
    ensures { IfOk result IsFeatureInRange }
{
    let mut texts = Vec::new(alloc);
    texts.push(pair(alloc, "name", "Rhine")?)?;
    texts.push(pair(alloc, "kind", "river")?)?;
    Ok(Feature {
        at: outline.at,
        shape: shape(alloc, outline)?,
        texts: TextPairs::from_vec(texts),
    })
}

/// A query with at most one test.
fn query(alloc: Global, verb: Verb, test: Option<Test>) -> Result<Query, AllocError>
    requires { IfSome test IsTestInRange }
    ensures { IfOk result IsQueryInRange }
{
    let mut items = Vec::new(alloc);
    if let Some(only) = test {
        items.push(only)?;
    }
    Ok(Query {
        verb,
        tests: Tests::from_vec(items),
    })
}

/// The shape of the box from (0, 0) to (10, 10).
fn box_shape(alloc: Global) -> Result<Shape, AllocError>
    ensures { IfOk result IsShapeInRange }
{
    Ok(Shape {
        points: path(alloc, &[])?,
        lines: paths(alloc, &[])?,
        polygons: polygons(alloc, &[(0, 0), (10, 0), (10, 10), (0, 10), (0, 0)])?,
    })
}

fn are_alike(left: &Part, right: &Part) -> bool
    ensures { IsTrue result → IsProper left.now → IsProper right.now → AreAlike left.now right.now }
{
    match (left, right) {
        (Part::Offsets(_), Part::Offsets(_)) => true,
        (Part::Count(_), Part::Count(_)) => true,
        (Part::Area(_), Part::Area(_)) => true,
        (Part::Spread(_), Part::Spread(_)) => true,
        (Part::Entries(_), Part::Entries(_)) => true,
        (Part::Hull(_), Part::Hull(_)) => true,
        _ => false,
    }
}

fn merged(left: Part, right: Part) -> Result<Part, Fail>
    requires left { IsProper left }
    requires right { IsProper right }
    ensures { IfOk result IsProper }
{
    if !are_alike(&left, &right) {
        return Err(Fail::from("parts of two verbs"));
    }
    Ok(part_merge(left, right)?)
}

fn answered(part: Part) -> Result<Answer, Fail> {
    if let Part::Entries(_) = part {
        return Err(Fail::from("a join has no answer of its own"));
    }
    Ok(answer_of(part))
}

/// The part of all shapes, joined from the left or from the right.
fn part_of_all(alloc: Global, query: &Query, from_left: bool) -> Result<Part, Fail>
    requires { IsQueryInRange query.now }
{
    let mut all = part_none(alloc, query);
    for index in 0..AROUND_BOX.len() {
        let number = if from_left {
            index
        } else {
            AROUND_BOX.len() - 1 - index
        };
        let one = part_of(alloc, query, feature(alloc, &AROUND_BOX[number])?)?;
        all = if from_left {
            merged(all, one)?
        } else {
            merged(one, all)?
        };
    }
    Ok(all)
}

fn printed_of_all(alloc: Global, query: &Query, from_left: bool) -> Result<String, Fail>
    requires { IsQueryInRange query.now }
{
    let answer = answered(part_of_all(alloc, query, from_left)?)?;
    Ok(answer_text(alloc, &answer, 1)?)
}

/// What is kept of shapes that are added one by one.
fn added(alloc: Global, query: &Query, outlines: &[Outline]) -> Result<Accumulator, Fail>
    requires { IsQueryInRange query.now }
    ensures { IfOk result (λ kept. (fs : List Feature) × IsAccumulated query.now fs kept) }
{
    let mut kept = Accumulator::none(alloc, query);
    for outline in outlines {
        kept.add(query, feature(alloc, outline)?)?;
    }
    Ok(kept)
}

/// Whether a verb keeps shapes.
fn keeps_shapes(verb: Verb) -> bool
    ensures { (result ≡ false) → verb ≢ Verb.Join }
{
    matches!(verb, Verb::Join)
}

/// What is kept of shapes that are lent one by one.
fn added_lent(alloc: Global, query: &Query, outlines: &[Outline]) -> Result<Accumulator, Fail>
    requires in_range { IsQueryInRange query.now }
    requires no_join { query.now.verb ≢ Verb.Join }
{
    let mut kept = Accumulator::none(alloc, query);
    for outline in outlines {
        let lent = feature(alloc, outline)?;
        kept.add_lent(query, &lent.lent())?;
    }
    Ok(kept)
}

/// The part of all shapes, of which the first four are added to what is kept of none, and the others to a second one,
/// which is joined.
fn part_of_added(alloc: Global, query: &Query) -> Result<Part, Fail>
    requires { IsQueryInRange query.now }
{
    let mut kept = added(alloc, query, &AROUND_BOX[..4])?;
    let behind = added(alloc, query, &AROUND_BOX[4..])?;
    kept.join(behind)?;
    Ok(kept.into_part()?)
}

fn printed_of_added(alloc: Global, query: &Query) -> Result<String, Fail>
    requires { IsQueryInRange query.now }
{
    let answer = answered(part_of_added(alloc, query)?)?;
    Ok(answer_text(alloc, &answer, 1)?)
}

/// What a verb that keeps no shape prints of shapes that are lent.
fn printed_of_lent(alloc: Global, query: &Query) -> Result<String, Fail>
    requires { IsQueryInRange query.now }
{
    if keeps_shapes(query.verb) {
        return Ok(String::from_str(alloc, "shapes are kept")?);
    }
    let kept = added_lent(alloc, query, &AROUND_BOX)?;
    let answer = answered(kept.into_part()?)?;
    Ok(answer_text(alloc, &answer, 1)?)
}

/// Whether each verb prints what its row says, with at most one box that the shapes are to be in.
fn print_as_told(
    alloc: Global,
    extent: Option<Extent>,
    rows: &[(Verb, &str)],
) -> Result<bool, Fail> {
    for row in rows {
        let asked = query(alloc, row.0, extent.map(|e| Test::InBox(e)))?;
        if printed_of_all(alloc, &asked, true)?.as_str() != row.1 {
            return Ok(false);
        }
        if printed_of_all(alloc, &asked, false)?.as_str() != row.1 {
            return Ok(false);
        }
        if printed_of_added(alloc, &asked)?.as_str() != row.1 {
            return Ok(false);
        }
        if printed_of_lent(alloc, &asked)?.as_str() != row.1 {
            return Ok(false);
        }
    }
    Ok(true)
}

/// Those that meet the box.
fn meeting_box(alloc: Global) -> Result<Query, Fail>
    ensures { IfOk result IsQueryInRange }
{
    let bands = Bands::new(alloc, &box_shape(alloc)?)?;
    Ok(query(alloc, Verb::Select, Some(Test::MeetsShape(bands)))?)
}

/// How many shapes are in the box and meet it as they are told to, up to the first that doesn't.
fn shapes_told(
    alloc: Global,
    inner: &Query,
    meeting: &Query,
    outlines: &[Outline],
) -> Result<usize, Fail>
    requires inner { IsQueryInRange inner.now }
    requires meeting { IsQueryInRange meeting.now }
{
    for told in 0..outlines.len() {
        let outline = &outlines[told];
        let found = feature(alloc, outline)?;
        if holds(inner, &found) != outline.is_in || holds(meeting, &found) != outline.meets {
            return Ok(told);
        }
    }
    Ok(outlines.len())
}

#[test]
fn shapes_and_a_box(rt: HostRuntime) -> Result<(), Fail> {
    let inner = query(rt.alloc(), Verb::Select, Some(Test::InBox(box_of(0, 10))))?;
    let meeting = meeting_box(rt.alloc())?;
    assert_eq!(rt; shapes_told(rt.alloc(), &inner, &meeting, &AROUND_BOX)?, 10);
    Ok(())
}

/// Names and values, and whether a feature has them.
static NAMED: [(&str, &str, bool); 8] = [
    ("name", "Rhine", true),
    ("kind", "river", true),
    ("name", "river", false),
    ("kind", "Rhine", false),
    ("nam", "Rhine", false),
    ("name", "Rhin", false),
    ("name", "rhine", false),
    ("", "", false),
];

/// Those that have a text.
fn having(alloc: Global, name: &str, value: &str) -> Result<Query, AllocError>
    ensures { IfOk result IsQueryInRange }
{
    let name = units(alloc, name)?;
    let value = units(alloc, value)?;
    query(alloc, Verb::Count, Some(Test::Has(name, value)))
}

/// How many rows are as told of the feature, up to the first that isn't.
fn texts_told(alloc: Global, found: &Feature, rows: &[(&str, &str, bool)]) -> Result<usize, Fail>
    requires { IsFeatureInRange found.now }
{
    for told in 0..rows.len() {
        let (name, value, expected) = rows[told];
        let asked = having(alloc, name, value)?;
        if holds(&asked, found) != expected {
            return Ok(told);
        }
    }
    Ok(rows.len())
}

#[test]
fn texts(rt: HostRuntime) -> Result<(), Fail> {
    let found = feature(rt.alloc(), &AROUND_BOX[0])?;
    assert_eq!(rt; texts_told(rt.alloc(), &found, &NAMED)?, 8);
    Ok(())
}

#[test]
fn answers_of_parts(rt: HostRuntime) -> Result<(), Fail> {
    assert!(rt; print_as_told(rt.alloc(), None, &OF_ALL)?);
    assert!(rt; print_as_told(rt.alloc(), Some(box_of(0, 10)), &OF_INNER)?);
    assert!(rt; print_as_told(rt.alloc(), Some(box_of(500, 900)), &OF_NONE)?);
    Ok(())
}

/// Whether the part has the entries of the rows: offsets, and the low and high corner of a square.
fn has_entries(part: &Part, rows: &[(u32, i32, i32)]) -> bool {
    let Part::Entries(entries) = part else {
        return false;
    };
    if entries.as_slice().len() != rows.len() {
        return false;
    }
    for (entry, (at, low, high)) in entries.as_slice().iter().zip(rows) {
        if entry.at != *at || entry.extent != Some(box_of(*low, *high)) {
            return false;
        }
    }
    true
}

#[test]
fn entries_of_a_join(rt: HostRuntime) -> Result<(), Fail> {
    let asked = query(rt.alloc(), Verb::Join, Some(Test::InBox(box_of(0, 10))))?;
    let rows = [(0, 5, 5), (9, 10, 10), (50, 1, 9), (120, 2, 4)];
    assert!(rt; has_entries(&part_of_all(rt.alloc(), &asked, true)?, &rows));
    assert!(rt; has_entries(&part_of_added(rt.alloc(), &asked)?, &rows));
    Ok(())
}

/// Whether the answer is printed so, with seven digits behind the point.
fn is_printed(alloc: Global, answer: Answer, expected: &str) -> Result<bool, Fail> {
    let text = answer_text(alloc, &answer, 7)?;
    Ok(text.as_str() == expected)
}

#[test]
fn printed_offsets(rt: HostRuntime) -> Result<(), Fail> {
    let some = Offsets::from_vec(vec![in rt.alloc(); 0, 12, 268_435_456]?);
    assert!(rt; is_printed(rt.alloc(), Answer::Offsets(some), "0\n12\n268435456\n")?);
    let none = Offsets::from_vec(Vec::new(rt.alloc()));
    assert!(rt; is_printed(rt.alloc(), Answer::Offsets(none), "")?);
    Ok(())
}

#[test]
fn printed_numbers(rt: HostRuntime) -> Result<(), Fail> {
    assert!(rt; is_printed(rt.alloc(), Answer::Number(0), "0\n")?);
    let many = Answer::Number(750_000_000_000_000);
    assert!(rt; is_printed(rt.alloc(), many, "750000000000000\n")?);
    let below = Answer::Number(-18_446_744_073_709_551_617);
    assert!(rt; is_printed(rt.alloc(), below, "-18446744073709551617\n")?);
    Ok(())
}

#[test]
fn printed_spreads(rt: HostRuntime) -> Result<(), Fail> {
    assert!(rt; is_printed(rt.alloc(), Answer::Spread(None), "empty\n")?);
    let spread = Answer::Spread(Some(box_of(-15_000_000, 5)));
    let expected = "-1.5000000 -1.5000000 0.0000005 0.0000005\n";
    assert!(rt; is_printed(rt.alloc(), spread, expected)?);
    Ok(())
}

#[test]
fn printed_pairs(rt: HostRuntime) -> Result<(), Fail> {
    let first = Pair {
        first: 0,
        second: 7,
    };
    let second = Pair {
        first: 12,
        second: 4_000_000_000,
    };
    let pairs = Pairs::from_vec(vec![in rt.alloc(); first, second]?);
    assert!(rt; is_printed(rt.alloc(), Answer::Pairs(pairs), "0 7\n12 4000000000\n")?);
    Ok(())
}

#[test]
fn printed_hulls(rt: HostRuntime) -> Result<(), Fail> {
    let none = Answer::Hull(path(rt.alloc(), &[])?);
    assert!(rt; is_printed(rt.alloc(), none, "empty\n")?);
    let hull = Answer::Hull(path(rt.alloc(), &[(-15_000_000, 5), (0, 7)])?);
    let expected = "-1.5000000 0.0000005\n0.0000000 0.0000007\n";
    assert!(rt; is_printed(rt.alloc(), hull, expected)?);
    Ok(())
}

#[test]
fn extents_of_two(rt: HostRuntime) -> Result<(), Fail> {
    let one = place(-3, 7);
    let other = place(2, -5);
    assert!(rt; lower_corner(one, other) == place(-3, -5));
    assert!(rt; upper_corner(one, other) == place(2, 7));
    let left = box_of(-4, 1);
    let right = box_of(0, 9);
    assert!(rt; joined_extent(left, right) == box_of(-4, 9));
    assert!(rt; joined_extent(right, left) == box_of(-4, 9));
    Ok(())
}

/// What the page of `at_query` shows.
#[test]
fn the_example_of_the_crate(rt: HostRuntime) -> Result<(), Fail> {
    let alloc = rt.alloc();
    let river = feature(alloc, &AROUND_BOX[0])?;
    let line = br#"count where has "name" = "Rhine""#;
    let query = read_query(alloc, line, 7, Coords::Exact)?;
    assert!(rt; holds(&query, &river));
    let part = part_of(alloc, &query, river)?;
    assert!(rt; matches!(part, Part::Count(1)));
    let text = answer_text(alloc, &answer_of(part), 7)?;
    assert_eq!(rt; text.as_str(), "1\n");
    Ok(())
}
