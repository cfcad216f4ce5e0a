//! Tables of shapes that meet and shapes that don't, and of large shapes.

ghost use Rattle.std.specs.Prelude.{IfOk, IfSome, OnOk, All};
ghost use Rattle.at_geom.specs.Segments.{IsInRange};
ghost use Rattle.at_geom.specs.Shapes.{ArePathsInRange, ArePolygonsInRange, IsShapeInRange};

use at_band::Bands;
use at_geom::{Path, Paths, Polygon, Polygons, Pos, Shape};
use std::alloc::{AllocError, Global};
use std::test::Fail;

/// A shape is told by its points, a bar, its line, a bar, its exterior, a bar and its hole, each of which may be
/// left out.
const EMPTY: &str = "|||";

/// A square, and a square hole in it.
const SQUARE: &str = "||0,0 10,0 10,10 0,10 0,0|4,4 6,4 6,6 4,6 4,4";

/// A line at one height.
const LEVEL: &str = "|0,0 4,0||";

/// A line of one segment over all of its heights.
const SLOPE: &str = "|0,0 640,640||";

/// A point, a line and a triangle, apart from each other.
const MIXED: &str = "5,-7|20,20 30,20|40,0 50,0 40,10 40,0|";

/// Whether shapes meet the one without positions, a bar, the shape: a point, nothing, and a polygon.
const AROUND_NOTHING: &str = "false|1,1|||
false||||
false|||-9,-9 90,-9 -9,90 -9,-9|";

/// Whether shapes meet the square, a bar, the shape. These are points in it, on its exterior, on its hole, in its
/// hole, on a corner of the hole and outside, and points of which one is in it; lines across, within, in the hole,
/// out of the hole, beside it and above it; polygons around it, beside it and in it, and one whose hole it is in;
/// an open exterior across; the square itself; nothing.
const AROUND_SQUARE: &str = "true|1,1|||
true|0,5|||
true|4,5|||
false|5,5|||
true|6,6|||
false|11,5|||
true|11,5 5,5 9,9|||
true||-1,5 11,5||
true||1,1 2,2||
false||5,5 5,5||
true||5,5 5,7||
false||11,0 11,10||
false||0,11 10,12||
true|||-9,-9 90,-9 -9,90 -9,-9|
false|||11,0 20,0 20,10 11,0|
true|||1,1 2,1 2,2 1,1|
false|||-9,-9 90,-9 -9,90 -9,-9|-2,-2 12,-2 12,12 -2,12 -2,-2
true|||5,-5 5,20|
true|||0,0 10,0 10,10 0,10 0,0|4,4 6,4 6,6 4,6 4,4
false||||";

/// Whether shapes meet the line at one height, a bar, the shape. These are points at its end, on it, behind it and
/// above it; lines from it, over it, across it, from its end, behind it and above it; a polygon around it.
const AROUND_LEVEL: &str = "true|0,0|||
true|3,0|||
false|5,0|||
false|2,1|||
true||2,0 2,3||
true||-2,0 9,0||
true||1,-1 3,1||
true||4,0 9,0||
false||5,0 9,0||
false||-2,1 9,1||
true|||-1,-1 9,-1 0,9 -1,-1|";

/// Whether shapes meet the line over many heights, a bar, the shape. These are a point on it and one beside it;
/// lines across, beside at its slope, at its end, upright and level across, above, on it and beneath; a polygon
/// above it.
const AROUND_SLOPE: &str = "true|320,320|||
false|320,321|||
true||0,640 640,0||
false||0,1 639,640||
true||640,640 700,0||
true||100,90 100,110||
true||-5,300 700,300||
false||100,101 100,640||
true||10,10 20,20||
false||10,9 639,630||
false|||100,200 300,400 100,400 100,200|";

/// Whether shapes meet the point, the line and the triangle, a bar, the shape. These are points on the point, above
/// it, on the line, behind it, in the triangle, on its longest edge and beside that; lines over the point, above it,
/// across the line, beneath it, between the line and the triangle and across the triangle; a polygon around them
/// and one between them.
const AROUND_MIXED: &str = "true|5,-7|||
false|5,-6|||
true|25,20|||
false|31,20|||
true|42,2|||
true|45,5|||
false|46,5|||
true||0,-7 9,-7||
false||0,-6 39,-6||
true||25,0 25,30||
false||25,0 25,19||
false||35,-30 35,30||
true||35,5 60,5||
true|||-9,-9 300,-9 -9,300 -9,-9|
false|||0,0 19,0 19,19 0,0|";

/// Whether shapes meet the tower of 10,000 floors, a bar, the shape. These are points in it, on its upright side,
/// beside that, on and between the ends of its ragged side, on its top, above and beneath it; lines over all of its
/// heights, across, beside and along its side, a short one to its ragged side and two off that, one into it and one in
/// it; polygons around it, in it and beside it, and one whose hole it is in.
const AROUND_TOWER: &str = "true|50,5000|||
true|100,7777|||
false|101,7777|||
true|0,5000|||
false|-1,5000|||
false|9,5001|||
true|10,5001|||
true|50,10000|||
false|50,10001|||
false|50,-1|||
true||5,-10 5,10010||
false||-1,-10 -1,10010||
true||100,-10 100,10010||
false||101,0 101,10000||
true||9,5001 10,5001||
false||0,5001 9,5001||
false||8,5001 1,5001||
true||-5,2500 5,2502||
true||40,100 60,9000||
true|||-9,-9 200,-9 200,20000 -9,20000 -9,-9|
true|||50,50 60,50 60,60 50,50|
false|||-50,50 -10,9000 -60,60 -50,50|
false|||-99,-99 300,-99 300,20000 -99,20000 -99,-99|-9,-9 200,-9 200,10009 -9,10009 -9,-9";

/// Whether shapes meet the line of 10,000 positions at the height 7, a bar, the shape. These are points on it, above it
/// and behind it; lines across, before it, over its end and behind it; a polygon around it.
const AROUND_FLAT: &str = "true|3,7|||
false|3,8|||
false|20000,7|||
true||5,0 5,20||
false||-5,0 -5,20||
true||19990,7 30000,7||
false||20000,7 30000,7||
true|||-9,-9 90000,-9 0,90 -9,-9|";

fn at(x: i32, y: i32) -> Pos
    ensures { IsInRange result }
{
    Pos {
        x: i64::from(x),
        y: i64::from(y),
    }
}

fn place(text: &str) -> Option<Pos>
    ensures { IfSome result IsInRange }
{
    let (x, y) = text.split_once(',')?;
    let x = x.parse::<i32>().ok()?;
    let y = y.parse::<i32>().ok()?;
    Some(at(x, y))
}

fn path(alloc: Global, text: &str) -> Result<Path, Fail>
    ensures { IfOk result (λ p. All IsInRange p) }
{
    let mut items = Vec::new(alloc);
    for word in text.split_whitespace() {
        items.push(place(word).ok_or("a place")?)?;
    }
    Ok(Path::from_vec(items))
}

fn push(paths: &mut Vec<Path>, path: Path) -> Result<(), AllocError>
    requires paths_in_range { ArePathsInRange paths.old.items }
    requires path_in_range { All IsInRange path }
    ensures { OnOk result (ArePathsInRange paths.new.items) }
{
    paths.push(path)?;
    Ok(())
}

/// The paths of two texts, without those that have no place.
fn paths(alloc: Global, first: &str, second: &str) -> Result<Paths, Fail>
    ensures { IfOk result (λ p. ArePathsInRange p) }
{
    let mut items = Vec::new(alloc);
    if !first.is_empty() {
        push(&mut items, path(alloc, first)?)?;
    }
    if !second.is_empty() {
        push(&mut items, path(alloc, second)?)?;
    }
    Ok(Paths::from_vec(items))
}

fn polygon(alloc: Global, exterior: &str, hole: &str) -> Result<Polygon, Fail>
    ensures { IfOk result (λ p. ArePathsInRange p.rings) }
{
    Ok(Polygon {
        rings: paths(alloc, exterior, hole)?,
    })
}

fn polygons(alloc: Global, text: &str) -> Result<Polygons, Fail>
    ensures { IfOk result ArePolygonsInRange }
{
    let (exterior, hole) = text.split_once('|').ok_or("a bar")?;
    let mut items = Vec::new(alloc);
    if !exterior.is_empty() {
        items.push(polygon(alloc, exterior, hole)?)?;
    }
    Ok(Polygons::from_vec(items))
}

fn shape(alloc: Global, text: &str) -> Result<Shape, Fail>
    ensures { IfOk result IsShapeInRange }
{
    let (points, rest) = text.split_once('|').ok_or("a bar")?;
    let (line, rest) = rest.split_once('|').ok_or("a bar")?;
    Ok(Shape {
        points: path(alloc, points)?,
        lines: paths(alloc, line, "")?,
        polygons: polygons(alloc, rest)?,
    })
}

fn of_line(alloc: Global, items: Vec<Pos>) -> Result<Shape, Fail>
    requires { All IsInRange items.items }
    ensures { IfOk result IsShapeInRange }
{
    let mut lines = Vec::new(alloc);
    push(&mut lines, Path::from_vec(items))?;
    Ok(Shape {
        points: path(alloc, "")?,
        lines: Paths::from_vec(lines),
        polygons: Polygons::from_vec(Vec::new(alloc)),
    })
}

fn of_exterior(alloc: Global, items: Vec<Pos>) -> Result<Shape, Fail>
    requires { All IsInRange items.items }
    ensures { IfOk result IsShapeInRange }
{
    let mut rings = Vec::new(alloc);
    push(&mut rings, Path::from_vec(items))?;
    let mut polygons = Vec::new(alloc);
    polygons.push(Polygon {
        rings: Paths::from_vec(rings),
    })?;
    Ok(Shape {
        points: path(alloc, "")?,
        lines: paths(alloc, "", "")?,
        polygons: Polygons::from_vec(polygons),
    })
}

fn add(items: &mut Vec<Pos>, x: i32, y: i32) -> Result<(), AllocError>
    requires { All IsInRange items.old.items }
    ensures { OnOk result (All IsInRange items.new.items) }
{
    items.push(at(x, y))?;
    Ok(())
}

/// A comb: teeth that are 4 wide and 1,000 high, side by side on a bar that is 10 high.
fn comb(alloc: Global, teeth: i32) -> Result<Shape, Fail>
    ensures { IfOk result IsShapeInRange }
{
    let mut items = Vec::new(alloc);
    add(&mut items, 0, -10)?;
    for tooth in 0..teeth {
        let x = tooth.wrapping_mul(4);
        add(&mut items, x, 0)?;
        add(&mut items, x.wrapping_add(2), 1000)?;
    }
    let x = teeth.wrapping_mul(4);
    add(&mut items, x, 0)?;
    add(&mut items, x, -10)?;
    add(&mut items, 0, -10)?;
    of_exterior(alloc, items)
}

/// A tower that is 100 wide, with a ragged side of segments that go to and fro by 10, one on each floor, and an
/// upright side of one segment.
fn tower(alloc: Global, floors: i32) -> Result<Shape, Fail>
    ensures { IfOk result IsShapeInRange }
{
    let mut items = Vec::new(alloc);
    for floor in 0..floors {
        let x = if floor % 2 == 0 { 0 } else { 10 };
        add(&mut items, x, floor)?;
    }
    add(&mut items, 0, floors)?;
    add(&mut items, 100, floors)?;
    add(&mut items, 100, 0)?;
    add(&mut items, 0, 0)?;
    of_exterior(alloc, items)
}

/// A line of so many positions at the height 7.
fn flat(alloc: Global, count: i32) -> Result<Shape, Fail>
    ensures { IfOk result IsShapeInRange }
{
    let mut items = Vec::new(alloc);
    for index in 0..count {
        add(&mut items, index.wrapping_mul(2), 7)?;
    }
    of_line(alloc, items)
}

fn kept(alloc: Global, text: &str) -> Result<Bands, Fail>
    ensures { IfOk result IsShapeInRange }
{
    let one = shape(alloc, text)?;
    Ok(Bands::new(alloc, &one)?)
}

/// Whether the kept shape meets that of a row exactly where the row says so.
fn is_as_told(alloc: Global, bands: &Bands, row: &str) -> Result<bool, Fail>
    requires { IsShapeInRange bands.now }
{
    let (meets, text) = row.split_once('|').ok_or("a bar")?;
    let other = shape(alloc, text)?;
    Ok(bands.meets(&other) == (meets == "true"))
}

/// How many rows are as told, up to the first that isn't.
fn count_as_told(alloc: Global, bands: &Bands, rows: &str) -> Result<u32, Fail>
    requires { IsShapeInRange bands.now }
{
    let mut count = 0u32;
    for row in rows.lines() {
        if !is_as_told(alloc, bands, row)? {
            return Ok(count);
        }
        count = count.wrapping_add(1);
    }
    Ok(count)
}

fn meets_point(alloc: Global, bands: &Bands, x: i32, y: i32) -> Result<bool, Fail>
    requires { IsShapeInRange bands.now }
{
    let mut items = Vec::new(alloc);
    add(&mut items, x, y)?;
    let point = Shape {
        points: Path::from_vec(items),
        lines: Paths::from_vec(Vec::new(alloc)),
        polygons: Polygons::from_vec(Vec::new(alloc)),
    };
    Ok(bands.meets(&point))
}

/// Whether points in the middle of a comb's tooth and in the bar meet it, one on the tooth's side does, and those
/// beside that and between the teeth don't.
fn tooth_is_as_built(alloc: Global, bands: &Bands, tooth: i32) -> Result<bool, Fail>
    requires { IsShapeInRange bands.now }
{
    let x = tooth.wrapping_mul(4);
    let in_tooth = meets_point(alloc, bands, x.wrapping_add(2), 500)?;
    let in_bar = meets_point(alloc, bands, x, -5)?;
    let on_side = meets_point(alloc, bands, x.wrapping_add(1), 500)?;
    let beside = meets_point(alloc, bands, x.wrapping_add(1), 501)?;
    let between = meets_point(alloc, bands, x, 500)?;
    Ok(in_tooth && in_bar && on_side && !beside && !between)
}

/// How many of a hundred of a comb's teeth are as they were built, up to the first that isn't.
fn count_as_built(alloc: Global, bands: &Bands) -> Result<i32, Fail>
    requires { IsShapeInRange bands.now }
{
    for index in 0..100i32 {
        if !tooth_is_as_built(alloc, bands, index.wrapping_mul(101))? {
            return Ok(index);
        }
    }
    Ok(100)
}

#[test]
fn nothing(rt: HostRuntime) -> Result<(), Fail> {
    let bands = kept(rt.alloc(), EMPTY)?;
    assert_eq!(rt; count_as_told(rt.alloc(), &bands, AROUND_NOTHING)?, 3);
    Ok(())
}

#[test]
fn square(rt: HostRuntime) -> Result<(), Fail> {
    let bands = kept(rt.alloc(), SQUARE)?;
    assert_eq!(rt; count_as_told(rt.alloc(), &bands, AROUND_SQUARE)?, 20);
    Ok(())
}

#[test]
fn copied_square(rt: HostRuntime) -> Result<(), Fail> {
    let bands = kept(rt.alloc(), SQUARE)?;
    let copied = bands.copy(rt.alloc())?;
    assert_eq!(rt; count_as_told(rt.alloc(), &copied, AROUND_SQUARE)?, 20);
    Ok(())
}

#[test]
fn lines(rt: HostRuntime) -> Result<(), Fail> {
    let level = kept(rt.alloc(), LEVEL)?;
    assert_eq!(rt; count_as_told(rt.alloc(), &level, AROUND_LEVEL)?, 11);
    let slope = kept(rt.alloc(), SLOPE)?;
    assert_eq!(rt; count_as_told(rt.alloc(), &slope, AROUND_SLOPE)?, 11);
    Ok(())
}

#[test]
fn mixed(rt: HostRuntime) -> Result<(), Fail> {
    let bands = kept(rt.alloc(), MIXED)?;
    assert_eq!(rt; count_as_told(rt.alloc(), &bands, AROUND_MIXED)?, 15);
    Ok(())
}

#[test]
fn teeth(rt: HostRuntime) -> Result<(), Fail> {
    let bands = Bands::new(rt.alloc(), &comb(rt.alloc(), 10_000)?)?;
    assert_eq!(rt; count_as_built(rt.alloc(), &bands)?, 100);
    Ok(())
}

#[test]
fn floors(rt: HostRuntime) -> Result<(), Fail> {
    let bands = Bands::new(rt.alloc(), &tower(rt.alloc(), 10_000)?)?;
    assert_eq!(rt; count_as_told(rt.alloc(), &bands, AROUND_TOWER)?, 23);
    Ok(())
}

#[test]
fn one_height(rt: HostRuntime) -> Result<(), Fail> {
    let bands = Bands::new(rt.alloc(), &flat(rt.alloc(), 10_000)?)?;
    assert_eq!(rt; count_as_told(rt.alloc(), &bands, AROUND_FLAT)?, 8);
    Ok(())
}

/// What the page of `at_band` shows.
#[test]
fn the_example_of_the_crate(rt: HostRuntime) -> Result<(), Fail> {
    let alloc = rt.alloc();
    let town = shape(alloc, "2,2|||")?;
    let line = Path::from_vec(vec![in alloc; Pos { x: 0, y: 0 }, Pos { x: 4, y: 4 }]?);
    let road = Shape {
        points: Path::from_vec(Vec::new(alloc)),
        lines: Paths::from_vec(vec![in alloc; line]?),
        polygons: Polygons::from_vec(Vec::new(alloc)),
    };
    let bands = Bands::new(alloc, &road)?;
    assert!(rt; bands.meets(&town));
    Ok(())
}
