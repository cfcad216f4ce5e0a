//! Rings of many edges.

ghost use Rattle.std.specs.Prelude.{IfOk, All};
ghost use Rattle.at_geom.specs.Segments.{IsInRange};
ghost use Rattle.at_geom.specs.Shapes.{ArePathsInRange, ArePolygonsInRange, IsShapeInRange};

use at_geom::{Path, Paths, Polygon, Polygons, Pos, Shape};
use at_text::Memory;
use bench_shared::Random;
use std::alloc::Global;

/// The position of these coordinates, each below 2^20.
pub fn position_of(x: u64, y: u64) -> Pos
    ensures { IsInRange result }
{
    Pos {
        x: i64::from((x % 1_048_576) as u32),
        y: i64::from((y % 1_048_576) as u32),
    }
}

/// The position on a square of 2^20 units that stands on its corner, `t` of `of` parts of the way round it, moved
/// inwards.
fn on_square(t: u64, of: u64, inwards: u64) -> Pos
    ensures { IsInRange result }
{
    let half = 524_287;
    let parts = of.max(1);
    let side = t.wrapping_mul(4) / parts;
    let along = t.wrapping_mul(4).wrapping_mul(half) / parts;
    let a = along.wrapping_sub(side.wrapping_mul(half));
    let b = half.wrapping_sub(a);
    let right = half.wrapping_sub(inwards);
    let left = half.wrapping_add(inwards);
    match side {
        0 => position_of(right.wrapping_add(b), half.wrapping_add(a)),
        1 => position_of(left.wrapping_sub(a), half.wrapping_add(b)),
        2 => position_of(left.wrapping_sub(b), half.wrapping_sub(a)),
        _ => position_of(right.wrapping_add(a), half.wrapping_sub(b)),
    }
}

/// A closed ring of `edges` edges round the middle of the square of positions.
pub fn ring(alloc: Global, random: &mut Random, edges: u64) -> Result<Path, Memory>
    ensures { IfOk result (λ p. All IsInRange p) }
{
    let first = on_square(0, edges, 0);
    let mut items: Vec<Pos> = Vec::new(alloc);
    items.push(first)?;
    for t in 1..edges {
        items.push(on_square(t, edges, random.below()))?;
    }
    items.push(first)?;
    Ok(Path::from_vec(items))
}

/// The shape of a polygon of one ring.
pub fn of_ring(alloc: Global, exterior: Path) -> Result<Shape, Memory>
    requires { All IsInRange exterior }
    ensures { IfOk result IsShapeInRange }
{
    let mut rings = Vec::new(alloc);
    rings.push(exterior)?;
    let mut polygons = Vec::new(alloc);
    polygons.push(Polygon {
        rings: Paths::from_vec(rings),
    })?;
    Ok(Shape {
        points: Path::from_vec(Vec::new(alloc)),
        lines: Paths::from_vec(Vec::new(alloc)),
        polygons: Polygons::from_vec(polygons),
    })
}

/// The shape of a point.
pub fn of_point(alloc: Global, p: Pos) -> Result<Shape, Memory>
    requires { IsInRange p }
    ensures { IfOk result IsShapeInRange }
{
    let mut points = Vec::with_capacity(alloc, 1)?;
    points.push(p)?;
    Ok(Shape {
        points: Path::from_vec(points),
        lines: Paths::from_vec(Vec::new(alloc)),
        polygons: Polygons::from_vec(Vec::new(alloc)),
    })
}

/// The shape of a line from one position to another.
pub fn of_line(alloc: Global, a: Pos, b: Pos) -> Result<Shape, Memory>
    requires a_in_range { IsInRange a }
    requires b_in_range { IsInRange b }
    ensures { IfOk result IsShapeInRange }
{
    let mut points = Vec::with_capacity(alloc, 2)?;
    points.push(a)?;
    points.push(b)?;
    let mut lines = Vec::with_capacity(alloc, 1)?;
    lines.push(Path::from_vec(points))?;
    Ok(Shape {
        points: Path::from_vec(Vec::new(alloc)),
        lines: Paths::from_vec(lines),
        polygons: Polygons::from_vec(Vec::new(alloc)),
    })
}
