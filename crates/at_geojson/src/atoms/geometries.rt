//! The shape of a geometry that is still to be joined with others.

ghost use Rattle.std.specs.Prelude.{◌≡◌, ◌++◌, reverse, true, IfOk};
ghost use Rattle.at_geom.specs.Shapes.{both, empty_shape as nothing};
ghost use Rattle.at_geom.specs.declared.shapes.Shape.{Shape};
ghost use Rattle.at_geojson.specs.Geometries.{in_order, turned};

use crate::joined::two_ended::TwoEnded;
use at_geom::{Path, Paths, Polygon, Polygons, Pos, Shape};
use at_text::Memory;
use std::alloc::Global;
use std::marker::Model;

/// The shape of a geometry: what was put before it, its lists turned round, and what stands behind that. Usually
/// nothing was put before.
#[derive(Drop)]
pub struct Geometry {
    before: Option<Box<Shape>>,
    behind: Shape,
}

impl Model for Geometry {
    ghost use Rattle.at_geom.specs.declared.shapes.Shape.{Shape};
    ghost use Rattle.at_geojson.specs.Geometries.{in_order};

    ghost Value = { Shape };

    ghost view = { λ g. in_order g.before g.behind };
}

/// The lists of a geometry, each of which grows at both ends.
#[derive(Drop)]
struct Growing {
    points: TwoEnded<Pos>,
    lines: TwoEnded<Path>,
    polygons: TwoEnded<Polygon>,
}

/// The lists of what was put before, turned round, and what stands behind that.
fn grown_from(before: Shape, behind: Shape) -> Growing
    ensures points { result.points ≡ reverse before.points ++ behind.points }
    ensures lines { result.lines ≡ reverse before.lines ++ behind.lines }
    ensures polygons { result.polygons ≡ reverse before.polygons ++ behind.polygons }
{
    Growing {
        points: TwoEnded::new(before.points.into_vec(), behind.points.into_vec()),
        lines: TwoEnded::new(before.lines.into_vec(), behind.lines.into_vec()),
        polygons: TwoEnded::new(before.polygons.into_vec(), behind.polygons.into_vec()),
    }
}

/// Whether a shape has nothing.
fn is_nothing(shape: &Shape) -> bool
    ensures { result ≡ true → shape.now ≡ nothing }
{
    shape.points.as_slice().is_empty()
        && shape.lines.as_slice().is_empty()
        && shape.polygons.as_slice().is_empty()
}

/// A shape's lists turned round, or nothing where all are empty.
fn boxed(alloc: Global, before: Shape) -> Result<Option<Box<Shape>>, Memory>
    ensures { IfOk result (λ b. (s : Shape) → in_order b s ≡ both (turned before) s) }
{
    if is_nothing(&before) {
        return Ok(None);
    }
    Ok(Some(Box::new(alloc, before)?))
}

/// A shape of no parts.
fn no_parts(alloc: Global) -> Shape
    ensures { result ≡ nothing }
{
    Shape {
        points: Path::from_vec(Vec::new(alloc)),
        lines: Paths::from_vec(Vec::new(alloc)),
        polygons: Polygons::from_vec(Vec::new(alloc)),
    }
}

/// What was put before.
fn unboxed(alloc: Global, before: Option<Box<Shape>>) -> Shape
    ensures { (s : Shape) → in_order before s ≡ both (turned result) s }
{
    match before {
        Some(before) => Box::into_inner(before),
        None => no_parts(alloc),
    }
}

impl Growing {
    /// Both, list by list.
    fn joined(left: Growing, right: Growing) -> Result<Growing, Memory>
        ensures points { IfOk result (λ g. g.points ≡ left.points ++ right.points) }
        ensures lines { IfOk result (λ g. g.lines ≡ left.lines ++ right.lines) }
        ensures polygons { IfOk result (λ g. g.polygons ≡ left.polygons ++ right.polygons) }
    {
        Ok(Growing {
            points: TwoEnded::joined(left.points, right.points)?,
            lines: TwoEnded::joined(left.lines, right.lines)?,
            polygons: TwoEnded::joined(left.polygons, right.polygons)?,
        })
    }

    /// The lists in one shape.
    fn into_shape(self) -> Result<Shape, Memory>
        ensures points { IfOk result (λ s. s.points ≡ self.points) }
        ensures lines { IfOk result (λ s. s.lines ≡ self.lines) }
        ensures polygons { IfOk result (λ s. s.polygons ≡ self.polygons) }
    {
        Ok(Shape {
            points: Path::from_vec(self.points.into_vec()?),
            lines: Paths::from_vec(self.lines.into_vec()?),
            polygons: Polygons::from_vec(self.polygons.into_vec()?),
        })
    }

    /// The lists as a geometry.
    fn into_geometry(self, alloc: Global) -> Result<Geometry, Memory>
        ensures points { IfOk result (λ g. g.points ≡ self.points) }
        ensures lines { IfOk result (λ g. g.lines ≡ self.lines) }
        ensures polygons { IfOk result (λ g. g.polygons ≡ self.polygons) }
    {
        let (points_before, points) = self.points.into_parts();
        let (lines_before, lines) = self.lines.into_parts();
        let (polygons_before, polygons) = self.polygons.into_parts();
        let before = Shape {
            points: Path::from_vec(points_before),
            lines: Paths::from_vec(lines_before),
            polygons: Polygons::from_vec(polygons_before),
        };
        let behind = Shape {
            points: Path::from_vec(points),
            lines: Paths::from_vec(lines),
            polygons: Polygons::from_vec(polygons),
        };
        Ok(Geometry {
            before: boxed(alloc, before)?,
            behind,
        })
    }
}

impl Geometry {
    /// The geometry of a shape. It takes no memory.
    pub fn from_shape(shape: Shape) -> Self
        ensures { result ≡ shape }
    {
        Geometry {
            before: None,
            behind: shape,
        }
    }

    /// The shape of the geometry. Where nothing was put before, it takes no memory.
    pub fn into_shape(self) -> Result<Shape, Memory>
        ensures { IfOk result (λ s. s ≡ self) }
    {
        let Geometry { before, behind } = self;
        match before {
            None => Ok(behind),
            Some(before) => grown_from(Box::into_inner(before), behind).into_shape(),
        }
    }

    /// The lists of the geometry.
    fn into_growing(self, alloc: Global) -> Growing
        ensures points { result.points ≡ self.points }
        ensures lines { result.lines ≡ self.lines }
        ensures polygons { result.polygons ≡ self.polygons }
    {
        grown_from(unboxed(alloc, self.before), self.behind)
    }

    /// Whether the geometry has nothing.
    fn is_nothing(&self) -> bool
        ensures { result ≡ true → self.now ≡ nothing }
    {
        self.before.is_none() && is_nothing(&self.behind)
    }

    /// The parts of both geometries, in order.
    pub fn joined(alloc: Global, left: Self, right: Self) -> Result<Self, Memory>
        ensures { IfOk result (λ g. g ≡ both left right) }
    {
        if left.is_nothing() {
            return Ok(right);
        }
        let grown = Growing::joined(left.into_growing(alloc), right.into_growing(alloc))?;
        grown.into_geometry(alloc)
    }
}
