//! Geometries of points, lines and polygons, and how they are joined.

ghost use Rattle.std.specs.Prelude.{◌≡◌, [], ◌∷◌, IfOk};
ghost use Rattle.at_geom.specs.Shapes.{of_points as points_shape, of_lines as lines_shape};
ghost use Rattle.at_geom.specs.Shapes.{of_polygons as polygons_shape, empty_shape as nothing};
ghost use Rattle.at_query.specs.Keeping.{kept};
ghost use Rattle.at_geojson.specs.Gathering.{JoinsShapes};

use crate::atoms::geometries::Geometry;
use at_geom::{Path, Paths, Polygon, Polygons, Pos, Shape};
use at_text::{Fault, Memory, first_fault, first_of_two};
use std::alloc::Global;

/// The shape of points.
#[inline(always)]
pub fn of_points(alloc: Global, points: Vec<Pos>) -> Geometry
    ensures { result ≡ points_shape points.items }
{
    Geometry::from_shape(Shape {
        points: Path::from_vec(points),
        lines: Paths::from_vec(Vec::new(alloc)),
        polygons: Polygons::from_vec(Vec::new(alloc)),
    })
}

/// The shape of lines.
#[inline(always)]
pub fn of_lines(alloc: Global, lines: Vec<Path>) -> Geometry
    ensures { result ≡ lines_shape lines.items }
{
    Geometry::from_shape(Shape {
        points: Path::from_vec(Vec::new(alloc)),
        lines: Paths::from_vec(lines),
        polygons: Polygons::from_vec(Vec::new(alloc)),
    })
}

/// The shape of polygons.
#[inline(always)]
pub fn of_polygons(alloc: Global, polygons: Vec<Polygon>) -> Geometry
    ensures { result ≡ polygons_shape polygons.items }
{
    Geometry::from_shape(Shape {
        points: Path::from_vec(Vec::new(alloc)),
        lines: Paths::from_vec(Vec::new(alloc)),
        polygons: Polygons::from_vec(polygons),
    })
}

/// The shape of nothing.
pub fn empty_shape(alloc: Global) -> Geometry
    ensures { result ≡ nothing }
{
    of_points(alloc, Vec::new(alloc))
}

/// A list of one point, where shapes are kept.
#[inline(always)]
pub fn one_point(alloc: Global, needs: bool, pos: Pos) -> Result<Vec<Pos>, Memory>
    ensures { IfOk result (λ points. points.items ≡ kept needs (pos ∷ [])) }
{
    if !needs {
        return Ok(Vec::new(alloc));
    }
    let mut points = Vec::with_capacity(alloc, 1)?;
    points.push(pos)?;
    Ok(points)
}

/// A list of one line, where shapes are kept.
#[inline(always)]
pub fn one_line(alloc: Global, needs: bool, path: Vec<Pos>) -> Result<Vec<Path>, Memory>
    ensures { IfOk result (λ lines. lines.items ≡ kept needs (path.items ∷ [])) }
{
    if !needs {
        return Ok(Vec::new(alloc));
    }
    let mut lines = Vec::with_capacity(alloc, 1)?;
    lines.push(Path::from_vec(path))?;
    Ok(lines)
}

/// A list of one polygon, where shapes are kept.
#[inline(always)]
pub fn one_polygon(alloc: Global, needs: bool, rings: Vec<Path>) -> Result<Vec<Polygon>, Memory>
    ensures { IfOk result (λ polygons. polygons.items ≡ kept needs (record { rings = rings.items } ∷ [])) }
{
    if !needs {
        return Ok(Vec::new(alloc));
    }
    let mut polygons = Vec::with_capacity(alloc, 1)?;
    polygons.push(Polygon {
        rings: Paths::from_vec(rings),
    })?;
    Ok(polygons)
}

/// Shapes one behind another: both, where neither has a fault, and else the first fault.
pub fn joined_shapes(
    alloc: Global,
    left: Result<Geometry, Fault>,
    right: Result<Geometry, Fault>,
) -> Result<Result<Geometry, Fault>, Memory>
    ensures { IfOk result (JoinsShapes left right) }
{
    match (left, right) {
        (Ok(before), Ok(behind)) => Ok(Ok(Geometry::joined(alloc, before, behind)?)),
        (Ok(_), Err(fault)) => Ok(Err(fault)),
        (Err(fault), Ok(_)) => Ok(Err(fault)),
        (Err(fault), Err(other)) => Ok(Err(first_of_two(fault, other))),
    }
}
