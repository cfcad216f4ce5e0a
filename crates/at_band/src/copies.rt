//! Shapes that are equal to others.

ghost use Rattle.std.specs.Prelude.{◌≡◌, IfOk};

use at_geom::{Path, Paths, Polygon, Polygons, Pos, Shape};
use at_text::Memory;
use std::alloc::Global;

fn copied_path(alloc: Global, path: &[Pos]) -> Result<Path, Memory>
    ensures { IfOk result (λ p. p ≡ path.now) }
{
    let mut items = Vec::with_capacity(alloc, path.len())?;
    items.extend_from_slice(path)?;
    Ok(Path::from_vec(items))
}

fn copied_paths(alloc: Global, paths: &[Path]) -> Result<Paths, Memory>
    ensures { IfOk result (λ p. p ≡ paths.now) }
{
    let mut items = Vec::with_capacity(alloc, paths.len())?;
    for path in paths {
        items.push(copied_path(alloc, path.as_slice())?)?;
    }
    Ok(Paths::from_vec(items))
}

fn copied_polygons(alloc: Global, polygons: &[Polygon]) -> Result<Polygons, Memory>
    ensures { IfOk result (λ p. p ≡ polygons.now) }
{
    let mut items = Vec::with_capacity(alloc, polygons.len())?;
    for polygon in polygons {
        let rings = copied_paths(alloc, polygon.rings.as_slice())?;
        items.push(Polygon { rings })?;
    }
    Ok(Polygons::from_vec(items))
}

pub(crate) fn copied_shape(alloc: Global, shape: &Shape) -> Result<Shape, Memory>
    ensures { IfOk result (λ s. s ≡ shape.now) }
{
    Ok(Shape {
        points: copied_path(alloc, shape.points.as_slice())?,
        lines: copied_paths(alloc, shape.lines.as_slice())?,
        polygons: copied_polygons(alloc, shape.polygons.as_slice())?,
    })
}
