//! The hull of all positions of one shape.

ghost use Rattle.std.specs.Prelude.{◌≡◌, ◌+◌, ◌<◌, ◌≤◌, ◌↔◌, ◌++◌, All, OnOk, IfOk, IsTrue, IfSome, length};
ghost use Rattle.std.specs.Option.{IfNone};
ghost use Rattle.at_geom.specs.Segments.{IsInRange};
ghost use Rattle.at_geom.specs.Shapes.{ArePathsInRange, ArePolygonsInRange, IsShapeInRange};
ghost use Rattle.at_geom.specs.Shapes.{positions, joined, positions_of_polygons};
ghost use Rattle.at_hull.specs.Growth.{HaveOneHull, held};
ghost use Rattle.at_query.specs.Parts.{IsHullInRange};

use at_geom::{Path, Paths, Polygon, Polygons, Pos, Shape};
use at_hull::{HullBuilder, hull};
use at_text::Memory;
use std::alloc::Global;

/// So many positions at the most are gathered in one list.
const FEW: usize = 4096;

/// The hull of the positions of a shape. A point alone is its own, and takes no memory.
///
/// A few positions are sorted all at once, which is quicker. More are added to a `HullBuilder` list by list, and each
/// list is let go of once it is added.
pub(crate) fn hull_of(alloc: Global, shape: Shape) -> Result<Path, Memory>
    requires { IsShapeInRange shape }
    ensures { IfOk result (IsHullInRange (positions shape)) }
{
    if has_few(&shape) {
        hull_of_few(alloc, shape)
    } else {
        hull_of_many(alloc, shape)
    }
}

/// Whether a shape has few positions. It looks at no more lists than it needs to tell.
fn has_few(shape: &Shape) -> bool
    ensures { IsTrue result ↔ length (positions shape.now) ≤ 4096 }
{
    let Some(room) = FEW.checked_sub(shape.points.as_slice().len()) else {
        return false;
    };
    let Some(room) = room_beside_paths(room, shape.lines.as_slice()) else {
        return false;
    };
    room_beside_polygons(room, shape.polygons.as_slice()).is_some()
}

/// The room that is left beside the positions of paths, where there is enough for them.
fn room_beside_paths(room: usize, paths: &[Path]) -> Option<usize>
    ensures left { IfSome result (λ left. left + length (joined paths.now) ≡ room) }
    ensures none { IfNone result (room < length (joined paths.now)) }
{
    let mut left = room;
    for path in paths {
        left = left.checked_sub(path.as_slice().len())?;
    }
    Some(left)
}

/// The room that is left beside the positions of polygons, where there is enough for them.
fn room_beside_polygons(room: usize, polygons: &[Polygon]) -> Option<usize>
    ensures left { IfSome result (λ left. left + length (positions_of_polygons polygons.now) ≡ room) }
    ensures none { IfNone result (room < length (positions_of_polygons polygons.now)) }
{
    let mut left = room;
    for polygon in polygons {
        left = room_beside_paths(left, polygon.rings.as_slice())?;
    }
    Some(left)
}

/// Puts the positions of paths behind others.
fn push_paths(items: &mut Vec<Pos>, paths: &[Path]) -> Result<(), Memory>
    ensures { OnOk result (items.new.items ≡ items.old.items ++ joined paths.now) }
{
    for path in paths {
        items.extend_from_slice(path.as_slice())?;
    }
    Ok(())
}

/// Puts the positions of polygons behind others.
fn push_polygons(items: &mut Vec<Pos>, polygons: &[Polygon]) -> Result<(), Memory>
    ensures { OnOk result (items.new.items ≡ items.old.items ++ positions_of_polygons polygons.now) }
{
    for polygon in polygons {
        push_paths(items, polygon.rings.as_slice())?;
    }
    Ok(())
}

/// All positions of a shape. The memory of its points serves on.
fn positions_of(shape: Shape) -> Result<Path, Memory>
    ensures { IfOk result (λ path. path ≡ positions shape) }
{
    let Shape {
        points,
        lines,
        polygons,
    } = shape;
    let mut items = points.into_vec();
    push_paths(&mut items, lines.as_slice())?;
    push_polygons(&mut items, polygons.as_slice())?;
    Ok(Path::from_vec(items))
}

/// The same hull, of positions that are gathered in one list.
fn hull_of_few(alloc: Global, shape: Shape) -> Result<Path, Memory>
    requires { IsShapeInRange shape }
    ensures { IfOk result (IsHullInRange (positions shape)) }
{
    let path = positions_of(shape)?;
    if path.as_slice().len() < 2 {
        return Ok(path);
    }
    hull(alloc, &path)
}

/// The same hull, of positions that are added list by list.
fn hull_of_many(alloc: Global, shape: Shape) -> Result<Path, Memory>
    requires { IsShapeInRange shape }
    ensures { IfOk result (IsHullInRange (positions shape)) }
{
    let mut builder = HullBuilder::new(alloc);
    take_shape(&mut builder, shape)?;
    builder.into_hull()
}

/// Adds all positions of a shape to those of a hull, and lets go of each list once it is added.
fn take_shape(hull: &mut HullBuilder, shape: Shape) -> Result<(), Memory>
    requires { IsShapeInRange shape }
    ensures { IfOk result (λ _. HaveOneHull (held hull.old ++ positions shape) (held hull.new)) }
{
    let Shape {
        points,
        lines,
        polygons,
    } = shape;
    take_path(hull, points)?;
    take_paths(hull, lines)?;
    take_polygons(hull, polygons)
}

/// Adds the positions of a path to those of a hull, and lets go of it.
fn take_path(hull: &mut HullBuilder, path: Path) -> Result<(), Memory>
    requires { All IsInRange path }
    ensures { IfOk result (λ _. HaveOneHull (held hull.old ++ path) (held hull.new)) }
{
    hull.add(path.as_slice())
}

/// Adds the positions of paths to those of a hull, and lets go of each path once it is added.
fn take_paths(hull: &mut HullBuilder, paths: Paths) -> Result<(), Memory>
    requires { ArePathsInRange paths }
    ensures { IfOk result (λ _. HaveOneHull (held hull.old ++ joined paths) (held hull.new)) }
{
    for path in paths.into_vec() {
        take_path(hull, path)?;
    }
    Ok(())
}

/// Adds the positions of polygons to those of a hull, and lets go of each ring once it is added.
fn take_polygons(hull: &mut HullBuilder, polygons: Polygons) -> Result<(), Memory>
    requires { ArePolygonsInRange polygons }
    ensures { IfOk result (λ _. HaveOneHull (held hull.old ++ positions_of_polygons polygons) (held hull.new)) }
{
    for polygon in polygons.into_vec() {
        take_paths(hull, polygon.rings)?;
    }
    Ok(())
}
