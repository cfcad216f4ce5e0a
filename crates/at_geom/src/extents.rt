//! The extent of a shape, and whether a shape lies in one.

ghost use Rattle.std.specs.Prelude.{◌≡◌, fold};
ghost use Rattle.at_geom.specs.Shapes.{positions, joined, positions_of_polygons, extent_of, widened, are_all_within};

use crate::positions::{Path, Pos};
use crate::rectangles::Extent;
use crate::shapes::{Polygon, Shape};

/// The least and greatest x and y over all positions of a shape, in whole units; None exactly where it has no
/// position.
pub fn extent(shape: &Shape) -> Option<Extent>
    ensures { result ≡ extent_of (positions shape.now) }
{
    let of_points = widened_by_path(None, shape.points.as_slice());
    let with_lines = widened_by_paths(of_points, shape.lines.as_slice());
    widened_by_polygons(with_lines, shape.polygons.as_slice())
}

/// Whether the shape has a position, and each of its positions is in the closed extent.
pub fn all_in(shape: &Shape, extent: Extent) -> bool
    ensures { result ≡ are_all_within extent (positions shape.now) }
{
    match self::extent(shape) {
        None => false,
        Some(covered) => extent.encloses(covered),
    }
}

fn widened_by_path(start: Option<Extent>, path: &[Pos]) -> Option<Extent>
    ensures { result ≡ fold (λ e p. Some (widened p e)) start path.now }
{
    let Some((first, rest)) = path.split_first() else {
        return start;
    };
    let mut covered = match start {
        None => Extent {
            low: *first,
            high: *first,
        },
        Some(before) => before.widened(*first),
    };
    for p in rest {
        covered = covered.widened(*p);
    }
    Some(covered)
}

fn widened_by_paths(start: Option<Extent>, paths: &[Path]) -> Option<Extent>
    ensures { result ≡ fold (λ e p. Some (widened p e)) start (joined paths.now) }
{
    let mut covered = start;
    for path in paths {
        covered = widened_by_path(covered, path.as_slice());
    }
    covered
}

fn widened_by_polygons(start: Option<Extent>, polygons: &[Polygon]) -> Option<Extent>
    ensures { result ≡ fold (λ e p. Some (widened p e)) start (positions_of_polygons polygons.now) }
{
    let mut covered = start;
    for polygon in polygons {
        covered = widened_by_paths(covered, polygon.rings.as_slice());
    }
    covered
}
