//! Walks over the positions and the segments of a shape, up to the first that passes a test.

ghost use Rattle.std.specs.Prelude.{All, flat_map};
ghost use Rattle.at_geom.specs.declared.positions.Pos.{Pos};
ghost use Rattle.at_geom.specs.Segments.{IsInRange, edges};
ghost use Rattle.at_geom.specs.Shapes.{ArePathsInRange, ArePolygonsInRange, IsShapeInRange, positions, joined};
ghost use Rattle.at_geom.specs.Shapes.{positions_of_polygons, segments, segments_of_points, segments_of_polygons};
ghost use Rattle.at_geom.specs.Walks.{Searches};

use crate::positions::{Path, Pos};
use crate::shapes::{Polygon, Shape};

fn position_of_path<F: Fn(Pos) -> bool>(path: &[Pos], test: &F) -> bool
    requires path_in_range { All IsInRange path.now }
    requires callable { (p : Pos) → IsInRange p → F.pre test.now p }
    ensures { Searches (λ p r. IsInRange p × F.post test.now p r) (path.now) result }
{
    for p in path {
        if test(*p) {
            return true;
        }
    }
    false
}

fn position_of_paths<F: Fn(Pos) -> bool>(paths: &[Path], test: &F) -> bool
    requires paths_in_range { ArePathsInRange paths.now }
    requires callable { (p : Pos) → IsInRange p → F.pre test.now p }
    ensures { Searches (λ p r. IsInRange p × F.post test.now p r) (joined paths.now) result }
{
    for path in paths {
        if position_of_path(path.as_slice(), test) {
            return true;
        }
    }
    false
}

fn position_of_polygons<F: Fn(Pos) -> bool>(polygons: &[Polygon], test: &F) -> bool
    requires polygons_in_range { ArePolygonsInRange polygons.now }
    requires callable { (p : Pos) → IsInRange p → F.pre test.now p }
    ensures { Searches (λ p r. IsInRange p × F.post test.now p r) (positions_of_polygons polygons.now) result }
{
    for polygon in polygons {
        if position_of_paths(polygon.rings.as_slice(), test) {
            return true;
        }
    }
    false
}

/// Whether some position of a shape passes a test.
pub fn some_position<F: Fn(Pos) -> bool>(shape: &Shape, test: &F) -> bool
    requires shape_in_range { IsShapeInRange shape.now }
    requires callable { (p : Pos) → IsInRange p → F.pre test.now p }
    ensures { Searches (λ p r. IsInRange p × F.post test.now p r) (positions shape.now) result }
{
    if position_of_path(shape.points.as_slice(), test) {
        return true;
    }
    if position_of_paths(shape.lines.as_slice(), test) {
        return true;
    }
    position_of_polygons(shape.polygons.as_slice(), test)
}

fn segment_of_points<F: Fn(Pos, Pos) -> bool>(points: &[Pos], test: &F) -> bool
    requires points_in_range { All IsInRange points.now }
    requires callable { (a b : Pos) → IsInRange a → IsInRange b → F.pre test.now a b }
    ensures { Searches (λ e r. (IsInRange e.0 × IsInRange e.1) × F.post test.now e.0 e.1 r) (segments_of_points points.now) result }
{
    for p in points {
        if test(*p, *p) {
            return true;
        }
    }
    false
}

fn segment_of_path<F: Fn(Pos, Pos) -> bool>(path: &[Pos], test: &F) -> bool
    requires path_in_range { All IsInRange path.now }
    requires callable { (a b : Pos) → IsInRange a → IsInRange b → F.pre test.now a b }
    ensures { Searches (λ e r. (IsInRange e.0 × IsInRange e.1) × F.post test.now e.0 e.1 r) (edges path.now) result }
{
    let Some((first, rest)) = path.split_first() else {
        return false;
    };
    let mut from = *first;
    for to in rest {
        if test(from, *to) {
            return true;
        }
        from = *to;
    }
    false
}

fn segment_of_paths<F: Fn(Pos, Pos) -> bool>(paths: &[Path], test: &F) -> bool
    requires paths_in_range { ArePathsInRange paths.now }
    requires callable { (a b : Pos) → IsInRange a → IsInRange b → F.pre test.now a b }
    ensures { Searches (λ e r. (IsInRange e.0 × IsInRange e.1) × F.post test.now e.0 e.1 r) (flat_map edges paths.now) result }
{
    for path in paths {
        if segment_of_path(path.as_slice(), test) {
            return true;
        }
    }
    false
}

fn segment_of_polygons<F: Fn(Pos, Pos) -> bool>(polygons: &[Polygon], test: &F) -> bool
    requires polygons_in_range { ArePolygonsInRange polygons.now }
    requires callable { (a b : Pos) → IsInRange a → IsInRange b → F.pre test.now a b }
    ensures { Searches (λ e r. (IsInRange e.0 × IsInRange e.1) × F.post test.now e.0 e.1 r) (segments_of_polygons polygons.now) result }
{
    for polygon in polygons {
        if segment_of_paths(polygon.rings.as_slice(), test) {
            return true;
        }
    }
    false
}

/// Whether some segment of a shape passes a test: a point, as a segment to itself, or an edge of a line or ring.
pub fn some_segment<F: Fn(Pos, Pos) -> bool>(shape: &Shape, test: &F) -> bool
    requires shape_in_range { IsShapeInRange shape.now }
    requires callable { (a b : Pos) → IsInRange a → IsInRange b → F.pre test.now a b }
    ensures { Searches (λ e r. (IsInRange e.0 × IsInRange e.1) × F.post test.now e.0 e.1 r) (segments shape.now) result }
{
    if segment_of_points(shape.points.as_slice(), test) {
        return true;
    }
    if segment_of_paths(shape.lines.as_slice(), test) {
        return true;
    }
    segment_of_polygons(shape.polygons.as_slice(), test)
}
