//! Whether a position lies on one of a shape's segments or in one of its polygons, in one pass.

ghost use Rattle.std.specs.Prelude.{IsTrue, ◌↔◌, ◌∷◌, All};
ghost use Rattle.at_text.specs.Lists.{SomeOf};
ghost use Rattle.at_geom.specs.Segments.{IsInRange};
ghost use Rattle.at_geom.specs.Regions.{IsOnRing};
ghost use Rattle.at_geom.specs.Shapes.{ArePathsInRange, ArePolygonsInRange, IsShapeInRange, MeetsSome};
ghost use Rattle.at_geom.specs.Shapes.{segments_of_points};
ghost use Rattle.at_band.specs.Touched.{IsOnRings, IsOnPolygon, IsOnShape};

use at_geom::{Path, Polygon, Pos, RingPlace, Shape, is_in_no_hole, place_in_ring, segments_meet};

fn path_is_touched(p: Pos, path: &[Pos]) -> bool
    requires p_in_range { IsInRange p }
    requires path_in_range { All IsInRange path.now }
    ensures { IsTrue result ↔ IsOnRing p path.now }
{
    match place_in_ring(p, path) {
        RingPlace::Boundary => true,
        RingPlace::Inside | RingPlace::Outside => false,
    }
}

fn paths_are_touched(p: Pos, paths: &[Path]) -> bool
    requires p_in_range { IsInRange p }
    requires paths_in_range { ArePathsInRange paths.now }
    ensures { IsTrue result ↔ SomeOf (IsOnRing p) paths.now }
{
    for path in paths {
        if path_is_touched(p, path.as_slice()) {
            return true;
        }
    }
    false
}

fn points_are_touched(p: Pos, points: &[Pos]) -> bool
    requires p_in_range { IsInRange p }
    requires points_in_range { All IsInRange points.now }
    ensures { IsTrue result ↔ MeetsSome p p (segments_of_points points.now) }
{
    for q in points {
        if segments_meet(p, p, *q, *q) {
            return true;
        }
    }
    false
}

/// Whether the position is on one of the rings or in the polygon.
fn polygon_is_touched(p: Pos, polygon: &Polygon) -> bool
    requires p_in_range { IsInRange p }
    requires polygon_in_range { ArePathsInRange polygon.now.rings }
    ensures { IsTrue result ↔ IsOnPolygon p polygon.now }
{
    let Some((exterior, holes)) = polygon.rings.as_slice().split_first() else {
        return false;
    };
    rings_are_touched(p, exterior.as_slice(), holes)
}

/// Whether the position is on one of the rings, or in the polygon that they make.
fn rings_are_touched(p: Pos, exterior: &[Pos], holes: &[Path]) -> bool
    requires p_in_range { IsInRange p }
    requires exterior_in_range { All IsInRange exterior.now }
    requires holes_in_range { ArePathsInRange holes.now }
    ensures { IsTrue result ↔ IsOnRings p (exterior.now ∷ holes.now) }
{
    match place_in_ring(p, exterior) {
        RingPlace::Boundary => true,
        RingPlace::Inside => {
            if paths_are_touched(p, holes) {
                return true;
            }
            is_in_no_hole(p, holes)
        }
        RingPlace::Outside => paths_are_touched(p, holes),
    }
}

fn polygons_are_touched(p: Pos, polygons: &[Polygon]) -> bool
    requires p_in_range { IsInRange p }
    requires polygons_in_range { ArePolygonsInRange polygons.now }
    ensures { IsTrue result ↔ SomeOf (IsOnPolygon p) polygons.now }
{
    for polygon in polygons {
        if polygon_is_touched(p, polygon) {
            return true;
        }
    }
    false
}

/// Whether the position is on one of the shape's segments or in one of its polygons.
pub(crate) fn shape_is_touched(p: Pos, shape: &Shape) -> bool
    requires p_in_range { IsInRange p }
    requires shape_in_range { IsShapeInRange shape.now }
    ensures { IsTrue result ↔ IsOnShape p shape.now }
{
    if points_are_touched(p, shape.points.as_slice()) {
        return true;
    }
    if paths_are_touched(p, shape.lines.as_slice()) {
        return true;
    }
    polygons_are_touched(p, shape.polygons.as_slice())
}
