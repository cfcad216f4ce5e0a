//! Whether some position of a shape is in one of several polygons.

ghost use Rattle.std.specs.Prelude.{◌≡◌, IsTrue, ◌↔◌, IfSome, Some};
ghost use Rattle.std.specs.List.{AllByRecursion};
ghost use Rattle.at_geom.specs.Segments.{IsInRange};
ghost use Rattle.at_geom.specs.Shapes.{ArePolygonsInRange, IsShapeInRange, IsInSome, SomeIsIn};
ghost use Rattle.at_geom.specs.Shapes.{positions, extent_of, is_within};
ghost use Rattle.at_geom.specs.Closed.{IsClosed, HasClosedExterior};

use crate::positions::Pos;
use crate::rectangles::Extent;
use crate::regions::in_polygon;
use crate::shapes::{Polygon, Shape};
use crate::walks::some_position;

/// Whether some position of the shape is in one of the polygons. Where `reach` is told, no position outside it
/// is.
pub fn shape_reaches(shape: &Shape, polygons: &[Polygon], reach: Option<Extent>) -> bool
    requires shape_in_range { IsShapeInRange shape.now }
    requires polygons_in_range { ArePolygonsInRange polygons.now }
    requires reached { IfSome reach (λ e. (p : Pos) → IsInSome p polygons.now → IsTrue (is_within e p)) }
    ensures { IsTrue result ↔ SomeIsIn (positions shape.now) polygons.now }
{
    some_position(shape, &move |p| is_in_some(p, polygons, reach))
}

fn is_in_some(p: Pos, polygons: &[Polygon], reach: Option<Extent>) -> bool
    requires p_in_range { IsInRange p }
    requires polygons_in_range { ArePolygonsInRange polygons.now }
    requires reached { IfSome reach (λ e. (p : Pos) → IsInSome p polygons.now → IsTrue (is_within e p)) }
    ensures { IsTrue result ↔ IsInSome p polygons.now }
{
    match reach {
        None => is_in_any(p, polygons),
        Some(around) => around.contains(p) && is_in_any(p, polygons),
    }
}

/// Whether a position is in one of the polygons, each with its border.
pub fn is_in_any(p: Pos, polygons: &[Polygon]) -> bool
    requires p_in_range { IsInRange p }
    requires polygons_in_range { ArePolygonsInRange polygons.now }
    ensures { IsTrue result ↔ IsInSome p polygons.now }
{
    for polygon in polygons {
        if in_polygon(p, polygon) {
            return true;
        }
    }
    false
}

/// Where the positions in the polygons of a shape with the extent `around` lie, if it can be told: in that
/// extent, where each exterior is closed. An open exterior may have positions far to its left in it.
pub fn reach(shape: &Shape, around: Extent) -> Option<Extent>
    requires { extent_of (positions shape.now) ≡ Some around }
    ensures { IfSome result (λ e. (p : Pos) → IsInSome p shape.now.polygons → IsTrue (is_within e p)) }
{
    if are_closed(shape.polygons.as_slice()) {
        Some(around)
    } else {
        None
    }
}

/// Whether the exterior of each polygon is closed.
pub fn are_closed(polygons: &[Polygon]) -> bool
    ensures { IsTrue result → AllByRecursion HasClosedExterior polygons.now }
{
    for polygon in polygons {
        if let Some(exterior) = polygon.rings.as_slice().first() {
            if !is_closed(exterior.as_slice()) {
                return false;
            }
        }
    }
    true
}

/// Whether the last position of a ring is its first.
fn is_closed(ring: &[Pos]) -> bool
    ensures { IsTrue result → IsClosed ring.now }
{
    if ring.is_empty() {
        return true;
    }
    ring[0] == ring[ring.len() - 1]
}
