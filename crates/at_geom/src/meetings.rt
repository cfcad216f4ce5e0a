//! Whether two shapes meet.

ghost use Rattle.std.specs.Prelude.{◌≡◌, IsTrue, ◌↔◌, Some};
ghost use Rattle.at_geom.specs.Segments.{IsInRange};
ghost use Rattle.at_geom.specs.Shapes.{IsShapeInRange, MeetsSome, SomeMeet, segments, positions, extent_of, Meet};

use crate::extents::extent;
use crate::positions::Pos;
use crate::reaches::{are_closed, reach, shape_reaches};
use crate::rectangles::Extent;
use crate::segments::segments_meet;
use crate::shapes::Shape;
use crate::walks::some_segment;

/// Whether two shapes have something in common: some point or segment of the one and some point or segment of the
/// other have a common point, or some position of one is in a polygon of the other (OGC 06-103r4
/// section 6.1.15.3, "intersects"). Segments join consecutive positions of lines and rings, which are as in
/// `in_polygon`.
pub fn shapes_meet(a: &Shape, b: &Shape) -> bool
    requires a_in_range { IsShapeInRange a.now }
    requires b_in_range { IsShapeInRange b.now }
    ensures { IsTrue result ↔ Meet a.now b.now }
{
    let Some(around_a) = extent(a) else {
        return false;
    };
    let Some(around_b) = extent(b) else {
        return false;
    };
    if are_clear(a, around_a, b, around_b) {
        return false;
    }
    if segments_of_shapes_meet(a, b, around_b) {
        return true;
    }
    if shape_reaches(a, b.polygons.as_slice(), reach(b, around_b)) {
        return true;
    }
    shape_reaches(b, a.polygons.as_slice(), reach(a, around_a))
}

/// Whether the extents of two shapes show that they don't meet: where the extents are apart, and no exterior is
/// open.
fn are_clear(a: &Shape, around_a: Extent, b: &Shape, around_b: Extent) -> bool
    requires a_covered { extent_of (positions a.now) ≡ Some around_a }
    requires b_covered { extent_of (positions b.now) ≡ Some around_b }
    ensures { IsTrue result → ¬ Meet a.now b.now }
{
    if around_a.touches_box(around_b.low, around_b.high) {
        return false;
    }
    are_closed(a.polygons.as_slice()) && are_closed(b.polygons.as_slice())
}

/// Whether the segment `ab` and some point or edge of a shape have a common point, where the shape's extent is
/// `around`.
fn segment_meets_shape(a: Pos, b: Pos, shape: &Shape, around: Extent) -> bool
    requires a_in_range { IsInRange a }
    requires b_in_range { IsInRange b }
    requires shape_in_range { IsShapeInRange shape.now }
    requires covered { extent_of (positions shape.now) ≡ Some around }
    ensures { IsTrue result ↔ MeetsSome a b (segments shape.now) }
{
    if !around.touches_box(a, b) {
        return false;
    }
    some_segment(shape, &move |c, d| segments_meet(a, b, c, d))
}

/// Whether some segments of two shapes have a common point, where the extent of the second is `around`.
fn segments_of_shapes_meet(a: &Shape, b: &Shape, around: Extent) -> bool
    requires a_in_range { IsShapeInRange a.now }
    requires b_in_range { IsShapeInRange b.now }
    requires covered { extent_of (positions b.now) ≡ Some around }
    ensures { IsTrue result ↔ SomeMeet (segments a.now) (segments b.now) }
{
    some_segment(a, &move |c, d| segment_meets_shape(c, d, b, around))
}
