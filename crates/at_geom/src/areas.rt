//! The area of a polygon.

ghost use Rattle.std.specs.Prelude.{◌≡◌, ◌*ℤ◌, ◌-ℤ◌, ◌<◌, ◌^◌, length, All, map};
ghost use Rattle.std.specs.Int.{w128, int_wrap};
ghost use Rattle.at_geom.specs.Segments.{IsInRange};
ghost use Rattle.at_geom.specs.Regions.{doubled_area as area_of, wrapped_area, wrapped_ring_size};
ghost use Rattle.at_geom.specs.Regions.{shoelace as shoelace_of, sum_of};
ghost use Rattle.at_geom.specs.Shapes.{joined};

use crate::integers::product;
use crate::positions::{Path, Pos};
use crate::shapes::Polygon;

/// Twice the area of a polygon, in squares of a unit: the size of the exterior's shoelace sum less the sizes of
/// the holes' sums (OGC 06-103r4 section 6.1.10.2, "Area"). Each sum, size and difference is taken by wrapping in
/// 128 bits; with fewer than 2^26 positions none of them wraps. It is below 0 where the holes are larger than the
/// exterior.
pub fn doubled_area(polygon: &Polygon) -> i128
    requires { All (All IsInRange) polygon.now.rings }
    ensures wrapped { result ≡ wrapped_area polygon.now }
    ensures exact { length (joined polygon.now.rings) < 2 ^ 26 → result ≡ area_of polygon.now }
{
    let Some((exterior, holes)) = polygon.rings.as_slice().split_first() else {
        return 0;
    };
    without_holes(ring_size(exterior.as_slice()), holes)
}

/// What is left of an area without the sizes of the holes.
fn without_holes(area: i128, holes: &[Path]) -> i128
    requires { All (All IsInRange) holes.now }
    ensures { result ≡ int_wrap w128 (area -ℤ sum_of (map wrapped_ring_size holes.now)) }
{
    let mut left = area;
    for hole in holes {
        left = left.wrapping_sub(ring_size(hole.as_slice()));
    }
    left
}

/// The size of a ring's shoelace sum.
fn ring_size(ring: &[Pos]) -> i128
    requires { All IsInRange ring.now }
    ensures { result ≡ wrapped_ring_size ring.now }
{
    shoelace(ring).wrapping_abs()
}

/// Twice the signed area of a ring, above 0 where it goes round counterclockwise.
fn shoelace(ring: &[Pos]) -> i128
    requires { All IsInRange ring.now }
    ensures { result ≡ int_wrap w128 (shoelace_of ring.now) }
{
    let Some((first, rest)) = ring.split_first() else {
        return 0;
    };
    let mut from = *first;
    let mut sum = 0i128;
    for to in rest {
        sum = sum.wrapping_add(shoelace_term(from, *to));
        from = *to;
    }
    sum
}

/// What the edge `ab` of a ring adds to its shoelace sum, at most 1.8·10^29 squares of a unit in size: twice the area of
/// the triangle of the origin, `a` and `b`, above 0 where they turn counterclockwise. The sum over a ring is twice its
/// signed area (OGC 06-103r4 section 6.1.10.2, "Area").
pub fn shoelace_term(a: Pos, b: Pos) -> i128
    requires a_in_range { IsInRange a }
    requires b_in_range { IsInRange b }
    ensures { result ≡ (a.x *ℤ b.y) -ℤ (b.x *ℤ a.y) }
{
    product(a.x, b.y) - product(b.x, a.y)
}
