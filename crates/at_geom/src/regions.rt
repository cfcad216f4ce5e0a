//! Whether a position is in a polygon.

ghost use Rattle.std.specs.Prelude.{◌≡◌, IsTrue, ◌↔◌, ◌≤ℤ◌, ◌≢◌, pos, All};
ghost use Rattle.std.specs.Int.{int_min, int_max};
ghost use Rattle.std.specs.List.{AllByRecursion};
ghost use Rattle.at_geom.specs.Segments.{IsInRange, turn as turn_of};
ghost use Rattle.at_geom.specs.Regions.{IsInPolygon, IsNotInHole, is_crossed as is_crossed_by};
ghost use Rattle.at_geom.specs.Places.{IsPlaceAt, IsPlaceIn};

use crate::orientation::turn;
use crate::positions::{Path, Pos};
use crate::shapes::Polygon;

/// Where a position is against an edge of a ring.
#[derive(Clone, Copy)]
enum EdgePlace {
    /// On the edge.
    Touched,
    /// Off it, and the ray to the right crosses it.
    Crossed,
    /// Off it, and the ray doesn't cross it.
    Passed,
}

/// Where a position is against a ring.
#[derive(Clone, Copy)]
pub enum RingPlace {
    /// On one of its edges.
    Boundary,
    /// On none, with an odd number of crossings.
    Inside,
    /// On none, with an even number of crossings.
    Outside,
}

/// Whether a position belongs to the region of a polygon: it is on the exterior or in it, and strictly in none of
/// the holes, so that the edge of a hole belongs to the region (OGC 06-103r4 section 6.1.11.1, RFC 7946
/// section 3.1.6). In it means that a ray to the right crosses an odd number of edges. A ring need not be closed:
/// its edges join the positions that it has.
pub fn in_polygon(p: Pos, polygon: &Polygon) -> bool
    requires p_in_range { IsInRange p }
    requires polygon_in_range { All (All IsInRange) polygon.now.rings }
    ensures { IsTrue result ↔ IsInPolygon p polygon.now }
{
    let Some((exterior, holes)) = polygon.rings.as_slice().split_first() else {
        return false;
    };
    match place_in_ring(p, exterior.as_slice()) {
        RingPlace::Outside => false,
        RingPlace::Boundary | RingPlace::Inside => is_in_no_hole(p, holes),
    }
}

/// Whether a position is inside none of the holes. It may lie on the border of one.
pub fn is_in_no_hole(p: Pos, holes: &[Path]) -> bool
    requires p_in_range { IsInRange p }
    requires holes_in_range { All (All IsInRange) holes.now }
    ensures { IsTrue result ↔ AllByRecursion (IsNotInHole p) holes.now }
{
    for hole in holes {
        if let RingPlace::Inside = place_in_ring(p, hole.as_slice()) {
            return false;
        }
    }
    true
}

/// Whether a position is inside a ring, on it, or outside.
pub fn place_in_ring(p: Pos, ring: &[Pos]) -> RingPlace
    requires p_in_range { IsInRange p }
    requires ring_in_range { All IsInRange ring.now }
    ensures { IsPlaceIn p ring.now result }
{
    let Some((first, rest)) = ring.split_first() else {
        return RingPlace::Outside;
    };
    let mut from = *first;
    let mut is_odd = false;
    for to in rest {
        match place_at_edge(p, from, *to) {
            EdgePlace::Touched => return RingPlace::Boundary,
            EdgePlace::Crossed => is_odd = !is_odd,
            EdgePlace::Passed => {}
        }
        from = *to;
    }
    if is_odd {
        RingPlace::Inside
    } else {
        RingPlace::Outside
    }
}

fn place_at_edge(p: Pos, a: Pos, b: Pos) -> EdgePlace
    requires p_in_range { IsInRange p }
    requires a_in_range { IsInRange a }
    requires b_in_range { IsInRange b }
    ensures { IsPlaceAt p a b result }
{
    if !is_between(a.y, b.y, p.y) {
        return EdgePlace::Passed;
    }
    let side = turn(a, b, p);
    if side == 0 {
        if is_between(a.x, b.x, p.x) {
            EdgePlace::Touched
        } else {
            EdgePlace::Passed
        }
    } else if is_crossed(p, a, b, side) {
        EdgePlace::Crossed
    } else {
        EdgePlace::Passed
    }
}

/// Whether `c` is one of `a` and `b` or lies between them.
fn is_between(a: i64, b: i64, c: i64) -> bool
    ensures { IsTrue result ↔ ((int_min a b ≤ℤ c) × (c ≤ℤ int_max a b)) }
{
    a.min(b) <= c && c <= a.max(b)
}

/// Whether the ray to the right of `p`, which isn't on the line of the edge `ab`, crosses the edge. `side` says on
/// which side of that line `p` is.
fn is_crossed(p: Pos, a: Pos, b: Pos, side: i128) -> bool
    requires side_of_line { side ≡ turn_of a b p }
    requires off_line { side ≢ pos 0 }
    ensures { result ≡ is_crossed_by p (a, b) }
{
    let begins_low = a.y <= p.y;
    let ends_low = b.y <= p.y;
    let is_left = side > 0;
    begins_low != ends_low && is_left == begins_low
}
