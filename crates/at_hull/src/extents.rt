//! Extents that add nothing to a hull.
ghost use Rattle.std.specs.Prelude.{◌≡◌, List, All, IsTrue, Option, IfSome};
ghost use Rattle.at_geom.specs.declared.positions.Pos.{Pos};
ghost use Rattle.at_geom.specs.Segments.{IsInRange};
ghost use Rattle.at_hull.specs.Hulls.{IsHull};
ghost use Rattle.at_hull.specs.Growth.{AddsNothing, IsExtentInRange};

use crate::inside::is_within;
use at_geom::{Extent, Pos};

/// Whether the extent lies in the inner one, if there is one.
pub(crate) fn lies_in(extent: Extent, inner: Option<Extent>) -> bool
    ensures { IsTrue result → (hull : List Pos) → IfSome inner (AddsNothing hull) → AddsNothing hull extent }
{
    let Some(inner) = inner else {
        return false;
    };
    if !inner.contains(extent.low) {
        return false;
    }
    inner.contains(extent.high)
}

/// Whether the corners of the extent are seen to lie within the hull. Then whatever is in it adds nothing.
pub(crate) fn corners_lie_in(extent: Extent, hull: &[Pos]) -> bool
    requires extent_in_range { IsExtentInRange extent }
    requires hull_in_range { All IsInRange hull.now }
    requires own { IsHull hull.now hull.now }
    ensures { IsTrue result → AddsNothing hull.now extent }
{
    let low = extent.low;
    let high = extent.high;
    if !is_within(hull, low) {
        return false;
    }
    if low == high {
        return true;
    }
    if !is_within(hull, high) {
        return false;
    }
    if !is_within(hull, corner(low, high)) {
        return false;
    }
    is_within(hull, corner(high, low))
}

/// The corner at the height of the one and at the x of the other.
fn corner(height: Pos, side: Pos) -> Pos
    requires height_in_range { IsInRange height }
    requires side_in_range { IsInRange side }
    ensures is { result ≡ record { x = side.x; y = height.y } }
    ensures in_range { IsInRange result }
{
    Pos {
        x: side.x,
        y: height.y,
    }
}

/// The least extent round the inner one, if there is one, and another.
pub(crate) fn around(inner: Option<Extent>, extent: Extent) -> Extent
    requires inner_in_range { IfSome inner IsExtentInRange }
    requires extent_in_range { IsExtentInRange extent }
    ensures { IsExtentInRange result }
{
    let Some(inner) = inner else {
        return extent;
    };
    Extent {
        low: least(inner.low, extent.low),
        high: greatest(inner.high, extent.high),
    }
}

/// The least x and the least y of two positions.
fn least(a: Pos, b: Pos) -> Pos
    requires a_in_range { IsInRange a }
    requires b_in_range { IsInRange b }
    ensures { IsInRange result }
{
    Pos {
        x: a.x.min(b.x),
        y: a.y.min(b.y),
    }
}

/// The greatest x and the greatest y of two positions.
fn greatest(a: Pos, b: Pos) -> Pos
    requires a_in_range { IsInRange a }
    requires b_in_range { IsInRange b }
    ensures { IsInRange result }
{
    Pos {
        x: a.x.max(b.x),
        y: a.y.max(b.y),
    }
}
