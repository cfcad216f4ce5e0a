//! Whether positions are seen to add nothing to a hull, without memory.
ghost use Rattle.std.specs.Prelude.{◌≤◌, ◌+◌, ◌++◌, List, All, IsTrue, length, pos};
ghost use Rattle.std.specs.Int.Signed.{◌≤ℤ◌, ◌<ℤ◌};
ghost use Rattle.at_geom.specs.declared.positions.Pos.{Pos};
ghost use Rattle.at_geom.specs.Segments.{IsInRange, turn};
ghost use Rattle.at_hull.specs.Hulls.{IsHull, IsAtMost};
ghost use Rattle.at_hull.specs.Within.{IsInTriangle, IsWithin};

use at_geom::{Path, Pos, orient};

/// Whether `a` is not above `p`: it has the lesser y, or the same y and no greater x.
fn is_at_most(a: Pos, p: Pos) -> bool
    ensures { IsTrue result → IsAtMost a p }
{
    if a.y == p.y { a.x <= p.x } else { a.y < p.y }
}

/// Whether the way from `a` over `b` to `c` turns left.
fn is_left(a: Pos, b: Pos, c: Pos) -> bool
    requires a_in_range { IsInRange a }
    requires b_in_range { IsInRange b }
    requires c_in_range { IsInRange c }
    ensures { IsTrue result → pos 0 <ℤ turn a b c }
{
    orient(a, b, c) > 0
}

/// Whether the way from `a` over `b` to `c` turns left, goes straight on or back.
fn is_not_right(a: Pos, b: Pos, c: Pos) -> bool
    requires a_in_range { IsInRange a }
    requires b_in_range { IsInRange b }
    requires c_in_range { IsInRange c }
    ensures { IsTrue result → pos 0 ≤ℤ turn a b c }
{
    orient(a, b, c) >= 0
}

/// Whether the triangle turns left and the position isn't outside it.
fn is_in_triangle(p: Pos, x: Pos, y: Pos, z: Pos) -> bool
    requires p_in_range { IsInRange p }
    requires x_in_range { IsInRange x }
    requires y_in_range { IsInRange y }
    requires z_in_range { IsInRange z }
    ensures { IsTrue result → IsInTriangle p x y z }
{
    if !is_left(x, y, z) {
        return false;
    }
    if !is_not_right(x, y, p) {
        return false;
    }
    if !is_not_right(y, z, p) {
        return false;
    }
    is_not_right(z, x, p)
}

/// The place of a position of the hull: seen from the first one, `p` lies between that position and the next, if `p`
/// is inside at all.
fn wedge(hull: &[Pos], p: Pos) -> usize
    requires hull_in_range { All IsInRange hull.now }
    requires p_in_range { IsInRange p }
    requires several { 3 ≤ length hull.now }
    ensures { result + 2 ≤ length hull.now }
{
    let mut low = 1;
    let mut high = hull.len() - 1;
    while low + 1 < high {
        let middle = low + (high - low) / 2;
        if is_not_right(hull[0], hull[middle], p) {
            low = middle;
        } else {
            high = middle;
        }
    }
    low
}

/// Whether the position is seen to lie within a hull of three positions or more, in as many steps as its count has
/// binary digits.
pub(crate) fn is_within(hull: &[Pos], p: Pos) -> bool
    requires hull_in_range { All IsInRange hull.now }
    requires p_in_range { IsInRange p }
    ensures { IsTrue result → IsWithin hull.now p }
{
    if hull.len() < 3 {
        return false;
    }
    if !is_at_most(hull[0], p) {
        return false;
    }
    let at = wedge(hull, p);
    is_in_triangle(p, hull[0], hull[at], hull[at + 1])
}

/// Whether each of the others is seen to lie within the hull. Then it is the hull of both lists together. Of a hull of
/// fewer than three positions nothing is seen. Coordinates are at most 3 * 10^14 units in size. It takes no memory,
/// and time by the count of the others.
pub fn covers_all(hull: &Path, others: &Path) -> bool
    requires hull_in_range { All IsInRange hull.now }
    requires others_in_range { All IsInRange others.now }
    ensures { IsTrue result → (ps qs : List Pos) → IsHull ps hull.now → IsHull qs others.now
        → IsHull (ps ++ qs) hull.now }
{
    for p in others.as_slice() {
        if !is_within(hull.as_slice(), *p) {
            return false;
        }
    }
    true
}
