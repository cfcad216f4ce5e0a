//! Whether two segments meet.

ghost use Rattle.std.specs.Prelude.{IsTrue, ◌↔◌, ◌≤ℤ◌, ◌⊎◌, pos};
ghost use Rattle.std.specs.Int.{int_min, int_max};
ghost use Rattle.at_geom.specs.Segments.{IsInRange, HaveCommonPoint, turn as turn_of};

use crate::orientation::turn;
use crate::positions::Pos;

/// Whether the closed segments `ab` and `cd` have a common point, ends included (OGC 06-103r4 section 6.1.15.3,
/// "intersects"). A segment may be one position. The answer is exact: the common point need not lie on whole
/// units.
pub fn segments_meet(a: Pos, b: Pos, c: Pos, d: Pos) -> bool
    requires a_in_range { IsInRange a }
    requires b_in_range { IsInRange b }
    requires c_in_range { IsInRange c }
    requires d_in_range { IsInRange d }
    ensures { IsTrue result ↔ HaveCommonPoint a b c d }
{
    if !boxes_overlap(a, b, c, d) || !lies_across(a, b, c, d) {
        return false;
    }
    lies_across(c, d, a, b)
}

/// Whether the boxes round the segments `ab` and `cd` have a common point.
fn boxes_overlap(a: Pos, b: Pos, c: Pos, d: Pos) -> bool
    ensures { IsTrue result
        ↔ ((int_min a.x b.x ≤ℤ int_max c.x d.x) × (int_min c.x d.x ≤ℤ int_max a.x b.x)
        × (int_min a.y b.y ≤ℤ int_max c.y d.y) × (int_min c.y d.y ≤ℤ int_max a.y b.y)) }
{
    spans_overlap(a.x, b.x, c.x, d.x) && spans_overlap(a.y, b.y, c.y, d.y)
}

/// Whether the span between `a` and `b` and the span between `c` and `d` have a common number.
fn spans_overlap(a: i64, b: i64, c: i64, d: i64) -> bool
    ensures { IsTrue result
        ↔ ((int_min a b ≤ℤ int_max c d) × (int_min c d ≤ℤ int_max a b)) }
{
    a.min(b) <= c.max(d) && c.min(d) <= a.max(b)
}

/// Whether `c` and `d` aren't strictly on one side of the line through `a` and `b`.
fn lies_across(a: Pos, b: Pos, c: Pos, d: Pos) -> bool
    requires a_in_range { IsInRange a }
    requires b_in_range { IsInRange b }
    requires c_in_range { IsInRange c }
    requires d_in_range { IsInRange d }
    ensures { IsTrue result
        ↔ (((turn_of a b c ≤ℤ pos 0) ⊎ (turn_of a b d ≤ℤ pos 0))
        × ((pos 0 ≤ℤ turn_of a b c) ⊎ (pos 0 ≤ℤ turn_of a b d))) }
{
    are_apart(turn(a, b, c), turn(a, b, d))
}

/// Whether two numbers aren't both above 0 or both below 0.
fn are_apart(p: i128, q: i128) -> bool
    ensures { IsTrue result
        ↔ (((p ≤ℤ pos 0) ⊎ (q ≤ℤ pos 0)) × ((pos 0 ≤ℤ p) ⊎ (pos 0 ≤ℤ q))) }
{
    if p > 0 {
        q <= 0
    } else if p < 0 {
        q >= 0
    } else {
        true
    }
}
