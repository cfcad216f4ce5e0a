//! Extents: whether two have a common point, and what they have in common.

ghost use Rattle.std.specs.Prelude.{◌≡◌, ◌&&◌, int_le};
ghost use Rattle.at_join.specs.Boxes.{touch_of, common_of};

use at_geom::Extent;
use at_query::{lower_corner, upper_corner};

/// Whether two extents have a common point.
pub(crate) fn touch(x: Extent, y: Extent) -> bool
    ensures { result ≡ touch_of x y }
{
    let along_x = are_ordered(x.low.x, y.high.x, y.low.x, x.high.x);
    let along_y = are_ordered(x.low.y, y.high.y, y.low.y, x.high.y);
    along_x && along_y
}

/// Whether the first number is at most the second, and the third at most the fourth.
fn are_ordered(a: i64, b: i64, c: i64, d: i64) -> bool
    ensures { result ≡ (int_le a b && int_le c d) }
{
    a <= b && c <= d
}

/// What two extents have in common; where that is nothing, its low is past its high.
pub(crate) fn common(x: Extent, y: Extent) -> Extent
    ensures { result ≡ common_of x y }
{
    Extent {
        low: upper_corner(x.low, y.low),
        high: lower_corner(x.high, y.high),
    }
}
