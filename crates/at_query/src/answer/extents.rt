//! Extents and positions of two, taken together.

ghost use Rattle.std.specs.Prelude.{◌≡◌};
ghost use Rattle.at_query.specs.Joined.{lower, upper, around};

use at_geom::{Extent, Pos};

/// The least x and the least y of two positions.
pub fn lower_corner(a: Pos, b: Pos) -> Pos
    ensures { result ≡ lower a b }
{
    Pos {
        x: a.x.min(b.x),
        y: a.y.min(b.y),
    }
}

/// The greatest x and the greatest y of two positions.
pub fn upper_corner(a: Pos, b: Pos) -> Pos
    ensures { result ≡ upper a b }
{
    Pos {
        x: a.x.max(b.x),
        y: a.y.max(b.y),
    }
}

/// The least extent round two.
pub fn joined_extent(left: Extent, right: Extent) -> Extent
    ensures { result ≡ around left right }
{
    Extent {
        low: lower_corner(left.low, right.low),
        high: upper_corner(left.high, right.high),
    }
}
