//! Rectangles with sides along the axes.

ghost use Rattle.std.specs.Prelude.{◌≡◌, ◌&&◌, ◌↔◌, ◌≤ℤ◌, IsTrue, int_le};
ghost use Rattle.std.specs.Int.{int_min, int_max};

use crate::positions::Pos;

/// A closed rectangle with sides along the axes, by its lower left and its upper right corner (RFC 7946
/// section 5).
#[derive(Clone, Copy, Debug, PartialEq, Eq)]
pub struct Extent {
    pub low: Pos,
    pub high: Pos,
}

impl Extent {
    ghost use Rattle.std.specs.Prelude.{◌≡◌, ◌↔◌, ◌≤ℤ◌, IsTrue};
    ghost use Rattle.std.specs.Int.{int_min, int_max};
    ghost use Rattle.at_geom.specs.Shapes.{encloses as encloses_of, widened as widened_of, is_within};

    /// The least extent round this one and a position.
    pub fn widened(self, p: Pos) -> Extent
        ensures { result ≡ widened_of p (Some self) }
    {
        Extent {
            low: Pos {
                x: p.x.min(self.low.x),
                y: p.y.min(self.low.y),
            },
            high: Pos {
                x: p.x.max(self.high.x),
                y: p.y.max(self.high.y),
            },
        }
    }

    /// Whether the other extent lies in this one.
    pub(crate) fn encloses(self, other: Extent) -> bool
        ensures { result ≡ encloses_of self other }
    {
        let along_x = lies_between(self.low.x, self.high.x, other.low.x, other.high.x);
        let along_y = lies_between(self.low.y, self.high.y, other.low.y, other.high.y);
        along_x && along_y
    }

    /// Whether the position is in this extent.
    pub fn contains(self, p: Pos) -> bool
        ensures { result ≡ is_within self p }
    {
        let along_x = lies_between(self.low.x, self.high.x, p.x, p.x);
        let along_y = lies_between(self.low.y, self.high.y, p.y, p.y);
        along_x && along_y
    }

    /// Whether this extent and the box round the segment `ab` have a common point.
    pub fn touches_box(self, a: Pos, b: Pos) -> bool
        ensures { IsTrue result
            ↔ ((int_min a.x b.x ≤ℤ self.high.x) × (self.low.x ≤ℤ int_max a.x b.x)
            × (int_min a.y b.y ≤ℤ self.high.y) × (self.low.y ≤ℤ int_max a.y b.y)) }
    {
        span_touches(self.low.x, self.high.x, a.x, b.x)
            && span_touches(self.low.y, self.high.y, a.y, b.y)
    }
}

/// Whether the span from `low` to `high` and the span between `a` and `b` have a common number.
fn span_touches(low: i64, high: i64, a: i64, b: i64) -> bool
    ensures { IsTrue result ↔ ((int_min a b ≤ℤ high) × (low ≤ℤ int_max a b)) }
{
    a.min(b) <= high && low <= a.max(b)
}

/// Whether the span from `low` to `high` lies in the span from `least` to `greatest`.
fn lies_between(least: i64, greatest: i64, low: i64, high: i64) -> bool
    ensures { result ≡ (int_le least low && int_le high greatest) }
{
    least <= low && high <= greatest
}
