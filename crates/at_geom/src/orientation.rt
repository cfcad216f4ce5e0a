//! Which way three positions turn.

ghost use Rattle.std.specs.Prelude.{◌≡◌};
ghost use Rattle.at_geom.specs.Segments.{IsInRange, turn as turn_of, sign_of};

use crate::integers::{difference, product};
use crate::positions::Pos;

/// Which way the path from `a` over `b` to `c` turns: 1 counterclockwise, -1 clockwise, 0 where the three lie
/// on one line. It is the sign of `(b.x-a.x)(c.y-a.y) - (b.y-a.y)(c.x-a.x)`, whose size is at most 7.2·10^29.
pub fn orient(a: Pos, b: Pos, c: Pos) -> i8
    requires a_in_range { IsInRange a }
    requires b_in_range { IsInRange b }
    requires c_in_range { IsInRange c }
    ensures { result ≡ sign_of (turn_of a b c) }
{
    let area = turn(a, b, c);
    if area > 0 {
        1
    } else if area < 0 {
        -1
    } else {
        0
    }
}

/// Twice the signed area of the triangle `abc`.
pub(crate) fn turn(a: Pos, b: Pos, c: Pos) -> i128
    requires a_in_range { IsInRange a }
    requires b_in_range { IsInRange b }
    requires c_in_range { IsInRange c }
    ensures { result ≡ turn_of a b c }
{
    let left = product(difference(b.x, a.x), difference(c.y, a.y));
    let right = product(difference(b.y, a.y), difference(c.x, a.x));
    left - right
}
