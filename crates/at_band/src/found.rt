//! Which segments of a band's part a segment meets.

ghost use Rattle.std.specs.Prelude.{IsTrue, ◌↔◌};
ghost use Rattle.at_geom.specs.Segments.{IsInRange};
ghost use Rattle.at_geom.specs.Shapes.{IsShapeInRange, segments};
ghost use Rattle.at_band.specs.Banded.{MeetsWithin, MeetsSomeWithin};

use crate::thinning::{Heights, spans};
use at_geom::{Pos, Shape, segments_meet, some_segment};

fn edge_is_met(a: Pos, b: Pos, c: Pos, d: Pos, heights: Heights) -> bool
    requires a_in_range { IsInRange a }
    requires b_in_range { IsInRange b }
    requires c_in_range { IsInRange c }
    requires d_in_range { IsInRange d }
    ensures { IsTrue result ↔ MeetsWithin heights.low heights.high a b (c, d) }
{
    if !spans(heights, c, d) {
        return false;
    }
    segments_meet(a, b, c, d)
}

/// Whether the segment `ab` meets one of the shape's segments that reach into the heights.
pub(crate) fn part_is_met(a: Pos, b: Pos, part: &Shape, heights: Heights) -> bool
    requires a_in_range { IsInRange a }
    requires b_in_range { IsInRange b }
    requires part_in_range { IsShapeInRange part.now }
    ensures { IsTrue result ↔ MeetsSomeWithin heights.low heights.high a b (segments part.now) }
{
    some_segment(part, &move |c, d| edge_is_met(a, b, c, d, heights))
}
