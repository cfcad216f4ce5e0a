//! One chain of the walk over sorted positions: a way that turns left at each of its positions.
ghost use Rattle.std.specs.Prelude.{◌≡◌, pos, int_le, All, IfOk, fold, reverse, []};
ghost use Rattle.at_geom.specs.Segments.{IsInRange, turn};
ghost use Rattle.at_hull.specs.Walks.{is_dropped, popped, pushed};

use at_geom::{Pos, orient};
use at_text::Memory;
use std::alloc::Global;

/// The chain of positions in which each is the end of the way so far: of every three neighbours that don't turn
/// left the middle one is dropped (Andrew 1979).
pub(crate) fn chain(alloc: Global, points: &[Pos]) -> Result<Vec<Pos>, Memory>
    requires { All IsInRange points.now }
    ensures { IfOk result (λ v. reverse v.items ≡ fold pushed [] points.now) }
{
    let mut way = Vec::new(alloc);
    for p in points {
        drop_turns(&mut way, *p);
        way.push(*p)?;
    }
    Ok(way)
}

/// Drops positions from the end while the last two and `next` don't turn left.
fn drop_turns(way: &mut Vec<Pos>, next: Pos)
    requires way_in_range { All IsInRange way.old.items }
    requires next_in_range { IsInRange next }
    ensures same { reverse way.new.items ≡ popped next (reverse way.old.items) }
    ensures in_range { All IsInRange way.new.items }
{
    while ends_right(way.as_slice(), next) {
        way.pop();
    }
}

/// Whether there are two positions, and the last two and `next` don't turn left.
fn ends_right(way: &[Pos], next: Pos) -> bool
    requires way_in_range { All IsInRange way.now }
    requires next_in_range { IsInRange next }
    ensures { result ≡ is_dropped next (reverse way.now) }
{
    let Some((b, front)) = way.split_last() else {
        return false;
    };
    let Some((a, _)) = front.split_last() else {
        return false;
    };
    is_no_left_turn(*a, *b, next)
}

/// Whether the way from `a` over `b` to `c` goes straight on, back or to the right.
fn is_no_left_turn(a: Pos, b: Pos, c: Pos) -> bool
    requires a_in_range { IsInRange a }
    requires b_in_range { IsInRange b }
    requires c_in_range { IsInRange c }
    ensures { result ≡ int_le (turn a b c) (pos 0) }
{
    orient(a, b, c) <= 0
}
