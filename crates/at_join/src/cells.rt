//! The 64 cells of the plane of a join.

ghost use Rattle.std.specs.Prelude.{◌≡◌, ℤ, pos, ◌+◌, ◌*◌, ◌/◌, ◌<◌, ◌≤◌, ◌+ℤ◌, ◌-ℤ◌, nat_abs};
ghost use Rattle.at_join.specs.Cells.{edge_of, rect_of};
ghost use Rattle.at_join.specs.Boxes.{is_here_of, IsSpan};

use crate::boxes::touch;
use at_geom::{Extent, Pos};
use at_query::upper_corner;

/// The positions of a cell, which are all in one extent.
pub(crate) fn cell_rect(joint: Extent, cell: u32) -> Extent
    requires cell { cell < 64 }
    requires span { IsSpan joint }
    ensures { result ≡ rect_of joint cell }
{
    let column = cell % 8;
    let row = cell / 8;
    Extent {
        low: corner(joint, column, row),
        high: corner_before(corner(joint, column + 1, row + 1)),
    }
}

/// The least position of a column and a row.
fn corner(joint: Extent, column: u32, row: u32) -> Pos
    requires parts { (column ≤ 8) × (row ≤ 8) }
    requires span { IsSpan joint }
    ensures corner { result ≡ record {
      x = edge_of joint.low.x joint.high.x column;
      y = edge_of joint.low.y joint.high.y row;
    } }
    ensures bounds { (nat_abs result.x ≤ 1000000000000000) × (nat_abs result.y ≤ 1000000000000000) }
{
    Pos {
        x: edge(joint.low.x, joint.high.x, column),
        y: edge(joint.low.y, joint.high.y, row),
    }
}

/// The position one to the left and one below.
fn corner_before(p: Pos) -> Pos
    requires { (nat_abs p.x ≤ 1000000000000000) × (nat_abs p.y ≤ 1000000000000000) }
    ensures { result ≡ record { x = p.x -ℤ pos 1; y = p.y -ℤ pos 1 } }
{
    Pos {
        x: p.x - 1,
        y: p.y - 1,
    }
}

/// The least number that is in the given eighth of a span, or in a later one.
fn edge(low: i64, high: i64, part: u32) -> i64
    requires part { part ≤ 8 }
    requires bounds { (nat_abs low ≤ 300000000000000) × (nat_abs high ≤ 300000000000000) }
    ensures edge { result ≡ edge_of low high part }
    ensures bound { nat_abs result ≤ 1000000000000000 }
{
    raised(low, share(part, high.abs_diff(low) + 1))
}

/// So many eighths of a width, rounded up.
fn share(part: u32, width: u64) -> u64
    requires { (part ≤ 8) × (width ≤ 600000000000001) }
    ensures share { result ≡ (part * width + 7) / 8 }
    ensures bound { result ≤ 600000000000001 }
{
    (part as u64 * width + 7) / 8
}

fn raised(low: i64, by: u64) -> i64
    requires { (nat_abs low ≤ 300000000000000) × (by ≤ 600000000000001) }
    ensures raised { result ≡ low +ℤ pos by }
    ensures bound { nat_abs result ≤ 1000000000000000 }
{
    low + by as i64
}

/// Whether two extents have a common point, and the reference point of the two lies in the cell.
pub(crate) fn is_here(rect: Extent, x: Extent, y: Extent) -> bool
    ensures { result ≡ is_here_of rect x y }
{
    if touch(x, y) {
        rect.contains(upper_corner(x.low, y.low))
    } else {
        false
    }
}
