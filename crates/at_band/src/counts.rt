//! Into how many bands the heights of a shape are cut.

ghost use Rattle.std.specs.Prelude.{◌≤◌};

use crate::thinning::Heights;
use at_geom::{Path, Pos, Shape};

/// How many bands there are at most.
const MOST: u64 = 64;

/// How many positions of the shape there are for each band, at least.
const POSITIONS: u64 = 4;

/// How many positions a shape has at least, if it is cut.
const FEWEST: u64 = 16;

/// How much of a shape lies at some heights.
#[derive(Clone, Copy)]
struct Load {
    /// How many positions the shape has.
    positions: u64,
    /// What of the heights its segments go through, added up.
    climbed: u64,
}

/// What of the heights a segment goes through.
fn climb(a: Pos, b: Pos, heights: Heights) -> u64 {
    let low = a.y.min(b.y).max(heights.low);
    let high = a.y.max(b.y).min(heights.high);
    if low < high { high.abs_diff(low) } else { 0 }
}

fn with_positions(load: Load, count: usize) -> Load {
    Load {
        positions: load.positions.saturating_add(count as u64),
        climbed: load.climbed,
    }
}

fn with_path(load: Load, path: &[Pos], heights: Heights) -> Load {
    let load = with_positions(load, path.len());
    let Some((first, rest)) = path.split_first() else {
        return load;
    };
    let mut from = *first;
    let mut climbed = load.climbed;
    for to in rest {
        climbed = climbed.saturating_add(climb(from, *to, heights));
        from = *to;
    }
    Load {
        positions: load.positions,
        climbed,
    }
}

fn with_paths(load: Load, paths: &[Path], heights: Heights) -> Load {
    let mut load = load;
    for path in paths {
        load = with_path(load, path.as_slice(), heights);
    }
    load
}

fn load_of(shape: &Shape, heights: Heights) -> Load {
    let none = Load {
        positions: 0,
        climbed: 0,
    };
    let points = with_positions(none, shape.points.as_slice().len());
    let mut load = with_paths(points, shape.lines.as_slice(), heights);
    for polygon in shape.polygons.as_slice() {
        load = with_paths(load, polygon.rings.as_slice(), heights);
    }
    load
}

/// Into how many bands to cut the heights of a shape. The fewer of its segments lie at each height, the more are
/// spared by a cut; so many cuts are made that the bands together have not more than some three times the
/// shape's segments, and a comb whose teeth have all heights stays whole.
pub(crate) fn count_of(shape: &Shape, heights: Heights) -> u64
    ensures { 1 ≤ result }
{
    let load = load_of(shape, heights);
    if load.positions < FEWEST {
        return 1;
    }
    let height = heights.high.abs_diff(heights.low).saturating_add(1);
    let spared = load
        .positions
        .saturating_mul(height)
        .saturating_sub(load.climbed);
    let count = spared.saturating_mul(2) / load.climbed.max(1);
    count
        .min(load.positions / POSITIONS)
        .min(height)
        .clamp(1, MOST)
}
