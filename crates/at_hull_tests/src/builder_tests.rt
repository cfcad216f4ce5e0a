//! Hulls of positions that are added one by one: of a curve that turns left everywhere, and of all sets
//! of positions of a grid of three by three. Then extents within hulls.
ghost use Rattle.std.specs.Prelude.{IfOk, All};
ghost use Rattle.at_geom.specs.Segments.{IsInRange};

use crate::grid_tests::{cell, chosen, goes_round, is_hull};
use crate::tests::{add, at, path};
use at_geom::{Extent, Path, Pos};
use at_hull::HullBuilder;
use std::alloc::{AllocError, Global};
use std::test::Fail;

/// A position of the curve, by its number.
fn on_curve(number: u32) -> Pos
    ensures { IsInRange result }
{
    let x = i64::from(number);
    at(x, x.wrapping_mul(x))
}

/// The first positions of the curve. They are their own hull.
fn curve(alloc: Global, count: u32) -> Result<Path, AllocError>
    ensures { IfOk result (λ p. All IsInRange p) }
{
    let mut items = Vec::new(alloc);
    for number in 0..count {
        add(&mut items, on_curve(number))?;
    }
    Ok(Path::from_vec(items))
}

/// The hull of the first positions of the curve, added one by one, so many places apart, and then copied.
fn curve_added(alloc: Global, count: u32, step: u32) -> Result<Path, Fail> {
    let mut builder = HullBuilder::new(alloc);
    let mut number = 0_u32;
    for _ in 0..count {
        builder.add(&[on_curve(number)])?;
        number = number.wrapping_add(step) % count;
    }
    let copy = builder.copy(alloc)?;
    Ok(copy.into_hull()?)
}

/// How many rows of a count and a step give the whole curve, up to the first that doesn't.
fn curves_told(alloc: Global, rows: &[(u32, u32)]) -> Result<usize, Fail> {
    for told in 0..rows.len() {
        let (count, step) = rows[told];
        let found = curve_added(alloc, count, step)?;
        if found.as_slice() != curve(alloc, count)?.as_slice() {
            return Ok(told);
        }
    }
    Ok(rows.len())
}

/// Whether each of the counts gives the whole curve, added at once.
fn are_whole_curves(alloc: Global, counts: &[u32]) -> Result<bool, Fail> {
    for count in counts {
        let whole = curve(alloc, *count)?;
        let mut builder = HullBuilder::new(alloc);
        builder.add(whole.as_slice())?;
        if builder.into_hull()?.as_slice() != whole.as_slice() {
            return Ok(false);
        }
    }
    Ok(true)
}

/// Adds the position of that number, if it is in the set.
fn add_chosen(builder: &mut HullBuilder, code: u32, number: u32) -> Result<(), Fail> {
    if code.wrapping_shr(number) % 2 == 1 {
        builder.add(&[cell(number)])?;
    }
    Ok(())
}

/// The positions of a set whose numbers are at least `from` and below `to`, added one by one.
fn rising(alloc: Global, code: u32, from: u32, to: u32) -> Result<HullBuilder, Fail> {
    let mut builder = HullBuilder::new(alloc);
    for number in from..to {
        add_chosen(&mut builder, code, number)?;
    }
    Ok(builder)
}

/// The positions of a set from the last to the first, added one by one.
fn falling(alloc: Global, code: u32) -> Result<HullBuilder, Fail> {
    let mut builder = HullBuilder::new(alloc);
    for left in 0..9 {
        add_chosen(&mut builder, code, 8 - left)?;
    }
    Ok(builder)
}

/// Whether the builder has the hull of the positions.
fn gives_hull(builder: HullBuilder, ps: &Path) -> Result<bool, Fail> {
    let found = builder.into_hull()?;
    Ok(is_hull(ps.as_slice(), found.as_slice()))
}

/// How many of the sets have their hull, added from the first to the last, from the last to the first,
/// and in two parts that are joined, up to the first that hasn't.
fn sets_told(alloc: Global, codes: u32) -> Result<u32, Fail> {
    for code in 0..codes {
        let ps = chosen(alloc, code)?;
        let mut joined = rising(alloc, code, 4, 9)?;
        joined.join(rising(alloc, code, 0, 4)?)?;
        let all = gives_hull(rising(alloc, code, 0, 9)?, &ps)?
            && gives_hull(falling(alloc, code)?, &ps)?
            && gives_hull(joined, &ps)?;
        if !all {
            return Ok(code);
        }
    }
    Ok(codes)
}

/// Whether the hull has three positions or more, and none of the others is to the right of an edge.
fn surrounds(hull: &[Pos], others: &[Pos]) -> bool {
    let Some((last, front)) = hull.split_last() else {
        return false;
    };
    let Some((before, rest)) = front.split_last() else {
        return false;
    };
    !rest.is_empty() && goes_round(*before, *last, hull, others)
}

/// Whether the hull surrounds the corners of the extent.
fn surrounds_corners(hull: &[Pos], extent: Extent) -> bool {
    let right = Pos {
        x: extent.high.x,
        y: extent.low.y,
    };
    let left = Pos {
        x: extent.low.x,
        y: extent.high.y,
    };
    surrounds(hull, &[extent.low, right, extent.high, left])
}

/// Whether the hull of a set covers just those extents between two cells whose corners it surrounds.
fn covers_surrounded(alloc: Global, code: u32) -> Result<bool, Fail> {
    let hull = rising(alloc, code, 0, 9)?.into_hull()?;
    let mut builder = HullBuilder::from_hull(rising(alloc, code, 0, 9)?.into_hull()?);
    for number in 0..81 {
        let extent = Extent {
            low: cell(number / 9),
            high: cell(number % 9),
        };
        if builder.covers(extent) != surrounds_corners(hull.as_slice(), extent) {
            return Ok(false);
        }
    }
    Ok(true)
}

/// How many of the sets have a hull that covers just what it surrounds, up to the first that hasn't.
fn covers_told(alloc: Global, codes: u32) -> Result<u32, Fail> {
    for code in 0..codes {
        if !covers_surrounded(alloc, code)? {
            return Ok(code);
        }
    }
    Ok(codes)
}

/// The lower left and the upper right corner of an extent.
struct Corners {
    low: (i64, i64),
    high: (i64, i64),
}

/// The hull of the positions.
fn hull_of(alloc: Global, ends: &[(i64, i64)]) -> Result<HullBuilder, Fail> {
    let mut adding = HullBuilder::new(alloc);
    adding.add(path(alloc, ends)?.as_slice())?;
    Ok(HullBuilder::from_hull(adding.into_hull()?))
}

/// How many of the extents the hull of the positions covers.
fn covered(alloc: Global, ends: &[(i64, i64)], extents: &[Corners]) -> Result<u32, Fail> {
    let mut builder = hull_of(alloc, ends)?;
    let mut count = 0u32;
    for extent in extents {
        let low = at(extent.low.0, extent.low.1);
        let high = at(extent.high.0, extent.high.1);
        if builder.covers(Extent { low, high }) {
            count = count.wrapping_add(1);
        }
    }
    Ok(count)
}

/// Inside, at two edges, at a corner, along an edge, across, and two positions.
static COVERED: [Corners; 7] = [
    Corners {
        low: (1, 1),
        high: (3, 3),
    },
    Corners {
        low: (0, 0),
        high: (4, 3),
    },
    Corners {
        low: (0, 0),
        high: (1, 1),
    },
    Corners {
        low: (1, 0),
        high: (3, 0),
    },
    Corners {
        low: (0, 3),
        high: (6, 3),
    },
    Corners {
        low: (3, 6),
        high: (3, 6),
    },
    Corners {
        low: (2, 2),
        high: (2, 2),
    },
];

/// One corner outside, two, three and all four.
static NOT_COVERED: [Corners; 6] = [
    Corners {
        low: (0, 0),
        high: (5, 3),
    },
    Corners {
        low: (2, 2),
        high: (7, 3),
    },
    Corners {
        low: (-1, 1),
        high: (1, 2),
    },
    Corners {
        low: (3, 3),
        high: (6, 6),
    },
    Corners {
        low: (-1, -1),
        high: (7, 7),
    },
    Corners {
        low: (5, 1),
        high: (5, 1),
    },
];

#[test]
fn extents_inside_and_outside(rt: HostRuntime) -> Result<(), Fail> {
    let ring = [(0, 0), (4, 0), (6, 3), (3, 6), (0, 4)];
    assert_eq!(rt; covered(rt.alloc(), &ring, &COVERED)?, 7);
    assert_eq!(rt; covered(rt.alloc(), &ring, &NOT_COVERED)?, 0);
    assert_eq!(rt; covered(rt.alloc(), &[(0, 0), (4, 4)], &COVERED)?, 0);
    assert_eq!(rt; covered(rt.alloc(), &[], &COVERED)?, 0);
    Ok(())
}

#[test]
fn extents_of_the_grid(rt: HostRuntime) -> Result<(), Fail> {
    assert_eq!(rt; covers_told(rt.alloc(), 512)?, 512);
    Ok(())
}

#[test]
fn curve_in_several_orders(rt: HostRuntime) -> Result<(), Fail> {
    let rows = [
        (0, 1),
        (1, 1),
        (2, 1),
        (32, 1),
        (33, 1),
        (200, 1),
        (200, 199),
        (200, 37),
        (999, 500),
    ];
    assert_eq!(rt; curves_told(rt.alloc(), &rows)?, 9);
    Ok(())
}

#[test]
fn curves_added_at_once(rt: HostRuntime) -> Result<(), Fail> {
    let counts = [0, 1, 2, 4095, 4096, 4097, 8192, 8193, 20_000];
    assert!(rt; are_whole_curves(rt.alloc(), &counts)?);
    Ok(())
}

#[test]
fn sets_of_the_grid_added(rt: HostRuntime) -> Result<(), Fail> {
    assert_eq!(rt; sets_told(rt.alloc(), 512)?, 512);
    Ok(())
}
