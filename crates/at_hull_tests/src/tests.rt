//! Tables of positions with their hulls, which were worked out by hand.
ghost use Rattle.std.specs.Prelude.{IfOk, OnOk, All};
ghost use Rattle.at_geom.specs.Segments.{IsInRange};

use at_geom::{Path, Pos};
use at_hull::{covers_all, hull, hull_join};
use std::alloc::{AllocError, Global};
use std::test::Fail;

/// The greatest coordinate.
const FAR: i64 = 300_000_000_000_000;

/// Positions, and their hull.
#[derive(Drop)]
struct Row {
    ends: &'static [(i64, i64)],
    hull: &'static [(i64, i64)],
}

/// Two lists of positions, and the hull of both together.
struct Pair {
    first: &'static [(i64, i64)],
    second: &'static [(i64, i64)],
    hull: &'static [(i64, i64)],
}

/// Three positions on a line through (0, 0) in each of sixteen directions, the middle one last.
static LINES: [Row; 16] = [
    Row {
        ends: &[(0, 0), (4, 0), (2, 0)],
        hull: &[(0, 0), (4, 0)],
    },
    Row {
        ends: &[(0, 0), (8, 4), (4, 2)],
        hull: &[(0, 0), (8, 4)],
    },
    Row {
        ends: &[(0, 0), (4, 4), (2, 2)],
        hull: &[(0, 0), (4, 4)],
    },
    Row {
        ends: &[(0, 0), (4, 8), (2, 4)],
        hull: &[(0, 0), (4, 8)],
    },
    Row {
        ends: &[(0, 0), (0, 4), (0, 2)],
        hull: &[(0, 0), (0, 4)],
    },
    Row {
        ends: &[(0, 0), (-4, 8), (-2, 4)],
        hull: &[(0, 0), (-4, 8)],
    },
    Row {
        ends: &[(0, 0), (-4, 4), (-2, 2)],
        hull: &[(0, 0), (-4, 4)],
    },
    Row {
        ends: &[(0, 0), (-8, 4), (-4, 2)],
        hull: &[(0, 0), (-8, 4)],
    },
    Row {
        ends: &[(0, 0), (-4, 0), (-2, 0)],
        hull: &[(-4, 0), (0, 0)],
    },
    Row {
        ends: &[(0, 0), (-8, -4), (-4, -2)],
        hull: &[(-8, -4), (0, 0)],
    },
    Row {
        ends: &[(0, 0), (-4, -4), (-2, -2)],
        hull: &[(-4, -4), (0, 0)],
    },
    Row {
        ends: &[(0, 0), (-4, -8), (-2, -4)],
        hull: &[(-4, -8), (0, 0)],
    },
    Row {
        ends: &[(0, 0), (0, -4), (0, -2)],
        hull: &[(0, -4), (0, 0)],
    },
    Row {
        ends: &[(0, 0), (4, -8), (2, -4)],
        hull: &[(4, -8), (0, 0)],
    },
    Row {
        ends: &[(0, 0), (4, -4), (2, -2)],
        hull: &[(4, -4), (0, 0)],
    },
    Row {
        ends: &[(0, 0), (8, -4), (4, -2)],
        hull: &[(8, -4), (0, 0)],
    },
];

/// No position, and positions that are there several times.
static EQUAL: [Row; 6] = [
    Row {
        ends: &[],
        hull: &[],
    },
    Row {
        ends: &[(7, -7)],
        hull: &[(7, -7)],
    },
    Row {
        ends: &[(2, 2), (2, 2)],
        hull: &[(2, 2)],
    },
    Row {
        ends: &[(3, 1), (0, 0), (3, 1), (0, 0)],
        hull: &[(0, 0), (3, 1)],
    },
    Row {
        ends: &[(0, 0), (5, 1), (1, 5), (0, 0)],
        hull: &[(0, 0), (5, 1), (1, 5)],
    },
    Row {
        ends: &[
            (1, 0),
            (0, 1),
            (1, 1),
            (0, 0),
            (0, 0),
            (1, 1),
            (0, 1),
            (1, 0),
        ],
        hull: &[(0, 0), (1, 0), (1, 1), (0, 1)],
    },
];

/// Positions as far out as they may be. Twice the area of the last triangle is one square unit.
static FAR_OUT: [Row; 5] = [
    Row {
        ends: &[(0, 0), (FAR, FAR), (-FAR, -FAR)],
        hull: &[(-FAR, -FAR), (FAR, FAR)],
    },
    Row {
        ends: &[
            (FAR, FAR),
            (-FAR, 0),
            (-FAR, FAR),
            (0, 0),
            (FAR, -FAR),
            (0, FAR),
            (-FAR, -FAR),
        ],
        hull: &[(-FAR, -FAR), (FAR, -FAR), (FAR, FAR), (-FAR, FAR)],
    },
    Row {
        ends: &[(FAR, FAR), (-FAR, -FAR), (1, 0)],
        hull: &[(-FAR, -FAR), (1, 0), (FAR, FAR)],
    },
    Row {
        ends: &[(FAR, FAR), (-FAR, -FAR), (0, 1)],
        hull: &[(-FAR, -FAR), (FAR, FAR), (0, 1)],
    },
    Row {
        ends: &[(-FAR, -FAR), (FAR, FAR - 1), (FAR - 1, FAR - 2)],
        hull: &[(-FAR, -FAR), (FAR - 1, FAR - 2), (FAR, FAR - 1)],
    },
];

/// The rings of three squares of one unit, of which the second stands beside the first, and the third on it.
static THREE_SQUARES: [(i64, i64); 15] = [
    (0, 0),
    (1, 0),
    (1, 1),
    (0, 1),
    (0, 0),
    (1, 0),
    (2, 0),
    (2, 1),
    (1, 1),
    (1, 0),
    (0, 1),
    (1, 1),
    (1, 2),
    (0, 2),
    (0, 1),
];

/// A grid of three by three.
static GRID: [(i64, i64); 9] = [
    (1, 1),
    (0, 1),
    (2, 2),
    (2, 0),
    (1, 0),
    (0, 0),
    (0, 2),
    (1, 2),
    (2, 1),
];

/// Nothing on one side, lines that cross, parts of one line, a square beside another and within one,
/// and one hull twice.
static PAIRS: [Pair; 8] = [
    Pair {
        first: &[],
        second: &[],
        hull: &[],
    },
    Pair {
        first: &[],
        second: &[(3, 0), (0, 3)],
        hull: &[(3, 0), (0, 3)],
    },
    Pair {
        first: &[(4, 4), (0, 0)],
        second: &[],
        hull: &[(0, 0), (4, 4)],
    },
    Pair {
        first: &[(0, 0), (2, 2)],
        second: &[(2, 0), (0, 2)],
        hull: &[(0, 0), (2, 0), (2, 2), (0, 2)],
    },
    Pair {
        first: &[(0, 0), (2, 2)],
        second: &[(5, 5), (1, 1)],
        hull: &[(0, 0), (5, 5)],
    },
    Pair {
        first: &[(0, 0), (1, 0), (1, 1), (0, 1)],
        second: &[(5, 0), (6, 0), (6, 1), (5, 1)],
        hull: &[(0, 0), (6, 0), (6, 1), (0, 1)],
    },
    Pair {
        first: &[(1, 1), (2, 1), (2, 2), (1, 2)],
        second: &[(0, 0), (4, 0), (4, 4), (0, 4)],
        hull: &[(0, 0), (4, 0), (4, 4), (0, 4)],
    },
    Pair {
        first: &[(0, 0), (4, 0), (1, 3)],
        second: &[(1, 3), (0, 0), (4, 0)],
        hull: &[(0, 0), (4, 0), (1, 3)],
    },
];

/// The position, or the nearest one that is in range.
pub(crate) fn at(x: i64, y: i64) -> Pos
    ensures { IsInRange result }
{
    Pos {
        x: x.max(-FAR).min(FAR),
        y: y.max(-FAR).min(FAR),
    }
}

/// Puts a position behind others.
pub(crate) fn add(items: &mut Vec<Pos>, pos: Pos) -> Result<(), AllocError>
    requires others { All IsInRange items.old.items }
    requires one { IsInRange pos }
    ensures { OnOk result (All IsInRange items.new.items) }
{
    items.push(pos)?;
    Ok(())
}

pub(crate) fn path(alloc: Global, ends: &[(i64, i64)]) -> Result<Path, AllocError>
    ensures { IfOk result (λ p. All IsInRange p) }
{
    let mut items = Vec::new(alloc);
    for end in ends {
        add(&mut items, at(end.0, end.1))?;
    }
    Ok(Path::from_vec(items))
}

/// The hull, of which it says that its coordinates are in range.
pub(crate) fn hull_in_range(alloc: Global, points: &Path) -> Result<Path, Fail>
    requires { All IsInRange points.now }
    ensures { IfOk result (λ h. All IsInRange h) }
{
    Ok(hull(alloc, points)?)
}

/// Whether the row has the hull that it tells.
fn is_row_told(alloc: Global, row: &Row) -> Result<bool, Fail> {
    let found = hull_in_range(alloc, &path(alloc, row.ends)?)?;
    Ok(found.as_slice() == path(alloc, row.hull)?.as_slice())
}

/// How many rows have the hull that they tell, up to the first that hasn't.
fn rows_told(alloc: Global, rows: &[Row]) -> Result<usize, Fail> {
    for told in 0..rows.len() {
        if !is_row_told(alloc, &rows[told])? {
            return Ok(told);
        }
    }
    Ok(rows.len())
}

/// The hull of the positions of both lists, by the hulls of each.
fn joined(alloc: Global, first: &[(i64, i64)], second: &[(i64, i64)]) -> Result<Path, Fail> {
    let left = hull_in_range(alloc, &path(alloc, first)?)?;
    let right = hull_in_range(alloc, &path(alloc, second)?)?;
    Ok(hull_join(alloc, &left, &right)?)
}

/// How many pairs have the hull that they tell, up to the first that hasn't.
fn pairs_told(alloc: Global, pairs: &[Pair]) -> Result<usize, Fail> {
    for told in 0..pairs.len() {
        let pair = &pairs[told];
        let found = joined(alloc, pair.first, pair.second)?;
        if found.as_slice() != path(alloc, pair.hull)?.as_slice() {
            return Ok(told);
        }
    }
    Ok(pairs.len())
}

#[test]
fn lines_in_every_direction(rt: HostRuntime) -> Result<(), Fail> {
    assert_eq!(rt; rows_told(rt.alloc(), &LINES)?, 16);
    Ok(())
}

#[test]
fn equal_positions(rt: HostRuntime) -> Result<(), Fail> {
    assert_eq!(rt; rows_told(rt.alloc(), &EQUAL)?, 6);
    Ok(())
}

#[test]
fn limits_of_coordinates(rt: HostRuntime) -> Result<(), Fail> {
    assert_eq!(rt; rows_told(rt.alloc(), &FAR_OUT)?, 5);
    Ok(())
}

#[test]
fn squares_in_rows(rt: HostRuntime) -> Result<(), Fail> {
    let rows = [
        Row {
            ends: &THREE_SQUARES[..5],
            hull: &[(0, 0), (1, 0), (1, 1), (0, 1)],
        },
        Row {
            ends: &THREE_SQUARES[..10],
            hull: &[(0, 0), (2, 0), (2, 1), (0, 1)],
        },
        Row {
            ends: &THREE_SQUARES,
            hull: &[(0, 0), (2, 0), (2, 1), (1, 2), (0, 2)],
        },
        Row {
            ends: &GRID,
            hull: &[(0, 0), (2, 0), (2, 2), (0, 2)],
        },
    ];
    assert_eq!(rt; rows_told(rt.alloc(), &rows)?, 4);
    Ok(())
}

#[test]
fn hulls_joined(rt: HostRuntime) -> Result<(), Fail> {
    assert_eq!(rt; pairs_told(rt.alloc(), &PAIRS)?, 8);
    Ok(())
}

/// Whether the hull is seen to cover the position alone.
fn covers_one(alloc: Global, ring: &Path, end: (i64, i64)) -> Result<bool, Fail>
    requires { All IsInRange ring.now }
{
    let one = path(alloc, &[end])?;
    Ok(covers_all(ring, &one))
}

/// How many of the positions, each alone, a hull of five positions is seen to cover.
fn covered(alloc: Global, ends: &[(i64, i64)]) -> Result<u32, Fail> {
    let corners = path(alloc, &[(0, 0), (4, 0), (6, 3), (3, 6), (0, 4)])?;
    let ring = hull_in_range(alloc, &corners)?;
    let mut count = 0u32;
    for end in ends {
        if covers_one(alloc, &ring, *end)? {
            count = count.wrapping_add(1);
        }
    }
    Ok(count)
}

/// Positions inside the five, and on their hull.
static INSIDE: [(i64, i64); 10] = [
    (1, 1),
    (3, 3),
    (5, 3),
    (2, 5),
    (0, 0),
    (6, 3),
    (0, 4),
    (2, 0),
    (0, 1),
    (5, 2),
];

/// Positions outside of it.
static OUTSIDE: [(i64, i64); 12] = [
    (-1, 0),
    (1, -1),
    (5, 0),
    (5, 1),
    (7, 3),
    (6, 4),
    (5, 5),
    (3, 7),
    (1, 5),
    (-1, 2),
    (0, 5),
    (-1, 6),
];

#[test]
fn positions_inside_and_outside(rt: HostRuntime) -> Result<(), Fail> {
    assert_eq!(rt; covered(rt.alloc(), &INSIDE)?, 10);
    assert_eq!(rt; covered(rt.alloc(), &OUTSIDE)?, 0);
    Ok(())
}

/// What the page of `at_hull` shows.
#[test]
fn the_example_of_the_crate(rt: HostRuntime) -> Result<(), Fail> {
    let alloc = rt.alloc();
    let low = Pos { x: 0, y: 0 };
    let middle = Pos { x: 2, y: 1 };
    let high = Pos { x: 4, y: 2 };
    let points = Path::from_vec(vec![in alloc; high, middle, low]?);
    let ends = hull(alloc, &points)?;
    assert!(rt; ends.as_slice() == [low, high].as_slice());
    Ok(())
}
