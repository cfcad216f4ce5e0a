//! Tables of lists and their pairs, by every pair, by cells and by crews.

ghost use Rattle.std.specs.Prelude.{◌≡◌, ◌<◌, ◌≤◌, [], ◌∷◌, IfOk};
ghost use Rattle.at_geom.specs.Segments.{IsInRange};
ghost use Rattle.at_query.specs.Parts.{AreProper, IsProperEntry};
ghost use Rattle.at_join.specs.Meetings.{AreInRange};

use at_crew::{Free, Gate, Job};
use at_geom::{Path, Paths, Polygon, Polygons, Pos, Shape, extent};
use at_join::{Grid, GridJob, PairPart, pairs_grid, pairs_plain};
use at_query::{Entries, Entry, Pair, Pairs};
use std::alloc::{AllocError, Global};
use std::test::Fail;
use std::thread::Threads;

// The ring of a rectangle by two of its corners.
fn ring_of(alloc: Global, low: Pos, high: Pos) -> Result<Path, AllocError>
    ensures { IfOk result (λ ring. ring ≡ low ∷ record { x = high.x; y = low.y } ∷ high ∷ record {
      x = low.x;
      y = high.y;
    } ∷ low ∷ []) }
{
    let right = Pos {
        x: high.x,
        y: low.y,
    };
    let left = Pos {
        x: low.x,
        y: high.y,
    };
    Ok(Path::from_vec(vec![in alloc; low, right, high, left, low]?))
}

// The shape of one polygon with one ring.
fn shape_of(alloc: Global, ring: Path) -> Result<Shape, AllocError>
    ensures { IfOk result (λ s. s ≡ record { points = []; lines = []; polygons = record { rings = ring ∷ [] } ∷ [] }) }
{
    let rings = Paths::from_vec(vec![in alloc; ring]?);
    let polygons = Polygons::from_vec(vec![in alloc; Polygon { rings }]?);
    Ok(Shape {
        points: Path::from_vec(Vec::new(alloc)),
        lines: Paths::from_vec(Vec::new(alloc)),
        polygons,
    })
}

// The entry of a rectangle.
fn rectangle(alloc: Global, at: u32, low: Pos, high: Pos) -> Result<Entry, AllocError>
    requires { IsInRange low × IsInRange high }
    ensures { IfOk result (λ e. IsProperEntry e × (e.at ≡ at)) }
{
    let ring = ring_of(alloc, low, high)?;
    let shape = shape_of(alloc, ring)?;
    let around = extent(&shape);
    Ok(Entry {
        at,
        shape,
        extent: around,
    })
}

// The entries of two rectangles.
fn two(alloc: Global, first: Entry, second: Entry) -> Result<Entries, AllocError>
    requires proper { IsProperEntry first × IsProperEntry second }
    requires rising { first.at < second.at }
    ensures proper { IfOk result AreProper }
    ensures in_range { IfOk result AreInRange }
{
    Ok(Entries::from_vec(vec![in alloc; first, second]?))
}

// The squares of the first two lines of a generated file, at offsets 0 and 32.
fn whole_squares(alloc: Global) -> Result<Entries, AllocError>
    ensures proper { IfOk result AreProper }
    ensures in_range { IfOk result AreInRange }
{
    let first = rectangle(
        alloc,
        0,
        Pos { x: 0, y: 0 },
        Pos {
            x: 10_000_000,
            y: 10_000_000,
        },
    )?;
    let second = rectangle(
        alloc,
        32,
        Pos {
            x: 10_000_000,
            y: 0,
        },
        Pos {
            x: 20_000_000,
            y: 10_000_000,
        },
    )?;
    two(alloc, first, second)
}

// The same half a unit to the right, at offsets 41 and 176.
fn half_squares(alloc: Global) -> Result<Entries, AllocError>
    ensures proper { IfOk result AreProper }
    ensures in_range { IfOk result AreInRange }
{
    let first = rectangle(
        alloc,
        41,
        Pos { x: 5_000_000, y: 0 },
        Pos {
            x: 15_000_000,
            y: 10_000_000,
        },
    )?;
    let second = rectangle(
        alloc,
        176,
        Pos {
            x: 15_000_000,
            y: 0,
        },
        Pos {
            x: 25_000_000,
            y: 10_000_000,
        },
    )?;
    two(alloc, first, second)
}

/// The greatest coordinate.
const FAR: i64 = 300_000_000_000_000;

// The position, or the nearest one that is in range.
fn place(x: i64, y: i64) -> Pos
    ensures { IsInRange result }
{
    Pos {
        x: x.max(-FAR).min(FAR),
        y: y.max(-FAR).min(FAR),
    }
}

// A square of 10 units, the numbered one of rows of 8 which lie side by side, moved so far to the right.
fn square(alloc: Global, number: u32, by: i64) -> Result<Entry, AllocError>
    ensures { IfOk result (λ e. IsProperEntry e × (e.at ≡ number)) }
{
    let x = i64::from(number % 8).wrapping_mul(10).wrapping_add(by);
    let y = i64::from(number / 8).wrapping_mul(10);
    let high = place(x.wrapping_add(10), y.wrapping_add(10));
    rectangle(alloc, number, place(x, y), high)
}

// The entries of so many squares.
fn squares(alloc: Global, count: u32, by: i64) -> Result<Entries, AllocError>
    ensures proper { IfOk result AreProper }
    ensures in_range { IfOk result AreInRange }
{
    let mut entries = Vec::new(alloc);
    let mut number = 0;
    while number < count {
        entries.push(square(alloc, number, by)?)?;
        number += 1;
    }
    Ok(Entries::from_vec(entries))
}

// Whether the pairs are those of the rows.
fn are_pairs(pairs: &Pairs, rows: &[(u32, u32)]) -> bool {
    let found = pairs.as_slice();
    if found.len() != rows.len() {
        return false;
    }
    for number in 0..rows.len() {
        let (first, second) = rows[number];
        if number >= found.len() || found[number] != (Pair { first, second }) {
            return false;
        }
    }
    true
}

/// The pairs of the first two squares and the ones half a unit to the right.
static TWO_BY_TWO: [(u32, u32); 3] = [(0, 41), (32, 41), (32, 176)];

/// All pairs by the plain definition.
#[test]
fn pairs_of_two_by_two(rt: HostRuntime) -> Result<(), Fail> {
    let alloc = rt.alloc();
    let a = whole_squares(alloc)?;
    let b = half_squares(alloc)?;
    let plain = pairs_plain(alloc, &a, &b)?;
    assert!(rt; are_pairs(&plain, &TWO_BY_TWO));
    Ok(())
}

/// The pairs of each cell.
#[test]
fn cells_of_two_by_two(rt: HostRuntime) -> Result<(), Fail> {
    let alloc = rt.alloc();
    let grid = Grid::new(alloc, whole_squares(alloc)?, half_squares(alloc)?)?;
    let job = GridJob::new(grid, &Free);
    for cell in 0..64u32 {
        let PairPart::Pairs(pairs) = job.run(alloc, cell) else {
            panic!(rt; "cell {cell} is lost");
        };
        let wanted = match cell {
            1 => &TWO_BY_TWO[..1],
            3 => &TWO_BY_TWO[1..2],
            4 => &TWO_BY_TWO[2..],
            _ => &[],
        };
        assert!(rt; are_pairs(&pairs, wanted), "cell {cell}");
    }
    Ok(())
}

// Whether so many workers find the same pairs.
fn find_two_by_two<R: Threads + Sync>(rt: &R, alloc: Global, workers: u32) -> Result<bool, Fail>
    requires { (0 < workers) × (workers ≤ 64) }
{
    let a = whole_squares(alloc)?;
    let b = half_squares(alloc)?;
    let pairs = pairs_grid(rt, alloc, a, b, workers, &Free)?;
    Ok(are_pairs(&pairs, &TWO_BY_TWO))
}

/// The same pairs, by so many workers.
#[test]
fn grid_of_two_by_two(rt: HostRuntime) -> Result<(), Fail> {
    assert!(rt; find_two_by_two(&rt, rt.alloc(), 1)?, "1 worker");
    assert!(rt; find_two_by_two(&rt, rt.alloc(), 4)?, "4 workers");
    assert!(rt; find_two_by_two(&rt, rt.alloc(), 64)?, "64 workers");
    Ok(())
}

// How many pairs so many squares have with so many that are half a square to the right, by four workers, which are to
// be those of the plain definition.
fn count_of_many<R: Threads + Sync>(
    rt: &R,
    alloc: Global,
    first: u32,
    second: u32,
) -> Result<usize, Fail> {
    let a = squares(alloc, first, 0)?;
    let b = squares(alloc, second, 5)?;
    let plain = pairs_plain(alloc, &a, &b)?;
    let pairs = pairs_grid(rt, alloc, a, b, 4, &Free)?;
    if pairs.as_slice() != plain.as_slice() {
        return Err(Fail::from("not the pairs of the plain definition"));
    }
    Ok(pairs.as_slice().len())
}

/// The pairs of lists of several stretches each, also where one is far longer: those of the plain definition.
#[test]
fn grid_of_many(rt: HostRuntime) -> Result<(), Fail> {
    assert_eq!(rt; count_of_many(&rt, rt.alloc(), 40, 40)?, 195);
    assert_eq!(rt; count_of_many(&rt, rt.alloc(), 2, 48)?, 6);
    assert_eq!(rt; count_of_many(&rt, rt.alloc(), 48, 2)?, 8);
    Ok(())
}

// It gives up one cell.
struct Without {
    cell: u32,
}

impl Gate for Without {
    ghost use Rattle.std.specs.Prelude.{[], ◌∷◌};

    ghost given_up = { λ g. g.cell ∷ [] };

    fn enter(&self, _block: u32) {}

    fn gives_up(&self, block: u32) -> bool {
        block == self.cell
    }
}

/// Where a cell is given up, the answer is want of memory, also where the cell has no pair.
#[test]
fn cell_given_up(rt: HostRuntime) -> Result<(), Fail> {
    let alloc = rt.alloc();
    let a = whole_squares(alloc)?;
    let b = half_squares(alloc)?;
    let answer = pairs_grid(&rt, alloc, a, b, 1, &Without { cell: 63 });
    assert!(rt; answer.is_err());
    Ok(())
}

/// What the page of `at_join` shows.
#[test]
fn the_example_of_the_crate(rt: HostRuntime) -> Result<(), Fail> {
    let alloc = rt.alloc();
    let towns = whole_squares(alloc)?;
    let lakes = half_squares(alloc)?;
    let plain = pairs_plain(alloc, &towns, &lakes)?;
    let pairs = pairs_grid(&rt, alloc, towns, lakes, 4, &Free)?;
    assert!(rt; pairs.as_slice() == plain.as_slice());
    assert_eq!(rt; pairs.as_slice().len(), 3);
    Ok(())
}
