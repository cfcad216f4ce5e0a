//! The hull of a list of positions, from a chain up and a chain down, and the hull of two lists.
ghost use Rattle.std.specs.Prelude.{◌≤◌, List, All, IfOk, ◌++◌, length};
ghost use Rattle.at_geom.specs.declared.positions.Pos.{Pos};
ghost use Rattle.at_geom.specs.Segments.{IsInRange};
ghost use Rattle.at_hull.specs.Hulls.{IsHull, HasSame, IsAscending};
ghost use Rattle.at_hull.specs.Walks.{IsWithoutEnd};

use crate::chains::chain;
use at_geom::{Path, Pos};
use at_text::Memory;
use std::alloc::Global;

/// The convex hull of the positions (OGC 06-103r4 section 6.1.2.4): the extreme ones, counterclockwise
/// from the lowest, which has the least y, and of these the least x. No position is there twice, the
/// first not again at the end, and none lies between others.
///
/// It is empty where there are no positions, one position where all are equal, and the two ends where
/// all lie on one line. Coordinates are counts of units, at most 3 * 10^14 in size. `Err` is want of
/// memory.
pub fn hull(alloc: Global, points: &Path) -> Result<Path, Memory>
    requires { All IsInRange points.now }
    ensures { IfOk result (λ h. IsHull points.now h) }
{
    hull_of_sorted(alloc, sorted_once(alloc, points.as_slice())?)
}

/// The hull of two lists together, from their hulls: of whatever lists `a` and `b` are the hulls, the
/// answer is the hull of the one followed by the other. Coordinates are at most 3 * 10^14 units in
/// size. `Err` is want of memory.
pub fn hull_join(alloc: Global, a: &Path, b: &Path) -> Result<Path, Memory>
    requires a_in_range { All IsInRange a.now }
    requires b_in_range { All IsInRange b.now }
    ensures { (ps qs : List Pos) → IsHull ps a.now → IsHull qs b.now → IfOk result (λ h. IsHull (ps ++ qs) h) }
{
    let both = hull_of_both(alloc, a.as_slice(), b.as_slice())?;
    Ok(Path::from_vec(both))
}

/// The hull of two lists together, of which it says that its coordinates are in range.
pub(crate) fn hull_of_both(alloc: Global, first: &[Pos], second: &[Pos]) -> Result<Vec<Pos>, Memory>
    requires first_in_range { All IsInRange first.now }
    requires second_in_range { All IsInRange second.now }
    ensures hull { IfOk result (λ h. IsHull (first.now ++ second.now) h.items) }
    ensures own { IfOk result (λ h. IsHull h.items h.items) }
    ensures in_range { IfOk result (λ h. All IsInRange h.items) }
{
    let mut both = Vec::new(alloc);
    both.extend_from_slice(first)?;
    both.extend_from_slice(second)?;
    Ok(hull(alloc, &Path::from_vec(both))?.into_vec())
}

/// The positions from the lowest up, each once.
fn sorted_once(alloc: Global, points: &[Pos]) -> Result<Vec<Pos>, Memory>
    requires { All IsInRange points.now }
    ensures ascending { IfOk result (λ v. IsAscending v.items) }
    ensures same { IfOk result (λ v. HasSame v.items points.now) }
    ensures in_range { IfOk result (λ v. All IsInRange v.items) }
{
    let mut sorted = Vec::new(alloc);
    sorted.extend_from_slice(points)?;
    sorted.sort_by_key(|p| (p.y, p.x))?;
    sorted.dedup();
    Ok(sorted)
}

/// The hull of positions that rise.
fn hull_of_sorted(alloc: Global, sorted: Vec<Pos>) -> Result<Path, Memory>
    requires in_range { All IsInRange sorted.items }
    requires ascending { IsAscending sorted.items }
    ensures { IfOk result (λ h. IsHull sorted.items h) }
{
    if sorted.len() < 2 {
        return Ok(Path::from_vec(sorted));
    }
    Ok(Path::from_vec(around(alloc, sorted)?))
}

/// The chain up on the right and the chain down on the left, each without its last position.
fn around(alloc: Global, sorted: Vec<Pos>) -> Result<Vec<Pos>, Memory>
    requires in_range { All IsInRange sorted.items }
    requires ascending { IsAscending sorted.items }
    requires several { 2 ≤ length sorted.items }
    ensures { IfOk result (λ h. IsHull sorted.items h.items) }
{
    let mut hull = without_last(chain(alloc, sorted.as_slice())?);
    let mut falling = sorted;
    falling.reverse();
    let left = without_last(chain(alloc, falling.as_slice())?);
    hull.extend_from_slice(left.as_slice())?;
    Ok(hull)
}

/// The way without its last position, with which the other way begins.
fn without_last(way: Vec<Pos>) -> Vec<Pos>
    ensures { IsWithoutEnd way.items result.items }
{
    let mut front = way;
    front.pop();
    front
}
