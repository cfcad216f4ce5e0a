//! The hull of positions that are added bit by bit.
ghost use Rattle.std.specs.Prelude.{◌≡◌, ◌<◌, ◌++◌, [], All, IfOk, OnOk, OnErr, IsOk, IsTrue, length, max, take};
ghost use Rattle.at_geom.specs.Segments.{IsInRange};
ghost use Rattle.at_hull.specs.Hulls.{IsHull};
ghost use Rattle.at_hull.specs.Growth.{AddsNothing, HaveOneHull, HoldsFront, IsExtentInRange, held};

use crate::extents::{around, corners_lie_in, lies_in};
use crate::hulls::hull_of_both;
use crate::inside::is_within;
use at_geom::{Extent, Path, Pos};
use at_text::Memory;
use std::alloc::Global;
use std::marker::Model;

/// As many positions wait at least before the hull is made anew.
const FEW: usize = 32;

/// So many positions at the most are put to those that wait before the hull is looked at.
const STRETCH: usize = 4096;

/// The hull of positions that are added bit by bit.
///
/// Positions that are seen to lie within the hull are left out, and the others wait. When as many wait as the hull
/// has, and at least 32, the hull of both is made. So `n` positions take in all a time of the order of `n log n`, and
/// what is held is at most about twice the hull and 4,096 positions.
#[derive(Drop)]
pub struct HullBuilder {
    hull: Vec<Pos>,
    waiting: Vec<Pos>,
    /// An extent that adds nothing to the hull.
    inner: Option<Extent>,
    /// How often an extent was covered that is not in the inner one, since that grew.
    misses: u32,
}

impl Model for HullBuilder {
    ghost use Rattle.at_hull.specs.Growth.{Growth, IsGrowing};

    ghost Value = { Growth };

    ghost view = { λ b. record { hull = b.hull.items; waiting = b.waiting.items } };

    ghost invariant = { λ b. IsGrowing b.hull.items b.waiting.items b.inner };
}

impl HullBuilder {
    /// No positions. It takes no memory.
    pub fn new(alloc: Global) -> Self
        ensures { result ≡ record { hull = []; waiting = [] } }
    {
        HullBuilder {
            hull: Vec::new(alloc),
            waiting: Vec::new(alloc),
            inner: None,
            misses: 0,
        }
    }

    /// The positions of a hull. It takes no memory.
    pub fn from_hull(hull: Path) -> Self
        requires own { IsHull hull hull }
        requires in_range { All IsInRange hull }
        ensures { result ≡ record { hull = hull; waiting = [] } }
    {
        let hull = hull.into_vec();
        let waiting = Vec::new(*hull.allocator());
        HullBuilder {
            hull,
            waiting,
            inner: None,
            misses: 0,
        }
    }

    /// Adds the positions. Coordinates are at most 3 * 10^14 units in size. At `Err`, which is want of memory, the
    /// first of them are there, up to some place.
    ///
    /// They are added some at a time, so that few of them wait at once however many there are.
    pub fn add(&mut self, points: &[Pos]) -> Result<(), Memory>
        requires { All IsInRange points.now }
        ensures held { OnOk result (HaveOneHull (held self.old ++ points.now) (held self.new)) }
        ensures few { OnOk result (length self.new.waiting < max 32 (length self.new.hull)) }
        ensures err { OnErr result (HoldsFront self.old points.now self.new) }
    {
        let mut at = 0;
        'stretches: while points.len() - at > STRETCH {
            self.add_stretch(&points[at..at + STRETCH])?;
            at += STRETCH;
        }
        self.add_stretch(&points[at..])
    }

    /// The same of positions that may wait all at once.
    fn add_stretch(&mut self, points: &[Pos]) -> Result<(), Memory>
        requires { All IsInRange points.now }
        ensures held { OnOk result (HaveOneHull (held self.old ++ points.now) (held self.new)) }
        ensures few { OnOk result (length self.new.waiting < max 32 (length self.new.hull)) }
        ensures err { OnErr result (HoldsFront self.old points.now self.new) }
    {
        push_outside(self.hull.as_slice(), points, &mut self.waiting)?;
        if self.waiting.len() < FEW || self.waiting.len() < self.hull.len() {
            return Ok(());
        }
        let alloc = *self.hull.allocator();
        self.hull = hull_of_both(alloc, self.hull.as_slice(), self.waiting.as_slice())?;
        self.waiting.clear();
        self.misses = 0;
        Ok(())
    }

    /// Whether positions in the extent are seen to add nothing. It takes no memory, and changes nothing that is held.
    ///
    /// An extent that lies in the greatest one that was covered so far takes four comparisons, and another one four
    /// searches by halves. Coordinates are at most 3 * 10^14 units in size.
    pub fn covers(&mut self, extent: Extent) -> bool
        requires { IsExtentInRange extent }
        ensures covered { IsTrue result → AddsNothing (held self.old) extent }
        ensures same { self.new ≡ self.old }
    {
        if lies_in(extent, self.inner) {
            return true;
        }
        if !corners_lie_in(extent, self.hull.as_slice()) {
            return false;
        }
        self.widen(extent);
        true
    }

    /// Makes the inner extent the least one round it and the other, where that is seen to add nothing. It tries
    /// only at misses that are powers of two, so it seldom tries in vain.
    fn widen(&mut self, extent: Extent)
        requires { IsExtentInRange extent }
        ensures { self.new ≡ self.old }
    {
        self.misses = self.misses.wrapping_add(1);
        if !self.misses.is_power_of_two() {
            return;
        }
        let wider = around(self.inner, extent);
        if corners_lie_in(wider, self.hull.as_slice()) {
            self.inner = Some(wider);
            self.misses = 0;
        }
    }

    /// Adds what the other holds. At `Err`, which is want of memory, the first of that is there, up to some place.
    pub fn join(&mut self, other: HullBuilder) -> Result<(), Memory>
        ensures held { OnOk result (HaveOneHull (held self.old ++ held other) (held self.new)) }
        ensures few { OnOk result (length self.new.waiting < max 32 (length self.new.hull)) }
        ensures err { OnErr result (HoldsFront self.old (held other) self.new) }
    {
        self.add(other.hull.as_slice())?;
        self.add(other.waiting.as_slice())
    }

    /// An equal builder.
    pub fn copy(&self, alloc: Global) -> Result<HullBuilder, Memory>
        ensures { IfOk result (λ copy. copy ≡ self.now) }
    {
        Ok(HullBuilder {
            hull: copied(alloc, self.hull.as_slice())?,
            waiting: copied(alloc, self.waiting.as_slice())?,
            inner: self.inner,
            misses: self.misses,
        })
    }

    /// The hull of what is held. Where nothing waits it takes no memory. `Err` is want of memory.
    pub fn into_hull(self) -> Result<Path, Memory>
        ensures hull { IfOk result (λ h. IsHull (held self) h) }
        ensures own { IfOk result (λ h. IsHull h h) }
        ensures in_range { IfOk result (λ h. All IsInRange h) }
        ensures settled { self.waiting ≡ [] → IsOk result }
    {
        if self.waiting.is_empty() {
            return Ok(Path::from_vec(self.hull));
        }
        let alloc = *self.hull.allocator();
        let both = hull_of_both(alloc, self.hull.as_slice(), self.waiting.as_slice())?;
        Ok(Path::from_vec(both))
    }
}

/// The same positions in memory of their own.
fn copied(alloc: Global, positions: &[Pos]) -> Result<Vec<Pos>, Memory>
    ensures { IfOk result (λ copy. copy.items ≡ positions.now) }
{
    let mut items = Vec::with_capacity(alloc, positions.len())?;
    items.extend_from_slice(positions)?;
    Ok(items)
}

/// Puts those of the points that aren't seen to lie within the hull behind the ones that wait.
fn push_outside(hull: &[Pos], points: &[Pos], waiting: &mut Vec<Pos>) -> Result<(), Memory>
    requires own { IsHull hull.now hull.now }
    requires hull_in_range { All IsInRange hull.now }
    requires points_in_range { All IsInRange points.now }
    requires waiting_in_range { All IsInRange waiting.old.items }
    ensures held { OnOk result (HaveOneHull ((hull.now ++ waiting.old.items) ++ points.now)
        (hull.now ++ waiting.new.items)) }
    ensures err { OnErr result (HoldsFront (record { hull = hull.now; waiting = waiting.old.items }) points.now
        (record { hull = hull.now; waiting = waiting.new.items })) }
    ensures in_range { All IsInRange waiting.new.items }
{
    for p in points {
        if is_within(hull, *p) {
            continue;
        }
        waiting.push(*p)?;
    }
    Ok(())
}
