//! One list of a join, sorted, with extents round stretches of it.

ghost use Rattle.std.specs.Prelude.{◌≡◌, ℕ, ◌+◌, ◌*◌, ◌/◌, ◌<◌, ◌≤◌, IfOk, false, true, length, slice_index_or};
ghost use Rattle.std.specs.List.{AllByRecursion};
ghost use Rattle.at_geom.specs.Shapes.{encloses};
ghost use Rattle.at_query.specs.Parts.{IsProperEntry};
ghost use Rattle.at_join.specs.declared.outlines.Outline.{Outline};
ghost use Rattle.at_join.specs.Boxes.{touch_of};
ghost use Rattle.at_join.specs.Sides.{IsSide, IsAt, IsOutlineOf};

use crate::covers::{covers_of, is_clear};
use crate::keys::key_of;
use crate::outlines::{Outline, outlines_of};
use at_geom::{Extent, Pos};
use at_query::{Entries, Entry};
use at_text::Memory;
use std::alloc::Global;

/// A list of entries, the outlines of those that have an extent, in an order in which near ones mostly are neighbours,
/// and the extents round each 16, 256 and 4,096 of these.
#[derive(Drop)]
pub(crate) struct Side {
    pub(crate) entries: Entries,
    pub(crate) outlines: Vec<Outline>,
    runs: Vec<Extent>,
    blocks: Vec<Extent>,
    fields: Vec<Extent>,
}

impl Side {
    /// The side of a list of entries, whose order begins at a position.
    pub(crate) fn new(alloc: Global, entries: Entries, low: Pos) -> Result<Side, Memory>
        requires { AllByRecursion IsProperEntry entries }
        ensures side { IfOk result IsSide }
        ensures entries { IfOk result (λ side. side.entries ≡ entries) }
    {
        let mut outlines = outlines_of(alloc, entries.as_slice())?;
        outlines.sort_by_cached_key(|outline: &Outline| key_of(low, outline.extent.low))?;
        let runs = covers_of(alloc, outlines.as_slice(), 16)?;
        let blocks = covers_of(alloc, outlines.as_slice(), 256)?;
        let fields = covers_of(alloc, outlines.as_slice(), 4096)?;
        Ok(Side {
            entries,
            outlines,
            runs,
            blocks,
            fields,
        })
    }

    /// An outline at or behind this one; those before it, from this one on, have no common point with the window.
    pub(crate) fn ahead(&self, at: usize, window: Extent) -> usize
        requires side { IsSide self.now }
        requires at { at < length self.now.outlines.items }
        ensures ahead { at ≤ result }
        ensures clear { (k : ℕ) (e : Outline) → at ≤ k → k < result → k < length self.now.outlines.items
            → touch_of (slice_index_or self.now.outlines.items k e).extent window ≡ false }
    {
        if at % 16 != 0 {
            return at;
        }
        if is_clear(self.fields.as_slice(), 4096, at, window) {
            return at + 4096;
        }
        if is_clear(self.blocks.as_slice(), 256, at, window) {
            return at + 256;
        }
        if is_clear(self.runs.as_slice(), 16, at, window) {
            return at + 16;
        }
        at
    }

    /// The entry of an outline.
    pub(crate) fn entry(&self, outline: Outline) -> &Entry
        requires { IsOutlineOf self.now.entries outline }
        ensures { IsAt self.now.entries outline.index result.now }
    {
        &self.entries.as_slice()[outline.index as usize]
    }

    /// Where the stretch of 16 outlines ends in which this one stands, or that of this one alone.
    pub(crate) fn stretch_end(&self, at: usize, alone: bool) -> usize
        requires { at < length self.now.outlines.items }
        ensures end { (at < result) × (result ≤ length self.now.outlines.items) }
        ensures stretch { result ≤ at / 16 * 16 + 16 }
    {
        if alone {
            return at + 1;
        }
        self.outlines.len().min(at / 16 * 16 + 16)
    }

    /// An extent round some outlines of one stretch.
    pub(crate) fn round(&self, from: usize, to: usize) -> Extent
        requires side { IsSide self.now }
        requires some { (from < to) × (to ≤ length self.now.outlines.items) }
        requires stretch { to ≤ from / 16 * 16 + 16 }
        ensures { (k : ℕ) (e : Outline) → from ≤ k → k < to
            → encloses result (slice_index_or self.now.outlines.items k e).extent ≡ true }
    {
        if to == from + 1 {
            return self.outlines[from].extent;
        }
        self.runs[from / 16]
    }
}
