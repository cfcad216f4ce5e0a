//! The pairs of one cell, as the sides of a grid give them.
ghost use Rattle.std.specs.Prelude.{◌+◌, ◌≤◌, OnOk, All, count_by, cond, [], ◌∷◌};
ghost use Rattle.at_query.specs.Results.{pairs_of};
ghost use Rattle.at_join.specs.Meetings.{AreInRange, Finds};
ghost use Rattle.at_join.specs.Sides.{IsSide, IsOutlineOf, CellHit, at_outlines, is_row_here, is_cell_here};

use crate::boxes::common;
use crate::cells::is_here;
use crate::near::push_near;
use crate::outlines::Outline;
use crate::sides::Side;
use crate::steps::Steps;
use at_geom::{Extent, shapes_meet};
use at_query::Pair;
use at_text::Memory;
use std::alloc::Global;
use std::sync::ledger::Ledger;

/// Where the pairs of a cell are looked for: the sides of the grid, and the positions of the cell.
#[derive(Clone, Copy)]
pub(crate) struct Search<'a> {
    pub(crate) first: &'a Side,
    pub(crate) second: &'a Side,
    pub(crate) rect: Extent,
}

impl<'a> Search<'a> {
    /// Puts all pairs of the cell of which the shapes meet behind the list. Before each exact test it takes a step. It
    /// goes over the second side once for each 16 outlines of the first, which mostly lie close together, or where the
    /// second is far longer once for each outline, since most of what is near 16 together is then far from each.
    pub(crate) fn push_cell<L: Ledger>(
        &self,
        alloc: Global,
        steps: &mut Steps<L>,
        pairs: &mut Vec<Pair>,
    ) -> Result<(), Memory>
        requires sides { IsSide self.now.first.now × IsSide self.now.second.now }
        requires in_range { AreInRange self.now.first.now.entries × AreInRange self.now.second.now.entries }
        ensures pairs { OnOk result (Finds (CellHit self.now.rect self.now.first.now self.now.second.now) at_outlines
            (pairs_of self.now.first.now.outlines.items self.now.second.now.outlines.items)
            pairs.old.items pairs.new.items) }
        ensures steps { steps.new ≤ steps.old + count_by (is_cell_here self.now.rect)
            (pairs_of self.now.first.now.outlines.items self.now.second.now.outlines.items) }
    {
        let outlines = self.first.outlines.as_slice();
        let alone = is_far_longer(self.second, self.first);
        let mut near = Vec::new(alloc);
        let mut from = 0;
        while from < outlines.len() {
            let next = self.first.ahead(from, self.rect);
            if next > from {
                from = next;
            } else {
                let to = self.first.stretch_end(from, alone);
                near.clear();
                push_near(
                    self.second,
                    common(self.first.round(from, to), self.rect),
                    &mut near,
                )?;
                self.push_stretch(&outlines[from..to], near.as_slice(), steps, pairs)?;
                from = to;
            }
        }
        Ok(())
    }

    /// Puts the pairs of the cell that some outlines have with others behind the list.
    fn push_stretch<L: Ledger>(
        &self,
        stretch: &[Outline],
        near: &[Outline],
        steps: &mut Steps<L>,
        pairs: &mut Vec<Pair>,
    ) -> Result<(), Memory>
        requires stretch { All (IsOutlineOf self.now.first.now.entries) stretch.now }
        requires near { All (IsOutlineOf self.now.second.now.entries) near.now }
        requires in_range { AreInRange self.now.first.now.entries × AreInRange self.now.second.now.entries }
        ensures pairs { OnOk result (Finds (CellHit self.now.rect self.now.first.now self.now.second.now) at_outlines
            (pairs_of stretch.now near.now) pairs.old.items pairs.new.items) }
        ensures steps { steps.new ≤ steps.old + count_by (is_cell_here self.now.rect) (pairs_of stretch.now near.now) }
    {
        for outline in stretch {
            self.push_row(*outline, near, steps, pairs)?;
        }
        Ok(())
    }

    /// Puts the pairs of the cell that an outline has with others behind the list.
    fn push_row<L: Ledger>(
        &self,
        outline: Outline,
        near: &[Outline],
        steps: &mut Steps<L>,
        pairs: &mut Vec<Pair>,
    ) -> Result<(), Memory>
        requires outline { IsOutlineOf self.now.first.now.entries outline }
        requires near { All (IsOutlineOf self.now.second.now.entries) near.now }
        requires in_range { AreInRange self.now.first.now.entries × AreInRange self.now.second.now.entries }
        ensures pairs { OnOk result (Finds (CellHit self.now.rect self.now.first.now self.now.second.now) at_outlines
            (pairs_of (outline ∷ []) near.now) pairs.old.items pairs.new.items) }
        ensures steps { steps.new ≤ steps.old + count_by (is_row_here self.now.rect outline) near.now }
    {
        for other in near {
            self.push_pair(outline, *other, steps, pairs)?;
        }
        Ok(())
    }

    /// Puts a pair behind the list, where it is one of the cell and the shapes meet.
    fn push_pair<L: Ledger>(
        &self,
        outline: Outline,
        other: Outline,
        steps: &mut Steps<L>,
        pairs: &mut Vec<Pair>,
    ) -> Result<(), Memory>
        requires outline { IsOutlineOf self.now.first.now.entries outline }
        requires other { IsOutlineOf self.now.second.now.entries other }
        requires in_range { AreInRange self.now.first.now.entries × AreInRange self.now.second.now.entries }
        ensures pairs { OnOk result (Finds (CellHit self.now.rect self.now.first.now self.now.second.now) at_outlines
            ((outline, other) ∷ []) pairs.old.items pairs.new.items) }
        ensures steps { steps.new ≤ steps.old + cond (is_row_here self.now.rect outline other) 1 0 }
    {
        if !is_here(self.rect, outline.extent, other.extent) {
            return Ok(());
        }
        let first = self.first.entry(outline);
        let second = self.second.entry(other);
        steps.tick();
        if shapes_meet(&first.shape, &second.shape) {
            pairs.push(Pair {
                first: outline.at,
                second: other.at,
            })?;
        }
        Ok(())
    }
}

/// Whether a side has more than 16 times as many outlines as another.
fn is_far_longer(long: &Side, short: &Side) -> bool {
    long.outlines.len() / 16 > short.outlines.len()
}
