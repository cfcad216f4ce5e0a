//! Two lists of entries, made ready to be joined cell by cell, and the pairs of one cell.

ghost use Rattle.std.specs.Prelude.{◌≡◌, ◌+◌, ◌<◌, ◌≤◌, IfOk, count_by};
ghost use Rattle.at_query.specs.Parts.{AreProper};
ghost use Rattle.at_query.specs.Results.{pairs_of};
ghost use Rattle.at_query.specs.Joined.{around_both};
ghost use Rattle.at_join.specs.Sides.{spread_onto};
ghost use Rattle.at_join.specs.Cells.{belongs, InCells, ListsEach};

use crate::cells::cell_rect;
use crate::finding::Search;
use crate::sides::Side;
use crate::steps::Steps;
use at_geom::{Extent, Pos};
use at_query::{Entries, Entry, Pairs, joined_extent};
use at_text::Memory;
use std::alloc::Global;
use std::marker::Model;
use std::sync::ledger::Ledger;

/// Two lists of entries, made ready to be joined cell by cell: 8 by 8 cells over the extent round all shapes.
#[derive(Drop)]
pub struct Grid {
    a: Side,
    b: Side,
    joint: Option<Extent>,
}

impl Model for Grid {
    ghost use Rattle.at_join.specs.Cells.{Lists};
    ghost use Rattle.at_join.specs.Sides.{IsGrid};

    ghost Value = { Lists };

    ghost view = { λ g. record { first = g.a.entries; second = g.b.entries } };

    ghost invariant = { λ g. IsGrid g.a g.b g.joint };
}

impl Grid {
    /// The grid of two lists.
    pub fn new(alloc: Global, a: Entries, b: Entries) -> Result<Grid, Memory>
        requires first { AreProper a }
        requires second { AreProper b }
        ensures { IfOk result (λ grid. grid ≡ record { first = a; second = b }) }
    {
        let joint = spread(spread(None, b.as_slice()), a.as_slice());
        let low = low_of(joint);
        let a = Side::new(alloc, a, low)?;
        let b = Side::new(alloc, b, low)?;
        Ok(Grid { a, b, joint })
    }

    /// Both lists are proper. It has no code.
    pub(crate) fn are_proper(&self)
        ensures { AreProper self.now.first × AreProper self.now.second }
    {
        let _joint = self.joint;
    }

    /// The pairs of which the shapes meet and that belong to the cell, in no order. So many steps are taken at most as
    /// pairs belong to the cell. In the code one is taken before each exact test of two shapes; no clause says so.
    pub fn cell_pairs<L: Ledger>(
        &self,
        alloc: Global,
        cell: u32,
        steps: &mut Steps<L>,
    ) -> Result<Pairs, Memory>
        requires { cell < 64 }
        ensures pairs { IfOk result (ListsEach (InCells self.now.first self.now.second cell (cell + 1))) }
        ensures steps { steps.new ≤ steps.old + count_by (belongs self.now.first self.now.second cell)
            (pairs_of self.now.first self.now.second) }
    {
        let mut pairs = Vec::new(alloc);
        let Some(joint) = self.joint else {
            return Ok(Pairs::from_vec(pairs));
        };
        let search = Search {
            first: &self.a,
            second: &self.b,
            rect: cell_rect(joint, cell),
        };
        search.push_cell(alloc, steps, &mut pairs)?;
        Ok(Pairs::from_vec(pairs))
    }
}

/// The least extent round one and the extents of entries, where there are any.
fn spread(start: Option<Extent>, entries: &[Entry]) -> Option<Extent>
    ensures { result ≡ spread_onto start entries.now }
{
    let mut joint = start;
    let mut left = entries.len();
    while left > 0 {
        left -= 1;
        joint = wider(entries[left].extent, joint);
    }
    joint
}

/// The lower left corner, where there is an extent.
fn low_of(joint: Option<Extent>) -> Pos {
    match joint {
        Some(extent) => extent.low,
        None => Pos { x: 0, y: 0 },
    }
}

fn wider(one: Option<Extent>, other: Option<Extent>) -> Option<Extent>
    ensures { result ≡ around_both one other }
{
    match (one, other) {
        (Some(x), Some(y)) => Some(joined_extent(x, y)),
        (None, _) => other,
        (_, None) => one,
    }
}
