//! The cells of a grid as a job for a crew.

ghost use Rattle.std.specs.Prelude.{◌≡◌, ◌+◌, ◌<◌, List, ◌++◌, IfOk};
ghost use Rattle.at_query.specs.declared.answer.answers.Pair.{Pair};
ghost use Rattle.at_join.specs.Cells.{InCells, ListsEach};
ghost use Rattle.at_join.specs.Parts.{StandsFor, grid_of, gate_of};

use crate::grid::Grid;
use crate::steps::Steps;
use at_crew::{Gate, Job};
use at_query::{Entries, Pairs};
use at_text::Memory;
use std::alloc::Global;
use std::collections::LinkedList;
use std::marker::Brand;
use std::sync::ledger::{Blank, Ledger};

/// What the meaning of a part rests on: the two lists, and the cells that are given up. No value is made when a program
/// runs.
pub struct Joining {
    pub first: Entries,
    pub second: Entries,
    pub given_up: LinkedList<u64>,
}

/// The pairs of some cells, or the lost part, which is want of memory.
#[derive(Drop)]
pub enum PairPart {
    Pairs(Pairs),
    Lost,
}

/// A job of 64 blocks, each of them a cell of the grid.
#[derive(Drop)]
pub struct GridJob<'g, G: Gate> {
    grid: Grid,
    gate: &'g G,
}

impl<'g, G: Gate> GridJob<'g, G> {
    /// The job of a grid, which asks the gate for the cells that are given up.
    pub fn new(grid: Grid, gate: &'g G) -> GridJob<'g, G>
        ensures { (grid_of result ≡ grid) × (gate_of result ≡ gate.now) }
    {
        GridJob { grid, gate }
    }
}

impl<'g, G: Gate> Job for GridJob<'g, G> {
    type Part = PairPart;

    type Facts = Joining;

    ghost facts = { λ j. record { first = j.grid.first; second = j.grid.second; given_up = G.given_up j.gate.now } };

    ghost count = { λ _. 64 };

    ghost stands = { StandsFor };

    fn run(&self, alloc: Global, block: u32) -> PairPart {
        if self.gate.gives_up(block) {
            return PairPart::Lost;
        }
        self.grid.are_proper();
        match pairs_of_cell(&self.grid, alloc, block) {
            Ok(pairs) => PairPart::Pairs(pairs),
            Err(Memory) => PairPart::Lost,
        }
    }

    fn merge(&self, _alloc: Global, left: PairPart, right: PairPart) -> PairPart {
        match (left, right) {
            (PairPart::Pairs(a), PairPart::Pairs(b)) => both(a, b),
            _ => PairPart::Lost,
        }
    }
}

/// The pairs of both lists; the left one's memory serves on.
fn both(left: Pairs, right: Pairs) -> PairPart
    ensures { (pairs : List Pair) → result ≡ PairPart.Pairs pairs → pairs ≡ left ++ right }
{
    let mut items = left.into_vec();
    let mut others = right.into_vec();
    match items.append(&mut others) {
        Ok(()) => PairPart::Pairs(Pairs::from_vec(items)),
        Err(_) => PairPart::Lost,
    }
}

/// The pairs of a cell, with a counter of its own.
pub(crate) fn pairs_of_cell(grid: &Grid, alloc: Global, cell: u32) -> Result<Pairs, Memory>
    requires { cell < 64 }
    ensures { IfOk result (ListsEach (InCells grid.now.first grid.now.second cell (cell + 1))) }
{
    counted::<Brand>(grid, alloc, cell, Blank::new(1))
}

fn counted<L: Ledger>(grid: &Grid, alloc: Global, cell: u32, blank: Blank) -> Result<Pairs, Memory>
    requires name { blank.name ≡ L.name }
    requires parts { blank.parts ≡ L.parts }
    requires some { 0 < blank.parts }
    requires cell { cell < 64 }
    ensures { IfOk result (ListsEach (InCells grid.now.first grid.now.second cell (cell + 1))) }
{
    let mut steps = Steps::<L>::new(blank);
    grid.cell_pairs(alloc, cell, &mut steps)
}
