//! The pairs of two lists by the cells of a grid, which a crew shares out.

ghost use Rattle.std.specs.Prelude.{◌≡◌, ℕ, ◌<◌, ◌≤◌, ◌*◌, ◌+◌, IfOk, All, Contains};
ghost use Rattle.at_query.specs.declared.answer.answers.Pair.{Pair};
ghost use Rattle.std.specs.List.Sorted.{IsPermutation, IsNonDecreasingBy};
ghost use Rattle.at_query.specs.Parts.{AreProper};
ghost use Rattle.at_join.specs.Meetings.{IsAllPairs};
ghost use Rattle.at_join.specs.Parts.{rank_of};

use crate::grid::Grid;
use crate::job::{GridJob, PairPart};
use at_crew::{Gate, run_crew};
use at_query::{Entries, Pair, Pairs};
use at_text::Memory;
use std::alloc::Global;
use std::thread::Threads;

/// The pairs that `pairs_plain` gives, by the cells of a grid, which so many workers share out.
///
/// Where the gate gives up one of the 64 cells, the answer is Memory. No clause says which worker searches which cell,
/// or that it enters the gate.
pub fn pairs_grid<G: Gate, R: Threads + Sync>(
    rt: &R,
    alloc: Global,
    a: Entries,
    b: Entries,
    workers: u32,
    gate: &G,
) -> Result<Pairs, Memory>
    requires workers { (0 < workers) × (workers ≤ 64) }
    requires first { AreProper a }
    requires second { AreProper b }
    ensures pairs { IfOk result (IsAllPairs a b) }
    ensures gate { IfOk result (λ _. (cell : ℕ) → cell < 64 → Contains (G.given_up gate.now) cell → ⊥) }
{
    let job = GridJob::new(Grid::new(alloc, a, b)?, gate);
    match run_crew(rt, alloc, &job, 64, workers, gate)? {
        PairPart::Pairs(pairs) => Ok(in_order(pairs)),
        PairPart::Lost => Err(Memory),
    }
}

/// The pairs in order of their first offsets, then the second.
fn in_order(pairs: Pairs) -> Pairs
    ensures same { IsPermutation pairs result }
    ensures fits { All (λ (p : Pair). p.second < 4294967296) result }
    ensures sorted { IsNonDecreasingBy rank_of result }
{
    let mut items = pairs.into_vec();
    items.sort_unstable_by_key(
        |pair: &Pair|
            ensures { result ≡ rank_of pair.now }
        { pair.first as u64 * 4_294_967_296 + pair.second as u64 },
    );
    all_fit(items.as_slice());
    Pairs::from_vec(items)
}

/// The second offsets are numbers of 32 bits. It changes nothing.
fn all_fit(pairs: &[Pair])
    ensures { All (λ (p : Pair). p.second < 4294967296) pairs.now }
{
    for pair in pairs {
        fits(pair.second);
    }
}

fn fits(second: u32)
    ensures { second < 4294967296 }
{
    let _second = second;
}
