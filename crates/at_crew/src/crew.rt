//! The blocks of a job, shared out among passes and merged up a tree without a lock.

ghost use Rattle.std.specs.Prelude.{◌≡◌, ℕ, ◌+◌, ◌<◌, ◌≤◌, [], ◌++◌, All, IfSome, IfNone, IfOk, IsSomeAnd};
ghost use Rattle.std.specs.Prelude.{Some, None, is_none, option_to_list, true, false, replicate, slice_index_or};
ghost use Rattle.std.specs.Mem.Slots.{slots_filled, slots_len};
ghost use Rattle.std.specs.Mem.Slots.Ownership.{Filled};
ghost use Rattle.at_crew.specs.Nodes.{IsBlockCount};

use crate::chief::Chief;
use crate::gate::Gate;
use crate::job::Job;
use crate::pass::Pass;
use crate::steps::{Claim, CrewSeat, CrewTable};
use at_text::Memory;
use atomic_table::Table;
use std::alloc::Global;
use std::snapshot::Snapshot;

/// The blocks of a job, which passes claim, and the tree by which their parts are merged.
///
/// It is shared by reference among the threads, each of which has a pass.
#[derive(Drop)]
pub struct Crew<J: Job> {
    pub(crate) table: CrewTable<J>,
    pub(crate) blocks: u32,
    ghost sized: { (table.shared.table_id.slots ≡ blocks) × (table.shared.table_id.words ≡ blocks + 1)
        × (0 < blocks) × (blocks ≤ 4096) },
    ghost power: { IsBlockCount blocks },
}

/// What a crew leaves: the part of all blocks, and as contracts see it the lists of all passes.
#[derive(Drop)]
pub struct Closed<J: Job> {
    /// The part that stands for all blocks.
    pub whole: J::Part,
    pub(crate) lists: Snapshot<CrewSeat<J>>,
}

impl<J: Job> Crew<J> {
    ghost use Rattle.at_crew.specs.Views.{times};
    ghost use Rattle.at_crew.specs.Rule.{OneWhere};
    ghost use Rattle.at_crew.specs.Shown.{IsChiefOf, IsPassOf, job_of, blocks_of, passes_allowed, passes_made};
    ghost use Rattle.at_crew.specs.Shown.{passes_away, blocks_gathered, nodes_gathered, pass_number, block_held};
    ghost use Rattle.at_crew.specs.Shown.{last_number, has_ended, blocks_claimed, nodes_merged, all_claimed};
    ghost use Rattle.at_crew.specs.Shown.{all_merged};

    /// A crew for the job, and its chief, who can make so many passes.
    ///
    /// The blocks are a power of two up to 4,096, and as many as the job has; the passes are 1 to 64. All memory that
    /// the crew itself wants is taken here: none of its other calls has a refusal.
    pub fn new(
        alloc: Global,
        job: &J,
        blocks: u32,
        passes: u32,
    ) -> Result<(Crew<J>, Chief<J>), Memory>
        requires size { IsBlockCount blocks }
        requires count { blocks ≡ J.count (J.facts job.now) }
        requires passes { (0 < passes) × (passes ≤ 64) }
        ensures one_crew { IfOk result (λ r. IsChiefOf r.0 r.1) }
        ensures facts { IfOk result (λ r. J.facts (job_of r.0) ≡ J.facts job.now) }
        ensures size { IfOk result (λ r. blocks_of r.0 ≡ blocks) }
        ensures allowed { IfOk result (λ r. passes_allowed r.1 ≡ passes) }
        ensures none_made { IfOk result (λ r. (passes_made r.1 ≡ 0) × (passes_away r.1 ≡ 0)) }
        ensures lists { IfOk result (λ r. (blocks_gathered r.1 ≡ []) × (nodes_gathered r.1 ≡ [])) }
    {
        let words = zeros(blocks as usize + 1);
        let Ok((table, seat)) = Table::vacant(alloc, words, blocks as usize, job) else {
            return Err(Memory);
        };
        let chief = Chief {
            seat,
            passes,
            made: 0,
            away: 0,
        };
        Ok((Crew { table, blocks }, chief))
    }

    /// Fetches the next number, by one `fetch_add`. It is greater than every number that the pass fetched before.
    ///
    /// Some(n) exactly where the number n is below the blocks: the pass then holds block n. None exactly where it is at
    /// or past them: the pass is then over.
    pub fn claim(&self, pass: &mut Pass<J>) -> Option<u32>
        requires one_crew { IsPassOf self.now pass.old }
        requires free { block_held pass.old ≡ None }
        requires goes_on { has_ended pass.old ≡ false }
        ensures some { IfSome result (λ n. (n < blocks_of self.now) × (last_number pass.new ≡ Some n)) }
        ensures none { IfNone result (IsSomeAnd (last_number pass.new) (λ n. blocks_of self.now ≤ n)) }
        ensures holds { block_held pass.new ≡ result }
        ensures over { has_ended pass.new ≡ is_none result }
        ensures claimed { blocks_claimed pass.new ≡ blocks_claimed pass.old ++ option_to_list result }

        // the number fetched is greater than each that the pass fetched before
        ensures rises { IsSomeAnd (last_number pass.new) (λ n. All (λ m. m < n) (blocks_claimed pass.old)) }
        ensures rises_from_last { (m n : ℕ) → last_number pass.old ≡ Some m → last_number pass.new ≡ Some n → m < n }

        ensures one_crew { IsPassOf self.now pass.new }
        ensures number { pass_number pass.new ≡ pass_number pass.old }
        ensures merged { nodes_merged pass.new ≡ nodes_merged pass.old }

        // a block of the crew is one of the job's
        ensures count { J.count (J.facts (job_of self.now)) ≡ blocks_of self.now }
    {
        let found = self
            .table
            .shared
            .fetch_add::<Claim<J>>(&mut pass.seat, 0, 1) as u32;
        pass.last = Some(found);
        if found < self.blocks {
            pass.holding = Some(found);
            Some(found)
        } else {
            pass.over = true;
            None
        }
    }

    /// Claims blocks until none is left; the pass is then over. In the code it enters the gate with each block, runs
    /// it once and settles its part. No clause says so: that what is settled stands for its block is what `settle` asks
    /// for, and that all blocks are there in the end is what `close` says.
    ///
    /// It takes no memory but what the job's `run` and `merge` take.
    pub fn work<G: Gate>(&self, alloc: Global, job: &J, pass: &mut Pass<J>, gate: &G)
        requires one_crew { IsPassOf self.now pass.old }
        requires facts { J.facts job.now ≡ J.facts (job_of self.now) }
        requires free { block_held pass.old ≡ None }
        requires goes_on { has_ended pass.old ≡ false }
        ensures over { has_ended pass.new ≡ true }
        ensures last { IsSomeAnd (last_number pass.new) (λ n. blocks_of self.now ≤ n) }
        ensures rests { block_held pass.new ≡ None }
        ensures number { pass_number pass.new ≡ pass_number pass.old }
        ensures one_crew { IsPassOf self.now pass.new }
    {
        while let Some(block) = self.claim(pass) {
            gate.enter(block);
            let part = job.run(alloc, block);
            self.settle(alloc, job, pass, part);
        }
    }

    /// The part of all blocks, once every pass is back, of at least one that was made.
    pub fn close(self, chief: Chief<J>) -> Closed<J>
        requires one_crew { IsChiefOf self chief }
        requires home { passes_away chief ≡ 0 }
        requires some { 0 < passes_made chief }
        ensures whole { J.stands (J.facts (job_of self)) result.whole 0 (blocks_of self) }

        // each block stands once in the claimed lists, each inner node once in the merged ones
        ensures claimed { (x : ℕ) → OneWhere (x < blocks_of self) (times x (all_claimed result)) }
        ensures merged { (x : ℕ) → OneWhere ((0 < x) × (x < blocks_of self)) (times x (all_merged result)) }
        ensures all_blocks { all_claimed result ≡ blocks_gathered chief }
        ensures all_nodes { all_merged result ≡ nodes_gathered chief }
    {
        let Crew { table, blocks: _ } = self;
        let Chief { seat, .. } = chief;
        let lists = Snapshot::of(&seat);
        let mut closed = table.close_with(seat);
        let Some(whole) = closed.take(0) else {
            unreachable!()
        };
        discard_rest(closed);
        Closed { whole, lists }
    }
}

// Drops what lies in the slots past the first.
fn discard_rest<S: Drop>(mut closed: atomic_table::Closed<S, Global>)
    requires rest { Filled (slots_filled closed.slots) 1 (slots_len closed.slots) }
    requires first { slice_index_or (slots_filled closed.slots) 0 false ≡ false }
{
    let mut i = 1;
    while i < closed.slot_count() {
        drop(closed.take(i));
        i += 1;
    }
    closed.free();
}

// So many zeros, at most one more than the blocks that a crew can have.
fn zeros(count: usize) -> &'static [u64]
    requires { count ≤ 4097 }
    ensures { result.now ≡ replicate count 0 }
{
    const MOST: [u64; 4097] = [0; 4097];
    &MOST[..count]
}
