//! How a part is settled: it goes up the tree for as long as the neighbour's part is there.
ghost use Rattle.std.specs.Prelude.{◌≡◌, ℕ, ◌+◌, ◌*◌, ◌/◌, ◌%◌, ◌<◌, ◌≤◌, [], ◌∷◌, ◌++◌, IsSomeAnd, Some, None};
ghost use Rattle.std.specs.Prelude.{IsTrue, IsFalse, ◌==◌};
ghost use Rattle.at_crew.specs.Nodes.{IsNode, first_of, end_of, ancestors};
ghost use Rattle.at_crew.specs.Seats.{Bears, children, HasChildren};
ghost use Rattle.at_crew.specs.Shown.{IsPassOf, job_of, blocks_of, pass_number, block_held, last_number, has_ended};
ghost use Rattle.at_crew.specs.Shown.{blocks_claimed, nodes_merged};
ghost use Rattle.at_crew.specs.Steps.{carried};
ghost use Rattle.at_crew.specs.Views.{rests, climbs_to, adds, held_node};

use crate::crew::Crew;
use crate::job::Job;
use crate::pass::Pass;
use crate::steps::{CrewSeat, Deposit, RootHome};
use std::alloc::Global;

/// What merges two parts: the job, and where it takes its memory.
#[derive(Drop)]
struct Merger<'a, J: Job> {
    alloc: Global,
    job: &'a J,
}

impl<J: Job> Crew<J> {
    /// Settles the part of the block that the pass holds, and answers at how many nodes it merged two parts.
    ///
    /// The part climbs the tree: at each node one `fetch_or` of its bit says whether the neighbour's bit stood there
    /// before. If so, the pass takes the neighbour's part, merges the two and goes on with the node; if not, it leaves
    /// its part there. The nodes at which it merged join the pass's list, at most 12. The pass then holds no block.
    ///
    /// It takes no memory but what the job's `merge` takes.
    pub fn settle(&self, alloc: Global, job: &J, pass: &mut Pass<J>, part: J::Part) -> u32
        requires one_crew { IsPassOf self.now pass.old }
        requires facts { J.facts job.now ≡ J.facts (job_of self.now) }
        requires stands { IsSomeAnd (block_held pass.old) (λ n. J.stands (J.facts job.now) part n (n + 1)) }
        ensures rests { block_held pass.new ≡ None }

        // it merged at the nodes right above the block's leaf, as many as it says
        ensures merged { IsSomeAnd (block_held pass.old) (λ n.
            nodes_merged pass.new ≡ nodes_merged pass.old ++ ancestors (blocks_of self.now + n) result) }
        ensures few { result ≤ 12 }

        ensures one_crew { IsPassOf self.now pass.new }
        ensures number { pass_number pass.new ≡ pass_number pass.old }
        ensures last { last_number pass.new ≡ last_number pass.old }
        ensures over { has_ended pass.new ≡ has_ended pass.old }
        ensures claimed { blocks_claimed pass.new ≡ blocks_claimed pass.old }
    {
        let Some(block) = pass.holding else {
            unreachable!()
        };
        self.table
            .shared
            .exchange(&mut pass.seat, block as usize, Some(part));
        let leaf = self.blocks as u64 + block as u64;
        let merges = self.climb(&Merger { alloc, job }, &mut pass.seat, leaf);
        pass.holding = None;
        merges
    }

    // Climbs from a leaf while the neighbour is there, and answers how far it came.
    fn climb(&self, merger: &Merger<J>, seat: &mut CrewSeat<J>, leaf: u64) -> u32
        requires of { seat.old.table_id ≡ self.now.table.shared.table_id }
        requires facts { J.facts merger.now.job.now ≡ J.facts (job_of self.now) }
        requires bears { Bears J.stands (J.facts merger.now.job.now) (blocks_of self.now) seat.old.me leaf 0 }
        ensures of { seat.new.table_id ≡ seat.old.table_id }
        ensures empty { seat.new.me.1 ≡ [] }
        ensures merged { seat.new.me.0 ≡ adds (ancestors leaf result) (rests seat.old.me.0) }
        ensures few { result ≤ 12 }
    {
        let mut node = leaf;
        let mut height = 0;
        while node > 1 {
            if !self.deposit(seat, node, height) {
                return height;
            }
            self.join(merger, seat, node, height);
            node /= 2;
            height += 1;
        }
        self.bring_home(seat, height);
        height
    }

    // Sets the node's bit in its parent's word. True where the neighbour's bit was there: the seat then has both parts.
    fn deposit(&self, seat: &mut CrewSeat<J>, node: u64, height: u32) -> bool
        requires of { seat.old.table_id ≡ self.now.table.shared.table_id }
        requires bears { Bears J.stands (J.facts (job_of self.now)) (blocks_of self.now) seat.old.me node height }
        requires below { 1 < node }
        ensures of { seat.new.table_id ≡ seat.old.table_id }
        ensures second { IsTrue result → (seat.new.me.0 ≡ climbs_to (held_node (node / 2) (height + 1)) seat.old.me.0)
            × HasChildren J.stands (J.facts (job_of self.now)) (blocks_of self.now) seat.new.me.1
            (node / 2) height (node % 2 == 0)
            × (J.count (J.facts (job_of self.now)) ≡ blocks_of self.now) }
        ensures first { IsFalse result → (seat.new.me.0 ≡ rests seat.old.me.0) × (seat.new.me.1 ≡ []) }
    {
        let found = self
            .table
            .shared
            .fetch_or::<Deposit<J>>(seat, (node / 2) as usize, node % 2 + 1);
        found != 0
    }

    // Sets the root's own word: its part goes home.
    fn bring_home(&self, seat: &mut CrewSeat<J>, height: u32)
        requires of { seat.old.table_id ≡ self.now.table.shared.table_id }
        requires bears { Bears J.stands (J.facts (job_of self.now)) (blocks_of self.now) seat.old.me 1 height }
        ensures of { seat.new.table_id ≡ seat.old.table_id }
        ensures rests { (seat.new.me.0 ≡ rests seat.old.me.0) × (seat.new.me.1 ≡ []) }
    {
        self.table
            .shared
            .fetch_or::<RootHome<J>>(seat, self.blocks as usize, 1);
    }

    // Merges a node's part and its neighbour's, into the left one's slot.
    fn join(&self, merger: &Merger<J>, seat: &mut CrewSeat<J>, node: u64, height: u32)
        requires of { seat.old.table_id ≡ self.now.table.shared.table_id }
        requires count { J.count (J.facts merger.now.job.now) ≡ blocks_of self.now }
        requires two { HasChildren J.stands (J.facts merger.now.job.now) (blocks_of self.now) seat.old.me.1
            (node / 2) height (node % 2 == 0) }
        requires node { (l : ℕ) × IsNode (blocks_of self.now) l (height + 1) (node / 2) }
        ensures of { (seat.new.table_id ≡ seat.old.table_id) × (seat.new.me.0 ≡ seat.old.me.0) }
        ensures part { (x : J.Part)
            × (seat.new.me.1 ≡ carried (blocks_of self.now) (height + 1) (node / 2) (Some x))
            × J.stands (J.facts merger.now.job.now) x (first_of (blocks_of self.now) (height + 1) (node / 2))
            (end_of (blocks_of self.now) (height + 1) (node / 2)) }
    {
        let parent = node / 2;
        let left = self.slot(2 * parent, height);
        let right = self.slot(2 * parent + 1, height);
        let (a, b) = self.take_children(seat, left, right, node % 2 == 0);
        self.put(seat, left, right, merger.job.merge(merger.alloc, a, b));
    }

    // The slot of a node's first leaf.
    fn slot(&self, node: u64, height: u32) -> usize
        requires { (l : ℕ) × IsNode (blocks_of self.now) l height node }
        ensures { result ≡ first_of (blocks_of self.now) height node }
    {
        (node * (1u64 << height)) as usize - self.blocks as usize
    }

    // Takes the left child's part and the right child's out of the two slots.
    fn take_children(
        &self,
        seat: &mut CrewSeat<J>,
        left: usize,
        right: usize,
        own_is_left: bool,
    ) -> (J::Part, J::Part)
        requires of { seat.old.table_id ≡ self.now.table.shared.table_id }
        requires two { (a : J.Part) × (b : J.Part) × (seat.old.me.1 ≡ children own_is_left left right a b) }
        ensures of { (seat.new.table_id ≡ seat.old.table_id) × (seat.new.me.0 ≡ seat.old.me.0) }
        ensures two { seat.old.me.1 ≡ children own_is_left left right result.0 result.1 }
        ensures empty { seat.new.me.1 ≡ (left, None) ∷ (right, None) ∷ [] }
    {
        if own_is_left {
            let (theirs, ours) = self.take_two(seat, right, left);
            (ours, theirs)
        } else {
            let parts = self.take_two(seat, left, right);
            seat.turn();
            parts
        }
    }

    // Takes both parts out of the two slots that the seat has.
    fn take_two(&self, seat: &mut CrewSeat<J>, first: usize, second: usize) -> (J::Part, J::Part)
        requires of { seat.old.table_id ≡ self.now.table.shared.table_id }
        requires two { (y : J.Part) × (x : J.Part)
            × (seat.old.me.1 ≡ (first, Some y) ∷ (second, Some x) ∷ []) }
        ensures of { (seat.new.table_id ≡ seat.old.table_id) × (seat.new.me.0 ≡ seat.old.me.0) }
        ensures two { seat.old.me.1 ≡ (first, Some result.0) ∷ (second, Some result.1) ∷ [] }
        ensures empty { seat.new.me.1 ≡ (second, None) ∷ (first, None) ∷ [] }
    {
        let Some(theirs) = self.table.shared.exchange(seat, first, None) else {
            unreachable!()
        };
        seat.turn();
        let Some(ours) = self.table.shared.exchange(seat, second, None) else {
            unreachable!()
        };
        (theirs, ours)
    }

    // Puts a part into the first of two empty slots, and turns it behind the other.
    fn put(&self, seat: &mut CrewSeat<J>, at: usize, behind: usize, part: J::Part)
        requires of { seat.old.table_id ≡ self.now.table.shared.table_id }
        requires empty { seat.old.me.1 ≡ (at, None) ∷ (behind, None) ∷ [] }
        ensures of { (seat.new.table_id ≡ seat.old.table_id) × (seat.new.me.0 ≡ seat.old.me.0) }
        ensures full { seat.new.me.1 ≡ (behind, None) ∷ (at, Some part) ∷ [] }
    {
        self.table.shared.exchange(seat, at, Some(part));
        seat.turn();
    }
}
