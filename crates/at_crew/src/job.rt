//! What a crew does with each block.

ghost use Rattle.std.specs.Prelude.{ℕ, ◌+◌, ◌<◌, ◌≤◌};

use std::alloc::Global;

/// What a crew does with each block, and how the parts of two neighbouring stretches of blocks become one.
///
/// A job says what its parts mean by a relation: under the job's facts a part stands for the blocks from one number up
/// to, not including, another. No call has an answer for want of memory, so a job that allocates has a part for that,
/// which stands for whatever its facts allow.
pub trait Job: Sync {
    /// What a stretch of blocks gives.
    type Part: Send + Drop;

    /// Plain data of which no value is made when a program runs.
    type Facts;

    /// What the meaning of the parts rests on, as contracts see it.
    ghost facts: { Self → Self.Facts };

    /// The number of blocks under these facts.
    ghost count: { Self.Facts → ℕ };

    /// Under these facts the part stands for the blocks from a number up to another.
    ghost stands: { Self.Facts → Self.Part → ℕ → ℕ → Type 0 };

    /// The part of one block.
    fn run(&self, alloc: Global, block: u32) -> Self::Part
        requires { block < count (facts self.now) }
        ensures { stands (facts self.now) result block (block + 1) };

    /// The part of two neighbouring stretches, the left one's blocks before the right one's.
    fn merge(&self, alloc: Global, left: Self::Part, right: Self::Part) -> Self::Part
        requires { (a : ℕ) × (b : ℕ) × (c : ℕ) × stands (facts self.now) left a b
            × stands (facts self.now) right b c × (c ≤ count (facts self.now)) }
        ensures { (a b c : ℕ) → stands (facts self.now) left a b → stands (facts self.now) right b c
            → c ≤ count (facts self.now) → stands (facts self.now) result a c };
}
