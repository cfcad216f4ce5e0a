//! The answer to a join over two feeds.

ghost use Rattle.std.specs.Prelude.{◌≡◌, ◌<◌, ◌≤◌, ℕ, List, false, IfOk, MatchResult};
ghost use Rattle.at_query.specs.Parts.{AreProper};
ghost use Rattle.at_blocks.specs.Blocks.{NoneGivenUp};
ghost use Rattle.at_task.specs.Feeds.{asks_of, HasBytes};
ghost use Rattle.at_task.specs.PairEnds.{IsPairAnswered, ArePairsOf};
ghost use Rattle.at_task.specs.JoinFeeds.{first_of, second_of, has_answered};

use crate::chunks::Chunks;
use crate::ends::PairEnd;
use crate::join_feeds::{Both, JoinFeed};
use at_crew::Gate;
use at_join::pairs_grid;
use at_query::Answer;
use futures::executor::block_on;
use std::alloc::{AllocGlobal, Global};
use std::random::RandomSource;
use std::sync::Wait;
use std::thread::Threads;

/// The pairs of the entries of both that meet.
fn joined<G: Gate, R: Threads + Sync>(
    rt: &R,
    alloc: Global,
    both: Both,
    workers: u32,
    gate: &G,
) -> Result<Answer, PairEnd>
    requires first { AreProper both.first }
    requires second { AreProper both.second }
    requires workers { (0 < workers) × (workers ≤ 64) }
    ensures answer { MatchResult result (ArePairsOf both) (λ end. end ≡ PairEnd.Memory) }
    ensures gate { IfOk result (λ _. NoneGivenUp (G.given_up gate.now) 0 64) }
{
    match pairs_grid(rt, alloc, both.first, both.second, workers, gate) {
        Ok(pairs) => Ok(Answer::Pairs(pairs)),
        Err(_) => Err(PairEnd::Memory),
    }
}

/// The answer to a join over all bytes of two feeds, or why there is none. It polls them until both are done, and blocks
/// where they are pending. Then it searches the 64 cells of a grid over both, and there are so many passes to do it; no
/// clause says which of them searches what, or that it enters the gate.
///
/// # Errors
/// `FirstTooLarge` and `SecondTooLarge` come only where more than 2^28 bytes came of that feed, and one of them wherever
/// they did of either. Else `First` comes exactly where the first feed's bytes have a fault, and `Second` exactly where
/// these have none and the second feed's have one. `Memory` comes where an allocation was refused, or what waiting takes
/// can't be had, and in the place of an answer wherever the gate gives up a cell.
pub fn run_join_feed<
    T: Chunks,
    U: Chunks,
    G: Gate,
    R: Threads + Sync + Wait + RandomSource + AllocGlobal,
>(rt: &R, alloc: Global, feed: JoinFeed<T, U>, workers: u32, gate: &G) -> Result<Answer, PairEnd>
    requires workers { (0 < workers) × (workers ≤ 64) }
    requires goes_on { has_answered feed ≡ false }
    ensures answer { (a b : List ℕ) × HasBytes (first_of feed) a × HasBytes (second_of feed) b
        × IsPairAnswered (asks_of (first_of feed)) (asks_of (second_of feed)) a b result }
    ensures gate { IfOk result (λ _. NoneGivenUp (G.given_up gate.now) 0 64) }
{
    match block_on(rt, feed) {
        Ok(Ok(both)) => joined(rt, alloc, both, workers, gate),
        Ok(Err(end)) => Err(end),
        Err(_) => Err(PairEnd::Memory),
    }
}
