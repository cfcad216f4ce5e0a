//! The answer to a query over what comes.

ghost use Rattle.std.specs.Prelude.{◌≡◌, ◌≢◌, ℕ, List, false};
ghost use Rattle.at_query.specs.declared.query.queries.Verb.{Verb};
ghost use Rattle.at_task.specs.FeedEnds.{IsAnswered, IsOnlyEnd};
ghost use Rattle.at_task.specs.Feeds.{asks_of, has_given, HasBytes};

use crate::chunks::Chunks;
use crate::ends::FeedEnd;
use crate::feeds::Feed;
use at_query::{Answer, answer_of};
use futures::executor::block_on;
use std::alloc::AllocGlobal;
use std::random::RandomSource;
use std::sync::Wait;

/// The answer to a query over all bytes of a feed, or why there is none. It polls the feed until that is ready, and
/// blocks where it is pending.
///
/// # Errors
/// `Found` is the first fault of the bytes, exactly where they are no more than 2^28 and have one. `TooLarge` comes
/// exactly where they are more. `Memory` comes where an allocation was refused, or what waiting takes can't be had.
pub fn run_feed<T: Chunks, R: Wait + RandomSource + AllocGlobal>(
    rt: &R,
    feed: Feed<T>,
) -> Result<Answer, FeedEnd>
    requires no_join { (asks_of feed).query.verb ≢ Verb.Join }
    requires goes_on { has_given feed ≡ false }
    ensures answer { (bytes : List ℕ) × HasBytes feed bytes × IsAnswered (asks_of feed) bytes result }
    ensures only { (bytes : List ℕ) × HasBytes feed bytes × IsOnlyEnd (asks_of feed) bytes result }
{
    match block_on(rt, feed) {
        Ok(Ok(part)) => Ok(answer_of(part)),
        Ok(Err(end)) => Err(end),
        Err(_) => Err(FeedEnd::Memory),
    }
}
