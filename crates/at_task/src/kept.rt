//! What one of two feeds gave is kept until the other is done.

ghost use Rattle.std.specs.Prelude.{◌≡◌, ◌↔◌, ◌+◌, ◌≤◌, ◌++◌, List, ℕ, length, false, true};
ghost use Rattle.futures.specs.Task.{IsArmed, Keeps};
ghost use Rattle.at_query.specs.declared.query.queries.Verb.{Verb};
ghost use Rattle.at_task.specs.FeedEnds.{most_bytes};
ghost use Rattle.at_task.specs.Feeds.{asks_of, turn_of, taken_of, has_given, keeps_of, HasBytes};
ghost use Rattle.at_task.specs.Feeds.{IsEmptied};
ghost use Rattle.at_task.specs.Waiting.{HasWaited};

use crate::chunks::Chunks;
use crate::ends::FeedEnd;
use crate::feeds::Feed;
use at_query::Entries;
use at_run::entries_of;
use at_text::Fault;
use futures::Future;
use futures::task::{Context, Poll};

/// What is kept of the bytes of a feed.
#[derive(Drop)]
pub enum Kept {
    /// Nothing.
    Nothing,
    /// The entries of their features.
    Found(Entries),
    /// Their first fault.
    Failed(Fault),
}

/// How far a feed is.
#[derive(Clone, Copy)]
pub enum Told {
    /// It was pending.
    Waits,
    /// It is done, and what it gave is kept.
    Done,
    /// More bytes came than are read.
    TooLarge,
    /// An allocation was refused.
    Lacks,
}

/// Polls a feed once, if it isn't done, and keeps in it what it gives.
pub fn poll_one<T: Chunks>(feed: &mut Feed<T>, cx: &mut Context<'_>) -> Told
    requires join { (asks_of feed.old).query.verb ≡ Verb.Join }
    requires short { length (taken_of feed.old) ≤ most_bytes }
    requires kept { has_given feed.old ≡ keeps_of feed.old }
    requires whole { has_given feed.old ≡ true → IsEmptied feed.old }
    ensures waits { result ≡ Told.Waits → (has_given feed.new ≡ false) × (keeps_of feed.new ≡ false)
        × HasWaited feed.old feed.new × IsArmed cx.new }
    ensures done { result ≡ Told.Done → (has_given feed.new ≡ true) × (keeps_of feed.new ≡ true)
        × IsEmptied feed.new }
    ensures many { (result ≡ Told.TooLarge) ↔ (length (taken_of feed.new) ≡ most_bytes + 1) }
    ensures limit { length (taken_of feed.new) ≤ most_bytes + 1 }
    ensures taken { (more : List ℕ) × (taken_of feed.new ≡ taken_of feed.old ++ more) }
    ensures same_bytes { (bytes : List ℕ) → HasBytes feed.new bytes → HasBytes feed.old bytes }
    ensures same_asks { asks_of feed.new ≡ asks_of feed.old }
    ensures same_turn { turn_of feed.new ≡ turn_of feed.old }
    ensures kept_context { Keeps cx.old cx.new }
{
    if feed.is_done() {
        return Told::Done;
    }
    match feed.poll(cx) {
        Poll::Pending => Told::Waits,
        Poll::Ready(Ok(part)) => {
            feed.keep(Kept::Found(entries_of(part)));
            Told::Done
        }
        Poll::Ready(Err(FeedEnd::Found(fault))) => {
            feed.keep(Kept::Failed(fault));
            Told::Done
        }
        Poll::Ready(Err(FeedEnd::TooLarge)) => Told::TooLarge,
        Poll::Ready(Err(FeedEnd::Memory)) => Told::Lacks,
    }
}
