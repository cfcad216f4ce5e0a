//! Two feeds, taken side by side.

ghost use Rattle.std.specs.Prelude.{◌≡◌, ◌≤◌, [], false, true, length};
ghost use Rattle.std.proofs.Props.{props};
ghost use Rattle.at_query.specs.declared.query.queries.Verb.{Verb};
ghost use Rattle.at_task.specs.FeedEnds.{most_bytes};
ghost use Rattle.at_task.specs.Feeds.{asks_of, taken_of, has_given, keeps_of, IsEmptied};
ghost use Rattle.at_task.specs.Stages.{IsStage, IsMade};

use crate::chunks::Chunks;
use crate::ends::PairEnd;
use crate::feeds::Feed;
use crate::kept::{Kept, Told, poll_one};
use at_query::Entries;
use futures::Future;
use futures::task::{Context, Poll};

/// The entries of two feeds, to be joined.
#[derive(Drop)]
pub struct Both {
    pub first: Entries,
    pub second: Entries,
}

/// How far two feeds are.
enum Stage {
    FirstTooLarge,
    SecondTooLarge,
    Lacks,
    FirstWaits,
    SecondWaits,
    Done,
}

/// How far both are.
fn stage_of(first: Told, second: Told) -> Stage
    ensures { IsStage first second result }
{
    match first {
        Told::TooLarge => Stage::FirstTooLarge,
        Told::Lacks => match second {
            Told::TooLarge => Stage::SecondTooLarge,
            Told::Lacks => Stage::Lacks,
            Told::Waits => Stage::Lacks,
            Told::Done => Stage::Lacks,
        },
        Told::Waits => match second {
            Told::TooLarge => Stage::SecondTooLarge,
            Told::Lacks => Stage::Lacks,
            Told::Waits => Stage::FirstWaits,
            Told::Done => Stage::FirstWaits,
        },
        Told::Done => match second {
            Told::TooLarge => Stage::SecondTooLarge,
            Told::Lacks => Stage::Lacks,
            Told::Waits => Stage::SecondWaits,
            Told::Done => Stage::Done,
        },
    }
}

/// Two queries that are asked of bytes as they come, side by side. It is a future, and gives the entries of both, or why
/// there are none. What the one feed gave is kept until the other is done.
#[derive(Drop)]
pub struct JoinFeed<T: Chunks, U: Chunks> {
    first: Feed<T>,
    second: Feed<U>,
    given: bool,
    ghost joins: { (asks_of first).query.verb ≡ Verb.Join },
    ghost also_joins: { (asks_of second).query.verb ≡ Verb.Join },
    ghost all: { (asks_of second).query.tests ≡ [] },
    ghost short: { given ≡ false → length (taken_of first) ≤ most_bytes },
    ghost also_short: { given ≡ false → length (taken_of second) ≤ most_bytes },
    ghost kept: { given ≡ false → has_given first ≡ keeps_of first },
    ghost also_kept: { given ≡ false → has_given second ≡ keeps_of second },
    ghost emptied: { given ≡ false → has_given first ≡ true → IsEmptied first } by { Prim.hlevel props },
    ghost also_emptied: { given ≡ false → has_given second ≡ true → IsEmptied second } by { Prim.hlevel props },
}

impl<T: Chunks, U: Chunks> JoinFeed<T, U> {
    ghost use Rattle.at_task.specs.JoinFeeds.{first_of, second_of, has_answered};

    /// Two feeds, of which the entries are asked. The second one's query has no tests. It takes no memory.
    pub fn new(first: Feed<T>, second: Feed<U>) -> JoinFeed<T, U>
        requires join { (asks_of first).query.verb ≡ Verb.Join }
        requires also_join { (asks_of second).query.verb ≡ Verb.Join }
        requires all { (asks_of second).query.tests ≡ [] }
        requires goes_on { has_given first ≡ false }
        requires also_goes_on { has_given second ≡ false }
        ensures first { first_of result ≡ first }
        ensures second { second_of result ≡ second }
        ensures new { has_answered result ≡ false }
    {
        JoinFeed {
            first,
            second,
            given: false,
        }
    }

    /// Whether it was ready. It is then polled no more. It takes no memory.
    pub fn is_done(&self) -> bool
        ensures { result ≡ has_answered self.now }
    {
        self.given
    }
}

/// What two feeds that are done give together. The first's fault goes before the second's.
fn paired(first: Kept, second: Kept) -> Result<Both, PairEnd>
    ensures { IsMade first second result }
{
    match first {
        Kept::Failed(fault) => Err(PairEnd::First(fault)),
        Kept::Nothing => Err(PairEnd::Memory),
        Kept::Found(first) => match second {
            Kept::Failed(fault) => Err(PairEnd::Second(fault)),
            Kept::Nothing => Err(PairEnd::Memory),
            Kept::Found(second) => Ok(Both { first, second }),
        },
    }
}

impl<T: Chunks, U: Chunks> Future for JoinFeed<T, U> {
    type Output = Result<Both, PairEnd>;

    ghost use Rattle.std.specs.Prelude.{◌≡◌, ◌⊎◌, ◌↔◌, ◌+◌, ◌≤◌, ◌++◌, List, ℕ, length, true, false, Ok, Err, Some};
    ghost use Rattle.std.specs.Prelude.{None, IfOk};
    ghost use Rattle.futures.specs.Poll.{IfReady, OnPending};
    ghost use Rattle.futures.specs.Task.{Covers, Keeps};
    ghost use Rattle.at_text.specs.declared.faults.Fault.{Fault};
    ghost use Rattle.at_query.specs.declared.answer.parts.Part.{Part};
    ghost use Rattle.at_task.specs.declared.ends.PairEnd.TheVariants as ends;
    ghost use Rattle.at_task.specs.FeedEnds.{most_bytes, HasFound, IsBytesPart};
    ghost use Rattle.at_task.specs.Feeds.{asks_of, taken_of, turn_of, has_given, HasBytes};
    ghost use Rattle.at_task.specs.Waiting.{HasWaited};
    ghost use Rattle.at_task.specs.JoinFeeds.{first_of, second_of, has_answered, HasCome, MayPair};

    ghost can_poll = { λ j. has_answered j ≡ false };

    ghost gives = { λ j out. MayPair j out };

    fn poll(&mut self, cx: &mut Context<'_>) -> Poll<Result<Both, PairEnd>>
        requires goes_on { has_answered self.old ≡ false }
        ensures value { IfReady result (MayPair self.old) }
        ensures again { OnPending result (has_answered self.new ≡ false) }
        ensures same { OnPending result ((out : _) → MayPair self.new out → MayPair self.old out) }
        ensures registered { OnPending result (Covers cx.new (λ _. ⊥)) }
        ensures kept { Keeps cx.old cx.new }

        // Each answer has its cause.
        ensures first_too_large { (result ≡ Poll.Ready (Err ends.FirstTooLarge))
            ↔ (length (taken_of (first_of self.new)) ≡ most_bytes + 1) }
        ensures second_too_large { (result ≡ Poll.Ready (Err ends.SecondTooLarge))
            ↔ ((¬ (length (taken_of (first_of self.new)) ≡ most_bytes + 1))
            × (length (taken_of (second_of self.new)) ≡ most_bytes + 1)) }
        ensures first { (fault : Fault) → result ≡ Poll.Ready (Err (ends.First fault))
            → HasCome (first_of self.new) (second_of self.new)
            × HasFound (asks_of (first_of self.new)) (taken_of (first_of self.new)) (Some fault) }
        ensures second { (fault : Fault) → result ≡ Poll.Ready (Err (ends.Second fault))
            → HasCome (first_of self.new) (second_of self.new)
            × HasFound (asks_of (first_of self.new)) (taken_of (first_of self.new)) None
            × HasFound (asks_of (second_of self.new)) (taken_of (second_of self.new)) (Some fault) }
        ensures both { IfReady result (λ out. IfOk out (λ both. HasCome (first_of self.new) (second_of self.new)
            × IsBytesPart (asks_of (first_of self.new)) (taken_of (first_of self.new)) (Part.Entries both.first)
            × IsBytesPart (asks_of (second_of self.new)) (taken_of (second_of self.new)) (Part.Entries both.second))) }
        ensures pending { OnPending result (HasWaited (first_of self.old) (first_of self.new)
            ⊎ HasWaited (second_of self.old) (second_of self.new)) }

        // What stays, and what doesn't fall.
        ensures done { IfReady result (λ _. has_answered self.new ≡ true) }
        ensures first_taken { (more : List ℕ) × (taken_of (first_of self.new) ≡ taken_of (first_of self.old) ++ more) }
        ensures second_taken { (more : List ℕ)
            × (taken_of (second_of self.new) ≡ taken_of (second_of self.old) ++ more) }
        ensures first_bytes { (bytes : List ℕ) → HasBytes (first_of self.new) bytes
            → HasBytes (first_of self.old) bytes }
        ensures second_bytes { (bytes : List ℕ) → HasBytes (second_of self.new) bytes
            → HasBytes (second_of self.old) bytes }
        ensures first_asks { asks_of (first_of self.new) ≡ asks_of (first_of self.old) }
        ensures second_asks { asks_of (second_of self.new) ≡ asks_of (second_of self.old) }
    {
        let first = poll_one(&mut self.first, cx);
        let second = poll_one(&mut self.second, cx);
        match stage_of(first, second) {
            Stage::FirstWaits => Poll::Pending,
            Stage::SecondWaits => Poll::Pending,
            Stage::FirstTooLarge => {
                self.given = true;
                Poll::Ready(Err(PairEnd::FirstTooLarge))
            }
            Stage::SecondTooLarge => {
                self.given = true;
                Poll::Ready(Err(PairEnd::SecondTooLarge))
            }
            Stage::Lacks => {
                self.given = true;
                Poll::Ready(Err(PairEnd::Memory))
            }
            Stage::Done => {
                self.given = true;
                let first = self.first.take_kept();
                let second = self.second.take_kept();
                Poll::Ready(paired(first, second))
            }
        }
    }
}
