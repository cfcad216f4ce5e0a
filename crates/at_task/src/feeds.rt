//! A query over what comes, as a future.

ghost use Rattle.std.specs.Prelude.{◌≡◌, ◌≤◌, false, [], length, vec_len, IfOk};
ghost use Rattle.at_query.specs.Ranges.{IsQueryInRange};
ghost use Rattle.at_task.specs.declared.drawing.TheConstants.{ROOM};
ghost use Rattle.at_task.specs.FeedEnds.{most_bytes};

use crate::chunks::Chunks;
use crate::drawing::{Drawn, ROOM, draw};
use crate::ends::FeedEnd;
use crate::intake::Intake;
use crate::kept::Kept;
use at_fixed::Coords;
use at_query::{Part, Query};
use at_run::{Form, Reader};
use at_text::Memory;
use futures::Future;
use futures::task::{Context, Poll};
use std::alloc::Global;

/// A query that is asked of bytes as they come. It is a future, and gives the part of their features, or why there is
/// none.
///
/// A poll that took so many bytes as a turn has, or more, may end though there are more, and the task is then woken.
#[derive(Drop)]
pub struct Feed<T: Chunks> {
    source: T,
    intake: Intake,
    room: Vec<u8>,
    turn: u32,
    given: bool,
    ghost wide: { vec_len room ≡ ROOM },
    ghost turns: { 1 ≤ turn },
    ghost short: { given ≡ false → length intake.taken ≤ most_bytes },
    ghost unkept: { given ≡ false → intake.kept ≡ false },
}

impl<T: Chunks> Feed<T> {
    ghost use Rattle.std.specs.Prelude.{◌≡◌, ◌≤◌, [], true, false, IfOk};
    ghost use Rattle.at_query.specs.Ranges.{IsQueryInRange};
    ghost use Rattle.at_task.specs.Keeping.{keeps_any, IsKept};
    ghost use Rattle.at_task.specs.Feeds.{source_of, asks_of, turn_of, taken_of, has_given, keeps_of};

    /// A feed of what the source gives: in this form, asked this query, with numbers read so. It takes room for 65,536
    /// bytes.
    pub fn new(
        alloc: Global,
        source: T,
        form: Form,
        query: Query,
        digits: u8,
        how: Coords,
        turn: u32,
    ) -> Result<Feed<T>, Memory>
        requires turn { 1 ≤ turn }
        requires goes_on { T.ended source ≡ false }
        requires in_range { IsQueryInRange query }
        ensures source { IfOk result (λ f. source_of f ≡ source) }
        ensures asks { IfOk result (λ f. asks_of f ≡ record { form = form; query = query; digits = digits; how = how }) }
        ensures turn { IfOk result (λ f. turn_of f ≡ turn) }
        ensures taken { IfOk result (λ f. taken_of f ≡ []) }
        ensures new { IfOk result (λ f. has_given f ≡ false) }
        ensures kept { IfOk result (λ f. keeps_of f ≡ false) }
    {
        let mut room = Vec::new(alloc);
        room.resize(ROOM, 0)?;
        Ok(Feed {
            source,
            intake: Intake::new(alloc, Reader::new(form, query, digits, how)),
            room,
            turn,
            given: false,
        })
    }

    /// Whether it was ready. It is then polled no more. It takes no memory.
    pub fn is_done(&self) -> bool
        ensures { result ≡ has_given self.now }
    {
        self.given
    }

    /// Keeps what is said of its bytes, which it has taken.
    pub(crate) fn keep(&mut self, kept: Kept)
        requires given { has_given self.old ≡ true }
        requires said { IsKept (asks_of self.old) (taken_of self.old) kept }
        ensures kept { keeps_of self.new ≡ keeps_any kept }
        ensures taken { taken_of self.new ≡ taken_of self.old }
        ensures asks { asks_of self.new ≡ asks_of self.old }
        ensures source { source_of self.new ≡ source_of self.old }
        ensures turn { turn_of self.new ≡ turn_of self.old }
        ensures given { has_given self.new ≡ has_given self.old }
    {
        self.intake.keep(kept);
    }

    /// Takes what is kept.
    pub(crate) fn take_kept(&mut self) -> Kept
        requires given { has_given self.old ≡ true }
        ensures said { IsKept (asks_of self.old) (taken_of self.old) result }
        ensures there { keeps_any result ≡ keeps_of self.old }
        ensures taken { taken_of self.new ≡ taken_of self.old }
        ensures asks { asks_of self.new ≡ asks_of self.old }
        ensures source { source_of self.new ≡ source_of self.old }
        ensures turn { turn_of self.new ≡ turn_of self.old }
        ensures given { has_given self.new ≡ has_given self.old }
    {
        self.intake.take_kept()
    }
}

impl<T: Chunks> Future for Feed<T> {
    type Output = Result<Part, FeedEnd>;

    ghost use Rattle.std.specs.Prelude.{◌≡◌, ◌⊎◌, ◌↔◌, ◌+◌, ◌≤◌, ◌++◌, List, ℕ, length, true, false, Ok, Err, Some, IfSome};
    ghost use Rattle.std.specs.Prelude.{IfOk};
    ghost use Rattle.futures.specs.Poll.{IfReady, OnPending};
    ghost use Rattle.futures.specs.Task.{Covers, Keeps};
    ghost use Rattle.at_text.specs.declared.faults.Fault.{Fault};
    ghost use Rattle.at_io.specs.Counts.{Rose};
    ghost use Rattle.at_task.specs.declared.ends.FeedEnd.TheVariants as ends;
    ghost use Rattle.at_task.specs.FeedEnds.{most_bytes, HasFound, IsBytesPart};
    ghost use Rattle.at_task.specs.Feeds.{source_of, asks_of, turn_of, taken_of, has_given, bytes_of, HasBytes};
    ghost use Rattle.at_task.specs.Feeds.{IsWhole, MayGive, keeps_of};

    ghost can_poll = { λ f. has_given f ≡ false };

    ghost gives = { λ f out. MayGive f out };

    fn poll(&mut self, cx: &mut Context<'_>) -> Poll<Result<Part, FeedEnd>>
        requires goes_on { has_given self.old ≡ false }
        ensures value { IfReady result (MayGive self.old) }
        ensures again { OnPending result (has_given self.new ≡ false) }
        ensures same { OnPending result ((out : _) → MayGive self.new out → MayGive self.old out) }
        ensures registered { OnPending result (Covers cx.new (λ _. ⊥)) }
        ensures kept { Keeps cx.old cx.new }

        // Each answer has its cause.
        ensures part { IfReady result (λ out. IfOk out (λ part. IsWhole self.new
            × IsBytesPart (asks_of self.new) (taken_of self.new) part)) }
        ensures found { (fault : Fault) → result ≡ Poll.Ready (Err (ends.Found fault))
            → IsWhole self.new × HasFound (asks_of self.new) (taken_of self.new) (Some fault) }
        ensures too_large { (result ≡ Poll.Ready (Err ends.TooLarge))
            ↔ (length (taken_of self.new) ≡ most_bytes + 1) }
        ensures pending { OnPending result (Rose (T.waits (source_of self.old)) (T.waits (source_of self.new))
            ⊎ ((length (taken_of self.old) + turn_of self.old ≤ length (taken_of self.new))
            × (cx.new.is_woken ≡ true))) }

        // It takes more of its bytes, and what stays.
        ensures taken { (more : List ℕ) × (taken_of self.new ≡ taken_of self.old ++ more) }
        ensures bytes { IfSome (bytes_of self.old) (λ told. bytes_of self.new ≡ Some told) }
        ensures same_bytes { (bytes : List ℕ) → HasBytes self.new bytes → HasBytes self.old bytes }
        ensures limit { length (taken_of self.new) ≤ most_bytes + 1 }
        ensures done { IfReady result (λ _. has_given self.new ≡ true) }
        ensures same_asks { asks_of self.new ≡ asks_of self.old }
        ensures unkept { OnPending result (keeps_of self.new ≡ false) }
        ensures same_turn { turn_of self.new ≡ turn_of self.old }
        ensures counted { T.waits (source_of self.old) ≤ T.waits (source_of self.new) }
    {
        match draw(
            &mut self.source,
            cx,
            &mut self.intake,
            &mut self.room,
            self.turn,
        ) {
            Drawn::Waits => Poll::Pending,
            Drawn::Turned => cx.yield_now(),
            Drawn::Ended => {
                self.given = true;
                Poll::Ready(self.intake.finish())
            }
            Drawn::TooMany => {
                self.given = true;
                Poll::Ready(Err(FeedEnd::TooLarge))
            }
            Drawn::Lacks => {
                self.given = true;
                Poll::Ready(Err(FeedEnd::Memory))
            }
        }
    }
}
