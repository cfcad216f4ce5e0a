//! Chunks are taken until a poll has an end.

ghost use Rattle.std.specs.Prelude.{◌≡◌, ◌⊎◌, ◌+◌, ◌≤◌, ◌++◌, [], List, ℕ, length, true, false, Ok, IfSome, IfOk, OnErr};
ghost use Rattle.std.specs.Prelude.{vec_len};
ghost use Rattle.futures.specs.Poll.{IfReady, OnPending};
ghost use Rattle.futures.specs.Task.{IsArmed, Keeps};
ghost use Rattle.at_io.specs.Counts.{Rose};
ghost use Rattle.at_task.specs.FeedEnds.{most_bytes};
ghost use Rattle.at_task.specs.Ranking.{KeepsBytes};

use crate::chunks::Chunks;
use crate::intake::Intake;
use at_text::{MOST_BYTES, Memory};
use futures::task::{Context, Poll};

/// How many bytes a source gives at most at once.
pub const ROOM: usize = 65_536;

/// Why no more is taken in a poll.
pub enum Drawn {
    /// The source is pending.
    Waits,
    /// As many bytes as a turn has came in this poll.
    Turned,
    /// The source told its end.
    Ended,
    /// More bytes came than are read.
    TooMany,
    /// An allocation was refused.
    Lacks,
}

/// Takes a chunk, where the source gives one and memory suffices, and answers how many bytes it has. It has none at the
/// end alone.
fn take_chunk<T: Chunks>(
    source: &mut T,
    cx: &mut Context<'_>,
    intake: &mut Intake,
    room: &mut Vec<u8>,
) -> Poll<Result<usize, Memory>>
    requires short { length intake.old.taken ≤ most_bytes }
    requires wide { vec_len room.old ≡ ROOM }
    ensures pending { OnPending result (Rose (T.waits source.old) (T.waits source.new) × IsArmed cx.new) }
    ensures ended { result ≡ Poll.Ready (Ok 0) → (T.ended source.new ≡ true)
        × IfSome (T.rest source.new) (λ told. told ≡ []) }
    ensures refused { OnPending result (intake.new.taken ≡ intake.old.taken) }
    ensures lacks { IfReady result (λ taken. OnErr taken (intake.new.taken ≡ intake.old.taken)) }
    ensures grown { IfReady result (λ taken. IfOk taken (λ n. length intake.new.taken ≡ length intake.old.taken + n)) }
    ensures limit { length intake.new.taken ≤ most_bytes + 1 }
    ensures taken { (more : List ℕ) × (intake.new.taken ≡ intake.old.taken ++ more) }
    ensures bytes { KeepsBytes intake.old.taken (T.rest source.old) intake.new.taken (T.rest source.new) }
    ensures asks { intake.new.asks ≡ intake.old.asks }
    ensures unkept { intake.old.kept ≡ false → intake.new.kept ≡ false }
    ensures wide { vec_len room.new ≡ ROOM }
    ensures counted { T.waits source.old ≤ T.waits source.new }
    ensures kept { Keeps cx.old cx.new }
{
    let want = ROOM.min(MOST_BYTES + 1 - intake.len());
    if intake.make_room(want).is_err() {
        return Poll::Ready(Err(Memory));
    }
    let front = &mut room[..want];
    match source.poll_fill(cx, front) {
        Poll::Ready(given) => {
            intake.take(&front[..given]);
            Poll::Ready(Ok(given))
        }
        Poll::Pending => Poll::Pending,
    }
}

/// Takes chunks until the source is pending or ends, or a turn is full, or no more can be taken.
pub fn draw<T: Chunks>(
    source: &mut T,
    cx: &mut Context<'_>,
    intake: &mut Intake,
    room: &mut Vec<u8>,
    turn: u32,
) -> Drawn
    requires short { length intake.old.taken ≤ most_bytes }
    requires wide { vec_len room.old ≡ ROOM }
    ensures waits { result ≡ Drawn.Waits → Rose (T.waits source.old) (T.waits source.new) × IsArmed cx.new }
    ensures turned { result ≡ Drawn.Turned → length intake.old.taken + turn ≤ length intake.new.taken }
    ensures ended { result ≡ Drawn.Ended → (T.ended source.new ≡ true)
        × IfSome (T.rest source.new) (λ told. told ≡ []) }
    ensures many { result ≡ Drawn.TooMany → length intake.new.taken ≡ most_bytes + 1 }
    ensures short { (result ≡ Drawn.TooMany) ⊎ (length intake.new.taken ≤ most_bytes) }
    ensures taken { (more : List ℕ) × (intake.new.taken ≡ intake.old.taken ++ more) }
    ensures bytes { KeepsBytes intake.old.taken (T.rest source.old) intake.new.taken (T.rest source.new) }
    ensures asks { intake.new.asks ≡ intake.old.asks }
    ensures unkept { intake.old.kept ≡ false → intake.new.kept ≡ false }
    ensures wide { vec_len room.new ≡ ROOM }
    ensures counted { T.waits source.old ≤ T.waits source.new }
    ensures kept { Keeps cx.old cx.new }
{
    let mut grown = 0;
    loop {
        let given = match take_chunk(source, cx, intake, room) {
            Poll::Ready(Ok(given)) => given,
            Poll::Ready(Err(_)) => return Drawn::Lacks,
            Poll::Pending => return Drawn::Waits,
        };
        if given == 0 {
            return Drawn::Ended;
        }
        if intake.len() > MOST_BYTES {
            return Drawn::TooMany;
        }
        if intake.read_on().is_err() {
            return Drawn::Lacks;
        }
        grown += given;
        if grown >= turn as usize {
            return Drawn::Turned;
        }
    }
}
