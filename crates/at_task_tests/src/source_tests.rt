//! Sources that have no bytes: they make them, or never give any.

ghost use Rattle.std.specs.Prelude.{◌≡◌, false};

use crate::asking::{asked, said};
use at_fixed::Coords;
use at_query::{Verb, answer_text};
use at_run::Form;
use at_task::{Chunks, Feed, run_feed};
use futures::task::{Context, Poll, Source, Waker};
use futures::test::MockTask;
use std::alloc::AllocGlobal;
use std::random::RandomSource;
use std::sync::atomic::{AtomicU64, Ordering};
use std::test::Fail;

/// A line that is given again and again.
const LINE: &[u8] = b"POINT (1 2)\n";

/// The line so many times. None of it is stored, and every second call is too early.
#[derive(Drop)]
struct Copies {
    left: u32,
    at: usize,
    is_early: bool,
    waits: u64,
    ended: bool,
}

impl Copies {
    fn new(count: u32) -> Copies
        ensures { result.ended ≡ false }
    {
        Copies {
            left: count,
            at: LINE.len(),
            is_early: false,
            waits: 0,
            ended: false,
        }
    }
}

impl Chunks for Copies {
    ghost use Rattle.std.specs.Prelude.{None};

    ghost rest = { λ _. None };

    ghost ended = { λ s. s.ended };

    ghost waits = { λ s. s.waits };

    fn poll_fill(&mut self, cx: &mut Context<'_>, room: &mut [u8]) -> Poll<usize> {
        self.is_early = !self.is_early;
        if self.is_early {
            self.waits = self.waits.saturating_add(1);
            return cx.yield_now();
        }
        if self.at >= LINE.len() && self.left > 0 {
            self.left -= 1;
            self.at = 0;
        }
        let from = self.at.min(LINE.len());
        let given = (LINE.len() - from).min(room.len());
        room[..given].copy_from_slice(&LINE[from..from + given]);
        self.at = from + given;
        if given == 0 && !room.is_empty() {
            self.ended = true;
        }
        Poll::Ready(given)
    }
}

#[test]
fn the_example_of_the_page(rt: HostRuntime) -> Result<(), Fail> {
    let alloc = rt.alloc();
    let query = asked(alloc, Verb::Count);
    let source = Copies::new(1_000);
    let feed = Feed::new(alloc, source, Form::Wkt, query, 7, Coords::Exact, 64)?;
    let found = run_feed(&rt, feed)?;
    assert_eq!(rt; answer_text(alloc, &found, 7)?.as_str(), "1000\n");
    Ok(())
}

/// A source without an end, which gives what lies in the room. It counts what it gives.
#[derive(Drop)]
struct Endless<'a> {
    given: &'a AtomicU64,
}

impl Chunks for Endless<'_> {
    ghost use Rattle.std.specs.Prelude.{None, false};

    ghost rest = { λ _. None };

    ghost ended = { λ _. false };

    ghost waits = { λ _. 0 };

    fn poll_fill(&mut self, _cx: &mut Context<'_>, room: &mut [u8]) -> Poll<usize> {
        self.given.fetch_add(room.len() as u64, Ordering::SeqCst);
        Poll::Ready(room.len())
    }
}

/// With 2^28 bytes a feed goes on, and of one more it is told that they are too many. No byte behind that one is taken.
#[test]
fn one_byte_too_many(rt: HostRuntime) -> Result<(), Fail> {
    let alloc = rt.alloc();
    let given = AtomicU64::new(0);
    let source = Endless { given: &given };
    let query = asked(alloc, Verb::Count);
    let feed = Feed::new(alloc, source, Form::Wkt, query, 7, Coords::Exact, 1 << 20)?;
    assert_eq!(rt; said(&rt, feed)?.as_str(), "too large");
    assert_eq!(rt; given.load(Ordering::SeqCst), (1 << 28) + 1);
    Ok(())
}

/// A source that gives nothing. It wakes the task at each call, or at none and registers it.
#[derive(Drop)]
struct Silent {
    wakes: bool,
    source: Source,
    slot: Option<Waker>,
    waits: u64,
}

impl Chunks for Silent {
    ghost use Rattle.std.specs.Prelude.{None, false};

    ghost rest = { λ _. None };

    ghost ended = { λ _. false };

    ghost waits = { λ s. s.waits };

    fn poll_fill(&mut self, cx: &mut Context<'_>, _room: &mut [u8]) -> Poll<usize> {
        self.waits = self.waits.saturating_add(1);
        if self.wakes {
            return cx.yield_now();
        }
        cx.register(&self.source, &mut self.slot)
    }
}

/// How many of a thousand polls of a feed that gets nothing are pending, up to one that isn't or that wakes the task
/// otherwise than its source does.
fn pending_polls<R: RandomSource + AllocGlobal>(rt: &R, wakes: bool) -> Result<u32, Fail> {
    let alloc = rt.alloc();
    let source = Silent {
        wakes,
        source: Source::new(),
        slot: None,
        waits: 0,
    };
    let query = asked(alloc, Verb::Count);
    let mut feed = Feed::new(alloc, source, Form::Wkt, query, 7, Coords::Exact, 1)?;
    let task = MockTask::new(rt)?;
    for polls in 0..1_000 {
        if feed.is_done() || task.poll(&mut feed).is_ready() || task.is_woken() != wakes {
            return Ok(polls);
        }
    }
    Ok(1_000)
}

#[test]
fn a_source_that_is_pending_for_ever(rt: HostRuntime) -> Result<(), Fail> {
    for wakes in [true, false] {
        assert_eq!(rt; pending_polls(&rt, wakes)?, 1_000, "{wakes}");
    }
    Ok(())
}
