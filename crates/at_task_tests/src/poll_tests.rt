//! Feeds that are polled by hand: when a poll is pending, and that its task is woken.

use crate::asking::{Fed, ONE, POINT, SQUARES, all_of, asked, copied, joined_told, listed};
use at_fixed::Coords;
use at_query::{Part, Verb};
use at_run::Form;
use at_task::{Chunks, Feed, JoinFeed, Sliced};
use futures::task::Poll;
use futures::test::MockTask;
use std::alloc::{AllocError, AllocGlobal, Global};
use std::random::RandomSource;
use std::sync::Wait;
use std::test::Fail;
use std::thread::Threads;

/// How many polls of a feed are pending, each of which has to leave the task woken, before one gives a part that counts
/// one feature.
fn pending_polls<T: Chunks, R: RandomSource + AllocGlobal>(
    rt: &R,
    feed: Feed<T>,
) -> Result<u32, Fail> {
    let task = MockTask::new(rt)?;
    let mut feed = feed;
    for polls in 0..1_000 {
        if feed.is_done() {
            return Err(Fail::from("done before it was ready"));
        }
        match task.poll(&mut feed) {
            Poll::Pending if !task.is_woken() => return Err(Fail::from("pending, and not woken")),
            Poll::Pending => (),
            Poll::Ready(Ok(Part::Count(1))) if feed.is_done() => return Ok(polls),
            Poll::Ready(_) => return Err(Fail::from("another answer")),
        }
    }
    Err(Fail::from("never ready"))
}

/// What the file of one feature is fed by, and how many polls are pending: the bytes of a chunk, those of a turn, and
/// the calls that are pending. The file has 94 bytes. A chunk that comes where a turn isn't full yet is taken by the
/// same poll, and the end is told by one call more.
const TURNS: [(u32, u32, &[u32], u32); 8] = [
    (10, 20, &[], 4),
    (10, 1, &[], 10),
    (10, 1_000, &[], 0),
    (10, 20, &[0, 3, 4], 7),
    (94, 94, &[], 1),
    (100, 95, &[], 0),
    (1, 7, &[], 13),
    (1, 94, &[94], 2),
];

/// How many rows of the table hold, up to the first that doesn't.
fn count_turns<R: RandomSource + AllocGlobal>(rt: &R) -> Result<usize, Fail> {
    let alloc = rt.alloc();
    for row in 0..TURNS.len() {
        let (size, turn, waits, pending) = TURNS[row];
        if size == 0 || turn == 0 {
            return Ok(row);
        }
        let source = Sliced::new(copied(alloc, ONE.as_bytes())?, size, listed(alloc, waits)?);
        let query = asked(alloc, Verb::Count);
        let feed = Feed::new(alloc, source, Form::GeoJson, query, 7, Coords::Round, turn)?;
        if pending_polls(rt, feed)? != pending {
            return Ok(row);
        }
    }
    Ok(TURNS.len())
}

#[test]
fn turns_and_wakes(rt: HostRuntime) -> Result<(), Fail> {
    assert_eq!(rt; count_turns(&rt)?, 8);
    Ok(())
}

/// The numbers from 0 on, so many.
fn first_numbers(alloc: Global, count: u32) -> Result<Vec<u32>, AllocError> {
    let mut numbers = Vec::new(alloc);
    for number in 0..count {
        numbers.push(number)?;
    }
    Ok(numbers)
}

/// How many polls of a join of the squares with the point are pending, where so many calls of each side are before the
/// first that gives bytes, of which there are all.
fn pending_joins<R: RandomSource + AllocGlobal>(
    rt: &R,
    first_waits: u32,
    second_waits: u32,
) -> Result<u32, Fail> {
    let alloc = rt.alloc();
    let (a, b) = (
        first_numbers(alloc, first_waits)?,
        first_numbers(alloc, second_waits)?,
    );
    let first = all_of(alloc, SQUARES, Form::Wkt, 1_000, a.as_slice(), 1_000)?;
    let second = all_of(alloc, POINT, Form::GeoJson, 1_000, b.as_slice(), 1_000)?;
    let task = MockTask::new(rt)?;
    let mut join = JoinFeed::new(first, second);
    for polls in 0..1_000 {
        if join.is_done() {
            return Err(Fail::from("done before it was ready"));
        }
        match task.poll(&mut join) {
            Poll::Pending if !task.is_woken() => return Err(Fail::from("pending, and not woken")),
            Poll::Pending => (),
            Poll::Ready(Ok(_)) if join.is_done() => return Ok(polls),
            Poll::Ready(_) => return Err(Fail::from("another answer")),
        }
    }
    Err(Fail::from("never ready"))
}

/// A side that is done is polled no more, so the slower one alone says how many polls are pending.
#[test]
fn one_side_long_before_the_other(rt: HostRuntime) -> Result<(), Fail> {
    for (first, second, pending) in [
        (0, 0, 0),
        (0, 500, 500),
        (500, 0, 500),
        (3, 10, 10),
        (10, 3, 10),
    ] {
        assert_eq!(rt;
            pending_joins(&rt, first, second)?,
            pending,
            "{first} and {second}"
        );
    }
    Ok(())
}

/// What is told of two files, one of which comes at once and the other a byte at a time with a hundred waits.
fn told_late<R: Threads + Sync + Wait + RandomSource + AllocGlobal>(
    rt: &R,
    lines: &[u8],
    json: &[u8],
    text: &str,
) -> Result<bool, Fail> {
    let many = first_numbers(rt.alloc(), 100)?;
    let early = Fed {
        bytes: lines,
        size: 1_000,
        waits: &[],
    };
    let late = Fed {
        bytes: json,
        size: 1,
        waits: many.as_slice(),
    };
    let one = joined_told(rt, early, late)?;
    let late = Fed {
        bytes: lines,
        size: 1,
        waits: many.as_slice(),
    };
    let early = Fed {
        bytes: json,
        size: 1_000,
        waits: &[],
    };
    let other = joined_told(rt, late, early)?;
    Ok(one.as_str() == text && other.as_str() == text)
}

#[test]
fn joins_with_one_side_late(rt: HostRuntime) -> Result<(), Fail> {
    assert!(rt; told_late(&rt, SQUARES, POINT, "0 0\n32 0\n")?);
    assert!(rt; told_late(&rt, b"POINT (x)", POINT, "first Syntax 7")?);
    assert!(rt; told_late(&rt, b"", b"{1", "second Syntax 1")?);
    assert!(rt; told_late(&rt, b"POINT (x)", b"{1", "first Syntax 7")?);
    assert!(rt; told_late(&rt, b"", POINT, "")?);
    Ok(())
}

/// Two squares side by side, and the same half a unit to the right in GeoJSON: the texts of the made files `@w:2` and
/// `@g:2`.
const LEFT: &[u8] = b"POLYGON ((0 0,1 0,1 1,0 1,0 0))\nPOLYGON ((1 0,2 0,2 1,1 1,1 0))\n";

const RIGHT: &[u8] = br#"{"type":"FeatureCollection","features":[
{"type":"Feature","properties":{"name":"g0"},"geometry":{"type":"Polygon","coordinates":[[[0.5,0],[1.5,0],[1.5,1],[0.5,1],[0.5,0]]]}},
{"type":"Feature","properties":{"name":"g1"},"geometry":{"type":"Polygon","coordinates":[[[1.5,0],[2.5,0],[2.5,1],[1.5,1],[1.5,0]]]}}
]}
"#;

#[test]
fn joins_of_two(rt: HostRuntime) -> Result<(), Fail> {
    let waits = [0, 1, 2, 3, 4, 5, 6, 7, 8, 9];
    let left = Fed {
        bytes: LEFT,
        size: 9,
        waits: &[],
    };
    let right = Fed {
        bytes: RIGHT,
        size: 9,
        waits: &waits,
    };
    assert_eq!(rt;
        joined_told(&rt, left, right)?.as_str(),
        "0 41\n32 41\n32 176\n"
    );
    let squares = Fed {
        bytes: SQUARES,
        size: 5,
        waits: &[],
    };
    let point = Fed {
        bytes: POINT,
        size: 5,
        waits: &[],
    };
    assert_eq!(rt; joined_told(&rt, squares, point)?.as_str(), "0 0\n32 0\n");
    Ok(())
}
