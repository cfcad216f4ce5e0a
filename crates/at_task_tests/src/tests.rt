//! Files that come in chunks, and sources that are pending.

use crate::asking::{ONE, asked, told};
use at_fixed::Coords;
use at_query::{Verb, answer_text};
use at_run::Form;
use at_task::{Feed, Sliced, run_feed};
use std::alloc::{AllocError, AllocGlobal, Global};
use std::random::RandomSource;
use std::sync::Wait;
use std::test::Fail;

/// Files, how they begin, and what is found of them: a size, whether they are WKT, the bytes, and the text.
const ROWS: [(u32, bool, &[u8], &str); 9] = [
    (1, false, b"{1 tru", "Syntax 1"),
    (1, false, b"\xEF\xBB\xBF{}x       \xFF", "NotUtf8 13"),
    (2, true, b"", "0\n"),
    (2, false, b"", "Ended 0"),
    (1, false, b"\xEF\xBB\xBF{}x", "Syntax 5"),
    (1, true, b"\xEF\xBB\xBFPOINT (1 2)\nPOINT (3 4)", "2\n"),
    (2, true, b"\xEF\xBB\xBF", "0\n"),
    (2, true, b"\xEF\xBB", "NotUtf8 0"),
    (65_536, true, b"POINT (1 2", "Ended 10"),
];

/// How many rows are as told, up to the first that isn't.
fn count_told<R: Wait + RandomSource + AllocGlobal>(
    rt: &R,
    rows: &[(u32, bool, &[u8], &str)],
) -> Result<usize, Fail> {
    for row in 0..rows.len() {
        let (size, wkt, bytes, text) = rows[row];
        let form = if wkt { Form::Wkt } else { Form::GeoJson };
        let query = asked(rt.alloc(), Verb::Count);
        let found = told(rt, bytes, form, query, size, &[], 16)?;
        if found.as_str() != text {
            return Ok(row);
        }
    }
    Ok(rows.len())
}

#[test]
fn files_in_chunks(rt: HostRuntime) -> Result<(), Fail> {
    assert_eq!(rt; count_told(&rt, &ROWS)?, 9);
    Ok(())
}

/// Where the one feature is found, for chunks of that size, waits and turn.
fn one_told<R: Wait + RandomSource + AllocGlobal>(
    rt: &R,
    size: u32,
    waits: &[u32],
    turn: u32,
) -> Result<bool, Fail> {
    let query = asked(rt.alloc(), Verb::Select);
    let found = told(rt, ONE.as_bytes(), Form::GeoJson, query, size, waits, turn)?;
    Ok(found.as_str() == "40\n")
}

#[test]
fn pending_sources(rt: HostRuntime) -> Result<(), Fail> {
    assert!(rt; one_told(&rt, 1, &[], 16)?);
    assert!(rt; one_told(&rt, 10, &[0, 3, 4], 2)?);
    assert!(rt; one_told(&rt, 94, &[0, 1, 2, 3, 4], 1)?);
    assert!(rt; one_told(&rt, 100, &[1], 1_000)?);
    Ok(())
}

/// How many chunk sizes there are, up to the first for which the answer isn't that of the whole.
fn sizes_told<R: Wait + RandomSource + AllocGlobal>(rt: &R) -> Result<u32, Fail> {
    for size in 1..96 {
        if !one_told(rt, size, &[2, 5], 7)? {
            return Ok(size);
        }
    }
    Ok(96)
}

#[test]
fn every_size(rt: HostRuntime) -> Result<(), Fail> {
    assert_eq!(rt; sizes_told(&rt)?, 96);
    Ok(())
}

/// So many lines of points.
fn lines(alloc: Global, count: u32) -> Result<Vec<u8>, AllocError> {
    let mut bytes = Vec::new(alloc);
    for _ in 0..count {
        bytes.extend_from_slice(b"POINT (1 2)\n")?;
    }
    Ok(bytes)
}

#[test]
fn many_pieces(rt: HostRuntime) -> Result<(), Fail> {
    let alloc = rt.alloc();
    let bytes = lines(alloc, 200_000)?;
    let query = asked(alloc, Verb::Count);
    let found = told(
        &rt,
        bytes.as_slice(),
        Form::Wkt,
        query,
        65_536,
        &[7, 11],
        16,
    )?;
    assert!(rt; found.as_str() == "200000\n");
    Ok(())
}

#[test]
fn the_example_of_the_crate(rt: HostRuntime) -> Result<(), Fail> {
    let alloc = rt.alloc();
    let query = asked(alloc, Verb::Count);
    let mut waits = Vec::new(alloc);
    waits.push(1)?;
    let mut file = Vec::new(alloc);
    file.extend_from_slice(b"POINT (1 2)\nPOINT (3 4)\n")?;
    let source = Sliced::new(file, 5, waits);
    let feed = Feed::new(alloc, source, Form::Wkt, query, 7, Coords::Exact, 16)?;
    let found = run_feed(&rt, feed)?;
    assert_eq!(rt; answer_text(alloc, &found, 7)?.as_str(), "2\n");
    Ok(())
}
