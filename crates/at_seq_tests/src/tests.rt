//! Tables of sequences, each cut at every place.

ghost use Rattle.std.specs.Prelude.{◌^◌, []};
ghost use Rattle.at_query.specs.Ranges.{IsQueryInRange};

use at_blocks::Cuts;
use at_crew::{Free, Gate};
use at_fixed::Coords;
use at_query::{Offsets, Part, Query, Tests, Verb};
use at_seq::{SeqEnd, part_seq};
use at_text::base_of;
use std::alloc::{AllocError, Global};
use std::test::Fail;
use std::thread::Threads;

/// Texts whose bytes are written with `|` for a separator, `~` for a line feed, `^` for a carriage return, `%` for the
/// byte FF, `$` for one that begins a character of three bytes and `@` for one that goes on with a character.
fn bytes_of(alloc: Global, text: &str) -> Result<Vec<u8>, AllocError> {
    let mut bytes = Vec::new(alloc);
    for byte in text.as_bytes() {
        bytes.push(match *byte {
            b'|' => 0x1E,
            b'~' => b'\n',
            b'^' => b'\r',
            b'%' => 0xFF,
            b'$' => 0xE2,
            b'@' => 0x82,
            other => other,
        })?;
    }
    Ok(bytes)
}

/// A query without tests.
fn asked(alloc: Global, verb: Verb) -> Query
    ensures { IsQueryInRange result }
{
    Query {
        verb,
        tests: Tests::from_vec(Vec::new(alloc)),
    }
}

/// Offsets, with a comma behind each.
fn listed(alloc: Global, offsets: &Offsets) -> Result<String, Fail> {
    let mut text = String::new(alloc);
    for at in offsets.as_slice() {
        let at = *at;
        write!(text, "{at},")?;
    }
    Ok(text)
}

/// A part as a text.
fn shown(alloc: Global, part: &Part) -> Result<String, Fail> {
    match part {
        Part::Offsets(offsets) => listed(alloc, offsets),
        Part::Count(count) => {
            let count = *count;
            Ok(format!(in alloc; "{count}")?)
        }
        _ => Err(Fail::from("another part")),
    }
}

/// What a sequence is found to be under cuts: its part, or its first fault. Coordinates are read exactly.
fn told<R: Threads + Sync, G: Gate>(
    rt: &R,
    alloc: Global,
    bytes: &[u8],
    cuts: &Cuts,
    query: &Query,
    workers: u32,
    gate: &G,
) -> Result<String, Fail>
    requires in_range { IsQueryInRange query.now }
{
    if workers == 0 || workers > 64 {
        return Err(Fail::from("no such passes"));
    }
    if bytes.len() > 200 {
        return Err(Fail::from("too many bytes"));
    }
    if cuts.first() != base_of(bytes) {
        return Err(Fail::from("another first place"));
    }
    if cuts.last() as usize != bytes.len() {
        return Err(Fail::from("another last place"));
    }
    match part_seq(
        rt,
        alloc,
        bytes,
        cuts,
        query,
        7,
        Coords::Exact,
        workers,
        gate,
    ) {
        Ok(part) => shown(alloc, &part),
        Err(SeqEnd::Found(fault)) => {
            let kind = fault.kind;
            let at = fault.at;
            Ok(format!(in alloc; "{kind:?} {at}")?)
        }
        Err(SeqEnd::Memory) => Ok(String::from_str(alloc, "memory")?),
    }
}

/// What a sequence is found to be, cut at these places.
fn told_at<R: Threads + Sync>(
    rt: &R,
    alloc: Global,
    bytes: &[u8],
    places: Vec<u32>,
    query: &Query,
) -> Result<String, Fail>
    requires in_range { IsQueryInRange query.now }
{
    match Cuts::from_places(places) {
        Some(cuts) => told(rt, alloc, bytes, &cuts, query, 1, &Free),
        None => Err(Fail::from("no cuts")),
    }
}

/// What every cut finds a sequence to be, where all agree.
fn told_of_places<R: Threads + Sync>(
    rt: &R,
    alloc: Global,
    bytes: &[u8],
    query: &Query,
) -> Result<String, Fail>
    requires in_range { IsQueryInRange query.now }
{
    if bytes.len() > 200 {
        return Err(Fail::from("too many bytes"));
    }
    let base = base_of(bytes);
    let end = bytes.len() as u32;
    let whole = vec![in alloc; base, end]?;
    let uncut = told_at(rt, alloc, bytes, whole, query)?;
    for place in base..end + 1 {
        let places = vec![in alloc; base, place, end]?;
        let cut = told_at(rt, alloc, bytes, places, query)?;
        if cut.as_str() != uncut.as_str() {
            return Err(Fail::from("a cut that tells otherwise"));
        }
    }
    Ok(uncut)
}

/// What every pair of cuts finds a sequence to be, where all agree; the blocks are four, of which one is empty.
fn told_of_pairs<R: Threads + Sync>(
    rt: &R,
    alloc: Global,
    bytes: &[u8],
    query: &Query,
) -> Result<String, Fail>
    requires in_range { IsQueryInRange query.now }
{
    let uncut = told_of_places(rt, alloc, bytes, query)?;
    if bytes.len() > 20 {
        return Ok(uncut);
    }
    let base = base_of(bytes);
    let end = bytes.len() as u32;
    for first in base..end + 1 {
        for second in first..end + 1 {
            let places = vec![in alloc; base, first, second, second, end]?;
            let cut = told_at(rt, alloc, bytes, places, query)?;
            if cut.as_str() != uncut.as_str() {
                return Err(Fail::from("cuts that tell otherwise"));
            }
        }
    }
    Ok(uncut)
}

/// What a sequence is found to be in so many blocks, by so many passes.
fn told_evenly<R: Threads + Sync>(
    rt: &R,
    alloc: Global,
    bytes: &[u8],
    blocks: u32,
    query: &Query,
    workers: u32,
) -> Result<String, Fail>
    requires in_range { IsQueryInRange query.now }
{
    let base = base_of(bytes);
    if bytes.len() > 200 || base as usize > bytes.len() || blocks == 0 || blocks > 4096 {
        return Err(Fail::from("no such blocks"));
    }
    let cuts = Cuts::even(alloc, base, bytes.len() as u32, blocks)?;
    told(rt, alloc, bytes, &cuts, query, workers, &Free)
}

/// What `select` finds in a sequence, or its first fault; a sign of equality; and the sequence. A sequence of at most
/// 20 bytes is cut twice, a longer one once.
const ROWS: &str = r#"=
=||~
= ~^ ||~ | ~
1,39,=|{"type":"Point","coordinates":[1,2]}~|{"type":"Point","coordinates":[3,4]}~
1,39,=|{"type":"Point","coordinates":[1,2]}~|{"type":"Point","coordinates":[3,4]}
1,38,=|{"type":"Point","coordinates":[1,2]}|{"type":"Point","coordinates":[3,4]}
1,44,=|{"type":"Po\u0069nt","coordinates":[1,2]}~|{"type":"Point","coordinates":[3,4],"x":"\\\""}~
9,= ~|~|| ~ {"type":"Point","coordinates":[1,2]} ^~
1,=|{"type":"Feature","geometry":null,"properties":{"é":"€😀"}}
45,=|{"type":"FeatureCollection","features":[]}~|{"type":"Feature","geometry":null,"properties":null}~
Syntax 0=x|{}
Syntax 0=x|]
Syntax 1= x|{"a":1,"a":2}
Syntax 2= ~x~|{}
Syntax 0={"type":"Point","coordinates":[1,2]}
Ended 36=|{"type":"Point","coordinates":[1,2]|{"type":"Point","coordinates":[3,4]}~
Ended 3=|"a|"
Ended 3=|[~|{
Ended 6=|{"a"~|]
Syntax 9=|{}~|{"a"]~|{"b
Syntax 16=|{"a":1,"a":2}~|x
Syntax 3=|{}}~|{"a":1,"a":2}
Twin 12=|{}~|{"a":1,"a":2}~|{"a":1,"a":2}
Form 1=|{}~|[]
Form 1=|{"a":"€"}~|{"a":"€"}
Form 5=||~| 1~|null
Short 36=|{"type":"LineString","coordinates":[[1,2]]}~|{}
NotUtf8 5=|x~|"%"
NotUtf8 1=x%|{}
NotUtf8 2=|"$"~|x
NotUtf8 2=|"$|@@"
NotUtf8 3=|{}$"#;

/// What a sequence is found to be under every cut, and in 64 blocks by one pass, by two, by three and by four.
fn told_of_row<R: Threads + Sync>(
    rt: &R,
    alloc: Global,
    file: &str,
    query: &Query,
) -> Result<String, Fail>
    requires in_range { IsQueryInRange query.now }
{
    let bytes = bytes_of(alloc, file)?;
    let told = told_of_pairs(rt, alloc, bytes.as_slice(), query)?;
    for workers in [1, 2, 3, 4] {
        let evenly = told_evenly(rt, alloc, bytes.as_slice(), 64, query, workers)?;
        if evenly.as_str() != told.as_str() {
            return Err(Fail::from("even blocks that tell otherwise"));
        }
    }
    Ok(told)
}

/// The rows of the table as they are told.
fn told_rows<R: Threads + Sync>(rt: &R, alloc: Global, query: &Query) -> Result<String, Fail>
    requires in_range { IsQueryInRange query.now }
{
    let mut rows = String::new(alloc);
    for row in ROWS.lines() {
        let (_, file) = row.split_once('=').ok_or("a sign of equality")?;
        let told = told_of_row(rt, alloc, file, query)?;
        if !rows.is_empty() {
            write!(rows, "\n")?;
        }
        write!(rows, "{told}={file}")?;
    }
    Ok(rows)
}

#[test]
fn every_cut(rt: HostRuntime) -> Result<(), Fail> {
    let query = asked(rt.alloc(), Verb::Select);
    let rows = told_rows(&rt, rt.alloc(), &query)?;
    assert_eq!(rt; rows.as_str(), ROWS);
    Ok(())
}

#[test]
fn marks(rt: HostRuntime) -> Result<(), Fail> {
    let query = asked(rt.alloc(), Verb::Select);
    let marked = bytes_of(
        rt.alloc(),
        "\u{FEFF} |{\"type\":\"Point\",\"coordinates\":[1,2]}~",
    )?;
    let told = told_of_pairs(&rt, rt.alloc(), marked.as_slice(), &query)?;
    assert_eq!(rt; told.as_str(), "5,");
    let later = bytes_of(rt.alloc(), "|\u{FEFF}{}")?;
    let told = told_of_pairs(&rt, rt.alloc(), later.as_slice(), &query)?;
    assert_eq!(rt; told.as_str(), "Syntax 1");
    Ok(())
}

#[test]
fn counts(rt: HostRuntime) -> Result<(), Fail> {
    let query = asked(rt.alloc(), Verb::Count);
    let none = told_of_pairs(&rt, rt.alloc(), b"", &query)?;
    assert_eq!(rt; none.as_str(), "0");
    let spaces = told_of_pairs(&rt, rt.alloc(), b"\x1E\x1E\n", &query)?;
    assert_eq!(rt; spaces.as_str(), "0");
    let file = r#"|{"type":"Point","coordinates":[1,2]}~|{"type":"Point","coordinates":[3,4]}~"#;
    let bytes = bytes_of(rt.alloc(), file)?;
    let two = told_of_places(&rt, rt.alloc(), bytes.as_slice(), &query)?;
    assert_eq!(rt; two.as_str(), "2");
    Ok(())
}

/// What the page of `at_seq` shows.
#[test]
fn the_example_of_the_crate(rt: HostRuntime) -> Result<(), Fail> {
    let alloc = rt.alloc();
    let query = asked(alloc, Verb::Count);
    let bytes = b"\x1E{\"type\":\"Point\",\"coordinates\":[1,2]}\n";
    let how = Coords::Exact;
    let cuts = Cuts::even(alloc, 0, 38, 2)?;
    let part = part_seq(&rt, alloc, bytes, &cuts, &query, 7, how, 2, &Free)?;
    assert!(rt; matches!(part, Part::Count(1)));
    Ok(())
}
