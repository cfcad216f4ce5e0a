//! Tables of files and what queries find in them, with each file cut in many ways.

ghost use Rattle.std.specs.Prelude.{◌≡◌, ◌≢◌, ◌∷◌, ◌≤◌, ◌^◌, [], length, IfSome, IfOk};
ghost use Rattle.at_text.specs.Texts.{base_of as text_begin};
ghost use Rattle.at_query.specs.Ranges.{IsTestInRange, IsQueryInRange};
ghost use Rattle.at_blocks.specs.Places.{first_place, last_place};

use at_blocks::Cuts;
use at_crew::{Free, Gate};
use at_fixed::Coords;
use at_geom::{Extent, Pos};
use at_lex::Units;
use at_query::{Query, Test, Tests, Verb, answer_text};
use at_run::{Form, JoinFault, RunFault, answer, answer_join};
use at_text::{Fault, FaultKind, base_of};
use std::alloc::{AllocError, Global};
use std::process::Abort;
use std::sync::atomic::{AtomicU64, Ordering};
use std::test::Fail;
use std::thread::Threads;

/// Texts whose bytes are written with `~` for a line feed, `^` for a carriage return, `_` for a tab, `%` for the byte
/// FF, `$` for one that begins a character of three bytes and `@` for one that goes on with a character.
fn bytes_of(alloc: Global, text: &str) -> Result<Vec<u8>, AllocError> {
    let mut bytes = Vec::new(alloc);
    for byte in text.as_bytes() {
        bytes.push(match *byte {
            b'~' => b'\n',
            b'^' => b'\r',
            b'_' => b'\t',
            b'%' => 0xFF,
            b'$' => 0xE2,
            b'@' => 0x82,
            other => other,
        })?;
    }
    Ok(bytes)
}

/// A query with at most one test.
fn asked(alloc: Global, verb: Verb, test: Option<Test>) -> Result<Query, AllocError>
    requires { IfSome test IsTestInRange }
    ensures in_range { IfOk result IsQueryInRange }
    ensures verb { IfOk result (λ query. query.verb ≡ verb) }
{
    let mut items = Vec::new(alloc);
    if let Some(only) = test {
        items.push(only)?;
    }
    Ok(Query {
        verb,
        tests: Tests::from_vec(items),
    })
}

/// A fault, behind the name of its file.
fn fault_text(alloc: Global, file: &str, fault: Fault) -> Result<String, Fail> {
    let kind = fault.kind;
    let at = fault.at;
    Ok(format!(in alloc; "{file}{kind:?} {at}")?)
}

/// What a file is found to be under cuts: the printed answer, or its first fault. Coordinates are read exactly.
fn told<R: Threads + Sync, G: Gate>(
    rt: &R,
    alloc: Global,
    bytes: &[u8],
    form: Form,
    cuts: &Cuts,
    query: &Query,
    workers: u32,
    gate: &G,
) -> Result<String, Fail>
    requires in_range { IsQueryInRange query.now }
    requires no_join { query.now.verb ≢ Verb.Join }
{
    if workers == 0 || workers > 64 {
        return Err(Fail::from("no such passes"));
    }
    if bytes.len() > 100 {
        return Err(Fail::from("too many bytes"));
    }
    if cuts.first() != base_of(bytes) {
        return Err(Fail::from("another first place"));
    }
    if cuts.last() as usize != bytes.len() {
        return Err(Fail::from("another last place"));
    }
    match answer(
        rt,
        alloc,
        bytes,
        form,
        cuts,
        query,
        7,
        Coords::Exact,
        workers,
        gate,
    ) {
        Ok(answer) => Ok(answer_text(alloc, &answer, 7)?),
        Err(RunFault::Found(fault)) => fault_text(alloc, "", fault),
        Err(RunFault::Memory) => Ok(String::from_str(alloc, "memory")?),
    }
}

/// What a file is found to be, cut at these places.
fn told_at<R: Threads + Sync>(
    rt: &R,
    alloc: Global,
    bytes: &[u8],
    form: Form,
    places: Vec<u32>,
    query: &Query,
) -> Result<String, Fail>
    requires in_range { IsQueryInRange query.now }
    requires no_join { query.now.verb ≢ Verb.Join }
{
    match Cuts::from_places(places) {
        Some(cuts) => told(rt, alloc, bytes, form, &cuts, query, 1, &Free),
        None => Err(Fail::from("no cuts")),
    }
}

/// What every pair of cuts finds a file to be, where all agree; the blocks are four, of which one is empty.
fn told_of_pairs<R: Threads + Sync>(
    rt: &R,
    alloc: Global,
    bytes: &[u8],
    query: &Query,
) -> Result<String, Fail>
    requires in_range { IsQueryInRange query.now }
    requires no_join { query.now.verb ≢ Verb.Join }
{
    if bytes.len() > 100 {
        return Err(Fail::from("too many bytes"));
    }
    let base = base_of(bytes);
    let end = bytes.len() as u32;
    let whole = vec![in alloc; base, end]?;
    let uncut = told_at(rt, alloc, bytes, Form::Wkt, whole, query)?;
    for first in base..end + 1 {
        for second in first..end + 1 {
            let places = vec![in alloc; base, first, second, second, end]?;
            let cut = told_at(rt, alloc, bytes, Form::Wkt, places, query)?;
            if cut.as_str() != uncut.as_str() {
                return Err(Fail::from("cuts that tell otherwise"));
            }
        }
    }
    Ok(uncut)
}

/// What a file is found to be in so many blocks, by so many passes.
fn told_evenly<R: Threads + Sync>(
    rt: &R,
    alloc: Global,
    bytes: &[u8],
    blocks: u32,
    query: &Query,
    workers: u32,
) -> Result<String, Fail>
    requires in_range { IsQueryInRange query.now }
    requires no_join { query.now.verb ≢ Verb.Join }
{
    let base = base_of(bytes);
    if bytes.len() > 100 || base as usize > bytes.len() || blocks == 0 || blocks > 4096 {
        return Err(Fail::from("no such blocks"));
    }
    let cuts = Cuts::even(alloc, base, bytes.len() as u32, blocks)?;
    told(rt, alloc, bytes, Form::Wkt, &cuts, query, workers, &Free)
}

/// What `select` prints over a file, with a comma behind each offset, or the file's first fault; a bar; and the file.
const FILES: &str = "|
0,|POINT (1 2)
0,16,|POINT (1 2)^~ \t~POINT (3 4)^
3,19,|\u{FEFF}POINT (1 2)^~ \t~POINT (3 4)^
3,15,|\u{FEFF}POINT (1 2)~POINT (3 4)
3,19,|\u{FEFF}\"a\" POINT (1 2)~POINT (3 4)
|\u{FEFF}
|~~^~ ~
0,12,|POINT EMPTY~LINESTRING (1 2,3 4)~
1,14,|~POINT (1 2)~~POINT (3 4)~~
Syntax 15|POINT (1e99 2)~x~POINT (1 2)
Syntax 0|x~POINT (3 4
Syntax 5|POINT^(1 2)~
Syntax 11|POINT (1 2)^^~
Ended 10|POINT (3 4~x
Ended 22|POINT (1 2)~POINT (3 4
Short 11|LINESTRING (1 2)~POINT (1e99 2)
Range 7|POINT (1e99 2)~LINESTRING (1 2)
Range 19|POINT (1 2)~POINT (1e99 2)~LINESTRING (1 2)
Scale 7|POINT (1.00000001 2)
Ring 9|POLYGON ((0 0,1 0,1 1))~
NotUtf8 14|x~POINT (1 2)~%
NotUtf8 7|POINT (%~x";

/// A file of the table under all pairs of cuts, and in 64 blocks by one pass, by four and by 64.
fn check_row<R: Threads + Sync>(rt: &R, alloc: Global, row: &str, query: &Query) -> Result<(), Fail>
    requires in_range { IsQueryInRange query.now }
    requires no_join { query.now.verb ≢ Verb.Join }
{
    let (expected, file) = row.split_once('|').ok_or("a bar")?;
    let bytes = bytes_of(alloc, file)?;
    let told = told_of_pairs(rt, alloc, bytes.as_slice(), query)?;
    if told.replace(alloc, "\n", ",")?.as_str() != expected {
        return Err(Fail::from("another answer"));
    }
    for workers in [1, 4, 64] {
        let evenly = told_evenly(rt, alloc, bytes.as_slice(), 64, query, workers)?;
        if evenly.as_str() != told.as_str() {
            return Err(Fail::from("even blocks that tell otherwise"));
        }
    }
    Ok(())
}

#[test]
fn every_cut(rt: HostRuntime) -> Result<(), Fail> {
    let query = asked(rt.alloc(), Verb::Select, None)?;
    for row in FILES.lines() {
        check_row(&rt, rt.alloc(), row, &query)?;
    }
    Ok(())
}

/// One cut of a file, at each place from its first to its last.
fn told_of_places<R: Threads + Sync>(
    rt: &R,
    alloc: Global,
    bytes: &[u8],
    form: Form,
    query: &Query,
) -> Result<String, Fail>
    requires in_range { IsQueryInRange query.now }
    requires no_join { query.now.verb ≢ Verb.Join }
{
    if bytes.len() > 100 {
        return Err(Fail::from("too many bytes"));
    }
    let base = base_of(bytes);
    let end = bytes.len() as u32;
    let mut all = String::new(alloc);
    for place in base..end + 1 {
        let places = vec![in alloc; base, place, end]?;
        let told = told_at(rt, alloc, bytes, form, places, query)?;
        if all.is_empty() {
            all = told;
        } else if all.as_str() != told.as_str() {
            return Err(Fail::from("a cut that tells otherwise"));
        }
    }
    Ok(all)
}

/// Whether `select` prints this over a file, wherever it is cut once.
fn is_told_of_places<R: Threads + Sync>(
    rt: &R,
    alloc: Global,
    file: &str,
    expected: &str,
) -> Result<bool, Fail> {
    let query = asked(alloc, Verb::Select, None)?;
    let bytes = bytes_of(alloc, file)?;
    let told = told_of_places(rt, alloc, bytes.as_slice(), Form::Wkt, &query)?;
    Ok(told.as_str() == expected)
}

#[test]
fn one_cut(rt: HostRuntime) -> Result<(), Fail> {
    let plain = "POINT (1 2)^~ \t~POINT (3 4)^";
    assert!(rt; plain.len() == 28);
    assert!(rt; is_told_of_places(&rt, rt.alloc(), plain, "0\n16\n")?);
    let marked = "\u{FEFF}POINT (1 2)^~ \t~POINT (3 4)^";
    assert!(rt; marked.len() == 31);
    assert!(rt; is_told_of_places(&rt, rt.alloc(), marked, "3\n19\n")?);
    Ok(())
}

/// What `select` prints over a file with labels, with a comma behind each offset, or the file's first fault; a bar; and
/// the file.
const LABELLED: &str = r#"0,24,43,|"Bonn"_POINT (7.1 50.7)~"Ulm" POINT (9 48)~POINT (1 2)~
0,|"a"POINT(1 2)
0,| _"a" _POINT (1 2)_ ^~
0,39,|"\"\\\/\b\f\n\r\t\u00e9" POINT EMPTY ^~"" POINT EMPTY
0,|"é€😀" POINT (1 2)
Ended 6|"Bonn"~
Ended 5|"a"  ^~x
Ended 3|"Bo~POINT (1 2)
Ended 3|"a\
Ended 6|"a\u00~
Syntax 2|"\q" POINT (1 2)
Syntax 4|"a" "b" POINT (1 2)
Syntax 3|"a"x
Syntax 2|"a^b" POINT (1 2)
Syntax 0|a" POINT (1 2)
Syntax 6|POINT "a"
Syntax 12|POINT (1 2) "a"
Ended 12|"a" POINT (1
Short 15|"a" LINESTRING (1 2)
Ring 13|"a" POLYGON ((0 0,1 0,1 1))
Range 11|"a" POINT (1e99 2)
Scale 11|"a" POINT (1.00000001 2)
NotUtf8 1|"%" POINT (1 2)~"a" POINT (1 2)
NotUtf8 3|"é$" POINT (1 2)~x
NotUtf8 19|"a" POINT (1e99 2~"$@" POINT (1 2)
NotUtf8 4|"a" % POINT (1 2)"#;

#[test]
fn labels_at_every_cut(rt: HostRuntime) -> Result<(), Fail> {
    let query = asked(rt.alloc(), Verb::Select, None)?;
    for row in LABELLED.lines() {
        check_row(&rt, rt.alloc(), row, &query)?;
    }
    Ok(())
}

/// The test of a label.
fn labelled(alloc: Global, label: &[u16]) -> Result<Test, AllocError>
    ensures { IfOk result IsTestInRange }
{
    let name = Units::from_slice(alloc, &[0x6C, 0x61, 0x62, 0x65, 0x6C])?;
    let label = Units::from_slice(alloc, label)?;
    Ok(Test::Has(name, label))
}

/// Whether `select` prints this of the lines of a file that have this label.
fn is_told_of_label<R: Threads + Sync>(
    rt: &R,
    alloc: Global,
    label: &[u16],
    file: &str,
    expected: &str,
) -> Result<bool, Fail> {
    let query = asked(alloc, Verb::Select, Some(labelled(alloc, label)?))?;
    let bytes = bytes_of(alloc, file)?;
    let told = told_of_places(rt, alloc, bytes.as_slice(), Form::Wkt, &query)?;
    Ok(told.as_str() == expected)
}

#[test]
fn lines_of_a_label(rt: HostRuntime) -> Result<(), Fail> {
    let file = r#""Bonn" POINT (7.1 50.7)~"\u0042onn" POINT EMPTY~POINT (1 2)~"Ulm" POINT (9 48)"#;
    let bonn: &[u16] = &[0x42, 0x6F, 0x6E, 0x6E];
    assert!(rt; is_told_of_label(&rt, rt.alloc(), bonn, file, "0\n24\n")?);
    let ulm: &[u16] = &[0x55, 0x6C, 0x6D];
    assert!(rt; is_told_of_label(&rt, rt.alloc(), ulm, file, "60\n")?);
    Ok(())
}

/// What `select` prints over a text of GeoJSON, with a comma behind each offset, or the text's first fault; a bar; and
/// the text.
const TEXTS: &str =
    r#"40,|{"type":"FeatureCollection","features":[{"type":"Feature","geometry":null,"properties":null}]}
1,| {"type":"LineString","coordinates":[[1,2],[3,4]]}
Syntax 1|{1 tru
Ended 8|{"type":
Twin 9|{"a":"a","a":1}
Form 0|{"type":"point"}
Ring 33|{"type":"Polygon","coordinates":[[[0,0],[1,0],[1,1]]]}
0,|{"type":"Point","é€😀":"é€😀","coordinates":[1,2]}
NotUtf8 6|{"a":"%"}
NotUtf8 2|{"@":"é€😀"}
NotUtf8 15|{"a":"é€😀$"}
NotUtf8 16|{"é€😀":"é$@é"}
NotUtf8 25|{"é€😀":"é€😀"}@"#;

/// A text of the table, cut once at each place.
fn check_text<R: Threads + Sync>(
    rt: &R,
    alloc: Global,
    row: &str,
    query: &Query,
) -> Result<(), Fail>
    requires in_range { IsQueryInRange query.now }
    requires no_join { query.now.verb ≢ Verb.Join }
{
    let (expected, text) = row.split_once('|').ok_or("a bar")?;
    let bytes = bytes_of(alloc, text)?;
    let told = told_of_places(rt, alloc, bytes.as_slice(), Form::GeoJson, query)?;
    if told.replace(alloc, "\n", ",")?.as_str() != expected {
        return Err(Fail::from("another answer"));
    }
    Ok(())
}

#[test]
fn one_cut_of_a_text(rt: HostRuntime) -> Result<(), Fail> {
    let query = asked(rt.alloc(), Verb::Select, None)?;
    for row in TEXTS.lines() {
        check_text(&rt, rt.alloc(), row, &query)?;
    }
    Ok(())
}

/// A query for the features in which `k` is `a"b}]{`.
fn asked_for_brackets(alloc: Global) -> Result<Query, Fail>
    ensures in_range { IfOk result IsQueryInRange }
    ensures verb { IfOk result (λ query. query.verb ≡ Verb.Select) }
{
    let name = Units::from_slice(alloc, &[0x6B])?;
    let value = Units::from_slice(alloc, &[0x61, 0x22, 0x62, 0x7D, 0x5D, 0x7B])?;
    Ok(asked(alloc, Verb::Select, Some(Test::Has(name, value)))?)
}

/// A feature that has the text of which a test asks, cut before its escape, within it and behind it.
#[test]
fn cuts_round_an_escape(rt: HostRuntime) -> Result<(), Fail> {
    let query = asked_for_brackets(rt.alloc())?;
    let text = r#"{"type":"Feature","properties":{"k":"a\"b}]{"},"geometry":null}"#;
    let places = vec![in rt.alloc(); 0, 38, 39, 40, 63]?;
    let bytes = text.as_bytes();
    let told = told_at(&rt, rt.alloc(), bytes, Form::GeoJson, places, &query)?;
    assert!(rt; told.as_str() == "0\n");
    Ok(())
}

/// Two blocks of a short file.
fn halves(alloc: Global, bytes: &[u8]) -> Result<Cuts, Fail>
    ensures short { IfOk result (λ cuts. length bytes.now ≤ 100) }
    ensures first { IfOk result (λ cuts. first_place cuts ≡ text_begin bytes.now) }
    ensures last { IfOk result (λ cuts. last_place cuts ≡ length bytes.now) }
{
    let base = base_of(bytes);
    if bytes.len() > 100 || base as usize > bytes.len() {
        return Err(Fail::from("too many bytes"));
    }
    Ok(Cuts::even(alloc, base, bytes.len() as u32, 2)?)
}

/// What the join of two files prints, or which of them has a fault.
fn told_joined<R: Threads + Sync>(
    rt: &R,
    alloc: Global,
    a: &str,
    form_a: Form,
    b: &str,
    form_b: Form,
) -> Result<String, Fail> {
    let query = asked(alloc, Verb::Join, None)?;
    let first = bytes_of(alloc, a)?;
    let second = bytes_of(alloc, b)?;
    let cuts_a = halves(alloc, first.as_slice())?;
    let cuts_b = halves(alloc, second.as_slice())?;
    match answer_join(
        rt,
        alloc,
        first.as_slice(),
        form_a,
        second.as_slice(),
        form_b,
        &cuts_a,
        &cuts_b,
        &query,
        7,
        Coords::Exact,
        2,
        &Free,
    ) {
        Ok(answer) => Ok(answer_text(alloc, &answer, 7)?),
        Err(JoinFault::First(fault)) => fault_text(alloc, "first ", fault),
        Err(JoinFault::Second(fault)) => fault_text(alloc, "second ", fault),
        Err(JoinFault::Memory) => Ok(String::from_str(alloc, "memory")?),
    }
}

#[test]
fn joins_of_two_forms(rt: HostRuntime) -> Result<(), Fail> {
    let lines = "POINT (1 2)~POINT (3 4)";
    let text = r#"{"type":"Point","coordinates":[3,4]}"#;
    let told = told_joined(&rt, rt.alloc(), lines, Form::Wkt, text, Form::GeoJson)?;
    assert!(rt; told.as_str() == "12 0\n");
    let told = told_joined(&rt, rt.alloc(), text, Form::GeoJson, lines, Form::Wkt)?;
    assert!(rt; told.as_str() == "0 12\n");
    let told = told_joined(&rt, rt.alloc(), lines, Form::Wkt, lines, Form::GeoJson)?;
    assert!(rt; told.as_str() == "second Syntax 0");
    Ok(())
}

/// What two files are told of where the first of them has no entries.
#[test]
fn ends_of_joins(rt: HostRuntime) -> Result<(), Fail> {
    let fault = Fault {
        kind: FaultKind::Syntax,
        at: 3,
    };
    assert!(rt; JoinFault::of_first(RunFault::Found(fault)) == JoinFault::First(fault));
    assert!(rt; JoinFault::of_first(RunFault::Memory) == JoinFault::Memory);
    Ok(())
}

/// A square of the side 2 and a point beside it, under every pair of cuts.
fn told_of_square<R: Threads + Sync>(rt: &R, alloc: Global, verb: Verb) -> Result<String, Fail>
    requires { verb ≢ Verb.Join }
{
    let query = asked(alloc, verb, None)?;
    let bytes = bytes_of(alloc, "POLYGON ((0 0,2 0,2 2,0 2,0 0))~POINT (5 -1)~")?;
    told_of_pairs(rt, alloc, bytes.as_slice(), &query)
}

fn compare_square<R: Abort + Threads + Sync + AllocGlobal>(
    rt: &R,
    verb: Verb,
    expected: &str,
) -> Result<(), Fail>
    requires { verb ≢ Verb.Join }
{
    let told = told_of_square(rt, rt.alloc(), verb)?;
    assert!(rt; told.as_str() == expected, "{expected}");
    Ok(())
}

#[test]
fn other_verbs(rt: HostRuntime) -> Result<(), Fail> {
    compare_square(&rt, Verb::Select, "0\n32\n")?;
    compare_square(&rt, Verb::Count, "2\n")?;
    compare_square(&rt, Verb::Area, "800000000000000\n")?;
    compare_square(
        &rt,
        Verb::Extent,
        "0.0000000 -1.0000000 5.0000000 2.0000000\n",
    )?;
    compare_square(
        &rt,
        Verb::Hull,
        "5.0000000 -1.0000000\n2.0000000 2.0000000\n0.0000000 2.0000000\n0.0000000 0.0000000\n",
    )
}

/// Points on one line, two of which the ends of a line across it hold.
#[test]
fn hull_at_every_cut(rt: HostRuntime) -> Result<(), Fail> {
    let query = asked(rt.alloc(), Verb::Hull, None)?;
    let bytes = bytes_of(
        rt.alloc(),
        "POINT (1 1)~POINT (3 3)~POINT (2 2)~LINESTRING (0 3,3 0)~",
    )?;
    let told = told_of_places(&rt, rt.alloc(), bytes.as_slice(), Form::Wkt, &query)?;
    let corners =
        "3.0000000 0.0000000\n3.0000000 3.0000000\n0.0000000 3.0000000\n1.0000000 1.0000000\n";
    assert!(rt; told.as_str() == corners);
    Ok(())
}

/// Points on the edge of a box, just outside it, and none.
#[test]
fn tests_of_queries(rt: HostRuntime) -> Result<(), Fail> {
    let unit = Extent {
        low: Pos { x: 0, y: 0 },
        high: Pos {
            x: 10_000_000,
            y: 10_000_000,
        },
    };
    let query = asked(rt.alloc(), Verb::Select, Some(Test::InBox(unit)))?;
    let bytes = bytes_of(
        rt.alloc(),
        "POINT (1 1)~POINT EMPTY~POINT (1.0000001 0)~POINT (0 1)",
    )?;
    let told = told_of_pairs(&rt, rt.alloc(), bytes.as_slice(), &query)?;
    assert!(rt; told.as_str() == "0\n44\n");
    Ok(())
}

/// A gate that gives up one block.
#[derive(Drop)]
struct Without {
    block: u32,
}

impl Gate for Without {
    ghost given_up = { λ gate. gate.block ∷ [] };

    fn enter(&self, _block: u32) {}

    fn gives_up(&self, block: u32) -> bool {
        block == self.block
    }
}

/// What a file of two lines is found to be in two blocks, of which the second begins at the place, by two passes under
/// the gate.
fn told_of_two<R: Threads + Sync, G: Gate>(
    rt: &R,
    alloc: Global,
    place: u32,
    gate: &G,
) -> Result<String, Fail> {
    let query = asked(alloc, Verb::Select, None)?;
    let bytes = bytes_of(alloc, "POINT (1 2)~POINT (3 4)")?;
    let Some(cuts) = Cuts::from_places(vec![in alloc; 0, place, 23]?) else {
        return Err(Fail::from("no cuts"));
    };
    told(
        rt,
        alloc,
        bytes.as_slice(),
        Form::Wkt,
        &cuts,
        &query,
        2,
        gate,
    )
}

fn compare_without<R: Abort + Threads + Sync + AllocGlobal>(
    rt: &R,
    block: u32,
    expected: &str,
) -> Result<(), Fail> {
    let told = told_of_two(rt, rt.alloc(), 12, &Without { block })?;
    assert!(rt; told.as_str() == expected, "without block {block}");
    Ok(())
}

#[test]
fn blocks_given_up(rt: HostRuntime) -> Result<(), Fail> {
    compare_without(&rt, 0, "memory")?;
    compare_without(&rt, 1, "memory")?;
    compare_without(&rt, 2, "0\n12\n")
}

/// A gate that counts how often each of two blocks is entered, and holds block 0 until block 1 was entered, for some
/// time.
#[derive(Drop)]
struct Held {
    entries: [AtomicU64; 2],
    gave_up_waiting: AtomicU64,
}

impl Held {
    fn sees_block_1(&self) -> bool {
        for _ in 0..100_000_000u64 {
            if self.entries[1].load(Ordering::SeqCst) > 0 {
                return true;
            }
        }
        false
    }
}

impl Gate for Held {
    ghost given_up = { λ _. [] };

    fn enter(&self, block: u32) {
        if block < 2 {
            self.entries[block as usize].fetch_add(1, Ordering::SeqCst);
        }
        if block == 0 && !self.sees_block_1() {
            self.gave_up_waiting.store(1, Ordering::SeqCst);
        }
    }

    fn gives_up(&self, _block: u32) -> bool {
        false
    }
}

#[test]
fn two_blocks_at_once(rt: HostRuntime) -> Result<(), Fail> {
    let gate = Held {
        entries: [AtomicU64::new(0), AtomicU64::new(0)],
        gave_up_waiting: AtomicU64::new(0),
    };
    let told = told_of_two(&rt, rt.alloc(), 5, &gate)?;
    assert!(rt; told.as_str() == "0\n12\n");
    assert!(rt; gate.entries[0].load(Ordering::SeqCst) == 1);
    assert!(rt; gate.entries[1].load(Ordering::SeqCst) == 1);
    assert!(rt; gate.gave_up_waiting.load(Ordering::SeqCst) == 0);
    Ok(())
}

/// What the page of `at_run` shows.
#[test]
fn the_example_of_the_crate(rt: HostRuntime) -> Result<(), Fail> {
    let alloc = rt.alloc();
    let query = asked(alloc, Verb::Count, None)?;
    let file = b"POINT (1 2)\nPOINT (3 4)\n";
    let (form, how) = (Form::Wkt, Coords::Exact);
    let cuts = Cuts::even(alloc, 0, 24, 2)?;
    let found = answer(&rt, alloc, file, form, &cuts, &query, 7, how, 2, &Free)?;
    assert_eq!(rt; answer_text(alloc, &found, 7)?.as_str(), "2\n");
    Ok(())
}
