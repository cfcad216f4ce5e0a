//! Tables of whole runs over a shelf in memory.

use crate::line_tests::words_in;
use at_cli::{tell_no_memory, top};
use at_crew::Free;
use at_io::{Failed, MemShelf, MemSink, NamedFile, PutFail, Shelf, Sink};
use at_text::{Bytes, Word};
use std::alloc::{AllocGlobal, Global};
use std::process::Abort;
use std::random::RandomSource;
use std::sync::Wait;
use std::test::Fail;
use std::thread::Threads;

/// One run of the program over a shelf with one file, of which a read gives two bytes.
#[derive(Clone, Copy)]
struct Run<'a> {
    words: &'a [&'a str],
    name: &'a str,
    file: &'a [u8],
    /// The calls on the shelf that fail.
    failing_calls: &'a [u32],
    /// The put of the output that fails, and the one of the error output.
    failing_put: Option<PutFail>,
    failing_line: Option<PutFail>,
    status: u8,
    out: &'a str,
    err: &'a str,
}

/// A run over one point, which each row changes.
const PLAIN: Run<'static> = Run {
    words: &["count", "p.wkt"],
    name: "p.wkt",
    file: b"POINT (1 2)",
    failing_calls: &[],
    failing_put: None,
    failing_line: None,
    status: 0,
    out: "1\n",
    err: "",
};

/// The same run where a read fails.
const READ_FAILED: Run<'static> = Run {
    status: 3,
    out: "",
    err: "p.wkt: read failed\n",
    ..PLAIN
};

/// The room of each sink.
const AMPLE: u32 = 1 << 20;

const USAGE: &str =
    "usage: atgis [--form geojson|wkt|seq] [--coords exact|round] [--digits 7|9] [--blocks 1..4096] \
     [--workers 1..64] [--feed 1..1048576] QUERY FILE [SECOND]\n";

const NAMES: &str = "files: join takes two, every other verb one\n";

fn shelf_of(alloc: Global, row: &Run<'_>) -> Result<MemShelf, Fail> {
    let file = NamedFile {
        name: Word::from_string(String::from_str(alloc, row.name)?),
        bytes: Bytes::from_vec(Vec::from_slice(alloc, row.file)?),
    };
    let mut files = Vec::new(alloc);
    files.push(file)?;
    Ok(MemShelf::new(files, Vec::from_slice(alloc, row.failing_calls)?, 2))
}

/// A sink with ample room, one put of which may fail.
fn sink_of(alloc: Global, failing: Option<PutFail>) -> Result<MemSink, Fail> {
    let mut fails = Vec::new(alloc);
    let Some(fail) = failing else {
        return Ok(MemSink::new(alloc, AMPLE, fails).ok().ok_or("a sink")?);
    };
    fails.push(fail)?;
    Ok(MemSink::new(alloc, AMPLE, fails).ok().ok_or("a sink")?)
}

fn words_of(alloc: Global, words: &[&str]) -> Result<Vec<String>, Fail> {
    let mut all = Vec::new(alloc);
    for word in words {
        all.push(String::from_str(alloc, word)?)?;
    }
    Ok(all)
}

/// Runs each row, and compares what it writes.
fn run_rows<R: Abort + Threads + Sync + Wait + RandomSource + AllocGlobal>(
    rt: &R,
    alloc: Global,
    rows: &[Run<'_>],
) -> Result<(), Fail> {
    for row in rows {
        let asked = row.words;
        let words = words_of(alloc, asked)?;
        let mut shelf = shelf_of(alloc, row)?;
        let mut out = sink_of(alloc, row.failing_put)?;
        let mut err = sink_of(alloc, row.failing_line)?;
        let status = top(rt, alloc, &words, &mut shelf, &mut out, &mut err, &Free);
        assert_eq!(rt;
            err.written(),
            row.err.as_bytes(),
            "the error output of {asked:?}"
        );
        assert_eq!(rt;
            out.written(),
            row.out.as_bytes(),
            "the output of {asked:?}"
        );
        assert_eq!(rt; status, row.status, "the status of {asked:?}");
    }
    Ok(())
}

/// What happens where the shelf or a sink fails.
#[test]
fn failing_files_and_sinks(rt: HostRuntime) -> Result<(), Fail> {
    let rows = [
        Run {
            failing_put: Some(PutFail { call: 0, kept: 1 }),
            status: 4,
            out: "1",
            err: "output: write failed\n",
            ..PLAIN
        },
        Run {
            failing_calls: &[2],
            ..READ_FAILED
        },
        Run {
            failing_calls: &[0],
            ..READ_FAILED
        },
        Run {
            failing_calls: &[8],
            ..PLAIN
        },
        Run {
            words: &["count", "q.wkt"],
            status: 3,
            out: "",
            err: "q.wkt: read failed\n",
            ..PLAIN
        },
        Run {
            words: &[],
            failing_line: Some(PutFail { call: 0, kept: 3 }),
            status: 2,
            out: "",
            err: "usa",
            ..PLAIN
        },
        Run {
            file: b"x",
            failing_line: Some(PutFail { call: 1, kept: 1 }),
            status: 1,
            out: "",
            err: "p.wkt:",
            ..PLAIN
        },
    ];
    run_rows(&rt, rt.alloc(), &rows)
}

// A row of a table has the words with a bar between each two, the file's name, its text, and the status with what is
// written: to the output where it is 0, and else to the error output. `~` stands for a line feed, `^` for a carriage
// return, `%` for the byte FF.

/// Each verb with its printed text, with tests and without.
const ANSWERS: &str = "count|e.wkt => e.wkt =>  => 0 0~
--form=wkt|count|--|-e => -e =>  => 0 0~
select|f.wkt => f.wkt => POINT (1 2) => 0 0~
extent|f.wkt => f.wkt => POINT (1.00000001 2) => 0 1.0000000 2.0000000 1.0000000 2.0000000~
count|f.wkt => f.wkt => POINT (30000000 0) => 0 1~
count|f.wkt => f.wkt => POINT (0e999999999999 0) => 0 1~
select where meets POLYGON ((0 0,10 0,10 10,0 10,0 0),(4 4,6 4,6 6,4 6,4 4))|f.wkt => f.wkt => POINT (1 1)~POINT (0 5)~POINT (4 5)~POINT (5 5)~ => 0 0~12~24~
select where meets LINESTRING (0 0,2 2)|f.wkt => f.wkt => LINESTRING (2 2,3 0)~LINESTRING (1 1,5 5)~LINESTRING (3 3,5 5)~ => 0 0~21~
area|f.wkt => f.wkt => POLYGON ((0 0,2 0,2 2,0 2,0 0),(0.5 0.5,1 0.5,1 1,0.5 1,0.5 0.5)) => 0 750000000000000~
select where in box(0 0,1 1)|f.wkt => f.wkt => POINT (1 1)~POINT EMPTY~POINT (1.0000001 0)~ => 0 0~
select|f.wkt => f.wkt => POINT (1 2)^~ \t~POINT (3 4)^ => 0 0~16~
count|f.wkt => f.wkt => POINT (1 2)^~ \t~POINT (3 4)^ => 0 2~
extent|f.wkt => f.wkt => multipoint z ((1 2 3),EMPTY,(4 5 6)) => 0 1.0000000 2.0000000 4.0000000 5.0000000~
extent|f.wkt => f.wkt => MULTIPOINT (1 2,4 5) => 0 1.0000000 2.0000000 4.0000000 5.0000000~
extent|f.wkt => f.wkt => POINT EMPTY => 0 empty~
extent where in box(0 0,2 2)|f.wkt => f.wkt => POINT (3 3) => 0 empty~
area where meets box(9 9,10 10)|f.wkt => f.wkt => POLYGON ((0 0,2 0,2 2,0 2,0 0)) => 0 0~
count where has \"a\" = \"b\"|f.wkt => f.wkt => POINT (1 2) => 0 0~
count where in box(0 0,5 5) and meets box(1 2,9 9)|f.wkt => f.wkt => POINT (1 2)~POINT (0 0) => 0 1~
select|f.wkt => f.wkt => \u{FEFF}POINT (1 2)~POINT (3 4) => 0 3~15~
--form|wkt|select|f => f => POINT (1 2) => 0 0~
";

/// Files of lines with faults, each with its first one.
const FAULTS: &str =
    "--coords|exact|count|f.wkt => f.wkt => POINT (1.00000001 2) => 1 f.wkt: Scale at 7~
count|f.wkt => f.wkt => POINT (30000000.0000001 0) => 1 f.wkt: Range at 7~
count|f.wkt => f.wkt => POLYGON ((0 0,1 0,1 1)) => 1 f.wkt: Ring at 9~
count|f.wkt => f.wkt => LINESTRING (1 2) => 1 f.wkt: Short at 11~
count|f.wkt => f.wkt => POINT (1 2~POINT (3 4) => 1 f.wkt: Ended at 10~
count|f.wkt => f.wkt => POINT Z (1 2) => 1 f.wkt: Syntax at 12~
count|f.wkt => f.wkt => LINESTRING (1 2,3 4 5) => 1 f.wkt: Syntax at 20~
select|f.wkt => f.wkt => POINT (% => 1 f.wkt: NotUtf8 at 7~
area|f.wkt => f.wkt => \u{FEFF}POINT (x) => 1 f.wkt: Syntax at 10~
extent where in box(0 0,1 1)|f.wkt => f.wkt => LINESTRING (1 2)~POINT (1 2 => 1 f.wkt: Ended at 27~
";

/// Words, queries and counts of names that are refused. The name on the shelf is none that is asked for.
const REFUSALS: &str = "count => x =>  => 2 usage
-h|count|e.wkt => x =>  => 2 usage
--form|wkt|--form=wkt|count|e.wkt => x =>  => 2 usage
count|e.wkt|--blocks => x =>  => 2 usage
--blocks|0|count|e.wkt => x =>  => 2 usage
count|@g:01 => x =>  => 2 usage
--coords=|count|e.wkt => x =>  => 2 usage
--digits=07|count|e.wkt => x =>  => 2 usage
--digits=9|--digits|9|count|e.wkt => x =>  => 2 usage
count|e.wkt|--digits => x =>  => 2 usage
count where meets box(2 2,1 1)|e.wkt => x =>  => 2 query: at 18~
counts|e.wkt => x =>  => 2 query: at 5~
count where|e.wkt => x =>  => 2 query: at 11~
|e.wkt => x =>  => 2 query: at 0~
counts|e.wkt|e.wkt => x =>  => 2 query: at 5~
counts|e.json => x =>  => 2 query: at 5~
@g:x|e.wkt => x =>  => 2 query: at 0~
join|e.wkt => x =>  => 2 files
count|e.wkt|e.wkt => x =>  => 2 files
count|e.json|e.json => x =>  => 2 files
";

/// Files in GeoJSON, each with its answer or its first fault.
const GEOJSON: &str = "count|e.json => e.json =>  => 1 e.json: Ended at 0~
count|f.json => f.json => {\"type\":\"FeatureCollection\",\"features\":[ => 1 f.json: Ended at 40~
select|f.json => f.json => {\"type\":\"FeatureCollection\",\"features\":[{\"type\":\"Feature\",\"geometry\":null,\"properties\":null}]} => 0 40~
count|f.json => f.json => {\"a\":tru} => 1 f.json: Syntax at 8~
count|f.json => f.json => {\"a\":-} => 1 f.json: Syntax at 6~
count|f.json => f.json => 01 => 1 f.json: Syntax at 1~
count|f.json => f.json => tru => 1 f.json: Ended at 3~
count|f.json => f.json => {\"a\":1,\"\\u0061\":2} => 1 f.json: Twin at 7~
count|f.json => f.json => {} => 1 f.json: Form at 0~
select where has \"k\" = \"a\\\"b}]{\"|f.json => f.json => {\"type\":\"Feature\",\"properties\":{\"k\":\"a\\\"b}]{\"},\"geometry\":null} => 0 0~
count|f.json => f.json => {\"type\":\"Feature\",\"properties\":{\"x\":{\"type\":\"Feature\",\"geometry\":{\"type\":\"Point\",\"coordinates\":[1]},\"properties\":null}},\"geometry\":null} => 0 1~
count|f.json => f.json => {\"type\":\"FeatureCollection\",\"features\":[{\"geometry\":{\"coordinates\":[],\"type\":\"Polygon\"},\"type\":\"Feature\"},{\"type\":\"Feature\",\"geometry\":null}]} => 0 2~
extent|f.json => f.json => {\"type\":\"FeatureCollection\",\"features\":[{\"geometry\":{\"coordinates\":[],\"type\":\"Polygon\"},\"type\":\"Feature\"},{\"type\":\"Feature\",\"geometry\":null}]} => 0 empty~
count|f.json => f.json => {\"type\":\"Polygon\",\"coordinates\":[[[0,0],[1,0],[1,1],[0,1]]]} => 1 f.json: Ring at 33~
count|f.json => f.json => {\"type\":\"Point\",\"coordinates\":[1]} => 1 f.json: Form at 30~
count|f.json => f.json => {}x       % => 1 f.json: NotUtf8 at 10~
count|f.json => f.json => \u{FEFF}{}x       % => 1 f.json: NotUtf8 at 13~
count|f.json => f.json => \u{FEFF}{}x => 1 f.json: Syntax at 5~
--form|geojson|count|p.wkt => p.wkt => {\"type\":\"Point\",\"coordinates\":[1,2]} => 0 1~
--blocks|4096|--workers|64|count|f.json => f.json => {}x => 1 f.json: Syntax at 2~
select|g.json => g.json => {~\"type\": \"FeatureCollection\",~\"name\": \"places\",~\"crs\": { \"type\": \"name\", \"properties\": { \"name\": \"urn:ogc:def:crs:OGC:1.3:CRS84\" } },~\"features\": [~{ \"type\": \"Feature\", \"properties\": { \"name\": \"Ulm\" }, \"geometry\": { \"type\": \"Point\", \"coordinates\": [ 9.987654321012345, 48.4 ] } },~{ \"type\": \"Feature\", \"properties\": { \"name\": \"Bonn\" }, \"geometry\": { \"type\": \"Point\", \"coordinates\": [ 7.1, 50.733333333333334 ] } },~{ \"type\": \"Feature\", \"properties\": { \"name\": \"Jena\" }, \"geometry\": null }~]~}~ => 0 149~282~416~
extent|g.json => g.json => {~\"type\": \"FeatureCollection\",~\"name\": \"places\",~\"crs\": { \"type\": \"name\", \"properties\": { \"name\": \"urn:ogc:def:crs:OGC:1.3:CRS84\" } },~\"features\": [~{ \"type\": \"Feature\", \"properties\": { \"name\": \"Ulm\" }, \"geometry\": { \"type\": \"Point\", \"coordinates\": [ 9.987654321012345, 48.4 ] } },~{ \"type\": \"Feature\", \"properties\": { \"name\": \"Bonn\" }, \"geometry\": { \"type\": \"Point\", \"coordinates\": [ 7.1, 50.733333333333334 ] } },~{ \"type\": \"Feature\", \"properties\": { \"name\": \"Jena\" }, \"geometry\": null }~]~}~ => 0 7.1000000 48.4000000 9.9876543 50.7333333~
select where has \"name\" = \"Bonn\"|g.json => g.json => {~\"type\": \"FeatureCollection\",~\"name\": \"places\",~\"crs\": { \"type\": \"name\", \"properties\": { \"name\": \"urn:ogc:def:crs:OGC:1.3:CRS84\" } },~\"features\": [~{ \"type\": \"Feature\", \"properties\": { \"name\": \"Ulm\" }, \"geometry\": { \"type\": \"Point\", \"coordinates\": [ 9.987654321012345, 48.4 ] } },~{ \"type\": \"Feature\", \"properties\": { \"name\": \"Bonn\" }, \"geometry\": { \"type\": \"Point\", \"coordinates\": [ 7.1, 50.733333333333334 ] } },~{ \"type\": \"Feature\", \"properties\": { \"name\": \"Jena\" }, \"geometry\": null }~]~}~ => 0 282~
--coords|exact|select|g.json => g.json => {~\"type\": \"FeatureCollection\",~\"name\": \"places\",~\"crs\": { \"type\": \"name\", \"properties\": { \"name\": \"urn:ogc:def:crs:OGC:1.3:CRS84\" } },~\"features\": [~{ \"type\": \"Feature\", \"properties\": { \"name\": \"Ulm\" }, \"geometry\": { \"type\": \"Point\", \"coordinates\": [ 9.987654321012345, 48.4 ] } },~{ \"type\": \"Feature\", \"properties\": { \"name\": \"Bonn\" }, \"geometry\": { \"type\": \"Point\", \"coordinates\": [ 7.1, 50.733333333333334 ] } },~{ \"type\": \"Feature\", \"properties\": { \"name\": \"Jena\" }, \"geometry\": null }~]~}~ => 1 g.json: Scale at 251~
";

/// Files that the program makes, and joins.
const MADE: &str = "count|@g:720 => p.wkt => POINT (1 2) => 0 720~
area|@g:720 => p.wkt => POINT (1 2) => 0 144000000000000000~
extent|@g:720 => p.wkt => POINT (1 2) => 0 0.5000000 0.0000000 360.5000000 2.0000000~
select|@g:2 => p.wkt => POINT (1 2) => 0 41~176~
count|@w:0 => p.wkt => POINT (1 2) => 0 0~
join|@w:0|@g:2 => p.wkt => POINT (1 2) => 0 
join|@w:2|@g:2 => p.wkt => POINT (1 2) => 0 0 41~32 41~32 176~
--form|wkt|count|@g:1 => p.wkt => POINT (1 2) => 1 @g:1: Syntax at 0~
join|@w:1|x.wkt => p.wkt => POINT (1 2) => 3 x.wkt: read failed~
join|x.wkt|@w:1 => p.wkt => POINT (1 2) => 3 x.wkt: read failed~
count|@g:1000 => p.wkt => POINT (1 2) => 0 1000~
join|f.wkt|f.wkt => f.wkt => POINT (0 0)~POINT (5 5)~ => 0 0 0~12 12~
join where in box(0 0,1 1)|f.wkt|f.wkt => f.wkt => POINT (0 0)~LINESTRING (0 0,5 5)~ => 0 0 0~0 12~
join|f.wkt|@w:1 => f.wkt => LINESTRING (1 2) => 1 f.wkt: Short at 11~
join|@w:1|f.wkt => f.wkt => POINT (x) => 1 f.wkt: Syntax at 7~
join|f.wkt|f.wkt => f.wkt => POINT (x) => 1 f.wkt: Syntax at 7~
join|e.json|f.wkt => f.wkt => POINT (x) => 3 e.json: read failed~
join|f.wkt|@g:1 => f.wkt => POINT (1 1)~POINT (2 2)~ => 0 0 41~
";

/// GeoJSON text sequences.
const SEQUENCES: &str =
    "--form|seq|select|s => s => \u{1E}{\"type\":\"Point\",\"coordinates\":[1,2]}~\u{1E}{\"type\":\"Point\",\"coordinates\":[3,4]}~ => 0 1~39~
--form=seq|select|s => s => \u{1E}{\"type\":\"Point\",\"coordinates\":[1,2]}~\u{1E}{\"type\":\"Point\",\"coordinates\":[3,4]} => 0 1~39~
--form|seq|count|s => s =>  => 0 0~
--form|seq|count|s => s => \u{1E}\u{1E}~ => 0 0~
--form|seq|count|s => s => x\u{1E}{} => 1 s: Syntax at 0~
--form|seq|count|s => s => \u{1E}\u{FEFF}{} => 1 s: Syntax at 1~
--form|seq|count|s => s => \u{1E}{\"type\":\"Point\",\"coordinates\":[1,2]\u{1E}{\"type\":\"Point\",\"coordinates\":[3,4]}~ => 1 s: Ended at 36~
--form|seq|join|s|s => s => \u{1E}{\"type\":\"Point\",\"coordinates\":[1,2]}~\u{1E}{\"type\":\"Point\",\"coordinates\":[3,4]}~ => 0 1 1~39 39~
--form|seq|join where in box(0 0,2 3)|s|s => s => \u{1E}{\"type\":\"Point\",\"coordinates\":[1,2]}~\u{1E}{\"type\":\"Point\",\"coordinates\":[3,4]}~ => 0 1 1~
--form|seq|extent|s => s => \u{1E}{\"type\":\"Point\",\"coordinates\":[1,2]}~\u{1E}{\"type\":\"Point\",\"coordinates\":[3,4]}~ => 0 1.0000000 2.0000000 3.0000000 4.0000000~
--form|seq|select|s => s => \u{FEFF} ^~\u{1E} ~\u{1E}{\"type\":\"Point\",\"coordinates\":[1,2]} => 0 10~
--form|seq|select|s => s => \u{1E}{\"type\":\"FeatureCollection\",\"features\":[{\"type\":\"Feature\",\"geometry\":null}]}~ => 0 41~
--form|seq|select where has \"a\" = \"b\"|s => s => \u{1E}{\"type\":\"Feature\"}~\u{1E}{\"type\":\"Feature\",\"properties\":{\"a\":\"b\"}}~ => 0 21~
--form|seq|count|s => s => {\"type\":\"Point\",\"coordinates\":[1,2]}~ => 1 s: Syntax at 0~
--form|seq|count|s => s => \u{1E}{\"type\":\"Feature\"}{\"type\":\"Feature\"}~ => 1 s: Syntax at 19~
--form|seq|count|s => s => \u{1E}{}~\u{1E}x~ => 1 s: Syntax at 5~
--form|seq|count|s => s => \u{1E}{}~\u{1E}{% => 1 s: NotUtf8 at 6~
--form|seq|count|s => s => \u{1E}{\"type\":\"Point\",\"coordinates\":[1,2]}~\u{1E}{\"type\":\"Point\",\"coordinates\":[1]}~ => 1 s: Form at 69~
--form|seq|count|s => s => \u{1E}{ => 1 s: Ended at 2~
--form|seq|join|s|s => s => \u{1E}{} => 1 s: Form at 1~
--form|seq|count|@g:1 => s =>  => 1 @g:1: Syntax at 0~
--form|seq|join|@w:1|s => s =>  => 1 @w:1: Syntax at 0~
--blocks|1|--form|seq|select|s => s => \u{1E}{\"type\":\"Point\",\"coordinates\":[1,2]}~\u{1E}{\"type\":\"Point\",\"coordinates\":[3,4]}~ => 0 1~39~
--blocks|4096|--workers|64|--form|seq|select|s => s => \u{1E}{\"type\":\"Point\",\"coordinates\":[1,2]}~\u{1E}{\"type\":\"Point\",\"coordinates\":[3,4]}~ => 0 1~39~
count|s => s => \u{1E}{\"type\":\"Point\",\"coordinates\":[1,2]}~\u{1E}{\"type\":\"Point\",\"coordinates\":[3,4]}~ => 1 s: Syntax at 0~
--form|seqs|count|s => s => \u{1E}{\"type\":\"Point\",\"coordinates\":[1,2]}~\u{1E}{\"type\":\"Point\",\"coordinates\":[3,4]}~ => 2 usage
";

/// Any count of blocks and workers gives the same answer.
const BLOCKS: &str =
    "--blocks|1|select|f.wkt => f.wkt => POINT (1 1)~POINT (0 5)~POINT (4 5)~POINT (5 5)~ => 0 0~12~24~36~
--blocks|3|select|f.wkt => f.wkt => POINT (1 1)~POINT (0 5)~POINT (4 5)~POINT (5 5)~ => 0 0~12~24~36~
--blocks=64|select|f.wkt => f.wkt => POINT (1 1)~POINT (0 5)~POINT (4 5)~POINT (5 5)~ => 0 0~12~24~36~
--blocks|4096|--workers|64|select|f.wkt => f.wkt => POINT (1 1)~POINT (0 5)~POINT (4 5)~POINT (5 5)~ => 0 0~12~24~36~
--blocks|4096|count|f.wkt => f.wkt =>  => 0 0~
--blocks|4096|count|f.wkt => f.wkt => POINT (1 2~POINT (3 4) => 1 f.wkt: Ended at 10~
";

/// Files in chunks of any size give the same answer, and the same first fault.
const CHUNKS: &str =
    "--feed|1|select|f.json => f.json => {\"type\":\"FeatureCollection\",\"features\":[{\"type\":\"Feature\",\"geometry\":null,\"properties\":null}]} => 0 40~
--feed|7|select|g.json => g.json => {~\"type\": \"FeatureCollection\",~\"name\": \"places\",~\"crs\": { \"type\": \"name\", \"properties\": { \"name\": \"urn:ogc:def:crs:OGC:1.3:CRS84\" } },~\"features\": [~{ \"type\": \"Feature\", \"properties\": { \"name\": \"Ulm\" }, \"geometry\": { \"type\": \"Point\", \"coordinates\": [ 9.987654321012345, 48.4 ] } },~{ \"type\": \"Feature\", \"properties\": { \"name\": \"Bonn\" }, \"geometry\": { \"type\": \"Point\", \"coordinates\": [ 7.1, 50.733333333333334 ] } },~{ \"type\": \"Feature\", \"properties\": { \"name\": \"Jena\" }, \"geometry\": null }~]~}~ => 0 149~282~416~
--feed|1|count|f.json => f.json => {1 tru => 1 f.json: Syntax at 1~
--feed|1|count|f.json => f.json => \u{FEFF}{}x       % => 1 f.json: NotUtf8 at 13~
--feed|0|count|e.wkt => e.wkt =>  => 2 usage
--feed|2|count|e.wkt => e.wkt =>  => 0 0~
--feed|2|count|e.json => e.json =>  => 1 e.json: Ended at 0~
--feed|5|--form|seq|count|s => s =>  => 2 usage
--feed|5|count|@g:720 => x =>  => 0 720~
--feed=1048576|area|@g:720 => x =>  => 0 144000000000000000~
--feed|3|--blocks|4096|--workers|64|select|f.wkt => f.wkt => POINT (1 1)~POINT (0 5)~POINT (4 5)~POINT (5 5)~ => 0 0~12~24~36~
--feed|5|join|@w:2|@g:2 => x =>  => 0 0 41~32 41~32 176~
--feed|1|join|a.wkt|a.wkt => a.wkt => POINT (x) => 1 a.wkt: Syntax at 7~
--feed|4|join|@w:1|b.wkt => b.wkt => POINT (x) => 1 b.wkt: Syntax at 7~
";

/// Nine decimals: the unit of both files, of the query's numbers and of what is printed.
const NINE: &str =
    "--digits|9|extent|f.wkt => f.wkt => POINT (1.000000001 2) => 0 1.000000001 2.000000000 1.000000001 2.000000000~
--digits=9|count|f.wkt => f.wkt => POINT (300000 0) => 0 1~
--digits=9|count|f.wkt => f.wkt => POINT (300000.000000001 0) => 1 f.wkt: Range at 7~
--digits=9|area|@g:720 => x =>  => 0 1440000000000000000000~
--digits|9|extent|g.json => g.json => {~\"type\": \"FeatureCollection\",~\"name\": \"places\",~\"crs\": { \"type\": \"name\", \"properties\": { \"name\": \"urn:ogc:def:crs:OGC:1.3:CRS84\" } },~\"features\": [~{ \"type\": \"Feature\", \"properties\": { \"name\": \"Ulm\" }, \"geometry\": { \"type\": \"Point\", \"coordinates\": [ 9.987654321012345, 48.4 ] } },~{ \"type\": \"Feature\", \"properties\": { \"name\": \"Bonn\" }, \"geometry\": { \"type\": \"Point\", \"coordinates\": [ 7.1, 50.733333333333334 ] } },~{ \"type\": \"Feature\", \"properties\": { \"name\": \"Jena\" }, \"geometry\": null }~]~}~ => 0 7.100000000 48.400000000 9.987654321 50.733333333~
--digits=9|--coords|exact|select|g.json => g.json => {~\"type\": \"FeatureCollection\",~\"name\": \"places\",~\"crs\": { \"type\": \"name\", \"properties\": { \"name\": \"urn:ogc:def:crs:OGC:1.3:CRS84\" } },~\"features\": [~{ \"type\": \"Feature\", \"properties\": { \"name\": \"Ulm\" }, \"geometry\": { \"type\": \"Point\", \"coordinates\": [ 9.987654321012345, 48.4 ] } },~{ \"type\": \"Feature\", \"properties\": { \"name\": \"Bonn\" }, \"geometry\": { \"type\": \"Point\", \"coordinates\": [ 7.1, 50.733333333333334 ] } },~{ \"type\": \"Feature\", \"properties\": { \"name\": \"Jena\" }, \"geometry\": null }~]~}~ => 1 g.json: Scale at 251~
--digits=9|count where in box(0 0,300001 1)|e.wkt => e.wkt =>  => 2 query: at 23~
--digits|8|count|e.wkt => e.wkt =>  => 2 usage
--digits=9|select where in box(1.000000001 0,2 1)|f.wkt => f.wkt => POINT (1.000000001 0)~POINT (1 0)~ => 0 0~
select where in box(1.000000001 0,2 1)|f.wkt => f.wkt => POINT (1.000000001 0)~POINT (1 0)~ => 0 0~22~
--digits=9|count where meets POINT (1.0000000005 0)|f.wkt => f.wkt => POINT (1 0)~POINT (1.000000001 0)~ => 0 1~
--digits=9|count where in box(0 0,300000 300000)|f.wkt => f.wkt => POINT (300000 300000) => 0 1~
--digits=9|--coords=exact|count where in box(0 0,1.0000000001 1)|e.wkt => e.wkt =>  => 2 query: at 23~
--coords=exact|count where in box(0 0,1.000000001 1)|e.wkt => e.wkt =>  => 2 query: at 23~
--digits=9|--coords=exact|count where in box(0 0,1.000000001 1)|e.wkt => e.wkt =>  => 0 0~
--digits=9|count where meets POINT (300001 0)|e.wkt => e.wkt =>  => 2 query: at 25~
--digits=9|area|f.wkt => f.wkt => POLYGON ((0 0,2 0,2 2,0 2,0 0),(0.5 0.5,1 0.5,1 1,0.5 1,0.5 0.5)) => 0 7500000000000000000~
--digits=9|area|f.wkt => f.wkt => POLYGON ((-3e5 -3e5,3e5 -3e5,3e5 3e5,-3e5 3e5,-3e5 -3e5)) => 0 720000000000000000000000000000~
--digits=9|area|f.wkt => f.wkt => POLYGON ((0 0,1e-9 0,0 1e-9,0 0)) => 0 1~
area|f.wkt => f.wkt => POLYGON ((0 0,1e-9 0,0 1e-9,0 0)) => 0 0~
--digits=9|extent|f.wkt => f.wkt => POINT EMPTY => 0 empty~
--digits=9|extent|@g:720 => x =>  => 0 0.500000000 0.000000000 360.500000000 2.000000000~
--digits=9|extent|@w:720 => x =>  => 0 0.000000000 0.000000000 360.000000000 2.000000000~
--digits=9|join|@w:2|@g:2 => x =>  => 0 0 41~32 41~32 176~
--digits=9|join|f.wkt|f.wkt => f.wkt => POINT (0.000000001 0)~POINT (0.000000002 0)~ => 0 0 0~22 22~
join|f.wkt|f.wkt => f.wkt => POINT (0.000000001 0)~POINT (0.000000002 0)~ => 0 0 0~0 22~22 0~22 22~
--digits=9|join|f.wkt|@g:1 => f.wkt => POINT (300000.1 0) => 1 f.wkt: Range at 7~
--digits=9|join|@g:1|f.wkt => f.wkt => POINT (300000.1 0) => 1 f.wkt: Range at 7~
";

/// Numbers at the edges of both ranges, and ties at the last digit.
const EDGES: &str = "count|f.wkt => f.wkt => POINT (-30000000.00000005 3e7) => 0 1~
count|f.wkt => f.wkt => POINT (30000000.000000050000000001 0) => 1 f.wkt: Range at 7~
count|f.wkt => f.wkt => POINT (0 -30000000.0000001) => 1 f.wkt: Range at 9~
--digits=7|count|f.wkt => f.wkt => POINT (30000000 0) => 0 1~
--digits=9|count|f.wkt => f.wkt => POINT (30000000 0) => 1 f.wkt: Range at 7~
--digits=9|count|f.wkt => f.wkt => POINT (-300000.0000000005 3e5) => 0 1~
--digits=9|count|f.wkt => f.wkt => POINT (300000.00000000050000000001 0) => 1 f.wkt: Range at 7~
--digits=9|count|f.wkt => f.wkt => POINT (0 -300000.000000001) => 1 f.wkt: Range at 9~
--digits=9|count|f.wkt => f.wkt => POINT (299999.9999999995 0) => 0 1~
--digits=9|--coords=exact|count|f.wkt => f.wkt => POINT (300000 -299999.999999999) => 0 1~
--digits=9|--coords=exact|count|f.wkt => f.wkt => POINT (300000.0000000001 0) => 1 f.wkt: Range at 7~
--digits=9|--coords=exact|count|f.wkt => f.wkt => POINT (299999.9999999999 0) => 1 f.wkt: Scale at 7~
--coords=exact|count|f.wkt => f.wkt => POINT (1.00000001 2) => 1 f.wkt: Scale at 7~
--digits=9|--coords=exact|count|f.wkt => f.wkt => POINT (1.00000001 2e-9) => 0 1~
--digits=9|count|f.json => f.json => {\"type\":\"Point\",\"coordinates\":[300000,-3e5]} => 0 1~
--digits=9|count|f.json => f.json => {\"type\":\"Point\",\"coordinates\":[300000.000000001,0]} => 1 f.json: Range at 31~
--digits=9|--coords=exact|count|f.json => f.json => {\"type\":\"Point\",\"coordinates\":[1.000000001,1e-10]} => 1 f.json: Scale at 43~
--digits=9|extent|f.wkt => f.wkt => MULTIPOINT (1.0000000005 2.0000000015) => 0 1.000000000 2.000000002 1.000000000 2.000000002~
--digits=9|extent|f.wkt => f.wkt => MULTIPOINT (-1.0000000005 -0.0000000005,-1.0000000015 0.0000000015) => 0 -1.000000002 0.000000000 -1.000000000 0.000000002~
--digits=9|extent|f.wkt => f.wkt => POINT (1.00000000050000000000000000001 2.0000000014999999999999999999) => 0 1.000000001 2.000000001 1.000000001 2.000000001~
--digits=9|extent|f.json => f.json => {\"type\":\"Point\",\"coordinates\":[-2.0000000025,5e-10]} => 0 -2.000000002 0.000000000 -2.000000002 0.000000000~
--digits=9|extent|f.wkt => f.wkt => MULTIPOINT (-300000 0.000000001,300000 -0.000000001) => 0 -300000.000000000 -0.000000001 300000.000000000 0.000000001~
";

/// The bytes that a text of a table stands for.
fn bytes_of(alloc: Global, text: &str) -> Result<Vec<u8>, Fail> {
    let mut bytes = Vec::new(alloc);
    for byte in text.as_bytes() {
        bytes.push(match *byte {
            b'~' => b'\n',
            b'^' => b'\r',
            b'%' => 0xFF,
            other => other,
        })?;
    }
    Ok(bytes)
}

/// The line that a row stands for.
fn line_in(alloc: Global, text: &str) -> Result<Vec<u8>, Fail> {
    match text {
        "usage" => Ok(Vec::from_slice(alloc, USAGE.as_bytes())?),
        "files" => Ok(Vec::from_slice(alloc, NAMES.as_bytes())?),
        _ => bytes_of(alloc, text),
    }
}

/// A shelf with the one file.
fn shelf_with(alloc: Global, name: &str, text: &str) -> Result<MemShelf, Fail> {
    let file = NamedFile {
        name: Word::from_string(String::from_str(alloc, name)?),
        bytes: Bytes::from_vec(bytes_of(alloc, text)?),
    };
    let mut files = Vec::new(alloc);
    files.push(file)?;
    Ok(MemShelf::new(files, Vec::new(alloc), 2))
}

/// Runs the words over the shelf, and compares the status and what is written.
fn compare_run<R: Abort + Threads + Sync + Wait + RandomSource + AllocGlobal>(
    rt: &R,
    alloc: Global,
    words: &[String],
    shelf: &mut MemShelf,
    wanted: &str,
) -> Result<(), Fail> {
    let (status, text) = wanted.split_once(' ').ok_or("a status")?;
    let line = line_in(alloc, text)?;
    let mut out = sink_of(alloc, None)?;
    let mut err = sink_of(alloc, None)?;
    let got = top(rt, alloc, words, shelf, &mut out, &mut err, &Free);
    assert!(rt; format!(in alloc; "{got}")?.as_str() == status, "{words:?}");
    let (told, silent) = if got == 0 {
        (out.written(), err.written())
    } else {
        (err.written(), out.written())
    };
    assert!(rt; told == line.as_slice(), "{words:?}");
    assert!(rt; silent.is_empty(), "{words:?}");
    Ok(())
}

/// Runs each row of a table.
fn run_table<R: Abort + Threads + Sync + Wait + RandomSource + AllocGlobal>(
    rt: &R,
    alloc: Global,
    table: &str,
) -> Result<(), Fail> {
    for row in table.lines() {
        let (words, rest) = row.split_once(" => ").ok_or("words")?;
        let (name, rest) = rest.split_once(" => ").ok_or("a name")?;
        let (text, wanted) = rest.split_once(" => ").ok_or("a text")?;
        let words = words_in(alloc, words)?;
        let mut shelf = shelf_with(alloc, name, text)?;
        compare_run(rt, alloc, &words, &mut shelf, wanted)?;
    }
    Ok(())
}

#[test]
fn answers_of_queries(rt: HostRuntime) -> Result<(), Fail> {
    run_table(&rt, rt.alloc(), ANSWERS)
}

#[test]
fn files_with_faults(rt: HostRuntime) -> Result<(), Fail> {
    run_table(&rt, rt.alloc(), FAULTS)
}

#[test]
fn refusals(rt: HostRuntime) -> Result<(), Fail> {
    run_table(&rt, rt.alloc(), REFUSALS)
}

#[test]
fn geojson_files(rt: HostRuntime) -> Result<(), Fail> {
    run_table(&rt, rt.alloc(), GEOJSON)
}

#[test]
fn made_files_and_joins(rt: HostRuntime) -> Result<(), Fail> {
    run_table(&rt, rt.alloc(), MADE)
}

#[test]
fn sequences(rt: HostRuntime) -> Result<(), Fail> {
    run_table(&rt, rt.alloc(), SEQUENCES)
}

#[test]
fn any_blocks_and_workers(rt: HostRuntime) -> Result<(), Fail> {
    run_table(&rt, rt.alloc(), BLOCKS)
}

#[test]
fn any_chunks(rt: HostRuntime) -> Result<(), Fail> {
    run_table(&rt, rt.alloc(), CHUNKS)
}

#[test]
fn nine_decimals(rt: HostRuntime) -> Result<(), Fail> {
    run_table(&rt, rt.alloc(), NINE)
}

#[test]
fn edges_of_ranges(rt: HostRuntime) -> Result<(), Fail> {
    run_table(&rt, rt.alloc(), EDGES)
}

/// A shelf whose files never end and don't tell what they hold.
#[derive(Drop)]
struct Endless {
    begins: u64,
    taken: u64,
    broken: u64,
    faults: u64,
}

impl Shelf for Endless {
    ghost use Rattle.std.specs.Prelude.{None};

    ghost files = { λ _. None };

    ghost left = { λ _. None };

    ghost taken = { λ s. s.taken };

    ghost begins = { λ s. s.begins };

    ghost named = { λ _. None };

    ghost broken = { λ s. s.broken };

    ghost faults = { λ s. s.faults };

    fn begin(&mut self, _name: &str) -> Result<(), Failed> {
        self.begins = self.begins.saturating_add(1);
        Ok(())
    }

    fn read(&mut self, room: &mut [u8]) -> Result<usize, Failed> {
        if self.begins == 0 {
            return Ok(0);
        }
        let Some(taken) = self.taken.checked_add(room.len() as u64) else {
            self.faults = self.faults.saturating_add(1);
            self.broken = self.begins;
            return Err(Failed);
        };
        self.taken = taken;
        Ok(room.len())
    }
}

/// A file of more than 2^28 bytes is read up to its first byte past that, and refused.
#[test]
fn a_file_too_large(rt: HostRuntime) -> Result<(), Fail> {
    let alloc = rt.alloc();
    let words = words_of(alloc, &["count", "big.wkt"])?;
    let mut shelf = Endless {
        begins: 0,
        taken: 0,
        broken: 0,
        faults: 0,
    };
    let mut out = sink_of(alloc, None)?;
    let mut err = sink_of(alloc, None)?;
    let status = top(&rt, alloc, &words, &mut shelf, &mut out, &mut err, &Free);
    assert_eq!(rt; status, 6);
    assert_eq!(rt; shelf.taken, (1 << 28) + 1);
    assert_eq!(rt;
        err.written(),
        b"big.wkt: more than 268435456 bytes\n".as_slice()
    );
    Ok(())
}

/// Want of memory has a line and a status of its own.
#[test]
fn no_memory(rt: HostRuntime) -> Result<(), Fail> {
    let mut err = sink_of(rt.alloc(), None)?;
    assert_eq!(rt; tell_no_memory(&mut err), 5);
    assert_eq!(rt; err.written(), b"out of memory\n".as_slice());
    Ok(())
}
