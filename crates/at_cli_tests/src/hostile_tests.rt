//! A shelf or a sink of which one call fails, and a file that is too large.

use at_cli::top;
use at_crew::Free;
use at_io::{MemShelf, MemSink, NamedFile, PutFail, RepeatShelf, Shelf};
use at_text::{Bytes, Word};
use std::alloc::{AllocGlobal, Global};
use std::process::Abort;
use std::random::RandomSource;
use std::sync::Wait;
use std::test::Fail;
use std::thread::Threads;

/// A sink with room for 2^20 bytes, one put of which may fail.
fn sink_of(alloc: Global, failing: Option<PutFail>) -> Result<MemSink, Fail> {
    let mut fails = Vec::new(alloc);
    let Some(fail) = failing else {
        return Ok(MemSink::new(alloc, 1 << 20, fails).ok().ok_or("a sink")?);
    };
    fails.push(fail)?;
    Ok(MemSink::new(alloc, 1 << 20, fails).ok().ok_or("a sink")?)
}

/// A shelf with the file `a.wkt` of one point, of whose calls one fails and each read of which gives two bytes.
fn shelf_of(alloc: Global, failing_call: u32) -> Result<MemShelf, Fail> {
    let file = NamedFile {
        name: Word::from_string(String::from_str(alloc, "a.wkt")?),
        bytes: Bytes::from_vec(Vec::from_slice(alloc, b"POINT (1 2)")?),
    };
    let mut files = Vec::new(alloc);
    files.push(file)?;
    let mut fails = Vec::new(alloc);
    fails.push(failing_call)?;
    Ok(MemShelf::new(files, fails, 2))
}

/// What a run writes to its output, and its status. What it writes to its error output has to be the line.
fn output_of<R: Abort + Threads + Sync + Wait + RandomSource + AllocGlobal, S: Shelf>(
    rt: &R,
    alloc: Global,
    asked: (&str, &str),
    shelf: &mut S,
    failing_put: Option<PutFail>,
    line: &str,
) -> Result<(u8, MemSink), Fail> {
    let mut words = Vec::new(alloc);
    words.push(String::from_str(alloc, asked.0)?)?;
    words.push(String::from_str(alloc, asked.1)?)?;
    let mut out = sink_of(alloc, failing_put)?;
    let mut err = sink_of(alloc, None)?;
    let status = top(rt, alloc, &words, shelf, &mut out, &mut err, &Free);
    assert_eq!(rt; err.written(), line.as_bytes(), "the line of {asked:?}");
    Ok((status, out))
}

/// Eleven bytes are read in eight calls by twos: a begin, six reads, and one that finds the end. Whichever fails, the
/// run ends with the line of its file. A ninth isn't made.
#[test]
fn each_call_on_a_shelf_fails(rt: HostRuntime) -> Result<(), Fail> {
    let asked = ("count", "a.wkt");
    for call in 0..8 {
        let mut shelf = shelf_of(rt.alloc(), call)?;
        let line = "a.wkt: read failed\n";
        let (status, out) = output_of(&rt, rt.alloc(), asked, &mut shelf, None, line)?;
        assert_eq!(rt; status, 3, "call {call}");
        assert!(rt; out.written().is_empty(), "call {call}");
    }
    let mut shelf = shelf_of(rt.alloc(), 8)?;
    let (status, out) = output_of(&rt, rt.alloc(), asked, &mut shelf, None, "")?;
    assert_eq!(rt; status, 0);
    assert_eq!(rt; out.written(), b"1\n".as_slice());
    Ok(())
}

/// An answer of some 150,000 bytes is put in pieces of 65,536 bytes. Where one fails, the front that the sink keeps of
/// it is the last that is written.
#[test]
fn each_put_of_an_answer_fails(rt: HostRuntime) -> Result<(), Fail> {
    let asked = ("select", "@w:20000");
    let mut shelf = shelf_of(rt.alloc(), 0)?;
    let (status, whole) = output_of(&rt, rt.alloc(), asked, &mut shelf, None, "")?;
    assert_eq!(rt; status, 0);
    let rows: [(u32, u32, usize); 2] = [(0, 0, 0), (1, 10, 65_546)];
    for (call, kept, length) in rows {
        let fail = Some(PutFail { call, kept });
        let line = "output: write failed\n";
        let (status, out) = output_of(&rt, rt.alloc(), asked, &mut shelf, fail, line)?;
        assert_eq!(rt; status, 4, "put {call}");
        assert_eq!(rt; out.written().len(), length, "put {call}");
        assert!(rt; whole.written().starts_with(out.written()), "put {call}");
    }
    Ok(())
}

/// A file of one byte more than a file may have, none of which is stored.
#[test]
fn one_byte_too_many(rt: HostRuntime) -> Result<(), Fail> {
    let name = String::from_str(rt.alloc(), "big")?;
    let mut shelf = RepeatShelf::new(name, b' ', (1 << 28) + 1);
    let line = "big: more than 268435456 bytes\n";
    let (status, out) = output_of(&rt, rt.alloc(), ("count", "big"), &mut shelf, None, line)?;
    assert_eq!(rt; status, 6);
    assert!(rt; out.written().is_empty());
    Ok(())
}
