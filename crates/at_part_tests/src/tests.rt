//! A table of whole runs over a shelf in memory.

ghost use Rattle.std.specs.Prelude.{◌≤◌};

use at_crew::Free;
use at_io::{MemShelf, MemSink, NamedFile, PutFail};
use at_part::part_top;
use at_text::{Bytes, Word};
use std::alloc::{AllocGlobal, Global};
use std::process::Abort;
use std::random::RandomSource;
use std::sync::Wait;
use std::test::Fail;
use std::thread::Threads;

/// The room of each sink.
const AMPLE: u32 = 1 << 20;

const USAGE: &str = "usage: atgis-part lines|items WORDS..\n";

/// A shelf with the one file `p`, whose reads give so many bytes, and on which a call may fail.
fn shelf_of(alloc: Global, file: &[u8], fails: &[u32], piece: u32) -> Result<MemShelf, Fail>
    requires { 1 ≤ piece }
{
    let file = NamedFile {
        name: Word::from_string(String::from_str(alloc, "p")?),
        bytes: Bytes::from_vec(Vec::from_slice(alloc, file)?),
    };
    let mut files = Vec::new(alloc);
    files.push(file)?;
    Ok(MemShelf::new(files, Vec::from_slice(alloc, fails)?, piece))
}

/// One run over a shelf with the file `p`, of which a read gives three bytes.
#[derive(Clone, Copy)]
struct Run<'a> {
    words: &'a [&'a str],
    file: &'a [u8],
    /// The calls on the shelf that fail.
    failing_calls: &'a [u32],
    /// The put of the output that fails.
    failing_put: Option<PutFail>,
    status: u8,
    out: &'a str,
    err: &'a str,
}

/// A run over a collection of one feature, which each row changes.
const PLAIN: Run<'static> = Run {
    words: &["items", "count", "p"],
    file: br#"{"type":"FeatureCollection","features":[{"type":"Feature"}]}"#,
    failing_calls: &[],
    failing_put: None,
    status: 0,
    out: "1\n",
    err: "",
};

/// A run over lines.
const LINES: Run<'static> = Run {
    words: &["lines", "--form", "seq", "select", "p"],
    file: b"\n{\"type\":\"Feature\"}\n\n{\"type\":\n\"Feature\"}",
    ..PLAIN
};

/// A sink with ample room, one put of which may fail.
fn sink_of(alloc: Global, failing: Option<PutFail>) -> Result<MemSink, Fail> {
    let mut fails = Vec::new(alloc);
    let Some(fail) = failing else {
        return Ok(MemSink::new(alloc, AMPLE, fails).ok().ok_or("a sink")?);
    };
    fails.push(fail)?;
    Ok(MemSink::new(alloc, AMPLE, fails).ok().ok_or("a sink")?)
}

/// Runs one row, and compares what it writes.
fn run_row<R: Abort + Threads + Sync + Wait + RandomSource + AllocGlobal>(
    rt: &R,
    alloc: Global,
    row: &Run<'_>,
) -> Result<(), Fail> {
    let asked = row.words;
    let mut words = Vec::new(alloc);
    for word in asked {
        words.push(String::from_str(alloc, word)?)?;
    }
    let shelf = shelf_of(alloc, row.file, row.failing_calls, 3)?;
    let mut out = sink_of(alloc, row.failing_put)?;
    let mut err = sink_of(alloc, None)?;
    let status = part_top(rt, alloc, &words, shelf, &mut out, &mut err, &Free);
    assert_eq!(rt;
        err.written(),
        row.err.as_bytes(),
        "the error output of {asked:?}"
    );
    assert_eq!(rt;
        out.written(),
        row.out.as_bytes(),
        "the output of {asked:?}"
    );
    assert_eq!(rt; status, row.status, "the status of {asked:?}");
    Ok(())
}

const REFUSED: Run<'static> = Run {
    status: 2,
    out: "",
    err: USAGE,
    ..PLAIN
};

const FAULTY: Run<'static> = Run {
    status: 1,
    out: "",
    ..PLAIN
};

/// Runs of the program: the filters, the words, and failures.
#[test]
fn parts_of_files(rt: HostRuntime) -> Result<(), Fail> {
    let rows = [
        PLAIN,
        Run {
            file: b"{\"type\":\"FeatureCollection\",\"features\":[{\"type\":\"Feature\"} ]\n,\t\"old\":[]}",
            err: "p: Syntax at 63\n",
            ..FAULTY
        },
        Run {
            words: &["items", "area", "p"],
            file: br#"{"type":"FeatureCollection","old":[],"features":[{"type":"Feature"}],"old":[]}"#,
            err: "p: Syntax at 69\n",
            ..FAULTY
        },
        Run {
            status: 1,
            out: "",
            err: "p: Ended at 29\n",
            ..LINES
        },
        Run {
            file: b"\n{\"type\":\"Feature\"}\r\n\n{\"type\":\"Feature\"}\n",
            out: "1\n22\n",
            ..LINES
        },
        Run {
            file: b"\n{\"type\":\x1e\"Feature\"}",
            status: 1,
            out: "",
            err: "p: Syntax at 9\n",
            ..LINES
        },
        Run {
            words: &[],
            ..REFUSED
        },
        Run {
            words: &["item", "count", "p"],
            ..REFUSED
        },
        Run {
            words: &["count", "p"],
            ..REFUSED
        },
        Run {
            words: &["items", "counts", "p"],
            err: "query: at 5\n",
            ..REFUSED
        },
        Run {
            words: &["lines", "join", "p"],
            err: "files: join takes two, every other verb one\n",
            ..REFUSED
        },
        Run {
            failing_calls: &[1],
            status: 3,
            out: "",
            err: "p: read failed\n",
            ..PLAIN
        },
        Run {
            failing_put: Some(PutFail { call: 0, kept: 1 }),
            status: 4,
            out: "1",
            err: "output: write failed\n",
            ..PLAIN
        },
    ];
    for row in &rows {
        run_row(&rt, rt.alloc(), row)?;
    }
    Ok(())
}
