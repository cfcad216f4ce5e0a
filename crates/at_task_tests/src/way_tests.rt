//! Small files in chunks of every size, with each call pending in turn.

use crate::asking::{asked, told};
use at_query::Verb;
use at_run::Form;
use std::alloc::AllocGlobal;
use std::random::RandomSource;
use std::sync::Wait;
use std::test::Fail;

/// Files of GeoJSON, and what is told where their features are counted. Some end in an escape, in a byte order mark, or
/// in the midst of a character.
const TEXTS: [(&[u8], &str); 17] = [
    (b"", "Ended 0"),
    (br#"{"type":"Point","coordinates":[1,2]}"#, "1\n"),
    (
        br#"{"typ\u0065":"F\u0065ature\u0043ollection","f\u0065atures":[]}"#,
        "0\n",
    ),
    (
        br#"{"features":[{"type":"Feature"}],"type":"FeatureCollection"}"#,
        "1\n",
    ),
    (br#"{"type":"Feature","\u0067eometry":[]}"#, "Form 34"),
    (br#"{"a":1,"\u0061":2}"#, "Twin 7"),
    (br#"{"type":"Point","coordinates":[1e99,2]"#, "Ended 38"),
    (
        b"{\"type\":\"Feature\"}\n{\"type\":\"Feature\"}",
        "Syntax 19",
    ),
    (
        br#"{"type":"MultiLineString","coordinates":[[[1,2],[3,4]], [ ]]}"#,
        "Short 56",
    ),
    (b"\"\\", "Ended 2"),
    (br#""\u00e"#, "Ended 6"),
    (br#""\ud83d"#, "Ended 7"),
    (b"\"\xF0\x9F\x98", "NotUtf8 1"),
    (b"\xEF\xBB", "NotUtf8 0"),
    (b"\xEF\xBB\xBF", "Ended 3"),
    (b"\xEF\xBB\xBF{\"\xFF\"}", "NotUtf8 5"),
    (b"[1,,\"\xC3\"]", "NotUtf8 5"),
];

/// The same for files of lines.
const LINES: [(&[u8], &str); 16] = [
    (b"", "0\n"),
    (b"POINT (1 2)\r\nPOINT (3 4)", "2\n"),
    (b" \t\n\n", "0\n"),
    (b"POINT (1 2)\nPOINT (3 4)\n\n", "2\n"),
    (b"GEOMETRYCOLLECTION (POINT (1 2))\n", "1\n"),
    (b"GEOMETRYCOLLECTIO", "Ended 17"),
    (b"\xEF\xBB\xBFPOINT (1 2", "Ended 13"),
    (b"\xEF\xBB\xBF\n\nPO", "Ended 7"),
    (b"\xEF\xBB", "NotUtf8 0"),
    (b"POINT Z M (1 2 3)", "Syntax 8"),
    (b"POINT (1 2)\nPOINT (x)\n", "Syntax 19"),
    (b"LINESTRING (1 2)\nPOINT (1 2", "Ended 27"),
    (b"POLYGON ((0 0,1 0,1 1))", "Ring 9"),
    (b"POINT (\xFF", "NotUtf8 7"),
    (b"POINT (1 2)\n\"a\xC3", "NotUtf8 14"),
    (b"\"\xC3\n\xA9\" POINT (1 2)\n", "NotUtf8 1"),
];

/// Whether a count of a file in chunks of that size is told to be the text, where these calls are pending.
fn is_told<R: Wait + RandomSource + AllocGlobal>(
    rt: &R,
    file: (bool, &[u8], &str),
    size: u32,
    waits: &[u32],
) -> Result<bool, Fail> {
    let (is_lines, bytes, text) = file;
    let form = if is_lines { Form::Wkt } else { Form::GeoJson };
    let query = asked(rt.alloc(), Verb::Count);
    let found = told(rt, bytes, form, query, size, waits, 1 + size % 5)?;
    Ok(found.as_str() == text)
}

/// Whether the same is told of a file in chunks of every size up to its length and one more, where each second call is
/// pending; and in chunks of two and of five bytes, where each call is pending in turn and no other.
fn is_told_always<R: Wait + RandomSource + AllocGlobal>(
    rt: &R,
    file: (bool, &[u8], &str),
) -> Result<bool, Fail> {
    let most = (file.1.len().min(1_000) as u32).saturating_add(2);
    let mut seconds = Vec::new(rt.alloc());
    for call in 0..most {
        seconds.push(call.saturating_mul(2))?;
    }
    for size in 1..most {
        if !is_told(rt, file, size, seconds.as_slice())? {
            return Ok(false);
        }
    }
    for size in [2u32, 5] {
        for call in 0..most {
            if !is_told(rt, file, size, &[call])? {
                return Ok(false);
            }
            if call.saturating_mul(size) > most {
                break;
            }
        }
    }
    Ok(true)
}

/// How many files are told so always, up to the first that isn't.
fn count_always<R: Wait + RandomSource + AllocGlobal>(
    rt: &R,
    is_lines: bool,
    files: &[(&[u8], &str)],
) -> Result<usize, Fail> {
    for file in 0..files.len() {
        let (bytes, text) = files[file];
        if !is_told_always(rt, (is_lines, bytes, text))? {
            return Ok(file);
        }
    }
    Ok(files.len())
}

#[test]
fn texts_in_every_way(rt: HostRuntime) -> Result<(), Fail> {
    assert_eq!(rt; count_always(&rt, false, &TEXTS)?, 17);
    Ok(())
}

#[test]
fn lines_in_every_way(rt: HostRuntime) -> Result<(), Fail> {
    assert_eq!(rt; count_always(&rt, true, &LINES)?, 16);
    Ok(())
}
