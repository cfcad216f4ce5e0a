//! Tables of words, and the lines that they say.

use at_cli::{Line, WordsEnd, form_of, read_words};
use at_fixed::Coords;
use at_run::Form;
use std::alloc::Global;
use std::process::Abort;
use std::test::Fail;

// A row of a table has words with a bar between each two, an arrow, and what they say: form, coordinates, digits,
// blocks, workers and the bytes of a chunk, 0 where there is none, and behind bars the positionals.

/// Positionals, and the end word.
const POSITIONALS: &str = "count|e.wkt => none round 7 64 4 0|count|e.wkt
join|a.wkt|b.wkt => none round 7 64 4 0|join|a.wkt|b.wkt
count => refused
 => refused
join|a|b|c => refused
| => none round 7 64 4 0||
||=> => none round 7 64 4 0|||=>
--|count|-e => none round 7 64 4 0|count|-e
count|--|-e => none round 7 64 4 0|count|-e
count|e.wkt|-- => none round 7 64 4 0|count|e.wkt
count|--|-- => none round 7 64 4 0|count|--
count|--|--form => none round 7 64 4 0|count|--form
count|--|--blocks=0 => none round 7 64 4 0|count|--blocks=0
--|--|--|-- => none round 7 64 4 0|--|--|--
--|--|--|--|-- => refused
-- => refused
--|count => refused
--form=wkt|count|--|-e => wkt round 7 64 4 0|count|-e
count|--|e.wkt|--form|wkt => refused
-h|count|e.wkt => refused
--help => refused
--version|count|e.wkt => refused
count|- => refused
-|count|e.wkt => refused
count|e.wkt|--- => refused
--=|count|e.wkt => refused
count|e.wkt|-x => refused
count|a-b => none round 7 64 4 0|count|a-b
count|=--form => none round 7 64 4 0|count|=--form
count| -e => none round 7 64 4 0|count| -e
";

/// Options: their names, their two forms, and how often they are given.
const OPTIONS: &str = "--form|wkt|count|e => wkt round 7 64 4 0|count|e
--form|geojson|count|e => geojson round 7 64 4 0|count|e
--form=geojson|count|e => geojson round 7 64 4 0|count|e
count|--form=wkt|e => wkt round 7 64 4 0|count|e
count|e|--form|wkt => wkt round 7 64 4 0|count|e
--form|wkt|--form=wkt|count|e => refused
--form|wkt|--form|geojson|count|e => refused
--blocks=1|--blocks=1|count|e => refused
count|e|--blocks => refused
count|e|--form => refused
--form|--|count|e => refused
--form|--blocks|count|e => refused
--form=|count|e => refused
--form||count|e => refused
--form=wkt=|count|e => refused
--form=WKT|count|e => refused
--form|seq|count|e => seq round 7 64 4 0|count|e
--form=seq|count|e => seq round 7 64 4 0|count|e
--form|seqs|count|e => refused
--form|Seq|count|e => refused
--form|se|count|e => refused
--form|geojsonseq|count|e => refused
--Form|wkt|count|e => refused
--for|wkt|count|e => refused
--forms|wkt|count|e => refused
--form:wkt|count|e => refused
-form|wkt|count|e => refused
--coords|exact|count|e => none exact 7 64 4 0|count|e
--coords=round|count|e => none round 7 64 4 0|count|e
--coords|nearest|count|e => refused
--coords=|count|e => refused
--workers=64|--blocks|4096|select|--coords=exact|f|--form|wkt => wkt exact 7 4096 64 0|select|f
--workers=64|--blocks|4096|select|--digits=9|--coords=exact|f|--form|wkt => wkt exact 9 4096 64 0|select|f
";

/// The numbers of blocks and workers, and the names of made files.
const NUMBERS: &str = "--blocks|1|count|e => none round 7 1 4 0|count|e
--blocks=4096|count|e => none round 7 4096 4 0|count|e
--blocks|0|count|e => refused
--blocks|4097|count|e => refused
--blocks|01|count|e => refused
--blocks|+1|count|e => refused
--blocks|-1|count|e => refused
--blocks=|count|e => refused
--blocks| 1|count|e => refused
--blocks|1.0|count|e => refused
--blocks|4294967297|count|e => refused
--blocks|18446744073709551617|count|e => refused
--workers=1|count|e => none round 7 64 1 0|count|e
--workers|64|count|e => none round 7 64 64 0|count|e
--workers|0|count|e => refused
--workers|65|count|e => refused
count|@g:0 => none round 7 64 4 0|count|@g:0
count|@w:1000000 => none round 7 64 4 0|count|@w:1000000
count|@g:1000001 => refused
count|@g:01 => refused
count|@g:00 => refused
count|@g: => refused
count|@w:-1 => refused
count|@w:5.wkt => refused
count|--|@w:x => refused
count|@G:x => none round 7 64 4 0|count|@G:x
count|@in => none round 7 64 4 0|count|@in
join|a.wkt|@g:1e3 => refused
join|@w:2|@g:2 => none round 7 64 4 0|join|@w:2|@g:2
@g:x|e => none round 7 64 4 0|@g:x|e
";

/// The digits of a coordinate.
const DIGITS: &str = "--digits|9|count|e => none round 9 64 4 0|count|e
--digits=9|count|e => none round 9 64 4 0|count|e
--digits|7|count|e => none round 7 64 4 0|count|e
--digits=7|count|e => none round 7 64 4 0|count|e
count|--digits|9|e => none round 9 64 4 0|count|e
count|e|--digits=9 => none round 9 64 4 0|count|e
count|--|--digits=8 => none round 7 64 4 0|count|--digits=8
--digits|9|--digits=9|count|e => refused
--digits=7|--digits|9|count|e => refused
count|e|--digits => refused
--digits|count|e => refused
--digits|--|count|e => refused
--digits|--digits=9|count|e => refused
--digits=|count|e => refused
--digits||count|e => refused
--digits|8|count|e => refused
--digits=0|count|e => refused
--digits=07|count|e => refused
--digits=09|count|e => refused
--digits=+9|count|e => refused
--digits=-9|count|e => refused
--digits=9=|count|e => refused
--digits=9.0|count|e => refused
--digits| 9|count|e => refused
--digits|9 |count|e => refused
--digits|79|count|e => refused
--digits|265|count|e => refused
--digits|nine|count|e => refused
--digit|9|count|e => refused
--Digits|9|count|e => refused
--digits9|count|e => refused
-digits|9|count|e => refused
";

/// The bytes of a chunk.
const FEEDS: &str = "--feed|1|count|e => none round 7 64 4 1|count|e
--feed=1048576|count|e => none round 7 64 4 1048576|count|e
count|e|--feed|7 => none round 7 64 4 7|count|e
join|a|--feed=5|b => none round 7 64 4 5|join|a|b
--feed=5|--form=wkt|count|e => wkt round 7 64 4 5|count|e
--form|geojson|--feed|5|count|e => geojson round 7 64 4 5|count|e
--feed|5|--blocks=2|--workers=3|count|e => none round 7 2 3 5|count|e
count|--|--feed=5 => none round 7 64 4 0|count|--feed=5
--feed|0|count|e => refused
--feed=1048577|count|e => refused
--feed=01|count|e => refused
--feed=+1|count|e => refused
--feed=-1|count|e => refused
--feed=|count|e => refused
--feed||count|e => refused
--feed= 5|count|e => refused
--feed=5.0|count|e => refused
--feed=4294967297|count|e => refused
--feed=5|--feed=5|count|e => refused
--feed|5|--feed|6|count|e => refused
count|e|--feed => refused
--feed|count|e => refused
--feed|--|count|e => refused
--feeds=5|count|e => refused
--fee=5|count|e => refused
--Feed=5|count|e => refused
-feed|5|count|e => refused
--feed=5|--form=seq|count|e => refused
--form|seq|--feed|5|count|e => refused
--form=seq|--feed=5|join|a|b => refused
";

fn form_name(form: Form) -> &'static str {
    match form {
        Form::GeoJson => "geojson",
        Form::Wkt => "wkt",
        Form::Seq => "seq",
    }
}

/// A line as a row has it.
fn line_text(alloc: Global, line: &Line) -> Result<String, Fail> {
    let form = line.form.map_or("none", form_name);
    let how = if line.how == Coords::Exact {
        "exact"
    } else {
        "round"
    };
    let digits = line.digits;
    let blocks = line.blocks;
    let workers = line.workers;
    let feed = line.feed.unwrap_or(0);
    let query = line.query.as_str();
    let first = line.first.as_str();
    let mut text = format!(in alloc;
        "{form} {how} {digits} {blocks} {workers} {feed}|{query}|{first}"
    )?;
    if let Some(second) = &line.second {
        text.push_str("|")?;
        text.push_str(second.as_str())?;
    }
    Ok(text)
}

/// The words of a row.
pub(crate) fn words_in(alloc: Global, text: &str) -> Result<Vec<String>, Fail> {
    let mut words = Vec::new(alloc);
    for word in text.split('|') {
        words.push(String::from_str(alloc, word)?)?;
    }
    Ok(words)
}

/// What the words say, as a row has it.
fn answer_text(alloc: Global, words: &[String]) -> Result<String, Fail> {
    match read_words(alloc, words) {
        Ok(line) => line_text(alloc, &line),
        Err(WordsEnd::Refused) => Ok(String::from_str(alloc, "refused")?),
        Err(WordsEnd::Memory) => Ok(String::from_str(alloc, "memory")?),
    }
}

/// Reads the words of each row, and compares what they say.
fn read_rows(rt: &impl Abort, alloc: Global, table: &str) -> Result<(), Fail> {
    for row in table.lines() {
        let (words, wanted) = row.split_once(" => ").ok_or("no row")?;
        let words = words_in(alloc, words)?;
        let answer = answer_text(alloc, &words)?;
        assert!(rt; answer.as_str() == wanted, "{row}");
    }
    Ok(())
}

#[test]
fn positionals(rt: HostRuntime) -> Result<(), Fail> {
    let none = answer_text(rt.alloc(), &[])?;
    assert!(rt; none.as_str() == "refused");
    read_rows(&rt, rt.alloc(), POSITIONALS)
}

#[test]
fn options(rt: HostRuntime) -> Result<(), Fail> {
    read_rows(&rt, rt.alloc(), OPTIONS)
}

#[test]
fn numbers(rt: HostRuntime) -> Result<(), Fail> {
    read_rows(&rt, rt.alloc(), NUMBERS)
}

#[test]
fn digits(rt: HostRuntime) -> Result<(), Fail> {
    read_rows(&rt, rt.alloc(), DIGITS)
}

#[test]
fn feeds(rt: HostRuntime) -> Result<(), Fail> {
    read_rows(&rt, rt.alloc(), FEEDS)
}

/// Names and their forms where none is said.
const FORMS: &str = "e.wkt => wkt
.wkt => wkt
e.WKT => geojson
e.wkt| => geojson
wkt => geojson
e.json => geojson
@w:7 => wkt
@g:7 => geojson
x@w:7 => geojson
 => geojson
e.geojsons => geojson
e.geojsonl => geojson
e.seq => geojson
@s:7 => geojson
";

/// Compares the form of each name.
fn compare_forms(rt: &impl Abort, line: &Line, table: &str) -> Result<(), Fail> {
    for row in table.lines() {
        let (name, wanted) = row.split_once(" => ").ok_or("no row")?;
        assert!(rt; form_name(form_of(line, name)) == wanted, "{row}");
    }
    Ok(())
}

/// The line that the words of a row say.
fn line_in(alloc: Global, text: &str) -> Result<Line, Fail> {
    Ok(read_words(alloc, &words_in(alloc, text)?)?)
}

#[test]
fn forms_of_files(rt: HostRuntime) -> Result<(), Fail> {
    let alloc = rt.alloc();
    compare_forms(&rt, &line_in(alloc, "count|e")?, FORMS)?;
    let wkt = line_in(alloc, "--form=wkt|count|e")?;
    compare_forms(&rt, &wkt, "e.json => wkt\n@g:7 => wkt\ne.wkt => wkt\n")?;
    let geojson = line_in(alloc, "--form=geojson|count|e")?;
    compare_forms(&rt, &geojson, "e.wkt => geojson\n@w:7 => geojson\n")?;
    let seq = line_in(alloc, "--form=seq|count|e")?;
    compare_forms(&rt, &seq, "e.json => seq\ne.wkt => seq\n@g:7 => seq\n")
}
