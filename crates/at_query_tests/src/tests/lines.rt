//! Query lines: where each stops, what is wrong with them, and what they say.

ghost use Rattle.std.specs.Prelude.{IfOk};
ghost use Rattle.at_query.specs.Ranges.{IsQueryInRange};

use super::*;
use at_fixed::Coords;
use at_query::{QueryEnd, read_query};

/// Lines, and the offset at which each stops being a query.
static STOPS: [(&str, u32); 82] = [
    ("", 0),
    ("x", 0),
    ("Select", 0),
    (" select", 0),
    ("s", 1),
    ("selec", 5),
    ("selecT", 5),
    ("selects", 6),
    ("select ", 7),
    ("select  where", 7),
    ("count w", 7),
    ("count where", 11),
    ("count where ", 12),
    ("count Where in box(0 0,1 1)", 6),
    ("area where x", 11),
    ("area where  in box(0 0,1 1)", 11),
    ("extents", 6),
    ("Hull", 0),
    ("hul", 3),
    ("hulls", 4),
    ("hull ", 5),
    ("joi", 3),
    ("join where in", 13),
    ("join where in ", 14),
    ("join where in b", 15),
    ("join where in box", 17),
    ("join where in box(", 18),
    ("join where in Box(0 0,1 1)", 14),
    ("join where in  box(0 0,1 1)", 14),
    ("join where in box( 0 0,1 1)", 18),
    ("join where in box(-", 19),
    ("join where in box(-x", 19),
    ("join where in box(0", 19),
    ("join where in box(0,0 1 1)", 19),
    ("join where in box(0 ", 20),
    ("join where in box(0  0,1 1)", 20),
    ("join where in box(0 0", 21),
    ("join where in box(0 0 1 1)", 21),
    ("join where in box(0 0, 1 1)", 22),
    ("join where in box(0 0,1 1", 25),
    ("join where in box(0 0,1 1 )", 25),
    ("join where in box(1e 0,1 1)", 20),
    ("join where in box(. 0,1 1)", 19),
    ("join where in POINT (1 2)", 14),
    ("join where in box(0 0,1 1) ", 27),
    ("join where in box(0 0,1 1) and", 30),
    ("join where in box(0 0,1 1) and ", 31),
    ("join where in box(0 0,1 1)  and in box(0 0,1 1)", 27),
    ("join where in box(0 0,1 1) or in", 27),
    ("join where in box(0 0,1 1) and  in", 31),
    ("join where in box(0 0,1 1) AND", 27),
    // what is wrong with a box isn't told where the text stops later
    ("join where in box(1 0,0 1) and", 30),
    ("count where meets", 17),
    ("count where meets ", 18),
    ("count where meets x", 18),
    ("count where meets b", 19),
    ("count where meets BOX(0 0,1 1)", 18),
    ("count where meets POI", 21),
    ("count where meets POINT", 23),
    ("count where meets POINT Q", 24),
    ("count where meets POINT (1", 26),
    ("count where meets POINT (1,2)", 26),
    ("count where meets POINT (1 2", 28),
    ("count where meets POINT (1 2)x", 29),
    ("count where meets POINT (1 2) ", 30),
    ("count where meets  POINT (1 2)", 18),
    ("count where meets MULTIPOLYGON (EMPT)", 36),
    ("extent where has", 16),
    ("extent where has ", 17),
    ("extent where has x", 17),
    (r#"extent where has ""#, 18),
    (r#"extent where has "a"#, 19),
    (r#"extent where has "a""#, 20),
    (r#"extent where has "a" ="#, 22),
    (r#"extent where has "a" = "#, 23),
    (r#"extent where has "a"="b""#, 20),
    (r#"extent where has "a" = b"#, 23),
    (r#"extent where has "a" = "b"#, 25),
    (r#"extent where has "a" = "b"x"#, 26),
    (r#"extent where has "\q" = "b""#, 19),
    (r#"extent where has "\u12" = "b""#, 22),
    ("extent where has \"\t", 18),
];

/// Queries, and the least offset of what is wrong with them, where numbers are taken exactly.
static WRONG: [(&str, u32); 20] = [
    ("join where in box(2 0,1 1)", 14),
    ("join where in box(0 2,1 1)", 14),
    ("join where in box(0 0,30000001 1)", 22),
    ("join where in box(0.00000001 0,1 1)", 18),
    // a box with a faulty number isn't tested for its order
    ("join where in box(2 0,1 0.00000001)", 24),
    ("join where in box(30000001 0.00000001,1 1)", 18),
    ("join where in box(0 0,1 1) and in box(1 0,0 1)", 34),
    ("count where meets box(0 1,1 0)", 18),
    ("count where meets LINESTRING (1 2)", 29),
    ("count where meets LINESTRING (1.00000001 2)", 29),
    ("count where meets POLYGON ((0 0,1 0,1 1))", 27),
    ("count where meets POLYGON ((0 0,1 0,1 1,0 1))", 27),
    // a ring whose last position has a fault isn't tested for its closure
    ("count where meets POLYGON ((0 0,1 0,1 1,0 0.00000001))", 42),
    ("count where meets POINT (1.00000001 2)", 25),
    ("count where meets POINT (1e99 1e-99)", 25),
    (
        "count where meets GEOMETRYCOLLECTION (POINT (1.00000001 2),LINESTRING (1 2))",
        45,
    ),
    (
        "count where meets GEOMETRYCOLLECTION (LINESTRING (1 2),POINT (1.00000001 2))",
        49,
    ),
    ("count where meets LINESTRING (1 2) and in box(1 0,0 1)", 29),
    ("count where in box(1 0,0 1) and meets LINESTRING (1 2)", 15),
    (
        r#"count where has "in box(1 0,0 1)" = "" and in box(1 0,0 1)"#,
        46,
    ),
];

/// Queries, and how many tests each has.
static RIGHT: [(&str, usize); 13] = [
    ("select", 0),
    ("count", 0),
    ("area", 0),
    ("extent", 0),
    ("hull", 0),
    ("join", 0),
    ("join where in box(1 1,1 1)", 1),
    ("count where meets box(-1.5 2e0,+3. .5e1)", 1),
    ("count where meets point\t( 1  2 )", 1),
    ("count where meets MultiPoint Z(1 2 1e99,EMPTY)", 1),
    ("count where meets POINT EMPTY and in box(0 0,1 1)", 2),
    (r#"extent where has "\"a" = "" and has "b" = "c""#, 2),
    (
        r#"join where in box(0 0,1 1) and in box(0 0,1 1) and has "and" = " and ""#,
        3,
    ),
];

/// Whether each line is refused at its offset, where numbers are taken exactly.
fn are_refused(alloc: Global, rows: &[(&str, u32)]) -> Result<bool, Fail> {
    for row in rows {
        if !is_refused(alloc, row.0, row.1, 7, Coords::Exact)? {
            return Ok(false);
        }
    }
    Ok(true)
}

/// Whether a line is refused at the offset.
fn is_refused(alloc: Global, line: &str, at: u32, digits: u8, how: Coords) -> Result<bool, Fail> {
    if line.len() > 1000 {
        return Ok(false);
    }
    match read_query(alloc, line.as_bytes(), digits, how) {
        Ok(_) => Ok(false),
        Err(QueryEnd::Fault(found)) => Ok(found == at),
        Err(QueryEnd::Memory) => Err(Fail::from("no memory")),
    }
}

/// The query that a line spells.
fn read(alloc: Global, line: &str, how: Coords) -> Result<Query, Fail>
    ensures { IfOk result IsQueryInRange }
{
    if line.len() > 1000 {
        return Err(Fail::from("a long line"));
    }
    match read_query(alloc, line.as_bytes(), 7, how) {
        Ok(found) => Ok(found),
        Err(_) => Err(Fail::from("the line is refused")),
    }
}

/// Whether each line is read, and has so many tests.
fn are_read(alloc: Global, rows: &[(&str, usize)]) -> Result<bool, Fail> {
    for row in rows {
        if read(alloc, row.0, Coords::Exact)?.tests.as_slice().len() != row.1 {
            return Ok(false);
        }
    }
    Ok(true)
}

/// The one test of a query.
fn only_test(query: &Query) -> Result<&Test, Fail> {
    match query.tests.as_slice() {
        [only] => Ok(only),
        _ => Err(Fail::from("not one test")),
    }
}

#[test]
fn lines_that_stop(rt: HostRuntime) -> Result<(), Fail> {
    assert!(rt; are_refused(rt.alloc(), &STOPS)?);
    Ok(())
}

#[test]
fn lines_with_faults(rt: HostRuntime) -> Result<(), Fail> {
    assert!(rt; are_refused(rt.alloc(), &WRONG)?);
    let line = "count where in box(0 0,300001 1)";
    assert!(rt; is_refused(rt.alloc(), line, 23, 9, Coords::Exact)?);
    Ok(())
}

#[test]
fn lines_that_are_read(rt: HostRuntime) -> Result<(), Fail> {
    assert!(rt; are_read(rt.alloc(), &RIGHT)?);
    Ok(())
}

#[test]
fn a_box_that_is_read(rt: HostRuntime) -> Result<(), Fail> {
    let found = read(rt.alloc(), "area where in box(-1 2.5,3 4e0)", Coords::Exact)?;
    assert_eq!(rt; found.verb, Verb::Area);
    let Test::InBox(extent) = only_test(&found)? else {
        return Err(Fail::from("no box"));
    };
    assert_eq!(rt;
        *extent,
        Extent {
            low: place(-10_000_000, 25_000_000),
            high: place(30_000_000, 40_000_000)
        }
    );
    // rounded, the low corner is the origin
    let rounded = read(rt.alloc(), "join where in box(4e-8 0,0 0)", Coords::Round)?;
    assert_eq!(rt; rounded.verb, Verb::Join);
    Ok(())
}

/// Whether the query that a line spells holds of the first feature.
fn holds_of_first(alloc: Global, line: &str) -> Result<bool, Fail> {
    let found = read(alloc, line, Coords::Exact)?;
    let first = feature(alloc, &AROUND_BOX[0])?;
    Ok(holds(&found, &first))
}

#[test]
fn texts_that_are_read(rt: HostRuntime) -> Result<(), Fail> {
    let line = r#"select where has "n\u0061me" = "Rhine""#;
    assert!(rt; holds_of_first(rt.alloc(), line)?);
    let turned = r#"select where has "Rhine" = "name""#;
    assert!(rt; !holds_of_first(rt.alloc(), turned)?);
    Ok(())
}
