//! Lines, prefixes and files with what they are found to be.

ghost use Rattle.std.specs.Prelude.{◌≤◌, ◌^◌, length};

use at_fixed::{Coords, FixedFault};
use at_geom::{Pos, Shape};
use at_text::{Fault, FaultKind, Memory, base_of, first_fault, utf8_fault};
use at_wkt::{
    Fold, LineFault, Room, finish_lines, is_blank, number_fault, read_geometry, read_line,
    run_lines,
};
use std::alloc::{AllocError, Global};
use std::test::Fail;

/// A fault's kind and offset.
fn fault_text(alloc: Global, fault: Fault) -> Result<String, AllocError> {
    let kind = fault.kind;
    let at = fault.at;
    format!(in alloc; "{kind:?} {at}")
}

/// What a line that begins at the offset 100 is found to be, with exact coordinates: none, or its first fault.
fn told_of_line(alloc: Global, line: &[u8]) -> Result<String, AllocError>
    requires { length line.now ≤ 2 ^ 27 }
{
    match read_line(alloc, line, 100, 7, Coords::Exact) {
        Ok(_) => String::from_str(alloc, "none"),
        Err(LineFault::Found(fault)) => fault_text(alloc, fault),
        Err(LineFault::Memory) => String::from_str(alloc, "memory"),
    }
}

/// Lines without fault: each kind, letter, EMPTY form, blank and case.
const SPELLED: &str = "POINT (1 2)
POINT(1 2)
 point\t( 1  2 )\t
PoInT ( +1. -.5e+0 )
POINT (03 5.e3)
POINT (1 2 1e99)
POINT (1 2 3 4)
POINTZ(1 2 3)
POINT Z (1 2 3)
POINT z(1 2 3)
POINT M(1 2 3)
POINTM (1 2 3)
POINT zm (1 2 3 4)
POINTZM(1 2 3 4)
POINT EMPTY
POINTEMPTY
POINTZMEMPTY
POINT Z empty 
LINESTRING (1 2, 3 4)
LINESTRING(1 2,3 4)
linestring ( 1 2 , 3 4 )
LINESTRING Z (1 2 3, 4 5 6)
LINESTRING (1 2 3 4, 5 6 7 8)
LINESTRING EMPTY
LINESTRING M EMPTY
POLYGON ((0 0,1 0,1 1,0 1,0 0))
POLYGON((0 0,1 0,1 1,0 0),(0 0,1 0,1 1,0 0))
POLYGON ( (0 0 , 1 0 , 1 1 , 0 0 ) )
POLYGON ZM ((0 0 1 2,1 0 1 2,1 1 1 2,0 0 3 4))
POLYGON EMPTY
MULTIPOINT (1 2, (3 4), EMPTY)
MULTIPOINT (EMPTY)
MULTIPOINT ((1 2),(3 4))
MULTIPOINT (1 2,3 4)
MULTIPOINT (EMPTY,1 2 3,EMPTY,(4 5 6))
MULTIPOINT EMPTY
MULTIPOINT Z (1 2 3)
MULTILINESTRING ((1 2,3 4),EMPTY,(5 6,7 8))
MULTILINESTRING (EMPTY)
MULTILINESTRING EMPTY
MULTIPOLYGON (((0 0,1 0,1 1,0 0)),EMPTY)
MULTIPOLYGON (EMPTY)
MULTIPOLYGON EMPTY
MULTIPOLYGON M (((0 0 9,1 0 9,1 1 9,0 0 9)))
GEOMETRYCOLLECTION (POINT (1 2))
GEOMETRYCOLLECTION(POINT(1 2),LINESTRING(1 2,3 4))
GEOMETRYCOLLECTION (POINT Z (1 2 3), LINESTRING (1 2, 3 4))
GEOMETRYCOLLECTION Z (GEOMETRYCOLLECTION (POINT (1 2)) , POINT EMPTY )
GEOMETRYCOLLECTION (POINT EMPTY)
GEOMETRYCOLLECTION (GEOMETRYCOLLECTION EMPTY)
GEOMETRYCOLLECTION EMPTY
GeometryCollection ZM Empty";

#[test]
fn spelled_lines(rt: HostRuntime) -> Result<(), Fail> {
    let mut count = 0u32;
    for line in SPELLED.lines() {
        assert!(rt; line.len() < 100);
        let told = told_of_line(rt.alloc(), line.as_bytes())?;
        assert_eq!(rt; told.as_str(), "none", "{line}");
        count = count.wrapping_add(1);
    }
    assert_eq!(rt; count, 52);
    Ok(())
}

/// Lines that stop at a byte or at their end, or whose geometry is faulty: the first fault, a bar, the line.
const FAULTY: &str = "Ended 100|
Ended 102| \t
Syntax 100|x
Ended 102|PO
Syntax 102|POX
Syntax 101|P OINT (1 2)
Ended 105|POINT
Ended 106|POINT 
Syntax 105|POINTS (1 2)
Syntax 104|POLYX
Syntax 109|LINESTRINC
Syntax 105|MULTI POINT (1 2)
Syntax 107|MULTIPOX
Ended 111|MULTIPOLYGO
Ended 117|GEOMETRYCOLLECTIO
Syntax 100|TRIANGLE ((0 0,1 0,1 1,0 0))
Syntax 100|SRID=4326;POINT (1 2)
Syntax 108|POINT Z M (1 2 3)
Syntax 107|POINT MZ (1 2 3)
Ended 107|POINT Z
Ended 108|POINT ZM
Syntax 112|POINT Z (1 2)
Syntax 115|POINT Z (1 2 3 4)
Syntax 115|POINT M (1 2 3 4)
Syntax 115|POINT ZM (1 2 3)
Syntax 115|POINT (1 2 3 4 5)
Syntax 106|POINT 1 2
Ended 107|POINT (
Syntax 107|POINT ()
Ended 108|POINT (1
Syntax 108|POINT (1)
Syntax 109|POINT (1 )
Syntax 108|POINT (1,2)
Ended 110|POINT (1 2
Syntax 110|POINT (1 2,
Syntax 110|POINT (1 2, 3 4)
Syntax 107|POINT ((1 2))
Syntax 107|POINT (x)
Syntax 108|POINT (- 2)
Syntax 108|POINT (1-2 3)
Syntax 110|POINT (1.2.3 4)
Syntax 109|POINT (1e 2)
Syntax 112|POINT (1 2) x
Syntax 111|POINT (1 2)) 
Ended 109|POINT EMP
Syntax 109|POINT EMP TY
Syntax 110|POINT EMPTX
Syntax 107|POINT (EMPTY)
Syntax 112|LINESTRING ()
Syntax 116|LINESTRING (1 2,)
Syntax 120|LINESTRING (1 2,3 4 5)
Syntax 121|LINESTRING (1 2 3,3 4)
Ended 116|LINESTRING Z(1 2
Syntax 109|POLYGON (EMPTY)
Syntax 109|POLYGON (1 2)
Syntax 120|MULTIPOINT(1 2,(3 4 5))
Syntax 113|MULTIPOINT ((EMPTY))
Syntax 117|MULTILINESTRING (1 2)
Syntax 120|GEOMETRYCOLLECTION (EMPTY)
Ended 131|GEOMETRYCOLLECTION (POINT (1 2)
Syntax 132|GEOMETRYCOLLECTION (POINT (1 2)))
Short 111|LINESTRING (1 2)
Short 110|LINESTRING(1.00000001 2)
Short 127|MULTILINESTRING ((1 2,3 4),(5 6))
Scale 118|MULTILINESTRING ((1.00000001 2,3 4),(5 6))
Ring 109|POLYGON ((1 2,3 4,5 6))
Ring 109|POLYGON ((1 2,3 4,5 6,1 3))
Ring 109|POLYGON ((1 2,3 4,1 2))
Range 110|POLYGON ((1e99 2,3 4,5 6,1 3))
Scale 124|POLYGON ((1 2,3 4,5 6,1 1e-8))
Ring 127|POLYGON ((0 0,1 0,1 1,0 0),(1e99 2,3 4,5 6))
Ring 115|MULTIPOLYGON (((0 0,1 0,1 1,0 1)))
Scale 107|POINT (1.00000001 2)
Range 109|POINT (1 30000001)
Range 109|POINT (1 30000000.00000005)
Range 120|MULTIPOINT (1 2, (3 1e99), 1e-9 0)
Range 127|GEOMETRYCOLLECTION (POINT (1e99 2), LINESTRING (1 2))";

#[test]
fn faulty_lines(rt: HostRuntime) -> Result<(), Fail> {
    let mut count = 0u32;
    for row in FAULTY.lines() {
        let (expected, line) = row.split_once('|').ok_or("a bar")?;
        assert!(rt; line.len() < 100);
        let told = told_of_line(rt.alloc(), line.as_bytes())?;
        assert_eq!(rt; told.as_str(), expected, "{line}");
        count = count.wrapping_add(1);
    }
    assert_eq!(rt; count, 77);
    Ok(())
}

/// What a line that begins at the offset 100 is found to be in a room that served others, with exact coordinates. The
/// line is the first bytes of those ahead.
fn told_in_room(
    room: &mut Room,
    alloc: Global,
    ahead: &[u8],
    len: usize,
) -> Result<String, AllocError>
    requires inside { len ≤ length ahead.now }
    requires short { length ahead.now ≤ 2 ^ 27 }
{
    match room.check_line(alloc, ahead, len, 100, 7, Coords::Exact) {
        Ok(None) => String::from_str(alloc, "none"),
        Ok(Some(fault)) => fault_text(alloc, fault),
        Err(_) => String::from_str(alloc, "memory"),
    }
}

/// Lines that one room serves one after another: none or the first fault, a bar, the line.
const SERVED: &str = "none|POINT (1 2)
Syntax 109|POINT (1 x
none|LINESTRING (1 2,3 4)
Ring 109|POLYGON ((0 0,1 1,0 0))
Ended 110|POINT (1 2
none|MULTIPOINT EMPTY
Short 111|LINESTRING (1 2)
Ended 130|GEOMETRYCOLLECTION (POINT (1 2
Scale 107|POINT (0.12345678 2)
none|POLYGON ((0 0,1 0,1 1,0 0))
none|POLYGON ((0.5 0.5,40.5 0.5,40.5 40.5,0.5 0.5),(20.5 10.5,30.5 10.5,30.5 20.5,20.5 10.5))
Ring 135|POLYGON ((0 0,40 0,40 40,0 40,0 0),(20.5 10.5,30.5 10.5,30.5 20.5,20.5 10.25))
none|LINESTRING (0.1234567 -1.1234567,2.1234567 -3.1234567,4.1234567 5.1234567)
Short 111|LINESTRING (0.1234567 -1.1234567)";

#[test]
fn lines_in_one_room(rt: HostRuntime) -> Result<(), Fail> {
    let mut room = Room::new(rt.alloc());
    let mut count = 0u32;
    for row in SERVED.lines() {
        let (expected, line) = row.split_once('|').ok_or("a bar")?;
        assert!(rt; line.len() < 100);
        let told = told_in_room(&mut room, rt.alloc(), line.as_bytes(), line.len())?;
        assert_eq!(rt; told.as_str(), expected, "{line}");
        count = count.wrapping_add(1);
    }
    assert_eq!(rt; count, 14);
    Ok(())
}

/// Lines behind which something stands that is no part of them: none or the first fault, a bar, the line, a bar, what
/// stands behind it.
const FOLLOWED: &str = "none|POINT (1.5 -2.25)|POINT (3.5 4.5)
none|POINT (1.5 -2.25)| x
none|LINESTRING (0.5 0.5,1.5 1.5)|,2 2)
Ended 110|POINT (1 2|5)
Ended 111|POINT (1 2 |) and more
Ended 129|LINESTRING (0.25 -1.5,2.5 3.5|,4.5 5.5) and more
Ended 108|POINT (1|.5 2.5) and more
Ended 100||POINT (1.5 2.5)
none|POLYGON ((0 0,1 0,1 1,0 0))|,(0 0,1 0,1 1,0 0))
Syntax 111|POINT (1 2))|and more";

/// The three parts of a row, between which bars stand.
fn parts_of(row: &str) -> Result<(&str, &str, &str), Fail> {
    let (expected, both) = row.split_once('|').ok_or("a bar")?;
    let (line, behind) = both.split_once('|').ok_or("a second bar")?;
    Ok((expected, line, behind))
}

/// A line and what stands behind it.
fn ahead_of(alloc: Global, line: &str, behind: &str) -> Result<String, AllocError> {
    let mut ahead = String::from_str(alloc, line)?;
    ahead.push_str(behind)?;
    Ok(ahead)
}

/// The coordinates of a position behind a text.
fn push_pos(alloc: Global, text: &mut String, pos: Pos) -> Result<(), AllocError> {
    let Pos { x, y } = pos;
    text.push_str(format!(in alloc; "{x} {y}")?.as_str())
}

/// The positions of a path behind a text, with commas between them.
fn push_path(alloc: Global, text: &mut String, path: &[Pos]) -> Result<(), AllocError> {
    let mut comma = "";
    for pos in path {
        text.push_str(comma)?;
        push_pos(alloc, text, *pos)?;
        comma = ",";
    }
    Ok(())
}

/// All positions of a shape: points, lines in square brackets, and rings in round ones, each polygon behind a star.
fn positions_of_shape(alloc: Global, shape: &Shape) -> Result<String, AllocError> {
    let mut text = String::new(alloc);
    push_path(alloc, &mut text, shape.points.as_slice())?;
    for line in shape.lines.as_slice() {
        text.push_str("[")?;
        push_path(alloc, &mut text, line.as_slice())?;
        text.push_str("]")?;
    }
    for polygon in shape.polygons.as_slice() {
        text.push_str("*")?;
        for ring in polygon.rings.as_slice() {
            text.push_str("(")?;
            push_path(alloc, &mut text, ring.as_slice())?;
            text.push_str(")")?;
        }
    }
    Ok(text)
}

/// The shape of a line that begins at the offset 100, in tenths, or its first fault, from a room that served others.
/// The line is the first bytes of those ahead.
fn lent_in_room(
    room: &mut Room,
    alloc: Global,
    ahead: &[u8],
    len: usize,
) -> Result<String, AllocError>
    requires inside { len ≤ length ahead.now }
    requires short { length ahead.now ≤ 2 ^ 27 }
{
    match room.read_line(alloc, ahead, len, 100, 1, Coords::Exact) {
        Ok(shape) => positions_of_shape(alloc, shape),
        Err(LineFault::Found(fault)) => fault_text(alloc, fault),
        Err(LineFault::Memory) => String::from_str(alloc, "memory"),
    }
}

/// Lines that one room reads one after another: the shape in tenths or the first fault, a bar, the line, a bar, and
/// what stands behind the line.
const LENT: &str = "*(0 0,10 0,10 10,0 0)|POLYGON ((0 0,1 0,1 1,0 0))|
Syntax 109|POINT (1 x|
15 -25|POINT (1.5 -2.5)|POINT (3 4)
Ended 110|POINT (1 2|3)
Ended 110|POINT (1 2|)
10 20|POINT (1 2) |x
10 20|POINT (1 2)| x
5 5,15 15|MULTIPOINT (0.5 0.5,(1.5 1.5),EMPTY)|
[5 5,15 15]|LINESTRING (0.5 0.5,1.5 1.5)|,2 2)
[0 0,10 0,20 0][30 0,40 0]|MULTILINESTRING ((0 0,1 0,2 0),(3 0,4 0))|
[70 70,80 80]|LINESTRING (7 7,8 8)|
Ended 127|LINESTRING (0.5 0.5,1.5 1.5|,2 2)
|POINT EMPTY|
Ring 109|POLYGON ((0 0,1 1,0 0))|,(0 0,1 0,1 1,0 0))
*(0 0,90 0,90 90,0 0)(20 10,30 10,30 20,20 10)|POLYGON ((0 0,9 0,9 9,0 0),(2 1,3 1,3 2,2 1))|
*(0 0,10 0,10 10,0 0)|POLYGON ((0 0,1 0,1 1,0 0))|,(0 0,1 0,1 1,0 0))
Scale 107|POINT (0.12 2)|3)
Syntax 111|POINT (1 2))|
10 20[30 40,50 60]*(0 0,10 0,10 10,0 0)|GEOMETRYCOLLECTION (POINT (1 2),LINESTRING (3 4,5 6),POLYGON ((0 0,1 0,1 1,0 0)))|
300000000 0|POINT (30000000 0)|0 0)
Ended 100||POINT (1 2)
10 20|point ( 1   2 )|";

/// Whether the line of a row is found to be what the row tells, by its shape where that is lent.
fn is_as_told(room: &mut Room, alloc: Global, row: &str, lends: bool) -> Result<bool, Fail> {
    let (expected, line, behind) = parts_of(row)?;
    let ahead = ahead_of(alloc, line, behind)?;
    if ahead.len() >= 200 || line.len() > ahead.len() {
        return Ok(false);
    }
    let told = if lends {
        lent_in_room(room, alloc, ahead.as_bytes(), line.len())?
    } else {
        told_in_room(room, alloc, ahead.as_bytes(), line.len())?
    };
    Ok(told.as_str() == expected)
}

#[test]
fn followed_lines(rt: HostRuntime) -> Result<(), Fail> {
    let mut room = Room::new(rt.alloc());
    for row in FOLLOWED.lines() {
        assert!(rt; is_as_told(&mut room, rt.alloc(), row, false)?, "{row}");
    }
    Ok(())
}

#[test]
fn lent_lines(rt: HostRuntime) -> Result<(), Fail> {
    let mut room = Room::new(rt.alloc());
    let mut count = 0u32;
    for row in LENT.lines() {
        assert!(rt; is_as_told(&mut room, rt.alloc(), row, true)?, "{row}");
        count = count.wrapping_add(1);
    }
    assert_eq!(rt; count, 22);
    Ok(())
}

/// What a shape holds: how many points, lines, polygons, and positions of rings.
fn told_of_shape(alloc: Global, shape: &Shape) -> Result<String, AllocError> {
    let mut positions = 0usize;
    for polygon in shape.polygons.as_slice() {
        for ring in polygon.rings.as_slice() {
            positions = positions.wrapping_add(ring.as_slice().len());
        }
    }
    let points = shape.points.as_slice().len();
    let lines = shape.lines.as_slice().len();
    let polygons = shape.polygons.as_slice().len();
    format!(in alloc; "{points} {lines} {polygons} {positions}")
}

/// What the geometry that begins a text is found to be.
fn told_of_prefix(alloc: Global, text: &[u8]) -> Result<String, AllocError>
    requires { length text.now ≤ 2 ^ 27 }
{
    match read_geometry(alloc, text, 0, 7, Coords::Round) {
        Ok(prefix) => {
            let taken = prefix.taken;
            let fault = prefix.fault;
            let shape = told_of_shape(alloc, &prefix.shape)?;
            match fault {
                None => format!(in alloc; "{taken}: {shape}"),
                Some(fault) => {
                    let kind = fault.kind;
                    let at = fault.at;
                    format!(in alloc; "{taken}: {shape} {kind:?} {at}")
                }
            }
        }
        Err(LineFault::Found(fault)) => fault_text(alloc, fault),
        Err(LineFault::Memory) => String::from_str(alloc, "memory"),
    }
}

/// How many bytes spell the geometry that begins a text, what it holds, and its fault; or where none begins.
const PREFIXES: &str = "11: 1 0 0 0|POINT (1 2)
11: 1 0 0 0|POINT (1 2) and more
11: 0 0 0 0|POINT EMPTYx
16: 0 0 0 0 Short 11|LINESTRING (1 2)
28: 2 0 0 0|MULTIPOINT (1 2,EMPTY,(3 4)),
33: 0 1 0 0|MULTILINESTRING (EMPTY,(1 2,3 4))
58: 0 0 1 8|MULTIPOLYGON (EMPTY,((0 0,1 0,1 1,0 0),(0 0,1 0,1 1,0 0)))
81: 1 1 1 4|GEOMETRYCOLLECTION (POINT (1 2),POLYGON ((0 0,1 0,1 1,0 0)),LINESTRING (1 2,3 4))
36: 0 0 1 4|POLYGON ((0.00000001 0,1 0,1 1,0 0))
Syntax 0| POINT (1 2)
Ended 7|POINT (";

#[test]
fn prefixes(rt: HostRuntime) -> Result<(), Fail> {
    for row in PREFIXES.lines() {
        let (expected, text) = row.split_once('|').ok_or("a bar")?;
        assert!(rt; text.len() < 100);
        let told = told_of_prefix(rt.alloc(), text.as_bytes())?;
        assert_eq!(rt; told.as_str(), expected, "{text}");
    }
    Ok(())
}

/// Whether one position is kept of a line, and its coordinates are those.
fn is_kept(alloc: Global, line: &[u8], digits: u8, how: Coords, pos: Pos) -> Result<bool, Fail>
    requires { length line.now ≤ 2 ^ 27 }
{
    match read_line(alloc, line, 0, digits, how) {
        Ok(shape) => Ok(shape.points.as_slice() == [pos].as_slice()),
        Err(_) => Err(Fail::from("the line is refused")),
    }
}

/// The values that are kept of a position: rounded to the even one of two, and with nine decimals.
#[test]
fn kept_values(rt: HostRuntime) -> Result<(), Fail> {
    let rounded = Pos {
        x: 10_000_002,
        y: -25_000_000,
    };
    let line = b"POINT (1.00000015 -2.5 1e999)";
    assert!(rt; is_kept(rt.alloc(), line, 7, Coords::Round, rounded)?);
    let exact = Pos {
        x: 123_456_789,
        y: 0,
    };
    let line = b"POINT (0.123456789 0)";
    assert!(rt; is_kept(rt.alloc(), line, 9, Coords::Exact, exact)?);
    Ok(())
}

/// It counts lines, and keeps the first of their faults.
struct Checking;

/// How many lines there are, and the first of their faults.
#[derive(Drop)]
struct Checked {
    count: u32,
    fault: Option<Fault>,
}

impl Fold for Checking {
    type Part = Checked;

    ghost is_own = { λ _ _. Unit {0} };

    ghost is_fold = { λ _ _ _. Unit {0} };

    fn none(&self, _alloc: Global) -> Checked {
        Checked {
            count: 0,
            fault: None,
        }
    }

    fn line(&self, alloc: Global, text: &[u8], at: u32) -> Result<Checked, Memory> {
        let mut room = Room::new(alloc);
        let fault = room.check_line(alloc, text, text.len(), at, 7, Coords::Round)?;
        Ok(Checked { count: 1, fault })
    }

    fn join(&self, _alloc: Global, left: Checked, right: Checked) -> Result<Checked, Memory> {
        Ok(Checked {
            count: left.count.wrapping_add(right.count),
            fault: first_fault(left.fault, right.fault),
        })
    }
}

/// The bytes of a text, in which `~` stands for a line feed and `^` for a carriage return.
pub(crate) fn bytes_of(alloc: Global, text: &str) -> Result<Vec<u8>, AllocError> {
    let mut bytes = Vec::new(alloc);
    for byte in text.as_bytes() {
        bytes.push(match *byte {
            b'~' => b'\n',
            b'^' => b'\r',
            other => other,
        })?;
    }
    Ok(bytes)
}

/// What a file is found to be: the fault of its encoding, or else the first fault of its lines, or else how many they
/// are.
fn told_of_file(alloc: Global, bytes: &[u8]) -> Result<String, AllocError>
    requires { length bytes.now ≤ 2 ^ 27 }
{
    let begin = base_of(bytes);
    let whole = run_lines(alloc, &Checking, &bytes[begin as usize..], begin);
    match finish_lines(alloc, &Checking, bytes, whole) {
        Ok(checked) => match utf8_fault(bytes).or(checked.fault) {
            Some(fault) => fault_text(alloc, fault),
            None => {
                let count = checked.count;
                format!(in alloc; "{count}")
            }
        },
        Err(_) => String::from_str(alloc, "memory"),
    }
}

/// How many lines a file has, or its first fault; a bar; and the file, where `~` stands for a line feed and `^`
/// for a carriage return.
const FILES: &str = "0|
0|~~
1|POINT (1 2)
1|POINT (1 2)~
2|POINT (1 2)^~ \t~POINT (3 4)^
0|^~^
2|POINT (1 2)~~LINESTRING (3 4,5 6)~
1|\u{FEFF}POINT (1 2)~
0|\u{FEFF}
Syntax 10|\u{FEFF}POINT (x)
Syntax 12|POINT (1 2)~\u{FEFF}POINT (1 2)
Ended 10|POINT (1 2^~
Syntax 0|^^~
Syntax 11|POINT (1 2)^^~
Syntax 5|POINT^(1 2)~
Ended 27|LINESTRING (1 2)~POINT (3 4
Short 11|LINESTRING (1 2)~POINT (3 4)
Range 7|POINT (1e99 2)~LINESTRING (1 2)
Syntax 0|x~POINT (3 4
Ended 10|POINT (3 4~x
Syntax 37| POINT (1 2) ~POINT (1 2)~POINT (1 2)y";

#[test]
fn files_of_lines(rt: HostRuntime) -> Result<(), Fail> {
    for row in FILES.lines() {
        let (expected, file) = row.split_once('|').ok_or("a bar")?;
        let bytes = bytes_of(rt.alloc(), file)?;
        let bytes = bytes.as_slice();
        assert!(rt; bytes.len() < 100);
        let told = told_of_file(rt.alloc(), bytes)?;
        assert_eq!(rt; told.as_str(), expected, "{file}");
    }
    assert_eq!(rt;
        told_of_file(rt.alloc(), b"POINT (\xFF")?.as_str(),
        "NotUtf8 7"
    );
    assert_eq!(rt;
        told_of_file(rt.alloc(), b"x\nPOINT (\xFF")?.as_str(),
        "NotUtf8 9"
    );
    Ok(())
}

/// Collections within collections, 100,000 deep.
#[test]
fn deep_collections(rt: HostRuntime) -> Result<(), Fail> {
    let mut text = Vec::new(rt.alloc());
    for _ in 0..100_000u32 {
        text.extend_from_slice(b"GEOMETRYCOLLECTION(")?;
    }
    text.extend_from_slice(b"POINT EMPTY")?;
    for _ in 0..100_000u32 {
        text.push(b')')?;
    }
    let line = text.as_slice();
    assert!(rt; line.len() < 3_000_000);
    assert_eq!(rt; told_of_line(rt.alloc(), line)?.as_str(), "none");
    Ok(())
}

#[test]
fn blanks_and_faults_of_numbers(rt: HostRuntime) -> Result<(), Fail> {
    for byte in 0..=255u8 {
        assert!(rt; is_blank(byte) == (byte == 32 || byte == 9));
    }
    let scale = number_fault(FixedFault::Scale, 3);
    assert!(rt; scale.kind == FaultKind::Scale && scale.at == 3);
    let range = number_fault(FixedFault::Range, 4);
    assert!(rt; range.kind == FaultKind::Range && range.at == 4);
    Ok(())
}

/// What the page of `at_wkt` shows.
#[test]
fn the_example_of_the_crate(rt: HostRuntime) -> Result<(), Fail> {
    let alloc = rt.alloc();
    let bonn = Pos {
        x: 71_000_000,
        y: 507_000_000,
    };
    let shape = read_line(alloc, b"POINT (7.1 50.7)", 0, 7, Coords::Exact)?;
    assert!(rt; shape.points.as_slice() == [bonn].as_slice());
    assert!(rt; read_line(alloc, b"POINT (7.1", 0, 7, Coords::Exact).is_err());
    Ok(())
}
