//! Tables for what stands at the places of texts, and for the names of members and of kinds.

ghost use Rattle.std.specs.Prelude.{◌<◌, IfOk, length};
ghost use Rattle.std.specs.List.Sorted.{IsNonDecreasing};

use at_fixed::Coords;
use at_scan::{
    Field, Kind, KindRead, NamePlace, OTHER_KIND, OtherNames, Spelling, TableNames, add_other,
    begins_collection, brackets_ahead, byte_place, expect_comma, field_name, field_named,
    has_hash_among, hash_of, is_coordinates, is_kind, is_other, is_simple, kind_of, known_kind,
    may_begin, name_bytes, name_place, names_collection, next_name, opening, position_end,
    repeated, seems_cut, short_text_end, simple_item, simple_item_to_end, skip_alike, skip_spaces,
    stands, text_end, valued_len, valued_number,
};
use at_text::{Halt, Memory};
use std::alloc::Global;
use std::test::Fail;

#[test]
fn the_example_of_the_crate(rt: HostRuntime) -> Result<(), Fail> {
    let alloc = rt.alloc();
    let text: &[u8] = b"{\"id\":7,\"type\":\"Point\"}";
    let mut others = OtherNames::none(alloc);
    let first = next_name(text, &mut others, 1)?;
    assert!(rt; first.field == Field::Other && name_bytes(text, first.place).is_word(b"id"));
    let second = field_name(text, 8)?;
    assert!(rt; second.field == Field::Kind && stands(text, 15, b'"'));
    assert!(rt; text_end(text, 15) == Ok(22));
    Ok(())
}

#[test]
fn bytes_and_white_space(rt: HostRuntime) {
    let text: &[u8] = b" \t\n  ,x";
    assert_eq!(rt; skip_spaces(text, 0), 5);
    assert_eq!(rt; skip_spaces(text, 5), 5);
    assert_eq!(rt; skip_spaces(b"\n                    \r", 0), 22);
    assert!(rt; stands(text, 5, b',') && !stands(text, 6, b',') && !stands(text, 7, b'x'));
    assert!(rt; expect_comma(text, 5) == Ok(()) && expect_comma(text, 6) == Err(Halt::At(6)));
    assert!(rt; opening(b"  [", 0) == Ok(2) && opening(b" {", 0) == Err(Halt::At(1)));
    assert_eq!(rt; brackets_ahead(b"[ [[1", 0), 3);
    assert!(rt;
        seems_cut(text, 0, 2000) && !seems_cut(text, 0, 1000) && !seems_cut(text, 0, OTHER_KIND)
    );
}

/// A line end, so many blanks, and what stands behind them.
fn line_of(alloc: Global, blanks: usize, behind: &[u8]) -> Result<Vec<u8>, Memory> {
    let mut text = Vec::new(alloc);
    text.push(b'\n')?;
    for _ in 0..blanks {
        text.push(b' ')?;
    }
    text.extend_from_slice(behind)?;
    Ok(text)
}

#[test]
fn white_space_alike(rt: HostRuntime) -> Result<(), Fail> {
    let alloc = rt.alloc();
    let behind: &[u8] = b"1.5,                                 ";
    for blanks in [0, 1, 15, 16, 17, 31, 32, 33, 40] {
        let text = line_of(alloc, blanks, behind)?;
        for expected in [0, 1, 14, 15, 16, 17, 30, 31, 32, 33, 34, 40, 41, usize::MAX] {
            assert_eq!(rt; skip_alike(text.as_slice(), 0, expected), blanks + 1);
        }
        let end = text.len().min(blanks + 1);
        assert_eq!(rt; skip_alike(text.as_slice(), end, blanks), end);
        assert!(rt; byte_place(text.as_slice(), 0, b'1', blanks) == Some(end));
        assert!(rt; byte_place(text.as_slice(), 0, b'1', 15) == Some(end));
        assert!(rt; byte_place(text.as_slice(), 0, b',', blanks).is_none());
    }
    assert!(rt;
        byte_place(b"[", 0, b'[', 0) == Some(0) && byte_place(b" [", 0, b'[', 0) == Some(1)
    );
    assert!(rt;
        byte_place(b" \t[", 0, b'[', 0) == Some(2) && byte_place(b" ", 0, b'[', 0).is_none()
    );
    assert!(rt; byte_place(b"[", 1, b'[', 0).is_none());
    let short = line_of(alloc, 4, b"[")?;
    assert_eq!(rt; skip_alike(short.as_slice(), 0, 4), 5);
    let tabs: &[u8] = b"\r\n\t\t[                                ";
    assert_eq!(rt; skip_alike(tabs, 0, 2), 4);
    assert_eq!(rt; skip_alike(tabs, tabs.len(), 2), tabs.len());
    Ok(())
}

#[test]
fn strings(rt: HostRuntime) {
    assert!(rt; text_end(b"\"a\\\"b\" x", 0) == Ok(6) && text_end(b"\"a", 0) == Err(Halt::At(2)));
    assert!(rt;
        short_text_end(b"\"ab\"              ", 0) == Some(4)
            && short_text_end(b"\"ab\"", 0).is_none()
    );
    assert!(rt; short_text_end(b"\"a\\n\"             ", 0).is_none());
    assert!(rt; is_simple(b"\"a b\"") && !is_simple(b"\"\\n\"") && !is_simple(b"\"\xC3\xA9\""));
    match simple_item(b" \"ab\" ,                  ", 0) {
        Some(item) => assert!(rt; item.first == 1 && item.last == 5 && item.end == 6),
        None => assert!(rt; false),
    }
}

/// The places of a simple item, also near the end of the text.
fn item_places(text: &[u8]) -> Option<(usize, usize, usize)>
    requires { length text.now < 100 }
{
    let item = simple_item_to_end(text, 0)?;
    Some((item.first, item.last, item.end))
}

#[test]
fn items_at_the_end(rt: HostRuntime) {
    assert!(rt; simple_item(b" \"ab\" ", 0).is_none());
    assert!(rt; item_places(b" \"ab\" ,                  ") == Some((1, 5, 6)));
    assert!(rt; item_places(b" \"ab\" ") == Some((1, 5, 6)));
    assert!(rt; item_places(b"\"0123456789abcdef\"") == Some((0, 18, 18)));
    assert!(rt; item_places(b"\"0123456789abcdefg\"").is_none());
    assert!(rt; item_places(b"\"ab").is_none() && item_places(b"7").is_none());
    assert!(rt; item_places(b"\"a\\n\"").is_none() && item_places(b"\"\xC3\xA9\"").is_none());
    assert!(rt; item_places(b"").is_none());
}

/// Whether a name stands at these places.
fn is_place(name: NamePlace, first: usize, end: usize, colon: usize) -> bool {
    name.first == first && name.end == end && name.colon == colon
}

#[test]
fn names(rt: HostRuntime) -> Result<(), Fail> {
    let escaped = name_place(b" \"\\u0061\" :", 0)?;
    assert!(rt; is_place(escaped, 1, 9, 10));
    assert!(rt; field_name(b" \"\\u0061\" :", 0).is_err());
    let read = field_name(b"\"coordinates\":[1,2,3]", 0)?;
    assert!(rt; is_place(read.place, 0, 13, 13) && is_coordinates(read.field));
    let other = field_name(b"\"coordinate\" :[1,2,3]", 0)?;
    assert!(rt; is_place(other.place, 0, 12, 13) && is_other(other.field));
    Ok(())
}

/// The members for which some kind asks, by their names, and one that is none of them.
static FIELDS: [(&[u8], Field); 7] = [
    (b"type", Field::Kind),
    (b"coordinates", Field::Coordinates),
    (b"geometry", Field::Geometry),
    (b"properties", Field::Properties),
    (b"features", Field::Features),
    (b"geometries", Field::Geometries),
    (b"typ", Field::Other),
];

/// How many rows are as told, up to the first that isn't.
fn fields_told(rows: &[(&[u8], Field)]) -> usize {
    for told in 0..rows.len() {
        let (name, field) = rows[told];
        if field_named(name) != field {
            return told;
        }
    }
    rows.len()
}

/// The kinds by their names, and a name of none.
static KINDS: [(&[u8], Option<Kind>); 10] = [
    (b"FeatureCollection", Some(Kind::FeatureCollection)),
    (b"Feature", Some(Kind::Feature)),
    (b"Point", Some(Kind::Point)),
    (b"MultiPoint", Some(Kind::MultiPoint)),
    (b"LineString", Some(Kind::LineString)),
    (b"MultiLineString", Some(Kind::MultiLineString)),
    (b"Polygon", Some(Kind::Polygon)),
    (b"MultiPolygon", Some(Kind::MultiPolygon)),
    (b"GeometryCollection", Some(Kind::GeometryCollection)),
    (b"point", None),
];

/// How many rows are as told, up to the first that isn't.
fn kinds_told(rows: &[(&[u8], Option<Kind>)]) -> usize {
    for told in 0..rows.len() {
        let (name, kind) = rows[told];
        if kind_of(name) != kind {
            return told;
        }
    }
    rows.len()
}

/// The units of `type`.
static TYPE_UNITS: [u16; 4] = [0x74, 0x79, 0x70, 0x65];

#[test]
fn words(rt: HostRuntime) {
    assert_eq!(rt; fields_told(&FIELDS), 7);
    assert_eq!(rt; kinds_told(&KINDS), 10);
    let units: &[u16] = &TYPE_UNITS;
    let bytes: &[u8] = b"type";
    assert!(rt; is_kind(field_named(units)) && kind_of(units).is_none());
    assert!(rt; units.is_word(bytes) && bytes.has_units(units) && !bytes.has_units(&units[..3]));
    match known_kind(b" \"Polygon\"       ", 1) {
        Some(KindRead { end, kind }) => assert!(rt; end == 10 && kind == Kind::Polygon),
        None => assert!(rt; false),
    }
    assert!(rt;
        begins_collection(b"\"FeatureCollection\"", 0)
            && !begins_collection(b"\"Feature\"        ", 0)
    );
    assert!(rt; names_collection(b"{\"type\": \"FeatureCollection\"}", 0));
    assert!(rt; !names_collection(b"{\"type\": \"Feature\"          }", 0));
}

/// The numbers that stand more than once in a list.
fn all_repeated(alloc: Global, numbers: &[u64]) -> Result<Vec<u64>, Memory>
    ensures { IfOk result (λ found. IsNonDecreasing found.items) }
{
    let mut sorted = Vec::with_capacity(alloc, numbers.len())?;
    sorted.extend_from_slice(numbers)?;
    sorted.sort_unstable();
    repeated(alloc, sorted.as_slice())
}

#[test]
fn hashes(rt: HostRuntime) -> Result<(), Fail> {
    let units: &[u16] = &TYPE_UNITS;
    assert!(rt; hash_of(&units[..0]) == 1 && hash_of(&[0]) == 0xD134_2543_DE82_EF95);
    let hash = hash_of(units);
    let found = all_repeated(rt.alloc(), &[3, 9, 3, hash, 1, hash])?;
    assert!(rt;
        has_hash_among(found.as_slice(), units) && !has_hash_among(found.as_slice(), &units[..3])
    );
    Ok(())
}

/// Whether the third name of an object's members is one of the first two, from the places of the names.
fn has_twin(alloc: Global, text: &[u8], places: [usize; 3]) -> Result<bool, Halt>
    requires { length text.now < 100 }
{
    let mut names = TableNames::none(alloc);
    let [first, second, third] = places;
    if first > text.len() {
        return Err(Halt::At(first));
    }
    if second > text.len() {
        return Err(Halt::At(second));
    }
    if third > text.len() {
        return Err(Halt::At(third));
    }
    let _ = next_name(text, &mut names.own, first)?;
    let name = field_name(text, second)?;
    add_other(text, &mut names.own, name.place)?;
    Ok(next_name(text, &mut names.own, third).is_err())
}

#[test]
fn equal_names(rt: HostRuntime) -> Result<(), Fail> {
    let alloc = rt.alloc();
    assert!(rt; has_twin(alloc, b"{\"a\":1,\"b\":2,\"b\":3}", [1, 7, 13])?);
    assert!(rt; has_twin(alloc, b"{\"a\":1,\"b\":2,\"a\":3}", [1, 7, 13])?);
    assert!(rt; !has_twin(alloc, b"{\"a\":1,\"b\":2,\"c\":3}", [1, 7, 13])?);
    Ok(())
}

/// The place of the first comma behind which no name stands that is new in its object.
fn twin_place(alloc: Global, text: &[u8]) -> Option<usize>
    requires { length text.now < 1000 }
{
    let mut names = OtherNames::none(alloc);
    for at in 0..text.len() {
        if text[at] == b'{' {
            names.begin();
        }
        if text[at] != b',' {
            continue;
        }
        let Ok(_) = next_name(text, &mut names, at + 1) else {
            return Some(at);
        };
    }
    None
}

/// Twenty names, of which the last eight differ in their first byte only.
static TWENTY: &[u8] =
    b",\"a\":,\"b\":,\"c\":,\"d\":,\"e\":,\"f\":,\"g\":,\"h\":,\"i\":,\"j\":,\"k\":,\"l\":,\"a12345678\":,\"b12345678\":,\"c12345678\":,\"d12345678\":,\"e12345678\":,\"f12345678\":,\"g12345678\":,\"h12345678\":";

/// The same with the second of those eight as the last.
static TWENTY_TWIN: &[u8] =
    b",\"a\":,\"b\":,\"c\":,\"d\":,\"e\":,\"f\":,\"g\":,\"h\":,\"i\":,\"j\":,\"k\":,\"l\":,\"a12345678\":,\"b12345678\":,\"c12345678\":,\"d12345678\":,\"e12345678\":,\"f12345678\":,\"g12345678\":,\"b12345678\":";

/// An object of fourteen names, and one that has another name behind the first ten of them, then the eleventh, and at
/// last the tenth again.
static TWO_OBJECTS: &[u8] =
    b"{,\"a\":,\"b\":,\"c\":,\"d\":,\"e\":,\"f\":,\"g\":,\"h\":,\"i\":,\"j\":,\"k\":,\"l\":,\"m\":,\"n\":}{,\"a\":,\"b\":,\"c\":,\"d\":,\"e\":,\"f\":,\"g\":,\"h\":,\"i\":,\"j\":,\"z\":,\"k\":,\"j\":}";

#[test]
fn many_names(rt: HostRuntime) {
    let alloc = rt.alloc();
    assert!(rt; twin_place(alloc, TWENTY).is_none());
    assert!(rt; twin_place(alloc, TWENTY_TWIN) == Some(151));
    assert!(rt; twin_place(alloc, TWO_OBJECTS) == Some(133));
}

#[test]
fn numbers(rt: HostRuntime) {
    match valued_number(b"-1.5 ,", 1, Coords::Exact) {
        Some(number) => assert!(rt; number.len == 4 && number.value == -15),
        None => assert!(rt; false),
    }
    assert!(rt; valued_len(b"-15e-1 ,", 1, Coords::Exact) == Some(6));
    assert!(rt; valued_len(b"1.25", 1, Coords::Exact).is_none());
    assert!(rt; may_begin(b"9", 0) && !may_begin(b"a", 0) && !may_begin(b"9", 1));
    assert!(rt; position_end(b"] ", 0, 0) == Some(1) && position_end(b"\n ]", 0, 1) == Some(3));
    assert!(rt;
        position_end(b",3 , 4] x", 0, 0) == Some(7) && position_end(b" ,3\t]", 0, 4) == Some(5)
    );
    assert!(rt; position_end(b",x]", 0, 0).is_none());
}
