//! The names of members of features and geometries, with their colons, and the names of kinds: sixteen bytes are looked
//! at together.

ghost use Rattle.std.specs.Prelude.{◌≡◌, ◌+◌, ◌<◌, ◌≤◌, ◌^◌, true, length, IfSome};
ghost use Rattle.at_fixed.specs.NumberSoFar.{between};
ghost use Rattle.at_lex.specs.Spans.{AreSpaces};
ghost use Rattle.at_scan.specs.KnownNames.{BeginsAlike, StandsWord, NamesField, NamesKind, IsFieldName, IsKindName};

use crate::fields::{Field, is_kind};
use crate::kinds::Kind;
use crate::members::{FieldName, field_name};
use crate::places::{NamePlace, skip_spaces};
use crate::short_texts::{LANES, first_set};
use std::simd::prelude::*;

/// The kind that a text names, and the place behind it.
#[derive(Clone, Copy)]
pub struct KindRead {
    pub end: usize,
    pub kind: Kind,
}

const TYPE: &[u8] = b"\"type\":         ";

const COORDINATES: &[u8] = b"\"coordinates\":  ";

const GEOMETRY: &[u8] = b"\"geometry\":     ";

const PROPERTIES: &[u8] = b"\"properties\":   ";

const FEATURE: &[u8] = b"\"Feature\"       ";

const POINT: &[u8] = b"\"Point\"         ";

const LINE_STRING: &[u8] = b"\"LineString\"    ";

const POLYGON: &[u8] = b"\"Polygon\"       ";

const COLLECTION: &[u8] = b"\"FeatureCollecti";

const MULTI_POLYGON: &[u8] = b"\"MultiPolygon\"  ";

/// How many of the sixteen bytes at a place are those of the word, up to the first that isn't.
#[inline(always)]
fn same_lanes(text: &[u8], at: usize, word: &[u8]) -> usize
    requires text { at + 16 ≤ length text.now }
    requires word { 16 ≤ length word.now }
    ensures { BeginsAlike text.now at word.now result }
{
    let others = u8x16::from_slice(&text[at..]).simd_ne(u8x16::from_slice(word));
    first_set(others.to_bitmask())
}

/// Whether the first bytes of the word, so many, stand at the place. Near the end of the text the answer is no.
#[inline(always)]
pub fn stands_word(text: &[u8], at: usize, word: &[u8], count: usize) -> bool
    requires inside { at ≤ length text.now }
    requires word { 16 ≤ length word.now }
    ensures { result ≡ true → StandsWord text.now at word.now count }
{
    text.len() - at >= LANES && same_lanes(text, at, word) >= count
}

/// The name of the field behind white space, where this word of so many bytes, with quotes and colon, stands there.
#[inline(always)]
fn word_name(
    text: &[u8],
    at: usize,
    first: usize,
    word: &[u8],
    count: usize,
    field: Field,
) -> Option<FieldName>
    requires order { at ≤ first }
    requires inside { first ≤ length text.now }
    requires spaces { AreSpaces (between text.now at first) }
    requires word { NamesField word.now count field }
    ensures { IfSome result (IsFieldName text.now at) }
{
    if !stands_word(text, first, word, count) {
        return None;
    }
    let end = first + count - 1;
    let place = NamePlace {
        first,
        end,
        colon: end,
    };
    Some(FieldName { place, field })
}

/// The name of a member of features or of geometries behind white space, with its colon right behind it.
#[inline(always)]
pub fn known_name(text: &[u8], at: usize, first: usize) -> Option<FieldName>
    requires order { at ≤ first }
    requires within { first ≤ length text.now }
    requires spaces { AreSpaces (between text.now at first) }
    ensures { IfSome result (IsFieldName text.now at) }
{
    if text.len() - first < LANES {
        return None;
    }
    match text[first + 1] {
        b't' => word_name(text, at, first, TYPE, 7, Field::Kind),
        b'c' => word_name(text, at, first, COORDINATES, 14, Field::Coordinates),
        b'g' => word_name(text, at, first, GEOMETRY, 11, Field::Geometry),
        b'p' => word_name(text, at, first, PROPERTIES, 13, Field::Properties),
        _ => None,
    }
}

/// The kind, where this word of so many bytes, its name with quotes, stands at the place.
#[inline(always)]
fn word_kind(text: &[u8], at: usize, word: &[u8], count: usize, kind: Kind) -> Option<KindRead>
    requires inside { at ≤ length text.now }
    requires word { NamesKind word.now count kind }
    ensures { IfSome result (IsKindName text.now at) }
{
    if !stands_word(text, at, word, count) {
        return None;
    }
    let end = at + count;
    Some(KindRead { end, kind })
}

/// Whether the name of the kind of collections of features seems to begin at the place: it is longer than what is looked
/// at together.
pub fn begins_collection(text: &[u8], at: usize) -> bool {
    at <= text.len() && stands_word(text, at, COLLECTION, LANES)
}

/// One of the kinds that are named most often, whose name stands at the place.
#[inline(always)]
pub fn known_kind(text: &[u8], at: usize) -> Option<KindRead>
    requires { at ≤ length text.now }
    ensures { IfSome result (IsKindName text.now at) }
{
    if text.len() - at < LANES {
        return None;
    }
    match text[at + 3] {
        b'a' => word_kind(text, at, FEATURE, 9, Kind::Feature),
        b'i' => word_kind(text, at, POINT, 7, Kind::Point),
        b'n' => word_kind(text, at, LINE_STRING, 12, Kind::LineString),
        b'l' => if text[at + 1] == b'P' {
            word_kind(text, at, POLYGON, 9, Kind::Polygon)
        } else {
            word_kind(text, at, MULTI_POLYGON, 14, Kind::MultiPolygon)
        },
        _ => None,
    }
}

/// Whether the object at the place seems to name itself a collection of features by its first member.
pub fn names_collection(text: &[u8], at: usize) -> bool
    requires inside { at < length text.now }
    requires short { length text.now ≤ 2 ^ 28 }
{
    match field_name(text, at + 1) {
        Ok(name) => is_kind(name.field)
            && begins_collection(text, skip_spaces(text, name.place.colon + 1)),
        Err(_) => false,
    }
}
