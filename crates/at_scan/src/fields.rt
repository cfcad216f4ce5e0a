//! The members of an object for which some kind of object asks, by their names (RFC 7946 section 3).

ghost use Rattle.std.specs.Prelude.{◌≡◌, false};
ghost use Rattle.at_scan.specs.Fields.{field_of, is_kind as names_kind, is_coordinates as names_coordinates, is_no_field};

use crate::spellings::Spelling;

/// Which member of an object has a name.
#[derive(Clone, Copy, Debug, PartialEq, Eq)]
pub enum Field {
    /// `type`
    Kind,
    Coordinates,
    Geometry,
    Properties,
    Features,
    Geometries,
    /// A member for which no kind asks.
    Other,
}

/// Whether no kind asks for the member.
#[inline(always)]
pub fn is_other(field: Field) -> bool
    ensures { result ≡ is_no_field field }
{
    matches!(field, Field::Other)
}

/// Whether the member is `type`.
#[inline(always)]
pub fn is_kind(field: Field) -> bool
    ensures { result ≡ names_kind field }
{
    matches!(field, Field::Kind)
}

/// Whether the member is `coordinates`.
#[inline(always)]
pub fn is_coordinates(field: Field) -> bool
    ensures { result ≡ names_coordinates field }
{
    matches!(field, Field::Coordinates)
}

/// The member that has the name.
pub fn field_named<S: Spelling>(name: S) -> Field
    ensures { result ≡ field_of (S.spelled name) }
{
    if name.is_word(b"type") {
        Field::Kind
    } else if name.is_word(b"coordinates") {
        Field::Coordinates
    } else if name.is_word(b"geometry") {
        Field::Geometry
    } else if name.is_word(b"properties") {
        Field::Properties
    } else if name.is_word(b"features") {
        Field::Features
    } else if name.is_word(b"geometries") {
        Field::Geometries
    } else {
        Field::Other
    }
}

/// Whether the bytes may be the name of a member for which some kind asks: they begin as one of those names does.
#[inline(always)]
fn begins_field(name: &[u8]) -> bool
    ensures { result ≡ false → field_of name.now ≡ Field.Other }
{
    !name.is_empty() && matches!(name[0], b't' | b'c' | b'g' | b'p' | b'f')
}

/// The member that has the name, by its bytes: what most tables name is seen by the first of them.
#[inline(always)]
pub fn field_of_bytes(name: &[u8]) -> Field
    ensures { result ≡ field_of name.now }
{
    if begins_field(name) {
        field_named(name)
    } else {
        Field::Other
    }
}
