//! The kinds of objects that GeoJSON names (RFC 7946 section 1.4).

ghost use Rattle.std.specs.Prelude.{◌≡◌};
ghost use Rattle.at_scan.specs.Names.{kind_of_text};

use crate::spellings::Spelling;

/// What an object says by its member `type` that it is (RFC 7946 section 1.4).
#[derive(Clone, Copy, Debug, PartialEq, Eq)]
pub enum Kind {
    FeatureCollection,
    Feature,
    Point,
    MultiPoint,
    LineString,
    MultiLineString,
    Polygon,
    MultiPolygon,
    GeometryCollection,
}

/// The kind of which this is the name.
pub fn kind_of<S: Spelling>(name: S) -> Option<Kind>
    ensures { result ≡ kind_of_text (S.spelled name) }
{
    if name.is_word(b"Point") {
        Some(Kind::Point)
    } else if name.is_word(b"Feature") {
        Some(Kind::Feature)
    } else if name.is_word(b"Polygon") {
        Some(Kind::Polygon)
    } else if name.is_word(b"MultiPoint") {
        Some(Kind::MultiPoint)
    } else if name.is_word(b"LineString") {
        Some(Kind::LineString)
    } else if name.is_word(b"MultiPolygon") {
        Some(Kind::MultiPolygon)
    } else if name.is_word(b"MultiLineString") {
        Some(Kind::MultiLineString)
    } else if name.is_word(b"FeatureCollection") {
        Some(Kind::FeatureCollection)
    } else if name.is_word(b"GeometryCollection") {
        Some(Kind::GeometryCollection)
    } else {
        None
    }
}
