//! The forms in which files are read.

/// How the bytes of a file are read.
#[derive(Clone, Copy, Debug, PartialEq, Eq)]
pub enum Form {
    /// One JSON text (RFC 7946).
    GeoJson,
    /// A geometry a line, with or without a label (OGC 06-103r4 section 7).
    Wkt,
    /// GeoJSON texts, each behind the byte RS (RFC 8142).
    Seq,
}
