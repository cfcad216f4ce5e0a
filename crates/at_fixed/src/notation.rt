//! The two formats whose numbers are read.

/// A format's way to spell numbers.
#[derive(Clone, Copy, Debug, PartialEq, Eq)]
pub enum Notation {
    /// The numbers of JSON (RFC 8259 section 6).
    Json,
    /// The signed numeric literals of Well-Known Text (OGC 06-103r4 section 7.2.1).
    Wkt,
}
