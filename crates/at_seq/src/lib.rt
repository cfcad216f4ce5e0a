//! GeoJSON text sequences (RFC 8142), read in blocks that are cut anywhere.
//!
//! The byte 1E (RS) stands before each JSON text, and a line feed behind it. This reader asks for no line feed, and
//! passes over what is white space alone before the first separator or between two. [`part_seq`] reads each block
//! without knowing what stands before it, and gives the part of a query that the features of all records make, or the
//! sequence's first fault.
//!
//! `query` counts features. It is asked of a sequence of one text, which two passes read in two blocks:
//! ```
//! let bytes = b"\x1E{\"type\":\"Point\",\"coordinates\":[1,2]}\n";
//! let how = Coords::Exact;
//! let cuts = Cuts::even(alloc, 0, 38, 2)?;
//! let part = part_seq(&rt, alloc, bytes, &cuts, &query, 7, how, 2, &Free)?;
//! assert!(rt; matches!(part, Part::Count(1)));
//! ```
#![tactic(auto)]

mod finishing;
mod fragments;
mod readers;
mod records;
mod searches;
mod seq_files;
mod sequences;

pub use sequences::{SeqEnd, part_of_whole, part_seq};
