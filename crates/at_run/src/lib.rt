//! A query over the bytes of a file, cut into blocks anywhere.
//!
//! [`answer`] reads each block without knowing what stands before it, merges the results of neighbours, and gives the
//! answer over the file's features or the file's first fault. What its contract says of the two has no word of the
//! cuts, of the passes that run at once, or of the order of their steps: that is what "for every cut" and "for every
//! order" mean.
//!
//! A file is of one of three forms: one GeoJSON text, a sequence of such texts (at_seq), or lines of Well-Known Text, of
//! which each has a geometry and may begin with a label (RFC 8259 section 7).
//!
//! [`answer_join`] does so for two files whose features are joined.
//!
//! [`Reader`] is the reader of pieces of any form, for whoever has them read in another order. The pieces of a sequence
//! it reads when all bytes are there.
//!
//! `query` counts features. It is asked of a file of two lines, which two passes read in two blocks:
//! ```
//! let file = b"POINT (1 2)\nPOINT (3 4)\n";
//! let (form, how) = (Form::Wkt, Coords::Exact);
//! let cuts = Cuts::even(alloc, 0, 24, 2)?;
//! let found = answer(&rt, alloc, file, form, &cuts, &query, 7, how, 2, &Free)?;
//! assert_eq!(rt; answer_text(alloc, &found, 7)?.as_str(), "2\n");
//! ```
#![tactic(auto)]

mod answers;
mod faults;
mod forms;
mod joins;
mod json_files;
mod json_fragments;
mod labels;
mod line_files;
mod line_queries;
mod readers;
mod sequences;

pub use answers::{answer, part};
pub use faults::{JoinFault, RunFault};
pub use forms::Form;
pub use joins::{answer_join, entries_of, of_all};
pub use json_fragments::JsonFragment;
pub use readers::{FileFragment, Reader};
