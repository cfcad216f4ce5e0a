//! A file read in blocks: the places at which it is cut, the crew's job over any reader of pieces, and whether its
//! pieces are valid UTF-8.
//!
//! [`run_file`] has a crew run the blocks of any reader (`Pieces` of at_text), and [`run_blocks`] runs them one after
//! another. Each gives the fragment of all bytes between the first of the [`Cuts`] and the last, whatever lies between.
//!
//! A file of ten bytes is cut into four blocks, as even as they can be:
//! ```
//! let cuts = Cuts::even(alloc, 0, 10, 4)?;
//! assert!(rt; cuts.as_slice() == [0, 2, 5, 7, 10].as_slice());
//! ```
#![tactic(auto)]

mod blocks;
mod cuts;
mod encodings;
mod feature_cuts;
mod jobs;

pub use blocks::run_blocks;
pub use cuts::Cuts;
pub use encodings::{is_valid, is_valid_around, joined_span, valid_span};
pub use jobs::run_file;
