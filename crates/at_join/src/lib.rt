//! The join of two lists of entries: all pairs of which the shapes meet.
//!
//! [`pairs_plain`] is the plain definition, by two loops. [`pairs_grid`] gives the same list by a [`Grid`] of 8 by 8
//! cells, of which each is a block of a job that several threads share. A pair of which the extents meet belongs to the
//! one cell in which its reference point lies, the greater of the two least x and the greater of the two least y; so no
//! pair is found twice.
//!
//! Within a cell the pairs are found by runs of 16, 256 and 4,096 neighbouring entries, each with the least extent
//! round them: where it is off, all of them are passed over at once. The second list is gone over once for each run of
//! 16 of the first, and each of these looks only at what was near the run; only where the second is far longer, once
//! for each entry of the first. Which entries are neighbours decides the time alone and no answer.
//!
//! `towns` and `lakes` are lists of two squares each, of which three pairs meet:
//! ```
//! let plain = pairs_plain(alloc, &towns, &lakes)?;
//! let pairs = pairs_grid(&rt, alloc, towns, lakes, 4, &Free)?;
//! assert!(rt; pairs.as_slice() == plain.as_slice());
//! assert_eq!(rt; pairs.as_slice().len(), 3);
//! ```
#![tactic(auto)]

mod boxes;
mod cells;
mod covers;
mod finding;
mod grid;
mod job;
mod keys;
mod near;
mod outlines;
mod plain;
mod run;
mod sides;
mod steps;

pub use grid::Grid;
pub use job::{GridJob, Joining, PairPart};
pub use plain::pairs_plain;
pub use run::pairs_grid;
pub use steps::Steps;
