//! A crew of passes that share out the blocks of a job and merge what the blocks give, pairwise up a tree, without a
//! lock.
//!
//! A [`Job`] says what is done with one block and how the parts of two neighbouring stretches become one. A [`Crew`]
//! has its blocks; its [`Chief`] makes a [`Pass`] for each thread. A pass claims blocks one at a time, runs them, and
//! settles each part: it climbs the tree over the blocks for as long as the neighbour's part is there, and merges the
//! two. Whoever comes first to a node leaves its part there and goes on to the next block, so no pass waits for
//! another. Once all passes are taken back, the crew closes with the part of the whole. [`run_crew`] does all of this
//! with threads of its own.
//!
//! Proved for every job, and for whatever way the steps of the threads fall in: each block stands once in the lists of
//! what was claimed, each inner node of the tree once in the lists of what was merged, no slot is touched by two
//! threads at a time, and the whole stands for all blocks. To claim, to settle and to work waits for no other thread:
//! no call takes `Wait`, without which no lock can be waited for. Nothing is said of speed, of progress, of which pass
//! does what, or of what a pass does with the gate.
//!
//! `docs/CREW.md` tells the rule behind it, with a figure.
//!
//! `Spelling` is a [`Job`] whose part of a block is a letter, or none for want of memory. By two
//! threads too, the letters of the whole stand in the order of the blocks:
//! ```
//! let job = Spelling { blocks: 4 };
//! let whole = run_crew(&rt, alloc, &job, 4, 2, &Free)?;
//! let Some(text) = whole else {
//!     return Err(Memory.into());
//! };
//! assert!(rt; text.as_str() == "abcd");
//! ```
#![tactic(auto)]

mod chief;
mod climb;
mod crew;
mod gate;
mod job;
mod pass;
mod run;
mod steps;
mod view;

pub use chief::Chief;
pub use crew::{Closed, Crew};
pub use gate::{Free, Gate};
pub use job::Job;
pub use pass::Pass;
pub use run::run_crew;
