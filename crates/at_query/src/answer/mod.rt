//! The answer: which features are kept, what is told of positions, the parts that answers are gathered from, and printed
//! answers.

pub mod accumulators;
pub mod adding;
pub mod answers;
pub mod extents;
pub mod gathered;
pub mod holding;
pub mod merging;
pub mod parts;
pub mod printing;
pub mod results;
pub mod shape_hulls;
pub mod tallies;
