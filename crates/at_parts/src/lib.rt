//! What parts of a file say of the whole file: laws over the definitions of the other crates, for whoever cuts files that
//! are too large for one run.
//!
//! A function here has no parameters and does nothing. What it is for is its clause, which is proved.
#![tactic(auto)]

mod answers;
mod collections;
mod records;

pub use answers::{answers_move, answers_sum_up};
pub use collections::{first_syntax_fault, sound_parts};
pub use records::{
    encoding_of_parts, line_faults, line_features, sequence_faults, sequence_features,
};
