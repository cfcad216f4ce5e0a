//! What benchmarks of the plane share: random positions, and the numbers among the words of the command line.
#![tactic(auto)]

mod random;
mod words;

pub use random::Random;
pub use words::word;
