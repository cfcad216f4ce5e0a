//! Tests of the public calls of `at_blocks`, from outside, as a caller makes them.
#![tactic(auto)]

#[cfg(test)]
mod tests;
