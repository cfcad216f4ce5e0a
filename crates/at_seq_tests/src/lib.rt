//! Tests of the public calls of `at_seq`, from outside, as a caller makes them.
#![tactic(auto)]

#[cfg(test)]
mod tests;
