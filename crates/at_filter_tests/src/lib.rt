//! Tests of the public calls of `at_filter`, from outside, as a caller makes them.
#![tactic(auto)]

#[cfg(test)]
mod tests;
