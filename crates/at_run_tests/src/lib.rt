//! Tests of the public calls of `at_run`, from outside, as a caller makes them.
#![tactic(auto)]

#[cfg(test)]
mod join_tests;
#[cfg(test)]
mod tests;
