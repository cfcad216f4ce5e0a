//! Tests of the public calls of `at_scan`, from outside, as a caller makes them.
#![tactic(auto)]

#[cfg(test)]
mod tests;
