//! Tests of the public calls of `at_wkt`, from outside, as a caller makes them.
#![tactic(auto)]

#[cfg(test)]
mod cut_tests;
#[cfg(test)]
mod tests;
