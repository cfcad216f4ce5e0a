//! Tests of the public calls of `at_hull`, from outside, as a caller makes them.
#![tactic(auto)]

#[cfg(test)]
mod builder_tests;
#[cfg(test)]
mod grid_tests;
#[cfg(test)]
mod tests;
