//! Tests of the public calls of `at_cli`, from outside, as a caller makes them.
#![tactic(auto)]

#[cfg(test)]
mod hostile_tests;
#[cfg(test)]
mod line_tests;
#[cfg(test)]
mod tests;
