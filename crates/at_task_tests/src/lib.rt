//! Tests of the public calls of `at_task`, from outside, as a caller makes them.
#![tactic(auto)]

#[cfg(test)]
mod asking;
#[cfg(test)]
mod poll_tests;
#[cfg(test)]
mod source_tests;
#[cfg(test)]
mod tests;
#[cfg(test)]
mod way_tests;
