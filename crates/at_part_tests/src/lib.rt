//! Tests of the public call of `at_part`, from outside, as a caller makes it.
#![tactic(auto)]

#[cfg(test)]
mod tests;
