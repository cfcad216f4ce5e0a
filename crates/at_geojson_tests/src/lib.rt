//! Tests of the public calls of `at_geojson`, from outside, as a caller makes them.
#![tactic(auto)]

#[cfg(test)]
mod example_tests;
#[cfg(test)]
mod front_tests;
#[cfg(test)]
mod measure_tests;
#[cfg(test)]
mod position_tests;
#[cfg(test)]
mod run_tests;
#[cfg(test)]
mod tests;
#[cfg(test)]
mod text_tests;
#[cfg(test)]
mod track_tests;
