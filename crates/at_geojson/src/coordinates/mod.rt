//! Coordinates: positions, lists of them and areas, by one reader for all that is made of them.

pub mod kinds;
pub mod makers;
pub mod makings;
pub mod pairs;
pub mod rings;
pub mod spots;
