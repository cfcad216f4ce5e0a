//! Items of an array that are joined as they come.

pub mod runs;
pub mod series;
pub mod tracks;
pub mod two_ended;
