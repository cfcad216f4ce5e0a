//! The words: what they spell, and the line that they say.

pub mod flags;
pub mod form;
pub mod line;
pub mod names;
pub mod pieces;
pub mod said;
pub mod values;
