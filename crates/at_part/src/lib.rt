//! The program for parts of files: the words and the top call of `atgis-part`.
#![tactic(auto)]

mod part;

pub use part::part_top;
