//! The lines of a file: where they begin and end, what is made of them, and fragments of a file.

pub mod files;
pub mod folding;
pub mod fragments;
pub mod searches;
