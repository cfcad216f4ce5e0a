//! The query: its line, read, its tests, and what it looks at.

pub mod boxes;
pub mod bytes;
pub mod coordinates;
pub mod copying;
pub mod filters;
pub mod looks;
pub mod precision;
pub mod queries;
pub mod reading;
pub mod strings;
pub mod targets;
