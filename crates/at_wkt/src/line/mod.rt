//! One line: its bytes, numbers, positions, lists of them, parts and geometries, and the plain ways beside them.

pub mod bytes;
pub mod checks;
pub mod dimension;
pub mod geometries;
pub mod kinds;
pub mod numbers;
pub mod parts;
pub mod paths;
pub mod positions;
pub mod reading;
pub mod rooms;
pub mod sites;
pub mod sources;
pub mod words;
