//! Objects by their members: equal names, kinds, roles, and texts for which a query asks.

pub mod fields;
pub mod hashes;
pub mod members;
pub mod object_atoms;
pub mod texts;
pub mod twins;
