//! Whole values, features and runs of items that are read at once from the bytes of a text.

pub mod feature_runs;
pub mod features;
pub mod object_runs;
pub mod passing;
pub mod plain_geometries;
pub mod plain_objects;
pub mod position_runs;
pub mod values;
pub mod wholes;
