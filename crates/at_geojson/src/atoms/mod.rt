//! What is kept of a value, and the atoms of scalars and arrays, made item by item.

pub mod atom;
pub mod geometries;
pub mod lists;
pub mod readings;
pub mod scalars;
pub mod shapes;
pub mod sorts;
