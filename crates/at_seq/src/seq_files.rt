//! A sequence of which a query is asked.

ghost use Rattle.std.specs.Prelude.{◌≤◌, ◌^◌, length};

use at_geojson::GeoAlgebra;
use std::alloc::Global;

/// The file of a sequence that is read: what is asked of it, where memory comes from, and its bytes.
#[derive(Clone, Copy)]
pub struct SeqFile<'a> {
    pub algebra: &'a GeoAlgebra,
    pub alloc: Global,
    pub bytes: &'a [u8],
    ghost fits: { length bytes.now ≤ 2 ^ 28 },
}
