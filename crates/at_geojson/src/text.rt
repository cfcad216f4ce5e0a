//! A text of which a query is asked.

ghost use Rattle.std.specs.Prelude.{◌+◌, ◌≤◌, ◌^◌, length};

use crate::asked::GeoAlgebra;
use std::alloc::Global;

/// A text of JSON that is read at once: what is asked of it, where memory comes from, its bytes, and the offset of the
/// first of them in its file.
#[derive(Clone, Copy)]
pub struct Text<'a> {
    pub algebra: &'a GeoAlgebra,
    pub alloc: Global,
    pub bytes: &'a [u8],
    pub base: u32,
    ghost fits: { base + length bytes.now ≤ 2 ^ 28 },
}
