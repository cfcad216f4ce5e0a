//! Bytes of JSON, and what makes atoms of the values in them.

ghost use Rattle.std.specs.Prelude.{◌≤◌, ◌^◌, length};

use crate::algebra::Algebra;
use std::alloc::Global;

/// The bytes of a file, or of a piece of one, the algebra that makes atoms of the values in them, and memory for those.
#[derive(Drop)]
pub struct JsonSource<'a, A: Algebra> {
    pub alloc: Global,
    pub algebra: &'a A,
    pub bytes: &'a [u8],
    ghost fits: { length bytes.now ≤ 2 ^ 28 },
}
