//! Pieces of a file of GeoJSON, each with what is found of its encoding.

ghost use Rattle.std.specs.Prelude.{ℕ, ◌+◌, ◌≤◌, ◌^◌, length};
ghost use Rattle.at_text.specs.Spans.{AreNeighbours, IsMerged};
ghost use Rattle.at_run.specs.JsonFragments.{StandsForText};

use at_blocks::{joined_span, valid_span};
use at_geojson::GeoAlgebra;
use at_nest::{Fragment, merge, run_block};
use at_text::Span;
use std::alloc::Global;

/// What a piece of a file of GeoJSON gives.
#[derive(Drop)]
pub struct JsonFragment {
    /// What is read of the text.
    pub text: Fragment<GeoAlgebra>,
    /// Bytes of the piece that are valid UTF-8, by their offsets in the file.
    pub valid: Span,
}

/// The fragment of a piece, whose first byte has the offset `base`. Its encoding is tested here, by whoever reads it.
pub fn run_json(alloc: Global, algebra: &GeoAlgebra, piece: &[u8], base: u32) -> JsonFragment
    requires { base + length piece.now ≤ 2 ^ 28 }
    ensures { StandsForText algebra.now base piece.now result }
{
    JsonFragment {
        text: run_block(alloc, algebra, piece, base),
        valid: valid_span(piece, base),
    }
}

/// The fragment of two neighbouring spans of the bytes.
pub fn merge_json(
    alloc: Global,
    algebra: &GeoAlgebra,
    bytes: &[u8],
    left: JsonFragment,
    right: JsonFragment,
) -> JsonFragment
    requires fits { length bytes.now ≤ 2 ^ 28 }
    requires neighbours { (i : ℕ) × (j : ℕ) × (k : ℕ)
        × AreNeighbours (StandsForText algebra.now) bytes.now i j k left right }
    ensures { IsMerged (StandsForText algebra.now) bytes.now left right result }
{
    JsonFragment {
        text: merge(alloc, algebra, bytes, left.text, right.text),
        valid: joined_span(bytes, left.valid, right.valid),
    }
}
