//! Readers of pieces: any piece of a file alone, and what two neighbours gave put together.

ghost use Rattle.std.specs.Prelude.{ℕ, ◌+◌, ◌≤◌, ◌^◌, List, length};
ghost use Rattle.at_text.specs.Spans.{AreNeighbours, IsMerged};

use std::alloc::Global;

/// A way to read a file in pieces, cut anywhere: any piece alone, without knowing what stands before it, and what two
/// neighbours gave put together.
///
/// `stands` says which bytes a fragment stands for, of which the first has the offset. No call refuses: where memory is
/// wanted, the fragment is one that stands for any bytes. Which fragments those are, and what is made of the fragment
/// of a whole file, is each reader's own.
pub trait Pieces: Sync {
    /// What a piece gives.
    type Fragment: Send + Drop;

    /// Under this reader the fragment stands for the bytes, the first of which has the offset.
    ghost stands: { Self → ℕ → List ℕ → Self.Fragment → Type 0 };

    /// The fragment of a piece of a file, whose first byte stands at the offset `base`. It sees the piece alone.
    fn run_piece(&self, alloc: Global, piece: &[u8], base: u32) -> Self::Fragment
        requires { base + length piece.now ≤ 2 ^ 28 }
        ensures { stands self.now base piece.now result };

    /// The fragment of two neighbouring spans of the bytes.
    fn merge_pieces(
        &self,
        alloc: Global,
        bytes: &[u8],
        left: Self::Fragment,
        right: Self::Fragment,
    ) -> Self::Fragment
        requires fits { length bytes.now ≤ 2 ^ 28 }
        requires neighbours { (i : ℕ) × (j : ℕ) × (k : ℕ) × AreNeighbours (stands self.now) bytes.now i j k left right }
        ensures { IsMerged (stands self.now) bytes.now left right result };
}
