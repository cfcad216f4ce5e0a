//! A text read in blocks.

ghost use Rattle.std.specs.Prelude.{◌≤◌, ◌<◌, ◌^◌, length};
ghost use Rattle.at_nest.specs.FragmentMeanings.{StandsFor};
ghost use Rattle.at_nest.specs.TextAnswers.{Answers};
ghost use Rattle.bench_nest.specs.Nodes.{IsCount};

use crate::nodes::Nodes;
use at_blocks::{Cuts, run_file};
use at_crew::Free;
use at_nest::{Fragment, NestEnd, finish_span, merge, run_block};
use at_text::{Pieces, Span};
use std::alloc::Global;
use std::thread::Threads;

/// JSON is read in pieces by its fragments.
impl Pieces for Nodes {
    type Fragment = Fragment<Nodes>;

    ghost stands = { λ _ at bytes fragment. StandsFor IsCount at bytes fragment };

    fn run_piece(&self, alloc: Global, piece: &[u8], base: u32) -> Fragment<Nodes> {
        run_block(alloc, self, piece, base)
    }

    fn merge_pieces(
        &self,
        alloc: Global,
        bytes: &[u8],
        left: Fragment<Nodes>,
        right: Fragment<Nodes>,
    ) -> Fragment<Nodes> {
        merge(alloc, self, bytes, left, right)
    }
}

/// How many values the JSON text has, counted in so many blocks by so many passes at once.
///
/// # Errors
/// Where the bytes are no JSON text, and want of memory.
pub fn count_nodes<R: Threads + Sync>(
    rt: &R,
    alloc: Global,
    bytes: &[u8],
    blocks: u32,
    workers: u32,
) -> Result<u64, NestEnd>
    requires fits { length bytes.now ≤ 2 ^ 28 }
    requires blocks { (0 < blocks) × (blocks ≤ 4096) }
    requires workers { (0 < workers) × (workers ≤ 64) }
    ensures { Answers IsCount 0 bytes.now result }
{
    let nodes = Nodes {};
    let Ok(cuts) = Cuts::even(alloc, 0, bytes.len() as u32, blocks) else {
        return Err(NestEnd::Memory);
    };
    let Ok(whole) = run_file(rt, alloc, &nodes, bytes, &cuts, workers, &Free) else {
        return Err(NestEnd::Memory);
    };
    let span = Span {
        from: 0,
        to: bytes.len() as u32,
    };
    finish_span(alloc, &nodes, bytes, span, whole)
}
