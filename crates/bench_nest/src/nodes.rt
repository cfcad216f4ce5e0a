//! The algebra that counts the values of a tree.

ghost use Rattle.std.specs.Prelude.{◌≡◌, ◌%◌, ◌^◌, List, sum, sum_by, All, IfOk};
ghost use Rattle.at_nest.specs.Tree.{Tree, Members, array as array_tree, object as object_tree};
ghost use Rattle.at_nest.specs.Folds.{trees, AreItemFolds, AreMemberFolds};
ghost use Rattle.bench_nest.specs.Nodes.{IsAny, CountsNodes, CountsMany};

use crate::passing::pass_opening;
use at_nest::{Algebra, Attempt, Member};
use at_text::Memory;
use std::alloc::Global;

/// Brackets stand at most so deep in a value that is read at once.
const DEEPEST: u8 = 12;

/// The algebra: an atom is how many values the tree has.
#[derive(Drop)]
pub struct Nodes {}

/// The sum, the type's range wrapped round.
fn sum_of(counts: &[u64]) -> u64
    ensures { result ≡ sum counts.now % 2 ^ 64 }
{
    let mut total = 0u64;
    for count in counts {
        total = total.wrapping_add(*count);
    }
    total
}

/// The sum of the values' counts, the type's range wrapped round.
fn sum_of_members(members: &[Member<u64>]) -> u64
    ensures { result ≡ sum_by (λ m. m.value) members.now % 2 ^ 64 }
{
    let mut total = 0u64;
    for member in members {
        total = total.wrapping_add(member.value);
    }
    total
}

impl Algebra for Nodes {
    type Atom = u64;

    ghost is_own = { λ _. IsAny };

    ghost is_fold = { λ _. CountsNodes };

    ghost is_run = { λ _. CountsMany };

    fn scalar(&self, _alloc: Global, _text: &[u8], _at: u32) -> Result<u64, Memory> {
        Ok(1)
    }

    fn array(&self, _alloc: Global, at: u32, items: Vec<u64>) -> Result<u64, Memory>
        requires { All IsAny items.items }
        ensures own { IfOk result IsAny }
        ensures fold { IfOk result (λ n. (ts : List Tree) → AreItemFolds CountsNodes CountsMany items.items ts
            → CountsNodes n (array_tree at (trees ts))) }
    {
        let _ = at;
        Ok(sum_of(items.as_slice()).wrapping_add(1))
    }

    fn object(&self, _alloc: Global, at: u32, members: Vec<Member<u64>>) -> Result<u64, Memory>
        requires { All (λ m. IsAny m.value) members.items }
        ensures own { IfOk result IsAny }
        ensures fold { IfOk result (λ n. (ms : Members) → AreMemberFolds CountsNodes members.items ms
            → CountsNodes n (object_tree at ms)) }
    {
        let _ = at;
        Ok(sum_of_members(members.as_slice()).wrapping_add(1))
    }

    fn value(&self, _alloc: Global, text: &[u8], at: u32) -> Result<Attempt<u64>, Memory> {
        let _ = at;
        match pass_opening(text, DEEPEST) {
            Ok(passed) => Ok(Attempt::Whole {
                len: passed.end as u32,
                atom: passed.count,
            }),
            Err(place) => Ok(Attempt::Unsaid {
                looked: place.min(text.len()) as u32,
            }),
        }
    }
}
