//! Two algebras whose atom is the number of nodes of a tree, names not counted.

ghost use Rattle.std.specs.Prelude.{IfOk};

use at_nest::{Algebra, Member};
use at_text::Memory;
use std::alloc::Global;
use std::sync::atomic::{AtomicU64, Ordering};

/// The nodes of an array whose items have so many.
pub fn nodes_of_items(items: Vec<u64>) -> u64 {
    let mut nodes: u64 = 1;
    for item in items {
        nodes = nodes.wrapping_add(item);
    }
    nodes
}

/// The nodes of an object whose members have so many.
pub fn nodes_of_members(members: Vec<Member<u64>>) -> u64 {
    let mut nodes: u64 = 1;
    for member in members {
        nodes = nodes.wrapping_add(member.value);
    }
    nodes
}

/// The algebra of these numbers.
pub struct Tally;

impl Algebra for Tally {
    type Atom = u64;

    ghost is_own = { λ _ _. Unit {0} };

    ghost is_fold = { λ _ _ _. Unit {0} };

    ghost is_run = { λ _ _ _. Unit {0} };

    fn scalar(&self, _alloc: Global, _text: &[u8], _at: u32) -> Result<u64, Memory> {
        Ok(1)
    }

    fn array(&self, _alloc: Global, _at: u32, items: Vec<u64>) -> Result<u64, Memory>
        ensures { IfOk result (λ _. Unit {0}) }
    {
        Ok(nodes_of_items(items))
    }

    fn object(&self, _alloc: Global, _at: u32, members: Vec<Member<u64>>) -> Result<u64, Memory>
        ensures { IfOk result (λ _. Unit {0}) }
    {
        Ok(nodes_of_members(members))
    }
}

/// The same, with the number of calls that made an atom from a text, items or members.
#[derive(Drop)]
pub struct Counted {
    pub calls: AtomicU64,
}

impl Counted {
    /// No call yet.
    pub fn new() -> Counted {
        Counted {
            calls: AtomicU64::new(0),
        }
    }

    /// How many calls there were.
    pub fn calls(&self) -> u64 {
        self.calls.load(Ordering::SeqCst)
    }

    fn call(&self) {
        let _ = self.calls.fetch_add(1, Ordering::SeqCst);
    }
}

impl Algebra for Counted {
    type Atom = u64;

    ghost is_own = { λ _ _. Unit {0} };

    ghost is_fold = { λ _ _ _. Unit {0} };

    ghost is_run = { λ _ _ _. Unit {0} };

    fn scalar(&self, _alloc: Global, _text: &[u8], _at: u32) -> Result<u64, Memory> {
        self.call();
        Ok(1)
    }

    fn array(&self, _alloc: Global, _at: u32, items: Vec<u64>) -> Result<u64, Memory>
        ensures { IfOk result (λ _. Unit {0}) }
    {
        self.call();
        Ok(nodes_of_items(items))
    }

    fn object(&self, _alloc: Global, _at: u32, members: Vec<Member<u64>>) -> Result<u64, Memory>
        ensures { IfOk result (λ _. Unit {0}) }
    {
        self.call();
        Ok(nodes_of_members(members))
    }
}
