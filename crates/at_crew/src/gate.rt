//! Which blocks are given up, and where a block is told of before it is run.

ghost use Rattle.std.specs.Prelude.{ℕ, List, [], IsTrue, ◌↔◌, Contains};

/// Which blocks are given up, and where a block is told of before it is run.
///
/// The code of `Crew::work` enters the gate with each block that it claims; no clause says so, so a gate can't rest on
/// it. Whether a block is given up is for the job to ask.
pub trait Gate: Sync {
    /// The blocks that are given up, which no call changes.
    ghost given_up: { Self → List ℕ };

    /// Is told of a block, by the thread that claimed it. No clause says when, how often, or that it is told at all.
    fn enter(&self, block: u32);

    /// Whether the block is given up.
    fn gives_up(&self, block: u32) -> bool
        ensures { IsTrue result ↔ Contains (given_up self.now) block };
}

/// The gate that holds nothing up and gives nothing up.
#[derive(Clone, Copy, Debug)]
pub struct Free;

impl Gate for Free {
    ghost given_up = { λ _. [] };

    fn enter(&self, _block: u32) {}

    fn gives_up(&self, _block: u32) -> bool {
        false
    }
}
