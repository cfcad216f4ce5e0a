//! Counts that stand still at their last value, and those of a shelf.

ghost use Rattle.std.specs.Prelude.{◌≡◌, ◌≤◌};
ghost use Rattle.at_io.specs.Counts.{next_count, Rose};

use crate::shelf::Failed;

/// What a shelf counts of its calls.
#[derive(Clone, Copy)]
pub struct Counts {
    /// The bytes that reads have given.
    pub taken: u64,
    /// The calls of `begin`.
    pub begins: u64,
    /// What `begins` was at the last call that failed.
    pub broken: u64,
    /// The calls that failed.
    pub faults: u64,
}

impl Counts {
    /// Nothing is counted yet.
    pub fn zero() -> Counts
        ensures { result ≡ record { taken = 0; begins = 0; broken = 0; faults = 0 } }
    {
        Counts {
            taken: 0,
            begins: 0,
            broken: 0,
            faults: 0,
        }
    }

    /// Counts a call of `begin`.
    pub fn begin(&mut self)
        ensures { self.new ≡ record self.old { begins = next_count self.old.begins } }
    {
        self.begins = next(self.begins);
    }

    /// Counts a call that fails.
    pub fn fail(&mut self) -> Failed
        ensures after { self.new ≡ record self.old { faults = next_count self.old.faults; broken = self.old.begins } }
        ensures rose { Rose self.old.faults self.new.faults }
        ensures counted { self.old.faults ≤ self.new.faults }
    {
        self.faults = next(self.faults);
        self.broken = self.begins;
        Failed
    }
}

/// One more, or the last `u64` once the count is there.
pub fn next(count: u64) -> u64
    ensures next { result ≡ next_count count }
    ensures rose { Rose count result }
    ensures counted { count ≤ result }
{
    count.saturating_add(1)
}
