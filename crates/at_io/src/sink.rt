//! What text is written to.

ghost use Rattle.std.specs.Prelude.{◌≡◌, ◌≤◌, ℕ, List, Option, OnOk, OnErr};
ghost use Rattle.at_io.specs.Counts.{Rose};
ghost use Rattle.at_io.specs.Sinks.{Grows, GrowsByPrefix};

use crate::shelf::Failed;

/// What bytes are written to, piece by piece.
pub trait Sink {
    /// The bytes that it holds, where the sink tells that.
    ghost written: { Self → Option (List ℕ) };
    /// How often it has failed, a count that never falls and stands still at 2^64 - 1.
    ghost faults: { Self → ℕ };

    /// Writes the piece behind what is written. Where it is written, the count of faults is as before. After `Failed` a
    /// prefix of the piece may be written.
    fn put(&mut self, piece: &[u8]) -> Result<(), Failed>
        ensures ok { OnOk result (Grows (written self.old) (written self.new) piece.now) }
        ensures unfailed { OnOk result (faults self.new ≡ faults self.old) }

        // Failed comes only where the count of faults rose.
        ensures failed { OnErr result (Rose (faults self.old) (faults self.new)) }
        ensures kept { OnErr result (GrowsByPrefix (written self.old) (written self.new) piece.now) }
        ensures counted { faults self.old ≤ faults self.new };
}
