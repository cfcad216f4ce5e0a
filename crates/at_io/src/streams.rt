//! The sink over a standard stream.

ghost use Rattle.std.specs.Prelude.{◌≡◌};

use crate::counts;
use crate::shelf::Failed;
use crate::sink::Sink;

/// A sink over a stream of std, as the standard output or the standard error. It tells no content: what reaches
/// the stream can't be known. What the stream refuses is a fault, and so is a write that takes nothing.
#[derive(Drop)]
pub struct StdSink<P> {
    stream: P,
    faults: u64,
}

impl<P: Print> StdSink<P> {
    /// A sink over the stream, with no fault so far.
    pub fn new(stream: P) -> Self
        ensures { ⟦<StdSink<P> as Sink>⟧.faults result ≡ 0 }
    {
        StdSink { stream, faults: 0 }
    }
}

impl<P: Print> Sink for StdSink<P> {
    ghost use Rattle.std.specs.Prelude.{None};

    ghost written = { λ _. None };

    ghost faults = { λ s. s.faults };

    fn put(&mut self, piece: &[u8]) -> Result<(), Failed> {
        if piece.is_empty() {
            return Ok(());
        }
        match self.stream.write_all(piece) {
            Ok(()) => Ok(()),
            Err(_) => {
                self.faults = counts::next(self.faults);
                Err(Failed)
            }
        }
    }
}
