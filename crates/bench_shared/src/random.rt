//! Random numbers, the same as in the baseline.

ghost use Rattle.std.specs.Prelude.{◌<◌, ◌^◌};
ghost use Rattle.at_geom.specs.Segments.{IsInRange};

use at_geom::Pos;

/// A linear congruential generator, the same as in the baseline.
#[derive(Drop)]
pub struct Random {
    seed: u64,
}

impl Random {
    /// Begins where the baseline begins.
    pub fn new() -> Self {
        Random { seed: 20 }
    }

    fn coordinate(&mut self) -> u32
        ensures { result < 2 ^ 20 }
    {
        self.seed = self
            .seed
            .wrapping_mul(6_364_136_223_846_793_005)
            .wrapping_add(1_442_695_040_888_963_407);
        (self.seed >> 44) as u32
    }

    /// Some number below 2^20.
    pub fn number(&mut self) -> u64
        ensures { result < 2 ^ 20 }
    {
        u64::from(self.coordinate())
    }

    /// Some number of at most 4095.
    pub fn below(&mut self) -> u64
        ensures { result < 4096 }
    {
        u64::from(self.coordinate() % 4_096)
    }

    /// A position with both coordinates below 2^20.
    pub fn position(&mut self) -> Pos
        ensures { IsInRange result }
    {
        Pos {
            x: i64::from(self.coordinate()),
            y: i64::from(self.coordinate()),
        }
    }
}
