//! How many numbers positions have.

ghost use Rattle.std.specs.Prelude.{◌≡◌};
ghost use Rattle.at_wkt.specs.Readers.{allows as allowed, allows_more as more_allowed};

/// How many numbers the positions of a kind word have (OGC 06-103r4 section 7.2.2).
#[derive(Clone, Copy, Debug, PartialEq, Eq)]
pub enum Dimension {
    /// Two, three or four: as many as the first position has.
    Open,
    /// As many as the letter behind the kind word says, or as the first position had.
    Fixed(u8),
}

impl Dimension {
    /// Whether a position may have so many numbers.
    #[inline(always)]
    pub fn allows(self, count: u8) -> bool
        ensures { result ≡ allowed self count }
    {
        match self {
            Dimension::Open => 2 <= count && count <= 4,
            Dimension::Fixed(numbers) => count == numbers,
        }
    }

    /// Whether a position may have more numbers than these.
    #[inline(always)]
    pub fn allows_more(self, count: u8) -> bool
        ensures { result ≡ more_allowed self count }
    {
        match self {
            Dimension::Open => count < 4,
            Dimension::Fixed(numbers) => count < numbers,
        }
    }
}
