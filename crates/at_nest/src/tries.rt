//! Attempts to read a value, or several items of an array, at once: how many bytes each sees, and how many may be in
//! vain.

ghost use Rattle.std.specs.Prelude.{◌≤◌};

use crate::algebra::Attempt;
use at_lex::Bracket;

/// An attempt to read a value at once sees so many bytes at least, where the piece has them.
const WINDOW: u32 = 1 << 16;

/// So many bytes at most may be looked at in vain before any are passed.
const AHEAD: u32 = 4 * WINDOW;

/// An attempt in vain counts as so many bytes at least, since it costs more than the few at which it may have looked.
const LEAST: u32 = 1 << 6;

/// An attempt that came so near to the end of what it saw is cut: the value goes on behind it, as a rule.
const CUT: usize = 1 << 6;

/// The window of an attempt at an array is smaller by this power of two, and doesn't grow: a large array is opened, and
/// its items are read many at once.
const ARRAY: u32 = 3;

/// An attempt at an array sees so many bytes at least, so that it isn't cut within a position.
const ITEM: u32 = 1 << 8;

/// The window grows no smaller than by this power of two.
const NARROWEST: u32 = 8;

/// How many bytes of a piece were looked at in vain, by attempts to read a value at once, and how many may be.
#[derive(Drop)]
pub struct Tries {
    base: u32,
    /// So many may be looked at in vain besides an eighth of what was passed.
    spare: u32,
    vain: u32,
    /// Where an attempt was cut, those within its value are likely to be cut as well: they see a window that is smaller
    /// by this power of two.
    narrow: u32,
}

impl Tries {
    /// Of a piece of so many bytes whose first one has the offset, before the first attempt.
    pub fn new(base: u32, len: usize) -> Self {
        Tries {
            base,
            spare: (AHEAD as usize).min(len / 4) as u32,
            vain: 0,
            narrow: 0,
        }
    }

    /// How many of the bytes ahead of the offset an attempt may see: none while too many were looked at in vain, else a
    /// window and a quarter of what was passed, or a part of a window.
    #[inline(always)]
    pub fn window(&self, at: u32, ahead: usize, bracket: Bracket) -> usize
        ensures { result ≤ ahead }
    {
        let passed = at.wrapping_sub(self.base);
        if self.vain > (passed / 8).wrapping_add(self.spare) {
            return 0;
        }
        ahead.min(most_seen(passed, self.narrow, bracket) as usize)
    }

    /// What came of one more attempt, which saw so many bytes.
    #[inline(always)]
    pub fn note<T>(&mut self, attempt: &Attempt<T>, seen: usize) {
        match attempt {
            Attempt::Whole { len, .. } => self.succeeded(*len),
            Attempt::Unsaid { looked } => self.failed(*looked, seen),
        }
    }

    /// One more attempt was in vain, which saw so many bytes. One that was cut went on as fast as one that isn't in
    /// vain: a quarter of its bytes counts.
    #[inline(always)]
    fn failed(&mut self, looked: u32, seen: usize) {
        let mut counts = looked;
        if seen <= (looked as usize).saturating_add(CUT) {
            counts = looked / 4;
            self.narrow = self.narrow.saturating_add(2).min(NARROWEST);
        }
        self.vain = self.vain.saturating_add(counts.max(LEAST));
    }

    /// So many bytes were read at once, which saves what as many would cost in vain.
    #[inline(always)]
    fn succeeded(&mut self, len: u32) {
        self.spare = self.spare.saturating_add(len);
        self.narrow = self.narrow.saturating_sub(1);
    }
}

/// How many bytes an attempt may see at most, where so many were passed.
#[inline(always)]
fn most_seen(passed: u32, narrow: u32, bracket: Bracket) -> u32 {
    let narrow = narrow.min(NARROWEST);
    match bracket {
        Bracket::Square => (WINDOW >> (narrow + ARRAY)).max(ITEM),
        Bracket::Brace => (passed / 4).wrapping_add(WINDOW) >> narrow,
    }
}
