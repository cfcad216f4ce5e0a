//! The open levels of a span, of which two lists are put one behind the other without a copy of any level.

ghost use Rattle.std.specs.Prelude.{◌≡◌, [], ◌∷◌, ◌++◌, true, OnOk, MatchOption, option_copied};
ghost use Rattle.at_nest.specs.Shown.{opens_of, stretched};
ghost use Rattle.at_nest.specs.Refusals.{last_of};
ghost use Rattle.at_nest.specs.Nests.{PutsLast};

use crate::levels::Open;
use at_text::Memory;
use std::alloc::Global;
use std::mem;

/// Levels that were open at the end of a span, each in the one before it. There is one at least.
#[derive(Drop)]
pub struct Stretch<T> {
    /// Those round the innermost, which are the outermost first.
    pub round: Vec<Open<T>>,
    pub innermost: Open<T>,
}

/// The open levels, the innermost last.
///
/// Where a list is put behind another, the first one's last levels become a stretch as they are, and the second one's
/// stretches move. So the levels of many spans stand where each span left them.
#[derive(Drop)]
pub struct Levels<T> {
    /// What stands before the last ones.
    pub before: Vec<Stretch<T>>,
    pub last: Vec<Open<T>>,
}

impl<T: Drop> Levels<T> {
    /// No levels. They take no memory.
    pub fn new(alloc: Global) -> Self
        ensures { opens_of result ≡ [] }
    {
        Levels {
            before: Vec::new(alloc),
            last: Vec::new(alloc),
        }
    }

    /// The innermost one.
    #[inline(always)]
    pub fn innermost(&self) -> Option<&Open<T>>
        ensures { option_copied result ≡ last_of (opens_of self.now) }
    {
        match self.last.as_slice().last() {
            Some(level) => Some(level),
            None => self.innermost_before(),
        }
    }

    /// The innermost one of the stretches, where the last ones have run out.
    fn innermost_before(&self) -> Option<&Open<T>>
        ensures { option_copied result ≡ last_of (stretched self.now.before.items) }
    {
        match self.before.as_slice().last() {
            Some(stretch) => Some(&stretch.innermost),
            None => None,
        }
    }

    /// Puts a level in the place of the innermost one.
    #[inline(always)]
    pub fn put_innermost(&mut self, level: Open<T>)
        ensures { PutsLast (opens_of self.old) (opens_of self.new) level }
    {
        let count = self.last.len();
        if count == 0 {
            self.put_before(level);
            return;
        }
        self.last[count - 1] = level;
    }

    /// The same, where the last ones have run out.
    fn put_before(&mut self, level: Open<T>)
        requires { self.old.last.items ≡ [] }
        ensures { PutsLast (opens_of self.old) (opens_of self.new) level }
    {
        let count = self.before.len();
        if count == 0 {
            return;
        }
        self.before[count - 1].innermost = level;
    }

    /// Takes the innermost one out.
    #[inline(always)]
    pub fn pop(&mut self) -> Option<Open<T>>
        ensures { MatchOption result
            ((opens_of self.old ≡ []) × (opens_of self.new ≡ []))
            (λ o. opens_of self.old ≡ opens_of self.new ++ o ∷ []) }
    {
        match self.last.pop() {
            Some(level) => Some(level),
            None => self.pop_before(),
        }
    }

    /// The same, where the last ones have run out: those of the last stretch take their place.
    fn pop_before(&mut self) -> Option<Open<T>>
        requires { self.old.last.items ≡ [] }
        ensures { MatchOption result
            ((opens_of self.old ≡ []) × (opens_of self.new ≡ []))
            (λ o. opens_of self.old ≡ opens_of self.new ++ o ∷ []) }
    {
        match self.before.pop() {
            Some(Stretch { round, innermost }) => {
                self.last = round;
                Some(innermost)
            }
            None => None,
        }
    }

    /// Puts a level in the innermost one.
    #[inline(always)]
    pub fn push(&mut self, level: Open<T>) -> Result<(), Memory>
        ensures { OnOk result (opens_of self.new ≡ opens_of self.old ++ level ∷ []) }
    {
        self.last.push(level)?;
        Ok(())
    }

    /// Whether there is none.
    #[inline(always)]
    pub fn is_empty(&self) -> bool
        ensures { result ≡ true → opens_of self.now ≡ [] }
    {
        if !self.last.is_empty() {
            return false;
        }
        self.before.is_empty()
    }

    /// Puts the levels in the innermost one. No level is copied.
    pub fn append(&mut self, behind: Levels<T>) -> Result<(), Memory>
        ensures { OnOk result (opens_of self.new ≡ opens_of self.old ++ opens_of behind) }
    {
        if behind.is_empty() {
            return Ok(());
        }
        if self.is_empty() {
            *self = behind;
            return Ok(());
        }
        let Levels { mut before, last } = behind;
        let front = mem::replace(&mut self.last, last);
        add_stretch(&mut self.before, front)?;
        self.before.append(&mut before)?;
        Ok(())
    }
}

/// Puts levels behind the stretches as one stretch more, if there are any.
fn add_stretch<T: Drop>(before: &mut Vec<Stretch<T>>, levels: Vec<Open<T>>) -> Result<(), Memory>
    ensures { OnOk result (stretched before.new.items ≡ stretched before.old.items ++ levels.items) }
{
    let mut round = levels;
    if let Some(innermost) = round.pop() {
        before.push(Stretch { round, innermost })?;
    }
    Ok(())
}
