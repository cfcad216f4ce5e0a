//! A list that grows at both ends, so that two of them are joined in the time that the shorter one takes.

ghost use Rattle.std.specs.Prelude.{◌≡◌, ◌++◌, reverse, OnOk, IfOk};

use at_text::Memory;
use std::marker::Model;

/// A list in two: what was put before it, turned round, and what stands behind that.
#[derive(Drop)]
pub struct TwoEnded<T> {
    turned: Vec<T>,
    rest: Vec<T>,
}

impl<T> Model for TwoEnded<T> {
    ghost use Rattle.std.specs.Prelude.{◌++◌, reverse, List};

    ghost Value = { List T };

    ghost view = { λ l. reverse l.turned.items ++ l.rest.items };
}

/// Moves the elements of a list behind those of another, from the last to the first.
fn pour<T: Drop>(onto: &mut Vec<T>, list: Vec<T>) -> Result<(), Memory>
    ensures { OnOk result (onto.new.items ≡ onto.old.items ++ reverse list.items) }
{
    let mut list = list;
    list.reverse();
    onto.append(&mut list)?;
    Ok(())
}

impl<T: Drop> TwoEnded<T> {
    /// The list of what was put before, turned round, and the rest. It takes no memory.
    pub fn new(turned: Vec<T>, rest: Vec<T>) -> Self
        ensures { result ≡ reverse turned.items ++ rest.items }
    {
        TwoEnded { turned, rest }
    }

    /// What was put before, turned round, and the rest. It takes no memory.
    pub fn into_parts(self) -> (Vec<T>, Vec<T>)
        ensures { reverse result.0.items ++ result.1.items ≡ self }
    {
        (self.turned, self.rest)
    }

    /// How many elements there are.
    fn len(&self) -> usize {
        self.turned.len().saturating_add(self.rest.len())
    }

    /// Both lists, in the left one's memory.
    fn put_behind(left: Self, right: Self) -> Result<Self, Memory>
        ensures { IfOk result (λ l. l ≡ left ++ right) }
    {
        let mut rest = left.rest;
        pour(&mut rest, right.turned)?;
        let mut others = right.rest;
        rest.append(&mut others)?;
        Ok(TwoEnded {
            turned: left.turned,
            rest,
        })
    }

    /// Both lists, in the right one's memory.
    fn put_before(left: Self, right: Self) -> Result<Self, Memory>
        ensures { IfOk result (λ l. l ≡ left ++ right) }
    {
        let mut turned = right.turned;
        pour(&mut turned, left.rest)?;
        let mut others = left.turned;
        turned.append(&mut others)?;
        Ok(TwoEnded {
            turned,
            rest: right.rest,
        })
    }

    /// Both lists. The elements of the shorter one move, so with each move of an element its list doubles at least.
    pub fn joined(left: Self, right: Self) -> Result<Self, Memory>
        ensures { IfOk result (λ l. l ≡ left ++ right) }
    {
        if right.len() <= left.len() {
            TwoEnded::put_behind(left, right)
        } else {
            TwoEnded::put_before(left, right)
        }
    }

    /// The list in one.
    pub fn into_vec(self) -> Result<Vec<T>, Memory>
        ensures { IfOk result (λ v. v.items ≡ self) }
    {
        let TwoEnded { turned, rest } = self;
        if turned.is_empty() {
            return Ok(rest);
        }
        let mut items = turned;
        let mut others = rest;
        items.reverse();
        items.append(&mut others)?;
        Ok(items)
    }
}
