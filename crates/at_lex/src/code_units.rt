//! Lists of UTF-16 code units, which take no memory where they are short.

ghost use Rattle.std.specs.Prelude.{◌≡◌, ◌++◌, ◌∷◌, [], OnOk, IfOk};
ghost use Rattle.at_lex.specs.CodeUnits.{units_in, HasRoom, IsShort};

use std::alloc::{AllocError, Global};
use std::marker::Model;

/// How many units a text may have at the most that takes no memory.
const SHORT: usize = 11;

/// Units in place, or units in memory.
#[derive(Drop)]
enum Text {
    Short { len: u8, items: [u16; SHORT] },
    Long(Box<Vec<u16>>),
}

/// UTF-16 code units. A few take no memory.
#[derive(Drop)]
pub struct Units {
    text: Text,
}

impl Model for Units {
    ghost use Rattle.std.specs.Prelude.{List, ℕ};
    ghost use Rattle.at_lex.specs.CodeUnits.{units_in, HasRoom};

    ghost Value = { List ℕ };

    ghost view = { λ u. units_in u.text };

    ghost invariant = { λ u. HasRoom u.text };
}

/// All units that have room in place, and one more.
fn longer(alloc: Global, items: &[u16], unit: u16) -> Result<Box<Vec<u16>>, AllocError>
    ensures { IfOk result (λ b. b.value.items ≡ items.now ++ unit ∷ []) }
{
    let mut longer = Vec::with_capacity(alloc, 2 * SHORT)?;
    longer.extend_from_slice(items)?;
    longer.push(unit)?;
    Ok(Box::new(alloc, longer)?)
}

impl Text {
    /// Puts a unit behind so many in place.
    fn put(&mut self, len: u8, unit: u16)
        requires { IsShort self.old len }
        ensures room { HasRoom self.new }
        ensures units { units_in self.new ≡ units_in self.old ++ unit ∷ [] }
    {
        if let Text::Short { items, .. } = self {
            items[usize::from(len)] = unit;
        }
        if let Text::Short { len, .. } = self {
            *len += 1;
        }
    }
}

impl Units {
    /// No units, with room for so many.
    pub fn with_capacity(alloc: Global, capacity: usize) -> Result<Self, AllocError>
        ensures { IfOk result (λ u. u ≡ []) }
    {
        if capacity <= SHORT {
            return Ok(Units {
                text: Text::Short {
                    len: 0,
                    items: [0; SHORT],
                },
            });
        }
        let items = Vec::with_capacity(alloc, capacity)?;
        Ok(Units {
            text: Text::Long(Box::new(alloc, items)?),
        })
    }

    /// The units of a list.
    pub fn from_slice(alloc: Global, items: &[u16]) -> Result<Self, AllocError>
        ensures { IfOk result (λ u. u ≡ items.now) }
    {
        let mut units = Units::with_capacity(alloc, items.len())?;
        for item in items {
            units.push(alloc, *item)?;
        }
        Ok(units)
    }

    /// A second list of the same units.
    pub fn copy(&self, alloc: Global) -> Result<Self, AllocError>
        ensures { IfOk result (λ u. u ≡ self.now) }
    {
        Units::from_slice(alloc, self.as_slice())
    }

    /// Puts a unit behind the others.
    pub fn push(&mut self, alloc: Global, unit: u16) -> Result<(), AllocError>
        ensures { OnOk result (self.new ≡ self.old ++ unit ∷ []) }
    {
        match &self.text {
            Text::Short { len, items } => {
                let len = *len;
                if usize::from(len) == SHORT {
                    self.text = Text::Long(longer(alloc, items, unit)?);
                } else {
                    self.text.put(len, unit);
                }
                Ok(())
            }
            Text::Long(_) => {
                if let Text::Long(items) = &mut self.text {
                    items.push(unit)?;
                }
                Ok(())
            }
        }
    }

    /// The list as a slice.
    pub fn as_slice(&self) -> &[u16]
        ensures { result.now ≡ self.now }
    {
        match &self.text {
            Text::Short { len, items } => &items[..usize::from(*len)],
            Text::Long(items) => items.as_slice(),
        }
    }
}
