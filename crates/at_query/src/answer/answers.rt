//! Answers to queries, and the lists that they hold.

ghost use Rattle.std.specs.Prelude.{◌≡◌, ◌++◌, ◌∷◌, [], IfOk};

use at_geom::{Extent, Path};
use at_text::Memory;
use std::marker::Model;

/// A list of offsets.
#[derive(Drop)]
pub struct Offsets {
    items: Vec<u32>,
}

impl Model for Offsets {
    ghost use Rattle.std.specs.Prelude.{List, ℕ};

    ghost Value = { List ℕ };

    ghost view = { λ o. o.items.items };
}

impl Offsets {
    /// The list that a `Vec` holds. It takes no memory.
    pub fn from_vec(items: Vec<u32>) -> Self
        ensures { result ≡ items.items }
    {
        Offsets { items }
    }

    /// The list as a slice.
    pub fn as_slice(&self) -> &[u32]
        ensures { result.now ≡ self.now }
    {
        self.items.as_slice()
    }

    /// The `Vec` back. It takes no memory.
    pub fn into_vec(self) -> Vec<u32>
        ensures { result.items ≡ self }
    {
        self.items
    }

    /// Puts an offset behind the others.
    pub(crate) fn push(&mut self, at: u32) -> Result<(), Memory>
        ensures { IfOk result (λ _. self.new ≡ self.old ++ at ∷ []) }
    {
        self.items.push(at)?;
        Ok(())
    }
}

/// The offsets of a feature of the first file and of a feature of the second.
#[derive(Clone, Copy, Debug, PartialEq, Eq)]
pub struct Pair {
    pub first: u32,
    pub second: u32,
}

/// A list of pairs of offsets.
#[derive(Drop)]
pub struct Pairs {
    items: Vec<Pair>,
}

impl Model for Pairs {
    ghost use Rattle.std.specs.Prelude.{List};
    ghost use Rattle.at_query.specs.declared.answer.answers.Pair.{Pair};

    ghost Value = { List Pair };

    ghost view = { λ p. p.items.items };
}

impl Pairs {
    /// The list that a `Vec` holds. It takes no memory.
    pub fn from_vec(items: Vec<Pair>) -> Self
        ensures { result ≡ items.items }
    {
        Pairs { items }
    }

    /// The list as a slice.
    pub fn as_slice(&self) -> &[Pair]
        ensures { result.now ≡ self.now }
    {
        self.items.as_slice()
    }

    /// The `Vec` back. It takes no memory.
    pub fn into_vec(self) -> Vec<Pair>
        ensures { result.items ≡ self }
    {
        self.items
    }
}

/// The answer to a query.
#[derive(Drop)]
pub enum Answer {
    /// The offsets of the features, in their order.
    Offsets(Offsets),
    /// How many features there are, or twice the area of their polygons in squares of a unit.
    Number(i128),
    /// The least extent round all positions of the features; None where there is no position.
    Spread(Option<Extent>),
    /// The pairs of features that meet, in order of the first list, then the second.
    Pairs(Pairs),
    /// The extreme positions of the features, counterclockwise from the lowest.
    Hull(Path),
}
