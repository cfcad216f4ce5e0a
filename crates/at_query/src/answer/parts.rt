//! What a list of features adds to an answer, and the entries of a join.

ghost use Rattle.std.specs.Prelude.{◌≡◌, ◌++◌, ◌∷◌, [], IfOk};

use crate::answer::answers::Offsets;
use at_geom::{Extent, Path, Shape};
use at_text::Memory;
use std::marker::Model;

/// What a join keeps of a feature: its offset, its shape and the shape's extent.
#[derive(Drop)]
pub struct Entry {
    pub at: u32,
    pub shape: Shape,
    pub extent: Option<Extent>,
}

/// A list of entries.
#[derive(Drop)]
pub struct Entries {
    items: Vec<Entry>,
}

impl Model for Entries {
    ghost use Rattle.std.specs.Prelude.{List};
    ghost use Rattle.at_query.specs.declared.answer.parts.Entry.{Entry};

    ghost Value = { List Entry };

    ghost view = { λ e. e.items.items };
}

impl Entries {
    /// The list that a `Vec` holds. It takes no memory.
    pub fn from_vec(items: Vec<Entry>) -> Self
        ensures { result ≡ items.items }
    {
        Entries { items }
    }

    /// The list as a slice.
    pub fn as_slice(&self) -> &[Entry]
        ensures { result.now ≡ self.now }
    {
        self.items.as_slice()
    }

    /// The `Vec` back. It takes no memory.
    pub fn into_vec(self) -> Vec<Entry>
        ensures { result.items ≡ self }
    {
        self.items
    }

    /// Puts an entry behind the others.
    pub(crate) fn push(&mut self, entry: Entry) -> Result<(), Memory>
        ensures { IfOk result (λ _. self.new ≡ self.old ++ entry ∷ []) }
    {
        self.items.push(entry)?;
        Ok(())
    }
}

/// What a list of features adds to the answer to a query. The parts of neighbouring lists are joined by
/// `part_merge`.
#[derive(Drop)]
pub enum Part {
    /// For `select`: the offsets of the features of which the query holds.
    Offsets(Offsets),
    /// For `count`: how many they are, wrapped into 64 bits.
    Count(u64),
    /// For `area`: twice the area of all their polygons, wrapped into 128 bits.
    Area(i128),
    /// For `extent`: the least extent round all their positions.
    Spread(Option<Extent>),
    /// For `join`: the features themselves.
    Entries(Entries),
    /// For `hull`: the convex hull of all their positions.
    Hull(Path),
}
