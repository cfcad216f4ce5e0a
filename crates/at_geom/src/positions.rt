//! Positions and lists of them.

ghost use Rattle.std.specs.Prelude.{◌≡◌};

use std::marker::Model;

/// A position: two coordinates in whole units, as a count of 10^-7 (RFC 7946 section 3.1.1, OGC 06-103r4
/// section 6.1.4).
#[derive(Clone, Copy, Debug, PartialEq, Eq)]
pub struct Pos {
    pub x: i64,
    pub y: i64,
}

/// A list of positions.
#[derive(Drop)]
pub struct Path {
    items: Vec<Pos>,
}

impl Model for Path {
    ghost use Rattle.std.specs.Prelude.{List};
    ghost use Rattle.at_geom.specs.declared.positions.Pos.{Pos};

    ghost Value = { List Pos };

    ghost view = { λ p. p.items.items };
}

impl Path {
    /// The list that a `Vec` holds. It takes no memory.
    pub fn from_vec(items: Vec<Pos>) -> Self
        ensures { result ≡ items.items }
    {
        Path { items }
    }

    /// The list as a slice.
    pub fn as_slice(&self) -> &[Pos]
        ensures { result.now ≡ self.now }
    {
        self.items.as_slice()
    }

    /// The `Vec` back. It takes no memory.
    pub fn into_vec(self) -> Vec<Pos>
        ensures { result.items ≡ self }
    {
        self.items
    }
}

/// A list of paths: lines, or the rings of a polygon.
#[derive(Drop)]
pub struct Paths {
    items: Vec<Path>,
}

impl Model for Paths {
    ghost use Rattle.std.specs.Prelude.{List};
    ghost use Rattle.at_geom.specs.declared.positions.Pos.{Pos};

    ghost Value = { List (List Pos) };

    ghost view = { λ p. p.items.items };
}

impl Paths {
    /// The list that a `Vec` holds. It takes no memory.
    pub fn from_vec(items: Vec<Path>) -> Self
        ensures { result ≡ items.items }
    {
        Paths { items }
    }

    /// The list as a slice.
    pub fn as_slice(&self) -> &[Path]
        ensures { result.now ≡ self.now }
    {
        self.items.as_slice()
    }

    /// The `Vec` back. It takes no memory.
    pub fn into_vec(self) -> Vec<Path>
        ensures { result.items ≡ self }
    {
        self.items
    }
}
