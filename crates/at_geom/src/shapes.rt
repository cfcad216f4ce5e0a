//! Polygons, lists of them, and shapes.

ghost use Rattle.std.specs.Prelude.{◌≡◌};

use crate::positions::{Path, Paths};
use std::marker::Model;

/// A polygon: its rings, the exterior first, then the holes (OGC 06-103r4 section 6.1.11, RFC 7946
/// section 3.1.6).
#[derive(Drop)]
pub struct Polygon {
    pub rings: Paths,
}

/// A list of polygons.
#[derive(Drop)]
pub struct Polygons {
    items: Vec<Polygon>,
}

impl Model for Polygons {
    ghost use Rattle.std.specs.Prelude.{List};
    ghost use Rattle.at_geom.specs.declared.shapes.Polygon.{Polygon};

    ghost Value = { List Polygon };

    ghost view = { λ p. p.items.items };
}

impl Polygons {
    /// The list that a `Vec` holds. It takes no memory.
    pub fn from_vec(items: Vec<Polygon>) -> Self
        ensures { result ≡ items.items }
    {
        Polygons { items }
    }

    /// The list as a slice.
    pub fn as_slice(&self) -> &[Polygon]
        ensures { result.now ≡ self.now }
    {
        self.items.as_slice()
    }

    /// The `Vec` back. It takes no memory.
    pub fn into_vec(self) -> Vec<Polygon>
        ensures { result.items ≡ self }
    {
        self.items
    }
}

/// What a feature covers: points, lines and polygons, with collections flattened in the order in which their
/// members stand (OGC 06-103r4 section 6.1, RFC 7946 section 3.1).
#[derive(Drop)]
pub struct Shape {
    pub points: Path,
    pub lines: Paths,
    pub polygons: Polygons,
}
