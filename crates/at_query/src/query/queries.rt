//! Queries: a verb, and the tests that a feature has to pass.

ghost use Rattle.std.specs.Prelude.{◌≡◌};

use at_band::Bands;
use at_geom::Extent;
use at_lex::Units;
use std::marker::Model;

/// What is asked of the features of which a query holds.
#[derive(Clone, Copy, Debug, PartialEq, Eq)]
pub enum Verb {
    /// Their offsets.
    Select,
    /// How many there are.
    Count,
    /// Twice the area of all their polygons.
    Area,
    /// The least extent round them.
    Extent,
    /// The convex hull of all their positions.
    Hull,
    /// With which features of a second list they meet.
    Join,
}

/// What a feature is tested for.
#[derive(Drop)]
pub enum Test {
    /// Its shape has a position, and all its positions are in the closed extent.
    InBox(Extent),
    /// Its shape and the kept one meet.
    MeetsShape(Bands),
    /// One of its texts has this name and this value.
    Has(Units, Units),
}

/// A list of tests.
#[derive(Drop)]
pub struct Tests {
    items: Vec<Test>,
}

impl Model for Tests {
    ghost use Rattle.std.specs.Prelude.{List};
    ghost use Rattle.at_query.specs.declared.query.queries.Test.{Test};

    ghost Value = { List Test };

    ghost view = { λ t. t.items.items };
}

impl Tests {
    /// The list that a `Vec` holds. It takes no memory.
    pub fn from_vec(items: Vec<Test>) -> Self
        ensures { result ≡ items.items }
    {
        Tests { items }
    }

    /// The list as a slice.
    pub fn as_slice(&self) -> &[Test]
        ensures { result.now ≡ self.now }
    {
        self.items.as_slice()
    }
}

/// A query: what is asked of the features of which all tests hold.
#[derive(Drop)]
pub struct Query {
    pub verb: Verb,
    pub tests: Tests,
}
