//! A query that is asked of a GeoJSON text, and what it asks of numbers, texts and shapes.

ghost use Rattle.std.specs.Prelude.{◌≡◌, ◌==◌};
ghost use Rattle.at_query.specs.Ranges.{IsQueryInRange};
ghost use Rattle.at_query.specs.Keeping.{Asked, needs_shapes as needs_of, text_tests as tests_on_texts, measure_of};

use at_fixed::Coords;
use at_query::{Measure, Query, needs_shapes, query_measure, text_tests};
use std::marker::Model;

/// A query that is asked of a GeoJSON text, and how its coordinates are read.
#[derive(Drop)]
pub struct GeoAlgebra {
    query: Query,
    digits: u8,
    how: Coords,
    needs_shapes: bool,
    text_tests: usize,
    measure: Option<Measure>,
}

impl Model for GeoAlgebra {
    ghost Value = { Asked };

    ghost view = { λ a. record { query = a.query; digits = a.digits; how = a.how } };

    ghost invariant = { λ a. IsQueryInRange a.query × (a.needs_shapes ≡ needs_of a.query)
        × (a.text_tests ≡ tests_on_texts a.query.tests) × (a.measure ≡ measure_of a.query) };
}

impl GeoAlgebra {
    /// The algebra of a query, for coordinates in units of 10^-digits.
    pub fn new(query: Query, digits: u8, how: Coords) -> GeoAlgebra
        requires { IsQueryInRange query }
        ensures { result ≡ record { query = query; digits = digits; how = how } }
    {
        let needs_shapes = needs_shapes(&query);
        let text_tests = text_tests(query.tests.as_slice());
        let measure = query_measure(&query);
        GeoAlgebra {
            query,
            digits,
            how,
            needs_shapes,
            text_tests,
            measure,
        }
    }

    /// The query.
    pub fn query(&self) -> &Query
        ensures same { result.now ≡ self.now.query }
        ensures in_range { IsQueryInRange self.now.query }
    {
        &self.query
    }

    /// The digits.
    pub fn digits(&self) -> u8
        ensures { result ≡ self.now.digits }
    {
        self.digits
    }

    /// What becomes of a coordinate that is no whole number of units.
    pub fn how(&self) -> Coords
        ensures { result ≡ self.now.how }
    {
        self.how
    }

    /// Whether shapes are kept.
    pub fn needs_shapes(&self) -> bool
        ensures { result ≡ needs_of self.now.query }
    {
        self.needs_shapes
    }

    /// Whether so many are all the tests that look at texts.
    #[inline(always)]
    pub(crate) fn all_met(&self, met: usize) -> bool
        ensures { result ≡ (met == tests_on_texts self.now.query.tests) }
    {
        met == self.text_tests
    }

    /// What the query asks of positions, where it keeps none of them and no test looks at them.
    #[inline(always)]
    pub(crate) fn measure(&self) -> Option<Measure>
        ensures { result ≡ measure_of self.now.query }
    {
        self.measure
    }
}
