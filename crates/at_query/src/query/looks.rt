//! What a query looks at: shapes, texts, and what of positions where it keeps none of them.

ghost use Rattle.std.specs.Prelude.{◌≡◌};
ghost use Rattle.std.specs.List.{list_any};
ghost use Rattle.at_query.specs.Keeping.{looks_at_shapes as looks_of, looks_at_texts as texts_looked_at};
ghost use Rattle.at_query.specs.Keeping.{needs_shapes as needs_of, tells_shapes as tells_of};
ghost use Rattle.at_query.specs.Keeping.{text_tests as tests_on_texts, measured_by, measure_of};

use crate::query::queries::{Query, Test, Verb};

/// What a query asks of positions, where it keeps none of them and no test looks at them.
#[derive(Clone, Copy, Debug, PartialEq, Eq)]
pub enum Measure {
    /// Nothing: features are counted.
    Count,
    /// The least extent round them.
    Extent,
    /// The area of the polygons that they bound.
    Area,
}

/// Whether a verb tells something of shapes.
fn tells_shapes(verb: Verb) -> bool
    ensures { result ≡ tells_of verb }
{
    matches!(verb, Verb::Area | Verb::Extent | Verb::Hull | Verb::Join)
}

/// Whether a test looks at shapes.
fn looks_at_shapes(test: &Test) -> bool
    ensures { result ≡ looks_of test.now }
{
    matches!(test, Test::InBox(_) | Test::MeetsShape(_))
}

/// Whether the verb or a test looks at shapes.
pub fn needs_shapes(query: &Query) -> bool
    ensures { result ≡ needs_of query.now }
{
    if tells_shapes(query.verb) {
        return true;
    }
    for test in query.tests.as_slice() {
        if looks_at_shapes(test) {
            return true;
        }
    }
    false
}

/// Whether a test looks at texts.
fn looks_at_texts(test: &Test) -> bool
    ensures { result ≡ texts_looked_at test.now }
{
    matches!(test, Test::Has(_, _))
}

/// Whether some test looks at texts.
pub fn needs_texts(tests: &[Test]) -> bool
    ensures { result ≡ list_any texts_looked_at tests.now }
{
    for test in tests {
        if looks_at_texts(test) {
            return true;
        }
    }
    false
}

/// How many tests look at texts.
pub fn text_tests(tests: &[Test]) -> usize
    ensures { result ≡ tests_on_texts tests.now }
{
    let mut count = 0;
    for test in tests {
        if looks_at_texts(test) {
            count += 1;
        }
    }
    count
}

/// What a verb asks of positions, where it keeps none of them.
fn verb_measure(verb: Verb) -> Option<Measure>
    ensures { result ≡ measured_by verb }
{
    match verb {
        Verb::Select | Verb::Count => Some(Measure::Count),
        Verb::Area => Some(Measure::Area),
        Verb::Extent => Some(Measure::Extent),
        Verb::Hull | Verb::Join => None,
    }
}

/// What a query asks of positions, where it keeps none of them and no test looks at them. `select` asks for nothing of
/// them, as `count` does.
pub fn query_measure(query: &Query) -> Option<Measure>
    ensures { result ≡ measure_of query.now }
{
    for test in query.tests.as_slice() {
        if looks_at_shapes(test) {
            return None;
        }
    }
    verb_measure(query.verb)
}
