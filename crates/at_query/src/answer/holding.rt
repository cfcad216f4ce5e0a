//! Of which features a query holds.

ghost use Rattle.std.specs.Prelude.{◌≡◌, IsTrue, ◌↔◌};
ghost use Rattle.at_geom.specs.Shapes.{IsShapeInRange};
ghost use Rattle.at_query.specs.Ranges.{IsTestInRange, IsQueryInRange, IsFeatureInRange};
ghost use Rattle.at_query.specs.Holding.{has_text, lent_feature, TestHolds, Holds};

use crate::features::{Feature, LentFeature, TextPair};
use crate::query::queries::{Query, Test};
use at_geom::all_in;

/// Whether one of the texts has the name and the value.
fn has_pair(texts: &[TextPair], name: &[u16], value: &[u16]) -> bool
    ensures { result ≡ has_text texts.now name.now value.now }
{
    for text in texts {
        if text.name.as_slice() == name && text.value.as_slice() == value {
            return true;
        }
    }
    false
}

/// Whether a test holds of a feature.
fn test_holds(test: &Test, feature: &LentFeature) -> bool
    requires test_in_range { IsTestInRange test.now }
    requires feature_in_range { IsShapeInRange feature.now.shape.now }
    ensures { IsTrue result ↔ TestHolds test.now (lent_feature feature.now) }
{
    match test {
        Test::InBox(extent) => all_in(feature.shape, *extent),
        Test::MeetsShape(bands) => bands.meets(feature.shape),
        Test::Has(name, value) => has_pair(
            feature.texts.as_slice(),
            name.as_slice(),
            value.as_slice(),
        ),
    }
}

/// Whether all tests of a query hold of a feature whose parts are lent. A shape without positions is in no box and
/// meets no shape. It takes no memory.
#[inline(always)]
pub fn lent_holds(query: &Query, feature: &LentFeature) -> bool
    requires query_in_range { IsQueryInRange query.now }
    requires feature_in_range { IsFeatureInRange (lent_feature feature.now) }
    ensures { IsTrue result ↔ Holds query.now (lent_feature feature.now) }
{
    for test in query.tests.as_slice() {
        if !test_holds(test, feature) {
            return false;
        }
    }
    true
}

/// Whether all tests of a query hold of a feature. A shape without positions is in no box and meets no shape.
/// It takes no memory.
pub fn holds(query: &Query, feature: &Feature) -> bool
    requires query_in_range { IsQueryInRange query.now }
    requires feature_in_range { IsFeatureInRange feature.now }
    ensures { IsTrue result ↔ Holds query.now feature.now }
{
    lent_holds(query, &feature.lent())
}
