//! Queries that are equal to others.

ghost use Rattle.std.specs.Prelude.{◌≡◌, IfOk};

use crate::query::queries::{Query, Test, Tests};
use at_text::Memory;
use std::alloc::Global;

/// A test for the same.
fn copied_test(alloc: Global, test: &Test) -> Result<Test, Memory>
    ensures { IfOk result (λ copy. copy ≡ test.now) }
{
    match test {
        Test::InBox(extent) => Ok(Test::InBox(*extent)),
        Test::MeetsShape(bands) => Ok(Test::MeetsShape(bands.copy(alloc)?)),
        Test::Has(name, value) => Ok(Test::Has(name.copy(alloc)?, value.copy(alloc)?)),
    }
}

/// A second list of the same tests.
fn copied_tests(alloc: Global, tests: &[Test]) -> Result<Tests, Memory>
    ensures { IfOk result (λ copy. copy ≡ tests.now) }
{
    let mut items = Vec::with_capacity(alloc, tests.len())?;
    for test in tests {
        items.push(copied_test(alloc, test)?)?;
    }
    Ok(Tests::from_vec(items))
}

impl Query {
    ghost use Rattle.std.specs.Prelude.{◌≡◌, IfOk};

    /// An equal query. The bands of a shape that it asks to meet are made anew.
    pub fn copy(&self, alloc: Global) -> Result<Query, Memory>
        ensures { IfOk result (λ copy. copy ≡ self.now) }
    {
        Ok(Query {
            verb: self.verb,
            tests: copied_tests(alloc, self.tests.as_slice())?,
        })
    }
}
