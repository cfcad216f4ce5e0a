//! GeoJSON read for a count of its features, with attempts to read values at once and without.

ghost use Rattle.std.specs.Prelude.{◌≤◌, ◌^◌, length};
ghost use Rattle.at_nest.specs.KeptItems.{IsAtomOf};
ghost use Rattle.at_nest.specs.TextAnswers.{Answers};

use crate::stepwise::Stepwise;
use at_fixed::Coords;
use at_geojson::GeoAlgebra;
use at_nest::{Algebra, NestEnd, finish_span, run_block};
use at_query::{Query, Tests, Verb};
use at_text::Span;
use std::alloc::Global;

/// What the algebra makes of a text in one piece.
fn atom_of<A: Algebra>(alloc: Global, algebra: &A, bytes: &[u8]) -> Result<A::Atom, NestEnd>
    requires { length bytes.now ≤ 2 ^ 28 }
    ensures { Answers (IsAtomOf A.Algebra algebra.now) 0 bytes.now result }
{
    let whole = run_block(alloc, algebra, bytes, 0);
    let span = Span {
        from: 0,
        to: bytes.len() as u32,
    };
    finish_span(alloc, algebra, bytes, span, whole)
}

/// Whether the bytes are a JSON text, read for a count of features; where `at_once` is set, values are read at once.
pub fn is_text(alloc: Global, bytes: &[u8], at_once: bool) -> bool
    requires { length bytes.now ≤ 2 ^ 28 }
{
    let query = Query {
        verb: Verb::Count,
        tests: Tests::from_vec(Vec::new(alloc)),
    };
    let geo = GeoAlgebra::new(query, 7, Coords::Round);
    if at_once {
        atom_of(alloc, &geo, bytes).is_ok()
    } else {
        atom_of(alloc, &Stepwise { geo }, bytes).is_ok()
    }
}
