//! What is kept of a string, a literal or a number.

ghost use Rattle.std.specs.Prelude.{◌≡◌, ◌-◌, ◌≤◌, ◌^◌, length, take, drop, get_or, true, false, Some, None, IfOk};
ghost use Rattle.std.specs.List.{list_all};
ghost use Rattle.at_fixed.specs.Numerals.{JsonNumber};
ghost use Rattle.at_fixed.specs.Fixed.{IsFixedOf};
ghost use Rattle.at_lex.specs.Strings.{JsonString};
ghost use Rattle.at_lex.specs.Runs.{JsonRun};
ghost use Rattle.at_nest.specs.Tree.{Tree, Spells};
ghost use Rattle.at_nest.specs.Folds.{IsScalarText};
ghost use Rattle.at_scan.specs.Places.{is_simple as simple_byte};
ghost use Rattle.at_query.specs.Keeping.{asks_value as value_asked};
ghost use Rattle.at_geojson.specs.Atoms.{unboxed, twin_of, asked_units as units_asked, IsOwn, IsFold};

use crate::asked::GeoAlgebra;
use crate::atoms::atom::{GeoAtom, NumberAtom, TextAtom};
use crate::objects::texts::asks_value;
use at_fixed::{Coords, FixedFault, Notation, plain_number, read_fixed};
use at_lex::{RunEnd, Units, check_run, units};
use at_query::Test;
use at_scan::{is_simple, kind_of};
use at_text::Memory;
use at_wkt::number_fault;
use std::alloc::Global;

/// The units, where a test asks for them.
fn asked_units(alloc: Global, tests: &[Test], units: Units) -> Result<Option<Box<Units>>, Memory>
    ensures { IfOk result (λ kept. unboxed kept ≡ units_asked tests.now units) }
{
    if asks_value(tests, units.as_slice()) {
        Ok(Some(Box::new(alloc, units)?))
    } else {
        Ok(None)
    }
}

/// A string that begins at the offset, by its units.
fn decoded_atom(
    algebra: &GeoAlgebra,
    alloc: Global,
    text: &[u8],
    at: u32,
) -> Result<GeoAtom, Memory>
    requires string { JsonString text.now }
    requires fits { length text.now ≤ 2 ^ 28 }
    ensures own { IfOk result (IsOwn algebra.now) }
    ensures fold { IfOk result (λ atom. (t : Tree) → Spells at text.now t → IsFold algebra.now atom t) }
{
    let found = units(alloc, text)?;
    let kind = kind_of(found.as_slice());
    let units = asked_units(alloc, algebra.query().tests.as_slice(), found)?;
    Ok(GeoAtom::Text(TextAtom { at, kind, units }))
}

/// A string of ASCII without escapes that begins at the offset, for whose value no test asks.
#[inline(always)]
pub fn simple_atom(algebra: &GeoAlgebra, text: &[u8], at: u32) -> GeoAtom
    requires string { JsonString text.now }
    requires simple { list_all simple_byte text.now ≡ true }
    requires unasked { value_asked algebra.now.query.tests (take (length text.now - 1 - 1) (drop 1 text.now)) ≡ false }
    ensures own { IsOwn algebra.now result }
    ensures no_twin { twin_of result ≡ None }
    ensures fold { (t : Tree) → Spells at text.now t → IsFold algebra.now result t }
{
    GeoAtom::Text(TextAtom {
        at,
        kind: kind_of(&text[1..text.len() - 1]),
        units: None,
    })
}

/// A string of ASCII without escapes that begins at the offset.
#[inline(always)]
pub fn plain_text_atom(
    algebra: &GeoAlgebra,
    alloc: Global,
    text: &[u8],
    at: u32,
) -> Result<GeoAtom, Memory>
    requires string { JsonString text.now }
    requires simple { list_all simple_byte text.now ≡ true }
    requires fits { length text.now ≤ 2 ^ 28 }
    ensures own { IfOk result (IsOwn algebra.now) }
    ensures fold { IfOk result (λ atom. (t : Tree) → Spells at text.now t → IsFold algebra.now atom t) }
{
    if asks_value(algebra.query().tests.as_slice(), &text[1..text.len() - 1]) {
        decoded_atom(algebra, alloc, text, at)
    } else {
        Ok(simple_atom(algebra, text, at))
    }
}

/// A string that begins at the offset.
fn text_atom(algebra: &GeoAlgebra, alloc: Global, text: &[u8], at: u32) -> Result<GeoAtom, Memory>
    requires string { JsonString text.now }
    requires fits { length text.now ≤ 2 ^ 28 }
    ensures own { IfOk result (IsOwn algebra.now) }
    ensures fold { IfOk result (λ atom. (t : Tree) → Spells at text.now t → IsFold algebra.now atom t) }
{
    if is_simple(text) {
        return plain_text_atom(algebra, alloc, text, at);
    }
    decoded_atom(algebra, alloc, text, at)
}

/// The value of a number.
fn number_value(text: &[u8], digits: u8, how: Coords) -> Result<i64, FixedFault>
    requires number { JsonNumber text.now }
    requires fits { length text.now ≤ 2 ^ 28 }
    ensures { IsFixedOf text.now digits how result }
{
    if let Some(plain) = plain_number(text, Notation::Json, digits, how)
        && plain.len as usize == text.len()
    {
        return Ok(plain.value);
    }
    read_fixed(text, digits, how)
}

/// A number that begins at the offset.
fn number_atom(algebra: &GeoAlgebra, text: &[u8], at: u32) -> GeoAtom
    requires number { JsonNumber text.now }
    requires fits { length text.now ≤ 2 ^ 28 }
    ensures own { IsOwn algebra.now result }
    ensures fold { (t : Tree) → Spells at text.now t → IsFold algebra.now result t }
{
    match number_value(text, algebra.digits(), algebra.how()) {
        Ok(value) => GeoAtom::Number(NumberAtom { at, value }),
        Err(why) => GeoAtom::BadNumber(number_fault(why, at)),
    }
}

/// A literal that begins at the offset, or a number.
fn run_atom(algebra: &GeoAlgebra, text: &[u8], at: u32) -> GeoAtom
    requires run { JsonRun text.now }
    requires fits { length text.now ≤ 2 ^ 28 }
    ensures own { IsOwn algebra.now result }
    ensures fold { (t : Tree) → Spells at text.now t → IsFold algebra.now result t }
{
    match check_run(text) {
        RunEnd::Null => GeoAtom::Null(at),
        RunEnd::True => GeoAtom::Plain(at),
        RunEnd::False => GeoAtom::Plain(at),
        RunEnd::Number => number_atom(algebra, text, at),
        RunEnd::BadAt(_) => unreachable!(),
    }
}

/// The first byte, or 0.
fn first_byte(text: &[u8]) -> u8
    ensures { result ≡ get_or text.now 0 0 }
{
    if text.is_empty() { 0 } else { text[0] }
}

/// Whether a literal begins with the byte.
fn begins_literal(b: u8) -> bool
    ensures n { b ≡ 0x6E → result ≡ true }
    ensures t { b ≡ 0x74 → result ≡ true }
    ensures f { b ≡ 0x66 → result ≡ true }
{
    b == b'n' || b == b't' || b == b'f'
}

/// A string, literal or number that begins at the offset.
pub fn scalar_atom(
    algebra: &GeoAlgebra,
    alloc: Global,
    text: &[u8],
    at: u32,
) -> Result<GeoAtom, Memory>
    requires whole { IsScalarText text.now }
    requires fits { length text.now ≤ 2 ^ 28 }
    ensures own { IfOk result (IsOwn algebra.now) }
    ensures fold { IfOk result (λ atom. (t : Tree) → Spells at text.now t → IsFold algebra.now atom t) }
{
    let first = first_byte(text);
    if first == b'"' {
        text_atom(algebra, alloc, text, at)
    } else if begins_literal(first) {
        Ok(run_atom(algebra, text, at))
    } else {
        Ok(number_atom(algebra, text, at))
    }
}
