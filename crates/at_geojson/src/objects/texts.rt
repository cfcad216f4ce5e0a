//! The texts of features for which a query asks, and which of its tests they meet. Names and values are compared with
//! those that the query asks for where they stand in the text.

ghost use Rattle.std.specs.Prelude.{◌≡◌, ◌++◌, [], count_by, flat_map, IfOk};
ghost use Rattle.std.specs.List.{list_any};
ghost use Rattle.at_query.specs.Holding.{has_text};
ghost use Rattle.at_query.specs.Keeping.{asks_value as value_asked, asks_pair as pair_asked};
ghost use Rattle.at_query.specs.Keeping.{wants_pair as pair_wanted, wants_value as value_wanted};
ghost use Rattle.at_query.specs.TextTests.{wants_name as name_wanted, met_of, texts_hold, holds_if_text, pair_of};
ghost use Rattle.at_geojson.specs.Atoms.{as_text};
ghost use Rattle.at_geojson.specs.Objects.{texts_in as texts_inside, texts_named, pair_kept};
ghost use Rattle.at_geojson.specs.Objects.{kept_texts as the_kept_texts};

use crate::atoms::atom::GeoAtom;
use crate::atoms::lists::form_at;
use crate::atoms::sorts::at_of;
use at_lex::Units;
use at_nest::Member;
use at_query::{Test, TextPair, TextPairs};
use at_scan::Spelling;
use at_text::{Fault, Memory};
use std::alloc::Global;

/// Whether a test asks for a text of this name.
#[inline(always)]
fn wants_name(test: &Test, name: &[u8]) -> bool
    ensures { result ≡ name_wanted name.now test.now }
{
    match test {
        Test::InBox(_) | Test::MeetsShape(_) => false,
        Test::Has(wanted, _) => name.has_units(wanted.as_slice()),
    }
}

/// Whether some test asks for a text of this name.
pub fn asks_name(tests: &[Test], name: &[u8]) -> bool
    ensures { result ≡ list_any (name_wanted name.now) tests.now }
{
    for test in tests {
        if wants_name(test, name) {
            return true;
        }
    }
    false
}

/// Whether a test asks for a text of this value.
#[inline(always)]
fn wants_value<S: Spelling>(test: &Test, value: S) -> bool
    ensures { result ≡ value_wanted (S.spelled value) test.now }
{
    match test {
        Test::InBox(_) | Test::MeetsShape(_) => false,
        Test::Has(_, wanted) => value.has_units(wanted.as_slice()),
    }
}

/// Whether some test asks for a text of this value.
pub fn asks_value<S: Spelling>(tests: &[Test], value: S) -> bool
    ensures { result ≡ value_asked tests.now (S.spelled value) }
{
    for test in tests {
        if wants_value(test, value) {
            return true;
        }
    }
    false
}

/// Whether a test asks for a text of this name and this value.
fn wants_pair<N: Spelling, S: Spelling>(test: &Test, name: N, value: S) -> bool
    ensures { result ≡ pair_wanted (N.spelled name) (S.spelled value) test.now }
{
    match test {
        Test::InBox(_) | Test::MeetsShape(_) => false,
        Test::Has(wanted_name, wanted) => name.has_units(wanted_name.as_slice())
            && value.has_units(wanted.as_slice()),
    }
}

/// Whether some test asks for a text of this name and this value.
fn asks_pair(tests: &[Test], name: &[u16], value: &[u16]) -> bool
    ensures { result ≡ pair_asked tests.now name.now value.now }
{
    for test in tests {
        if wants_pair(test, name, value) {
            return true;
        }
    }
    false
}

/// How many tests ask for a text of this name and this value.
pub fn met_by<S: Spelling>(tests: &[Test], name: &[u8], value: S) -> usize
    ensures { result ≡ count_by (pair_wanted name.now (S.spelled value)) tests.now }
{
    let mut count = 0;
    for test in tests {
        if wants_pair(test, name, value) {
            count += 1;
        }
    }
    count
}

/// How many tests ask for the text that a member of this name is, if it is one.
pub fn met_by_atom(tests: &[Test], name: &[u8], atom: &GeoAtom) -> usize
    ensures { result ≡ met_of tests.now name.now (as_text atom.now) }
{
    match atom {
        GeoAtom::Text(text) => match &text.units {
            Some(units) => met_by(tests, name, units.as_slice()),
            None => 0,
        },
        _ => 0,
    }
}

/// Whether a text has the name and the value.
fn has_pair(texts: &[TextPair], name: &[u16], value: &[u16]) -> bool
    ensures { result ≡ has_text texts.now name.now value.now }
{
    for text in texts {
        if text.name.as_slice() == name && text.value.as_slice() == value {
            return true;
        }
    }
    false
}

/// Whether a test holds of the texts, if it looks at texts.
fn holds_of(test: &Test, texts: &[TextPair]) -> bool
    ensures { result ≡ holds_if_text texts.now test.now }
{
    match test {
        Test::InBox(_) | Test::MeetsShape(_) => true,
        Test::Has(name, value) => has_pair(texts, name.as_slice(), value.as_slice()),
    }
}

/// Whether all tests that look at texts hold of these.
pub fn all_hold(tests: &[Test], texts: &[TextPair]) -> bool
    ensures { result ≡ texts_hold tests.now texts.now }
{
    for test in tests {
        if !holds_of(test, texts) {
            return false;
        }
    }
    true
}

/// A text of this name and this value.
fn copied_pair(alloc: Global, name: &Units, value: &Units) -> Result<TextPair, Memory>
    ensures { IfOk result (λ p. p ≡ record { name = name.now; value = value.now }) }
{
    Ok(TextPair {
        name: name.copy(alloc)?,
        value: value.copy(alloc)?,
    })
}

/// Puts the text that a test asks for behind the others.
fn add_asked(texts: &mut Vec<TextPair>, alloc: Global, test: &Test) -> Result<(), Memory>
    ensures { IfOk result (λ _. texts.new.items ≡ texts.old.items ++ pair_of test.now) }
{
    if let Test::Has(name, value) = test {
        texts.push(copied_pair(alloc, name, value)?)?;
    }
    Ok(())
}

/// Texts of which all tests hold that look at texts: those for which they ask.
pub fn asked_pairs(alloc: Global, tests: &[Test]) -> Result<TextPairs, Memory>
    ensures { IfOk result (λ texts. texts ≡ flat_map pair_of tests.now) }
{
    let mut texts = Vec::new(alloc);
    for test in tests {
        add_asked(&mut texts, alloc, test)?;
    }
    Ok(TextPairs::from_vec(texts))
}

/// A second list of the same texts.
fn copy_texts(alloc: Global, texts: &TextPairs) -> Result<TextPairs, Memory>
    ensures { IfOk result (λ t. t ≡ texts.now) }
{
    let pairs = texts.as_slice();
    let mut items = Vec::with_capacity(alloc, pairs.len())?;
    for pair in pairs {
        items.push(copied_pair(alloc, &pair.name, &pair.value)?)?;
    }
    Ok(TextPairs::from_vec(items))
}

/// The texts of a value as properties; Form where it is neither null nor an object.
fn texts_in(alloc: Global, atom: &GeoAtom) -> Result<Result<TextPairs, Fault>, Memory>
    ensures { IfOk result (λ r. r ≡ texts_inside atom.now) }
{
    match atom {
        GeoAtom::Null(_) | GeoAtom::Void(_) => Ok(Ok(TextPairs::from_vec(Vec::new(alloc)))),
        GeoAtom::Object(object) => Ok(Ok(copy_texts(alloc, &object.roles.texts)?)),
        other => Ok(Err(form_at(at_of(other)))),
    }
}

/// A feature's texts, of its member `properties`.
pub fn feature_texts(
    alloc: Global,
    properties: &Option<GeoAtom>,
) -> Result<Result<TextPairs, Fault>, Memory>
    ensures { IfOk result (λ r. r ≡ texts_named properties.now) }
{
    match properties {
        Some(atom) => texts_in(alloc, atom),
        None => Ok(Ok(TextPairs::from_vec(Vec::new(alloc)))),
    }
}

/// Puts a text behind the others, where the query asks for it.
fn add_text(
    texts: &mut Vec<TextPair>,
    alloc: Global,
    tests: &[Test],
    name: &Units,
    value: &Units,
) -> Result<(), Memory>
    ensures { IfOk result (λ _. texts.new.items ≡ texts.old.items ++ pair_kept tests.now name.now (Some value.now) []) }
{
    if asks_pair(tests, name.as_slice(), value.as_slice()) {
        texts.push(copied_pair(alloc, name, value)?)?;
    }
    Ok(())
}

/// Puts the text of a member behind the others, where it has one and the query asks for it.
fn add_member(
    texts: &mut Vec<TextPair>,
    alloc: Global,
    tests: &[Test],
    member: &Member<GeoAtom>,
) -> Result<(), Memory>
    ensures { IfOk result (λ _. texts.new.items ≡ texts.old.items ++ pair_kept tests.now member.now.name
        (as_text member.now.value) []) }
{
    match &member.value {
        GeoAtom::Text(text) => match &text.units {
            Some(units) => add_text(texts, alloc, tests, &member.name, &**units),
            None => Ok(()),
        },
        _ => Ok(()),
    }
}

/// The texts of members for which the query asks.
pub fn kept_texts(
    alloc: Global,
    tests: &[Test],
    members: &[Member<GeoAtom>],
) -> Result<TextPairs, Memory>
    ensures { IfOk result (λ t. t ≡ the_kept_texts tests.now members.now) }
{
    let mut texts = Vec::new(alloc);
    for member in members {
        add_member(&mut texts, alloc, tests, member)?;
    }
    Ok(TextPairs::from_vec(texts))
}
