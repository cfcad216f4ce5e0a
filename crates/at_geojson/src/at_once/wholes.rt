//! The array or object that begins a text, read at once, and what stands behind it in an array.

ghost use Rattle.std.specs.Prelude.{◌≡◌, ℕ, ◌+◌, ◌<◌, List, ◌∷◌, length, slice_index, IfOk};
ghost use Rattle.at_lex.specs.Spans.{opening};
ghost use Rattle.at_lex.specs.declared.tokens.Bracket.{Bracket};
ghost use Rattle.at_geojson.specs.Values.{IsWhole};
ghost use Rattle.at_geojson.specs.FeatureRuns.{AreItemsWhole};

use crate::at_once::feature_runs::{FeaturesRead, read_features};
use crate::at_once::features::feature_value;
use crate::at_once::object_runs::{is_empty_object, read_objects};
use crate::at_once::plain_objects::is_read_again;
use crate::at_once::position_runs::read_positions;
use crate::at_once::values::{DEEPEST, read_list, read_object};
use crate::atoms::atom::GeoAtom;
use crate::coordinates::pairs::Whole;
use crate::text::Text;
use at_query::needs_texts;
use at_scan::{
    OTHER_KIND, begins_collection, field_name, is_kind, names_collection, skip_spaces, stands,
};
use at_text::Halt;

/// An object from its opening bracket on, which stands at the place. Where no test looks at texts, it is taken for a
/// feature first. A collection of features is not read as a value: it is large, and its features are read one behind
/// another.
fn object_value(text: &Text<'_>, at: usize) -> Result<Whole, Halt>
    requires inside { at < length text.now.bytes.now }
    requires opens { slice_index text.now.bytes.now at ≡ 0x7B }
    ensures { IfOk result (IsWhole text.now.algebra.now text.now.base text.now.bytes.now at) }
{
    if needs_texts(text.algebra.query().tests.as_slice()) {
        if names_collection(text.bytes, at) {
            return Err(Halt::At(at + 1));
        }
        return read_object(text, at, DEEPEST);
    }
    match feature_value(text, at) {
        Err(Halt::At(OTHER_KIND)) => read_object(text, at, DEEPEST),
        read => read,
    }
}

/// An array from its opening bracket on, which begins the text. One of objects is given up: they are read one behind
/// another as its items, as far as the text goes.
fn list_value(text: &Text<'_>) -> Result<Whole, Halt>
    requires inside { 0 < length text.now.bytes.now }
    requires opens { slice_index text.now.bytes.now 0 ≡ 0x5B }
    ensures { IfOk result (IsWhole text.now.algebra.now text.now.base text.now.bytes.now 0) }
{
    let first = skip_spaces(text.bytes, 1);
    if stands(text.bytes, first, b'{') {
        return Err(Halt::At(first));
    }
    read_list(text, 0, DEEPEST)
}

/// The array or object that begins the text, whose first byte stands at the offset.
pub fn whole_value(text: &Text<'_>) -> Result<Whole, Halt>
    ensures { IfOk result (IsWhole text.now.algebra.now text.now.base text.now.bytes.now 0) }
{
    if stands(text.bytes, 0, b'[') {
        return list_value(text);
    }
    if stands(text.bytes, 0, b'{') {
        return object_value(text, 0);
    }
    Err(Halt::At(0))
}

/// One array or object as the only item.
fn one_item(text: &Text<'_>) -> Result<Whole, Halt>
    requires begins { (b : Bracket) × (more : List ℕ) × (text.now.bytes.now ≡ opening b ∷ more) }
    ensures { IfOk result (AreItemsWhole text.now.algebra.now text.now.base text.now.bytes.now 0) }
{
    let whole = whole_value(text)?;
    Ok(whole)
}

/// Features that begin the text, or one object.
fn object_items(text: &Text<'_>) -> Result<Whole, Halt>
    requires begins { (b : Bracket) × (more : List ℕ) × (text.now.bytes.now ≡ opening b ∷ more) }
    requires inside { 0 < length text.now.bytes.now }
    requires opens { slice_index text.now.bytes.now 0 ≡ 0x7B }
    ensures { IfOk result (AreItemsWhole text.now.algebra.now text.now.base text.now.bytes.now 0) }
{
    match read_features(text, 0) {
        Ok(FeaturesRead { end, run }) => Ok(Whole {
            end,
            atom: GeoAtom::Run(run),
        }),
        Err(Halt::Memory) => Err(Halt::Memory),
        Err(Halt::At(place)) => if is_read_again(text, 0, place) || is_empty_object(text.bytes, 0) {
            read_objects(text)
        } else {
            Err(Halt::At(place))
        },
    }
}

/// Positions that begin the text, or one other array.
fn array_items(text: &Text<'_>) -> Result<Whole, Halt>
    requires begins { (b : Bracket) × (more : List ℕ) × (text.now.bytes.now ≡ opening b ∷ more) }
    ensures { IfOk result (AreItemsWhole text.now.algebra.now text.now.base text.now.bytes.now 0) }
{
    match read_positions(text) {
        Ok(whole) => Ok(whole),
        Err(Halt::Memory) => Err(Halt::Memory),
        Err(Halt::At(_)) => one_item(text),
    }
}

/// Items of an array that begin the text, whose first byte, a bracket, stands at the offset: positions or features as far
/// as they go, or one array or object.
pub fn whole_items(text: &Text<'_>) -> Result<Whole, Halt>
    requires begins { (b : Bracket) × (more : List ℕ) × (text.now.bytes.now ≡ opening b ∷ more) }
    ensures { IfOk result (AreItemsWhole text.now.algebra.now text.now.base text.now.bytes.now 0) }
{
    if !stands(text.bytes, 0, b'{') {
        return array_items(text);
    }
    object_items(text)
}
