//! Objects one behind another in an array that are no features, read at once: they are one run.

ghost use Rattle.std.specs.Prelude.{◌≡◌, ℕ, ◌<◌, List, ◌∷◌, length, slice_index, true, IfOk};
ghost use Rattle.at_lex.specs.Spans.{opening};
ghost use Rattle.at_lex.specs.declared.tokens.Bracket.{Bracket};
ghost use Rattle.at_geojson.specs.Gathering.{is_any_object as any_object_is};
ghost use Rattle.at_geojson.specs.Values.{IsWhole};
ghost use Rattle.at_geojson.specs.FeatureRuns.{IsObjectBehind, AreItemsWhole};

use crate::at_once::feature_runs::next_object;
use crate::at_once::values::{DEEPEST, read_object};
use crate::atoms::atom::GeoAtom;
use crate::atoms::lists::{into_items, is_any_object};
use crate::coordinates::pairs::Whole;
use crate::joined::runs::{is_light, joined_run};
use crate::text::Text;
use at_scan::{skip_spaces, stands};
use at_text::Halt;

/// Whether the object whose bracket stands at the place seems to have no members.
pub fn is_empty_object(text: &[u8], at: usize) -> bool
    requires { at < length text.now }
{
    stands(text, skip_spaces(text, at + 1), b'}')
}

/// An object behind a comma, which stands at the place, with white space round it.
fn object_behind(text: &Text<'_>, at: usize) -> Result<Whole, Halt>
    ensures { IfOk result (IsObjectBehind text.now.algebra.now text.now.base text.now.bytes.now at) }
{
    let Some(first) = next_object(text.bytes, at) else {
        return Err(Halt::At(at));
    };
    let Whole { end, atom } = read_object(text, first, DEEPEST)?;
    if !is_any_object(&atom) {
        return Err(Halt::At(end));
    }
    let end = skip_spaces(text.bytes, end);
    Ok(Whole { end, atom })
}

/// The object that begins the text, and those behind it, as one run. They end before the first item that is not read at
/// once as an object, or where joining one more would take long.
fn objects_behind(text: &Text<'_>, whole: Whole) -> Result<Whole, Halt>
    requires opens { slice_index text.now.bytes.now 0 ≡ 0x7B }
    requires whole { IsWhole text.now.algebra.now text.now.base text.now.bytes.now 0 whole }
    requires object { any_object_is whole.atom ≡ true }
    ensures { IfOk result (AreItemsWhole text.now.algebra.now text.now.base text.now.bytes.now 0) }
{
    let mut end = skip_spaces(text.bytes, whole.end);
    let mut run = Box::new(text.alloc, into_items(whole.atom))?;
    'objects: while is_light(&run) {
        match object_behind(text, end) {
            Ok(next) => {
                run = joined_run(text.alloc, run, into_items(next.atom))?;
                end = next.end;
            }
            Err(Halt::Memory) => return Err(Halt::Memory),
            Err(Halt::At(_)) => {
                return Ok(Whole {
                    end,
                    atom: GeoAtom::Run(run),
                });
            }
        }
    }
    Ok(Whole {
        end,
        atom: GeoAtom::Run(run),
    })
}

/// Objects one behind another in an array, the first of which begins the text, or one in which a name stands twice.
pub fn read_objects(text: &Text<'_>) -> Result<Whole, Halt>
    requires begins { (b : Bracket) × (more : List ℕ) × (text.now.bytes.now ≡ opening b ∷ more) }
    requires inside { 0 < length text.now.bytes.now }
    requires opens { slice_index text.now.bytes.now 0 ≡ 0x7B }
    ensures { IfOk result (AreItemsWhole text.now.algebra.now text.now.base text.now.bytes.now 0) }
{
    let whole = read_object(text, 0, DEEPEST)?;
    if is_any_object(&whole.atom) {
        return objects_behind(text, whole);
    }
    Ok(whole)
}
