//! Features one behind another in an array, read at once: of each nothing but its part is kept, which is joined with the
//! parts before it.

ghost use Rattle.std.specs.Prelude.{◌≡◌, ◌+◌, ◌<◌, length, slice_index, IfOk, IfSome};
ghost use Rattle.at_scan.specs.Members.{ArePlainOthers};
ghost use Rattle.at_geojson.specs.Atoms.{both_forms};
ghost use Rattle.at_geojson.specs.FeatureRuns.{IsNextObject, AreFeaturesRead};

use crate::at_once::features::{FeatureRead, read_feature};
use crate::atoms::atom::Items;
use crate::atoms::lists::form_at;
use crate::joined::runs::{is_light, join_features};
use crate::text::Text;
use at_query::Part;
use at_scan::{TableNames, skip_spaces, stands};
use at_text::{Fault, Halt};

/// Features that were read: the place behind them and the white space, and what they are as items of an array.
#[derive(Drop)]
pub struct FeaturesRead {
    pub end: usize,
    pub run: Box<Items>,
}

/// What a feature at the offset is as an item of an array.
#[inline(always)]
fn feature_items(at: u32, part: Result<Part, Fault>) -> Items
    ensures geometries { result.geometries ≡ both_forms at }
    ensures features { result.features ≡ part }
{
    Items {
        geometries: Err(form_at(at)),
        features: part,
    }
}

/// The place of an object's bracket behind a comma, which stands at the place.
#[inline(always)]
pub fn next_object(text: &[u8], at: usize) -> Option<usize>
    ensures { IfSome result (IsNextObject text.now at) }
{
    if !stands(text, at, b',') {
        return None;
    }
    let first = skip_spaces(text, at + 1);
    if stands(text, first, b'{') {
        Some(first)
    } else {
        None
    }
}

/// The first feature of several.
fn begin_features(text: &Text<'_>, at: usize, names: &mut TableNames) -> Result<FeaturesRead, Halt>
    requires inside { at < length text.now.bytes.now }
    requires opens { slice_index text.now.bytes.now at ≡ 0x7B }
    requires own { ArePlainOthers text.now.bytes.now names.old.own }
    requires properties { ArePlainOthers text.now.bytes.now names.old.properties }
    ensures reads { IfOk result (λ read. AreFeaturesRead text.now.algebra.now text.now.base text.now.bytes.now at read.end read.run.value) }
    ensures own { IfOk result (λ _. ArePlainOthers text.now.bytes.now names.new.own) }
    ensures properties { IfOk result (λ _. ArePlainOthers text.now.bytes.now names.new.properties) }
{
    let FeatureRead { end, part } = read_feature(text, at, names)?;
    let run = Box::new(text.alloc, feature_items(text.base + at as u32, part))?;
    let end = skip_spaces(text.bytes, end);
    Ok(FeaturesRead { end, run })
}

/// Features one behind another in an array, from the opening bracket of the first one on, which stands at the place.
/// They end before the first item that is not read at once as a feature, or where joining one more feature would take
/// long.
pub fn read_features(text: &Text<'_>, at: usize) -> Result<FeaturesRead, Halt>
    requires inside { at < length text.now.bytes.now }
    requires opens { slice_index text.now.bytes.now at ≡ 0x7B }
    ensures { IfOk result (λ read. AreFeaturesRead text.now.algebra.now text.now.base text.now.bytes.now at read.end read.run.value) }
{
    let mut names = TableNames::none(text.alloc);
    let FeaturesRead { mut end, mut run } = begin_features(text, at, &mut names)?;
    'features: while is_light(&run) {
        let Some(first) = next_object(text.bytes, end) else {
            return Ok(FeaturesRead { end, run });
        };
        match read_feature(text, first, &mut names) {
            Ok(FeatureRead { end: last, part }) => {
                join_features(&mut *run, part)?;
                end = skip_spaces(text.bytes, last);
            }
            Err(Halt::Memory) => return Err(Halt::Memory),
            Err(Halt::At(_)) => return Ok(FeaturesRead { end, run }),
        }
    }
    Ok(FeaturesRead { end, run })
}
