//! The values of options and names, as words spell them.

ghost use Rattle.std.specs.Prelude.{◌≡◌, ◌≢◌, ◌⊎◌, ℕ, List, length, slice_index, MatchBool, ◌<◌, ◌≤◌, ◌^◌, ◌↔◌};
ghost use Rattle.std.specs.Prelude.{decimal, Option, option_to_list, MatchOption, IsTrue};
ghost use Rattle.std.specs.Option.{option_copied};
ghost use Rattle.at_fixed.specs.declared.rounding.Coords.{Coords};
ghost use Rattle.at_cli.specs.Values.{form_text, coords_text, SpellsDigits, IsWhole, GoesOn, IsFileName};
ghost use Rattle.at_cli.specs.LineOf.{IsChosen, SpellsForm, SpellsFeed, CanFeed};
ghost use Rattle.at_run.specs.declared.forms.Form.{Form};

use crate::words::flags::text_behind;
use at_fixed::Coords;
use at_run::Form;

/// The most bytes of a chunk.
const MOST_FEED: u32 = 1_048_576;

/// The most features that a made file has.
pub const MOST_MADE: u32 = 1_000_000;

/// Whether the text begins with a plus, or with a zero before other bytes.
fn is_padded(text: &str) -> bool
    ensures { MatchBool result
        ((slice_index text.now 0 ≡ 43) ⊎ ((slice_index text.now 0 ≡ 48) × (1 < length text.now)))
        ((slice_index text.now 0 ≢ 43) × (slice_index text.now 0 ≡ 48 → length text.now ≤ 1)) }
{
    matches!(text.as_bytes(), [b'+', ..] | [b'0', _, ..])
}

/// The number that a text of decimal digits with no sign and no leading zero is.
fn number(text: &str) -> Option<u32>
    ensures { MatchOption result ((n : ℕ) → n < 2 ^ 32 → text.now ≢ decimal n) (λ n. text.now ≡ decimal n) }
{
    if is_padded(text) {
        return None;
    }
    text.parse::<u32>().ok()
}

/// The number from `least` to `most` that the text is.
pub fn number_within(text: &str, least: u32, most: u32) -> Option<u32>
    ensures { MatchOption result ((n : ℕ) → IsWhole least most text.now n → ⊥) (IsWhole least most text.now) }
{
    let number = number(text)?;
    if number < least {
        return None;
    }
    if most < number {
        return None;
    }
    Some(number)
}

/// The number of an option with that default, which is from 1 to `most`.
pub fn number_or(default: u32, most: u32, text: Option<&str>) -> Option<u32>
    ensures { MatchOption result
        ((n : ℕ) → IsChosen default (IsWhole 1 most) (option_to_list (option_copied text.entry)) n → ⊥)
        (IsChosen default (IsWhole 1 most) (option_to_list (option_copied text.entry))) }
{
    match text {
        None => Some(default),
        Some(text) => number_within(text, 1, most),
    }
}

/// The form that a text names.
fn form_named(text: &str) -> Option<Form>
    ensures { MatchOption result ((form : Form) → text.now ≢ form_text form) (λ form. text.now ≡ form_text form) }
{
    match text {
        "geojson" => Some(Form::GeoJson),
        "wkt" => Some(Form::Wkt),
        "seq" => Some(Form::Seq),
        _ => None,
    }
}

/// The form that is said, or none where none is.
pub fn form_said(text: Option<&str>) -> Option<Option<Form>>
    ensures { MatchOption result
        ((form : Option Form) → IsChosen None SpellsForm (option_to_list (option_copied text.entry)) form → ⊥)
        (IsChosen None SpellsForm (option_to_list (option_copied text.entry))) }
{
    match text {
        None => Some(None),
        Some(text) => Some(Some(form_named(text)?)),
    }
}

/// How numbers are taken, as the text names it.
fn coords_named(text: &str) -> Option<Coords>
    ensures { MatchOption result ((how : Coords) → text.now ≢ coords_text how) (λ how. text.now ≡ coords_text how) }
{
    match text {
        "exact" => Some(Coords::Exact),
        "round" => Some(Coords::Round),
        _ => None,
    }
}

/// How numbers are taken: to the nearest unit where nothing is said.
pub fn coords_or_round(text: Option<&str>) -> Option<Coords>
    ensures { MatchOption result
        ((how : Coords) → IsChosen Coords.Round (λ text how. text ≡ coords_text how)
        (option_to_list (option_copied text.entry)) how → ⊥)
        (IsChosen Coords.Round (λ text how. text ≡ coords_text how) (option_to_list (option_copied text.entry))) }
{
    match text {
        None => Some(Coords::Round),
        Some(text) => coords_named(text),
    }
}

/// The decimal digits that the text says.
fn digits_named(text: &str) -> Option<u8>
    ensures { MatchOption result ((digits : ℕ) → SpellsDigits text.now digits → ⊥) (SpellsDigits text.now) }
{
    match text {
        "7" => Some(7),
        "9" => Some(9),
        _ => None,
    }
}

/// The decimal digits of a coordinate: seven where nothing is said.
pub fn digits_or_seven(text: Option<&str>) -> Option<u8>
    ensures { MatchOption result
        ((digits : ℕ) → IsChosen 7 SpellsDigits (option_to_list (option_copied text.entry)) digits → ⊥)
        (IsChosen 7 SpellsDigits (option_to_list (option_copied text.entry))) }
{
    match text {
        None => Some(7),
        Some(text) => digits_named(text),
    }
}

/// The bytes of a chunk that are said, or none where none are.
pub fn feed_said(text: Option<&str>) -> Option<Option<u32>>
    ensures { MatchOption result
        ((feed : Option ℕ) → IsChosen None SpellsFeed (option_to_list (option_copied text.entry)) feed → ⊥)
        (IsChosen None SpellsFeed (option_to_list (option_copied text.entry))) }
{
    match text {
        None => Some(None),
        Some(text) => Some(Some(number_within(text, 1, MOST_FEED)?)),
    }
}

/// Whether files of the form can be read in chunks, where they are.
pub fn can_feed(form: Option<Form>, feed: Option<u32>) -> bool
    ensures { IsTrue result ↔ CanFeed form feed }
{
    match feed {
        None => true,
        Some(_) => !is_seq(form),
    }
}

/// Whether the form is said to be a sequence.
fn is_seq(form: Option<Form>) -> bool
    ensures { MatchBool result (form ≡ Some Form.Seq) (form ≢ Some Form.Seq) }
{
    match form {
        Some(Form::Seq) => true,
        Some(Form::GeoJson | Form::Wkt) | None => false,
    }
}

/// What follows `@g:` or `@w:` in a name.
fn count_text(name: &str) -> Option<&str>
    ensures { MatchOption result
        ((text : List ℕ) → GoesOn name.now text → ⊥)
        (λ (count : _). GoesOn name.now count.now × ((text : List ℕ) → GoesOn name.now text → text ≡ count.now)) }
{
    text_behind(name, "@g:").or(text_behind(name, "@w:"))
}

/// Whether the word can name a file: where it begins as a made file's name, it goes on with its count.
pub fn is_file_name(name: &str) -> bool
    ensures { IsTrue result ↔ IsFileName name.now }
{
    match count_text(name) {
        None => true,
        Some(count) => number_within(count, 0, MOST_MADE).is_some(),
    }
}
