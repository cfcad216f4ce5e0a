//! The query and the names of files among the words.

ghost use Rattle.std.specs.Prelude.{◌≡◌, ◌≤◌, ◌^◌, Option, length, IfSome, MatchOption};
ghost use Rattle.std.specs.Prelude.{IsTrue, ◌↔◌};
ghost use Rattle.std.specs.Option.{option_copied};
ghost use Rattle.at_cli.specs.Values.{IsFileName};
ghost use Rattle.at_cli.specs.LineOf.{HasNames};
ghost use Rattle.at_cli.specs.Steps.{places_shown};
ghost use Rattle.at_cli.specs.declared.words.line.Line.{Line};

use crate::words::pieces::Places;
use crate::words::values::is_file_name;
use at_text::MOST_BYTES;

/// The query and the names of the files.
#[derive(Clone, Copy)]
pub struct Names<'w> {
    pub query: &'w str,
    pub first: &'w str,
    pub second: Option<&'w str>,
}

/// Whether the name, where there is one, can be a file's.
fn is_none_or_file_name(name: Option<&str>) -> bool
    ensures { IsTrue result ↔ IfSome (option_copied name.entry) IsFileName }
{
    match name {
        None => true,
        Some(name) => is_file_name(name),
    }
}

/// The names, where each is in order.
fn tested(names: Names<'_>) -> Option<Names<'_>>
    ensures same { IfSome result (λ (tested : _). tested ≡ names.entry) }
    ensures in_order { MatchOption result
        (length names.entry.query.now ≤ 2 ^ 28 → IsFileName names.entry.first.now
        → IfSome (option_copied names.entry.second) IsFileName → ⊥)
        (λ (tested : _). (length names.entry.query.now ≤ 2 ^ 28) × IsFileName names.entry.first.now
        × IfSome (option_copied names.entry.second) IsFileName) }
{
    if names.query.len() > MOST_BYTES {
        return None;
    }
    if !is_file_name(names.first) {
        return None;
    }
    if !is_none_or_file_name(names.second) {
        return None;
    }
    Some(names)
}

/// The names that the positionals are, where there are two or three, and each is in order.
pub fn names_of(places: Places<'_>) -> Option<Names<'_>>
    ensures { MatchOption result
        ((line : Line) → HasNames (places_shown places.entry) line.query line.first line.second → ⊥)
        (λ (names : _). HasNames (places_shown places.entry) names.query.now names.first.now
        (option_copied names.second)) }
{
    match places {
        Places::Empty | Places::Query(_) => None,
        Places::One(query, first) => tested(Names {
            query,
            first,
            second: None,
        }),
        Places::Two(query, first, second) => tested(Names {
            query,
            first,
            second: Some(second),
        }),
    }
}
