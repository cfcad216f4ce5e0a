//! The top call over a part: a run of the program behind a filter, from its words to its status.

ghost use Rattle.std.specs.Prelude.{◌≡◌, ◌≢◌, ◌⊎◌, ◌≤◌, ℕ, List, [], ◌∷◌, map, Some, None, IfSome, MatchOption};
ghost use Rattle.std.specs.Prelude.{string_bytes};
ghost use Rattle.at_cli.specs.Gates.{PassesSaid};
ghost use Rattle.at_cli.specs.Texts.{write_line, memory_line};
ghost use Rattle.at_cli.specs.Outcomes.{Outcome, stopped, answered, TheOutcome, AreRefused, AreAccepted};
ghost use Rattle.at_cli.specs.Outcomes.{SayNoLine};
ghost use Rattle.at_cli.specs.Failures.{asked_names, ShelfFailedOn};
ghost use Rattle.at_cli.specs.declared.words.line.Line.{Line};
ghost use Rattle.at_cli.specs.Telling.{WasTold, HasGrown, HasGrownByPrefix, HasFailed};
ghost use Rattle.at_filter.specs.Filters.{filtered_files};
ghost use Rattle.at_part.specs.Words.{filter_of as filter_named, word_of, part_usage, NameNoFilter};
ghost use Rattle.at_filter.specs.declared.filter.Filter.{Filter};

use at_cli::top;
use at_crew::Gate;
use at_filter::{Filter, FilteredShelf};
use at_io::{Shelf, Sink};
use std::alloc::{AllocGlobal, Global};
use std::random::RandomSource;
use std::sync::Wait;
use std::thread::Threads;

const USAGE: &str = "usage: atgis-part lines|items WORDS..\n";

/// The filter of that name.
fn filter_of(word: &str) -> Option<Filter>
    ensures { result ≡ filter_named word.now }
{
    match word {
        "lines" => Some(Filter::Lines),
        "items" => Some(Filter::Items),
        _ => None,
    }
}

/// What the words ask for: a filter, and the program's words.
#[derive(Drop)]
struct Asked<'a> {
    filter: Filter,
    words: &'a [String],
}

/// What the words ask for, where the first names a filter.
fn read_asked(words: &[String]) -> Option<Asked<'_>>
    ensures { MatchOption result (NameNoFilter (map string_bytes words.now))
        (λ asked. map string_bytes words.now ≡ word_of asked.filter ∷ map string_bytes asked.words.now) }
{
    let Some(first) = words.first() else {
        return None;
    };
    match filter_of(first.as_str()) {
        Some(filter) => Some(Asked {
            filter,
            words: &words[1..],
        }),
        None => None,
    }
}

/// Tells how the program is used.
fn tell_usage<E: Sink>(err: &mut E)
    ensures { WasTold E.Sink err.old err.new part_usage }
{
    let _told = err.put(USAGE.as_bytes());
}

/// Runs the program over its words but the first, which names a filter: `lines` or `items`. Each file that they name is
/// read behind that filter, so an offset that is told is one of a byte of the file, and a fault one of what the filter
/// makes of it. Where the first word names no filter, the usage line is told, and the status is 2.
///
/// Else the statuses are those of the program, whose words are the others: 0, the answer is written; 1, a file has a
/// fault; 2, the words, the query or the count of names are refused; 3, the shelf failed on a file; 4, the output failed;
/// 5, want of memory; 6, a file has more than 2^28 bytes.
pub fn part_top<
    R: Threads + Sync + Wait + RandomSource + AllocGlobal,
    S: Shelf + Drop,
    O: Sink,
    E: Sink,
    G: Gate,
>(rt: &R, alloc: Global, words: &[String], shelf: S, out: &mut O, err: &mut E, gate: &G) -> u8
    ensures status { result ≤ 6 }

    // The first word names no filter.
    ensures unnamed { NameNoFilter (map string_bytes words.now) → (result ≡ 2)
        × WasTold E.Sink err.old err.new part_usage }

    // 0: the answer of the other words and of the filtered files is written, and nothing else.
    ensures answered { (f : Filter) (rest : List (List ℕ)) → map string_bytes words.now ≡ word_of f ∷ rest
        → result ≡ 0 → (text : List ℕ) × HasGrown O.Sink out.old out.new text × (err.new ≡ err.old)
        × (text ≡ [] → out.new ≡ out.old)
        × IfSome (S.files shelf) (λ told. TheOutcome rest (filtered_files f told) (answered text)) }
    ensures unfailed { result ≡ 0 → O.faults out.new ≡ O.faults out.old }
    ensures passes { (f : Filter) (rest : List (List ℕ)) → map string_bytes words.now ≡ word_of f ∷ rest
        → (result ≡ 0) ⊎ (result ≡ 4) → PassesSaid (G.given_up gate.now) rest }

    // 1 and 6: their line is told.
    ensures stopped { (f : Filter) (rest : List (List ℕ)) → map string_bytes words.now ≡ word_of f ∷ rest
        → (result ≡ 1) ⊎ (result ≡ 6) → (line : List ℕ) × WasTold E.Sink err.old err.new line
        × IfSome (S.files shelf) (λ told. TheOutcome rest (filtered_files f told) (stopped result line)) }

    // 2: exactly where the other words are refused, want of memory aside.
    ensures refused { (f : Filter) (rest : List (List ℕ)) → map string_bytes words.now ≡ word_of f ∷ rest
        → result ≡ 2 → (refusal : List ℕ) × AreRefused rest refusal × WasTold E.Sink err.old err.new refusal }
    ensures refuses { (f : Filter) (rest : List (List ℕ)) → map string_bytes words.now ≡ word_of f ∷ rest
        → (refusal : List ℕ) → AreRefused rest refusal → (result ≡ 2) ⊎ (result ≡ 5) }

    ensures usage { (f : Filter) (rest : List (List ℕ)) → map string_bytes words.now ≡ word_of f ∷ rest
        → SayNoLine rest → result ≡ 2 }

    // 3: only where the shelf failed on a file that the words name, in its turn, so that it became another one; the line
    // told is that of its name.
    ensures read_failed { (f : Filter) (rest : List (List ℕ)) → map string_bytes words.now ≡ word_of f ∷ rest
        → result ≡ 3 → (line : Line) × AreAccepted rest line × ((told : List ℕ) × (after : S)
        × ShelfFailedOn S.Shelf (asked_names line) told shelf after × WasTold E.Sink err.old err.new told) }

    // 4: a prefix of the answer is written, and the output failed on it.
    ensures write_failed { (f : Filter) (rest : List (List ℕ)) → map string_bytes words.now ≡ word_of f ∷ rest
        → result ≡ 4 → (text : List ℕ) × HasFailed O.Sink out.old out.new
        × HasGrownByPrefix O.Sink out.old out.new text × WasTold E.Sink err.old err.new write_line
        × IfSome (S.files shelf) (λ told. TheOutcome rest (filtered_files f told) (answered text)) }

    // 5: want of memory.
    ensures no_memory { result ≡ 5 → WasTold E.Sink err.old err.new memory_line }

    // The output is as before but for an answer, and the status is that of the one outcome, but for 3, 4 and 5.
    ensures same_out { result ≢ 0 → result ≢ 4 → out.new ≡ out.old }
    ensures complete { (f : Filter) (rest : List (List ℕ)) → map string_bytes words.now ≡ word_of f ∷ rest
        → (result ≡ 3) ⊎ ((result ≡ 4) ⊎ ((result ≡ 5) ⊎ IfSome (S.files shelf) (λ told. (outcome : Outcome)
        × TheOutcome rest (filtered_files f told) outcome × (result ≡ outcome.status)))) }
{
    let Some(asked) = read_asked(words) else {
        tell_usage(err);
        return 2;
    };
    let mut shelf = FilteredShelf::new(shelf, asked.filter);
    top(rt, alloc, asked.words, &mut shelf, out, err, gate)
}
