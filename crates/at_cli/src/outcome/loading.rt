//! What comes of the words and the shelf before anything is answered: an end, or the bytes of the files. No runtime is
//! handed in here, so nothing is run by threads, and nothing waits.

ghost use Rattle.std.specs.Prelude.{◌≡◌, ◌≢◌, ◌⊎◌, ◌+◌, ◌≤◌, ◌^◌, ℕ, List, length, true, map, Some, None, IsSome};
ghost use Rattle.std.specs.Prelude.{MatchBool, string_bytes};
ghost use Rattle.at_query.specs.Ranges.{IsQueryInRange};
ghost use Rattle.at_cli.specs.LineOf.{KeepsLimits, SaysLine};
ghost use Rattle.at_cli.specs.Failures.{ShelfWasAsked, ShelfAsksFor, ShelfFailedOn, asked_names, asked_second};
ghost use Rattle.at_cli.specs.Outcomes.{has_right_count as count_is_right, Sized, HasPairOutcome, HasFilesOutcome};
ghost use Rattle.at_cli.specs.Outcomes.{HasCountedOutcome, HasLineOutcome, HasOutcome, IsLineRefused, IsQueryRefused};
ghost use Rattle.at_cli.specs.Outcomes.{IsQueryAccepted, IsLineAccepted, AreRefused, AreAccepted, SayNoLine};
ghost use Rattle.at_cli.specs.Endings.{status_of, line_of, Ends};
ghost use Rattle.at_cli.specs.Loading.{OnEnd, IfLoaded, IsReady, chunk_size as size_asked};
ghost use Rattle.at_cli.specs.declared.words.line.Line.{Line};

use crate::outcome::ending::Ending;
use crate::outcome::reading::named_bytes;
use crate::words::line::{Line, WordsEnd, read_words};
use at_io::{ReadError, Shelf};
use at_query::{Query, QueryEnd, Verb, read_query};
use at_text::Word;
use std::alloc::Global;

/// A query over one file, whose bytes are read.
#[derive(Drop)]
pub struct OneFile {
    /// What the words say.
    pub line: Line,
    /// The query of the line.
    pub query: Query,
    /// The bytes of the line's file.
    pub bytes: Vec<u8>,
}

/// A join of two files, whose bytes are read.
#[derive(Drop)]
pub struct TwoFiles {
    /// What the words say.
    pub line: Line,
    /// The query of the line.
    pub query: Query,
    /// The bytes of the line's first file.
    pub first: Vec<u8>,
    /// The bytes of the line's second file.
    pub second: Vec<u8>,
}

/// What comes of the words and the shelf before anything is answered.
#[derive(Drop)]
pub enum Loaded {
    /// The run ends without an answer.
    Ended(Ending),
    /// One file is there to be answered.
    One(OneFile),
    /// Two files are there to be joined.
    Two(TwoFiles),
}

/// The name of the line's second file.
pub fn second_of(line: Line) -> Word
    requires { IsSome line.second }
    ensures { Some result ≡ line.second }
{
    let Line { second, .. } = line;
    match second {
        Some(second) => second,
        None => unreachable!(),
    }
}

/// The name of the line's second file, lent.
pub fn second_text(line: &Line) -> &str
    requires { IsSome line.now.second }
    ensures { Some result.now ≡ line.now.second }
{
    match &line.second {
        Some(second) => second.as_str(),
        None => unreachable!(),
    }
}

/// The line's second file, beside the bytes of the first.
fn load_second<S: Shelf>(
    alloc: Global,
    line: Line,
    query: Query,
    first: Vec<u8>,
    shelf: &mut S,
) -> Loaded
    requires limit { length first.items ≤ 2 ^ 28 }
    requires line { KeepsLimits line }
    requires second { IsSome line.second }
    requires in_range { IsQueryInRange query }
    requires verb { query.verb ≡ Verb.Join }
    ensures outcome { (second : List ℕ) → line.second ≡ Some second
        → OnEnd result (Ends (λ told. Sized told second (HasPairOutcome line query second first.items))
        (S.files shelf.old)) }
    ensures status { OnEnd result (λ end. status_of end ≢ 2) }
    ensures failed { OnEnd result (λ end. status_of end ≡ 3
        → ShelfFailedOn S.Shelf (asked_second line.second) (line_of end) shelf.old shelf.new) }
    ensures unbroken { OnEnd result (λ end. (status_of end ≡ 3) ⊎ (S.broken shelf.new ≡ S.broken shelf.old)) }
    ensures large { OnEnd result (λ end. status_of end ≡ 6
        → S.taken shelf.old + (2 ^ 28 + 1) ≤ S.taken shelf.new) }
    ensures asked { ShelfWasAsked S.Shelf (asked_second line.second) shelf.old shelf.new }
    ensures same_files { S.files shelf.new ≡ S.files shelf.old }
    ensures ready { IsReady result }
    ensures same_line { IfLoaded result (λ loaded. loaded ≡ line) }
{
    match named_bytes(alloc, shelf, second_text(&line)) {
        Ok(second) => Loaded::Two(TwoFiles {
            line,
            query,
            first,
            second,
        }),
        Err(ReadError::Failed) => Loaded::Ended(Ending::ReadFailed(second_of(line))),
        Err(ReadError::TooLarge) => Loaded::Ended(Ending::TooLarge(second_of(line))),
        Err(ReadError::Memory) => Loaded::Ended(Ending::NoMemory),
    }
}

/// The line's two files.
fn load_two<S: Shelf>(alloc: Global, line: Line, query: Query, shelf: &mut S) -> Loaded
    requires line { KeepsLimits line }
    requires second { IsSome line.second }
    requires in_range { IsQueryInRange query }
    requires verb { query.verb ≡ Verb.Join }
    ensures outcome { (second : List ℕ) → line.second ≡ Some second
        → OnEnd result (Ends (HasFilesOutcome (Some second) line query) (S.files shelf.old)) }
    ensures status { OnEnd result (λ end. status_of end ≢ 2) }
    ensures failed { OnEnd result (λ end. status_of end ≡ 3
        → ShelfFailedOn S.Shelf (asked_names line) (line_of end) shelf.old shelf.new) }
    ensures unbroken { OnEnd result (λ end. (status_of end ≡ 3) ⊎ (S.broken shelf.new ≡ S.broken shelf.old)) }
    ensures large { OnEnd result (λ end. status_of end ≡ 6
        → S.taken shelf.old + (2 ^ 28 + 1) ≤ S.taken shelf.new) }
    ensures asked { ShelfAsksFor S.Shelf (asked_names line) shelf.old shelf.new }
    ensures same_files { S.files shelf.new ≡ S.files shelf.old }
    ensures ready { IsReady result }
    ensures same_line { IfLoaded result (λ loaded. loaded ≡ line) }
{
    match named_bytes(alloc, shelf, line.first.as_str()) {
        Ok(first) => load_second(alloc, line, query, first, shelf),
        Err(ReadError::Failed) => Loaded::Ended(Ending::ReadFailed(line.first)),
        Err(ReadError::TooLarge) => Loaded::Ended(Ending::TooLarge(line.first)),
        Err(ReadError::Memory) => Loaded::Ended(Ending::NoMemory),
    }
}

/// The line's one file.
fn load_one<S: Shelf>(alloc: Global, line: Line, query: Query, shelf: &mut S) -> Loaded
    requires line { KeepsLimits line }
    requires in_range { IsQueryInRange query }
    requires verb { query.verb ≢ Verb.Join }
    requires second { line.second ≡ None }
    ensures outcome { OnEnd result (Ends (HasFilesOutcome None line query) (S.files shelf.old)) }
    ensures status { OnEnd result (λ end. status_of end ≢ 2) }
    ensures failed { OnEnd result (λ end. status_of end ≡ 3
        → ShelfFailedOn S.Shelf (asked_names line) (line_of end) shelf.old shelf.new) }
    ensures unbroken { OnEnd result (λ end. (status_of end ≡ 3) ⊎ (S.broken shelf.new ≡ S.broken shelf.old)) }
    ensures large { OnEnd result (λ end. status_of end ≡ 6
        → S.taken shelf.old + (2 ^ 28 + 1) ≤ S.taken shelf.new) }
    ensures asked { ShelfAsksFor S.Shelf (asked_names line) shelf.old shelf.new }
    ensures same_files { S.files shelf.new ≡ S.files shelf.old }
    ensures ready { IsReady result }
    ensures same_line { IfLoaded result (λ loaded. loaded ≡ line) }
{
    match named_bytes(alloc, shelf, line.first.as_str()) {
        Ok(bytes) => Loaded::One(OneFile { line, query, bytes }),
        Err(ReadError::Failed) => Loaded::Ended(Ending::ReadFailed(line.first)),
        Err(ReadError::TooLarge) => Loaded::Ended(Ending::TooLarge(line.first)),
        Err(ReadError::Memory) => Loaded::Ended(Ending::NoMemory),
    }
}

/// Whether two files are joined.
fn is_join(verb: Verb) -> bool
    ensures { MatchBool result (verb ≡ Verb.Join) (verb ≢ Verb.Join) }
{
    match verb {
        Verb::Join => true,
        Verb::Select => false,
        Verb::Count => false,
        Verb::Area => false,
        Verb::Extent => false,
        Verb::Hull => false,
    }
}

/// The line's files, of which there are as many as the verb takes.
fn load_files<S: Shelf>(alloc: Global, line: Line, query: Query, shelf: &mut S) -> Loaded
    requires line { KeepsLimits line }
    requires in_range { IsQueryInRange query }
    requires right { count_is_right query.verb line.second ≡ true }
    ensures outcome { OnEnd result (Ends (HasFilesOutcome line.second line query) (S.files shelf.old)) }
    ensures status { OnEnd result (λ end. status_of end ≢ 2) }
    ensures failed { OnEnd result (λ end. status_of end ≡ 3
        → ShelfFailedOn S.Shelf (asked_names line) (line_of end) shelf.old shelf.new) }
    ensures unbroken { OnEnd result (λ end. (status_of end ≡ 3) ⊎ (S.broken shelf.new ≡ S.broken shelf.old)) }
    ensures large { OnEnd result (λ end. status_of end ≡ 6
        → S.taken shelf.old + (2 ^ 28 + 1) ≤ S.taken shelf.new) }
    ensures asked { ShelfAsksFor S.Shelf (asked_names line) shelf.old shelf.new }
    ensures same_files { S.files shelf.new ≡ S.files shelf.old }
    ensures ready { IsReady result }
    ensures same_line { IfLoaded result (λ loaded. loaded ≡ line) }
{
    if is_join(query.verb) {
        return load_two(alloc, line, query, shelf);
    }
    load_one(alloc, line, query, shelf)
}

/// Whether there are as many names as the verb takes.
fn has_right_count(verb: Verb, second: &Option<Word>) -> bool
    ensures { result ≡ count_is_right verb second.now }
{
    match verb {
        Verb::Join => second.is_some(),
        Verb::Select | Verb::Count | Verb::Area | Verb::Extent | Verb::Hull => second.is_none(),
    }
}

/// The files of a query that has no fault, where as many are named as its verb takes.
fn load_query<S: Shelf>(alloc: Global, line: Line, query: Query, shelf: &mut S) -> Loaded
    requires line { KeepsLimits line }
    requires in_range { IsQueryInRange query }
    ensures outcome { OnEnd result (Ends (λ told. HasCountedOutcome (count_is_right query.verb line.second) line query
        told) (S.files shelf.old)) }
    ensures refused { OnEnd result (λ end. status_of end ≡ 2
        → IsQueryRefused line query (line_of end) × (shelf.new ≡ shelf.old)) }
    ensures accepted { OnEnd result (λ end. status_of end ≢ 2 → IsQueryAccepted line query) }
    ensures failed { OnEnd result (λ end. status_of end ≡ 3
        → ShelfFailedOn S.Shelf (asked_names line) (line_of end) shelf.old shelf.new) }
    ensures unbroken { OnEnd result (λ end. (status_of end ≡ 3) ⊎ (S.broken shelf.new ≡ S.broken shelf.old)) }
    ensures large { OnEnd result (λ end. status_of end ≡ 6
        → S.taken shelf.old + (2 ^ 28 + 1) ≤ S.taken shelf.new) }
    ensures asked { (shelf.new ≡ shelf.old) ⊎ (IsQueryAccepted line query
        × ShelfAsksFor S.Shelf (asked_names line) shelf.old shelf.new) }
    ensures same_files { S.files shelf.new ≡ S.files shelf.old }
    ensures ready { IsReady result }
    ensures same_line { IfLoaded result (λ loaded. loaded ≡ line) }
{
    if !has_right_count(query.verb, &line.second) {
        return Loaded::Ended(Ending::Names);
    }
    load_files(alloc, line, query, shelf)
}

/// The files of a line that the words say.
fn load_line<S: Shelf>(alloc: Global, line: Line, shelf: &mut S) -> Loaded
    requires { KeepsLimits line }
    ensures outcome { OnEnd result (Ends (λ told. HasLineOutcome line told) (S.files shelf.old)) }
    ensures refused { OnEnd result (λ end. status_of end ≡ 2
        → IsLineRefused line (line_of end) × (shelf.new ≡ shelf.old)) }
    ensures refuses { (refusal : List ℕ) → IsLineRefused line refusal
        → OnEnd result (λ end. (status_of end ≡ 2) ⊎ (status_of end ≡ 5)) }
    ensures failed { OnEnd result (λ end. status_of end ≡ 3 → IsLineAccepted line
        × ShelfFailedOn S.Shelf (asked_names line) (line_of end) shelf.old shelf.new) }
    ensures unbroken { OnEnd result (λ end. (status_of end ≡ 3) ⊎ (S.broken shelf.new ≡ S.broken shelf.old)) }
    ensures large { OnEnd result (λ end. status_of end ≡ 6
        → S.taken shelf.old + (2 ^ 28 + 1) ≤ S.taken shelf.new) }
    ensures asked { (shelf.new ≡ shelf.old) ⊎ (IsLineAccepted line
        × ShelfAsksFor S.Shelf (asked_names line) shelf.old shelf.new) }
    ensures same_files { S.files shelf.new ≡ S.files shelf.old }
    ensures ready { IsReady result }
    ensures same_line { IfLoaded result (λ loaded. loaded ≡ line) }
{
    match read_query(alloc, line.query.as_str().as_bytes(), line.digits, line.how) {
        Ok(query) => load_query(alloc, line, query, shelf),
        Err(QueryEnd::Fault(at)) => Loaded::Ended(Ending::QueryFault(at)),
        Err(QueryEnd::Memory) => Loaded::Ended(Ending::NoMemory),
    }
}

/// What comes of the words and the shelf before anything is answered.
///
/// What is said of the run's end holds of each end to which what is loaded may still lead: where it is an end already,
/// of that one, and else of each that is right over the bytes.
pub fn load<S: Shelf>(alloc: Global, words: &[String], shelf: &mut S) -> Loaded
    ensures outcome { OnEnd result (Ends (HasOutcome (map string_bytes words.now)) (S.files shelf.old)) }
    ensures refused { OnEnd result (λ end. status_of end ≡ 2
        → AreRefused (map string_bytes words.now) (line_of end)) }
    ensures refuses { (refusal : List ℕ) → AreRefused (map string_bytes words.now) refusal
        → OnEnd result (λ end. (status_of end ≡ 2) ⊎ (status_of end ≡ 5)) }
    ensures usage { SayNoLine (map string_bytes words.now) → OnEnd result (λ end. status_of end ≡ 2) }
    ensures untouched { OnEnd result (λ end. status_of end ≡ 2 → shelf.new ≡ shelf.old) }
    ensures failed { OnEnd result (λ end. status_of end ≡ 3 → (line : Line)
        × AreAccepted (map string_bytes words.now) line
        × ShelfFailedOn S.Shelf (asked_names line) (line_of end) shelf.old shelf.new) }
    ensures unbroken { OnEnd result (λ end. (status_of end ≡ 3) ⊎ (S.broken shelf.new ≡ S.broken shelf.old)) }
    ensures large { OnEnd result (λ end. status_of end ≡ 6
        → S.taken shelf.old + (2 ^ 28 + 1) ≤ S.taken shelf.new) }
    ensures asked { (shelf.new ≡ shelf.old)
        ⊎ ((line : Line) × AreAccepted (map string_bytes words.now) line
        × ShelfAsksFor S.Shelf (asked_names line) shelf.old shelf.new) }
    ensures same_files { S.files shelf.new ≡ S.files shelf.old }
    ensures ready { IsReady result }
    ensures says { IfLoaded result (SaysLine (map string_bytes words.now)) }
{
    match read_words(alloc, words) {
        Ok(line) => load_line(alloc, line, shelf),
        Err(WordsEnd::Refused) => Loaded::Ended(Ending::Usage),
        Err(WordsEnd::Memory) => Loaded::Ended(Ending::NoMemory),
    }
}

/// How many bytes the chunks have in which the words ask for the files, where they do and any were read.
pub fn chunk_size(loaded: &Loaded) -> Option<u32>
    ensures { result ≡ size_asked loaded.now }
{
    match loaded {
        Loaded::Ended(_) => None,
        Loaded::One(file) => file.line.feed,
        Loaded::Two(files) => files.line.feed,
    }
}
