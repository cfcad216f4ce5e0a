//! The top call: a run from its words to its status.

ghost use Rattle.std.specs.Prelude.{◌≡◌, ◌≢◌, ◌⊎◌, ◌+◌, ◌≤◌, ◌^◌, ℕ, List, [], map, IfSome};
ghost use Rattle.std.specs.Prelude.{string_bytes};
ghost use Rattle.at_cli.specs.Gates.{PassesSaid};
ghost use Rattle.at_cli.specs.Texts.{write_line, memory_line};
ghost use Rattle.at_cli.specs.Outcomes.{Outcome, stopped, answered, TheOutcome};
ghost use Rattle.at_cli.specs.Outcomes.{SayNoLine, AreRefused};
ghost use Rattle.at_cli.specs.Outcomes.{AreAccepted};
ghost use Rattle.at_cli.specs.Failures.{ShelfAsksFor, ShelfFailedOn, asked_names};
ghost use Rattle.at_cli.specs.Endings.{status_of, text_of, line_of};
ghost use Rattle.at_cli.specs.declared.words.line.Line.{Line};
ghost use Rattle.at_cli.specs.Telling.{WasTold, HasGrown, HasGrownByPrefix, HasFailed};

use crate::outcome::answering::{end_in_blocks, end_in_chunks};
use crate::outcome::ending::Ending;
use crate::outcome::loading::{chunk_size, load};
use crate::outcome::telling::{put_pieces, tell_line, tell_write_failed};
use at_crew::Gate;
use at_io::{Shelf, Sink};
use std::alloc::{AllocGlobal, Global};
use std::random::RandomSource;
use std::sync::Wait;
use std::thread::Threads;

/// Writes what the end says, and answers the status.
fn tell<O: Sink, E: Sink>(ending: &Ending, out: &mut O, err: &mut E) -> u8
    ensures status { (result ≡ status_of ending.now) ⊎ ((result ≡ 4) × (status_of ending.now ≡ 0)) }
    ensures answered { result ≡ 0 → HasGrown O.Sink out.old out.new (text_of ending.now)
        × (err.new ≡ err.old) }
    ensures unfailed { result ≡ 0 → O.faults out.new ≡ O.faults out.old }
    ensures empty { result ≡ 0 → text_of ending.now ≡ [] → out.new ≡ out.old }
    ensures write_failed { result ≡ 4 → HasFailed O.Sink out.old out.new
        × HasGrownByPrefix O.Sink out.old out.new (text_of ending.now)
        × WasTold E.Sink err.old err.new write_line }
    ensures told { result ≢ 0 → result ≢ 4 → (out.new ≡ out.old)
        × WasTold E.Sink err.old err.new (line_of ending.now) }
{
    if let Ending::Answered(text) = ending {
        if put_pieces(out, text.as_bytes()).is_ok() {
            return 0;
        }
        tell_write_failed(err);
        return 4;
    }
    tell_line(err, ending);
    ending.status()
}

/// Runs the program over the words behind its name: reads what they ask for from the shelf, writes
/// the answer to `out` or one line to `err`, and answers the status. The words say in how many
/// blocks a file is read, and by how many passes, or in chunks of how many bytes; no clause asks
/// more of them than whether they are spelled rightly, knows of an order of steps, or says what is
/// done with the gate but for what is given up.
///
/// What is said below holds where the call returns. It may wait only where the words ask for
/// chunks: otherwise no call that it makes takes `Wait`.
///
/// | Status | Comes |
/// |---|---|
/// | 0 | the answer is written |
/// | 1 | a file has a fault |
/// | 2 | exactly where the words, the query or the count of names are refused |
/// | 3 | only where the shelf failed on a file |
/// | 4 | only where the output failed |
/// | 5 | want of memory |
/// | 6 | a file has more than 2^28 bytes |
///
/// What is said of content holds where the shelf tells its files and the sinks what is written. The
/// words and the files have at most one outcome, so what is written where nothing fails is a
/// function of them.
pub fn top<
    R: Threads + Sync + Wait + RandomSource + AllocGlobal,
    S: Shelf,
    O: Sink,
    E: Sink,
    G: Gate,
>(rt: &R, alloc: Global, words: &[String], shelf: &mut S, out: &mut O, err: &mut E, gate: &G) -> u8
    ensures status { result ≤ 6 }

    // 0: the answer of the words and the files is written, and nothing else; no put failed.
    ensures answered { result ≡ 0 → (text : List ℕ) × HasGrown O.Sink out.old out.new text
        × (err.new ≡ err.old) × (text ≡ [] → out.new ≡ out.old)
        × IfSome (S.files shelf.old)
        (λ told. TheOutcome (map string_bytes words.now) told (answered text)) }

    ensures unfailed { result ≡ 0 → O.faults out.new ≡ O.faults out.old }

    // 0 and 4: the gate gave up no cell of a join, and, where files are read in blocks, no block of theirs.
    ensures passes { ((result ≡ 0) ⊎ (result ≡ 4))
        → PassesSaid (G.given_up gate.now) (map string_bytes words.now) }

    // 1 and 6: the line of the words and the files is told.
    ensures stopped { ((result ≡ 1) ⊎ (result ≡ 6)) → (line : List ℕ)
        × WasTold E.Sink err.old err.new line
        × IfSome (S.files shelf.old)
        (λ told. TheOutcome (map string_bytes words.now) told (stopped result line)) }
    ensures too_large { result ≡ 6 → S.taken shelf.old + (2 ^ 28 + 1) ≤ S.taken shelf.new }

    // 2: exactly where the words, the query or the count of names are refused, want of memory
    // aside, with the line of what is refused; nothing is read. The words are refused whatever
    // memory there is.
    ensures refused { result ≡ 2 → (refusal : List ℕ)
        × AreRefused (map string_bytes words.now) refusal
        × (shelf.new ≡ shelf.old)
        × WasTold E.Sink err.old err.new refusal }
    ensures refuses { (refusal : List ℕ) → AreRefused (map string_bytes words.now) refusal
        → (result ≡ 2) ⊎ (result ≡ 5) }
    ensures usage { SayNoLine (map string_bytes words.now) → result ≡ 2 }

    // 3: only where the shelf failed on a file that the words name, in its turn; the line told is
    // that of its name. No other status hides that a call on the shelf failed.
    ensures read_failed { result ≡ 3 → (line : Line) × AreAccepted (map string_bytes words.now) line
        × ((told : List ℕ) × ShelfFailedOn S.Shelf (asked_names line) told shelf.old shelf.new
        × WasTold E.Sink err.old err.new told) }
    ensures unbroken { (result ≡ 3) ⊎ (S.broken shelf.new ≡ S.broken shelf.old) }

    // 4: only where the output failed on the answer, of which a prefix is written.
    ensures write_failed { result ≡ 4 → (text : List ℕ) × HasFailed O.Sink out.old out.new
        × HasGrownByPrefix O.Sink out.old out.new text
        × WasTold E.Sink err.old err.new write_line
        × IfSome (S.files shelf.old)
        (λ told. TheOutcome (map string_bytes words.now) told (answered text)) }

    // 5: want of memory.
    ensures no_memory { result ≡ 5 → WasTold E.Sink err.old err.new memory_line }

    // The output is as before but for an answer, and of the shelf no file is begun but those that
    // the words name, in turn, without those that are made. The status is that of the one outcome
    // of the words and the files, but for 3, 4 and 5, whose causes are told above; so what writes
    // nothing to the output is no other where the output fails.
    ensures same_out { result ≢ 0 → result ≢ 4 → out.new ≡ out.old }
    ensures asked { (shelf.new ≡ shelf.old)
        ⊎ ((line : Line) × AreAccepted (map string_bytes words.now) line
        × ShelfAsksFor S.Shelf (asked_names line) shelf.old shelf.new) }
    ensures same_files { S.files shelf.new ≡ S.files shelf.old }
    ensures complete { (result ≡ 3) ⊎ ((result ≡ 4) ⊎ ((result ≡ 5)
        ⊎ IfSome (S.files shelf.old) (λ told. (outcome : Outcome)
        × TheOutcome (map string_bytes words.now) told outcome
        × (result ≡ outcome.status)))) }
{
    let loaded = load(alloc, words, shelf);
    let ending = match chunk_size(&loaded) {
        None => end_in_blocks(rt, alloc, loaded, gate),
        Some(size) => end_in_chunks(rt, alloc, loaded, size, gate),
    };
    tell(&ending, out, err)
}
