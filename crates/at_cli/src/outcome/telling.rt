//! Text put to the output, and lines to the error output.

ghost use Rattle.std.specs.Prelude.{◌≡◌, ◌++◌, [], codes, OnOk, OnErr};
ghost use Rattle.std.specs.List.{flat_map};
ghost use Rattle.at_cli.specs.Texts.{kind_name as name_of_kind, query_line, fault_line, memory_line, write_line};
ghost use Rattle.at_cli.specs.Telling.{WasTold, HasGrown, HasGrownByPrefix, HasFailed};
ghost use Rattle.at_cli.specs.Endings.{line_of};

use crate::outcome::ending::Ending;
use at_io::{Failed, Sink};
use at_text::{Fault, FaultKind};

/// The most bytes of an answer that one put is given.
const PIECE: usize = 65_536;

const USAGE: &str =
    "usage: atgis [--form geojson|wkt|seq] [--coords exact|round] [--digits 7|9] [--blocks 1..4096] \
     [--workers 1..64] [--feed 1..1048576] QUERY FILE [SECOND]\n";

/// Puts the parts of a line one after another, up to the first put that fails.
fn put_parts<E: Sink>(err: &mut E, parts: &[&str])
    ensures { WasTold E.Sink err.old err.new (flat_map (λ (part : _). part.now) parts.now) }
{
    for part in parts {
        let Ok(()) = err.put(part.as_bytes()) else {
            return;
        };
    }
}

/// Puts a text in pieces of 65,536 bytes, the last one shorter, up to the first put that fails. An empty text
/// is no put.
pub fn put_pieces<O: Sink>(out: &mut O, text: &[u8]) -> Result<(), Failed>
    ensures ok { OnOk result (HasGrown O.Sink out.old out.new text.now) }
    ensures unfailed { OnOk result (O.faults out.new ≡ O.faults out.old) }
    ensures failed { OnErr result (HasFailed O.Sink out.old out.new) }
    ensures kept { OnErr result (HasGrownByPrefix O.Sink out.old out.new text.now) }
    ensures empty { text.now ≡ [] → out.new ≡ out.old }
{
    let mut at = 0;
    while at < text.len() {
        let end = text.len().min(at.saturating_add(PIECE));
        out.put(&text[at..end])?;
        at = end;
    }
    Ok(())
}

/// The name of a kind of fault, as it is printed.
fn kind_name(kind: FaultKind) -> &'static str
    ensures { result.now ≡ name_of_kind kind }
{
    match kind {
        FaultKind::NotUtf8 => "NotUtf8",
        FaultKind::Syntax => "Syntax",
        FaultKind::Ended => "Ended",
        FaultKind::Twin => "Twin",
        FaultKind::Form => "Form",
        FaultKind::Short => "Short",
        FaultKind::Ring => "Ring",
        FaultKind::Scale => "Scale",
        FaultKind::Range => "Range",
    }
}

/// Puts `name: kind at place` as a line.
fn put_fault<'a, E: Sink>(err: &mut E, name: &'a str, kind: &'a str, at: &'a str)
    ensures { WasTold E.Sink err.old err.new
        (name.now ++ codes ": " ++ kind.now ++ codes " at " ++ at.now ++ codes "\n") }
{
    put_parts(err, &[name, ": ", kind, " at ", at, "\n"]);
}

/// Tells the fault of a file.
fn tell_fault<E: Sink>(err: &mut E, name: &str, fault: Fault)
    ensures { WasTold E.Sink err.old err.new (fault_line name.now fault) }
{
    let mut digits = itoa::Buffer::new();
    let at = digits.format(fault.at);
    put_fault(err, name, kind_name(fault.kind), at);
}

/// Tells the fault of a query.
fn tell_query_fault<E: Sink>(err: &mut E, at: u32)
    ensures { WasTold E.Sink err.old err.new (query_line at) }
{
    let mut digits = itoa::Buffer::new();
    let at = digits.format(at);
    put_query_fault(err, at);
}

/// Puts `query: at place` as a line.
fn put_query_fault<E: Sink>(err: &mut E, at: &str)
    ensures { WasTold E.Sink err.old err.new (codes "query: at " ++ at.now ++ codes "\n") }
{
    put_parts(err, &["query: at ", at, "\n"]);
}

/// Tells the line of an end. It takes no memory.
pub fn tell_line<E: Sink>(err: &mut E, ending: &Ending)
    ensures { WasTold E.Sink err.old err.new (line_of ending.now) }
{
    match ending {
        Ending::Answered(_) => {}
        Ending::Usage => put_parts(err, &[USAGE]),
        Ending::QueryFault(at) => tell_query_fault(err, *at),
        Ending::Names => put_parts(err, &["files: join takes two, every other verb one\n"]),
        Ending::Faulty(name, fault) => tell_fault(err, name.as_str(), *fault),
        Ending::ReadFailed(name) => put_parts(err, &[name.as_str(), ": read failed\n"]),
        Ending::TooLarge(name) => put_parts(err, &[name.as_str(), ": more than 268435456 bytes\n"]),
        Ending::NoMemory => put_parts(err, &["out of memory\n"]),
    }
}

/// Tells that a write to the output failed. It takes no memory.
pub fn tell_write_failed<E: Sink>(err: &mut E)
    ensures { WasTold E.Sink err.old err.new write_line }
{
    put_parts(err, &["output: write failed\n"]);
}

/// Tells that memory was wanted, and answers the status of that, 5. It takes no memory.
pub fn tell_no_memory<E: Sink>(err: &mut E) -> u8
    ensures status { result ≡ 5 }
    ensures line { WasTold E.Sink err.old err.new memory_line }
{
    put_parts(err, &["out of memory\n"]);
    5
}
