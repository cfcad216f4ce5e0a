//! Joins of files of different forms. No words of the program ask for one of a sequence and another form, since the form
//! that they say is that of both files.

use at_blocks::Cuts;
use at_crew::Free;
use at_fixed::Coords;
use at_query::answer_text;
use at_run::{Form, JoinFault, answer_join, of_all};
use at_text::{Fault, base_of};
use std::alloc::Global;
use std::process::Abort;
use std::test::Fail;
use std::thread::Threads;

const SEQUENCE: &str =
    "\u{1E}{\"type\":\"Point\",\"coordinates\":[0,0]}\n\u{1E}{\"type\":\"Point\",\"coordinates\":[1,1]}";

const LINES: &str = "POINT (5 5)\nPOINT (1 1)\n";

const TEXT: &str = "{\"type\":\"Point\",\"coordinates\":[1,1]}";

/// A fault as a test has it.
fn fault_text(alloc: Global, file: &str, fault: Fault) -> Result<String, Fail> {
    let kind = fault.kind;
    let at = fault.at;
    Ok(format!(in alloc; "{file} {kind:?} {at}")?)
}

/// The pairs of two files, or what is wrong with one.
fn joined<R: Threads + Sync>(
    rt: &R,
    alloc: Global,
    a: &str,
    form_a: Form,
    b: &str,
    form_b: Form,
) -> Result<String, Fail> {
    let first = a.as_bytes();
    let second = b.as_bytes();
    if first.len() > 1000 || second.len() > 1000 {
        return Err(Fail::from("too many bytes"));
    }
    let Ok(cuts_a) = Cuts::even(alloc, base_of(first), first.len() as u32, 4) else {
        return Err(Fail::from("no memory"));
    };
    let Ok(cuts_b) = Cuts::even(alloc, base_of(second), second.len() as u32, 4) else {
        return Err(Fail::from("no memory"));
    };
    let all = of_all(alloc);
    match answer_join(
        rt,
        alloc,
        first,
        form_a,
        second,
        form_b,
        &cuts_a,
        &cuts_b,
        &all,
        7,
        Coords::Round,
        2,
        &Free,
    ) {
        Ok(pairs) => Ok(answer_text(alloc, &pairs, 7)?),
        Err(JoinFault::First(fault)) => fault_text(alloc, "first", fault),
        Err(JoinFault::Second(fault)) => fault_text(alloc, "second", fault),
        Err(JoinFault::Memory) => Ok(String::from_str(alloc, "memory")?),
    }
}

/// Joins the files in both orders, and compares the pairs.
fn compare_joins<R: Abort + Threads + Sync>(
    rt: &R,
    alloc: Global,
    other: &str,
    form: Form,
    wanted: &str,
    turned: &str,
) -> Result<(), Fail> {
    let pairs = joined(rt, alloc, SEQUENCE, Form::Seq, other, form)?;
    assert!(rt; pairs.as_str() == wanted, "{pairs}");
    let pairs = joined(rt, alloc, other, form, SEQUENCE, Form::Seq)?;
    assert!(rt; pairs.as_str() == turned, "{pairs}");
    Ok(())
}

#[test]
fn joins_of_two_forms(rt: HostRuntime) -> Result<(), Fail> {
    let alloc = rt.alloc();
    compare_joins(&rt, alloc, LINES, Form::Wkt, "39 12\n", "12 39\n")?;
    compare_joins(&rt, alloc, TEXT, Form::GeoJson, "39 0\n", "0 39\n")?;
    compare_joins(
        &rt,
        alloc,
        SEQUENCE,
        Form::Seq,
        "1 1\n39 39\n",
        "1 1\n39 39\n",
    )
}

#[test]
fn faults_of_two_forms(rt: HostRuntime) -> Result<(), Fail> {
    let alloc = rt.alloc();
    compare_joins(
        &rt,
        alloc,
        TEXT,
        Form::Wkt,
        "second Syntax 0",
        "first Syntax 0",
    )?;
    compare_joins(
        &rt,
        alloc,
        "\u{1E}{}",
        Form::Seq,
        "second Form 1",
        "first Form 1",
    )?;
    let both = joined(&rt, alloc, TEXT, Form::Seq, TEXT, Form::Wkt)?;
    assert!(rt; both.as_str() == "first Syntax 0", "{both}");
    Ok(())
}
