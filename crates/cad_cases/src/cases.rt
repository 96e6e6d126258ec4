//! A worked job, and what becomes of it.
use crate::bases::{CORNERS, ISLAND, ISLAND_CORNERS, ISLAND_SIDES, PINCH, SIDES, SQUARE};
use crate::stores::run_plain;
use cad_files::{MemSink, Sink};
use cad_history::Depth;
use cad_job::{JobFault, run_job};
use number_hash::NumberHash;
use std::alloc::Global;
use std::io::Read;
use std::process::Abort;
use std::test::Fail;

/// A worked job, and its answers or the fault of its plan.
#[derive(Drop)]
struct Case<'a> {
    name: &'a str,
    job: Vec<u8>,
    answers: Vec<u8>,
    fault: &'a str,
}

/// The depth of history that cases have but those on depth.
pub(crate) fn deep<R: Abort>(rt: &R) -> Depth {
    Depth::new(AMPLE_DEPTH).expect(rt, "a depth")
}

/// A depth of history that no case but those on depth reaches.
pub(crate) const AMPLE_DEPTH: usize = 100;

/// How many commas a record has outside quotes.
fn commas(record: &str) -> usize {
    let mut count = 0usize;
    for outside in record.split('"').step_by(2) {
        count = count.saturating_add(outside.matches(',').count());
    }
    count
}

/// Appends a record as a line, filled up to seven fields.
fn append_line(text: &mut Vec<u8>, record: &str) -> Result<(), Fail> {
    text.extend_from_slice(record.as_bytes())?;
    for _ in commas(record)..6 {
        text.push(b',')?;
    }
    text.push(b'\n')?;
    Ok(())
}

/// The rows that a name in capitals stands for in a part; any other record stands for itself.
fn rows_named(record: &str) -> &str {
    match record {
        "SQUARE" => SQUARE,
        "CORNERS" => CORNERS,
        "SIDES" => SIDES,
        "ISLAND" => ISLAND,
        "ISLAND_CORNERS" => ISLAND_CORNERS,
        "ISLAND_SIDES" => ISLAND_SIDES,
        "PINCH" => PINCH,
        _ => record,
    }
}

/// Appends the records of a part as lines.
fn append_part(text: &mut Vec<u8>, part: &str) -> Result<(), Fail> {
    for record in part.split("; ") {
        for row in rows_named(record).split("; ") {
            append_line(text, row)?;
        }
    }
    Ok(())
}

/// The records of all parts as lines, each filled up to seven fields. In a part records are parted by a semicolon and a
/// space, and written without the commas that fill them.
pub(crate) fn lines(alloc: Global, parts: &[&str]) -> Result<Vec<u8>, Fail> {
    let mut text = Vec::new(alloc);
    for part in parts {
        append_part(&mut text, part)?;
    }
    Ok(text)
}

/// The case of a text: its name, parts of the job behind `>`, and parts of the answers behind `<`, or behind `!` the fault
/// of a plan, where nothing is written.
fn case_of(alloc: Global, text: &str) -> Result<Case<'_>, Fail> {
    let mut case = Case {
        name: "",
        job: Vec::new(alloc),
        answers: Vec::new(alloc),
        fault: "",
    };
    for line in text.lines() {
        if let Some(part) = line.strip_prefix("> ") {
            append_part(&mut case.job, part)?;
        } else if let Some(part) = line.strip_prefix("< ") {
            append_part(&mut case.answers, part)?;
        } else if let Some(fault) = line.strip_prefix("! ") {
            case.fault = fault;
        } else {
            case.name = line;
        }
    }
    Ok(case)
}

/// Runs a job on half-edges at a depth, as the program does.
fn run_at<R: Read + Drop, S: Sink>(
    alloc: Global,
    job: R,
    sink: &mut S,
    depth: Depth,
) -> Result<(), JobFault> {
    run_job(alloc, NumberHash::fixed(), job, sink, depth)
}

/// Runs a job on half-edges with ample depth.
pub(crate) fn run_deep<A: Abort + AllocGlobal, R: Read + Drop, S: Sink>(
    rt: &A,
    job: R,
    sink: &mut S,
) -> Result<(), JobFault> {
    run_at(rt.alloc(), job, sink, deep(rt))
}

/// Runs a job with ample depth, and compares what it writes and how it ends.
pub(crate) fn check_bytes<R: Abort + AllocGlobal>(
    rt: &R,
    job: &[u8],
    answers: &[u8],
    end: &Result<(), JobFault>,
) -> Result<(), Fail> {
    let mut sink = MemSink::new(rt.alloc(), u64::MAX);
    assert_eq!(rt; run_deep(rt, job, &mut sink), *end);
    assert!(rt; sink.bytes() == answers);
    Ok(())
}

/// The text of the fault of a plan that a job ended with; empty where it was read to its end.
fn text_of_end(alloc: Global, end: &Result<(), JobFault>) -> Result<String, Fail> {
    match end {
        Ok(()) => Ok(String::new(alloc)),
        Err(JobFault::Plan(fault)) => Ok(fault.to_string(alloc)?),
        Err(_) => Err(Fail::from("a job that is read to its end")),
    }
}

/// Compares what a case wrote and how it ended on a store.
fn check_end<R: Abort + AllocGlobal>(
    rt: &R,
    case: &Case<'_>,
    store: &str,
    written: &[u8],
    end: &Result<(), JobFault>,
) -> Result<(), Fail> {
    let fault = text_of_end(rt.alloc(), end)?;
    assert!(rt;
        fault.as_str() == case.fault,
        "how {} ends on {store}",
        case.name
    );
    assert!(rt;
        written == case.answers.as_slice(),
        "what {} writes on {store}",
        case.name
    );
    Ok(())
}

/// Runs a case at a depth, on half-edges as the program does and on the plain store.
fn check_case<R: Abort + AllocGlobal>(rt: &R, depth: Depth, case: &Case<'_>) -> Result<(), Fail> {
    let mut sink = MemSink::new(rt.alloc(), u64::MAX);
    let end = run_at(rt.alloc(), case.job.as_slice(), &mut sink, depth);
    check_end(rt, case, "half-edges", sink.bytes(), &end)?;
    let mut plain = MemSink::new(rt.alloc(), u64::MAX);
    let end = run_plain(rt.alloc(), case.job.as_slice(), &mut plain, depth);
    check_end(rt, case, "the plain store", plain.bytes(), &end)
}

/// Runs each case of a text at a depth. Cases are parted by a blank line.
pub(crate) fn check_at<R: Abort + AllocGlobal>(
    rt: &R,
    depth: usize,
    cases: &str,
) -> Result<(), Fail> {
    let depth = Depth::new(depth).expect(rt, "a depth");
    for text in cases.split("\n\n") {
        let case = case_of(rt.alloc(), text)?;
        check_case(rt, depth, &case)?;
    }
    Ok(())
}

/// Runs each case of a text with ample depth.
pub(crate) fn check<R: Abort + AllocGlobal>(rt: &R, cases: &str) -> Result<(), Fail> {
    check_at(rt, AMPLE_DEPTH, cases)
}
