//! A parcel with a ring of more sides than are walked each time, so that its area and the outside's are kept through
//! edits. It is moved, bent and cut by much more than its area: one that was kept wrong would tell another sign. On
//! half-edges and on the plain store it comes to the same bytes.
use crate::cases::{deep, lines};
use crate::stores::run_plain;
use cad_files::MemSink;
use cad_job::run_job;
use number_hash::NumberHash;
use std::alloc::{AllocError, Global};
use std::process::Abort;
use std::test::Fail;

/// How many points stand along the arch.
const ARCH: u32 = 90;

/// Appends a point of the arch, and the string from it to the point before it.
fn append_arched(text: &mut String, place: u32) -> Result<(), AllocError> {
    let before = place.saturating_sub(1);
    let x = place.saturating_mul(1000);
    let y = place.saturating_mul(ARCH.saturating_add(1).saturating_sub(place));
    writeln!(text, "point,{place},{x},{y},,,")?;
    if before > 0 {
        writeln!(text, "string,{place},{place},{before},1,0,")?;
    }
    Ok(())
}

/// The plan of a parcel under an arch of 90 points, whose ends are joined with point 100, five metres below.
fn arch_plan(alloc: Global) -> Result<String, Fail> {
    let mut text = format!(in alloc; "plan,2,,,,,\nsource,1,S,,,,\nparcel,1,A,,,,\n")?;
    for place in 1..=ARCH {
        append_arched(&mut text, place)?;
    }
    text.push_str("point,100,45500,-5000,,,\n")?;
    text.push_str("string,100,100,90,1,0,\nstring,101,1,100,1,0,\nopen,,,,,,\n")?;
    Ok(text)
}

/// What a script on that plan writes, where both stores write the same.
fn written_by_both<R: Abort + AllocGlobal>(rt: &R, script: &str) -> Result<MemSink, Fail> {
    let mut job = Vec::new(rt.alloc());
    job.extend_from_slice(arch_plan(rt.alloc())?.as_bytes())?;
    let records = lines(rt.alloc(), &[script])?;
    job.extend_from_slice(records.as_slice())?;
    let mut halves = MemSink::new(rt.alloc(), u64::MAX);
    let mut plain = MemSink::new(rt.alloc(), u64::MAX);
    let ended = run_job(
        rt.alloc(),
        NumberHash::seeded(7),
        job.as_slice(),
        &mut halves,
        deep(rt),
    );
    assert_eq!(rt; ended, Ok(()));
    let ended = run_plain(rt.alloc(), job.as_slice(), &mut plain, deep(rt));
    assert_eq!(rt; ended, Ok(()));
    assert!(rt; halves.bytes() == plain.bytes());
    Ok(halves)
}

/// Fails where a script on that plan is answered otherwise.
fn check<R: Abort + AllocGlobal>(rt: &R, script: &str, answers: &str) -> Result<(), Fail> {
    let written = written_by_both(rt, script)?;
    let wanted = lines(rt.alloc(), &[answers])?;
    assert!(rt; written.bytes() == wanted.as_slice());
    Ok(())
}

#[test]
fn a_long_ring_moved(rt: HostRuntime) -> Result<(), Fail> {
    // over the arch it would be turned round
    let script = "move,100,45500,-900000000; move,100,45500,50000; move,100,45500,-5000; \
        move,100,45500,50000; undo; undo; redo; redo; move,100,45500,-900000000; undo";
    check(
        &rt,
        script,
        "ok; refused,18,breaks,V7; ok; refused,18,breaks,V7; ok; ok; ok; ok; ok; ok",
    )
}

#[test]
fn a_long_ring_bent(rt: HostRuntime) -> Result<(), Fail> {
    // from over the arch down to point 100 it would be crossed
    let script = "split,101,200,-900000000,-2500,201,202; join,200,203; undo; undo; redo; redo; \
        undo; move,200,-100,-2500; move,200,-900000000,-2500; join,200,204; \
        split,204,200,45500,90000,205,206; split,204,200,-900000000,-2500,205,206; join,200,207";
    check(
        &rt,
        script,
        "ok; ok; ok; ok; ok; ok; ok; ok; ok; ok; refused,18,breaks,V4; ok; ok",
    )
}

#[test]
fn a_long_ring_cut(rt: HostRuntime) -> Result<(), Fail> {
    let script = "divide,1,100 10,300,2,B,1; move,100,45500,-900000000; move,100,45500,-5000; \
        merge,1,2; move,100,45500,-900000000; move,100,45500,-5000; undo; undo; undo; undo; undo; \
        undo; redo; redo; redo; redo; redo; redo; divide,1,10 100,300,3,B,1; \
        move,100,45500,-900000000; move,100,45500,-5000; merge,3,1; \
        move,100,45500,-900000000; move,100,45500,-5000";
    check(
        &rt,
        script,
        "ok; ok; ok; ok; ok; ok; ok; ok; ok; ok; ok; ok; ok; ok; ok; ok; ok; ok; ok; ok; ok; ok; ok; \
        ok",
    )
}
