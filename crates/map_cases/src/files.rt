//! Map files are made, opened, edited by batches of records, and opened again after a crash.
use crate::journals::keep;
use crate::plans::{PLAN, rows};
use crate::sessions::row_of;
use crate::tables::new_tables;
use cad_files::{PlanFault, plan_text};
use cad_history::Depth;
use csv::ByteRecord;
use map_job::{OpenFault, make_map, open_map, serve_batch};
use map_session::ReplayFault;
use number_hash::NumberHash;
use sqlite_trees::store::{Reopen, Store};
use std::alloc::Global;
use std::process::Abort;
use std::test::Fail;
use stored_rows::TableError;

/// The records of a script.
fn script(rt: &impl Abort, alloc: Global, texts: &[&str]) -> Result<Vec<ByteRecord>, Fail> {
    let mut records = Vec::new(alloc);
    for text in texts {
        records.push(row_of(rt, alloc, text))?;
    }
    Ok(records)
}

/// Opens the file, does a batch of records, whose answers are these, and crashes.
fn serve<S: Reopen>(
    rt: &impl Abort,
    alloc: Global,
    store: &mut S,
    texts: &[&str],
    answers: &str,
) -> Result<(), Fail> {
    let mut opened = open_map(store, alloc, NumberHash::fixed())?;
    let records = script(rt, alloc, texts)?;
    assert!(rt; opened.lines < 1_000 && records.len() < 1_000);
    let served = serve_batch(
        alloc,
        &mut opened.editor,
        store,
        opened.lines,
        records.as_slice(),
    )?;
    assert!(rt;
        served.answers.as_slice() == answers.as_bytes(),
        "{answers}"
    );
    store.crash_and_reopen()?;
    Ok(())
}

/// The plan of the map that the file shows, and how many lines its journal has.
fn shown<S: Store>(alloc: Global, store: &mut S) -> Result<(Vec<u8>, u64), Fail> {
    let opened = open_map(store, alloc, NumberHash::fixed())?;
    Ok((plan_text(alloc, opened.editor.map())?, opened.lines))
}

/// A point that no string ends at, and the plan with it.
const POINT: &str = "add-point,9,70000,0,,,";

/// The plan's points, and the same with that one.
const POINTS: (&str, &str) = (
    "point,4,0,-40000,2,,\n",
    "point,4,0,-40000,2,,\npoint,9,70000,0,,,\n",
);

/// The file shows the plan with this text in place of that, and its journal has so many lines.
fn shows<S: Store>(
    rt: &impl Abort,
    alloc: Global,
    store: &mut S,
    change: (&str, &str),
    lines: u64,
) -> Result<(), Fail> {
    let (text, found) = shown(alloc, store)?;
    let (old, new) = change;
    let (front, back) = PLAN.split_once(old).expect(rt, "the plan has it");
    assert_eq!(rt; found, lines);
    assert_eq!(rt; text.len(), front.len() + new.len() + back.len());
    assert!(rt; text.as_slice().starts_with(front.as_bytes()));
    assert!(rt; text.as_slice().ends_with(back.as_bytes()));
    assert!(rt;
        text.as_slice()[front.len()..].starts_with(new.as_bytes()),
        "{new}"
    );
    Ok(())
}

/// Edits that were answered are there after crashes, and can be undone then, as many as the depth says: two.
fn edits_outlive_crashes<S: Reopen>(
    rt: &impl Abort,
    alloc: Global,
    store: &mut S,
) -> Result<(), Fail> {
    shows(rt, alloc, store, ("plan,2", "plan,2"), 0)?;
    let first = [POINT, POINT, "nonsense,,,,,,"];
    serve(
        rt,
        alloc,
        store,
        &first,
        "ok,,,,,,\nrefused,3,taken,point,9,,\nsyntax,,,,,,\n",
    )?;
    shows(rt, alloc, store, POINTS, 1)?;
    serve(rt, alloc, store, &["undo,,,,,,"], "ok,,,,,,\n")?;
    shows(rt, alloc, store, ("plan,2", "plan,2"), 2)?;
    serve(rt, alloc, store, &["undo,,,,,,"], "nothing,,,,,,\n")?;
    shows(rt, alloc, store, ("plan,2", "plan,2"), 2)?;
    serve(rt, alloc, store, &["redo,,,,,,"], "ok,,,,,,\n")?;
    shows(rt, alloc, store, POINTS, 3)
}

/// Two of three edits are undone, and no third.
fn undo_has_a_floor<S: Reopen>(rt: &impl Abort, alloc: Global, store: &mut S) -> Result<(), Fail> {
    let names = [
        "rename,101,One,,,,",
        "rename,101,Two,,,,",
        "rename,101,Three,,,,",
    ];
    serve(rt, alloc, store, &names, "ok,,,,,,\nok,,,,,,\nok,,,,,,\n")?;
    let undo = ["undo,,,,,,", "undo,,,,,,", "undo,,,,,,"];
    serve(
        rt,
        alloc,
        store,
        &undo,
        "ok,,,,,,\nok,,,,,,\nnothing,,,,,,\n",
    )?;
    shows(rt, alloc, store, ("Mill Lane 2", "One"), 5)
}

#[test]
fn answered_edits_outlive_crashes(rt: HostRuntime) -> Result<(), Fail> {
    let mut store = new_tables(rt.alloc())?;
    let depth = Depth::new(2).expect(&rt, "a depth");
    make_map(&mut store, rt.alloc(), &rows(&rt, rt.alloc(), PLAN), depth)?;
    edits_outlive_crashes(&rt, rt.alloc(), &mut store)
}

#[test]
fn undo_ends_at_the_depth_of_the_file(rt: HostRuntime) -> Result<(), Fail> {
    let mut store = new_tables(rt.alloc())?;
    let depth = Depth::new(2).expect(&rt, "a depth");
    make_map(&mut store, rt.alloc(), &rows(&rt, rt.alloc(), PLAN), depth)?;
    undo_has_a_floor(&rt, rt.alloc(), &mut store)
}

/// Why the file isn't opened, and nothing where it is.
fn fault<S: Store>(alloc: Global, store: &mut S) -> Option<OpenFault> {
    open_map(store, alloc, NumberHash::fixed()).err()
}

#[test]
fn a_file_without_settings_is_told(rt: HostRuntime) -> Result<(), Fail> {
    let mut store = new_tables(rt.alloc())?;
    let told = fault(rt.alloc(), &mut store);
    assert_eq!(&rt; told, Some(OpenFault::Table(TableError::Unsound)));
    Ok(())
}

#[test]
fn a_plan_of_no_map_is_told(rt: HostRuntime) -> Result<(), Fail> {
    let mut store = new_tables(rt.alloc())?;
    let depth = Depth::new(2).expect(&rt, "a depth");
    let plan = "plan,2,,,,,\nparcel,1,A,5,,,\nopen,,,,,,\n";
    make_map(&mut store, rt.alloc(), &rows(&rt, rt.alloc(), plan), depth)?;
    let told = fault(rt.alloc(), &mut store);
    assert!(&rt; matches!(told, Some(OpenFault::Plan(PlanFault::Unknown(_)))));
    Ok(())
}

#[test]
fn a_line_that_is_not_carried_out_is_told(rt: HostRuntime) -> Result<(), Fail> {
    let mut store = new_tables(rt.alloc())?;
    let depth = Depth::new(2).expect(&rt, "a depth");
    make_map(&mut store, rt.alloc(), &rows(&rt, rt.alloc(), PLAN), depth)?;
    keep(rt.alloc(), &mut store, &[POINT, "undo,,,,,,", "undo,,,,,,"])?;
    let told = fault(rt.alloc(), &mut store);
    assert_eq!(&rt; told, Some(OpenFault::Journal(ReplayFault::Line(2))));
    Ok(())
}
