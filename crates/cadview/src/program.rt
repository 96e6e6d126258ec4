//! What the program does with the words of its command line.
ghost use Rattle.std.specs.Prelude.{◌≡◌, map, IfOk, IfErr, Ok, IsErrOf};
ghost use Rattle.cad_files.specs.Building.{IsBuilt};
ghost use Rattle.cadview.specs.Told.{status_of};
ghost use Rattle.cadview.specs.Views.{IsDifference, IsTable, IsTextOf, OfPlan};
ghost use Rattle.cadview.specs.Views.{IsStatusOfView, IsStatusOfWords};
ghost use Rattle.cadview.specs.declared.faults.ViewFault.TheVariants as faults;

use crate::answers::last_plan;
use crate::args::{Layer, View, read_args};
use crate::faults::{ViewFault, status};
use crate::names::sheet_of;
use cad_files::{OutSink, PlanFault, Sink, write_all};
use cad_rows::Memory;
use cad_views::{
    Plan, Sheet, difference_text, draw, parcel_table, point_table, read_map, retired_table,
    source_table, string_table,
};
use command_line::tell_refused;
use number_hash::NumberHash;
use std::alloc::Global;
use std::fs::{self, Files};
use std::io::{self, BufWriter, Read};
use std::random::RandomSource;

/// Reads the words of the command line, the program's name first, and writes the view that they name to standard output. A
/// fault is told on standard error. Gives the status with which the program ends.
pub fn run_words<R: Files + RandomSource + Input + Print + Eprint + AllocGlobal>(
    rt: &R,
    words: &[&str],
) -> u8
where
    R::File: Drop,
    ensures { IsStatusOfWords (map (λ w. w.now) words.now) result }
{
    match read_args(rt.alloc(), words) {
        Ok(view) => run_view(rt, &view),
        Err(error) => tell_refused(rt, "cadview", &error),
    }
}

/// Writes a view, and gives the status.
fn run_view<R: Files + RandomSource + Input + Print + Eprint + AllocGlobal>(
    rt: &R,
    view: &View<'_>,
) -> u8
where
    R::File: Drop,
    ensures { IsStatusOfView result }
{
    let written = match text_of(rt, view) {
        Ok(text) => write_out(rt, text.as_slice()),
        Err(fault) => Err(fault),
    };
    match written {
        Ok(()) => 0,
        Err(fault) => tell(rt, &fault),
    }
}

/// What a file holds, or standard input where the path is `-`.
fn text_in<R: Files + Input + AllocGlobal>(rt: &R, path: &str) -> Result<Vec<u8>, ViewFault>
where
    R::File: Drop,
{
    if path == "-" {
        return all_of(rt.alloc(), rt.reader());
    }
    match fs::open(rt, path) {
        Ok(file) => all_of(rt.alloc(), file),
        Err(_) => Err(ViewFault::Read),
    }
}

/// All that a reader gives.
fn all_of<R: Read + Drop>(alloc: Global, mut reader: R) -> Result<Vec<u8>, ViewFault> {
    let mut text = Vec::new(alloc);
    match reader.read_to_end(&mut text) {
        Ok(_) => Ok(text),
        Err(error) if error.kind() == io::ErrorKind::OutOfMemory => Err(ViewFault::Memory),
        Err(_) => Err(ViewFault::Read),
    }
}

/// The plan in a file, or the one that answers in it end with.
fn plan_in<R: Files + RandomSource + Input + AllocGlobal>(
    rt: &R,
    path: &str,
) -> Result<Plan, ViewFault>
where
    R::File: Drop,
    ensures { IfOk result (λ plan. IsBuilt plan.rows plan.map) }
{
    let text = text_in(rt, path)?;
    let plan = last_plan(text.as_slice());
    match read_map(rt.alloc(), NumberHash::drawn(rt), plan) {
        Ok(plan) => Ok(plan),
        Err(PlanFault::Read | PlanFault::Length) => Err(ViewFault::Read),
        Err(PlanFault::Memory) => Err(ViewFault::Memory),
        Err(fault) => Err(ViewFault::Plan(fault)),
    }
}

/// The text of a view.
fn text_of<R: Files + RandomSource + Input + AllocGlobal>(
    rt: &R,
    view: &View<'_>,
) -> Result<Vec<u8>, ViewFault>
where
    R::File: Drop,
    ensures { IfOk result (λ text. IsTextOf view.now text.items) }
{
    match view {
        View::Svg { plan, since, title } => svg_text(rt, plan, *since, *title),
        View::Table { plan, layer } => table_of(rt, plan, *layer),
        View::Diff { old, new } => diff_text(rt, old, new),
    }
}

/// The drawing of the plan in a file, with what changed since an older one.
fn svg_text<R: Files + RandomSource + Input + AllocGlobal>(
    rt: &R,
    path: &str,
    since: Option<&str>,
    title: Option<&str>,
) -> Result<Vec<u8>, ViewFault>
where
    R::File: Drop,
{
    let sheet = sheet_of(rt, path, since, title)?;
    let plan = plan_in(rt, path)?;
    match since {
        Some(older) => svg_since(rt, &sheet, &plan, older),
        None => or_memory(draw(rt.alloc(), &sheet, &plan.map, None)),
    }
}

/// The drawing of a plan, with what changed since the older one in a file.
fn svg_since<R: Files + RandomSource + Input + AllocGlobal>(
    rt: &R,
    sheet: &Sheet,
    plan: &Plan,
    older: &str,
) -> Result<Vec<u8>, ViewFault>
where
    R::File: Drop,
    requires { IsBuilt plan.now.rows plan.now.map }
{
    let old = plan_in(rt, older)?;
    or_memory(draw(rt.alloc(), sheet, &plan.map, Some(&old.map)))
}

/// The table of the plan in a file.
fn table_of<R: Files + RandomSource + Input + AllocGlobal>(
    rt: &R,
    path: &str,
    layer: Layer,
) -> Result<Vec<u8>, ViewFault>
where
    R::File: Drop,
    ensures { IfOk result (λ text. OfPlan (λ m. IsTable layer m text.items)) }
{
    let plan = plan_in(rt, path)?;
    or_memory(table_text(rt, &plan, layer))
}

/// What differs between the plans in two files.
fn diff_text<R: Files + RandomSource + Input + AllocGlobal>(
    rt: &R,
    old: &str,
    new: &str,
) -> Result<Vec<u8>, ViewFault>
where
    R::File: Drop,
    ensures { IfOk result (λ text. OfPlan (λ m. OfPlan (λ m'. IsDifference m m' text.items))) }
{
    let old = plan_in(rt, old)?;
    diff_from(rt, &old, new)
}

/// What differs between a plan and the newer one in a file.
fn diff_from<R: Files + RandomSource + Input + AllocGlobal>(
    rt: &R,
    old: &Plan,
    new: &str,
) -> Result<Vec<u8>, ViewFault>
where
    R::File: Drop,
    requires { IsBuilt old.now.rows old.now.map }
    ensures { IfOk result (λ text. OfPlan (λ m. IsDifference old.now.map m text.items)) }
{
    let new = plan_in(rt, new)?;
    or_memory(differences(rt.alloc(), old, &new))
}

/// What differs between two plans.
fn differences(alloc: Global, old: &Plan, new: &Plan) -> Result<Vec<u8>, Memory>
    requires old_built { IsBuilt old.now.rows old.now.map }
    requires new_built { IsBuilt new.now.rows new.now.map }
    ensures { IfOk result (λ text. IsDifference old.now.map new.now.map text.items) }
{
    difference_text(alloc, &old.map, &new.map)
}

/// The table of a plan.
fn table_text<R: AllocGlobal>(rt: &R, plan: &Plan, layer: Layer) -> Result<Vec<u8>, Memory>
    requires { IsBuilt plan.now.rows plan.now.map }
    ensures { IfOk result (λ text. IsTable layer plan.now.map text.items) }
{
    let alloc = rt.alloc();
    match layer {
        Layer::Parcels => parcel_table(alloc, &plan.map),
        Layer::Strings => string_table(alloc, &plan.rows, &plan.map),
        Layer::Points => point_table(alloc, &plan.map),
        Layer::Sources => source_table(alloc, &plan.map),
        Layer::Retired => retired_table(alloc, &plan.map),
    }
}

/// A text, or want of memory.
fn or_memory(text: Result<Vec<u8>, Memory>) -> Result<Vec<u8>, ViewFault>
    ensures ok { IfOk text (λ told. result ≡ Ok told) }
    ensures err { IfErr text (λ memory. IsErrOf result faults.Memory) }
{
    match text {
        Ok(text) => Ok(text),
        Err(Memory) => Err(ViewFault::Memory),
    }
}

/// Writes a text to standard output.
fn write_out<R: Print + AllocGlobal>(rt: &R, text: &[u8]) -> Result<(), ViewFault> {
    let Ok(out) = BufWriter::new(rt.alloc(), io::writer(rt)) else {
        return Err(ViewFault::Memory);
    };
    let mut sink = OutSink::new(out);
    if write_all(&mut sink, text).is_err() || sink.flush().is_err() {
        return Err(ViewFault::Write);
    }
    Ok(())
}

/// Tells a fault on standard error. Gives the status with which the program ends, also where the line can't be written.
pub fn tell<R: Eprint>(rt: &R, fault: &ViewFault) -> u8
    ensures { result ≡ status_of fault.now }
{
    let _ = eprintln!(rt; "{fault}");
    status(fault)
}
