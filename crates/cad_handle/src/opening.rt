//! Opening a plan.
ghost use Rattle.std.specs.Prelude.{◌≢◌, IfOk, IfErr};
ghost use Rattle.csv.specs.Reading.{strip_bom};
ghost use Rattle.cad_files.specs.declared.faults.PlanFault.TheVariants as faults;
ghost use Rattle.cad_session.specs.Opening.{IsFaultyPlan};
ghost use Rattle.cad_handle.specs.Sessions.{IsOpenedOn};

use crate::state::State;
use cad_files::{PlanFault, read_plan, records_of};
use cad_history::{Depth, Editor};
use cad_session::store_of;
use number_hash::NumberHash;
use std::alloc::Global;

/// Opens an editor on the map of a plan, of which at most so many edits can be undone as the depth says. No answer is
/// kept yet. What stands behind the plan's `open` isn't read. The hash is the one by which the map's tables find numbers:
/// no answer depends on it.
pub fn open_plan(
    alloc: Global,
    hash: NumberHash,
    plan: &[u8],
    depth: Depth,
) -> Result<Box<State>, PlanFault>
    ensures opened { IfOk result (λ state. IsOpenedOn (strip_bom plan.now) depth state.value) }
    ensures faulty { IfErr result (λ fault. fault ≢ faults.Read → fault ≢ faults.Memory
        → IsFaultyPlan (strip_bom plan.now) fault) }
{
    let mut reader = records_of(alloc, plan);
    let rows = match read_plan(alloc, &mut reader) {
        Ok(rows) => rows,
        Err(fault) => return Err(fault),
    };
    let store = match store_of(alloc, hash, rows) {
        Ok(store) => store,
        Err(fault) => return Err(fault),
    };
    let editor = match Editor::open(alloc, store, depth) {
        Ok(editor) => editor,
        Err(_) => return Err(PlanFault::Memory),
    };
    let answer = Vec::new(alloc);
    let state = State {
        editor,
        answer,
        hash,
    };
    match Box::new(alloc, state) {
        Ok(state) => Ok(state),
        Err(_) => Err(PlanFault::Memory),
    }
}
