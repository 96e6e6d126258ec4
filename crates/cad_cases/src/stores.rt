//! A job on the plain store, which is what one on half-edges is compared with.
use cad_edit::PlainStore;
use cad_files::{MemSink, build, read_plan};
use cad_history::Depth;
use cad_job::{JobFault, run_script};
use csv::ReaderBuilder;
use number_hash::NumberHash;
use std::alloc::Global;

/// Runs a job as `run_job` does, but on the plain store.
pub(crate) fn run_plain(
    alloc: Global,
    job: &[u8],
    sink: &mut MemSink,
    depth: Depth,
) -> Result<(), JobFault> {
    let mut reader = ReaderBuilder::new()
        .has_headers(false)
        .from_reader(alloc, job);
    let rows = match read_plan(alloc, &mut reader) {
        Ok(rows) => rows,
        Err(fault) => return Err(JobFault::Plan(fault)),
    };
    let map = match build(alloc, NumberHash::fixed(), &rows) {
        Ok(map) => map,
        Err(fault) => return Err(JobFault::Plan(fault)),
    };
    run_script(alloc, &mut reader, PlainStore { map }, sink, depth)
}
