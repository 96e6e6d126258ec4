//! A job in a file.
ghost use Rattle.std.specs.Prelude.{◌≡◌, IfOk, OnOk, IsErrOf, is_some, true};
ghost use Rattle.cad_files.specs.Sinks.{counted_up};

use crate::faults::JobFault;
use crate::job::{run_job, run_job_until_refused};
use cad_files::Sink;
use cad_history::Depth;
use number_hash::NumberHash;
use std::alloc::Global;
use std::fs::{self, Files};
use std::io::Read;
use std::random::RandomSource;

/// Does the job in the file at this path, to its end, or, where it is to stop, as `run_job_until_refused` does. `Read` where
/// the file can't be opened.
pub fn run_path<R: Files + RandomSource + AllocGlobal, S: Sink>(
    rt: &R,
    path: &str,
    sink: &mut S,
    depth: Depth,
    stop: bool,
) -> Result<Option<u32>, JobFault>
where
    R::File: Drop,
    // A write fault comes only of a failed call of the sink.
    ensures write { IsErrOf result JobFault.Write
        → S.failures sink.new ≡ counted_up (S.failures sink.old) }
    ensures quiet { OnOk result (S.failures sink.new ≡ S.failures sink.old) }
    ensures stopped { IfOk result (λ n. is_some n ≡ true → stop ≡ true) }
{
    match fs::open(rt, path) {
        Ok(file) => run_reader(rt.alloc(), NumberHash::drawn(rt), file, sink, depth, stop),
        Err(_) => Err(JobFault::Read),
    }
}

/// Does a job to its end, or, where it is to stop, as `run_job_until_refused` does.
pub(crate) fn run_reader<R: Read + Drop, S: Sink>(
    alloc: Global,
    hash: NumberHash,
    reader: R,
    sink: &mut S,
    depth: Depth,
    stop: bool,
) -> Result<Option<u32>, JobFault>
    ensures write { IsErrOf result JobFault.Write
        → S.failures sink.new ≡ counted_up (S.failures sink.old) }
    ensures quiet { OnOk result (S.failures sink.new ≡ S.failures sink.old) }
    ensures stopped { IfOk result (λ n. is_some n ≡ true → stop ≡ true) }
{
    if stop {
        return run_job_until_refused(alloc, hash, reader, sink, depth);
    }
    match run_job(alloc, hash, reader, sink, depth) {
        Ok(()) => Ok(None),
        Err(fault) => Err(fault),
    }
}
