//! A job, from bytes to bytes.
ghost use Rattle.std.specs.Prelude.{◌≡◌, ℕ, List, IfSome, OnOk, IsErrOf, true};
ghost use Rattle.std.specs.Io.KnownBytes.{Appends};
ghost use Rattle.csv.specs.Reading.{strip_bom};
ghost use Rattle.cad_files.specs.Sinks.{counted_up};
ghost use Rattle.cad_job.specs.Jobs.{DoesJob};
ghost use Rattle.cad_job.specs.Stopped.{DoesJobUntil};

use cad_files::Sink;
use cad_history::Depth;
use cad_job::{JobFault, run_job, run_job_until_refused};
use number_hash::NumberHash;
use std::alloc::Global;
use std::io::Read;

/// Reads a plan and a script, and writes the answer to each record of the script.
pub fn job<R: Read + Drop, S: Sink>(
    alloc: Global,
    hash: NumberHash,
    reader: R,
    sink: &mut S,
    depth: Depth,
) -> Result<(), JobFault>
    ensures does { IfSome (R.remaining reader) (λ input. (written : List ℕ)
        × Appends (S.taken sink.old) (S.taken sink.new) written
        × DoesJob (strip_bom input) depth written result) }
    ensures write { IsErrOf result JobFault.Write
        → S.failures sink.new ≡ counted_up (S.failures sink.old) }
    ensures quiet { OnOk result (S.failures sink.new ≡ S.failures sink.old) }
{
    run_job(alloc, hash, reader, sink, depth)
}

/// Does a job up to the first record that isn't carried out, and gives how many records there are up to that one.
pub fn job_until_refused<R: Read + Drop, S: Sink>(
    alloc: Global,
    hash: NumberHash,
    reader: R,
    sink: &mut S,
    depth: Depth,
) -> Result<Option<u32>, JobFault>
    ensures does { IfSome (R.remaining reader) (λ input. (written : List ℕ)
        × Appends (S.taken sink.old) (S.taken sink.new) written
        × DoesJobUntil true (strip_bom input) depth written result) }
    ensures write { IsErrOf result JobFault.Write
        → S.failures sink.new ≡ counted_up (S.failures sink.old) }
    ensures quiet { OnOk result (S.failures sink.new ≡ S.failures sink.old) }
{
    run_job_until_refused(alloc, hash, reader, sink, depth)
}
