//! A job, from bytes to bytes.
ghost use Rattle.std.specs.Prelude.{◌≡◌, ℕ, List, ◌⊎◌, Err, IfSome, OnOk, IsErrOf, true};
ghost use Rattle.std.specs.Io.KnownBytes.{Appends, Keeps};
ghost use Rattle.csv.specs.Reading.{strip_bom};
ghost use Rattle.cad_map.specs.Valid.{IsValid};
ghost use Rattle.cad_files.specs.Input.{HasRead};
ghost use Rattle.cad_files.specs.Rows.{Rows};
ghost use Rattle.cad_files.specs.Plan.{plan_of, opened};
ghost use Rattle.map_parts.specs.Parts.{map_of};
ghost use Rattle.cad_files.specs.Sinks.{counted_up};
ghost use Rattle.cad_job.specs.Jobs.{DoesScript, DoesJob, job_fault};
ghost use Rattle.cad_job.specs.Stopped.{DoesUntil, DoesJobUntil, stops as stops_of};

use crate::faults::JobFault;
use cad_files::{InputFault, PlanFault, Sink, next_row, read_plan, records_of, write_all};
use cad_history::{Depth, Editor};
use cad_map::{MapStore, MapView};
use cad_session::{answer_of_row, store_of};
use cad_surgery::HalfMap;
use csv::{ByteRecord, Reader};
use half_table::Tally;
use number_hash::NumberHash;
use std::alloc::Global;
use std::io::Read;

/// What a fault of a plan is to a job.
fn fault_of_plan(fault: PlanFault) -> JobFault
    ensures { result ≡ job_fault fault }
{
    match fault {
        PlanFault::Read => JobFault::Read,
        PlanFault::Length => JobFault::Length,
        PlanFault::Memory => JobFault::Memory,
        _ => JobFault::Plan(fault),
    }
}

/// Reads a plan and a script, and writes the answer to each record of the script. At most so many edits can be
/// undone as the depth says. The hash is the one by which the map's tables find numbers: no answer depends on it.
pub fn run_job<R: Read + Drop, S: Sink>(
    alloc: Global,
    hash: NumberHash,
    reader: R,
    sink: &mut S,
    depth: Depth,
) -> Result<(), JobFault>
    // What was written, where reader and sink tell their bytes.
    ensures does { IfSome (R.remaining reader) (λ input. (written : List ℕ)
        × Appends (S.taken sink.old) (S.taken sink.new) written
        × DoesJob (strip_bom input) depth written result) }

    // A write fault comes only of a failed call of the sink.
    ensures write { IsErrOf result JobFault.Write
        → S.failures sink.new ≡ counted_up (S.failures sink.old) }
    ensures quiet { OnOk result (S.failures sink.new ≡ S.failures sink.old) }
{
    match do_job(alloc, hash, reader, sink, depth, false) {
        Ok(_) => Ok(()),
        Err(fault) => Err(fault),
    }
}

/// Does a job as [`run_job`] does, but ends it after the first record whose answer is `refused`, `syntax` or `nothing`, and
/// gives how many records of the script there are up to that one. Nothing where there is none.
pub fn run_job_until_refused<R: Read + Drop, S: Sink>(
    alloc: Global,
    hash: NumberHash,
    reader: R,
    sink: &mut S,
    depth: Depth,
) -> Result<Option<u32>, JobFault>
    ensures does { IfSome (R.remaining reader) (λ input. (written : List ℕ)
        × Appends (S.taken sink.old) (S.taken sink.new) written
        × DoesJobUntil true (strip_bom input) depth written result) }
    ensures write { IsErrOf result JobFault.Write
        → S.failures sink.new ≡ counted_up (S.failures sink.old) }
    ensures quiet { OnOk result (S.failures sink.new ≡ S.failures sink.old) }
{
    do_job(alloc, hash, reader, sink, depth, true)
}

/// Does a job to its end, or, where it is to stop, up to the first record that isn't carried out.
fn do_job<R: Read + Drop, S: Sink>(
    alloc: Global,
    hash: NumberHash,
    reader: R,
    sink: &mut S,
    depth: Depth,
    stop: bool,
) -> Result<Option<u32>, JobFault>
    ensures does { IfSome (R.remaining reader) (λ input. (written : List ℕ)
        × Appends (S.taken sink.old) (S.taken sink.new) written
        × DoesJobUntil stop (strip_bom input) depth written result) }
    ensures write { IsErrOf result JobFault.Write
        → S.failures sink.new ≡ counted_up (S.failures sink.old) }
    ensures quiet { OnOk result (S.failures sink.new ≡ S.failures sink.old) }
{
    let mut reader = records_of(alloc, reader);
    let rows = match read_plan(alloc, &mut reader) {
        Ok(rows) => rows,
        Err(fault) => return Err(fault_of_plan(fault)),
    };
    let store = match store_of(alloc, hash, rows) {
        Ok(store) => store,
        Err(fault) => return Err(fault_of_plan(fault)),
    };
    do_on_map(alloc, &mut reader, store, sink, depth, stop)
}

/// Does the records of a script that are left on the plan's map on half-edges, as `do_script` does on any store of it.
fn do_on_map<R: Read, S: Sink, T: Tally>(
    alloc: Global,
    reader: &mut Reader<R>,
    map: HalfMap<T>,
    sink: &mut S,
    depth: Depth,
    stop: bool,
) -> Result<Option<u32>, JobFault>
    requires { IsValid (map_of map) }
    ensures does { (text : List ℕ) (plan : List (List (List ℕ))) (rows : Rows)
        → HasRead R.remaining text plan reader.old → plan_of plan ≡ opened rows
        → (written : List ℕ) × Appends (S.taken sink.old) (S.taken sink.new) written
        × DoesUntil stop text plan (map_of map) depth written result }
    ensures write { IsErrOf result JobFault.Write
        → S.failures sink.new ≡ counted_up (S.failures sink.old) }
    ensures quiet { OnOk result (S.failures sink.new ≡ S.failures sink.old) }
{
    do_script(alloc, reader, map, sink, depth, stop)
}

/// Does the records of a script that are left, on a store of the plan's map, and writes each one's answer.
pub fn run_script<R: Read, S: Sink, M: MapStore + Drop>(
    alloc: Global,
    reader: &mut Reader<R>,
    store: M,
    sink: &mut S,
    depth: Depth,
) -> Result<(), JobFault>
    requires { IsValid (M.map store) }
    ensures does { (text : List ℕ) (plan : List (List (List ℕ))) (rows : Rows)
        → HasRead R.remaining text plan reader.old → plan_of plan ≡ opened rows
        → (written : List ℕ) × Appends (S.taken sink.old) (S.taken sink.new) written
        × DoesScript text plan (M.map store) depth written result }
    ensures write { IsErrOf result JobFault.Write
        → S.failures sink.new ≡ counted_up (S.failures sink.old) }
    ensures quiet { OnOk result (S.failures sink.new ≡ S.failures sink.old) }
{
    match do_script(alloc, reader, store, sink, depth, false) {
        Ok(_) => Ok(()),
        Err(fault) => Err(fault),
    }
}

/// Does the records of a script that are left, on a store of the plan's map, and writes each one's answer; where it is to
/// stop, up to the first answer that stops it.
fn do_script<R: Read, S: Sink, M: MapStore + Drop>(
    alloc: Global,
    reader: &mut Reader<R>,
    store: M,
    sink: &mut S,
    depth: Depth,
    stop: bool,
) -> Result<Option<u32>, JobFault>
    requires { IsValid (M.map store) }
    ensures does { (text : List ℕ) (plan : List (List (List ℕ))) (rows : Rows)
        → HasRead R.remaining text plan reader.old → plan_of plan ≡ opened rows
        → (written : List ℕ) × Appends (S.taken sink.old) (S.taken sink.new) written
        × DoesUntil stop text plan (M.map store) depth written result }
    ensures write { IsErrOf result JobFault.Write
        → S.failures sink.new ≡ counted_up (S.failures sink.old) }
    ensures quiet { OnOk result (S.failures sink.new ≡ S.failures sink.old) }
{
    let mut editor = match Editor::open(alloc, store, depth) {
        Ok(editor) => editor,
        Err(_) => return Err(JobFault::Memory),
    };
    let mut row = ByteRecord::new(alloc);
    for turn in 0..1_000_001u32 {
        match next_row(reader, &mut row) {
            Ok(true) => {}
            Ok(false) => return flushed(sink, Ok(None)),
            Err(InputFault::Read) => return flushed(sink, Err(JobFault::Read)),
            Err(InputFault::Length) => return flushed(sink, Err(JobFault::Length)),
            Err(InputFault::Memory) => return Err(JobFault::Memory),
        }
        if turn == 1_000_000 {
            return flushed(sink, Err(JobFault::Long));
        }
        let text = match answer_of_row(alloc, &mut editor, &row) {
            Ok(text) => text,
            Err(_) => return Err(JobFault::Memory),
        };
        match write_all(sink, text.as_slice()) {
            Ok(()) => {}
            Err(_) => return Err(JobFault::Write),
        }
        if stop && stops(text.as_slice()) {
            return flushed(sink, Ok(Some(turn + 1)));
        }
    }
    unreachable!()
}

/// Whether an answer stops a script: it begins with `refused`, `syntax` or `nothing`.
fn stops(answer: &[u8]) -> bool
    ensures { result ≡ stops_of answer.now }
{
    answer.starts_with(b"refused,")
        || answer.starts_with(b"syntax,")
        || answer.starts_with(b"nothing,")
}

/// The end of a script, once the sink has sent on what it has taken.
fn flushed<S: Sink>(
    sink: &mut S,
    end: Result<Option<u32>, JobFault>,
) -> Result<Option<u32>, JobFault>
    ensures kept { Keeps (S.taken sink.old) (S.taken sink.new) }
    ensures ended { ((result ≡ end) × (S.failures sink.new ≡ S.failures sink.old))
        ⊎ ((result ≡ Err JobFault.Write)
        × (S.failures sink.new ≡ counted_up (S.failures sink.old))) }
{
    match sink.flush() {
        Ok(()) => end,
        Err(_) => Err(JobFault::Write),
    }
}
