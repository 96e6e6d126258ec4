//! What the program does with the words of its command line, and what it tells of it.
ghost use Rattle.std.specs.Prelude.{◌≡◌, IfOk, is_some, map, true};
ghost use Rattle.cad_job.specs.Statuses.{IsStatusOfJob, IsStatusOfWords};
ghost use Rattle.cad_job.specs.Told.{status_of};

use crate::args::{Args, read_args};
use crate::faults::{JobFault, STOPPED_STATUS, Stopped, status};
use crate::path::{run_path, run_reader};
use cad_files::OutSink;
use command_line::tell_refused;
use number_hash::NumberHash;
use std::fs::Files;
use std::io::{self, BufWriter};
use std::random::RandomSource;

/// Reads the words of the command line, the program's name first, and does the job that they name: that in a file, or
/// on standard input. Its answers go to standard output, and a fault is told on standard error. `--version` tells this
/// version. Gives the status with which the program ends.
pub fn run_words<R: Files + RandomSource + Input + Print + Eprint + AllocGlobal>(
    rt: &R,
    version: &str,
    words: &[&str],
) -> u8
where
    R::File: Drop,
    ensures { IsStatusOfWords (map (λ w. w.now) words.now) result }
{
    match read_args(rt.alloc(), version, words) {
        Ok(args) => run_args(rt, &args),
        Err(error) => tell_refused(rt, "cadedit", &error),
    }
}

/// Does the job that the arguments name.
fn run_args<R: Files + RandomSource + Input + Print + Eprint + AllocGlobal>(
    rt: &R,
    args: &Args<'_>,
) -> u8
where
    R::File: Drop,
    ensures { IsStatusOfJob args.now.stop result }
{
    match job_of(rt, args) {
        Ok(None) => 0,
        Ok(Some(records)) => tell_stopped(rt, Stopped(records)),
        Err(fault) => tell(rt, &fault),
    }
}

/// How the job that the arguments name ends.
fn job_of<R: Files + RandomSource + Input + Print + AllocGlobal>(
    rt: &R,
    args: &Args<'_>,
) -> Result<Option<u32>, JobFault>
where
    R::File: Drop,
    ensures { IfOk result (λ n. is_some n ≡ true → args.now.stop ≡ true) }
{
    let alloc = rt.alloc();
    let Ok(out) = BufWriter::new(alloc, io::writer(rt)) else {
        return Err(JobFault::Memory);
    };
    let mut sink = OutSink::new(out);
    match named(args.file) {
        Some(path) => run_path(rt, path, &mut sink, args.depth, args.stop),
        None => run_reader(
            alloc,
            NumberHash::drawn(rt),
            rt.reader(),
            &mut sink,
            args.depth,
            args.stop,
        ),
    }
}

/// The file that is named, and none where standard input is.
fn named(file: Option<&str>) -> Option<&str> {
    match file {
        Some("-") => None,
        other => other,
    }
}

/// Says on standard error where a script stopped. Gives the status with which the program ends.
fn tell_stopped<R: Eprint>(rt: &R, stopped: Stopped) -> u8
    ensures { result ≡ 1 }
{
    let _ = eprintln!(rt; "{stopped}");
    STOPPED_STATUS
}

/// Tells a fault on standard error. Gives the status with which the program ends, also where the line can't be written.
pub fn tell<R: Eprint>(rt: &R, fault: &JobFault) -> u8
    ensures { result ≡ status_of fault.now }
{
    let _ = eprintln!(rt; "{fault}");
    status(fault)
}
