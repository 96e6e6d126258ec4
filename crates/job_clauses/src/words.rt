//! The words of a command line, and the statuses with which a program ends.
ghost use Rattle.std.specs.Prelude.{◌≡◌, IfOk, IfErr, map, option_map};
ghost use Rattle.clap.specs.Values.{kind_of};
ghost use Rattle.cad_job.specs.Arguments.{ReadsArgs, IsRefused};
ghost use Rattle.cad_job.specs.Told.{status_of};

use cad_job::{Args, JobFault, read_args, status, tell};
use clap::Error;
use std::alloc::Global;

/// What the words of a command line ask for, the program's name first.
pub fn words_of_a_call<'a>(
    alloc: Global,
    version: &'a str,
    words: &'a [&'a str],
) -> Result<Args<'a>, Error>
    ensures ok { IfOk result (λ args. ReadsArgs (map (λ w. w.now) words.entry.now) args.depth
        args.stop (option_map (λ f. f.now) args.file)) }
    ensures err { IfErr result (λ e. IsRefused (map (λ w. w.now) words.entry.now) (kind_of e)) }
{
    read_args(alloc, version, words)
}

/// The status with which the program ends after a fault.
pub fn status_of_a_fault(fault: &JobFault) -> u8
    ensures { result ≡ status_of fault.now }
{
    status(fault)
}

/// Tells a fault on standard error. Gives the status with which the program ends.
pub fn line_told<R: Eprint>(rt: &R, fault: &JobFault) -> u8
    ensures { result ≡ status_of fault.now }
{
    tell(rt, fault)
}
