//! Why a job ended early.
ghost use Rattle.std.specs.Prelude.{◌≡◌};
ghost use Rattle.cad_job.specs.Told.{status_of};

use cad_files::PlanFault;
use std::fmt;

/// Why a job ended early.
#[derive(Clone, Copy, Debug, PartialEq, Eq)]
pub enum JobFault {
    /// The plan is at fault.
    Plan(PlanFault),
    /// The reader failed.
    Read,
    /// A record has another number of fields than the first of all; told as `Read` is.
    Length,
    /// The sink failed.
    Write,
    /// The script has more than 1,000,000 records.
    Long,
    /// Memory ran out.
    Memory,
}

/// The line that the program writes on standard error.
impl fmt::Display for JobFault {
    ghost use Rattle.std.specs.Prelude.{Some};
    ghost use Rattle.cad_job.specs.Told.{job_fault_text};

    ghost output = { λ f. Some (job_fault_text f) };

    fn fmt<W: fmt::Write>(&self, f: &mut fmt::Formatter<W>) -> fmt::Result {
        match self {
            JobFault::Plan(fault) => write!(f, "cadedit: plan fault {fault}"),
            JobFault::Read => write!(f, "cadedit: read fault"),
            JobFault::Length => write!(f, "cadedit: read fault"),
            JobFault::Write => write!(f, "cadedit: write fault"),
            JobFault::Long => write!(f, "cadedit: too many records"),
            JobFault::Memory => write!(f, "cadedit: out of memory"),
        }
    }
}

/// The status with which the program ends where a script stopped.
pub const STOPPED_STATUS: u8 = 1;

/// After how many of its records a script stopped.
#[derive(Clone, Copy, Debug)]
pub struct Stopped(pub u32);

/// The line that the program writes on standard error.
impl fmt::Display for Stopped {
    ghost use Rattle.std.specs.Prelude.{Some};
    ghost use Rattle.cad_job.specs.Told.{stopped_text};

    ghost output = { λ stopped. Some (stopped_text stopped.0) };

    fn fmt<W: fmt::Write>(&self, f: &mut fmt::Formatter<W>) -> fmt::Result {
        let records = self.0;
        write!(f, "cadedit: stopped after record {records} of the script")
    }
}

/// The status with which the program ends after a fault.
pub fn status(fault: &JobFault) -> u8
    ensures { result ≡ status_of fault.now }
{
    match fault {
        JobFault::Plan(_) => 2,
        JobFault::Read | JobFault::Length | JobFault::Write => 3,
        JobFault::Long => 4,
        JobFault::Memory => 5,
    }
}
