//! Why the program ended early.
ghost use Rattle.std.specs.Prelude.{◌≡◌};
ghost use Rattle.cadview.specs.Told.{status_of};

use cad_files::PlanFault;
use std::alloc::AllocError;
use std::fmt;

/// Why the program ended early.
#[derive(Clone, Copy)]
pub enum ViewFault {
    /// A plan is at fault.
    Plan(PlanFault),
    /// A plan can't be opened or read, or a record has another number of fields than the first.
    Read,
    /// The output fails.
    Write,
    /// Memory ran out.
    Memory,
}

impl From<AllocError> for ViewFault {
    fn from(_: AllocError) -> ViewFault {
        ViewFault::Memory
    }
}

/// The line that the program writes on standard error.
impl fmt::Display for ViewFault {
    ghost use Rattle.std.specs.Prelude.{Some};
    ghost use Rattle.cadview.specs.Told.{view_fault_text};

    ghost output = { λ f. Some (view_fault_text f) };

    fn fmt<W: fmt::Write>(&self, f: &mut fmt::Formatter<W>) -> fmt::Result {
        match self {
            ViewFault::Plan(fault) => write!(f, "cadview: plan fault {fault}"),
            ViewFault::Read => write!(f, "cadview: read fault"),
            ViewFault::Write => write!(f, "cadview: write fault"),
            ViewFault::Memory => write!(f, "cadview: out of memory"),
        }
    }
}

/// The status with which the program ends after a fault.
pub fn status(fault: &ViewFault) -> u8
    ensures { result ≡ status_of fault.now }
{
    match fault {
        ViewFault::Plan(_) => 2,
        ViewFault::Read | ViewFault::Write => 3,
        ViewFault::Memory => 5,
    }
}
