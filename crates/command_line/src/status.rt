//! The statuses with which a program ends whatever it does.
ghost use Rattle.std.specs.Prelude.{◌≡◌};
ghost use Rattle.clap.specs.Values.{kind_of};
ghost use Rattle.command_line.specs.Statuses.{status_of_kind};

use clap::Error;
use clap::error::ErrorKind;

/// The status with which a program ends where its arguments aren't as they should be.
pub const ARGUMENTS_STATUS: u8 = 64;

/// The status with which a program ends where memory ran out.
pub const MEMORY_STATUS: u8 = 5;

/// The status with which a program ends after these arguments: 0 for help and the version, [`MEMORY_STATUS`] where memory
/// ran out, else [`ARGUMENTS_STATUS`].
pub fn args_status(error: &Error) -> u8
    ensures { result ≡ status_of_kind (kind_of error.now) }
{
    match error.kind() {
        ErrorKind::DisplayHelp | ErrorKind::DisplayVersion => 0,
        ErrorKind::OutOfMemory => MEMORY_STATUS,
        _ => ARGUMENTS_STATUS,
    }
}
