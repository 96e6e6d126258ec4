//! The words of a command line, and what is told where they aren't as they should be.
ghost use Rattle.std.specs.Prelude.{◌≡◌};
ghost use Rattle.clap.specs.Values.{kind_of};
ghost use Rattle.command_line.specs.Statuses.{status_of_kind};

use crate::status::{ARGUMENTS_STATUS, MEMORY_STATUS, args_status};
use clap::Error;
use clap::error::ErrorKind;
use std::env::{self, Env};
use std::io;

/// Runs the program with this name on the words of its command line, the program's name first. Where they can't be read,
/// as where one is no text, it tells why on standard error. Gives the status with which the program ends.
pub fn run_named<R: Env + Eprint + AllocGlobal, F: FnOnce(&[&str]) -> u8>(
    rt: &R,
    name: &str,
    run: F,
) -> u8
    requires { F.IsAlwaysCallable run }
{
    match command_line(rt) {
        Ok(owned) => run_owned(rt, name, owned.as_slice(), run),
        Err(error) if error.kind() == io::ErrorKind::OutOfMemory => tell_memory(rt, name),
        Err(error) => tell_unread(rt, name, &error),
    }
}

// The words of the command line.
fn command_line<R: Env + AllocGlobal>(rt: &R) -> io::Result<Vec<String>> {
    let words = env::args(rt)?.collect(rt.alloc())?;
    Ok(words)
}

// Runs the program on these words, and gives the status.
fn run_owned<R: Eprint + AllocGlobal, F: FnOnce(&[&str]) -> u8>(
    rt: &R,
    name: &str,
    owned: &[String],
    run: F,
) -> u8
    requires { F.IsAlwaysCallable run }
{
    let mut words = Vec::new(rt.alloc());
    for word in owned {
        if words.push(word.as_str()).is_err() {
            return tell_memory(rt, name);
        }
    }
    run(words.as_slice())
}

// Tells why the words can't be read. Gives the status.
fn tell_unread<R: Eprint>(rt: &R, name: &str, error: &io::Error) -> u8 {
    let _ = eprintln!(rt; "{name}: arguments: {error}");
    ARGUMENTS_STATUS
}

// Tells that memory ran out. Gives the status, also where the line can't be written.
fn tell_memory<R: Eprint>(rt: &R, name: &str) -> u8
    ensures { result ≡ 5 }
{
    let _ = eprintln!(rt; "{name}: out of memory");
    MEMORY_STATUS
}

/// Tells why the arguments of the program with this name weren't read. Gives the status, also where the text can't be
/// written.
pub fn tell_refused<R: Print + Eprint + AllocGlobal>(rt: &R, name: &str, error: &Error) -> u8
    ensures { result ≡ status_of_kind (kind_of error.now) }
{
    if error.kind() == ErrorKind::OutOfMemory {
        return tell_memory(rt, name);
    }
    let _ = error.print(rt);
    args_status(error)
}
