//! The program's arguments.
ghost use Rattle.std.specs.Prelude.{◌≡◌, IfErr, IfOk, false, map, option_map};
ghost use Rattle.clap.specs.Values.{kind_of};
ghost use Rattle.clap.specs.Words.{app_of, rule_of};
ghost use Rattle.cad_job.specs.Arguments.{IsRefused, ReadsArgs, cadedit};
ghost use Rattle.cad_job.specs.Arguments.{depth_rule, file_rule, stop_rule};

use cad_history::Depth;
use clap::{Arg, ArgAction, Command, Error};
use std::alloc::{AllocError, Global};

const ABOUT: &str = "\
Edits a cadastral map. A job is a plan and an edit script; each record of the script is done and answered, in order.";

const FILE_HELP: &str = "The job; standard input where it is left out or `-`";

const DEPTH_HELP: &str = "How many edits can be undone, from 1 to 1000";

const STOP_HELP: &str =
    "End after the first record whose answer is `refused`, `syntax` or `nothing`, with status 1";

/// What stands below the arguments in the text of `--help`.
const AFTER_HELP: &str = "\
Every record has seven comma-separated fields. The plan ends with `open`; what follows is the script.

Answers:
  ok                        done
  nothing                   there is no edit to undo, or none to redo
  refused, number, name ..  not done, and nothing has changed: `bin/cadcheck JOB` explains it
  syntax                    not a record of a script; nothing has changed
  area .. end               the parcels, to `areas`
  ring .. end               the boundary of a parcel, to `outline`
  plan .. open              the plan as it is now, to `print`

Status: 0 the job is done, 1 `--stop` ended it, 2 the plan is at fault, 3 the job can't be read or the answers not
written, 4 the script has more than 1,000,000 records, 5 memory ran out, 64 the arguments aren't as above. Standard
error says more.

Example, a job and its answers:
  plan,2,,,,,
  source,1,Survey 7,,,,
  point,1,0,0,1,,
  point,2,60000,0,1,,
  point,3,60000,40000,1,,
  open,,,,,,
  enclose,0,1 2 3,11 12 13,101,Mill Lane 2,1     ok,,,,,,
  areas,,,,,,                                    area,101,Mill Lane 2,2400000000,1200.00,,
                                                 end,,,,,,
  move,3,0,0,,,                                  refused,18,breaks,V3,,,
  undo,,,,,,                                     ok,,,,,,

docs/FORMATS.md has all records, answers and statuses.";

/// What the arguments say: how many edits can be undone, whether the job ends after the first record that isn't carried
/// out, and the file that has the job, if one is named.
#[derive(Clone, Copy)]
pub struct Args<'a> {
    pub depth: Depth,
    pub stop: bool,
    pub file: Option<&'a str>,
}

/// `--depth N`
fn depth_arg<'a>(alloc: Global) -> Arg<'a>
    ensures rule { rule_of result ≡ depth_rule }
    ensures local { result.global ≡ false }
{
    Arg::new(alloc, "depth")
        .long("depth")
        .value_name("N")
        .action(ArgAction::Set)
        .value_parser(clap::value_parser!(u16).range(1..=1000))
        .default_value("100")
        .help(DEPTH_HELP)
}

/// `--stop`
fn stop_arg<'a>(alloc: Global) -> Arg<'a>
    ensures rule { rule_of result ≡ stop_rule }
    ensures local { result.global ≡ false }
{
    Arg::new(alloc, "stop")
        .long("stop")
        .action(ArgAction::SetTrue)
        .help(STOP_HELP)
}

/// `FILE`
fn file_arg<'a>(alloc: Global) -> Arg<'a>
    ensures rule { rule_of result ≡ file_rule }
    ensures local { result.global ≡ false }
{
    Arg::new(alloc, "file").value_name("FILE").help(FILE_HELP)
}

/// The program's command line, with the texts of its help, and what `--version` tells.
fn command_line<'a>(alloc: Global, version: &'a str) -> Result<Command<'a>, AllocError>
    ensures { IfOk result (λ c. app_of c ≡ cadedit) }
{
    Command::new(alloc, "cadedit")
        .version(version)
        .about(ABOUT)
        .after_help(AFTER_HELP)
        .arg(depth_arg(alloc))?
        .arg(stop_arg(alloc))?
        .arg(file_arg(alloc))
}

/// Reads the arguments `[--depth N] [--stop] [FILE]`, the program's name first. N is from 1 to 1000, and 100 where it is
/// left out. Fails as `clap` does, also for `--help` and `--version`, which tells this version.
pub fn read_args<'a>(
    alloc: Global,
    version: &'a str,
    words: &'a [&'a str],
) -> Result<Args<'a>, Error>
    ensures ok { IfOk result (λ args. ReadsArgs (map (λ w. w.now) words.entry.now) args.depth
        args.stop (option_map (λ f. f.now) args.file)) }
    ensures err { IfErr result (λ e. IsRefused (map (λ w. w.now) words.entry.now) (kind_of e)) }
{
    let command = command_line(alloc, version)?;
    let matches = command.try_get_matches_from(words)?;
    let edits = matches.get_one::<u16>("depth").unwrap();
    let depth = Depth::new(usize::from(edits)).unwrap();
    let stop = matches.get_flag("stop");
    let file = matches.get_str("file");
    Ok(Args { depth, stop, file })
}
