//! The program's arguments.
ghost use Rattle.std.specs.Prelude.{◌≡◌, IfErr, IfNone, IfOk, IfSome, false, map};
ghost use Rattle.clap.specs.Values.{kind_of};
ghost use Rattle.clap.specs.Words.{app_of, found_of, rows_of, rule_of, subcommand_rows_of};
ghost use Rattle.cadview.specs.Arguments.{AsksFor, IsCadview, IsTable, MatchesAskFor};
ghost use Rattle.cadview.specs.Arguments.{SubcommandAsksFor, cadview_alone, diff, layer_name};
ghost use Rattle.cadview.specs.Arguments.{IsRefused, MatchesAskForNone, NamesNoLayer};
ghost use Rattle.cadview.specs.Arguments.{SubcommandAsksForNone, plan_rule, svg};

use clap::error::ErrorKind;
use clap::{Arg, ArgMatches, Command, Error};
use std::alloc::{AllocError, Global};

/// The program's version, as `--version` tells it.
const VERSION: &str = "0.2.0";

const ABOUT: &str = "\
Shows a cadastral map: as a drawing, as tables with geometry, and what differs between two.";

/// What stands below the commands in the text of `--help`.
const AFTER_HELP: &str = "\
A PLAN is a file that `cadedit` reads, up to `open`, or answers that end with a plan; `-` is standard input. The result
goes to standard output.

Status: 0 done, 2 a plan is invalid, 3 a plan can't be read or the output can't be written, 5 out of memory, 64 the
arguments aren't as above. Standard error says more.

Example:
  cadview svg new.csv --since old.csv > new.svg
  cadview table plan.csv --layer parcels > parcels.csv
  cadview diff old.csv new.csv

docs/FORMATS.md has the tables and the differences.";

/// Which rows of a map a table has.
#[derive(Clone, Copy)]
pub enum Layer {
    Parcels,
    Strings,
    Points,
    Sources,
    Retired,
}

/// What the arguments ask for.
#[derive(Clone, Copy)]
pub enum View<'a> {
    /// The drawing of a plan, with what changed since an older one, if one is named, under a title, if one is given.
    Svg {
        plan: &'a str,
        since: Option<&'a str>,
        title: Option<&'a str>,
    },
    /// The table of a plan's rows of one kind.
    Table {
        plan: &'a str,
        layer: Layer,
    },
    /// What differs between two plans.
    Diff {
        old: &'a str,
        new: &'a str,
    },
}

/// A plan that has to be named.
fn plan_arg<'a>(alloc: Global, id: &'a str, name: &'a str, help: &'a str) -> Arg<'a>
    ensures rule { rule_of result ≡ plan_rule id.entry.now }
    ensures local { result.global ≡ false }
{
    Arg::new(alloc, id)
        .value_name(name)
        .required(true)
        .help(help)
}

/// `svg PLAN [--since OLD] [--title TITLE]`
fn svg_command<'a>(alloc: Global) -> Result<Command<'a>, AllocError>
    ensures { IfOk result (λ c. app_of c ≡ svg) }
{
    let since = Arg::new(alloc, "since")
        .long("since")
        .value_name("OLD")
        .help("An older plan: what was added, changed or removed since then is marked and listed");
    let title = Arg::new(alloc, "title")
        .long("title")
        .value_name("TITLE")
        .help(
            "What the sheet is called; it then also tells the days on which the files were last changed",
        );
    Command::new(alloc, "svg")
        .about("Draws a plan as SVG, on an A3 sheet")
        .arg(plan_arg(alloc, "plan", "PLAN", "The plan"))?
        .arg(since)?
        .arg(title)
}

/// `table PLAN [--layer LAYER]`
fn table_command<'a>(alloc: Global) -> Result<Command<'a>, AllocError>
    ensures { IfOk result (λ c. IsTable (app_of c)) }
{
    let layer = Arg::new(alloc, "layer")
        .long("layer")
        .value_name("LAYER")
        .value_parser(["parcels", "strings", "points", "sources", "retired"].as_slice())
        .default_value("parcels")
        .help("Which rows");
    Command::new(alloc, "table")
        .about("Writes rows as CSV, with their geometry as well-known text in metres")
        .arg(plan_arg(alloc, "plan", "PLAN", "The plan"))?
        .arg(layer)
}

/// `diff OLD NEW`
fn diff_command<'a>(alloc: Global) -> Result<Command<'a>, AllocError>
    ensures { IfOk result (λ c. app_of c ≡ diff) }
{
    Command::new(alloc, "diff")
        .about("Writes what differs between two plans as CSV: kind, number, what was, what is")
        .arg(plan_arg(alloc, "old", "OLD", "The plan before"))?
        .arg(plan_arg(alloc, "new", "NEW", "The plan after"))
}

/// The program's name, and the texts of its help.
fn described<'a>(alloc: Global) -> Command<'a>
    ensures { app_of result ≡ cadview_alone }
{
    Command::new(alloc, "cadview")
        .version(VERSION)
        .about(ABOUT)
        .after_help(AFTER_HELP)
        .subcommand_required(true)
        .arg_required_else_help(true)
}

/// The program's command line.
fn command_line<'a>(alloc: Global) -> Result<Command<'a>, AllocError>
    ensures { IfOk result (λ c. IsCadview (app_of c)) }
{
    let command = described(alloc).subcommand(svg_command(alloc)?)?;
    let command = command.subcommand(table_command(alloc)?)?;
    command.subcommand(diff_command(alloc)?)
}

/// The layer with this name.
fn layer_of(name: &str) -> Option<Layer>
    ensures some { IfSome result (λ layer. name.now ≡ layer_name layer) }
    ensures none { IfNone result (NamesNoLayer name.now) }
{
    match name {
        "parcels" => Some(Layer::Parcels),
        "strings" => Some(Layer::Strings),
        "points" => Some(Layer::Points),
        "sources" => Some(Layer::Sources),
        "retired" => Some(Layer::Retired),
        _ => None,
    }
}

/// The view that a subcommand's matches ask for.
fn view_of<'a>(name: &str, matches: &ArgMatches<'a>) -> Option<View<'a>>
    ensures some { IfSome result (MatchesAskFor name.now (rows_of (found_of matches.now))) }
    ensures none { IfNone result (MatchesAskForNone name.now (rows_of (found_of matches.now))) }
{
    match name {
        "svg" => Some(View::Svg {
            plan: matches.get_str("plan")?,
            since: matches.get_str("since"),
            title: matches.get_str("title"),
        }),
        "table" => Some(View::Table {
            plan: matches.get_str("plan")?,
            layer: layer_of(matches.get_str("layer")?)?,
        }),
        "diff" => Some(View::Diff {
            old: matches.get_str("old")?,
            new: matches.get_str("new")?,
        }),
        _ => None,
    }
}

/// The view that the matches of the command line ask for.
fn view_asked<'a>(matches: &ArgMatches<'a>) -> Option<View<'a>>
    ensures some { IfSome result (SubcommandAsksFor (subcommand_rows_of matches.now)) }
    ensures none { IfNone result (SubcommandAsksForNone (subcommand_rows_of matches.now)) }
{
    let (name, inner) = matches.subcommand()?;
    view_of(name, inner)
}

/// Reads the words of the command line, the program's name first. Fails as `clap` does, also for `--help` and `--version`.
pub fn read_args<'a>(alloc: Global, words: &'a [&'a str]) -> Result<View<'a>, Error>
    ensures ok { IfOk result (AsksFor (map (λ w. w.now) words.entry.now)) }
    ensures err { IfErr result (λ e. IsRefused (map (λ w. w.now) words.entry.now) (kind_of e)) }
{
    let mut command = command_line(alloc)?;
    let matches = command.try_get_matches_from_mut(words)?;
    match view_asked(&matches) {
        Some(view) => Ok(view),
        None => Err(command.error(ErrorKind::MissingSubcommand, "a command is needed")?),
    }
}
