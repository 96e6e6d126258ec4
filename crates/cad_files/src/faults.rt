//! Why a plan is refused.
ghost use Rattle.std.specs.Prelude.{◌≡◌, Some};
ghost use Rattle.std.specs.Fmt.{DisplaysOnOk};
ghost use Rattle.cad_files.specs.Answers.{rule_name};
ghost use Rattle.cad_files.specs.FaultTexts.{about};
ghost use Rattle.cad_files.specs.declared.faults.PlanFault.TheVariants as faults;

use cad_rows::{Memory, Name, PointNo, Rule, StringNo};
use std::alloc::AllocFailed;
use std::error::Error;
use std::fmt;

/// Why a plan is refused. Records are counted from 1.
#[derive(Clone, Copy, Debug, PartialEq, Eq)]
pub enum PlanFault {
    /// The reader failed.
    Read,
    /// A record has another number of fields than the first; told as `Read` is.
    Length,
    /// The first record has seven fields and begins no plan.
    Version,
    /// A record is none of a plan.
    Syntax(u64),
    /// A coordinate of a record is out of range.
    Range(u64),
    /// A number stands twice.
    Taken(Name),
    /// A row that is named isn't there.
    Unknown(Name),
    /// A limit is passed.
    Full,
    /// A string has one point at both ends, one face on both sides, or an end that no other string
    /// has.
    Dangling(StringNo),
    /// A side to this point equals an earlier one, has no follower or more than one, or has the
    /// follower of an earlier side to the point.
    Corner(PointNo),
    /// A side of this string has a follower with another face.
    Labels(StringNo),
    /// The map breaks this rule first.
    Breaks(Rule),
    /// The input ended before `open`.
    NoOpen,
    /// Memory ran out.
    Memory,
}

impl From<Memory> for PlanFault {
    ghost from_gives = { λ _ e. e ≡ faults.Memory };

    fn from(_e: Memory) -> PlanFault {
        PlanFault::Memory
    }
}

impl<T: Drop> From<AllocFailed<T>> for PlanFault {
    ghost from_gives = { λ _ e. e ≡ faults.Memory };

    fn from(_e: AllocFailed<T>) -> PlanFault {
        PlanFault::Memory
    }
}

// The name of the rule.
fn rule_text(rule: Rule) -> &'static str
    ensures { result.now ≡ rule_name rule }
{
    match rule {
        Rule::V3 => "V3",
        Rule::V4 => "V4",
        Rule::V6 => "V6",
        Rule::V7 => "V7",
        Rule::V8 => "V8",
    }
}

// Writes what a fault says of a row.
fn write_name<W: fmt::Write>(f: &mut fmt::Formatter<W>, fault: &str, name: Name) -> fmt::Result
    ensures { DisplaysOnOk W.write_str_gives f.old result (Some (about fault.now name)) f.new }
{
    match name {
        Name::Point(no) => write!(f, "{fault} point {}", no.get()),
        Name::String(no) => write!(f, "{fault} string {}", no.get()),
        Name::Parcel(no) => write!(f, "{fault} parcel {}", no.get()),
        Name::Source(no) => write!(f, "{fault} source {}", no.get()),
    }
}

/// The number of the fault, its name, and what it is about.
impl fmt::Display for PlanFault {
    ghost use Rattle.std.specs.Prelude.{Some};
    ghost use Rattle.cad_files.specs.FaultTexts.{fault_text};

    ghost output = { λ f. Some (fault_text f) };

    fn fmt<W: fmt::Write>(&self, f: &mut fmt::Formatter<W>) -> fmt::Result {
        match self {
            PlanFault::Read => write!(f, "1 read"),
            PlanFault::Length => write!(f, "1 read"),
            PlanFault::Version => write!(f, "2 version"),
            PlanFault::Syntax(record) => write!(f, "3 syntax record {record}"),
            PlanFault::Range(record) => write!(f, "4 range record {record}"),
            PlanFault::Taken(name) => write_name(f, "5 taken", *name),
            PlanFault::Unknown(name) => write_name(f, "6 unknown", *name),
            PlanFault::Full => write!(f, "7 full"),
            PlanFault::Dangling(no) => write!(f, "8 dangling string {}", no.get()),
            PlanFault::Corner(no) => write!(f, "9 corner point {}", no.get()),
            PlanFault::Labels(no) => write!(f, "10 labels string {}", no.get()),
            PlanFault::Breaks(rule) => write!(f, "11 breaks {}", rule_text(*rule)),
            PlanFault::NoOpen => write!(f, "12 no-open"),
            PlanFault::Memory => write!(f, "13 memory"),
        }
    }
}

impl Error for PlanFault {}
