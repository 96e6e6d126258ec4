//! A plan, and the map of it.
ghost use Rattle.cad_map.specs.Valid.{IsValid};

use cad_files::{PlanRows, build, read_plan, records_of};
use cad_map::PlainMap;
use number_hash::NumberHash;
use std::alloc::Global;
use std::process::Abort;

/// Two parcels with a common side, each row with what it may have: a text with a comma, no source, two sources, a number
/// that is retired. `print` writes a plan in this way.
pub(crate) const PLAN: &str = "\
plan,2,,,,,
source,1,Survey 7,,,,
source,2,\"Deed, 1923\",,,,
point,1,0,0,1,,
point,2,60000,0,1 2,,
point,3,60000,40000,,,
point,4,0,-40000,2,,
parcel,101,Mill Lane 2,1 2,,,
parcel,102,\"Lot \"\"B\"\"\",,,,
string,11,1,2,101,102,1
string,12,2,3,101,0,
string,13,3,1,101,0,2 1
string,14,2,4,0,102,
string,15,4,1,0,102,
retired,7,,,,,
open,,,,,,
";

/// The rows of a plan.
pub(crate) fn rows(rt: &impl Abort, alloc: Global, plan: &str) -> PlanRows {
    let mut reader = records_of(alloc, plan.as_bytes());
    match read_plan(alloc, &mut reader) {
        Ok(rows) => rows,
        Err(_) => panic!(rt; "no plan"),
    }
}

/// The map of a plan's rows.
pub(crate) fn map_of(rt: &impl Abort, alloc: Global, rows: &PlanRows) -> PlainMap
    ensures { IsValid result }
{
    match build(alloc, NumberHash::fixed(), rows) {
        Ok(map) => map,
        Err(_) => panic!(rt; "no map"),
    }
}
