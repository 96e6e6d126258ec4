//! The plans that are looked at.
ghost use Rattle.std.specs.Prelude.{IfOk};
ghost use Rattle.cad_files.specs.Building.{IsBuilt};

use cad_files::PlanFault;
use cad_views::{Plan, read_map};
use number_hash::NumberHash;
use std::alloc::{AllocError, Global};

/// A plan, in parts, so that rows that two plans have are written once. In a part records are parted by a semicolon and a
/// space, and written without the commas that fill them up to seven fields.
pub(crate) type Parts = &'static [&'static str];

/// The source and the corners of the field.
const CORNERS: &str =
    "plan,2; source,1,Plan 7; point,1,0,0,1; point,2,100000,0; point,3,100000,100000; \
    point,4,0,100000";

/// A parcel of 100 m by 100 m, whose lower left corner is the origin, and a point that stands alone.
pub(crate) const FIELD: Parts = &[
    CORNERS,
    "point,9,50000,80000; parcel,7,Field & <pond>,1; string,11,1,2,7,0,1; string,12,2,3,7,0; \
    string,13,3,4,7,0; string,14,4,1,7,0; open",
];

/// The same with a fence from the lower side to the upper one: the east is a parcel of its own, and the point that stood
/// alone is gone.
pub(crate) const FENCED: Parts = &[
    CORNERS,
    "point,5,60000,0; point,6,60000,100000; parcel,7,Field & <pond>,1; parcel,8,East,1; \
    string,21,1,5,7,0,1; string,22,5,2,8,0,1; string,12,2,3,8,0; string,23,3,6,8,0; \
    string,24,6,4,7,0; string,14,4,1,7,0; string,31,5,6,7,8; open",
];

/// A map without parcels, two of which mergers ended.
pub(crate) const ENDED: Parts = &[
    "plan,2; source,4,Plan 7; source,1,Plan 9; retired,8; retired,3; open",
];

/// The fenced field, whose fence begins 10 m farther to the east now.
pub(crate) const SHIFTED: Parts = &[
    CORNERS,
    "point,5,70000,0; point,6,60000,100000; parcel,7,Field & <pond>,1; parcel,8,East,1; \
    string,21,1,5,7,0,1; string,22,5,2,8,0,1; string,12,2,3,8,0; string,23,3,6,8,0; \
    string,24,6,4,7,0; string,14,4,1,7,0; string,31,5,6,7,8; open",
];

/// The fenced field, whose east went back to it.
pub(crate) const UNFENCED: Parts = &[
    CORNERS,
    "point,5,60000,0; point,6,60000,100000; parcel,7,Field & <pond>,1; string,21,1,5,7,0,1; \
    string,22,5,2,7,0,1; string,12,2,3,7,0; string,23,3,6,7,0; string,24,6,4,7,0; \
    string,14,4,1,7,0; retired,8; open",
];

/// The field with a point put on its lower side.
pub(crate) const STUDDED: Parts = &[
    CORNERS,
    "point,9,50000,80000; point,5,60000,0; parcel,7,Field & <pond>,1; string,21,1,5,7,0,1; \
    string,22,5,2,7,0,1; string,12,2,3,7,0; string,13,3,4,7,0; string,14,4,1,7,0; open",
];

/// The field under another label.
pub(crate) const MEADOW: Parts = &[
    CORNERS,
    "point,9,50000,80000; parcel,7,Meadow,1; string,11,1,2,7,0,1; string,12,2,3,7,0; \
    string,13,3,4,7,0; string,14,4,1,7,0; open",
];

/// The field, whose upper side lies 10 m farther to the east now: it is as large as before.
pub(crate) const SLANTED: Parts = &[
    "plan,2; source,1,Plan 7; point,1,0,0,1; point,2,100000,0; point,3,110000,100000; \
    point,4,10000,100000; point,9,50000,80000; parcel,7,Field & <pond>,1; string,11,1,2,7,0,1; \
    string,12,2,3,7,0; string,13,3,4,7,0; string,14,4,1,7,0; open",
];

/// The parcels and the strings of a field round a pond.
const ROUND_POND: &str =
    "parcel,7,Field,1; parcel,8,Pond; string,11,1,2,7,0; string,12,2,3,7,0; string,13,3,4,7,0; \
    string,14,4,1,7,0; string,31,5,6,8,7; string,32,6,10,8,7; string,33,10,11,8,7; \
    string,34,11,5,8,7; open";

/// A pond of 20 m by 20 m in the field.
pub(crate) const POND: Parts = &[
    CORNERS,
    "point,5,40000,40000; point,6,60000,40000; point,10,60000,60000; point,11,40000,60000",
    ROUND_POND,
];

/// The same 10 m farther to the east.
pub(crate) const POND_EAST: Parts = &[
    CORNERS,
    "point,5,50000,40000; point,6,70000,40000; point,10,70000,60000; point,11,50000,60000",
    ROUND_POND,
];

/// Four strips of 100 m: of 2 m, 1 m, 400 mm and 96.6 m.
pub(crate) const STRIPS: Parts = &[
    "plan,2; point,1,0,0; point,2,100000,0; point,3,0,2000; point,4,100000,2000; point,5,0,3000; \
    point,6,100000,3000; point,7,0,3400; point,8,100000,3400; point,9,0,100000; \
    point,10,100000,100000; parcel,1,Road; parcel,2,Path; parcel,3,Ditch; parcel,4,Field",
    "string,1,1,2,1,0; string,2,3,4,2,1; string,3,5,6,3,2; string,4,7,8,4,3; string,5,9,10,0,4; \
    string,6,1,3,0,1; string,7,2,4,1,0; string,8,3,5,0,2; string,9,4,6,2,0; string,10,5,7,0,3; \
    string,11,6,8,3,0; string,12,7,9,0,4; string,13,8,10,4,0; open",
];

/// Appends a record as a line, filled up to seven fields.
fn append_line(text: &mut String, record: &str) -> Result<(), AllocError> {
    text.push_str(record)?;
    for _ in record.split(',').count()..7 {
        text.push_str(",")?;
    }
    text.push_str("\n")
}

/// The text of a plan.
fn text_of(alloc: Global, parts: Parts) -> Result<String, AllocError> {
    let mut text = String::new(alloc);
    for part in parts {
        for record in part.split("; ") {
            append_line(&mut text, record)?;
        }
    }
    Ok(text)
}

/// The plan of its parts.
pub(crate) fn plan(alloc: Global, parts: Parts) -> Result<Plan, PlanFault>
    ensures { IfOk result (λ plan. IsBuilt plan.rows plan.map) }
{
    match text_of(alloc, parts) {
        Ok(text) => read_map(alloc, NumberHash::fixed(), text.as_bytes()),
        Err(AllocError) => Err(PlanFault::Memory),
    }
}
