//! Plans before and after parcels are merged.
use crate::plans::{ISLAND_RECORDS, PINCH_RECORDS, Plan, SQUARE_RECORDS};
use crate::plans_after::{BEYOND_RECORDS, DIAGONAL};
use crate::plans_divided::{BEND, ISLAND_IN_NEW, NOTCH, POINT_BESIDE};
use crate::plans_enclosed::WITH_FRAME_RECORDS;

/// The divided square merged again.
pub(crate) const MERGED: Plan = &[SQUARE_RECORDS, "retired,2"];

/// The square's parcel merged into parcel 2, which has its sides.
const SQUARE_OF_NEW: &str =
    "-parcel,1; string,11,1,2,2,0; string,12,2,3,2,0; string,13,3,4,2,0; string,14,4,1,2,0; \
    retired,1";

/// The same, where the new parcel is kept.
pub(crate) const MERGED_INTO_NEW: Plan = &[SQUARE_RECORDS, SQUARE_OF_NEW, "parcel,2,C,1"];

/// The square divided by a point, merged again: the point stays.
pub(crate) const BENT_MERGED: Plan = &[SQUARE_RECORDS, BEND, "retired,2"];

/// The square with an island, whose new parcel is merged away again.
pub(crate) const ISLAND_TAKEN_OVER: Plan = &[SQUARE_RECORDS, ISLAND_RECORDS, "retired,3"];

/// The square with an island, and a point that was a corner of a parcel beside it.
pub(crate) const NOTCH_MERGED: Plan = &[SQUARE_RECORDS, ISLAND_RECORDS, NOTCH, "retired,3"];

/// The parcel round a triangle, which holds a triangle, once divided and merged again.
pub(crate) const PINCH_MERGED: Plan = &[PINCH_RECORDS, "retired,9"];

/// What divides the island.
const PARTED_RECORDS: &str =
    "point,9,760,350; parcel,3,C,1; string,31,6,7,3,1; string,41,7,9,3,2,1; string,42,9,6,3,2,1";

/// The square with a divided island.
pub(crate) const PARTED: Plan = &[SQUARE_RECORDS, ISLAND_RECORDS, PARTED_RECORDS];

/// The same, with one part merged with the parcel round it.
pub(crate) const PART_TAKEN_IN: Plan = &[
    SQUARE_RECORDS,
    ISLAND_RECORDS,
    PARTED_RECORDS,
    "-parcel,3; -string,31; string,41,7,9,1,2,1; string,42,9,6,1,2,1; retired,3",
];

/// The island's parcel merged away, and its sides with it.
const ISLAND_GONE: &str = "-parcel,2; -string,31; -string,32; -string,33; retired,2";

/// The same, with the other part too.
pub(crate) const PARTS_TAKEN_IN: Plan = &[
    SQUARE_RECORDS,
    ISLAND_RECORDS,
    "point,9,760,350",
    "retired,3",
    ISLAND_GONE,
];

/// The square merged with its island.
pub(crate) const ISLAND_MERGED: Plan = &[SQUARE_RECORDS, ISLAND_RECORDS, ISLAND_GONE];

/// The same, where the island is kept.
pub(crate) const ISLAND_KEPT: Plan = &[
    SQUARE_RECORDS,
    ISLAND_RECORDS,
    SQUARE_OF_NEW,
    "-string,31; -string,32; -string,33",
];

/// The square merged with the parcel round its island, which it takes over.
pub(crate) const FRAME_MERGED: Plan = &[
    SQUARE_RECORDS,
    ISLAND_RECORDS,
    WITH_FRAME_RECORDS,
    "retired,3",
];

/// The same, where the parcel round the island is kept.
pub(crate) const FRAME_KEPT: Plan = &[
    SQUARE_RECORDS,
    ISLAND_RECORDS,
    WITH_FRAME_RECORDS,
    ISLAND_IN_NEW,
    "-parcel,1; parcel,3,C,1; string,11,1,2,3,0; string,12,2,3,3,0; string,13,3,4,3,0; \
    string,14,4,1,3,0; retired,1",
];

/// The divided square with a third parcel on its eastern side.
pub(crate) const APART: Plan = &[
    SQUARE_RECORDS,
    BEYOND_RECORDS,
    DIAGONAL,
    POINT_BESIDE,
    "parcel,3,D,1; string,12,2,3,1,3; string,22,2,5,3,0,1; string,23,5,3,3,0,1",
];
