//! Plans before and after islands are enclosed.
use crate::plans::{ISLAND_RECORDS, Plan, SQUARE_RECORDS};
use crate::plans_divided::ISLAND_IN_NEW;

/// Four points.
const FREE_CORNERS_RECORDS: &str =
    "source,1,Plan 7; point,1,0,0; point,2,1000,0; point,3,1000,1000; point,4,0,1000";

/// Four points, and nothing between them.
pub(crate) const FREE_CORNERS: Plan = &[FREE_CORNERS_RECORDS];

/// The same, with a parcel between them.
pub(crate) const FIRST_PARCEL: Plan = &[
    FREE_CORNERS_RECORDS,
    "parcel,1,A,1; string,11,1,2,1,0,1; string,12,2,3,1,0,1; string,13,3,4,1,0,1; \
    string,14,4,1,1,0,1",
];

/// Four points round the island.
pub(crate) const WITH_FRAME_RECORDS: &str =
    "point,9,600,100; point,10,900,100; point,11,900,700; point,12,600,700";

/// The square with an island, and four points round that.
pub(crate) const WITH_FRAME: Plan = &[SQUARE_RECORDS, ISLAND_RECORDS, WITH_FRAME_RECORDS];

/// The same, with a parcel between the four points, which has the island.
pub(crate) const FRAMED: Plan = &[
    SQUARE_RECORDS,
    ISLAND_RECORDS,
    WITH_FRAME_RECORDS,
    ISLAND_IN_NEW,
    "parcel,3,C,1; string,41,9,10,3,1,1; string,42,10,11,3,1,1; string,43,11,12,3,1,1; \
    string,44,12,9,3,1,1",
];

/// Nine points in the square.
const NINE_POINTS_RECORDS: &str =
    "point,31,100,300; point,32,200,150; point,33,400,100; point,34,600,120; point,35,760,250; \
    point,36,800,450; point,37,700,650; point,38,450,720; point,39,200,600";

/// The square, and nine points in it.
pub(crate) const WITH_NINE_POINTS: Plan = &[SQUARE_RECORDS, NINE_POINTS_RECORDS];

/// What makes a parcel between them, with more strings than are compared with what is held near them one by one.
pub(crate) const ENCLOSE_NINE: &str =
    "enclose,1,31 32 33 34 35 36 37 38 39,41 42 43 44 45 46 47 48 49,2,B,1";
