//! Plans before and after parcels and the outside are divided.
use crate::plans::{ISLAND_RECORDS, PINCH_RECORDS, Plan, SQUARE_RECORDS};
use crate::plans_after::BEYOND_RECORDS;

/// The square divided from its third corner to the first.
pub(crate) const TURNED: Plan = &[
    SQUARE_RECORDS,
    "parcel,2,C,1; string,11,1,2,2,0; string,12,2,3,2,0; string,21,3,1,2,1,1",
];

/// The sides of the island, where it lies in parcel 3.
pub(crate) const ISLAND_IN_NEW: &str = "string,31,6,7,2,3; string,32,7,8,2,3; string,33,8,6,2,3";

/// The square with an island, divided in the same way: the island lies in the new parcel.
pub(crate) const TURNED_ISLAND: Plan = &[
    SQUARE_RECORDS,
    ISLAND_RECORDS,
    ISLAND_IN_NEW,
    "parcel,3,C,1; string,11,1,2,3,0; string,12,2,3,3,0; string,21,3,1,3,1,1",
];

/// A point beside the square's diagonal.
pub(crate) const BEND: &str = "point,5,400,600";

/// The square with a point beside its diagonal.
pub(crate) const WITH_BEND: Plan = &[SQUARE_RECORDS, BEND];

/// Two strings along that point.
const BENT_RECORDS: &str = "string,21,1,5,2,1,1; string,22,5,3,2,1,1";

/// The same, divided from its first corner by that point to the third.
pub(crate) const BENT: Plan = &[SQUARE_RECORDS, BEND, BEYOND_RECORDS, BENT_RECORDS];

/// The same, the first parcel divided once more along the diagonal.
pub(crate) const BENT_TWICE: Plan = &[
    SQUARE_RECORDS,
    BEND,
    BEYOND_RECORDS,
    BENT_RECORDS,
    "parcel,3,D,1; string,21,1,5,2,3,1; string,22,5,3,2,3,1; string,23,1,3,3,1,1",
];

/// A point east of the square.
pub(crate) const POINT_BESIDE: &str = "point,5,2000,500";

/// The square with a point east of it.
pub(crate) const WITH_POINT_BESIDE: Plan = &[SQUARE_RECORDS, POINT_BESIDE];

/// The same, with a parcel on its eastern side.
pub(crate) const BESIDE: Plan = &[
    SQUARE_RECORDS,
    POINT_BESIDE,
    "parcel,2,C,1; string,12,2,3,1,2; string,22,2,5,2,0,1; string,23,5,3,2,0,1",
];

/// A triangle east of the square, and two points behind it.
const TWO_ISLANDS_RECORDS: &str =
    "point,5,1200,300; point,6,1500,300; point,7,1500,600; point,8,2000,0; point,9,2000,1000; \
    parcel,2,B; string,15,5,6,2,0; string,16,6,7,2,0; string,17,7,5,2,0";

/// The square with a triangle east of it, and two points behind that.
pub(crate) const TWO_ISLANDS: Plan = &[SQUARE_RECORDS, TWO_ISLANDS_RECORDS];

/// The same, with a parcel on the square's eastern side round the triangle.
pub(crate) const SURROUNDED: Plan = &[
    SQUARE_RECORDS,
    TWO_ISLANDS_RECORDS,
    "parcel,3,C,1; string,12,2,3,1,3; string,15,5,6,2,3; string,16,6,7,2,3; string,17,7,5,2,3; \
    string,21,2,8,3,0,1; string,22,8,9,3,0,1; string,23,9,3,3,0,1",
];

/// A point east of the island.
pub(crate) const NOTCH: &str = "point,9,900,400";

/// The square with an island, and a point east of that.
pub(crate) const WITH_NOTCH: Plan = &[SQUARE_RECORDS, ISLAND_RECORDS, NOTCH];

/// The same, with a parcel on the island's eastern side.
pub(crate) const NOTCHED: Plan = &[
    SQUARE_RECORDS,
    ISLAND_RECORDS,
    NOTCH,
    "parcel,3,C,1; string,32,7,8,2,3; string,41,7,9,3,1,1; string,42,9,8,3,1,1",
];

/// The parcel round a triangle, which holds a triangle, with the middle one divided.
pub(crate) const PINCH_DIVIDED: Plan = &[
    PINCH_RECORDS,
    "parcel,9,C,1; string,23,3,1,9,1; string,33,5,1,3,9; string,43,5,3,9,2,1",
];

/// Three inner points, and the strings along two of them.
const WITH_POCKET_RECORDS: &str =
    "point,5,300,300; point,6,700,700; point,7,700,300; string,21,1,5,2,1,1; string,22,5,6,2,1,1; \
    string,23,6,3,2,1,1";

/// The square divided along two inner points, and a third point.
pub(crate) const WITH_POCKET: Plan = &[SQUARE_RECORDS, BEYOND_RECORDS, WITH_POCKET_RECORDS];

/// The same, with a parcel between the two: they meet along two chains.
pub(crate) const POCKET: Plan = &[
    SQUARE_RECORDS,
    BEYOND_RECORDS,
    WITH_POCKET_RECORDS,
    "parcel,3,D,1; string,22,5,6,2,3,1; string,24,5,7,3,1,1; string,25,7,6,3,1,1",
];
