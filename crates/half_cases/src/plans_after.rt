//! Plans that edits of the worked jobs come to.
use crate::plans::{ISLAND_RECORDS, Plan, SQUARE_RECORDS};

/// An empty plan.
pub(crate) const EMPTY: Plan = &[];

/// A source alone.
pub(crate) const WITH_SOURCE: Plan = &["source,1,Plan 7"];

/// A source and a point.
pub(crate) const WITH_ORIGIN: Plan = &["source,1,Plan 7; point,1,0,0"];

/// A source and a point that it is attached to.
pub(crate) const WITH_ATTACHED: Plan = &["source,1,Plan 7; point,1,0,0,1"];

/// The square whose first side is split.
pub(crate) const SPLIT: Plan = &[
    SQUARE_RECORDS,
    "-string,11; point,5,500,0; string,22,1,5,1,0; string,23,5,2,1,0",
];

/// The square whose first corner is taken out.
pub(crate) const JOINED: Plan = &[
    SQUARE_RECORDS,
    "-point,1; -string,11; -string,14; string,21,2,4,0,1",
];

/// A point in the middle of the square.
const MIDDLE: &str = "point,5,500,500";

/// The square with a point in its middle.
pub(crate) const WITH_POINT: Plan = &[SQUARE_RECORDS, MIDDLE];

/// The square with two points in it.
pub(crate) const WITH_POINTS: Plan = &[SQUARE_RECORDS, MIDDLE, "point,6,600,600"];

/// The square's parcel with another label.
const OTHER_LABEL: &str = "parcel,1,\"North, B\"";

/// The square with another label.
pub(crate) const RENAMED: Plan = &[SQUARE_RECORDS, OTHER_LABEL];

/// The square's third corner elsewhere.
const MOVED_CORNER: &str = "point,3,1200,1000";

/// The same, with a corner moved.
pub(crate) const MOVED: Plan = &[SQUARE_RECORDS, OTHER_LABEL, MOVED_CORNER];

/// The same, with no source at its first corner.
pub(crate) const DETACHED: Plan = &[SQUARE_RECORDS, OTHER_LABEL, MOVED_CORNER, "point,1,0,0"];

/// A parcel beyond the diagonal, without its sides there.
pub(crate) const BEYOND_RECORDS: &str = "parcel,2,C,1; string,13,3,4,2,0; string,14,4,1,2,0";

/// The diagonal between the square's two parcels.
pub(crate) const DIAGONAL: &str = "string,21,1,3,2,1,1";

/// The square divided from its first corner to the third.
pub(crate) const DIVIDED: Plan = &[SQUARE_RECORDS, BEYOND_RECORDS, DIAGONAL];

/// The same by a diagonal with another number.
pub(crate) const DIVIDED_ANEW: Plan = &[SQUARE_RECORDS, BEYOND_RECORDS, "string,22,1,3,2,1,1"];

/// The square with an island, divided in the same way.
pub(crate) const DIVIDED_ISLAND: Plan = &[
    SQUARE_RECORDS,
    ISLAND_RECORDS,
    "parcel,3,C,1; string,13,3,4,3,0; string,14,4,1,3,0; string,21,1,3,3,1,1",
];
