//! The plans that jobs begin with: a square of a metre, and the same with an island.

/// The rows of a square of a metre.
pub(crate) const SQUARE: &str =
    "source,1,Plan 7; point,1,0,0,1; point,2,1000,0; point,3,1000,1000; point,4,0,1000; \
    parcel,1,A; string,11,1,2,1,0; string,12,2,3,1,0; string,13,3,4,1,0; string,14,4,1,1,0";

/// The source and the corners of the square.
pub(crate) const CORNERS: &str =
    "source,1,Plan 7; point,1,0,0,1; point,2,1000,0; point,3,1000,1000; point,4,0,1000";

/// The sides of the square.
pub(crate) const SIDES: &str =
    "string,11,1,2,1,0; string,12,2,3,1,0; string,13,3,4,1,0; string,14,4,1,1,0";

/// The rows of an island in the square.
pub(crate) const ISLAND: &str =
    "point,6,700,300; point,7,800,300; point,8,800,500; parcel,2,B; string,31,6,7,2,1; \
    string,32,7,8,2,1; string,33,8,6,2,1";

/// The corners of the island.
pub(crate) const ISLAND_CORNERS: &str = "point,6,700,300; point,7,800,300; point,8,800,500";

/// The sides of the island.
pub(crate) const ISLAND_SIDES: &str = "string,31,6,7,2,1; string,32,7,8,2,1; string,33,8,6,2,1";

/// The first record of a plan that is read.
pub(crate) const PLAN: &str = "plan,1";

/// The last record of a plan.
pub(crate) const OPEN: &str = "open";

/// The rows of a parcel round a triangle, which holds a triangle: all three meet in point 1.
pub(crate) const PINCH: &str =
    "source,1,Plan 7; point,1,0,1000; point,2,3000,500; point,3,3000,1500; point,4,2000,900; \
    point,5,2000,1100; point,6,1000,0; point,7,4000,0; point,8,4000,2000; point,9,1000,2000; \
    parcel,1,A; parcel,2,B; parcel,3,C; string,11,1,6,1,0; string,12,6,7,1,0; \
    string,13,7,8,1,0; string,14,8,9,1,0; string,15,9,1,1,0; string,21,1,2,2,1; \
    string,22,2,3,2,1; string,23,3,1,2,1; string,31,1,4,3,2; string,32,4,5,3,2; \
    string,33,5,1,3,2";

/// A script on the square with its island: it divides the parcel round the island, tells areas and outlines, and merges
/// the two parts.
pub(crate) const ISLAND_SCRIPT: &str =
    "divide,1,1 3,21,3,C,1; areas; outline,1; merge,1,3; outline,1";

/// The answers to it.
pub(crate) const ISLAND_ANSWERS: &str =
    "ok; area,1,A,980000,0.49; area,2,B,20000,0.01; area,3,C,1000000,0.50; end; \
    ring,1,outer,1 2 3; ring,1,hole,6 8 7; end; ok; ring,1,outer,1 2 3 4; ring,1,hole,6 8 7; end";

/// How many records of the answers have been given, after so many of the script.
pub(crate) const ISLAND_COUNTS: [usize; 6] = [0, 1, 5, 8, 9, 12];
