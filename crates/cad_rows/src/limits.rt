//! How many rows a map may have.

/// The most points, parcels, sources and retired numbers, each.
pub const ROW_LIMIT: usize = 100_000;

/// The most strings.
pub const STRING_LIMIT: usize = 200_000;

/// The most sources of one point, string or parcel.
pub const SOURCE_LIMIT: usize = 16;
