//! What a number can stand for.
use crate::numbers::{ParcelNo, PointNo, SourceNo, StringNo};

/// What lies on one side of a string: the outside of all parcels, or a parcel.
#[derive(Clone, Copy, Debug, PartialEq, Eq, PartialOrd, Ord, Hash)]
pub enum Face {
    Outside,
    Parcel(ParcelNo),
}

/// What a source can be attached to.
#[derive(Clone, Copy, Debug, PartialEq, Eq)]
pub enum Item {
    Point(PointNo),
    String(StringNo),
    Parcel(ParcelNo),
}

/// A row that is named by its number.
#[derive(Clone, Copy, Debug, PartialEq, Eq)]
pub enum Name {
    Point(PointNo),
    String(StringNo),
    Parcel(ParcelNo),
    Source(SourceNo),
}
