//! Why an edit is refused.
use crate::names::Name;
use crate::numbers::{ParcelNo, PointNo};

/// A rule of validity that an edit can break.
#[derive(Clone, Copy, Debug, PartialEq, Eq)]
pub enum Rule {
    /// No two points have the same position.
    V3,
    /// Strings meet at shared ends alone, and points lie on strings as their ends alone.
    V4,
    /// At each corner of a ring no other string lies in the sector of its face.
    V6,
    /// A parcel has one ring of positive area, and all other rings have negative area.
    V7,
    /// Holes lie inside the parcel's outline, and not inside one another.
    V8,
}

/// Why an edit is refused, in the order in which the reasons are looked for.
#[derive(Clone, Copy, Debug, PartialEq, Eq)]
pub enum Refusal {
    /// A coordinate is out of range.
    Range,
    /// A row that the edit names isn't there.
    Unknown(Name),
    /// A number that the edit gives is in use.
    Taken(Name),
    /// The number of the new parcel is retired.
    Retired(ParcelNo),
    /// A merger names the outside.
    Outside,
    /// The position or the label is the same as before.
    NoChange,
    /// A point that has to be free is on a string.
    NotFree(PointNo),
    /// A point that has to be on two strings isn't.
    NotDegreeTwo(PointNo),
    /// The list of points or of strings has a wrong form.
    BadChain,
    /// The face has no corner at the point that the chain leaves or reaches through it.
    NotInParcel(PointNo),
    /// The two ends of the chain lie on different rings.
    ChainJoinsRings,
    /// A parcel is merged with itself.
    SameParcel,
    /// No string has the two parcels on its sides.
    NotNeighbours,
    /// The strings between the two parcels aren't one chain.
    NotOneChain,
    /// The item has the source already.
    AlreadyAttached,
    /// The item doesn't have the source.
    NotAttached,
    /// A limit would be passed.
    Full,
    /// The map after the edit would break this rule first.
    Breaks(Rule),
    /// Memory ran out.
    Memory,
}
