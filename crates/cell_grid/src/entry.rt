//! What stands in a cell.
ghost use Rattle.std.specs.Prelude.{◌≡◌};
ghost use Rattle.cell_grid.specs.Entries.{is_same_entry};
ghost use Rattle.cell_grid.specs.Grid.{entry_of};
ghost use Rattle.cell_grid.specs.Spread.{IsSoundEntry};

use cad_rows::{PointNo, StringNo};
use geo_exact::Pt;

/// A segment with the number of the string that lies there. A point is a segment of one position.
#[derive(Clone, Copy)]
pub(crate) struct Entry {
    pub number: u32,
    pub from: Pt,
    pub to: Pt,
}

impl Entry {
    /// The entry of a string between the positions of its ends.
    pub(crate) fn of_string(no: StringNo, a: Pt, b: Pt) -> Entry
        ensures value { result ≡ entry_of no a b }
        ensures sound { IsSoundEntry result }
    {
        Entry {
            number: no.get(),
            from: a,
            to: b,
        }
    }

    /// The entry of a point at its position.
    pub(crate) fn of_point(no: PointNo, a: Pt) -> Entry
        ensures value { result ≡ entry_of no a a }
        ensures sound { IsSoundEntry result }
    {
        Entry {
            number: no.get(),
            from: a,
            to: a,
        }
    }
}

/// A string that a grid holds, between the positions of its two ends.
#[derive(Clone, Copy)]
pub struct HeldString {
    pub string: StringNo,
    pub from: Pt,
    pub to: Pt,
}

/// A point that a grid holds, at its position.
#[derive(Clone, Copy)]
pub struct HeldPoint {
    pub point: PointNo,
    pub position: Pt,
}

/// Whether two entries have the same number and the same positions.
pub(crate) fn is_same(a: &Entry, b: &Entry) -> bool
    ensures { result ≡ is_same_entry a.now b.now }
{
    a.number == b.number
        && a.from.x == b.from.x
        && a.from.y == b.from.y
        && a.to.x == b.to.x
        && a.to.y == b.to.y
}
