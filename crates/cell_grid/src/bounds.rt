//! The bounds of a box, and the entries near it.
ghost use Rattle.std.specs.Prelude.{◌≡◌};
ghost use Rattle.cell_grid.specs.Bounds.{bounds_of as bounds_of_box, reaches, is_near as is_near_of};

use crate::packed::PackedEntry;
use geo_exact::Pt;

/// How far a box lies each way, in millimetres.
#[derive(Clone, Copy)]
pub(crate) struct Bounds {
    pub west: i64,
    pub east: i64,
    pub south: i64,
    pub north: i64,
}

/// The bounds of the box of a segment.
pub(crate) fn bounds_of(a: Pt, b: Pt) -> Bounds
    ensures { result ≡ bounds_of_box a b }
{
    Bounds {
        west: a.x.min(b.x),
        east: a.x.max(b.x),
        south: a.y.min(b.y),
        north: a.y.max(b.y),
    }
}

/// Whether an entry has an x in common with the box of these bounds.
fn has_x_within(bounds: &Bounds, entry: &PackedEntry) -> bool
    ensures { result ≡ reaches bounds.now.west bounds.now.east entry.now.from.x entry.now.to.x }
{
    let from = entry.from_x();
    let to = entry.to_x();
    (bounds.west <= from || bounds.west <= to) && (from <= bounds.east || to <= bounds.east)
}

/// And a y.
fn has_y_within(bounds: &Bounds, entry: &PackedEntry) -> bool
    ensures { result ≡ reaches bounds.now.south bounds.now.north entry.now.from.y entry.now.to.y }
{
    let from = entry.from_y();
    let to = entry.to_y();
    (bounds.south <= from || bounds.south <= to) && (from <= bounds.north || to <= bounds.north)
}

/// Whether the box of an entry has a location in common with the box of these bounds. Others can't
/// meet what lies in that box, and are passed over.
pub(crate) fn is_near(bounds: &Bounds, entry: &PackedEntry) -> bool
    ensures { result ≡ is_near_of bounds.now entry.now }
{
    has_x_within(bounds, entry) && has_y_within(bounds, entry)
}
