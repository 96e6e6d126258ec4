//! What comes with a parcel that comes by a division or an enclosure.
ghost use Rattle.std.specs.Prelude.{◌≡◌, ◌≤◌, length, IfOk};
ghost use Rattle.cad_laws.specs.Tried.{IsTried};
ghost use Rattle.cad_edit.specs.Admitted.{HasCorners};
ghost use Rattle.cad_surgery.specs.Divisions.{divided_by};
ghost use Rattle.cad_surgery.specs.Enclosures.{enclosed_by, strings_by};
ghost use Rattle.cad_surgery.specs.NewParcels.{Comes, IsComing, edit_as, edit_by};
ghost use Rattle.map_parts.specs.Parts.{map_of};

use crate::draft::Draft;
use crate::edits::adding::Course;
use crate::edits::crossing::{Crossing, crossing_of};
use crate::edits::given::{Kind, NewParcel, closed, halves_of, parcel_of};
use crate::edits::merging::Way;
use crate::edits::moved::moved_halves;
use cad_edit::rows_along;
use cad_map::Corner;
use cad_rings::Ring;
use cad_rows::{Memory, ParcelRow, StringRow};
use half_table::{Half, Tally};
use std::alloc::Global;

/// Where the strings of a new parcel lead, the halves along them, and one half of each ring that
/// passes over to it.
#[derive(Drop)]
pub(crate) struct Lead {
    pub(crate) way: Way,
    pub(crate) path: Vec<Half>,
    pub(crate) moved: Vec<Half>,
}

/// The rows of the strings and of the parcel that come, and where the strings lead.
#[derive(Drop)]
pub(crate) struct Coming {
    pub(crate) strings: Vec<StringRow>,
    pub(crate) parcel: ParcelRow,
    pub(crate) lead: Lead,
}

/// The course that the strings take.
pub(crate) fn course_of(lead: &Lead) -> Course<'_>
    ensures way { result.way ≡ lead.now.way }
    ensures path { result.path.now ≡ lead.now.path.items }
    ensures moved { result.moved.now ≡ lead.now.moved.items }
{
    Course {
        way: lead.way,
        path: lead.path.as_slice(),
        moved: lead.moved.as_slice(),
    }
}

/// What comes with a parcel whose strings have these rows, and lead so.
pub(crate) fn coming_with(
    alloc: Global,
    new: &NewParcel<'_>,
    strings: Vec<StringRow>,
    way: Way,
    moved: Vec<Half>,
) -> Result<Coming, Memory>
    ensures { IfOk result (IsComing new.now strings.items way moved.items) }
{
    let parcel = parcel_of(alloc, new)?;
    let path = halves_of(alloc, new.strings)?;
    Ok(Coming {
        strings,
        parcel,
        lead: Lead { way, path, moved },
    })
}

// What comes with a division.
fn coming_across<T: Tally>(
    draft: &Draft<T>,
    new: &NewParcel<'_>,
    corners: Option<(Corner, Corner)>,
) -> Result<Coming, Memory>
    requires tried { IsTried (map_of draft.now) (divided_by new.now) }
    requires corners { HasCorners (map_of draft.now) (divided_by new.now) corners }
    ensures edit { IfOk result (λ c. edit_by c.lead.way new.now ≡ divided_by new.now) }
    ensures comes { IfOk result (λ c. Comes c.lead.way (map_of draft.now) draft.now.table.rows new.now
        c.strings.items c.parcel c.lead.path.items c.lead.moved.items) }
{
    let alloc = draft.rows.points.allocator();
    let strings = rows_along(alloc, new.points, new.strings, new.source)?;
    let Crossing { start, end, moved } = crossing_of(draft, new, corners)?;
    coming_with(alloc, new, strings, Way::Along { start, end }, moved)
}

// The rows of the strings round an enclosure's points.
fn rows_round(alloc: Global, new: &NewParcel<'_>) -> Result<Vec<StringRow>, Memory>
    requires long { 1 ≤ length new.now.points.now }
    requires as_many { length new.now.strings.now ≡ length new.now.points.now }
    ensures { IfOk result (λ rows. rows.items ≡ strings_by new.now) }
{
    let closed = closed(alloc, new.points)?;
    rows_along(alloc, closed.as_slice(), new.strings, new.source)
}

/// What comes with an enclosure, with the halves that are kept of the holes that pass over.
pub(crate) fn coming_round<T: Tally>(
    draft: &Draft<T>,
    new: &NewParcel<'_>,
) -> Result<Coming, Memory>
    requires { IsTried (map_of draft.now) (enclosed_by new.now) }
    ensures edit { IfOk result (λ c. edit_by c.lead.way new.now ≡ enclosed_by new.now) }
    ensures comes { IfOk result (λ c. Comes c.lead.way (map_of draft.now) draft.now.table.rows new.now
        c.strings.items c.parcel c.lead.path.items c.lead.moved.items) }
{
    let alloc = draft.rows.points.allocator();
    let strings = rows_round(alloc, new)?;
    let ring = Ring::from_points(alloc, new.points)?;
    let moved = moved_halves(alloc, draft, &new.face, &ring)?;
    coming_with(alloc, new, strings, Way::Round, moved)
}

/// What comes with a division, between the corners that were found, or with an enclosure.
pub(crate) fn coming_by<T: Tally>(
    draft: &Draft<T>,
    kind: Kind,
    new: &NewParcel<'_>,
    corners: Option<(Corner, Corner)>,
) -> Result<Coming, Memory>
    requires tried { IsTried (map_of draft.now) (edit_as kind new.now) }
    requires corners { HasCorners (map_of draft.now) (edit_as kind new.now) corners }
    ensures edit { IfOk result (λ c. edit_by c.lead.way new.now ≡ edit_as kind new.now) }
    ensures comes { IfOk result (λ c. Comes c.lead.way (map_of draft.now) draft.now.table.rows new.now
        c.strings.items c.parcel c.lead.path.items c.lead.moved.items) }
{
    match kind {
        Kind::Divide => coming_across(draft, new, corners),
        Kind::Enclose => coming_round(draft, new),
    }
}
