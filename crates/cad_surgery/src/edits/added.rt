//! A division or an enclosure on a map on half-edges, taken back and made again by its record.
ghost use Rattle.std.specs.Prelude.{◌≡◌, map as map_by, IfOk};
ghost use Rattle.cad_map.specs.Asked.{GivesInRange};
ghost use Rattle.cad_map.specs.Effects.{after};
ghost use Rattle.cad_map.specs.Map.{Map};
ghost use Rattle.cad_rows.specs.declared.names.Face.TheVariants.{Parcel};
ghost use Rattle.half_table.specs.Half.{forward_of};
ghost use Rattle.cad_laws.specs.Tried.{IsTried};
ghost use Rattle.cad_surgery.specs.AddedParcels.{CanGoOut, GoesOut, HeldParcel, IsAddedBy, IsOfParcel, TellsAdded};
ghost use Rattle.cad_surgery.specs.NewParcels.{Comes, edit_by};
ghost use Rattle.cad_surgery.specs.Trials.{IsTakenBack, IsMade, StandsBeside};
ghost use Rattle.edit_records.specs.Record.{edit_of, Belongs};
ghost use Rattle.map_parts.specs.Parts.{map_of};

use crate::draft::Draft;
use crate::edits::adding::{Course, add_again};
use crate::edits::coming::{Coming, coming_round, coming_with, course_of};
use crate::edits::counted::is_work_in_range;
use crate::edits::given::{NewParcel, first_and_rest, halves_of, new_parcel};
use crate::edits::hidden::drop_hidden;
use crate::edits::merging::Way;
use cad_edit::rows_along;
use cad_map::MapRows;
use cad_rows::Memory;
use edit_records::SmallRecord;
use half_table::{Half, HalfTable, Tally};
use key_lists::KeyLists;
use map_parts::{Spoke, begin_open, begin_undivide};

// What the record of a division or an enclosure tells.
#[derive(Clone, Copy)]
struct Added<'a> {
    new: NewParcel<'a>,
    way: Way,
    moved: &'a [Half],
}

fn parcel_told(change: &SmallRecord) -> Added<'_>
    requires { IsOfParcel change.now }
    ensures { TellsAdded change.now result }
{
    match change {
        SmallRecord::Divide {
            face,
            chain,
            strings,
            parcel,
            label,
            source,
            start,
            end,
            moved,
        } => Added {
            new: new_parcel(*face, chain, strings, *parcel, label, *source),
            way: Way::Along {
                start: *start,
                end: *end,
            },
            moved: moved.as_slice(),
        },
        SmallRecord::Enclose {
            face,
            points,
            strings,
            parcel,
            label,
            source,
            moved,
        } => Added {
            new: new_parcel(*face, points, strings, *parcel, label, *source),
            way: Way::Round,
            moved: moved.as_slice(),
        },
        _ => unreachable!(),
    }
}

// Takes a parcel out. Its strings stay in the table, loose. Where memory runs out the map stays.
fn begin_going<T: Tally>(
    rows: &mut MapRows,
    table: &mut HalfTable<T>,
    kept: &mut KeyLists<Half>,
    stars: &mut KeyLists<Spoke>,
    new: &NewParcel<'_>,
    course: &Course<'_>,
) -> Result<(), Memory>
    requires { (m : Map) × CanGoOut m course.now.way new.now course.now.path.now
        course.now.moved.now rows.old table.old kept.old stars.old }
    ensures { (m : Map) → CanGoOut m course.now.way new.now course.now.path.now
        course.now.moved.now rows.old table.old kept.old stars.old
        → GoesOut m course.now.way new.now course.now.path.now course.now.moved.now table.old
        rows.new table.new kept.new stars.new result }
{
    let face = &new.face;
    let strings = new.strings;
    let parcel = new.parcel;
    let moved = course.moved;
    let (first, rest) = first_and_rest(course.path);
    match course.way {
        Way::Along { .. } => begin_undivide(
            rows, table, kept, stars, face, strings, parcel, first, rest, moved,
        ),
        Way::Round => begin_open(
            rows, table, kept, stars, face, strings, parcel, first, rest, moved,
        ),
    }
}

// Takes a division or an enclosure back, and its strings out of the table.
fn take_back<T: Tally>(
    draft: &mut Draft<T>,
    new: &NewParcel<'_>,
    course: &Course<'_>,
) -> Result<(), Memory>
    requires path { course.now.path.now ≡ map_by forward_of new.now.strings.now }
    requires beside { StandsBeside (λ m. IsAddedBy course.now.way m (map_of draft.old) new.now
        course.now.moved.now) draft.old }
    ensures { IsTakenBack (λ m. IsAddedBy course.now.way m (map_of draft.old) new.now
        course.now.moved.now) draft.old draft.new result }
{
    is_work_in_range(&draft.table);
    begin_going(
        &mut draft.rows,
        &mut draft.table,
        &mut draft.kept,
        &mut draft.stars,
        new,
        course,
    )?;
    drop_hidden(draft, course.path);
    Ok(())
}

/// Takes a division or an enclosure back, by the record: takes the parcel and its strings out, and the
/// parcel's rings are the face's again. Where memory runs out the map stays.
pub(crate) fn back_added<T: Tally>(draft: &mut Draft<T>, change: &SmallRecord) -> Result<(), Memory>
    requires parcel { IsOfParcel change.now }
    requires given { GivesInRange (edit_of change.now) }
    requires beside { StandsBeside (λ m. Belongs change.now m (map_of draft.old)) draft.old }
    ensures { IsTakenBack (λ m. Belongs change.now m (map_of draft.old)) draft.old draft.new
        result }
{
    let told = parcel_told(change);
    let path = halves_of(draft.rows.points.allocator(), told.new.strings)?;
    let course = Course {
        way: told.way,
        path: path.as_slice(),
        moved: told.moved,
    };
    take_back(draft, &told.new, &course)
}

// What comes again: with a division as the record tells it, with an enclosure as it is found.
fn coming_again<T: Tally>(draft: &Draft<T>, told: &Added<'_>) -> Result<Coming, Memory>
    requires tried { IsTried (map_of draft.now) (edit_by told.now.way told.now.new) }
    requires held { HeldParcel told.now.way
        (after (map_of draft.now) (edit_by told.now.way told.now.new)) (Parcel told.now.new.parcel)
        told.now.new.points.now told.now.moved.now }
    ensures edit { IfOk result
        (λ c. edit_by c.lead.way told.now.new ≡ edit_by told.now.way told.now.new) }
    ensures comes { IfOk result (λ c. Comes c.lead.way (map_of draft.now) draft.now.table.rows
        told.now.new c.strings.items c.parcel c.lead.path.items c.lead.moved.items) }
{
    let alloc = draft.rows.points.allocator();
    let new = &told.new;
    match told.way {
        Way::Along { .. } => {
            let strings = rows_along(alloc, new.points, new.strings, new.source)?;
            let moved = Vec::from_slice(alloc, told.moved)?;
            coming_with(alloc, new, strings, told.way, moved)
        }
        Way::Round => coming_round(draft, new),
    }
}

/// Makes a division or an enclosure again, by the record. Where memory runs out the map stays.
pub(crate) fn forward_added<T: Tally>(
    draft: &mut Draft<T>,
    change: &SmallRecord,
) -> Result<(), Memory>
    requires parcel { IsOfParcel change.now }
    requires given { GivesInRange (edit_of change.now) }
    requires beside { StandsBeside (Belongs change.now (map_of draft.old)) draft.old }
    ensures { IsMade (edit_of change.now) draft.old draft.new result }
{
    let told = parcel_told(change);
    let coming = coming_again(draft, &told)?;
    let Coming {
        strings,
        parcel,
        lead,
    } = coming;
    let course = course_of(&lead);
    add_again(draft, &told.new, &course, strings, parcel)
}
