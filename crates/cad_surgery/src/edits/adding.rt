//! A parcel that comes by a division or an enclosure on a map on half-edges: put in, taken back
//! where it breaks a rule, and put in again.
ghost use Rattle.std.specs.Prelude.{◌≡◌};
ghost use Rattle.cad_map.specs.Map.{Map};
ghost use Rattle.cad_laws.specs.Tried.{IsTried};
ghost use Rattle.cad_surgery.specs.NewParcels.{Comes, IsNewOn, Begins, CanTakeOut, IsOut, edit_by};
ghost use Rattle.cad_surgery.specs.Proper.{IsProper};
ghost use Rattle.cad_surgery.specs.Trials.{IsReadyFor, IsMade, IsPlayed};
ghost use Rattle.half_table.specs.Rows.{Table};
ghost use Rattle.map_parts.specs.Parts.{map_of, kept_at};

use crate::draft::Draft;
use crate::edits::counted::is_work_in_range;
use crate::edits::given::{NewParcel, first_and_rest};
use crate::edits::hidden::drop_hidden;
use crate::edits::merging::Way;
use cad_map::MapRows;
use cad_near::{FaceAreas, Touched, first_broken_near};
use cad_rows::{Memory, ParcelRow, Refusal, StringRow};
use half_table::{Half, HalfTable, Tally};
use key_lists::KeyLists;
use map_parts::{Spoke, begin_divide, begin_enclose, open, undivide};

/// Where the strings of a new parcel lead, the halves along them, and one half of each ring that
/// passes over to it.
#[derive(Clone, Copy)]
pub(crate) struct Course<'a> {
    pub(crate) way: Way,
    pub(crate) path: &'a [Half],
    pub(crate) moved: &'a [Half],
}

// Puts a parcel in, with the room that it takes. Where memory runs out the map stays.
fn begin_adding<T: Tally>(
    rows: &mut MapRows,
    table: &mut HalfTable<T>,
    kept: &mut KeyLists<Half>,
    stars: &mut KeyLists<Spoke>,
    new: &NewParcel<'_>,
    course: &Course<'_>,
    strings: Vec<StringRow>,
    parcel: ParcelRow,
) -> Result<(), Memory>
    requires { (m : Map) × IsNewOn m course.now.way new.now course.now.path.now
        course.now.moved.now strings.items parcel rows.old table.old kept.old stars.old }
    ensures { (m : Map) → IsNewOn m course.now.way new.now course.now.path.now
        course.now.moved.now strings.items parcel rows.old table.old kept.old stars.old
        → Begins m course.now.way new.now course.now.path.now course.now.moved.now table.old
        rows.new table.new kept.new stars.new result }
{
    is_work_in_range(table);
    let face = &new.face;
    let moved = course.moved;
    let (first, rest) = first_and_rest(course.path);
    match course.way {
        Way::Along { start, end } => begin_divide(
            rows, table, kept, stars, face, strings, parcel, first, rest, &start, &end, moved,
        ),
        Way::Round => begin_enclose(
            rows, table, kept, stars, face, strings, parcel, first, rest, moved,
        ),
    }
}

// Takes the parcel out again. Its strings stay in the table, loose. It takes no memory.
fn take_out<T: Tally>(
    rows: &mut MapRows,
    table: &mut HalfTable<T>,
    kept: &mut KeyLists<Half>,
    stars: &mut KeyLists<Spoke>,
    new: &NewParcel<'_>,
    course: &Course<'_>,
)
    requires { (m : Map) × (before : Table) × CanTakeOut m course.now.way new.now
        course.now.path.now course.now.moved.now before rows.old table.old kept.old stars.old }
    ensures { (m : Map) → (before : Table) → CanTakeOut m course.now.way new.now
        course.now.path.now course.now.moved.now before rows.old table.old kept.old stars.old
        → IsOut m course.now.way new.now course.now.path.now before rows.new table.new kept.new
        stars.new }
{
    let face = &new.face;
    let strings = new.strings;
    let parcel = new.parcel;
    let moved = course.moved;
    let (first, rest) = first_and_rest(course.path);
    match course.way {
        Way::Along { .. } => undivide(
            rows, table, kept, stars, face, strings, parcel, first, rest, moved,
        ),
        Way::Round => open(
            rows, table, kept, stars, face, strings, parcel, first, rest, moved,
        ),
    }
}

/// Puts a parcel in with the rows that come, and takes it back where it breaks a rule.
pub(crate) fn add_within_rules<T: Tally>(
    draft: &mut Draft<T>,
    new: &NewParcel<'_>,
    course: &Course<'_>,
    strings: Vec<StringRow>,
    parcel: ParcelRow,
    areas: &FaceAreas,
    touched: &Touched,
) -> Result<(), Refusal>
    requires ready { IsReadyFor (edit_by course.now.way new.now) draft.old areas.now touched.now }
    requires comes { Comes course.now.way (map_of draft.old) draft.old.table.rows new.now
        strings.items parcel course.now.path.now course.now.moved.now }
    ensures { IsPlayed (edit_by course.now.way new.now) draft.old draft.new result }
{
    let Ok(()) = begin_adding(
        &mut draft.rows,
        &mut draft.table,
        &mut draft.kept,
        &mut draft.stars,
        new,
        course,
        strings,
        parcel,
    ) else {
        return Err(Refusal::Memory);
    };
    let alloc = draft.rows.points.allocator();
    if let Some(rule) = first_broken_near(alloc, draft, draft.grid(), areas, touched) {
        take_out(
            &mut draft.rows,
            &mut draft.table,
            &mut draft.kept,
            &mut draft.stars,
            new,
            course,
        );
        drop_hidden(draft, course.path);
        return Err(Refusal::Breaks(rule));
    }
    Ok(())
}

/// Puts a parcel in again with the rows that come. Where memory runs out the map stays.
pub(crate) fn add_again<T: Tally>(
    draft: &mut Draft<T>,
    new: &NewParcel<'_>,
    course: &Course<'_>,
    strings: Vec<StringRow>,
    parcel: ParcelRow,
) -> Result<(), Memory>
    requires tried { IsTried (map_of draft.old) (edit_by course.now.way new.now) }
    requires comes { Comes course.now.way (map_of draft.old) draft.old.table.rows new.now
        strings.items parcel course.now.path.now course.now.moved.now }
    requires proper { IsProper (map_of draft.old) draft.old.table.rows (kept_at draft.old) }
    ensures { IsMade (edit_by course.now.way new.now) draft.old draft.new result }
{
    begin_adding(
        &mut draft.rows,
        &mut draft.table,
        &mut draft.kept,
        &mut draft.stars,
        new,
        course,
        strings,
        parcel,
    )?;
    Ok(())
}
