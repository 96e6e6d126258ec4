//! A merger on a map on half-edges, along a chain or round an island: made, taken back where it
//! breaks a rule, and made again.
ghost use Rattle.std.specs.Prelude.{◌≡◌, IfOk};
ghost use Rattle.cad_map.specs.Map.{Map};
ghost use Rattle.cad_surgery.specs.Merging.{HasShared, IsMergerOn, Begins, CanTakeBack, IsBack};
ghost use Rattle.cad_surgery.specs.Merging.{merged_by};
ghost use Rattle.cad_surgery.specs.Proper.{IsProper};
ghost use Rattle.cad_surgery.specs.Trials.{IsReadyFor, IsMade, IsPlayed};
ghost use Rattle.half_paths.specs.Path.{strings_of};
ghost use Rattle.half_table.specs.Rows.{Table};
ghost use Rattle.map_parts.specs.Merging.{HaveGone};
ghost use Rattle.map_parts.specs.Parts.{map_of, kept_at};
ghost use Rattle.cad_map.specs.MapRows.{map_in};

use crate::draft::Draft;
use crate::edits::counted::is_work_in_range;
use crate::edits::given::first_and_rest;
use crate::edits::hidden::drop_hidden;
use cad_map::MapRows;
use cad_near::{FaceAreas, Touched, first_broken_near};
use cad_rows::{Face, Memory, ParcelNo, Refusal, StringNo};
use half_table::{Half, HalfTable, Tally};
use key_lists::KeyLists;
use map_parts::{
    EndedParcel, Spoke, begin_merge_along, begin_merge_island, unmerge_along, unmerge_island,
};

/// Where strings lead that go or come: along a chain, with the halves that follow its two ends as
/// long as it isn't there, or round an island.
#[derive(Clone, Copy)]
pub(crate) enum Way {
    Along { start: Half, end: Half },
    Round,
}

/// What a merger names, with the halves along the strings that the two parcels share, as the ended
/// one has them, those strings, and one half of each other ring of the ended parcel.
#[derive(Clone, Copy)]
pub(crate) struct Merger<'a> {
    pub(crate) kept: Face,
    pub(crate) ended: ParcelNo,
    pub(crate) way: Way,
    pub(crate) path: &'a [Half],
    pub(crate) strings: &'a [StringNo],
    pub(crate) moved: &'a [Half],
}

// Merges a parcel into a face, with the room that it takes. Its strings stay in the table, loose.
// Gives what went. Where memory runs out the map stays.
fn begin_merge<T: Tally>(
    rows: &mut MapRows,
    table: &mut HalfTable<T>,
    kept: &mut KeyLists<Half>,
    stars: &mut KeyLists<Spoke>,
    merger: &Merger<'_>,
) -> Result<EndedParcel, Memory>
    requires { (m : Map) × IsMergerOn m merger.now rows.old table.old kept.old stars.old }
    ensures begun { (m : Map) → IsMergerOn m merger.now rows.old table.old kept.old stars.old
        → Begins m merger.now table.old rows.new table.new kept.new stars.new result }
    ensures gone { IfOk result (λ r. HaveGone (map_in rows.old) merger.now.ended
        merger.now.strings.now r.row r.place r.strings.items) }
{
    is_work_in_range(table);
    let Merger {
        kept: keeper,
        ended,
        way,
        path,
        strings,
        moved,
    } = *merger;
    let (first, rest) = first_and_rest(path);
    match way {
        Way::Along { .. } => begin_merge_along(
            rows, table, kept, stars, &keeper, ended, strings, first, rest, moved,
        ),
        Way::Round => begin_merge_island(
            rows, table, kept, stars, &keeper, ended, strings, first, rest, moved,
        ),
    }
}

// Takes a merger back, with all that went, where its strings are in the table, loose. It takes no
// memory.
fn unmerge<T: Tally>(
    rows: &mut MapRows,
    table: &mut HalfTable<T>,
    kept: &mut KeyLists<Half>,
    stars: &mut KeyLists<Spoke>,
    merger: &Merger<'_>,
    gone: EndedParcel,
)
    requires { (m : Map) × (before : Table) × CanTakeBack m merger.now before gone rows.old
        table.old kept.old stars.old }
    ensures { (m : Map) → (before : Table) → CanTakeBack m merger.now before gone rows.old
        table.old kept.old stars.old
        → IsBack m merger.now before rows.new table.new kept.new stars.new }
{
    let EndedParcel {
        row,
        place,
        mut strings,
    } = gone;
    let placed = &mut strings;
    let keeper = &merger.kept;
    let moved = merger.moved;
    let (first, rest) = first_and_rest(merger.path);
    match merger.way {
        Way::Along { start, end } => unmerge_along(
            rows, table, kept, stars, keeper, row, place, first, rest, &start, &end, moved, placed,
        ),
        Way::Round => unmerge_island(
            rows, table, kept, stars, keeper, row, place, first, rest, moved, placed,
        ),
    }
}

/// Merges a parcel into a face, and takes it back where it breaks a rule. Gives what went.
pub(crate) fn merge_within_rules<T: Tally>(
    draft: &mut Draft<T>,
    merger: &Merger<'_>,
    areas: &FaceAreas,
    touched: &Touched,
) -> Result<EndedParcel, Refusal>
    requires shared { HasShared merger.now.way (map_of draft.old) draft.old.table.rows
        merger.now.kept merger.now.ended merger.now.path.now merger.now.moved.now }
    requires strings { merger.now.strings.now ≡ strings_of merger.now.path.now }
    requires ready { IsReadyFor (merged_by merger.now) draft.old areas.now touched.now }
    ensures played { IsPlayed (merged_by merger.now) draft.old draft.new result }
    ensures gone { IfOk result (λ r. HaveGone (map_of draft.old) merger.now.ended
        merger.now.strings.now r.row r.place r.strings.items) }
{
    let Ok(gone) = begin_merge(
        &mut draft.rows,
        &mut draft.table,
        &mut draft.kept,
        &mut draft.stars,
        merger,
    ) else {
        return Err(Refusal::Memory);
    };
    let alloc = draft.rows.points.allocator();
    if let Some(rule) = first_broken_near(alloc, draft, draft.grid(), areas, touched) {
        unmerge(
            &mut draft.rows,
            &mut draft.table,
            &mut draft.kept,
            &mut draft.stars,
            merger,
            gone,
        );
        return Err(Refusal::Breaks(rule));
    }
    drop_hidden(draft, merger.path);
    Ok(gone)
}

/// Merges a parcel into a face again. Where memory runs out the map stays.
pub(crate) fn merge_again<T: Tally>(draft: &mut Draft<T>, merger: &Merger<'_>) -> Result<(), Memory>
    requires shared { HasShared merger.now.way (map_of draft.old) draft.old.table.rows
        merger.now.kept merger.now.ended merger.now.path.now merger.now.moved.now }
    requires strings { merger.now.strings.now ≡ strings_of merger.now.path.now }
    requires proper { IsProper (map_of draft.old) draft.old.table.rows (kept_at draft.old) }
    ensures { IsMade (merged_by merger.now) draft.old draft.new result }
{
    begin_merge(
        &mut draft.rows,
        &mut draft.table,
        &mut draft.kept,
        &mut draft.stars,
        merger,
    )?;
    drop_hidden(draft, merger.path);
    Ok(())
}
