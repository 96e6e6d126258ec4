//! A split on a map on half-edges: tried, taken back, and made again.
ghost use Rattle.std.specs.Prelude.{◌≡◌, Some, IsSome, slice_get, IfOk};
ghost use Rattle.cad_map.specs.Asked.{GivesInRange};
ghost use Rattle.cad_map.specs.Effects.{after};
ghost use Rattle.cad_map.specs.Map.{string_of};
ghost use Rattle.cad_laws.specs.Tried.{IsTried};
ghost use Rattle.cad_rows.specs.declared.rows.StringRow.{StringRow as StringRowOf};
ghost use Rattle.map_parts.specs.Parts.{map_of, kept_at};
ghost use Rattle.cad_surgery.specs.Proper.{IsProper};
ghost use Rattle.cad_map.specs.MapRows.{map_in};
ghost use Rattle.cad_surgery.specs.Halvings.{IsOfSplit, IsSplitFrom, split_by, split_record, split_rows};
ghost use Rattle.cad_surgery.specs.Trials.{IsReadyFor, IsTrialOf, IsMade, IsPlayed, StandsBeside, IsTakenBack};
ghost use Rattle.edit_records.specs.Record.{edit_of, Belongs};

use crate::draft::Draft;
use crate::edits::counted::is_work_in_range;
use crate::edits::hidden::drop_hidden;
use cad_map::MapRows;
use cad_near::{FaceAreas, Touched, first_broken_near};
use cad_rows::{Memory, Numbers, PointNo, PointRow, Refusal, StringNo, StringRow};
use edit_records::SmallRecord;
use geo_exact::Pt;
use half_table::Tally;
use map_parts::{begin_split, begin_unsplit, forward, unsplit};

/// What a split gives: the new point, its position, and the numbers of the two strings.
#[derive(Clone, Copy)]
pub(crate) struct Halving {
    pub(crate) point: PointNo,
    pub(crate) position: Pt,
    pub(crate) first: StringNo,
    pub(crate) second: StringNo,
}

/// The rows that a split brings.
#[derive(Drop)]
pub(crate) struct SplitRows {
    pub(crate) point: PointRow,
    pub(crate) first: StringRow,
    pub(crate) second: StringRow,
}

// The rows that a split of a string brings.
fn rows_of_split(rows: &MapRows, string: &StringNo, halving: &Halving) -> Result<SplitRows, Memory>
    requires { IsSome (string_of (map_in rows.now) string.now) }
    ensures { (row : StringRowOf) → string_of (map_in rows.now) string.now ≡ Some row
        → IfOk result (λ r. r ≡ split_rows row halving.now) }
{
    let row = rows.strings.get(string.get()).unwrap();
    Ok(SplitRows {
        point: PointRow {
            number: halving.point,
            position: halving.position,
            sources: Numbers::new(rows.points.allocator()),
        },
        first: StringRow {
            number: halving.first,
            from: row.from,
            to: halving.point,
            sources: row.sources.copy()?,
        },
        second: StringRow {
            number: halving.second,
            from: halving.point,
            to: row.to,
            sources: row.sources.copy()?,
        },
    })
}

// Splits a string with the rows that come, and takes it back where it breaks a rule. Gives the
// string's row with its place.
fn split_within_rules<T: Tally>(
    draft: &mut Draft<T>,
    string: StringNo,
    halving: &Halving,
    coming: SplitRows,
    areas: &FaceAreas,
    touched: &Touched,
) -> Result<(usize, StringRow), Refusal>
    requires ready { IsReadyFor (split_by string halving.now) draft.old areas.now touched.now }
    requires rows { (row : StringRowOf) → string_of (map_of draft.old) string ≡ Some row
        → coming ≡ split_rows row halving.now }
    ensures played { IsPlayed (split_by string halving.now) draft.old draft.new result }
    ensures row { IfOk result (λ r. slice_get (map_of draft.old).strings r.0 ≡ Some r.1) }
    ensures found { IfOk result (λ r. string_of (map_of draft.old) string ≡ Some r.1) }
{
    is_work_in_range(&draft.table);
    let Ok((place, row)) = begin_split(
        &mut draft.rows,
        &mut draft.table,
        &mut draft.kept,
        &mut draft.stars,
        string,
        coming.point,
        coming.first,
        coming.second,
    ) else {
        return Err(Refusal::Memory);
    };
    let alloc = draft.rows.points.allocator();
    if let Some(rule) = first_broken_near(alloc, draft, draft.grid(), areas, touched) {
        unsplit(
            &mut draft.rows,
            &mut draft.table,
            &mut draft.kept,
            &mut draft.stars,
            row,
            place,
            halving.point,
            halving.first,
            halving.second,
        );
        drop_hidden(draft, &[forward(&halving.first), forward(&halving.second)]);
        return Err(Refusal::Breaks(rule));
    }
    drop_hidden(draft, &[forward(&string)]);
    Ok((place, row))
}

/// Splits a string, and takes it back where it breaks a rule. The grid holds the strings and points
/// of the map after it.
pub(crate) fn try_split<T: Tally>(
    draft: &mut Draft<T>,
    string: StringNo,
    halving: &Halving,
    areas: &FaceAreas,
    touched: &Touched,
) -> Result<SmallRecord, Refusal>
    requires { IsReadyFor (split_by string halving.now) draft.old areas.now touched.now }
    ensures { IsTrialOf (split_by string halving.now) draft.old draft.new result }
{
    let Ok(coming) = rows_of_split(&draft.rows, &string, halving) else {
        return Err(Refusal::Memory);
    };
    let (place, row) = split_within_rules(draft, string, halving, coming, areas, touched)?;
    Ok(SmallRecord::Split {
        row,
        place,
        point: halving.point,
        position: halving.position,
        first: halving.first,
        second: halving.second,
    })
}

// What the record of a split tells.
#[derive(Clone, Copy)]
struct Halved<'a> {
    row: &'a StringRow,
    place: usize,
    halving: Halving,
}

fn split_told(change: &SmallRecord) -> Halved<'_>
    requires { IsOfSplit change.now }
    ensures { change.now ≡ split_record result.row.now result.place result.halving }
{
    let SmallRecord::Split {
        row,
        place,
        point,
        position,
        first,
        second,
    } = change
    else {
        unreachable!()
    };
    Halved {
        row,
        place: *place,
        halving: Halving {
            point: *point,
            position: *position,
            first: *first,
            second: *second,
        },
    }
}

// Takes a split back: puts the string's row in at its place again.
fn unsplit_with<T: Tally>(
    draft: &mut Draft<T>,
    row: &StringRow,
    place: usize,
    halving: &Halving,
) -> Result<(), Memory>
    requires given { GivesInRange (split_by row.now.number halving.now) }
    requires beside { StandsBeside (IsSplitFrom row.now place halving.now (map_of draft.old))
        draft.old }
    ensures { IsTakenBack (IsSplitFrom row.now place halving.now (map_of draft.old)) draft.old
        draft.new result }
{
    is_work_in_range(&draft.table);
    begin_unsplit(
        &mut draft.rows,
        &mut draft.table,
        &mut draft.kept,
        &mut draft.stars,
        row.copy()?,
        place,
        halving.point,
        halving.first,
        halving.second,
    )?;
    drop_hidden(draft, &[forward(&halving.first), forward(&halving.second)]);
    Ok(())
}

/// Takes a split back, by the record. Where memory runs out the map stays.
pub(crate) fn back_split<T: Tally>(draft: &mut Draft<T>, change: &SmallRecord) -> Result<(), Memory>
    requires split { IsOfSplit change.now }
    requires given { GivesInRange (edit_of change.now) }
    requires beside { StandsBeside (λ m. Belongs change.now m (map_of draft.old)) draft.old }
    ensures { IsTakenBack (λ m. Belongs change.now m (map_of draft.old)) draft.old draft.new
        result }
{
    let told = split_told(change);
    unsplit_with(draft, told.row, told.place, &told.halving)
}

// Splits a string again.
fn split_again<T: Tally>(
    draft: &mut Draft<T>,
    string: StringNo,
    halving: &Halving,
) -> Result<(), Memory>
    requires tried { IsTried (map_of draft.old) (split_by string halving.now) }
    requires proper { IsProper (map_of draft.old) draft.old.table.rows (kept_at draft.old) }
    ensures { IsMade (split_by string halving.now) draft.old draft.new result }
{
    let coming = rows_of_split(&draft.rows, &string, halving)?;
    is_work_in_range(&draft.table);
    begin_split(
        &mut draft.rows,
        &mut draft.table,
        &mut draft.kept,
        &mut draft.stars,
        string,
        coming.point,
        coming.first,
        coming.second,
    )?;
    drop_hidden(draft, &[forward(&string)]);
    Ok(())
}

/// Splits a string again, by the record. Where memory runs out the map stays.
pub(crate) fn forward_split<T: Tally>(
    draft: &mut Draft<T>,
    change: &SmallRecord,
) -> Result<(), Memory>
    requires split { IsOfSplit change.now }
    requires given { GivesInRange (edit_of change.now) }
    requires beside { StandsBeside (Belongs change.now (map_of draft.old)) draft.old }
    ensures { IsMade (edit_of change.now) draft.old draft.new result }
{
    let told = split_told(change);
    split_again(draft, told.row.number, &told.halving)
}
