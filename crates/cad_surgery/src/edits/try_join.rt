//! A join on a map on half-edges: tried, taken back, and made again.
ghost use Rattle.std.specs.Prelude.{◌≡◌, IfOk};
ghost use Rattle.cad_map.specs.Asked.{GivesInRange};
ghost use Rattle.cad_map.specs.Effects.{after};
ghost use Rattle.cad_map.specs.Valid.{IsValid};
ghost use Rattle.cad_laws.specs.Joining.{FarEndsAreApart};
ghost use Rattle.cad_laws.specs.Tried.{IsTried};
ghost use Rattle.cad_rows.specs.declared.edits.Edit.TheVariants.{Join};
ghost use Rattle.cad_surgery.specs.Joinings.{IsOfJoin, IsJoiningAt, join_record};
ghost use Rattle.map_parts.specs.Parts.{map_of, kept_at};
ghost use Rattle.cad_surgery.specs.Proper.{IsProper};
ghost use Rattle.edit_records.specs.Record.{edit_of, Holds, Belongs};
ghost use Rattle.cad_surgery.specs.Trials.{IsReadyFor, IsTrialOf, IsMade, IsPlayed, StandsBeside, IsTakenBack};

use crate::draft::Draft;
use crate::edits::counted::is_work_in_range;
use crate::edits::hidden::drop_hidden;
use crate::edits::joining::{Joining, are_far_ends_joined, joining_at};
use cad_near::{FaceAreas, Touched, first_broken_near};
use cad_rows::{Memory, PointNo, Refusal, Rule, StringNo};
use edit_records::SmallRecord;
use half_table::Tally;
use map_parts::{JoinedRows, begin_join, begin_unjoin, forward, half_from, half_to, unjoin};

// Joins two strings whose far ends aren't joined, and takes it back where it breaks a rule. Gives
// the rows that go.
fn join_within_rules<T: Tally>(
    draft: &mut Draft<T>,
    point: PointNo,
    joining: Joining,
    areas: &FaceAreas,
    touched: &Touched,
) -> Result<JoinedRows, Refusal>
    requires ready { IsReadyFor (Join point joining.row.number) draft.old areas.now touched.now }
    requires apart { FarEndsAreApart (map_of draft.old) (Join point joining.row.number) }
    requires rows { IsJoiningAt (map_of draft.old) point joining }
    ensures played { IsPlayed (Join point joining.row.number) draft.old draft.new result }
    ensures point { IfOk result (λ r. r.point.number ≡ point) }
    ensures holds { IfOk result (λ r. Holds (join_record r joining.row.number) (map_of draft.old)) }
{
    is_work_in_range(&draft.table);
    let Joining { first, second, row } = joining;
    let string = row.number;
    let Ok(joined) = begin_join(
        &mut draft.rows,
        &mut draft.table,
        &mut draft.kept,
        &mut draft.stars,
        point,
        first,
        second,
        row,
    ) else {
        return Err(Refusal::Memory);
    };
    let alloc = draft.rows.points.allocator();
    if let Some(rule) = first_broken_near(alloc, draft, draft.grid(), areas, touched) {
        unjoin(
            &mut draft.rows,
            &mut draft.table,
            &mut draft.kept,
            &mut draft.stars,
            joined,
            string,
        );
        drop_hidden(draft, &[forward(&string)]);
        return Err(Refusal::Breaks(rule));
    }
    let before = half_to(&joined.first, &point);
    let behind = half_from(&joined.second, &point);
    drop_hidden(draft, &[before, behind]);
    Ok(joined)
}

// The record of a join that took these rows and brought the string.
fn record_of_join(joined: JoinedRows, string: StringNo) -> SmallRecord
    ensures { result ≡ join_record joined string }
{
    SmallRecord::Join {
        row: joined.point,
        place: joined.point_place,
        first: joined.first,
        first_place: joined.first_place,
        second: joined.second,
        second_place: joined.second_place,
        string,
    }
}

/// Joins the two strings at a point, and takes it back where it breaks a rule. The grid holds the
/// strings and points of the map after it.
///
/// Where the far ends are joined already, nothing is tried: the join breaks the rule on strings that
/// meet.
pub(crate) fn try_join<T: Tally>(
    draft: &mut Draft<T>,
    point: PointNo,
    string: StringNo,
    areas: &FaceAreas,
    touched: &Touched,
) -> Result<SmallRecord, Refusal>
    requires { IsReadyFor (Join point string) draft.old areas.now touched.now }
    ensures { IsTrialOf (Join point string) draft.old draft.new result }
{
    if are_far_ends_joined(draft, point) {
        return Err(Refusal::Breaks(Rule::V4));
    }
    let Ok(joining) = joining_at(draft, point, string) else {
        return Err(Refusal::Memory);
    };
    match join_within_rules(draft, point, joining, areas, touched) {
        Ok(joined) => Ok(record_of_join(joined, string)),
        Err(refusal) => Err(refusal),
    }
}

// The rows that a join took and the string that it brought, from its record.
fn rows_of_join(change: &SmallRecord) -> Result<(JoinedRows, StringNo), Memory>
    requires { IsOfJoin change.now }
    ensures { IfOk result (λ r. change.now ≡ join_record r.0 r.1) }
{
    let SmallRecord::Join {
        row,
        place,
        first,
        first_place,
        second,
        second_place,
        string,
    } = change
    else {
        unreachable!()
    };
    let joined = JoinedRows {
        point: row.copy()?,
        point_place: *place,
        first: first.copy()?,
        first_place: *first_place,
        second: second.copy()?,
        second_place: *second_place,
    };
    Ok((joined, *string))
}

// Takes a join back, with the rows that it took and the string that it brought.
fn unjoin_with<T: Tally>(
    draft: &mut Draft<T>,
    joined: JoinedRows,
    string: StringNo,
) -> Result<(), Memory>
    requires given { GivesInRange (Join joined.point.number string) }
    requires beside { StandsBeside (λ m. Belongs (join_record joined string) m (map_of draft.old)) draft.old }
    ensures { IsTakenBack (λ m. Belongs (join_record joined string) m (map_of draft.old))
        draft.old draft.new result }
{
    is_work_in_range(&draft.table);
    begin_unjoin(
        &mut draft.rows,
        &mut draft.table,
        &mut draft.kept,
        &mut draft.stars,
        joined,
        string,
    )?;
    drop_hidden(draft, &[forward(&string)]);
    Ok(())
}

/// Takes a join back: puts the point and the two strings in at their places again. Where memory runs
/// out the map stays.
pub(crate) fn back_join<T: Tally>(draft: &mut Draft<T>, change: &SmallRecord) -> Result<(), Memory>
    requires join { IsOfJoin change.now }
    requires given { GivesInRange (edit_of change.now) }
    requires beside { StandsBeside (λ m. Belongs change.now m (map_of draft.old)) draft.old }
    ensures { IsTakenBack (λ m. Belongs change.now m (map_of draft.old))
        draft.old draft.new result }
{
    let (joined, string) = rows_of_join(change)?;
    unjoin_with(draft, joined, string)
}

// Joins two strings whose far ends aren't joined, where the map after it keeps the rules.
fn join_again<T: Tally>(
    draft: &mut Draft<T>,
    point: PointNo,
    joining: Joining,
) -> Result<(), Memory>
    requires tried { IsTried (map_of draft.old) (Join point joining.row.number) }
    requires apart { FarEndsAreApart (map_of draft.old) (Join point joining.row.number) }
    requires rows { IsJoiningAt (map_of draft.old) point joining }
    requires proper { IsProper (map_of draft.old) draft.old.table.rows (kept_at draft.old) }
    ensures { IsMade (Join point joining.row.number) draft.old draft.new result }
{
    is_work_in_range(&draft.table);
    let joined = begin_join(
        &mut draft.rows,
        &mut draft.table,
        &mut draft.kept,
        &mut draft.stars,
        point,
        joining.first,
        joining.second,
        joining.row,
    )?;
    let first = half_to(&joined.first, &point);
    let second = half_from(&joined.second, &point);
    drop_hidden(draft, &[first, second]);
    Ok(())
}

/// Joins two strings again. Where memory runs out the map stays.
pub(crate) fn forward_join<T: Tally>(
    draft: &mut Draft<T>,
    point: PointNo,
    string: StringNo,
) -> Result<(), Memory>
    requires tried { IsTried (map_of draft.old) (Join point string) }
    requires leads { IsValid (after (map_of draft.old) (Join point string)) }
    requires proper { IsProper (map_of draft.old) draft.old.table.rows (kept_at draft.old) }
    ensures { IsMade (Join point string) draft.old draft.new result }
{
    let joining = joining_at(draft, point, string)?;
    join_again(draft, point, joining)
}
