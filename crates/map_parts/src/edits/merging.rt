//! Two parcels merged in place along a chain, with the room that it takes, and the merger taken back:
//! rows, stars, table and kept halves.
ghost use Rattle.std.specs.Prelude.{◌≡◌, ◌∷◌, length};
ghost use Rattle.std.specs.Prelude.{IfOk, OnOk, OnErr};
ghost use Rattle.cad_map.specs.Chain.{leaving};
ghost use Rattle.half_table.specs.declared.half.Half.{Half as HalfOf};
ghost use Rattle.half_table.specs.Count.{ticked};
ghost use Rattle.half_table.specs.Rows.{next, has};
ghost use Rattle.half_paths.specs.Loose.{AreLoose};
ghost use Rattle.map_parts.specs.FaceTicks.{ticks_to_bring_across, ticks_to_take_across};
ghost use Rattle.map_parts.specs.Handing.{KeepsEnds};
ghost use Rattle.map_parts.specs.Labels.{IsAlong};
ghost use Rattle.map_parts.specs.Merging.{CanBeginMerge, CanBeginUnmerge, CanUnmerge, HaveGone, merged};
ghost use Rattle.map_parts.specs.Merging.{first_corner, last_corner};
ghost use Rattle.map_parts.specs.PlacedStrings.{numbers_placed};
ghost use Rattle.cad_map.specs.MapRows.{map_in};
ghost use Rattle.map_parts.specs.Splitting.{FitMap};
ghost use Rattle.map_parts.specs.TableGrown.{CameAndWent, HasBesides, KeepsOrigins};

use crate::edits::divide::{bring_across, take_across};
use crate::edits::ended::{end_with_room, put_ended};
use crate::edits::merging_tried::{EndedParcel, make_unmerge_room};
use crate::edits::placed_strings::PlacedString;
use crate::stars::Spoke;
use cad_map::MapRows;
use cad_rows::{Face, Memory, ParcelNo, ParcelRow, StringNo};
use half_table::{Half, HalfTable, Tally};
use key_lists::KeyLists;

/// Merges a parcel into a face along the chain of strings that they share, with the room that it
/// takes: the strings and the parcel go from the rows, and its number is retired. Its rings are the
/// kept face's. The strings stay in the table, loose. All that goes is given, each row with its
/// place, and can come back without memory, with the halves that follow the chain's two ends. It
/// takes time by the strings, by the parcel's rings, and by the rings of the kept face.
///
/// # Errors
///
/// Where memory runs out the map stays, and so does the table.
pub fn begin_merge_along<T: Tally>(
    rows: &mut MapRows,
    table: &mut HalfTable<T>,
    kept: &mut KeyLists<Half>,
    stars: &mut KeyLists<Spoke>,
    keeper: &Face,
    ended: ParcelNo,
    strings: &[StringNo],
    first: &Half,
    rest: &[Half],
    moved: &[Half],
) -> Result<EndedParcel, Memory>
    requires { CanBeginMerge keeper.now ended strings.now (first.now ∷ rest.now) moved.now
        rows.old table.old.rows kept.old stars.old }
    ensures fits { (can : CanBeginMerge keeper.now ended strings.now (first.now ∷ rest.now) moved.now
        rows.old table.old.rows kept.old stars.old)
        → OnOk result (FitMap (merged can.is) rows.new table.new.rows kept.new stars.new) }
    ensures err { (can : CanBeginMerge keeper.now ended strings.now (first.now ∷ rest.now) moved.now
        rows.old table.old.rows kept.old stars.old)
        → OnErr result (FitMap can.map rows.new table.new.rows kept.new stars.new) }
    ensures err_table { OnErr result (table.new ≡ table.old) }

    // It can be taken back.
    ensures back { (can : CanBeginMerge keeper.now ended strings.now (first.now ∷ rest.now) moved.now
        rows.old table.old.rows kept.old stars.old) → (start end : HalfOf)
        → IsAlong (merged can.is) table.old.rows (leaving (first_corner can.is)) start
        → IsAlong (merged can.is) table.old.rows (leaving (last_corner can.is)) end
        → IfOk result (λ r. (undo : CanUnmerge keeper.now r.row r.place (first.now ∷ rest.now) start
        end moved.now r.strings.items rows.new table.new.rows kept.new stars.new)
        × (undo.map ≡ can.map)) }

    ensures gone { IfOk result (λ r. HaveGone (map_in rows.old) ended strings.now r.row r.place
        r.strings.items) }
    ensures loose { OnOk result (AreLoose (next table.new.rows) (first.now ∷ rest.now)) }
    ensures halves { KeepsEnds table.old.rows table.new.rows }
    ensures work { OnOk result (table.new.work
        ≡ ticked (ticks_to_take_across table.old.rows first.now rest.now moved.now)
        table.old.work) }
{
    let gone = end_with_room(rows, kept, stars, keeper, ended, strings)?;
    let inner = Face::Parcel(ended);
    take_across(table, kept, first, rest, keeper, &inner, moved);
    Ok(gone)
}

/// Takes a merger along a chain back: the strings and the parcel come back where they stood, and
/// left of the chain is the parcel's ring. The rings of the moved halves are the parcel's again. It
/// takes no memory, and time by the strings, by the parcel's rings, and by the rings of the kept
/// face.
pub fn unmerge_along<T: Tally>(
    rows: &mut MapRows,
    table: &mut HalfTable<T>,
    kept: &mut KeyLists<Half>,
    stars: &mut KeyLists<Spoke>,
    keeper: &Face,
    row: ParcelRow,
    place: usize,
    first: &Half,
    rest: &[Half],
    start: &Half,
    end: &Half,
    moved: &[Half],
    gone: &mut Vec<PlacedString>,
)
    requires { CanUnmerge keeper.now row place (first.now ∷ rest.now) start.now end.now moved.now
        gone.old.items rows.old table.old.rows kept.old stars.old }
    ensures fits { (can : CanUnmerge keeper.now row place (first.now ∷ rest.now) start.now end.now
        moved.now gone.old.items rows.old table.old.rows kept.old stars.old)
        → FitMap can.map rows.new table.new.rows kept.new stars.new }
    ensures halves { KeepsEnds table.old.rows table.new.rows }
    ensures work { table.new.work
        ≡ ticked (ticks_to_bring_across table.new.rows first.now rest.now moved.now)
        table.old.work }
{
    let inner = Face::Parcel(row.number);
    bring_across(table, kept, first, rest, start, end, keeper, &inner, moved);
    put_ended(rows, stars, row, place, gone);
}

/// Takes a merger along a chain back, with the room that it takes and its strings in the table.
///
/// # Errors
///
/// Where memory runs out the map stays, and the table has the strings that it had.
pub fn begin_unmerge_along<T: Tally>(
    rows: &mut MapRows,
    table: &mut HalfTable<T>,
    kept: &mut KeyLists<Half>,
    stars: &mut KeyLists<Spoke>,
    keeper: &Face,
    gone: EndedParcel,
    first: &Half,
    rest: &[Half],
    start: &Half,
    end: &Half,
    moved: &[Half],
) -> Result<(), Memory>
    requires { CanBeginUnmerge keeper.now gone.row gone.place (first.now ∷ rest.now) start.now
        end.now moved.now gone.strings.items rows.old table.old.rows kept.old stars.old }
    ensures fits { (can : CanBeginUnmerge keeper.now gone.row gone.place (first.now ∷ rest.now)
        start.now end.now moved.now gone.strings.items rows.old table.old.rows kept.old stars.old)
        → OnOk result (FitMap can.map rows.new table.new.rows kept.new stars.new) }
    ensures err { (can : CanBeginUnmerge keeper.now gone.row gone.place (first.now ∷ rest.now)
        start.now end.now moved.now gone.strings.items rows.old table.old.rows kept.old stars.old)
        → OnErr result (FitMap (merged can.is) rows.new table.new.rows kept.new stars.new) }
    ensures err_table { OnErr result (table.new.rows ≡ table.old.rows) }
    ensures has { OnOk result (HasBesides (numbers_placed gone.strings.items)
        table.old.rows table.new.rows) }
    ensures origin { OnOk result (KeepsOrigins table.old.rows table.new.rows) }
    ensures work { OnOk result (table.new.work
        ≡ ticked (ticks_to_bring_across table.new.rows first.now rest.now moved.now)
        (ticked (length gone.strings.items) table.old.work)) }
    ensures err_work { OnErr result (CameAndWent (length gone.strings.items)
        table.old.work table.new.work) }
{
    make_unmerge_room(rows, table, kept, stars, keeper, &gone)?;
    let EndedParcel {
        row,
        place,
        mut strings,
    } = gone;
    unmerge_along(
        rows,
        table,
        kept,
        stars,
        keeper,
        row,
        place,
        first,
        rest,
        start,
        end,
        moved,
        &mut strings,
    );
    Ok(())
}
