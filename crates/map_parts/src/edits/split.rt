//! A string split at a new point, with the room that it takes, and the split taken back, in place.
ghost use Rattle.std.specs.Prelude.{◌≡◌, ◌≢◌, ◌+◌, ◌++◌, ◌∷◌, [], ℕ, true, Some, None, IsSome, ◌≤◌, length, insert, slice_get};
ghost use Rattle.std.specs.Prelude.{OnErr, IfOk, OnOk};
ghost use Rattle.half_table.specs.declared.half.Half.{Half as HalfOf};
ghost use Rattle.half_table.specs.Count.{ticked};
ghost use Rattle.half_table.specs.Half.{forward_of, backward_of};
ghost use Rattle.half_table.specs.Rows.{next, has, origin_of, strings};
ghost use Rattle.half_paths.specs.Loose.{AreLoose};
ghost use Rattle.entry_list.specs.Slots.{HasSlot};
ghost use Rattle.cad_map.specs.Effects.{after};
ghost use Rattle.cad_map.specs.Map.{point_of, string_of};
ghost use Rattle.numbered_rows.specs.Rows.{without_row};
ghost use Rattle.cad_rows.specs.declared.edits.Edit.TheVariants.{Split};
ghost use Rattle.map_parts.specs.FaceTicks.{ticks_to_pass};
ghost use Rattle.map_parts.specs.Parts.{HasHalves};
ghost use Rattle.map_parts.specs.Passing.{path_of};
ghost use Rattle.cad_map.specs.MapRows.{map_in};
ghost use Rattle.map_parts.specs.Splitting.{CanBeginSplit, CanBeginUnsplit, CanUnsplit, FitMap};
ghost use Rattle.map_parts.specs.TableGrown.{HasBesides};

use crate::edits::passing::{Passing, go_past, go_through};
use crate::edits::rooms::{add_path, add_string};
use crate::edits::spokes::{join_spokes, part_spokes};
use crate::stars::Spoke;
use cad_map::MapRows;
use cad_rows::{Memory, PointNo, PointRow, StringNo, StringRow};
use half_table::{Half, HalfTable, Tally};
use key_lists::KeyLists;

/// The half of a string from its first point to its second.
pub fn forward(string: &StringNo) -> Half
    ensures { result ≡ forward_of string.now }
{
    Half {
        string: *string,
        forward: true,
    }
}

// The halves of a string and of the two in its place.
fn path(string: &StringNo, first: &StringNo, second: &StringNo) -> Passing
    ensures { result ≡ path_of string.now first.now second.now }
{
    Passing {
        first: forward(first),
        second: forward(second),
        whole: forward(string),
    }
}

// The row of a string out, with its place, and those of a point and of two strings in.
fn split_rows(
    rows: &mut MapRows,
    string: StringNo,
    point: PointRow,
    first: StringRow,
    second: StringRow,
) -> (usize, StringRow)
    requires there { IsSome (string_of (map_in rows.old) string) }
    requires no_point { point_of (map_in rows.old) point.number ≡ None }
    requires no_first { string_of (map_in rows.old) first.number ≡ None }
    requires no_second { string_of (map_in rows.old) second.number ≡ None }
    requires differ { first.number ≢ second.number }
    requires point_slot { HasSlot rows.old.points point.number }
    requires first_slot { HasSlot rows.old.strings first.number }
    requires second_slot { HasSlot rows.old.strings second.number }
    ensures rows { map_in rows.new ≡ record (map_in rows.old) {
      points = (map_in rows.old).points ++ point ∷ [];
      strings = (without_row (λ r. r.number) string (map_in rows.old).strings ++ first ∷ []) ++ second ∷ [];
    } }
    ensures row { slice_get (map_in rows.old).strings result.0 ≡ Some result.1 }
    ensures found { string_of (map_in rows.old) string ≡ Some result.1 }
    ensures slot { HasSlot rows.new.strings result.1.number }
{
    let taken = rows.strings.take_there(string.get());
    rows.points.put_last(point);
    rows.strings.put_last(first);
    rows.strings.put_last(second);
    taken
}

/// Splits a string at a new point, with the room that it takes, and gives the string's row with its
/// place. The string stays in the table, loose. It takes time by the two rings through the point, by
/// the rings of their faces, and by the strings at the string's ends.
///
/// # Errors
///
/// Where memory runs out the map stays, and the table has the strings that it had.
pub fn begin_split<T: Tally>(
    rows: &mut MapRows,
    table: &mut HalfTable<T>,
    kept: &mut KeyLists<Half>,
    stars: &mut KeyLists<Spoke>,
    string: StringNo,
    point: PointRow,
    first: StringRow,
    second: StringRow,
) -> Result<(usize, StringRow), Memory>
    requires { CanBeginSplit string point first second rows.old table.old.rows kept.old stars.old }
    ensures fits { (can : CanBeginSplit string point first second rows.old table.old.rows kept.old
        stars.old) → OnOk result (FitMap (after can.map (Split string point.number
        point.position.x point.position.y first.number second.number))
        rows.new table.new.rows kept.new stars.new) }
    ensures err { (can : CanBeginSplit string point first second rows.old table.old.rows kept.old
        stars.old) → OnErr result (FitMap can.map rows.new table.new.rows kept.new stars.new) }
    ensures err_table { OnErr result (table.new.rows ≡ table.old.rows) }
    ensures row { IfOk result (λ r. slice_get (map_in rows.old).strings r.0 ≡ Some r.1) }
    ensures found { IfOk result (λ r. string_of (map_in rows.old) string ≡ Some r.1) }
    ensures slot { IfOk result (λ r. HasSlot rows.new.strings r.1.number) }
    ensures there { IfOk result (λ r. HasHalves table.new.rows r.1) }
    ensures loose { OnOk result (AreLoose (next table.new.rows) (forward_of string ∷ [])) }
    ensures has { OnOk result (HasBesides (first.number ∷ second.number ∷ [])
        table.old.rows table.new.rows) }
    ensures work { OnOk result (table.new.work
        ≡ ticked (2 + ticks_to_pass table.new.rows (forward_of first.number)
        (backward_of second.number)) table.old.work) }
    ensures err_work { OnErr result ((count : ℕ) × (count ≤ 2)
        × (table.new.work ≡ ticked count table.old.work)) }
{
    add_path(rows, table, stars, point.number, &first, &second)?;
    let halves = path(&string, &first.number, &second.number);
    go_through(table, kept, &halves);
    part_spokes(stars, rows.string(string), &first, &second);
    Ok(split_rows(rows, string, point, first, second))
}

// The rows of a point and of two strings out, and that of a string in at its place.
fn unsplit_rows(
    rows: &mut MapRows,
    row: StringRow,
    place: usize,
    point: PointNo,
    first: StringNo,
    second: StringNo,
)
    requires point { IsSome (point_of (map_in rows.old) point) }
    requires first { IsSome (string_of (map_in rows.old) first) }
    requires second { IsSome (string_of (map_in rows.old) second) }
    requires differ { first ≢ second }
    requires absent { string_of (map_in rows.old) row.number ≡ None }
    requires place { place ≤ length (without_row (λ r. r.number) first
        (without_row (λ r. r.number) second (map_in rows.old).strings)) }
    requires slot { HasSlot rows.old.strings row.number }
    ensures { map_in rows.new ≡ record (map_in rows.old) {
      points = without_row (λ r. r.number) point (map_in rows.old).points;
      strings = insert (without_row (λ r. r.number) first
          (without_row (λ r. r.number) second (map_in rows.old).strings)) place row;
    } }
{
    rows.strings.take_both(second.get(), first.get());
    rows.strings.put_at(row, place);
    rows.points.take_there(point.get());
}

/// Takes a split back: puts the string in at its place again, and takes the new point and the two
/// new strings out, which are loose in the table then. It takes no memory, and time by the two rings
/// along the string, by the rings of their faces, and by the strings at its ends.
pub fn unsplit<T: Tally>(
    rows: &mut MapRows,
    table: &mut HalfTable<T>,
    kept: &mut KeyLists<Half>,
    stars: &mut KeyLists<Spoke>,
    row: StringRow,
    place: usize,
    point: PointNo,
    first: StringNo,
    second: StringNo,
)
    requires { CanUnsplit row place point first second rows.old table.old.rows kept.old stars.old }
    ensures fits { (can : CanUnsplit row place point first second rows.old table.old.rows kept.old stars.old)
        → FitMap can.map rows.new table.new.rows kept.new stars.new }
    ensures loose { AreLoose (next table.new.rows) (forward_of first ∷ forward_of second ∷ []) }
    ensures has { (h : HalfOf) → has table.new.rows h ≡ has table.old.rows h }
    ensures origin { (h : HalfOf) → origin_of table.new.rows h ≡ origin_of table.old.rows h }
    ensures strings { strings table.new.rows ≡ strings table.old.rows }
    ensures work { table.new.work
        ≡ ticked (ticks_to_pass table.new.rows (forward_of row.number) (backward_of row.number))
        table.old.work }
{
    let halves = path(&row.number, &first, &second);
    go_past(table, kept, &halves);
    let first_row = rows.string(first);
    let second_row = rows.string(second);
    join_spokes(stars, &row, first_row, second_row);
    unsplit_rows(rows, row, place, point, first, second);
}

/// Takes a split back, with the room that it takes: puts the string in at its place again. The two
/// strings that the split brought stay in the table, loose.
///
/// # Errors
///
/// Where memory runs out the map stays, and so does the table.
pub fn begin_unsplit<T: Tally>(
    rows: &mut MapRows,
    table: &mut HalfTable<T>,
    kept: &mut KeyLists<Half>,
    stars: &mut KeyLists<Spoke>,
    row: StringRow,
    place: usize,
    point: PointNo,
    first: StringNo,
    second: StringNo,
) -> Result<(), Memory>
    requires { CanBeginUnsplit row place point first second rows.old table.old.rows kept.old
        stars.old }
    ensures fits { (can : CanBeginUnsplit row place point first second rows.old table.old.rows
        kept.old stars.old)
        → OnOk result (FitMap can.map rows.new table.new.rows kept.new stars.new) }
    ensures err { (can : CanBeginUnsplit row place point first second rows.old table.old.rows
        kept.old stars.old) → OnErr result (FitMap
        (after can.map (Split row.number point can.x can.y first second))
        rows.new table.new.rows kept.new stars.new) }
    ensures err_table { OnErr result (table.new ≡ table.old) }
    ensures loose { OnOk result (AreLoose (next table.new.rows)
        (forward_of first ∷ forward_of second ∷ [])) }
    ensures has { OnOk result (HasBesides (row.number ∷ []) table.old.rows table.new.rows) }
    ensures work { OnOk result (table.new.work
        ≡ ticked (1 + ticks_to_pass table.new.rows (forward_of row.number)
        (backward_of row.number)) table.old.work) }
{
    add_string(rows, table, &row)?;
    unsplit(rows, table, kept, stars, row, place, point, first, second);
    Ok(())
}
