//! Two strings joined at a point, with the room that it takes, and the join taken back, in place.
ghost use Rattle.std.specs.Prelude.{◌≡◌, ◌≢◌, ◌≤◌, ◌+◌, ◌++◌, ◌∷◌, ◌==◌, [], ℕ, not, None, IsSome, length, insert};
ghost use Rattle.std.specs.Prelude.{OnErr, IfOk, OnOk};
ghost use Rattle.half_table.specs.declared.half.Half.{Half as HalfOf};
ghost use Rattle.half_table.specs.Count.{ticked};
ghost use Rattle.half_table.specs.Half.{half_of, twin, forward_of, backward_of};
ghost use Rattle.half_table.specs.Rows.{next, has, origin_of, strings};
ghost use Rattle.half_paths.specs.Loose.{AreLoose};
ghost use Rattle.entry_list.specs.Slots.{HasSlot};
ghost use Rattle.key_lists.specs.Held.{HasRoomAt};
ghost use Rattle.cad_map.specs.Effects.{after};
ghost use Rattle.cad_map.specs.Map.{point_of, string_of};
ghost use Rattle.numbered_rows.specs.Rows.{without_row};
ghost use Rattle.cad_rows.specs.declared.edits.Edit.TheVariants.{Join};
ghost use Rattle.map_parts.specs.FaceTicks.{ticks_to_pass};
ghost use Rattle.map_parts.specs.Joined.{CanBePutBack, CanBeginJoin, CanBeginUnjoin, CanUnjoin, HaveJoined};
ghost use Rattle.map_parts.specs.Parts.{HasHalves};
ghost use Rattle.map_parts.specs.Passing.{path_at};
ghost use Rattle.cad_map.specs.MapRows.{map_in};
ghost use Rattle.map_parts.specs.Splitting.{FitMap};
ghost use Rattle.map_parts.specs.TableGrown.{HasBesides};

use crate::edits::passing::{Passing, go_past, go_through};
use crate::edits::rooms::{add_path, add_string};
use crate::edits::split::forward;
use crate::edits::spokes::{join_spokes, part_spokes};
use crate::stars::Spoke;
use cad_map::MapRows;
use cad_rows::{Memory, PointNo, PointRow, StringNo, StringRow};
use half_table::{Half, HalfTable, Tally};
use key_lists::KeyLists;

/// What a join takes out of the map: the point's row and the rows of its two strings, the
/// lower-numbered first, each with the place where it stood, the second where the first was out.
#[derive(Drop)]
pub struct JoinedRows {
    pub point: PointRow,
    pub point_place: usize,
    pub first: StringRow,
    pub first_place: usize,
    pub second: StringRow,
    pub second_place: usize,
}

/// The half of a string that leads to the point where it ends.
pub fn half_to(row: &StringRow, point: &PointNo) -> Half
    ensures { result ≡ half_of row.now.number (not (row.now.from == point.now)) }
{
    Half {
        string: row.number,
        forward: row.from != *point,
    }
}

/// The half of a string that leads from the point where it ends.
pub fn half_from(row: &StringRow, point: &PointNo) -> Half
    ensures { result ≡ half_of row.now.number (row.now.from == point.now) }
{
    Half {
        string: row.number,
        forward: row.from == *point,
    }
}

// The halves of a path of two strings through a point, and of the string in its place.
fn path(first: &StringRow, second: &StringRow, point: &PointNo, whole: &StringNo) -> Passing
    ensures { result ≡ path_at point.now first.now second.now whole.now }
{
    Passing {
        first: half_to(first, point),
        second: half_from(second, point),
        whole: forward(whole),
    }
}

// The rows of a point and of two strings out, with their places, and that of one string in.
fn join_rows(
    rows: &mut MapRows,
    point: PointNo,
    first: StringNo,
    second: StringNo,
    row: StringRow,
) -> JoinedRows
    requires point { IsSome (point_of (map_in rows.old) point) }
    requires first { IsSome (string_of (map_in rows.old) first) }
    requires second { IsSome (string_of (map_in rows.old) second) }
    requires differ { first ≢ second }
    requires absent { string_of (map_in rows.old) row.number ≡ None }
    requires slot { HasSlot rows.old.strings row.number }
    ensures rows { map_in rows.new ≡ record (map_in rows.old) {
      points = without_row (λ r. r.number) point (map_in rows.old).points;
      strings = without_row (λ r. r.number) second
          (without_row (λ r. r.number) first (map_in rows.old).strings) ++ row ∷ [];
    } }
    ensures taken { HaveJoined (map_in rows.old) point first second result }
    ensures slots { CanBePutBack result rows.new }
{
    let ((first_place, first), (second_place, second)) = rows
        .strings
        .take_both(first.get(), second.get());
    let (point_place, point) = rows.points.take_there(point.get());
    rows.strings.put_last(row);
    JoinedRows {
        point,
        point_place,
        first,
        first_place,
        second,
        second_place,
    }
}

/// Joins the two strings that end at a point, the lower-numbered first, with the room that it takes,
/// and gives the rows that go, with their places. The two strings stay in the table, loose. It takes
/// time by the two rings through the point, by the rings of their faces, and by the strings at the
/// three points.
///
/// # Errors
///
/// Where memory runs out the map stays, and so does the table.
pub fn begin_join<T: Tally>(
    rows: &mut MapRows,
    table: &mut HalfTable<T>,
    kept: &mut KeyLists<Half>,
    stars: &mut KeyLists<Spoke>,
    point: PointNo,
    first: StringNo,
    second: StringNo,
    row: StringRow,
) -> Result<JoinedRows, Memory>
    requires { CanBeginJoin point first second row rows.old table.old.rows kept.old stars.old }
    ensures fits { (can : CanBeginJoin point first second row rows.old table.old.rows kept.old stars.old)
        → OnOk result (FitMap (after can.map (Join point row.number))
        rows.new table.new.rows kept.new stars.new) }
    ensures err { (can : CanBeginJoin point first second row rows.old table.old.rows kept.old stars.old)
        → OnErr result (FitMap can.map rows.new table.new.rows kept.new stars.new) }
    ensures err_table { OnErr result (table.new ≡ table.old) }
    ensures taken { IfOk result (HaveJoined (map_in rows.old) point first second) }
    ensures slots { IfOk result (λ r. CanBePutBack r rows.new) }
    ensures room { OnOk result (HasRoomAt stars.new point 2) }
    ensures first_there { IfOk result (λ r. HasHalves table.new.rows r.first) }
    ensures second_there { IfOk result (λ r. HasHalves table.new.rows r.second) }
    ensures loose { IfOk result (λ r. AreLoose (next table.new.rows)
        ((path_at point r.first r.second row.number).first
        ∷ (path_at point r.first r.second row.number).second ∷ [])) }
    ensures has { OnOk result (HasBesides (row.number ∷ []) table.old.rows table.new.rows) }
    ensures work { OnOk result (table.new.work
        ≡ ticked (1 + ticks_to_pass table.new.rows (forward_of row.number)
        (backward_of row.number)) table.old.work) }
{
    add_string(rows, table, &row)?;
    let first_row = rows.string(first);
    let second_row = rows.string(second);
    let halves = path(first_row, second_row, &point, &row.number);
    go_past(table, kept, &halves);
    join_spokes(stars, &row, first_row, second_row);
    Ok(join_rows(rows, point, first, second, row))
}

// The row of a string out, and those of two strings and of a point in at their places.
fn unjoin_rows(rows: &mut MapRows, joined: JoinedRows, new: StringNo)
    requires new { IsSome (string_of (map_in rows.old) new) }
    requires no_point { point_of (map_in rows.old) joined.point.number ≡ None }
    requires no_first { string_of (map_in rows.old) joined.first.number ≡ None }
    requires no_second { string_of (map_in rows.old) joined.second.number ≡ None }
    requires differ { joined.first.number ≢ joined.second.number }
    requires point_place { joined.point_place ≤ length (map_in rows.old).points }
    requires second_place { joined.second_place
        ≤ length (without_row (λ r. r.number) new (map_in rows.old).strings) }
    requires first_place { joined.first_place ≤ length (insert
        (without_row (λ r. r.number) new (map_in rows.old).strings) joined.second_place joined.second) }
    requires point_slot { HasSlot rows.old.points joined.point.number }
    requires first_slot { HasSlot rows.old.strings joined.first.number }
    requires second_slot { HasSlot rows.old.strings joined.second.number }
    ensures { map_in rows.new ≡ record (map_in rows.old) {
      points = insert (map_in rows.old).points joined.point_place joined.point;
      strings = insert (insert (without_row (λ r. r.number) new (map_in rows.old).strings)
          joined.second_place joined.second) joined.first_place joined.first;
    } }
{
    let JoinedRows {
        point,
        point_place,
        first,
        first_place,
        second,
        second_place,
    } = joined;
    rows.strings.take_there(new.get());
    rows.strings.put_at(second, second_place);
    rows.strings.put_at(first, first_place);
    rows.points.put_at(point, point_place);
}

/// Takes a join back: puts the point and the two strings in at their places again, and takes the
/// new string out, which is loose in the table then. It takes no memory, and time by the two rings
/// through the point, by the rings of their faces, and by the strings at the far ends.
pub fn unjoin<T: Tally>(
    rows: &mut MapRows,
    table: &mut HalfTable<T>,
    kept: &mut KeyLists<Half>,
    stars: &mut KeyLists<Spoke>,
    joined: JoinedRows,
    new: StringNo,
)
    requires { CanUnjoin joined new rows.old table.old.rows kept.old stars.old }
    ensures fits { (can : CanUnjoin joined new rows.old table.old.rows kept.old stars.old)
        → FitMap can.map rows.new table.new.rows kept.new stars.new }
    ensures loose { AreLoose (next table.new.rows) (forward_of new ∷ []) }
    ensures has { (h : HalfOf) → has table.new.rows h ≡ has table.old.rows h }
    ensures origin { (h : HalfOf) → origin_of table.new.rows h ≡ origin_of table.old.rows h }
    ensures strings { strings table.new.rows ≡ strings table.old.rows }
    ensures work { let path = path_at joined.point.number joined.first joined.second new in
        table.new.work ≡ ticked (ticks_to_pass table.new.rows path.first (twin path.second))
        table.old.work }
{
    let halves = path(&joined.first, &joined.second, &joined.point.number, &new);
    go_through(table, kept, &halves);
    let whole = rows.string(new);
    part_spokes(stars, whole, &joined.first, &joined.second);
    unjoin_rows(rows, joined, new);
}

/// Takes a join back, with the room that it takes. The new string stays in the table, loose.
///
/// # Errors
///
/// Where memory runs out the map stays, and the table has the strings that it had.
pub fn begin_unjoin<T: Tally>(
    rows: &mut MapRows,
    table: &mut HalfTable<T>,
    kept: &mut KeyLists<Half>,
    stars: &mut KeyLists<Spoke>,
    joined: JoinedRows,
    string: StringNo,
) -> Result<(), Memory>
    requires { CanBeginUnjoin joined string rows.old table.old.rows kept.old stars.old }
    ensures fits { (can : CanBeginUnjoin joined string rows.old table.old.rows kept.old stars.old)
        → OnOk result (FitMap can.map rows.new table.new.rows kept.new stars.new) }
    ensures err { (can : CanBeginUnjoin joined string rows.old table.old.rows kept.old stars.old)
        → OnErr result (FitMap (after can.map (Join joined.point.number string))
        rows.new table.new.rows kept.new stars.new) }
    ensures err_table { OnErr result (table.new.rows ≡ table.old.rows) }
    ensures err_work { OnErr result ((count : ℕ) × (count ≤ 2)
        × (table.new.work ≡ ticked count table.old.work)) }
    ensures loose { OnOk result (AreLoose (next table.new.rows) (forward_of string ∷ [])) }
    ensures has { OnOk result (HasBesides (joined.first.number ∷ joined.second.number ∷ [])
        table.old.rows table.new.rows) }
    ensures work { let path = path_at joined.point.number joined.first joined.second string in
        OnOk result (table.new.work
        ≡ ticked (2 + ticks_to_pass table.new.rows path.first (twin path.second))
        table.old.work) }
{
    let first = &joined.first;
    let second = &joined.second;
    add_path(rows, table, stars, joined.point.number, first, second)?;
    unjoin(rows, table, kept, stars, joined, string);
    Ok(())
}
