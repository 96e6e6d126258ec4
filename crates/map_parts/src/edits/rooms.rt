//! Room for what an edit puts in, and its strings in the table, before the first change.
ghost use Rattle.std.specs.Prelude.{◌≡◌, ◌≢◌, ◌≤◌, ◌∷◌, [], ℕ, OnOk, OnErr};
ghost use Rattle.entry_list.specs.Slots.{HasSlot};
ghost use Rattle.half_table.specs.Count.{ticked};
ghost use Rattle.half_table.specs.Rows.{IsLinked};
ghost use Rattle.half_paths.specs.Loose.{AddsStrings, AreNew};
ghost use Rattle.key_lists.specs.Held.{IsSame};
ghost use Rattle.map_parts.specs.Adding.{HasRoomForPath};
ghost use Rattle.cad_map.specs.MapRows.{map_in};

use crate::stars::Spoke;
use cad_map::MapRows;
use cad_rows::{Memory, PointNo, StringNo, StringRow};
use half_table::{HalfTable, Tally};
use key_lists::KeyLists;

// Sees that a point and two strings that meet there can be put in without memory. The rows and the
// stars stay as they are.
fn make_room_for_path(
    rows: &mut MapRows,
    stars: &mut KeyLists<Spoke>,
    point: PointNo,
    first: StringNo,
    second: StringNo,
) -> Result<(), Memory>
    ensures rows { map_in rows.new ≡ map_in rows.old }
    ensures stars { IsSame stars.old stars.new }
    ensures room { OnOk result (HasRoomForPath point first second rows.new stars.new) }
{
    rows.points.keep_slot(point.get())?;
    rows.strings.keep_slot(first.get())?;
    rows.strings.keep_slot(second.get())?;
    stars.reserve(u64::from(point.get()), 2)?;
    Ok(())
}

/// Sees that a point and two strings that meet there can be put in without memory, and adds the
/// strings to the table, loose. Where memory runs out, the table has the strings that it had.
pub(crate) fn add_path<T: Tally>(
    rows: &mut MapRows,
    table: &mut HalfTable<T>,
    stars: &mut KeyLists<Spoke>,
    point: PointNo,
    first: &StringRow,
    second: &StringRow,
) -> Result<(), Memory>
    requires linked { IsLinked table.old.rows }
    requires new { AreNew table.old.rows (first.now ∷ second.now ∷ []) }
    requires differ { first.now.number ≢ second.now.number }
    ensures rows { map_in rows.new ≡ map_in rows.old }
    ensures stars { IsSame stars.old stars.new }
    ensures room { OnOk result
        (HasRoomForPath point first.now.number second.now.number rows.new stars.new) }
    ensures adds { OnOk result
        (AddsStrings (first.now ∷ second.now ∷ []) table.old.rows table.new.rows) }
    ensures linked { IsLinked table.new.rows }
    ensures err { OnErr result (table.new.rows ≡ table.old.rows) }
    ensures work { OnOk result (table.new.work ≡ ticked 2 table.old.work) }
    ensures err_work { OnErr result ((count : ℕ) × (count ≤ 2)
        × (table.new.work ≡ ticked count table.old.work)) }
{
    make_room_for_path(rows, stars, point, first.number, second.number)?;
    table.add_loose(first.number, first.from, first.to)?;
    if let Err(memory) = table.add_loose(second.number, second.from, second.to) {
        table.remove_loose(first.number);
        return Err(memory);
    }
    Ok(())
}

/// Sees that a string can be put in without memory between two points of which each loses one, and
/// adds it to the table, loose.
pub(crate) fn add_string<T: Tally>(
    rows: &mut MapRows,
    table: &mut HalfTable<T>,
    string: &StringRow,
) -> Result<(), Memory>
    requires linked { IsLinked table.old.rows }
    requires new { AreNew table.old.rows (string.now ∷ []) }
    ensures rows { map_in rows.new ≡ map_in rows.old }
    ensures slot { OnOk result (HasSlot rows.new.strings string.now.number) }
    ensures adds { OnOk result (AddsStrings (string.now ∷ []) table.old.rows table.new.rows) }
    ensures linked { IsLinked table.new.rows }
    ensures err { OnErr result (table.new ≡ table.old) }
    ensures work { OnOk result (table.new.work ≡ ticked 1 table.old.work) }
{
    rows.strings.keep_slot(string.number.get())?;
    table.add_loose(string.number, string.from, string.to)?;
    Ok(())
}
