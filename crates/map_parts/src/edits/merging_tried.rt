//! What goes by a merger, and the room that it takes to come back.
ghost use Rattle.std.specs.Prelude.{◌≡◌, nat_eq, map, length, IfOk, OnOk, OnErr};
ghost use Rattle.std.specs.List.{IsDistinct};
ghost use Rattle.half_table.specs.Count.{ticked};
ghost use Rattle.half_table.specs.Rows.{IsLinked};
ghost use Rattle.half_paths.specs.Loose.{AreNew};
ghost use Rattle.map_parts.specs.Adding.{AreAdded, IsSeenAs};
ghost use Rattle.map_parts.specs.Merging.{bare_row, rows_gone};
ghost use Rattle.map_parts.specs.PlacedStrings.{numbers_placed};
ghost use Rattle.map_parts.specs.TableGrown.{CameAndWent};

use crate::edits::parcel_rooms::add_with_room;
use crate::edits::placed_strings::PlacedString;
use crate::stars::Spoke;
use cad_map::MapRows;
use cad_rows::{Face, Memory, Numbers, ParcelNo, ParcelRow, StringRow};
use half_table::{Half, HalfTable, Tally};
use key_lists::KeyLists;
use std::alloc::Global;

/// What goes by a merger: the ended parcel's row and its place, and the strings with theirs.
#[derive(Drop)]
pub struct EndedParcel {
    pub row: ParcelRow,
    pub place: usize,
    pub strings: Vec<PlacedString>,
}

// The strings that went, without their sources.
fn bare_rows(alloc: Global, gone: &[PlacedString]) -> Result<Vec<StringRow>, Memory>
    ensures { IfOk result (λ rows. rows.items ≡ map bare_row (rows_gone gone.now)) }
{
    let mut rows = Vec::new(alloc);
    for place in 0..gone.len() {
        let row = &gone[place].row;
        rows.push(StringRow {
            number: row.number,
            from: row.from,
            to: row.to,
            sources: Numbers::new(alloc),
        })?;
    }
    Ok(rows)
}

/// Sees that what a merger took can come back without memory, and adds its strings to the table,
/// loose. Where memory runs out, the table has the strings that it had.
pub(crate) fn make_unmerge_room<T: Tally>(
    rows: &mut MapRows,
    table: &mut HalfTable<T>,
    kept: &mut KeyLists<Half>,
    stars: &mut KeyLists<Spoke>,
    keeper: &Face,
    gone: &EndedParcel,
) -> Result<(), Memory>
    requires linked { IsLinked table.old.rows }
    requires new { AreNew table.old.rows (rows_gone gone.now.strings.items) }
    requires different { IsDistinct nat_eq (numbers_placed gone.now.strings.items) }
    ensures seen { IsSeenAs rows.old rows.new kept.old kept.new stars.old stars.new }
    ensures added { OnOk result (AreAdded (rows_gone gone.now.strings.items) keeper.now
        gone.now.row.number rows.old rows.new table.old.rows table.new.rows kept.old kept.new
        stars.old stars.new) }
    ensures err { OnErr result (table.new.rows ≡ table.old.rows) }
    ensures work { OnOk result
        (table.new.work ≡ ticked (length gone.now.strings.items) table.old.work) }
    ensures err_work { OnErr result (CameAndWent (length gone.now.strings.items)
        table.old.work table.new.work) }
{
    let bare = bare_rows(rows.strings.allocator(), gone.strings.as_slice())?;
    let parcel = gone.row.number;
    add_with_room(rows, table, kept, stars, keeper, bare.as_slice(), parcel)
}
