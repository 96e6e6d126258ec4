//! A face divided in place, with the room that it takes, and the division taken back: rows, stars,
//! table and kept halves.
ghost use Rattle.std.specs.Prelude.{◌≡◌, ◌+◌, ◌∷◌, length};
ghost use Rattle.std.specs.Prelude.{OnOk, OnErr};
ghost use Rattle.cad_map.specs.Boundaries.{face_place as face_place_of};
ghost use Rattle.cad_rows.specs.declared.names.Face.TheVariants.{Parcel};
ghost use Rattle.half_table.specs.declared.half.Half.{Half as HalfOf};
ghost use Rattle.half_table.specs.Count.{ticked};
ghost use Rattle.half_table.specs.Rows.{next, has, origin_of};
ghost use Rattle.half_paths.specs.Loose.{numbers_of, AreLoose};
ghost use Rattle.key_lists.specs.Held.{items_at, HasRoomAt};
ghost use Rattle.map_parts.specs.Dividing.{CanBeginDivide, CanBeginUndivide, CanUndivide};
ghost use Rattle.map_parts.specs.Dividing.{divided, rings_beside};
ghost use Rattle.map_parts.specs.FaceTicks.{ticks_to_bring_across, ticks_to_take_across};
ghost use Rattle.map_parts.specs.Islands.{AreOfRings};
ghost use Rattle.map_parts.specs.Splitting.{FitMap};
ghost use Rattle.map_parts.specs.TableGrown.{CameAndWent, HasBesides, KeepsOrigins};

use crate::edits::added::{put_added, take_added};
use crate::edits::divide::{bring_across, take_across};
use crate::edits::parcel_rooms::{add_with_room, make_handing_room};
use crate::stars::Spoke;
use cad_map::MapRows;
use cad_rows::{Face, Memory, ParcelNo, ParcelRow, StringNo, StringRow};
use half_table::{Half, HalfTable, Tally};
use key_lists::KeyLists;

/// Divides a face by a chain of strings, with the room that it takes: what is left of the chain is a
/// new parcel, and the rings of the moved halves are the parcel's. All that comes can be taken out
/// again without memory. It takes time by the new strings, by the parcel's rings, and by the rings of
/// the face.
///
/// # Errors
///
/// Where memory runs out the map stays, and the table has the strings that it had.
pub fn begin_divide<T: Tally>(
    rows: &mut MapRows,
    table: &mut HalfTable<T>,
    kept: &mut KeyLists<Half>,
    stars: &mut KeyLists<Spoke>,
    face: &Face,
    strings: Vec<StringRow>,
    parcel: ParcelRow,
    first: &Half,
    rest: &[Half],
    start: &Half,
    end: &Half,
    moved: &[Half],
) -> Result<(), Memory>
    requires { CanBeginDivide face.now strings.items parcel (first.now ∷ rest.now) start.now end.now
        moved.now
        rows.old table.old.rows kept.old stars.old }
    ensures fits { (can : CanBeginDivide face.now strings.items parcel (first.now ∷ rest.now)
        start.now end.now moved.now
        rows.old table.old.rows kept.old stars.old)
        → OnOk result (FitMap (divided can.is) rows.new table.new.rows kept.new stars.new) }
    ensures err { (can : CanBeginDivide face.now strings.items parcel (first.now ∷ rest.now)
        start.now end.now moved.now
        rows.old table.old.rows kept.old stars.old)
        → OnErr result (FitMap can.map rows.new table.new.rows kept.new stars.new) }
    ensures err_table { OnErr result (table.new.rows ≡ table.old.rows) }
    ensures moved { (can : CanBeginDivide face.now strings.items parcel (first.now ∷ rest.now)
        start.now end.now moved.now
        rows.old table.old.rows kept.old stars.old) → OnOk result
        (AreOfRings (divided can.is) table.new.rows moved.now (Parcel parcel.number)
        (rings_beside can.is)) }
    ensures inner_room { OnOk result (HasRoomAt kept.new (face_place_of (Parcel parcel.number))
        (length (items_at kept.new (face_place_of face.now)))) }
    ensures outer_room { OnOk result (HasRoomAt kept.new (face_place_of face.now)
        (length (items_at kept.new (face_place_of (Parcel parcel.number))) + 1)) }
    ensures has { OnOk result (HasBesides (numbers_of strings.items)
        table.old.rows table.new.rows) }
    ensures origin { OnOk result (KeepsOrigins table.old.rows table.new.rows) }
    ensures work { OnOk result (table.new.work
        ≡ ticked (ticks_to_bring_across table.new.rows first.now rest.now moved.now)
        (ticked (length strings.items) table.old.work)) }
    ensures err_work { OnErr result (CameAndWent (length strings.items)
        table.old.work table.new.work) }
{
    let number = parcel.number;
    add_with_room(rows, table, kept, stars, face, strings.as_slice(), number)?;
    let inner = Face::Parcel(number);
    bring_across(table, kept, first, rest, start, end, face, &inner, moved);
    put_added(rows, stars, strings, parcel);
    Ok(())
}

/// Takes a division back: takes the parcel and the chain's strings out, which are loose in the table
/// then. The parcel's rings are the face's again. It takes no memory, and time by the strings, by the
/// parcel's rings, and by the rings of the face.
pub fn undivide<T: Tally>(
    rows: &mut MapRows,
    table: &mut HalfTable<T>,
    kept: &mut KeyLists<Half>,
    stars: &mut KeyLists<Spoke>,
    face: &Face,
    strings: &[StringNo],
    parcel: ParcelNo,
    first: &Half,
    rest: &[Half],
    moved: &[Half],
)
    requires { CanUndivide face.now strings.now parcel (first.now ∷ rest.now) moved.now
        rows.old table.old.rows kept.old stars.old }
    ensures fits { (can : CanUndivide face.now strings.now parcel (first.now ∷ rest.now) moved.now
        rows.old table.old.rows kept.old stars.old)
        → FitMap can.map rows.new table.new.rows kept.new stars.new }
    ensures loose { AreLoose (next table.new.rows) (first.now ∷ rest.now) }
    ensures has { (h : HalfOf) → has table.new.rows h ≡ has table.old.rows h }
    ensures origin { (h : HalfOf) → origin_of table.new.rows h ≡ origin_of table.old.rows h }
    ensures work { table.new.work
        ≡ ticked (ticks_to_take_across table.old.rows first.now rest.now moved.now)
        table.old.work }
{
    let inner = Face::Parcel(parcel);
    take_across(table, kept, first, rest, face, &inner, moved);
    take_added(rows, stars, strings, parcel);
}

/// Takes a division back, with the room that it takes. The strings stay in the table, loose.
///
/// # Errors
///
/// Where memory runs out the map stays.
pub fn begin_undivide<T: Tally>(
    rows: &mut MapRows,
    table: &mut HalfTable<T>,
    kept: &mut KeyLists<Half>,
    stars: &mut KeyLists<Spoke>,
    face: &Face,
    strings: &[StringNo],
    parcel: ParcelNo,
    first: &Half,
    rest: &[Half],
    moved: &[Half],
) -> Result<(), Memory>
    requires { CanBeginUndivide face.now strings.now parcel (first.now ∷ rest.now) moved.now
        rows.old table.old.rows kept.old stars.old }
    ensures fits { (can : CanBeginUndivide face.now strings.now parcel (first.now ∷ rest.now)
        moved.now rows.old table.old.rows kept.old stars.old)
        → OnOk result (FitMap can.map rows.new table.new.rows kept.new stars.new) }
    ensures err { (can : CanBeginUndivide face.now strings.now parcel (first.now ∷ rest.now)
        moved.now rows.old table.old.rows kept.old stars.old)
        → OnErr result (FitMap (divided can.is) rows.new table.new.rows kept.new stars.new) }
    ensures err_table { OnErr result (table.new ≡ table.old) }
    ensures loose { OnOk result (AreLoose (next table.new.rows) (first.now ∷ rest.now)) }
    ensures has { (h : HalfOf) → has table.new.rows h ≡ has table.old.rows h }
    ensures work { OnOk result (table.new.work
        ≡ ticked (ticks_to_take_across table.old.rows first.now rest.now moved.now)
        table.old.work) }
{
    make_handing_room(kept, face, parcel)?;
    undivide(
        rows, table, kept, stars, face, strings, parcel, first, rest, moved,
    );
    Ok(())
}
