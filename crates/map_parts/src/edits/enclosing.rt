//! A face enclosed in place, with the room that it takes, and the enclosure taken back: rows, stars,
//! table and kept halves.
ghost use Rattle.std.specs.Prelude.{◌≡◌, ◌≤◌, ◌+◌, ◌*◌, ◌∷◌, ℕ, length};
ghost use Rattle.std.specs.Prelude.{OnOk, OnErr};
ghost use Rattle.cad_map.specs.Boundaries.{face_place as face_place_of};
ghost use Rattle.cad_rows.specs.declared.names.Face.TheVariants.{Parcel};
ghost use Rattle.half_table.specs.declared.half.Half.{Half as HalfOf};
ghost use Rattle.half_table.specs.Count.{ticked};
ghost use Rattle.half_table.specs.Rows.{next, has, origin_of};
ghost use Rattle.half_paths.specs.Loose.{numbers_of, AreLoose};
ghost use Rattle.key_lists.specs.Held.{items_at, HasRoomAt};
ghost use Rattle.cad_laws.specs.Local.{IsShown, side_by};
ghost use Rattle.map_parts.specs.Enclosing.{CanBeginEnclose, CanBeginOpen, CanOpen};
ghost use Rattle.map_parts.specs.Enclosing.{enclosed, rings_placed};
ghost use Rattle.map_parts.specs.FaceTicks.{ticks_to_bring_in, ticks_to_take_out};
ghost use Rattle.map_parts.specs.Islands.{AreOfRings};
ghost use Rattle.map_parts.specs.Splitting.{FitMap};
ghost use Rattle.map_parts.specs.TableGrown.{HasBesides};

use crate::edits::added::{put_added, take_added};
use crate::edits::enclose::{bring_in, take_out};
use crate::edits::parcel_rooms::{add_with_room, make_handing_room};
use crate::stars::Spoke;
use cad_map::MapRows;
use cad_rows::{Face, Memory, ParcelNo, ParcelRow, StringNo, StringRow};
use half_table::{Half, HalfTable, Tally};
use key_lists::KeyLists;

/// Encloses a part of a face by strings as a new parcel, with the room that it takes. The rings of
/// the moved halves are the parcel's then. All that comes can be taken out again without memory. It
/// takes time by the new strings, by the rings that pass over, and by the rings of the face.
///
/// # Errors
///
/// Where memory runs out the map stays, and the table has the strings that it had.
pub fn begin_enclose<T: Tally>(
    rows: &mut MapRows,
    table: &mut HalfTable<T>,
    kept: &mut KeyLists<Half>,
    stars: &mut KeyLists<Spoke>,
    face: &Face,
    strings: Vec<StringRow>,
    parcel: ParcelRow,
    first: &Half,
    rest: &[Half],
    moved: &[Half],
) -> Result<(), Memory>
    requires { CanBeginEnclose face.now strings.items parcel (first.now ∷ rest.now) moved.now
        rows.old table.old.rows kept.old stars.old }
    ensures fits { (can : CanBeginEnclose face.now strings.items parcel (first.now ∷ rest.now) moved.now
        rows.old table.old.rows kept.old stars.old)
        → OnOk result (FitMap (enclosed can.is) rows.new table.new.rows kept.new stars.new) }
    ensures err { (can : CanBeginEnclose face.now strings.items parcel (first.now ∷ rest.now) moved.now
        rows.old table.old.rows kept.old stars.old)
        → OnErr result (FitMap can.map rows.new table.new.rows kept.new stars.new) }
    ensures err_table { OnErr result (table.new.rows ≡ table.old.rows) }
    ensures moved { (can : CanBeginEnclose face.now strings.items parcel (first.now ∷ rest.now) moved.now
        rows.old table.old.rows kept.old stars.old) → OnOk result
        (AreOfRings (enclosed can.is) table.new.rows moved.now (Parcel parcel.number) (rings_placed can.is)) }
    ensures inner_room { OnOk result (HasRoomAt kept.new (face_place_of (Parcel parcel.number))
        (length (items_at kept.new (face_place_of face.now)))) }
    ensures outer_room { OnOk result (HasRoomAt kept.new (face_place_of face.now)
        (length (items_at kept.new (face_place_of (Parcel parcel.number))))) }
    ensures has { OnOk result (HasBesides (numbers_of strings.items)
        table.old.rows table.new.rows) }
    ensures origin { (can : CanBeginEnclose face.now strings.items parcel (first.now ∷ rest.now) moved.now
        rows.old table.old.rows kept.old stars.old) → OnOk result
        ((h : HalfOf) → IsShown can.map h → side_by table.new.rows h ≡ side_by table.old.rows h) }
    ensures work { OnOk result (table.new.work ≡ ticked (length strings.items
        + ticks_to_bring_in table.new.rows first.now rest.now moved.now) table.old.work) }
    ensures err_work { OnErr result ((count : ℕ) × (count ≤ 2 * length strings.items)
        × (table.new.work ≡ ticked count table.old.work)) }
{
    let number = parcel.number;
    add_with_room(rows, table, kept, stars, face, strings.as_slice(), number)?;
    bring_in(table, kept, first, rest, face, &Face::Parcel(number), moved);
    put_added(rows, stars, strings, parcel);
    Ok(())
}

/// Takes an enclosure back: takes the parcel and its ring's strings out, which are loose in the table
/// then. The rings of the moved halves are the face's again. It takes no memory, and time by the
/// strings, by the rings that pass over, and by the rings of the two faces.
pub fn open<T: Tally>(
    rows: &mut MapRows,
    table: &mut HalfTable<T>,
    kept: &mut KeyLists<Half>,
    stars: &mut KeyLists<Spoke>,
    face: &Face,
    strings: &[StringNo],
    parcel: ParcelNo,
    first: &Half,
    rest: &[Half],
    moved: &[Half],
)
    requires { CanOpen face.now strings.now parcel (first.now ∷ rest.now) moved.now
        rows.old table.old.rows kept.old stars.old }
    ensures fits { (can : CanOpen face.now strings.now parcel (first.now ∷ rest.now) moved.now
        rows.old table.old.rows kept.old stars.old)
        → FitMap can.map rows.new table.new.rows kept.new stars.new }
    ensures loose { AreLoose (next table.new.rows) (first.now ∷ rest.now) }
    ensures has { (h : HalfOf) → has table.new.rows h ≡ has table.old.rows h }
    ensures origin { (h : HalfOf) → origin_of table.new.rows h ≡ origin_of table.old.rows h }
    ensures work { table.new.work
        ≡ ticked (ticks_to_take_out table.old.rows first.now rest.now moved.now) table.old.work }
{
    let inner = Face::Parcel(parcel);
    take_out(table, kept, first, rest, face, &inner, moved);
    take_added(rows, stars, strings, parcel);
}

/// Takes an enclosure back, with the room that it takes. The strings stay in the table, loose.
///
/// # Errors
///
/// Where memory runs out the map stays.
pub fn begin_open<T: Tally>(
    rows: &mut MapRows,
    table: &mut HalfTable<T>,
    kept: &mut KeyLists<Half>,
    stars: &mut KeyLists<Spoke>,
    face: &Face,
    strings: &[StringNo],
    parcel: ParcelNo,
    first: &Half,
    rest: &[Half],
    moved: &[Half],
) -> Result<(), Memory>
    requires { CanBeginOpen face.now strings.now parcel (first.now ∷ rest.now) moved.now
        rows.old table.old.rows kept.old stars.old }
    ensures fits { (can : CanBeginOpen face.now strings.now parcel (first.now ∷ rest.now) moved.now
        rows.old table.old.rows kept.old stars.old)
        → OnOk result (FitMap can.map rows.new table.new.rows kept.new stars.new) }
    ensures err { (can : CanBeginOpen face.now strings.now parcel (first.now ∷ rest.now) moved.now
        rows.old table.old.rows kept.old stars.old)
        → OnErr result (FitMap (enclosed can.is) rows.new table.new.rows kept.new stars.new) }
    ensures loose { OnOk result (AreLoose (next table.new.rows) (first.now ∷ rest.now)) }
    ensures has { (h : HalfOf) → has table.new.rows h ≡ has table.old.rows h }
    ensures work { OnOk result (table.new.work
        ≡ ticked (ticks_to_take_out table.old.rows first.now rest.now moved.now) table.old.work) }
    ensures err_table { OnErr result (table.new ≡ table.old) }
{
    make_handing_room(kept, face, parcel)?;
    open(
        rows, table, kept, stars, face, strings, parcel, first, rest, moved,
    );
    Ok(())
}
