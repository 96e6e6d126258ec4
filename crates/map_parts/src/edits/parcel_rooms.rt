//! Room for several strings and a parcel, made before the first change.
ghost use Rattle.std.specs.Prelude.{◌≡◌, ◌≢◌, ◌+◌, length, nat_eq, OnOk, OnErr};
ghost use Rattle.std.specs.List.{AllByRecursion, IsDistinct};
ghost use Rattle.cad_map.specs.Boundaries.{face_place as face_place_of};
ghost use Rattle.cad_rows.specs.declared.names.Face.TheVariants.{Parcel};
ghost use Rattle.entry_list.specs.Slots.{HasSlot, KeepsSlots};
ghost use Rattle.half_table.specs.Count.{ticked};
ghost use Rattle.half_table.specs.Rows.{IsLinked};
ghost use Rattle.half_paths.specs.Loose.{numbers_of, AreNew};
ghost use Rattle.key_lists.specs.Held.{items_at, HasRoomAt, IsSame};
ghost use Rattle.map_parts.specs.Adding.{AreAdded, HasRoomAtEnds, HasRoomToExchange, IsSeenAs};
ghost use Rattle.cad_map.specs.MapRows.{map_in};
ghost use Rattle.map_parts.specs.TableGrown.{CameAndWent};

use crate::stars::Spoke;
use cad_map::{MapRows, face_place};
use cad_rows::{Face, Memory, ParcelNo, StringRow};
use half_paths::add_strings;
use half_table::{Half, HalfTable, Tally};
use key_lists::KeyLists;

// Sees that strings can be put in among the rows without memory. The rows stay as they are.
fn keep_slots(rows: &mut MapRows, strings: &[StringRow]) -> Result<(), Memory>
    ensures rows { map_in rows.new ≡ map_in rows.old }
    ensures strings { KeepsSlots rows.old.strings rows.new.strings }
    ensures slots { OnOk result
        (AllByRecursion (λ s. HasSlot rows.new.strings s.number) strings.now) }
{
    for string in strings {
        rows.strings.keep_slot(string.number.get())?;
    }
    Ok(())
}

// Sees that at both ends of each of these strings two halves more can begin without memory.
fn make_end_room(stars: &mut KeyLists<Spoke>, strings: &[StringRow]) -> Result<(), Memory>
    ensures same { IsSame stars.old stars.new }
    ensures room { OnOk result (AllByRecursion (HasRoomAtEnds stars.new) strings.now) }
{
    for string in strings {
        stars.reserve(u64::from(string.from.get()), 2)?;
        stars.reserve(u64::from(string.to.get()), 2)?;
    }
    Ok(())
}

// Sees that halves can be kept of all rings of a face and of two more, for that face and for a new
// parcel, without memory.
fn make_kept_room(kept: &mut KeyLists<Half>, face: &Face, parcel: ParcelNo) -> Result<(), Memory>
    ensures same { IsSame kept.old kept.new }
    ensures inner { OnOk result (HasRoomAt kept.new (face_place_of (Parcel parcel))
        (length (items_at kept.new (face_place_of face.now)) + 2)) }
    ensures outer { OnOk result (HasRoomAt kept.new (face_place_of face.now) 2) }
{
    let outer = face_place(*face);
    let count = kept.at(outer).len();
    kept.reserve(face_place(Face::Parcel(parcel)), count + 2)?;
    kept.reserve(outer, 2)?;
    Ok(())
}

/// Sees that strings and a parcel can come into a face without memory, and adds the strings to the
/// table, loose. Where memory runs out, the table has the strings that it had.
pub(crate) fn add_with_room<T: Tally>(
    rows: &mut MapRows,
    table: &mut HalfTable<T>,
    kept: &mut KeyLists<Half>,
    stars: &mut KeyLists<Spoke>,
    face: &Face,
    strings: &[StringRow],
    parcel: ParcelNo,
) -> Result<(), Memory>
    requires linked { IsLinked table.old.rows }
    requires new { AreNew table.old.rows strings.now }
    requires different { IsDistinct nat_eq (numbers_of strings.now) }
    ensures seen { IsSeenAs rows.old rows.new kept.old kept.new stars.old stars.new }
    ensures added { OnOk result (AreAdded strings.now face.now parcel rows.old rows.new
        table.old.rows table.new.rows kept.old kept.new stars.old stars.new) }
    ensures err { OnErr result (table.new.rows ≡ table.old.rows) }
    ensures work { OnOk result (table.new.work ≡ ticked (length strings.now) table.old.work) }
    ensures err_work { OnErr result (CameAndWent (length strings.now)
        table.old.work table.new.work) }
{
    keep_slots(rows, strings)?;
    rows.parcels.keep_slot(parcel.get())?;
    make_end_room(stars, strings)?;
    make_kept_room(kept, face, parcel)?;
    add_strings(table, strings)?;
    Ok(())
}

/// Sees that the halves that are kept for a face and for a parcel, and one more, can be kept for
/// either without memory.
pub(crate) fn make_handing_room(
    kept: &mut KeyLists<Half>,
    face: &Face,
    parcel: ParcelNo,
) -> Result<(), Memory>
    requires { face_place_of face.now ≢ face_place_of (Parcel parcel) }
    ensures same { IsSame kept.old kept.new }
    ensures room { OnOk result (HasRoomToExchange face.now parcel kept.new) }
{
    let outer = face_place(*face);
    let inner = face_place(Face::Parcel(parcel));
    let more = kept.at(outer).len();
    kept.reserve(inner, more + 1)?;
    let more = kept.at(inner).len();
    kept.reserve(outer, more + 1)?;
    Ok(())
}
