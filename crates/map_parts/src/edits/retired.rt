//! A parcel that goes and whose number is retired, and that comes back.
ghost use Rattle.std.specs.Prelude.{◌≡◌, ◌≤◌, ◌==◌, ◌++◌, ◌∷◌, [], ℕ, List, true, false, None, Some, IsSome, insert, length, slice_get};
ghost use Rattle.std.specs.List.{list_any};
ghost use Rattle.entry_list.specs.Slots.{HasSlot, KeepsSlots};
ghost use Rattle.cad_map.specs.Map.{is_retired, parcel_of};
ghost use Rattle.numbered_rows.specs.Rows.{without_row};
ghost use Rattle.cad_map.specs.MapRows.{map_in};

use cad_map::{MapRows, RetiredRow};
use cad_rows::{ParcelNo, ParcelRow};

/// Takes a parcel's row out, and gives it with its place. Its number is retired. It takes no memory,
/// and neither does the way back.
pub(crate) fn retire(rows: &mut MapRows, parcel: ParcelNo) -> (usize, ParcelRow)
    requires there { IsSome (parcel_of (map_in rows.old) parcel) }
    requires fresh { is_retired (map_in rows.old) parcel ≡ false }
    requires slot { HasSlot rows.old.retired parcel }
    ensures rows { map_in rows.new ≡ record (map_in rows.old) {
      parcels = without_row (λ r. r.number) parcel (map_in rows.old).parcels;
      retired = (map_in rows.old).retired ++ parcel ∷ [];
    } }
    ensures row { slice_get (map_in rows.old).parcels result.0 ≡ Some result.1 }
    ensures found { parcel_of (map_in rows.old) parcel ≡ Some result.1 }
    ensures slot { HasSlot rows.new.parcels result.1.number }
    ensures strings { KeepsSlots rows.old.strings rows.new.strings }
{
    let taken = rows.parcels.take_there(parcel.get());
    rows.retired.put_last(RetiredRow { number: parcel });
    taken
}

/// Puts a parcel in at its place, whose number was the last one to be retired. It takes no memory.
pub(crate) fn unretire(rows: &mut MapRows, row: ParcelRow, place: usize)
    requires absent { parcel_of (map_in rows.old) row.number ≡ None }
    requires place { place ≤ length (map_in rows.old).parcels }
    requires slot { HasSlot rows.old.parcels row.number }
    requires gone { is_retired (map_in rows.old) row.number ≡ true }
    ensures rows { (retired : List ℕ) → list_any (λ n. n == row.number) retired ≡ false
        → (map_in rows.old).retired ≡ retired ++ row.number ∷ []
        → map_in rows.new ≡ record (map_in rows.old) {
          parcels = insert (map_in rows.old).parcels place row;
          retired = retired;
        } }
    ensures strings { KeepsSlots rows.old.strings rows.new.strings }
{
    rows.retired.take_there(row.number.get());
    rows.parcels.put_at(row, place);
}
