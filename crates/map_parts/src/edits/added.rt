//! Strings and a parcel that come last among the rows, and go again.
ghost use Rattle.std.specs.Prelude.{◌≡◌, ◌++◌, ◌∷◌, [], None, IsSome};
ghost use Rattle.cad_map.specs.Map.{parcel_of};
ghost use Rattle.numbered_rows.specs.Rows.{without_row};
ghost use Rattle.entry_list.specs.Slots.{HasSlot};
ghost use Rattle.cad_map.specs.MapRows.{map_in};
ghost use Rattle.map_parts.specs.Splitting.{AreStarsOf};
ghost use Rattle.map_parts.specs.StringRows.{CanPutStrings, CanTakeStrings, without_rows};

use crate::edits::string_rows::{put_strings, take_strings};
use crate::stars::Spoke;
use cad_map::MapRows;
use cad_rows::{ParcelNo, ParcelRow, StringNo, StringRow};
use key_lists::KeyLists;

/// Puts strings and a parcel last among the rows, and the strings' halves into the stars of their
/// ends. It takes no memory.
pub(crate) fn put_added(
    rows: &mut MapRows,
    stars: &mut KeyLists<Spoke>,
    strings: Vec<StringRow>,
    parcel: ParcelRow,
)
    requires strings { CanPutStrings strings.items rows.old stars.old }
    requires slot { HasSlot rows.old.parcels parcel.number }
    requires absent { parcel_of (map_in rows.old) parcel.number ≡ None }
    ensures rows { map_in rows.new ≡ record (map_in rows.old) {
      strings = (map_in rows.old).strings ++ strings.items;
      parcels = (map_in rows.old).parcels ++ parcel ∷ [];
    } }
    ensures stars { AreStarsOf (map_in rows.old).strings stars.old
        → AreStarsOf (map_in rows.new).strings stars.new }
{
    put_strings(rows, stars, strings);
    rows.parcels.put_last(parcel);
}

/// Takes strings and a parcel out of the rows, and the strings' halves out of the stars. It takes no
/// memory, and time by the halves at the strings' ends.
pub(crate) fn take_added(
    rows: &mut MapRows,
    stars: &mut KeyLists<Spoke>,
    strings: &[StringNo],
    parcel: ParcelNo,
)
    requires strings { CanTakeStrings strings.now rows.old stars.old }
    requires parcel { IsSome (parcel_of (map_in rows.old) parcel) }
    ensures rows { map_in rows.new ≡ record (map_in rows.old) {
      strings = without_rows strings.now (map_in rows.old).strings;
      parcels = without_row (λ r. r.number) parcel (map_in rows.old).parcels;
    } }
    ensures stars { AreStarsOf (map_in rows.new).strings stars.new }
{
    take_strings(rows, stars, strings);
    rows.parcels.take_there(parcel.get());
}
