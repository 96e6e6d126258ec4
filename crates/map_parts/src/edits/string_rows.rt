//! Several strings that come last among the rows, with their halves in the stars, and go again.
ghost use Rattle.std.specs.Prelude.{◌≡◌, ◌++◌, ◌∷◌, [], ℕ, List, Some, slice_get, IsPermutation};
ghost use Rattle.numbered_rows.specs.Rows.{without_row};
ghost use Rattle.entry_list.specs.Slots.{HasSlot};
ghost use Rattle.key_lists.specs.Held.{items_at, HasRoomAt};
ghost use Rattle.cad_map.specs.MapRows.{map_in};
ghost use Rattle.map_parts.specs.Splitting.{AreStarsOf};
ghost use Rattle.map_parts.specs.Stars.{spokes_of};
ghost use Rattle.map_parts.specs.StringRows.{CanPutStrings, CanTakeStrings, KeepsRoom, without_rows};

use crate::edits::spokes::{put_spokes, take_spokes};
use crate::stars::Spoke;
use cad_map::MapRows;
use cad_rows::{StringNo, StringRow};
use key_lists::KeyLists;

/// Puts strings last among the rows, in their order, and their halves into the stars of their ends.
/// It takes no memory.
pub(crate) fn put_strings(rows: &mut MapRows, stars: &mut KeyLists<Spoke>, strings: Vec<StringRow>)
    requires { CanPutStrings strings.items rows.old stars.old }
    ensures rows { map_in rows.new ≡ record (map_in rows.old) {
      strings = (map_in rows.old).strings ++ strings.items;
    } }
    ensures stars { AreStarsOf (map_in rows.old).strings stars.old
        → AreStarsOf (map_in rows.new).strings stars.new }
    ensures keeps { KeepsRoom rows.old rows.new stars.old stars.new }
{
    for string in strings {
        put_spokes(stars, &string);
        rows.strings.put_last(string);
    }
}

/// Takes a string's row out, and its halves out of the stars, and gives the row with its place. Its
/// number has a slot then, and at its ends there is room for its halves. It takes no memory, and time
/// by the halves there.
pub(crate) fn take_string(
    rows: &mut MapRows,
    stars: &mut KeyLists<Spoke>,
    string: StringNo,
) -> (usize, StringRow)
    requires { CanTakeStrings (string ∷ []) rows.old stars.old }
    ensures row { slice_get (map_in rows.old).strings result.0 ≡ Some result.1 }
    ensures number { result.1.number ≡ string }
    ensures rows { map_in rows.new ≡ record (map_in rows.old) {
      strings = without_row (λ r. r.number) string (map_in rows.old).strings;
    } }
    ensures others { (others : List ℕ) → CanTakeStrings (string ∷ others) rows.old stars.old
        → CanTakeStrings others rows.new stars.new }
    ensures takes { (p : ℕ) → IsPermutation (items_at stars.old p)
        (spokes_of p result.1 ++ items_at stars.new p) }
    ensures room_from { HasRoomAt stars.new result.1.from 1 }
    ensures room_to { HasRoomAt stars.new result.1.to 1 }
    ensures slot { HasSlot rows.new.strings result.1.number }
    ensures keeps { KeepsRoom rows.old rows.new stars.old stars.new }
{
    let taken = rows.strings.take_there(string.get());
    take_spokes(stars, &taken.1);
    taken
}

/// Takes strings out of the rows, and their halves out of the stars. Their numbers have slots then.
/// It takes no memory, and time by the halves at their ends.
pub(crate) fn take_strings(rows: &mut MapRows, stars: &mut KeyLists<Spoke>, strings: &[StringNo])
    requires { CanTakeStrings strings.now rows.old stars.old }
    ensures rows { map_in rows.new ≡ record (map_in rows.old) {
      strings = without_rows strings.now (map_in rows.old).strings;
    } }
    ensures stars { AreStarsOf (map_in rows.new).strings stars.new }
    ensures keeps { KeepsRoom rows.old rows.new stars.old stars.new }
{
    for string in strings {
        take_string(rows, stars, *string);
    }
}
