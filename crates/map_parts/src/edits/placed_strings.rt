//! Several strings that go from the rows, with the places that they leave, and come back there.
ghost use Rattle.std.specs.Prelude.{◌≡◌, ◌≢◌, ◌+◌, ◌≤◌, [], List, length, map};
ghost use Rattle.std.specs.List.{AllByRecursion};
ghost use Rattle.std.specs.Vec.{vec_len, vec_capacity};
ghost use Rattle.entry_list.specs.Slots.{HasSlot};
ghost use Rattle.cad_map.specs.MapRows.{map_in};
ghost use Rattle.cad_rows.specs.declared.rows.StringRow.{StringRow as StringRowOf};
ghost use Rattle.cad_map.specs.Valid.{EachPair};
ghost use Rattle.map_parts.specs.PlacedStrings.{CanPutPlaced, numbers_placed, StoodIn};
ghost use Rattle.map_parts.specs.Splitting.{AreStarsOf};
ghost use Rattle.map_parts.specs.StringRows.{CanTakeStrings, HasRoomFor, KeepsRoom, without_rows};

use crate::edits::spokes::put_spokes;
use crate::edits::string_rows::take_string;
use crate::stars::Spoke;
use cad_map::MapRows;
use cad_rows::{StringNo, StringRow};
use key_lists::KeyLists;

/// The row of a string that went, and the place where it stood when those before it were out.
#[derive(Drop)]
pub struct PlacedString {
    pub row: StringRow,
    pub place: usize,
}

/// Takes strings out of the rows, and their halves out of the stars, and lists their rows with their
/// places. Their numbers have slots then. It takes no memory, and time by the halves at their ends.
pub(crate) fn take_placed(
    rows: &mut MapRows,
    stars: &mut KeyLists<Spoke>,
    strings: &[StringNo],
    gone: &mut Vec<PlacedString>,
)
    requires can { CanTakeStrings strings.now rows.old stars.old }
    requires none { gone.old.items ≡ [] }
    requires room { vec_len gone.old + length strings.now ≤ vec_capacity gone.old }
    ensures rows { map_in rows.new ≡ record (map_in rows.old) {
      strings = without_rows strings.now (map_in rows.old).strings;
    } }
    ensures stars { AreStarsOf (map_in rows.new).strings stars.new }
    ensures keeps { KeepsRoom rows.old rows.new stars.old stars.new }
    ensures room { HasRoomFor (map (λ g. g.row) gone.new.items) stars.new }
    ensures numbers { numbers_placed gone.new.items ≡ strings.now }
    ensures stood { StoodIn (map_in rows.old).strings gone.new.items }
    ensures kept { AllByRecursion (λ g. HasSlot rows.new.strings g.row.number) gone.new.items }
{
    for string in strings {
        let (place, row) = take_string(rows, stars, *string);
        gone.push_reserved(PlacedString { row, place });
    }
}

/// Puts strings in where they stood, the last one first, and their halves into the stars of their
/// ends. It takes no memory.
pub(crate) fn put_placed(
    rows: &mut MapRows,
    stars: &mut KeyLists<Spoke>,
    gone: &mut Vec<PlacedString>,
)
    requires { CanPutPlaced gone.old.items rows.old stars.old }
    ensures rows { (before : List StringRowOf)
        → EachPair (λ a b. a ≢ b) (map (λ s. s.number) before) → StoodIn before gone.old.items
        → (map_in rows.old).strings ≡ without_rows (numbers_placed gone.old.items) before
        → map_in rows.new ≡ record (map_in rows.old) { strings = before } }
    ensures stars { AreStarsOf (map_in rows.old).strings stars.old
        → AreStarsOf (map_in rows.new).strings stars.new }
    ensures keeps { KeepsRoom rows.old rows.new stars.old stars.new }
{
    let count = gone.len();
    for step in 0..count {
        let last = gone.take_last();
        put_spokes(stars, &last.row);
        rows.strings.put_at(last.row, last.place);
    }
}
