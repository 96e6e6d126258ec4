//! One list of entries.
ghost use Rattle.std.specs.Prelude.{◌≡◌, ◌<◌, ◌∷◌, ◌++◌, [], true, false, length, IsPermutation, IfOk, OnOk, OnErr, slice_index_or};
ghost use Rattle.std.specs.List.{Contains};

use crate::entry::Entry;
use crate::packed::{PackedEntry, is_same};
use cad_rows::Memory;
use std::alloc::Global;

/// Up to so many entries are looked through from the front: a step of that costs less than one of
/// the search both ways.
const LONGEST_SHORT: usize = 64;

/// The room of a cell's list for its first entries. It doubles as the list grows: among squares of
/// some three extents a cell of an even net holds 24 or 31 strings and nine or twelve points, so that
/// edits have room beside them.
const FIRST_ROOM: usize = 5;

/// Entries in a list, and the place where one was taken out last: what is taken out one after
/// another mostly stood side by side.
#[derive(Drop)]
pub(crate) struct HeldList {
    pub entries: Vec<PackedEntry>,
    pub taken: usize,
}

/// Whether an entry stands at a place of a list.
fn is_at(list: &[PackedEntry], place: usize, entry: &Entry) -> bool
    ensures yes { result ≡ true
        → (place < length list.now) × (slice_index_or list.now place entry.now ≡ entry.now) }
    ensures no { result ≡ false → place < length list.now
        → ¬ (slice_index_or list.now place entry.now ≡ entry.now) }
{
    place < list.len() && is_same(&list[place], entry)
}

/// The place of an entry in a list that has it. It is looked for from the front.
fn place_from_front(list: &[PackedEntry], entry: &Entry) -> usize
    requires { Contains list.now entry.now }
    ensures within { result < length list.now }
    ensures value { slice_index_or list.now result entry.now ≡ entry.now }
{
    for (place, held) in list.iter().enumerate() {
        if is_same(held, entry) {
            return place;
        }
    }
    0
}

/// The place of an entry in a list that has it. It is looked for from a place on, both ways at
/// once, so that what stands near that place is found soon.
fn place_around(list: &[PackedEntry], entry: &Entry, from: usize) -> usize
    requires { Contains list.now entry.now }
    ensures within { result < length list.now }
    ensures value { slice_index_or list.now result entry.now ≡ entry.now }
{
    let start = from.min(list.len() - 1);
    for distance in 0..list.len() {
        if is_at(list, start + distance, entry) {
            return start + distance;
        }
        let before = start.saturating_sub(distance);
        if is_at(list, before, entry) {
            return before;
        }
    }
    0
}

/// The place of an entry in a list that has it. It may well be this one; a short list is looked
/// through from the front, and a long one around the place.
fn place_in(list: &[PackedEntry], entry: &Entry, likely: usize) -> usize
    requires { Contains list.now entry.now }
    ensures within { result < length list.now }
    ensures value { slice_index_or list.now result entry.now ≡ entry.now }
{
    if is_at(list, likely, entry) {
        likely
    } else if list.len() <= LONGEST_SHORT {
        place_from_front(list, entry)
    } else {
        place_around(list, entry, likely)
    }
}

impl HeldList {
    /// No entries.
    pub(crate) fn new(alloc: Global) -> HeldList
        ensures { result.entries.items ≡ [] }
    {
        HeldList {
            entries: Vec::new(alloc),
            taken: 0,
        }
    }

    /// No entries, and room for the first few.
    pub(crate) fn with_room(alloc: Global) -> Result<HeldList, Memory>
        ensures { IfOk result (λ list. list.entries.items ≡ []) }
    {
        Ok(HeldList {
            entries: Vec::with_capacity(alloc, FIRST_ROOM)?,
            taken: 0,
        })
    }

    /// Puts an entry last. Where memory runs out the entries stay as they are.
    pub(crate) fn put(&mut self, entry: Entry) -> Result<(), Memory>
        ensures put { OnOk result
            (self.new.entries.items ≡ self.old.entries.items ++ entry ∷ []) }
        ensures err { OnErr result (self.new.entries.items ≡ self.old.entries.items) }
    {
        self.entries.push(PackedEntry::of(&entry))?;
        Ok(())
    }

    /// Takes an entry out; the last one takes its place. It takes no memory.
    pub(crate) fn take(&mut self, entry: &Entry)
        requires { Contains self.old.entries.items entry.now }
        ensures { IsPermutation self.old.entries.items (entry.now ∷ self.new.entries.items) }
    {
        let place = place_in(self.entries.as_slice(), entry, self.taken);
        self.entries.swap_remove(place);
        self.taken = place;
    }
}
