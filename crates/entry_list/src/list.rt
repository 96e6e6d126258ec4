//! The list, and what is read of it.
ghost use Rattle.std.specs.Prelude.{◌≡◌, ◌<◌, [], length, None, slice_get, slice_index, nat_eq};
ghost use Rattle.std.specs.Prelude.{option_map, option_copied, IfSome, IfNone, IfOk, IsTrue, ◌↔◌, true};
ghost use Rattle.entry_list.specs.Slots.{rows_of, numbers_of, row_at, marks_of, rows_before, HasSlot, IsRowSlot};
ghost use Rattle.std.specs.List.{IsDistinct};

use crate::marks::Marks;
use number_hash::NumberHash;
use number_table::NumberTable;
use std::alloc::{AllocError, Global};
use std::marker::Model;

/// Rows under their numbers, in order of entry. The place of a row is how many rows stand before
/// it, and is counted; nothing of it is kept.
///
/// A number has a slot in the table, with its row or empty, and keeps it when the row is taken
/// out. So `keep_slot` is what memory may be wanting for, and each change of the rows after it is
/// certain.
/// A mark for each slot tells whether it has a row, and sums of blocks of marks give places from
/// slots and slots from places: the idea of a Fenwick tree (P. M. Fenwick, A new data structure
/// for cumulative frequency tables, 1994), with one level of sums in place of a tree.
///
/// To look a row up by its number takes a look into the table, and none where the number is above
/// all that were given slots, as that of a new row mostly is; a place, and the row at a place, take
/// time by the number of blocks and the length of one. While no slot is empty, the row at a place is
/// found at once.
pub struct EntryList<V> {
    pub(crate) slots: NumberTable<Option<V>>,
    pub(crate) live: Marks,
    pub(crate) len: usize,
    // No slot has a greater number.
    pub(crate) greatest: u64,
}

// Written out, so that the end of one is a single call in a caller's proof.
impl<V: Drop> Drop for EntryList<V> {
    fn drop(self) {
        let EntryList {
            slots: _slots,
            live: _live,
            len: _len,
            greatest: _greatest,
        } = self;
    }
}

impl<V> Model for EntryList<V> {
    ghost use Rattle.entry_list.specs.Slots.{Slots, AreCounted, NoneAbove};

    ghost Value = { Slots V };

    ghost view = { λ a. a.slots };

    ghost invariant = { λ a. AreCounted a.slots a.live a.len
        × NoneAbove a.greatest a.slots };
}

impl<V> EntryList<V> {
    /// No rows and no slots. The numbers will be found by this hash.
    pub fn new(alloc: Global, hash: NumberHash) -> Self
        ensures { result ≡ [] }
    {
        EntryList {
            slots: NumberTable::new(alloc, hash),
            live: Marks::new(alloc),
            len: 0,
            greatest: 0,
        }
    }

    /// No rows and no slots, and a table with room for so many, which then need not grow.
    pub fn with_room(alloc: Global, hash: NumberHash, rows: usize) -> Result<Self, AllocError>
    where
        V: Drop,
        ensures none { IfOk result (λ list. list ≡ []) }
    {
        Ok(EntryList {
            slots: NumberTable::with_room(alloc, hash, rows)?,
            live: Marks::new(alloc),
            len: 0,
            greatest: 0,
        })
    }

    /// What the list takes its memory from.
    pub fn allocator(&self) -> Global {
        self.slots.allocator()
    }

    /// How the list finds numbers.
    pub fn hash(&self) -> NumberHash {
        self.slots.hash()
    }

    /// The number of rows. No number has two.
    pub fn len(&self) -> usize
        ensures len { result ≡ length (rows_of self.now) }
        ensures distinct { IsDistinct nat_eq (numbers_of self.now) }
    {
        let _slots = self.slots.len();
        self.len
    }

    /// The row with the number; none where no row has it.
    #[inline(always)]
    pub fn get(&self, number: u64) -> Option<&V>
        ensures { option_copied result ≡ row_at number self.now }
    {
        let _slots = self.slots.len();
        if number > self.greatest {
            return None;
        }
        self.slots.get(number)?.as_ref()
    }

    /// How many rows stand before the one with the number; none where no row has it.
    pub fn place_of(&self, number: u64) -> Option<usize>
        ensures place { IfSome result (λ p. slice_get (numbers_of self.now) p ≡ Some number) }
        ensures none { IfNone result (row_at number self.now ≡ None) }
    {
        let slot = self.slot_of(number)?;
        Some(self.live.count_before(slot))
    }

    /// The row before which so many others stand, with its number; none from the length on.
    pub fn at(&self, place: usize) -> Option<(u64, &V)>
        ensures { option_map (λ r. (r.0, r.1.now)) result ≡ slice_get (rows_of self.now) place }
    {
        if place >= self.len {
            return None;
        }
        let slot = self.slot_at(place);
        match self.slots.at(slot) {
            Some((number, row)) => Some((number, row.as_ref().unwrap())),
            None => None,
        }
    }

    // The slot of the row before which so many others stand. Where no slot is empty it is the one
    // at that place.
    fn slot_at(&self, place: usize) -> usize
        requires { place < length (rows_of self.now) }
        ensures marked { slice_index (marks_of self.now) result ≡ 1 }
        ensures before { rows_before result self.now ≡ place }
        ensures within { result < length self.now }
    {
        if self.len == self.slots.len() {
            place
        } else {
            self.live.place_of(place)
        }
    }

    // Whether the number has a slot.
    pub(crate) fn has_slot(&self, number: u64) -> bool
        ensures { IsTrue result ↔ HasSlot self.now number }
    {
        number <= self.greatest && self.slots.place_of(number).is_some()
    }

    // The slot of the row with the number.
    pub(crate) fn slot_of(&self, number: u64) -> Option<usize>
        ensures found { IfSome result (λ i. IsRowSlot self.now i number) }
        ensures absent { IfNone result (row_at number self.now ≡ None) }
    {
        if number > self.greatest {
            return None;
        }
        let slot = self.slots.place_of(number)?;
        match self.slots.at(slot) {
            Some((_, row)) => { if row.is_some() { Some(slot) } else { None } }
            None => None,
        }
    }
}
