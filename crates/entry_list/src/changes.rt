//! Room for rows, and rows that go and come. Only `keep_slot`, `spare_slot` and `push` can be
//! refused for want of memory.
ghost use Rattle.std.specs.Prelude.{◌≡◌, ◌≤◌, ◌++◌, ◌∷◌, [], length, Some, None, remove};
ghost use Rattle.std.specs.Prelude.{slice_get, ◌↔◌, IfSome, IfNone, OnOk, OnErr, OnSome, IsOk, IsSome, IsTrue};
ghost use Rattle.entry_list.specs.Slots.{row_of, rows_of, row_at, without_number, with_number};
ghost use Rattle.entry_list.specs.Slots.{HasSlot, KeepsSlots, StandsAt, AddsSlot, spare_key, PutsIn};
ghost use Rattle.entry_list.specs.Slots.{IsEmptySlot, ReplacesRow, rows_before};
ghost use Rattle.indexmap.specs.Layout.{set_value_at};

use crate::list::EntryList;
use crate::moves::mark_of;
use std::alloc::AllocError;
use std::mem;

// The first of the keys of spare slots.
const FIRST_SPARE: u64 = 4_294_967_296;

impl<V> EntryList<V> {
    /// Gives the number an empty slot behind all others, where it has none, so that a row with it
    /// can be put in without memory. The rows stay as they are, with their places; where memory
    /// runs out, the slots too.
    pub fn keep_slot(&mut self, number: u64) -> Result<(), AllocError>
    where
        V: Drop,
        ensures rows { rows_of self.new ≡ rows_of self.old }
        ensures slots { KeepsSlots self.old self.new }
        ensures ok { OnOk result (HasSlot self.new number) }
        ensures has { HasSlot self.old number → IsOk result × (self.new ≡ self.old) }
        ensures added { OnOk result (AddsSlot self.old self.new number) }
        ensures err { OnErr result (self.new ≡ self.old) }
    {
        if self.has_slot(number) {
            return Ok(());
        }
        self.add_slot(number, None)?;
        Ok(())
    }

    /// Adds an empty slot behind all others under a key above 32 bits, for numbers that have none
    /// so large: a row whose own slot stands before other rows is then put last without a move of
    /// slots. The rows stay as they are, with their places; where memory runs out, the slots too.
    pub fn spare_slot(&mut self) -> Result<(), AllocError>
    where
        V: Drop,
        ensures rows { rows_of self.new ≡ rows_of self.old }
        ensures slots { KeepsSlots self.old self.new }
        ensures kept { HasSlot self.old (spare_key self.old) → self.new ≡ self.old }
        ensures added { OnOk result (AddsSlot self.old self.new (spare_key self.old)) }
        ensures err { OnErr result (self.new ≡ self.old) }
    {
        let key = FIRST_SPARE + self.slots.len() as u64;
        self.keep_slot(key)
    }

    /// Takes the row with the number out, and gives its place with it; none where no row has it.
    /// The slot stays, so `put_at` at that place takes no memory and gives the rows as they were.
    /// It takes no memory, and time as `place_of` does.
    pub fn take(&mut self, number: u64) -> Option<(usize, V)>
        ensures row { IfSome result (λ r. StandsAt self.old r.0 number r.1) }
        ensures rows { IfSome result (λ r. rows_of self.new ≡ remove (rows_of self.old) r.0) }
        ensures without { rows_of self.new ≡ without_number number (rows_of self.old) }
        ensures back { IfSome result (λ r. PutsIn self.new self.old r.0 number r.1) }
        ensures absent { IfNone result (row_at number self.old ≡ None) }
        ensures none { IfNone result (self.new ≡ self.old) }
        ensures gone { row_at number self.new ≡ None }
        ensures slots { KeepsSlots self.old self.new }
        ensures slot { OnSome result (HasSlot self.new number) }
    {
        let slot = self.slot_of(number)?;
        let cell = self.slots.value_at(slot);
        let row = mem::replace(cell, None).unwrap();
        let place = self.live.count_before(slot);
        self.live.set(slot, 0);
        self.len -= 1;
        Some((place, row))
    }

    /// Puts a row in at the place, and those from there on stand one place later. It can't be
    /// refused for want of memory. Where the number's own slot fits, as after a `take` from there, or the slot behind
    /// the row before is empty, it takes time as `place_of` does; else its slot is moved, which
    /// takes time by the distance.
    pub fn put_at(&mut self, number: u64, row: V, place: usize)
    where
        V: Drop,
        requires slot { HasSlot self.old number }
        requires absent { row_at number self.old ≡ None }
        requires place { place ≤ length (rows_of self.old) }
        ensures rows { PutsIn self.old self.new place number row }
        ensures back { without_number number (rows_of self.new) ≡ rows_of self.old }
        ensures slots { KeepsSlots self.old self.new }
    {
        let slot = self.make_room(number, place);
        self.fill(slot, number, row);
    }

    /// Puts a row in behind all others. It can't be refused for want of memory, and takes time as
    /// `put_at` does.
    pub fn put_last(&mut self, number: u64, row: V)
    where
        V: Drop,
        requires slot { HasSlot self.old number }
        requires absent { row_at number self.old ≡ None }
        ensures rows { rows_of self.new ≡ rows_of self.old ++ (number, row) ∷ [] }
        ensures back { without_number number (rows_of self.new) ≡ rows_of self.old }
        ensures slots { KeepsSlots self.old self.new }
    {
        let last = self.len;
        self.put_at(number, row, last);
    }

    /// Puts a row of a number that has none behind all others, with a slot for it where it has none
    /// yet, which is sought only where slots are empty. Where memory runs out the list stays.
    pub fn push(&mut self, number: u64, row: V) -> Result<(), AllocError>
    where
        V: Drop,
        requires absent { row_at number self.old ≡ None }
        ensures rows { OnOk result (rows_of self.new ≡ rows_of self.old ++ (number, row) ∷ []) }
        ensures slots { KeepsSlots self.old self.new }
        ensures slot { OnOk result (HasSlot self.new number) }
        ensures had_slot { HasSlot self.old number → IsOk result }
        ensures err { OnErr result (self.new ≡ self.old) }
    {
        if self.has_empty_slot(number) {
            self.put_last(number, row);
            return Ok(());
        }
        self.add_slot(number, Some(row))?;
        Ok(())
    }

    // Whether a number that has no row has a slot. Where no slot is empty it has none.
    fn has_empty_slot(&self, number: u64) -> bool
        requires { row_at number self.now ≡ None }
        ensures { IsTrue result ↔ HasSlot self.now number }
    {
        if self.len == self.slots.len() {
            return false;
        }
        self.has_slot(number)
    }

    /// Puts a row in the place of the one with its number, and gives that one. It takes no memory,
    /// and a look into the table.
    pub fn replace(&mut self, number: u64, row: V) -> V
        requires { IsSome (row_at number self.old) }
        ensures old { row_at number self.old ≡ Some result }
        ensures new { row_at number self.new ≡ Some row }
        ensures with { rows_of self.new ≡ with_number number row (rows_of self.old) }
        ensures rows { ReplacesRow (rows_of self.old) (rows_of self.new) number result row }
        ensures back { with_number number result (rows_of self.new) ≡ rows_of self.old }
        ensures slots { KeepsSlots self.old self.new }
    {
        let slot = self.slot_of(number).unwrap();
        let cell = self.slots.value_at(slot);
        mem::replace(cell, Some(row)).unwrap()
    }

    // Adds a slot behind all others for a number that has none.
    fn add_slot(&mut self, number: u64, row: Option<V>) -> Result<(), AllocError>
    where
        V: Drop,
        requires { HasSlot self.old number → ⊥ }
        ensures added { OnOk result (self.new ≡ self.old ++ (number, row) ∷ []) }
        ensures rows { OnOk result (rows_of self.new ≡ rows_of self.old ++ row_of number row) }
        ensures slots { KeepsSlots self.old self.new }
        ensures slot { OnOk result (HasSlot self.new number) }
        ensures err { OnErr result (self.new ≡ self.old) }
    {
        let _slots = self.slots.len();
        let mark = mark_of(&row);
        self.live.push(mark)?;
        match self.slots.push(number, row) {
            Ok(()) => {
                self.len += mark as usize;
                self.greatest = self.greatest.max(number);
                Ok(())
            }
            Err(full) => {
                self.live.pop();
                Err(full)
            }
        }
    }

    // Puts a row into a slot that has none.
    fn fill(&mut self, slot: usize, number: u64, row: V)
    where
        V: Drop,
        requires { IsEmptySlot self.old slot number }
        ensures rows { PutsIn self.old self.new (rows_before slot self.old) number row }
        ensures slots { KeepsSlots self.old self.new }
        ensures filled { self.new ≡ set_value_at self.old slot (Some row) }
    {
        let _slots = self.slots.len();
        let cell = self.slots.value_at(slot);
        let _ = mem::replace(cell, Some(row));
        self.live.set(slot, 1);
        self.len += 1;
    }
}
