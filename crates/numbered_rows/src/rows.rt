//! Rows in order of entry that are removed and inserted without memory.
ghost use Rattle.std.specs.Prelude.{◌≡◌, ◌≢◌, ◌≤◌, ◌++◌, ◌∷◌, [], ℕ, None, Some, length, insert, slice_get, is_some, IsSome, IfSome, IfNone, IfOk, OnOk, OnErr, OnSome};
ghost use Rattle.std.specs.Option.{option_copied};
ghost use Rattle.entry_list.specs.Slots.{HasSlot, KeepsSlots};
ghost use Rattle.numbered_rows.specs.Rows.{row_with, without_row, with_row, rows_in};

use crate::numbered::Numbered;
use cad_rows::Memory;
use entry_list::EntryList;
use number_hash::NumberHash;
use std::alloc::Global;
use std::marker::Model;

/// Rows in order of entry, found by their numbers. No two have the same number. A number keeps its
/// slot when its row is taken out, so the row comes back at its place without memory.
#[derive(Drop)]
pub struct Rows<R: Numbered> {
    list: EntryList<R>,
}

impl<R: Numbered> Model for Rows<R> {
    ghost use Rattle.entry_list.specs.Slots.{Slots, rows_of};
    ghost use Rattle.numbered_rows.specs.Rows.{AreNumbered};

    ghost Value = { Slots R };

    ghost view = { λ a. a.list };

    ghost invariant = { λ a. AreNumbered R.number_of (rows_of a.list) };
}

impl<R: Numbered> Rows<R> {
    /// No rows. Their numbers will be found by this hash.
    pub fn new(alloc: Global, hash: NumberHash) -> Rows<R>
        ensures { result ≡ [] }
    {
        Rows {
            list: EntryList::new(alloc, hash),
        }
    }

    /// No rows, and room for so many, so that they need not grow for them.
    pub fn with_room(alloc: Global, hash: NumberHash, rows: usize) -> Result<Rows<R>, Memory>
        ensures { IfOk result (λ made. made ≡ []) }
    {
        Ok(Rows {
            list: EntryList::with_room(alloc, hash, rows)?,
        })
    }

    /// What the rows take their memory from.
    pub fn allocator(&self) -> Global {
        self.list.allocator()
    }

    /// How the rows' numbers are found.
    pub fn hash(&self) -> NumberHash {
        self.list.hash()
    }

    pub fn len(&self) -> usize
        ensures { result ≡ length (rows_in self.now) }
    {
        self.list.len()
    }

    /// The row at a place in order of entry, and `None` past the end.
    pub fn at(&self, place: usize) -> Option<&R>
        ensures { option_copied result ≡ slice_get (rows_in self.now) place }
    {
        let (_, row) = self.list.at(place)?;
        Some(row)
    }

    /// The row with a number.
    pub fn get(&self, number: u32) -> Option<&R>
        ensures { option_copied result ≡ row_with R.number_of number (rows_in self.now) }
    {
        self.list.get(u64::from(number))
    }

    /// Whether a row has the number.
    pub fn has(&self, number: u32) -> bool
        ensures { result ≡ is_some (row_with R.number_of number (rows_in self.now)) }
    {
        self.get(number).is_some()
    }

    /// Sees that a row with this number can be put in without memory. The rows stay as they are.
    pub fn keep_slot(&mut self, number: u32) -> Result<(), Memory>
        ensures rows { rows_in self.new ≡ rows_in self.old }
        ensures slots { KeepsSlots self.old self.new }
        ensures ok { OnOk result (HasSlot self.new number) }
    {
        self.list.keep_slot(u64::from(number))?;
        Ok(())
    }

    /// Puts a row last. It takes no memory.
    pub fn put_last(&mut self, row: R)
        requires slot { HasSlot self.old (R.number_of row) }
        requires absent { row_with R.number_of (R.number_of row) (rows_in self.old) ≡ None }
        ensures rows { rows_in self.new ≡ rows_in self.old ++ row ∷ [] }
        ensures slots { KeepsSlots self.old self.new }
    {
        let number = u64::from(row.number());
        self.list.put_last(number, row);
    }

    /// Puts a row in at a place, and those from there on stand one place later. It takes no memory.
    pub fn put_at(&mut self, row: R, place: usize)
        requires slot { HasSlot self.old (R.number_of row) }
        requires absent { row_with R.number_of (R.number_of row) (rows_in self.old) ≡ None }
        requires place { place ≤ length (rows_in self.old) }
        ensures rows { rows_in self.new ≡ insert (rows_in self.old) place row }
        ensures slots { KeepsSlots self.old self.new }
    {
        let number = u64::from(row.number());
        self.list.put_at(number, row, place);
    }

    /// Puts a row last. Where memory runs out the rows stay.
    pub fn push(&mut self, row: R) -> Result<(), Memory>
        requires { row_with R.number_of (R.number_of row) (rows_in self.old) ≡ None }
        ensures ok { OnOk result (rows_in self.new ≡ rows_in self.old ++ row ∷ []) }
        ensures err { OnErr result (rows_in self.new ≡ rows_in self.old) }
    {
        let number = u64::from(row.number());
        self.list.push(number, row)?;
        Ok(())
    }

    /// Takes the row with a number out, and gives its place with it. It takes no memory, and a row
    /// that is put in at that place takes none either.
    pub fn take(&mut self, number: u32) -> Option<(usize, R)>
        ensures row { IfSome result (λ r. slice_get (rows_in self.old) r.0 ≡ Some r.1) }
        ensures number { IfSome result (λ r. R.number_of r.1 ≡ number) }
        ensures rows { rows_in self.new ≡ without_row R.number_of number (rows_in self.old) }
        ensures back { IfSome result (λ r. rows_in self.old ≡ insert (rows_in self.new) r.0 r.1) }
        ensures none { IfNone result (row_with R.number_of number (rows_in self.old) ≡ None) }
        ensures slots { KeepsSlots self.old self.new }
        ensures slot { OnSome result (HasSlot self.new number) }
    {
        self.list.take(u64::from(number))
    }

    /// Takes the row with a number out, which is there, and gives its place with it. A row of its
    /// number that is put in at the place stands where this one stood. It takes no memory, and neither
    /// does what is put in.
    pub fn take_there(&mut self, number: u32) -> (usize, R)
        requires { IsSome (row_with R.number_of number (rows_in self.old)) }
        ensures row { slice_get (rows_in self.old) result.0 ≡ Some result.1 }
        ensures number { R.number_of result.1 ≡ number }
        ensures found { row_with R.number_of number (rows_in self.old) ≡ Some result.1 }
        ensures rows { rows_in self.new ≡ without_row R.number_of number (rows_in self.old) }
        ensures slot { HasSlot self.new (R.number_of result.1) }
        ensures absent { row_with R.number_of (R.number_of result.1) (rows_in self.new) ≡ None }
        ensures place { result.0 ≤ length (rows_in self.new) }
        ensures back { (row : R) → R.number_of row ≡ R.number_of result.1
            → insert (rows_in self.new) result.0 row ≡ with_row R.number_of row (rows_in self.old) }
        ensures slots { KeepsSlots self.old self.new }
    {
        self.take(number).unwrap()
    }

    /// Takes the rows with two different numbers out, which are there, and gives each with its place,
    /// the second's as it is where the first is out. It takes no memory, and neither do rows of these
    /// numbers that are put in.
    pub fn take_both(&mut self, first: u32, second: u32) -> ((usize, R), (usize, R))
        requires first { IsSome (row_with R.number_of first (rows_in self.old)) }
        requires second { IsSome (row_with R.number_of second (rows_in self.old)) }
        requires differ { first ≢ second }
        ensures first_row { slice_get (rows_in self.old) result.0.0 ≡ Some result.0.1 }
        ensures first_found { row_with R.number_of first (rows_in self.old) ≡ Some result.0.1 }
        ensures first_slot { HasSlot self.new (R.number_of result.0.1) }
        ensures second_row { slice_get (without_row R.number_of first (rows_in self.old)) result.1.0
            ≡ Some result.1.1 }
        ensures second_found { row_with R.number_of second (rows_in self.old) ≡ Some result.1.1 }
        ensures second_slot { HasSlot self.new (R.number_of result.1.1) }
        ensures rows { rows_in self.new ≡ without_row R.number_of second
            (without_row R.number_of first (rows_in self.old)) }
        ensures absent { (n : ℕ) → row_with R.number_of n (rows_in self.old) ≡ None
            → row_with R.number_of n (rows_in self.new) ≡ None }
        ensures slots { KeepsSlots self.old self.new }
    {
        let first_taken = self.take_there(first);
        let second_taken = self.take_there(second);
        (first_taken, second_taken)
    }

    /// Puts a row in the place of the one with its number, and gives that one. It takes no memory.
    pub fn replace(&mut self, row: R) -> R
        requires { IsSome (row_with R.number_of (R.number_of row) (rows_in self.old)) }
        ensures old { row_with R.number_of (R.number_of row) (rows_in self.old) ≡ Some result }
        ensures rows { rows_in self.new ≡ with_row R.number_of row (rows_in self.old) }
        ensures slots { KeepsSlots self.old self.new }
    {
        let number = u64::from(row.number());
        self.list.replace(number, row)
    }

    /// The same rows, with room for as many.
    pub fn copy(&self) -> Result<Rows<R>, Memory>
        ensures { IfOk result (λ copied. rows_in copied ≡ rows_in self.now) }
    {
        let mut copied = Rows::with_room(self.allocator(), self.hash(), self.list.len())?;
        for place in 0..self.len() {
            let row = self.at(place).unwrap();
            copied.push(row.copied()?)?;
        }
        Ok(copied)
    }
}
