//! Rows that are added, removed, exchanged and moved.
ghost use Rattle.std.specs.Prelude.{◌≡◌, ◌+◌, ◌<◌, ◌++◌, ◌∷◌, [], length, take, None, Some};
ghost use Rattle.std.specs.Prelude.{OnOk, OnErr};
ghost use Rattle.std.specs.Prelude.{nat_eq, slice_get, swap, swap_remove};
ghost use Rattle.std.specs.Borrow.{sem};
ghost use Rattle.std.specs.Map.{lookup, values_of};
ghost use Rattle.indexmap.specs.IndexMap.{move_index};
ghost use Rattle.indexmap.specs.Layout.{set_value_at};
ghost use Rattle.number_table.specs.Lends.{LendsValue};
ghost use Rattle.number_table.specs.Rows.{AreDistinct, IsSame, Updates};

use crate::table::NumberTable;
use std::alloc::AllocError;
use std::mem;

impl<V> NumberTable<V> {
    /// The value at a place, to write. Its number stays.
    pub fn value_at(&mut self, place: usize) -> &mut V
        requires { place < length self.old }
        ensures* writes_back { sem 𝓛 (LendsValue V.row self.entry place result) }
        ensures value { slice_get (values_of self.old) place ≡ Some result.now }
        ensures distinct { AreDistinct self.old }
    {
        let (_, value) = self.rows.pair_mut(place);
        value
    }

    /// Puts a value in the place of another, under the same number, and gives that one.
    pub fn replace_at(&mut self, place: usize, value: V) -> V
        requires { place < length self.old }
        ensures old { slice_get (values_of self.old) place ≡ Some result }
        ensures new { self.new ≡ set_value_at self.old place value }
        ensures distinct { AreDistinct self.old }
    {
        mem::replace(self.value_at(place), value)
    }

    /// Puts a row behind all others. Where memory runs out the table stays as it is.
    pub fn push(&mut self, number: u64, value: V) -> Result<(), AllocError>
    where
        V: Drop,
        requires absent { lookup (nat_eq number) self.old ≡ None }
        ensures rows { OnOk result (self.new ≡ self.old ++ (number, value) ∷ []) }
        ensures updates { OnOk result (Updates self.old self.new number (Some value)) }
        ensures err { OnErr result (self.new ≡ self.old) }
        ensures distinct { AreDistinct self.new }
    {
        self.rows.insert(number, value)?;
        Ok(())
    }

    /// Exchanges two rows.
    pub fn swap(&mut self, a: usize, b: usize)
        requires a_within { a < length self.old }
        requires b_within { b < length self.old }
        ensures rows { self.new ≡ swap self.old a b }
        ensures same { IsSame self.old self.new }
        ensures distinct { AreDistinct self.new }
    {
        self.rows.swap_indices(a, b);
    }

    /// Takes the row at a place out and gives it, with its number. The last row takes its place.
    pub fn swap_remove(&mut self, place: usize) -> (u64, V)
        requires { place < length self.old }
        ensures row { slice_get self.old place ≡ Some result }
        ensures rows { self.new ≡ swap_remove self.old place result }
        ensures last { place + 1 ≡ length self.old → self.new ≡ take place self.old }
        ensures updates { Updates self.old self.new result.0 None }
        ensures distinct { AreDistinct self.new }
    {
        self.rows.swap_remove_index(place).unwrap()
    }

    /// Moves a row to another place, and those between by one towards where it was.
    pub fn move_row(&mut self, from: usize, to: usize)
    where
        V: Drop,
        requires from_within { from < length self.old }
        requires to_within { to < length self.old }
        ensures rows { self.new ≡ move_index self.old from to }
        ensures same { IsSame self.old self.new }
        ensures distinct { AreDistinct self.new }
    {
        self.rows.move_index(from, to);
    }
}
