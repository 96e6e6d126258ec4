//! The table, and what is read of it.
ghost use Rattle.std.specs.Prelude.{◌≡◌, ◌^◌, ◌<◌, ◌↔◌, [], length, None, slice_get, nat_eq};
ghost use Rattle.std.specs.Prelude.{option_map, option_copied, IsSome, IfSome, IfNone};
ghost use Rattle.std.specs.Prelude.{IfOk, IsOk, IsTrue};
ghost use Rattle.std.specs.Map.{lookup, values_of};
ghost use Rattle.number_table.specs.Rows.{AreDistinct, HasNumberAt};

use indexmap::IndexMap;
use number_hash::NumberHash;
use std::alloc::{AllocError, Global};
use std::marker::Model;

/// Values under numbers, in order of entry.
///
/// Numbers mostly follow one another without a gap, so the row of one is looked for first where it
/// would then be, counted from the second row, since the first may stand apart, and from the last.
/// Only where another number stands there is it hashed.
///
/// Only `push` fails where memory runs out.
pub struct NumberTable<V> {
    pub(crate) rows: IndexMap<u64, V, NumberHash>,
}

// Written out, so that the end of one is a single call in a caller's proof.
impl<V: Drop> Drop for NumberTable<V> {
    fn drop(self) {
        let NumberTable { rows: _rows } = self;
    }
}

impl<V> Model for NumberTable<V> {
    ghost use Rattle.number_table.specs.Rows.{Rows};

    ghost Value = { Rows V };

    ghost view = { λ a. a.rows.entries };
}

impl<V> NumberTable<V> {
    /// No rows. Numbers that don't follow one another will be found by this hash.
    pub fn new(alloc: Global, hash: NumberHash) -> Self
        ensures { result ≡ [] }
    {
        NumberTable {
            rows: IndexMap::with_hasher(alloc, hash),
        }
    }

    /// No rows, and room for so many.
    pub fn with_room(alloc: Global, hash: NumberHash, rows: usize) -> Result<Self, AllocError>
        ensures none { IfOk result (λ table. table ≡ []) }
        ensures succeeds { rows ≡ 0 → IsOk result }
    {
        Ok(NumberTable {
            rows: IndexMap::with_capacity_and_hasher(alloc, rows, hash)?,
        })
    }

    /// What the table takes its memory from.
    pub fn allocator(&self) -> Global {
        *self.rows.allocator()
    }

    /// How the table finds numbers that don't follow one another.
    pub fn hash(&self) -> NumberHash {
        *self.rows.hasher()
    }

    /// The number of rows. No number has two.
    pub fn len(&self) -> usize
        ensures len { result ≡ length self.now }
        ensures small { result < 2 ^ 63 }
        ensures distinct { AreDistinct self.now }
    {
        self.rows.len()
    }

    /// The row at a place, with its number; none from the length on.
    pub fn at(&self, place: usize) -> Option<(u64, &V)>
        ensures row { option_map (λ r. (r.0, r.1.now)) result ≡ slice_get self.now place }
        ensures found { IsSome result ↔ (place < length self.now) }
        ensures value { IfSome result (λ r. lookup (nat_eq r.0) self.now ≡ Some r.1.now) }
    {
        let (number, value) = self.rows.get_index(place)?;
        Some((*number, value))
    }

    // Where a number stands if all from the second row's on follow one another, as they mostly do.
    fn place_from_second(&self, number: u64) -> usize {
        match self.rows.get_index(1) {
            Some((second, _)) => number.wrapping_sub(*second).wrapping_add(1) as usize,
            None => 0,
        }
    }

    // Where a number stands if all up to the last row's follow one another, as the newest mostly do.
    fn place_from_last(&self, number: u64) -> usize {
        let last = self.rows.len().wrapping_sub(1);
        match self.rows.get_index(last) {
            Some((other, _)) => last.wrapping_sub(other.wrapping_sub(number) as usize),
            None => 0,
        }
    }

    // Whether the row at a place has a number.
    #[inline(always)]
    fn is_at(&self, place: usize, number: u64) -> bool
        ensures { IsTrue result ↔ HasNumberAt self.now place number }
    {
        match self.rows.get_index(place) {
            Some((other, _)) => *other == number,
            None => false,
        }
    }

    /// The place of the row with the number; none where no row has it.
    pub fn place_of(&self, number: u64) -> Option<usize>
        ensures there { IfSome result (λ place. HasNumberAt self.now place number) }
        ensures within { IfSome result (λ place. place < length self.now) }
        ensures value { IfSome result (λ place.
            slice_get (values_of self.now) place ≡ lookup (nat_eq number) self.now) }
        ensures none { IfNone result (lookup (nat_eq number) self.now ≡ None) }
        ensures distinct { AreDistinct self.now }
    {
        let _rows = self.rows.len();
        let likely = self.place_from_second(number);
        if self.is_at(likely, number) {
            return Some(likely);
        }
        self.find_place(number)
    }

    // The place of the row with a number that isn't where it would be, counted from the second row.
    #[cold]
    #[inline(never)]
    fn find_place(&self, number: u64) -> Option<usize>
        ensures there { IfSome result (λ place. HasNumberAt self.now place number) }
        ensures none { IfNone result (lookup (nat_eq number) self.now ≡ None) }
    {
        let place = self.place_from_last(number);
        if self.is_at(place, number) {
            return Some(place);
        }
        self.rows.get_index_of(&number)
    }

    /// The value under the number. What reads mostly finds it at the first place.
    #[inline(always)]
    pub fn get(&self, number: u64) -> Option<&V>
        ensures { option_copied result ≡ lookup (nat_eq number) self.now }
    {
        let likely = self.place_from_second(number);
        if let Some((other, value)) = self.rows.get_index(likely) {
            if *other == number {
                return Some(value);
            }
        }
        let place = self.find_place(number)?;
        let (_, value) = self.rows.get_index(place)?;
        Some(value)
    }
}
