//! Lists under keys.
ghost use Rattle.std.specs.Prelude.{◌≡◌, ◌≤◌, ◌<◌, ◌++◌, ◌∷◌, [], length, option_copied, IsOk, IfOk, OnOk, OnErr, slice_set, slice_get, Some, None, swap_remove, true, IfSome, IfNone};
ghost use Rattle.key_lists.specs.Held.{items_at, list_at, capacity_at, HasRoomAt, KeepsOthers, IsSame, IsUnderAt};

use crate::items::Items;
use crate::short::Short;
use number_hash::NumberHash;
use number_table::NumberTable;
use std::alloc::{AllocError, Global};
use std::marker::Model;

/// Under each key a list of items; under a key that was never given room, the empty one.
///
/// Up to six items stand in the key's row of the table. Only where more are to fit does a list take
/// memory of its own, and then it keeps it.
///
/// Only `reserve` and `push` take memory, and `reserve` changes no item. A key keeps its list with
/// its room, also where no item is left, so a change that is taken back needs no memory either. Each
/// call but those two takes a look into the table, and no time by the length of the list.
pub struct KeyLists<X: Short> {
    lists: NumberTable<Items<X>>,
    // No key above it was ever given room.
    greatest: u64,
}

// Written out, so that the end of one is a single call in a caller's proof.
impl<X: Short> Drop for KeyLists<X> {
    fn drop(self) {
        let KeyLists {
            lists: _lists,
            greatest: _greatest,
        } = self;
    }
}

impl<X: Short> Model for KeyLists<X> {
    ghost use Rattle.key_lists.specs.Held.{Held, NoneAbove};

    ghost Value = { Held X };

    ghost view = { λ a. a.lists };

    ghost invariant = { λ a. NoneAbove a.greatest a.lists };
}

impl<X: Short> KeyLists<X> {
    /// No items, and no room under any key. The keys will be found by this hash.
    pub fn new(alloc: Global, hash: NumberHash) -> Self
        ensures { result ≡ [] }
    {
        KeyLists {
            lists: NumberTable::new(alloc, hash),
            greatest: 0,
        }
    }

    /// No items, and a table with room for so many keys, which then need not grow.
    pub fn with_room(alloc: Global, hash: NumberHash, keys: usize) -> Result<Self, AllocError>
        ensures none { IfOk result (λ lists. lists ≡ []) }
        ensures succeeds { keys ≡ 0 → IsOk result }
    {
        Ok(KeyLists {
            lists: NumberTable::with_room(alloc, hash, keys)?,
            greatest: 0,
        })
    }

    // The place of the list under a key.
    fn place_of(&self, key: u64) -> Option<usize>
        ensures there { IfSome result (λ place. IsUnderAt self.now place key) }
        ensures none { IfNone result (list_at self.now key ≡ None) }
    {
        if key > self.greatest {
            return None;
        }
        self.lists.place_of(key)
    }

    // The list under a key. What reads mostly finds it at the first guess.
    #[inline(always)]
    fn find(&self, key: u64) -> Option<&Items<X>>
        ensures { option_copied result ≡ list_at self.now key }
    {
        self.lists.get(key)
    }

    /// The items under a key.
    #[inline(always)]
    pub fn at(&self, key: u64) -> &[X]
        ensures { result.now ≡ items_at self.now key }
    {
        match self.find(key) {
            Some(list) => list.as_slice(),
            None => &[],
        }
    }

    // Puts an item behind those at a place, which are under a key.
    fn push_at(&mut self, place: usize, key: u64, item: X) -> Result<(), AllocError>
        requires { IsUnderAt self.old place key }
        ensures items { OnOk result (items_at self.new key ≡ items_at self.old key ++ item ∷ []) }
        ensures others { KeepsOthers key self.old self.new }
        ensures capacity { capacity_at self.old key ≤ capacity_at self.new key }
        ensures had_room { HasRoomAt self.old key 1 → IsOk result }
        ensures err { OnErr result (IsSame self.old self.new) }
        ensures err_room { OnErr result (capacity_at self.new key ≡ capacity_at self.old key) }
    {
        let items = self.lists.value_at(place);
        items.push(item)
    }

    // Sees that so many items more fit under the key at a place.
    fn reserve_at(&mut self, place: usize, key: u64, more: usize) -> Result<(), AllocError>
        requires { IsUnderAt self.old place key }
        ensures room { OnOk result (HasRoomAt self.new key more) }
        ensures same { IsSame self.old self.new }
        ensures capacity { capacity_at self.old key ≤ capacity_at self.new key }
        ensures others { KeepsOthers key self.old self.new }
        ensures had_room { HasRoomAt self.old key more → IsOk result }
        ensures err { OnErr result (capacity_at self.new key ≡ capacity_at self.old key) }
    {
        let items = self.lists.value_at(place);
        items.reserve(more)
    }

    /// Sees that so many items more fit under a key. It takes memory where they don't yet, and
    /// time by the items under the key. The items stay as they are; where memory runs out, the
    /// room too.
    pub fn reserve(&mut self, key: u64, more: usize) -> Result<(), AllocError>
        ensures room { OnOk result (HasRoomAt self.new key more) }
        ensures same { IsSame self.old self.new }
        ensures capacity { capacity_at self.old key ≤ capacity_at self.new key }
        ensures others { KeepsOthers key self.old self.new }
        ensures had_room { HasRoomAt self.old key more → IsOk result }
        ensures err { OnErr result (capacity_at self.new key ≡ capacity_at self.old key) }
    {
        if let Some(place) = self.place_of(key) {
            return self.reserve_at(place, key, more);
        }
        if more == 0 {
            return Ok(());
        }
        let alloc = self.lists.allocator();
        let mut list = Items::new(alloc);
        list.reserve(more)?;
        self.lists.push(key, list)?;
        self.greatest = self.greatest.max(key);
        Ok(())
    }

    /// Puts an item behind those under a key, in one look into the table. It takes memory where the
    /// key has no room; where memory runs out, all items and all room stay as they are.
    pub fn push(&mut self, key: u64, item: X) -> Result<(), AllocError>
        ensures items { OnOk result (items_at self.new key ≡ items_at self.old key ++ item ∷ []) }
        ensures others { KeepsOthers key self.old self.new }
        ensures capacity { capacity_at self.old key ≤ capacity_at self.new key }
        ensures had_room { HasRoomAt self.old key 1 → IsOk result }
        ensures err { OnErr result (IsSame self.old self.new) }
        ensures err_room { OnErr result (capacity_at self.new key ≡ capacity_at self.old key) }
    {
        if let Some(place) = self.place_of(key) {
            return self.push_at(place, key, item);
        }
        let alloc = self.lists.allocator();
        let mut list = Items::new(alloc);
        list.push(item)?;
        self.lists.push(key, list)?;
        self.greatest = self.greatest.max(key);
        Ok(())
    }

    /// Puts an item behind those under a key that has room for it. It takes no memory.
    pub fn put(&mut self, key: u64, item: X)
        requires { HasRoomAt self.old key 1 }
        ensures items { items_at self.new key ≡ items_at self.old key ++ item ∷ [] }
        ensures capacity { capacity_at self.new key ≡ capacity_at self.old key }
        ensures others { KeepsOthers key self.old self.new }
    {
        let place = self.place_of(key).unwrap();
        let items = self.lists.value_at(place);
        items.put(item);
    }

    /// Takes the item at a place out and gives it; the last one under the key takes its place. It
    /// takes no memory, and there is room for one more after it.
    pub fn take(&mut self, key: u64, place: usize) -> X
        requires { place < length (items_at self.old key) }
        ensures item { slice_get (items_at self.old key) place ≡ Some result }
        ensures items { items_at self.new key ≡ swap_remove (items_at self.old key) place result }
        ensures room { HasRoomAt self.new key 1 }
        ensures capacity { capacity_at self.new key ≡ capacity_at self.old key }
        ensures others { KeepsOthers key self.old self.new }
    {
        let found = self.place_of(key).unwrap();
        let items = self.lists.value_at(found);
        items.swap_remove(place)
    }

    /// Puts an item in the place of another. It takes no memory.
    pub fn set(&mut self, key: u64, place: usize, item: X)
        requires { place < length (items_at self.old key) }
        ensures items { items_at self.new key ≡ slice_set (items_at self.old key) place item }
        ensures capacity { capacity_at self.new key ≡ capacity_at self.old key }
        ensures others { KeepsOthers key self.old self.new }
    {
        let found = self.place_of(key).unwrap();
        let items = self.lists.value_at(found);
        items.set(place, item);
    }
}
