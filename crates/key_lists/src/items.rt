//! A short list, which keeps a few items in itself.
ghost use Rattle.std.specs.Prelude.{◌≡◌, ◌+◌, ◌<◌, ◌≤◌, ◌++◌, ◌∷◌, [], length, Some};
ghost use Rattle.std.specs.Prelude.{IsOk, OnOk, OnErr};
ghost use Rattle.std.specs.Prelude.{slice_get, slice_set, swap_remove};

use smallvec::SmallVec;
use std::alloc::{AllocError, Global};
use std::marker::Model;

/// So many items a list keeps in itself; more take memory.
const SHORT: usize = 6;

/// A list of items. Up to six stand in the list itself; more take memory of their own, and a list
/// that once took some keeps it.
#[derive(Drop)]
pub(crate) struct Items<X> {
    list: SmallVec<X, SHORT>,
}

impl<X> Model for Items<X> {
    ghost use Rattle.key_lists.specs.Kept.{Kept};

    ghost Value = { Kept X };

    ghost view = { λ a. record { items = a.list.items; capacity = a.list.capacity } };
}

impl<X: Copy + Default> Items<X> {
    /// No items.
    pub(crate) fn new(alloc: Global) -> Self
        ensures { result.items ≡ [] }
    {
        Items {
            list: SmallVec::new(alloc),
        }
    }

    /// The items, in their order.
    #[inline(always)]
    pub(crate) fn as_slice(&self) -> &[X]
        ensures { result.now ≡ self.now.items }
    {
        self.list.as_slice()
    }

    /// Sees that so many items more fit. It takes memory where they don't yet; where that runs out,
    /// all stays as it is.
    pub(crate) fn reserve(&mut self, more: usize) -> Result<(), AllocError>
        ensures items { self.new.items ≡ self.old.items }
        ensures room { OnOk result (length self.new.items + more ≤ self.new.capacity) }
        ensures capacity { self.old.capacity ≤ self.new.capacity }
        ensures had_room { length self.old.items + more ≤ self.old.capacity → IsOk result }
        ensures err { OnErr result (self.new.capacity ≡ self.old.capacity) }
    {
        self.list.reserve(more)
    }

    /// Puts an item behind the others, where there is room for it. It takes no memory.
    pub(crate) fn put(&mut self, item: X)
        requires { length self.old.items + 1 ≤ self.old.capacity }
        ensures items { self.new.items ≡ self.old.items ++ item ∷ [] }
        ensures capacity { self.new.capacity ≡ self.old.capacity }
    {
        self.list.push_reserved(item);
    }

    /// Puts an item behind the others. It takes memory where there is no room for it; where that
    /// runs out, all stays as it is.
    pub(crate) fn push(&mut self, item: X) -> Result<(), AllocError>
        ensures items { OnOk result (self.new.items ≡ self.old.items ++ item ∷ []) }
        ensures capacity { self.old.capacity ≤ self.new.capacity }
        ensures had_room { length self.old.items + 1 ≤ self.old.capacity → IsOk result }
        ensures err { OnErr result (self.new.items ≡ self.old.items) }
        ensures err_room { OnErr result (self.new.capacity ≡ self.old.capacity) }
    {
        self.reserve(1)?;
        self.put(item);
        Ok(())
    }

    /// Takes the item at a place out and gives it; the last one takes its place. There is room for
    /// one more after it.
    pub(crate) fn swap_remove(&mut self, place: usize) -> X
        requires { place < length self.old.items }
        ensures item { slice_get self.old.items place ≡ Some result }
        ensures items { self.new.items ≡ swap_remove self.old.items place result }
        ensures room { length self.new.items + 1 ≤ self.new.capacity }
        ensures capacity { self.new.capacity ≡ self.old.capacity }
    {
        let _length = self.list.len();
        self.list.swap_remove(place)
    }

    /// Puts an item in the place of another.
    pub(crate) fn set(&mut self, place: usize, item: X)
        requires { place < length self.old.items }
        ensures items { self.new.items ≡ slice_set self.old.items place item }
        ensures capacity { self.new.capacity ≡ self.old.capacity }
    {
        self.list.as_mut_slice()[place] = item;
    }
}
