//! The numbers of parcels that mergers ended.
ghost use Rattle.std.specs.Prelude.{◌≡◌, ◌++◌, ◌∷◌, ◌==◌, [], length, slice_get, OnOk, OnErr, IfOk};
ghost use Rattle.std.specs.List.{list_any};

use cad_rows::{Memory, Numbers, ParcelNo};
use indexmap::IndexSet;
use number_hash::NumberHash;
use std::alloc::Global;
use std::marker::Model;

/// Numbers in order of entry, each found without a look at the others. One may stand there twice.
#[derive(Drop)]
pub(crate) struct Retired {
    list: Numbers<ParcelNo>,
    // The same numbers, each once.
    found: IndexSet<u32, NumberHash>,
}

impl Model for Retired {
    ghost use Rattle.std.specs.Prelude.{◌≡◌, ◌==◌, ℕ, List, nat_eq};
    ghost use Rattle.std.specs.List.{list_any};
    ghost use Rattle.indexmap.specs.IndexSet.{contains};

    ghost Value = { List ℕ };

    ghost view = { λ a. a.list };

    ghost invariant = { λ a. (n : ℕ) → contains nat_eq a.found n ≡ list_any (λ k. k == n) a.list };
}

impl Retired {
    pub(crate) fn new(alloc: Global, hash: NumberHash) -> Retired
        ensures { result ≡ [] }
    {
        Retired {
            list: Numbers::new(alloc),
            found: IndexSet::with_hasher(alloc, hash),
        }
    }

    pub(crate) fn len(&self) -> usize
        ensures { result ≡ length self.now }
    {
        self.list.len()
    }

    /// The number at a place in order of entry, and `None` past the end.
    pub(crate) fn get(&self, place: usize) -> Option<ParcelNo>
        ensures { result ≡ slice_get self.now place }
    {
        self.list.get(place)
    }

    /// Whether a number is one of these.
    pub(crate) fn contains(&self, no: ParcelNo) -> bool
        ensures { result ≡ list_any (λ n. n == no) self.now }
    {
        self.found.contains(&no.get())
    }

    /// Puts a number last. Where memory runs out the numbers stay.
    pub(crate) fn push(&mut self, no: ParcelNo) -> Result<(), Memory>
        ensures ok { OnOk result (self.new ≡ self.old ++ no ∷ []) }
        ensures err { OnErr result (self.new ≡ self.old) }
    {
        // with room for it, the set takes it for sure
        self.found.reserve(1)?;
        self.list.push(no)?;
        let _ = self.found.insert(no.get());
        Ok(())
    }

    /// The same numbers.
    pub(crate) fn copy(&self) -> Result<Retired, Memory>
        ensures { IfOk result (λ copied. copied ≡ self.now) }
    {
        let mut copied = Retired::new(*self.found.allocator(), *self.found.hasher());
        for place in 0..self.len() {
            copied.push(self.get(place).unwrap())?;
        }
        Ok(copied)
    }
}
