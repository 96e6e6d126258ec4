//! Lists of numbers.
ghost use Rattle.std.specs.Prelude.{◌≡◌, ◌≢◌, ◌++◌, ◌∷◌, [], length, slice_get, ◌↔◌, IsTrue, OnOk, OnErr, IfOk, IfSome};
ghost use Rattle.std.specs.List.{AllPairs};

use crate::memory::Memory;
use smallvec::SmallVec;
use std::alloc::Global;
use std::marker::Model;

/// So many numbers a list keeps in itself; more take memory.
const SHORT: usize = 4;

/// A list of numbers, in order. It may have been told whether one stands twice. Up to four take no
/// memory of their own.
#[derive(Debug, Drop)]
pub struct Numbers<N> {
    items: SmallVec<N, SHORT>,
    distinct: Option<bool>,
}

impl<N> Model for Numbers<N> {
    ghost use Rattle.std.specs.Prelude.{List, IfSome, IsTrue, ◌↔◌, ◌≢◌};
    ghost use Rattle.std.specs.List.{AllPairs};

    ghost Value = { List N };

    ghost view = { λ a. a.items.items };

    ghost invariant = { λ a. IfSome a.distinct
        (λ told. IsTrue told ↔ AllPairs (λ x y. x ≢ y) a.items.items) };
}

impl<N: Copy + Default> Numbers<N> {
    /// The empty list.
    pub fn new(alloc: Global) -> Self
        ensures { result ≡ [] }
    {
        Numbers {
            items: SmallVec::new(alloc),
            distinct: None,
        }
    }

    /// The same list, which is told whether no two of its numbers are equal.
    pub fn told(self, distinct: bool) -> Self
        requires { IsTrue distinct ↔ AllPairs (λ x y. x ≢ y) self }
        ensures { result ≡ self }
    {
        Numbers {
            items: self.items,
            distinct: Some(distinct),
        }
    }

    /// Whether no two numbers are equal, as the list was told. `None` where it wasn't told, or has grown since.
    pub fn distinct_as_told(&self) -> Option<bool>
        ensures { IfSome result (λ told. IsTrue told ↔ AllPairs (λ x y. x ≢ y) self.now) }
    {
        self.distinct
    }

    /// Puts a number last. Where memory runs out the list stays as it was.
    pub fn push(&mut self, no: N) -> Result<(), Memory>
        ensures ok { OnOk result (self.new ≡ self.old ++ no ∷ []) }
        ensures err { OnErr result (self.new ≡ self.old) }
    {
        self.items.push(no)?;
        self.distinct = None;
        Ok(())
    }

    /// How many numbers the list has.
    pub fn len(&self) -> usize
        ensures { result ≡ length self.now }
    {
        self.items.len()
    }

    /// Whether the list has no number.
    pub fn is_empty(&self) -> bool
        ensures { IsTrue result ↔ (self.now ≡ []) }
    {
        self.items.is_empty()
    }

    /// The number at a place, counted from 0, and `None` past the end.
    pub fn get(&self, i: usize) -> Option<N>
        ensures { result ≡ slice_get self.now i }
    {
        self.items.as_slice().get(i).copied()
    }

    /// The numbers as a slice.
    pub fn as_slice(&self) -> &[N]
        ensures { result.now ≡ self.now }
    {
        self.items.as_slice()
    }

    /// An equal list.
    pub fn copy(&self) -> Result<Self, Memory>
        ensures { IfOk result (λ copied. copied ≡ self.now) }
    {
        let alloc = *self.items.allocator();
        let items = SmallVec::from_slice(alloc, self.items.as_slice())?;
        Ok(Numbers {
            items,
            distinct: self.distinct,
        })
    }
}
