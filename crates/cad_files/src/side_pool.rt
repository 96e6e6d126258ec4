//! The sides of a plan while its rings are made.
ghost use Rattle.std.specs.Prelude.{◌≡◌, ◌≢◌, ◌<◌, ◌≤◌, ◌∷◌, [], true, false, length, map, slice_get, Some, IfOk, IfSome, IfNone, IsPermutation, ℕ};
ghost use Rattle.std.specs.List.{AllByRecursion, Contains};
ghost use Rattle.cad_map.specs.Valid.{EachPair};
ghost use Rattle.cad_files.specs.Cycles.{side_of_followed, side_behind, plan_side_of, followed_side, AreLinked};

use crate::sides::PlanSide;
use cad_rows::Memory;
use std::alloc::Global;
use std::marker::Model;

/// The sides of a plan, of which some are taken: those of the rings that are made.
#[derive(Drop)]
pub(crate) struct SidePool {
    sides: Vec<PlanSide>,
    // Of each side, whether it is taken.
    is_taken: Vec<bool>,
    // Each side before this place is taken.
    first: usize,
}

impl Model for SidePool {
    ghost use Rattle.cad_files.specs.Pool.{Pool, untaken_sides, IsPool};

    ghost Value = { Pool };

    ghost view = { λ a. record {
      all = a.sides.items;
      left = untaken_sides a.sides.items a.is_taken.items;
    } };

    ghost invariant = { λ a. IsPool a.sides.items a.is_taken.items a.first };
}

// The first place, from one on, at which no flag is set.
fn first_unset(flags: &[bool], from: usize) -> Option<usize>
    ensures past { IfSome result (λ k. from ≤ k) }
    ensures within { IfSome result (λ k. k < length flags.now) }
    ensures at { IfSome result (λ k. slice_get flags.now k ≡ Some false) }
    ensures before { IfSome result (λ k. (j : ℕ) → from ≤ j → j < k
        → slice_get flags.now j ≡ Some true) }
    ensures none { IfNone result ((j : ℕ) → from ≤ j → j < length flags.now
        → slice_get flags.now j ≡ Some true) }
{
    for place in from..flags.len() {
        if !flags[place] {
            return Some(place);
        }
    }
    None
}

impl SidePool {
    /// All these sides.
    pub(crate) fn of(alloc: Global, sides: Vec<PlanSide>) -> Result<SidePool, Memory>
        requires once { EachPair (λ a b. a ≢ b) (map plan_side_of sides.items) }
        requires linked { AreLinked sides.items }
        ensures all { IfOk result (λ pool. pool.all ≡ sides.items) }
        ensures left { IfOk result (λ pool. pool.left ≡ map followed_side sides.items) }
    {
        let mut is_taken = Vec::new(alloc);
        for _ in 0..sides.len() {
            is_taken.push(false)?;
        }
        Ok(SidePool {
            sides,
            is_taken,
            first: 0,
        })
    }

    /// Takes the first side that is left.
    pub(crate) fn take_first(&mut self) -> Option<PlanSide>
        ensures among { IfSome result (λ s. Contains self.old.all s) }
        ensures some { IfSome result (λ s. IsPermutation self.old.left (followed_side s
            ∷ self.new.left)) }
        ensures none { IfNone result ((self.old.left ≡ []) × (self.new ≡ self.old)) }
        ensures all { self.new.all ≡ self.old.all }
    {
        let Some(place) = first_unset(self.is_taken.as_slice(), self.first) else {
            return None;
        };
        self.first = place + 1;
        self.is_taken[place] = true;
        Some(self.sides[place])
    }

    /// Takes the side that follows one of the sides, if it is left.
    pub(crate) fn take_next(&mut self, last: &PlanSide) -> Option<PlanSide>
        requires { Contains self.old.all last.now }
        ensures among { IfSome result (λ s. Contains self.old.all s) }
        ensures some { IfSome result (λ s. (plan_side_of s ≡ side_behind (followed_side last.now))
            × IsPermutation self.old.left (followed_side s ∷ self.new.left)) }
        ensures none { IfNone result
            (AllByRecursion (λ s. side_of_followed s ≢ side_behind (followed_side last.now))
            self.old.left
            × (self.new ≡ self.old)) }
        ensures all { self.new.all ≡ self.old.all }
    {
        let next = last.next;
        if self.is_taken[next] {
            return None;
        }
        self.is_taken[next] = true;
        Some(self.sides[next])
    }
}
