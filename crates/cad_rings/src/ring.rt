//! Rings in memory.
ghost use Rattle.std.specs.Prelude.{◌≡◌, ◌≤◌, ◌<◌, length, position, slice_index, IfOk};
ghost use Rattle.cad_rings.specs.Cycle.{sides_of, is_side, has_side as has_side_of, after_side as after_side_of, anchor_of, turned};
ghost use Rattle.cad_rings.specs.Canonical.{least_rotation};
ghost use Rattle.cad_rings.specs.SidesLeft.{sides_left};

mod sum;
mod surgery;

use crate::canonical::{least_place, turned_at};
use crate::corners::{after_side, has_side, place_of};
use crate::sides::Sides;
use cad_rows::{Memory, PointNo};
use std::alloc::Global;
use std::marker::Model;
pub use sum::RING_LIMIT;

/// A cyclic list of two points or more, with the parcel to its left.
#[derive(Drop)]
pub struct Ring {
    points: Vec<PointNo>,
}

impl Model for Ring {
    ghost use Rattle.std.specs.Prelude.{ℕ, List, length, ◌≤◌};

    ghost Value = { List ℕ };

    ghost view = { λ a. a.points.items };

    ghost invariant = { λ a. 2 ≤ length a.points.items };
}

impl Ring {
    /// The ring of these points, of which the first follows the last.
    pub fn from_points(alloc: Global, points: &[PointNo]) -> Result<Ring, Memory>
        requires { 2 ≤ length points.now }
        ensures { IfOk result (λ ring. ring ≡ points.now) }
    {
        let points = Vec::from_slice(alloc, points)?;
        Ok(Ring { points })
    }

    /// An equal ring.
    pub fn copy(&self) -> Result<Ring, Memory>
        ensures { IfOk result (λ copied. copied ≡ self.now) }
    {
        let alloc = *self.points.allocator();
        let points = Vec::from_slice(alloc, self.points.as_slice())?;
        Ok(Ring { points })
    }

    /// How many points the ring has, and so how many sides.
    pub fn len(&self) -> usize
        ensures value { result ≡ length self.now }
        ensures at_least_two { 2 ≤ result }
    {
        self.points.len()
    }

    /// The point at a place of the ring as it is written from another place on.
    pub fn turned_at(&self, start: usize, place: usize) -> PointNo
        requires start { start ≤ length self.now }
        requires place { place < length self.now }
        ensures { result ≡ slice_index (turned start self.now) place }
    {
        turned_at(self.points.as_slice(), start, place)
    }

    /// The points as a slice, in the order in which they were given.
    pub fn points(&self) -> &[PointNo]
        ensures { result.now ≡ self.now }
    {
        self.points.as_slice()
    }

    /// Writes the ring from the point on from which it comes before all its other rotations, by point numbers. Takes no
    /// memory.
    pub fn make_canonical(&mut self)
        ensures canonical_form { self.new ≡ least_rotation self.old }
        ensures at_least_two { 2 ≤ length self.new }
    {
        let place = least_place(self.points.as_slice());
        self.points.as_mut_slice().rotate_left(place);
    }

    /// The sides, of which the last leads back to the first point.
    pub fn sides(&self) -> Sides<'_>
        ensures { sides_left result ≡ sides_of self.now }
    {
        Sides::of(self.points.as_slice())
    }

    /// Whether the ring has the side from one point to another.
    pub fn has_side(&self, from: PointNo, to: PointNo) -> bool
        ensures { result ≡ has_side_of (from, to) (sides_of self.now) }
    {
        has_side(self.points.as_slice(), from, to)
    }

    /// The place of the side from one point to another, and so of the point that it leaves, and `None` where the ring
    /// doesn't have that side. Of several times that the ring goes along the side, it is the first place.
    pub fn place_of(&self, from: PointNo, to: PointNo) -> Option<usize>
        ensures { result ≡ position (is_side (from, to)) (sides_of self.now) }
    {
        place_of(self.points.as_slice(), from, to)
    }

    /// The point that comes after the side from one point to another, and `None` where the ring doesn't have that side.
    /// Of several times that the ring goes along the side, it is the point after the first.
    pub fn after(&self, from: PointNo, to: PointNo) -> Option<PointNo>
        ensures { result ≡ after_side_of (from, to) self.now }
    {
        after_side(self.points.as_slice(), from, to)
    }

    /// The least of its point numbers.
    pub fn anchor(&self) -> PointNo
        ensures { result ≡ anchor_of self.now }
    {
        let points = self.points.as_slice();
        let mut least = points[0];
        for point in points {
            if point.get() < least.get() {
                least = *point;
            }
        }
        least
    }
}
