//! Sums of measures over the sides of a ring.
ghost use Rattle.std.specs.Prelude.{◌≡◌, ◌≤◌, ◌*◌, ◌+ℤ◌, ℕ, List, length, unsigned_abs};
ghost use Rattle.geo_exact.specs.Measure.{measure_limit};
ghost use Rattle.cad_rings.specs.Cycle.{Ring, ring_sum};
ghost use Rattle.cad_rings.specs.Positions.{IsPlaced, ArePlaced, position_in};
ghost use Rattle.cad_rings.specs.Surgery.{AreTwoPlaces, left_ring, right_ring, HaveChainInCommon, joined};

use super::Ring;
use cad_rows::{PointNo, STRING_LIMIT};
use geo_exact::{Pt, SideMeasure};

/// The most points of a ring whose sides are measured: two for each string that a map may have.
pub const RING_LIMIT: usize = 2 * STRING_LIMIT;

// Where the point is. Of its entries the first counts.
fn position_of(positions: &[(PointNo, Pt)], point: PointNo) -> Pt
    requires { IsPlaced positions.now point }
    ensures { result ≡ position_in positions.now point }
{
    for (number, position) in positions {
        if *number == point {
            return *position;
        }
    }
    unreachable!()
}

impl Ring {
    /// The measures of the ring's sides, added up: by `DoubledArea` its signed area in doubled square millimetres, by
    /// `Winding` how often it goes around a position. Each point is where its first entry in `positions` has it, which is
    /// looked up entry by entry. Takes no memory.
    ///
    /// The sum for the area of a polygon of O'Rourke, Computational Geometry in C, section 1.3, for any measure.
    pub fn sum<F: SideMeasure>(&self, positions: &[(PointNo, Pt)], measure: &F) -> i128
        requires placed { ArePlaced positions.now self.now }
        requires few { length self.now ≤ RING_LIMIT }
        ensures value { result
            ≡ ring_sum (F.measure measure.now) (position_in positions.now) self.now }
        ensures small { unsigned_abs result ≤ length self.now * measure_limit }
        ensures cut { (i j : ℕ) (inner : List ℕ) → AreTwoPlaces i j self.now
            → let sum_of = ring_sum (F.measure measure.now) (position_in positions.now) in
            sum_of (left_ring i j inner self.now) +ℤ sum_of (right_ring i j inner self.now)
            ≡ result }
        ensures joined { (i j m : ℕ) (kept ended : Ring) → HaveChainInCommon i j m kept ended
            → self.now ≡ joined i j m kept ended
            → let sum_of = ring_sum (F.measure measure.now) (position_in positions.now) in
            sum_of kept +ℤ sum_of ended ≡ result }
    {
        let mut total = 0;
        for (from, to) in self.sides() {
            total += measure.of(position_of(positions, from), position_of(positions, to));
        }
        total
    }
}
