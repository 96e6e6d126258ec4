//! What a walk round a ring tells, before and after a move.
ghost use Rattle.std.specs.Prelude.{◌≡◌, ◌≤◌, unsigned_abs};
ghost use Rattle.std.specs.List.{Contains};
ghost use Rattle.cad_rings.specs.Cycle.{Side, sides_of};
ghost use Rattle.cad_map.specs.declared.boundary.Boundary.{Boundary as BoundaryOf};
ghost use Rattle.cad_map.specs.Map.{all_sides};
ghost use Rattle.cad_map.specs.Rings.{HasWholeRings};
ghost use Rattle.cad_near.specs.Moves.{lay as lay_of, IsRound};

use crate::Moved;
use cad_map::{MapView, Walk, position};
use cad_rows::PointNo;
use geo_exact::{DoubledArea, Pt, SideMeasure};

/// The doubled area of a ring, the one that it had before a move, and the least of its points.
#[derive(Clone, Copy)]
pub(crate) struct Round {
    pub(crate) area: i128,
    pub(crate) area_before: i128,
    pub(crate) least: PointNo,
}

/// Where a point that is at a position lay before one was moved from elsewhere.
fn lay(moved: PointNo, from: Pt, point: PointNo, at: Pt) -> Pt
    ensures { result ≡ lay_of (record { point = moved; from = from }) point at }
{
    if point.get() == moved.get() { from } else { at }
}

/// What a walk round the ring that has a side tells.
pub(crate) fn round_along<M: MapView>(map: &M, moved: &Moved, from: PointNo, to: PointNo) -> Round
    requires whole { HasWholeRings (M.map map.now) }
    requires side { Contains {X = Side} (all_sides (M.map map.now)) (from, to) }
    ensures round { (b : BoundaryOf) → Contains (M.map map.now).boundaries b
        → Contains {X = Side} (sides_of b.ring) (from, to)
        → IsRound (M.map map.now) moved.now b.ring result }
    ensures small { unsigned_abs result.area ≤ 80000000000000000000000000 }
{
    let mut area = 0;
    let mut area_before = 0;
    let mut least = from;
    for (at, end) in Walk::from(map, from, to) {
        let (a, b) = (position(map, at), position(map, end));
        area += DoubledArea.of(a, b);
        let a_before = lay(moved.point, moved.from, at, a);
        let b_before = lay(moved.point, moved.from, end, b);
        area_before += DoubledArea.of(a_before, b_before);
        if at.get() < least.get() {
            least = at;
        }
    }
    Round {
        area,
        area_before,
        least,
    }
}
