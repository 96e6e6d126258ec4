//! Whether a join leaves rings as they were to one another: seen by the two that go along the new
//! string, and by the points that lie near it.
ghost use Rattle.std.specs.Prelude.{◌≡◌, ◌≢◌, ◌≤◌, ◌*◌, unsigned_abs, IsTrue, IfSome};
ghost use Rattle.std.specs.List.{Contains};
ghost use Rattle.geo_exact.specs.Measure.{measure_limit};
ghost use Rattle.cad_rows.specs.declared.names.Face.{Face as FaceOf};
ghost use Rattle.cad_rows.specs.declared.rows.PointRow.{PointRow as PointOf};
ghost use Rattle.cad_rings.specs.Cycle.{Side};
ghost use Rattle.cad_map.specs.Map.{all_sides};
ghost use Rattle.cad_map.specs.Rings.{HasWholeRings};
ghost use Rattle.cad_near.specs.Joins.{area_of_bend as area_of_bend_of, JoinsValid};
ghost use Rattle.cad_near.specs.Joins.{LeavesJoined, SeesAlike, TurnsAlong};
ghost use Rattle.cad_near.specs.Near.{HoldsMap, OfFace, HasOutlines, HasSoundHoles};

use crate::moves::{go_past_alike, is_same_turn};
use crate::rays::Ray;
use crate::rounds::round_along;
use crate::{Joined, Moved};
use cad_map::{MapView, is_face, position};
use cad_rows::{Face, PointNo};
use cell_grid::CellGrid;
use geo_exact::{DoubledArea, Pt, SideMeasure};

/// Whether a join, if there was one, is seen to leave the rings of a face as they were to one another.
/// It walks along those that go along the new string, and looks at what the grid holds near it.
pub(crate) fn joins_face<M: MapView>(
    map: &M,
    grid: &CellGrid,
    face: &Face,
    joined: Option<&Joined>,
) -> bool
    requires whole { HasWholeRings (M.map map.now) }
    requires held { HoldsMap grid.now (M.map map.now) }
    requires joined { IfSome joined (λ j. JoinsValid (M.map map.now) j.now) }
    ensures outlines { IsTrue result → OfFace (M.map map.now) (HasOutlines (M.map map.now)) face.now }
    ensures holes { IsTrue result → OfFace (M.map map.now) (HasSoundHoles (M.map map.now)) face.now }
{
    match joined {
        Some(joined) => leaves_rings(map, grid, face, joined),
        None => false,
    }
}

/// Whether a join is seen to leave the rings of a face as they were to one another.
fn leaves_rings<M: MapView>(map: &M, grid: &CellGrid, face: &Face, joined: &Joined) -> bool
    requires whole { HasWholeRings (M.map map.now) }
    requires held { HoldsMap grid.now (M.map map.now) }
    ensures { IsTrue result → LeavesJoined (M.map map.now) face.now joined.now }
{
    if !is_seen_alike(map, grid, joined) {
        return false;
    }
    turns_if_of_face(map, face, joined, joined.first, joined.second)
        && turns_if_of_face(map, face, joined, joined.second, joined.first)
}

/// Whether each other point that the grid holds is seen to have the new string on the side where it
/// had the two that were joined: as where the point that went was moved to the string's first end.
fn is_seen_alike<M: MapView>(map: &M, grid: &CellGrid, joined: &Joined) -> bool
    requires held { HoldsMap grid.now (M.map map.now) }
    ensures { IsTrue result → (p : PointOf) → Contains (M.map map.now).points p
        → p.number ≢ joined.now.point → SeesAlike (M.map map.now) joined.now p.position }
{
    let first = Ray {
        far: joined.first,
        position: position(map, joined.first),
    };
    let second = Ray {
        far: joined.second,
        position: position(map, joined.second),
    };
    let moved = Moved {
        point: joined.point,
        from: first.position,
    };
    go_past_alike(grid, &moved, joined.position, &[first, second])
}

/// Whether the ring along a side, where it is one of a face, is positive or negative as it was round
/// by the point that went, and has its anchor elsewhere.
fn turns_if_of_face<M: MapView>(
    map: &M,
    face: &Face,
    joined: &Joined,
    from: PointNo,
    to: PointNo,
) -> bool
    requires whole { HasWholeRings (M.map map.now) }
    ensures { IsTrue result → TurnsAlong (M.map map.now) face.now joined.now (from, to) }
{
    match map.face_of(from, to) {
        Some(left) => !is_face(face, &left) || turns_round(map, joined, from, to),
        None => true,
    }
}

/// Whether the ring along a side is, and has.
fn turns_round<M: MapView>(map: &M, joined: &Joined, from: PointNo, to: PointNo) -> bool
    requires whole { HasWholeRings (M.map map.now) }
    requires side { Contains {X = Side} (all_sides (M.map map.now)) (from, to) }
    ensures { IsTrue result → (f : FaceOf) → TurnsAlong (M.map map.now) f joined.now (from, to) }
{
    let moved = Moved {
        point: joined.point,
        from: joined.position,
    };
    let round = round_along(map, &moved, from, to);
    let bend = area_of_bend(position(map, from), joined.position, position(map, to));
    round.least.get() < joined.point.get() && is_same_turn(round.area, round.area + bend)
}

/// Twice the area between the sides from a by p to b and the side from a to b, in doubled square
/// millimetres: what a ring has more in its own where its side from a to b goes by p.
pub fn area_of_bend(a: Pt, p: Pt, b: Pt) -> i128
    ensures value { result ≡ area_of_bend_of a p b }
    ensures small { unsigned_abs result ≤ 3 * measure_limit }
{
    DoubledArea.of(a, p) + DoubledArea.of(p, b) - DoubledArea.of(a, b)
}
