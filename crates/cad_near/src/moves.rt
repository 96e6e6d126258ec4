//! Whether a move leaves rings as they were to one another: seen by the rings that pass the point, and
//! by the points that lie near it. A split counts as a move of the new point.
ghost use Rattle.std.specs.Prelude.{◌≡◌, ◌≢◌, ◌==◌, ◌||◌, ℕ, pos, int_lt, true, not, IsTrue, IfSome};
ghost use Rattle.std.specs.List.{AllByRecursion, Contains, list_all};
ghost use Rattle.geo_exact.specs.Position.{Position};
ghost use Rattle.cad_rows.specs.declared.names.Face.{Face as FaceOf};
ghost use Rattle.cell_grid.specs.Grid.{HoldsPoint};
ghost use Rattle.cad_rings.specs.Cycle.{Side};
ghost use Rattle.cad_map.specs.Map.{all_sides, position_of};
ghost use Rattle.cad_map.specs.Rings.{HasWholeRings};
ghost use Rattle.cad_near.specs.Moves.{is_counted_anew as is_counted_anew_of};
ghost use Rattle.cad_near.specs.Moves.{goes_past_alike as goes_past_alike_of};
ghost use Rattle.cad_near.specs.Moves.{goes_past_but as goes_past_but_of};
ghost use Rattle.cad_near.specs.Moves.{is_past_alike as is_past_alike_of};
ghost use Rattle.cad_near.specs.Moves.{GoesClear, IsPast, LeavesRings, MovesValid, TurnAlong};
ghost use Rattle.cad_near.specs.Near.{HoldsMap, OfFace, HasOutlines, HasSoundHoles};
ghost use Rattle.cad_near.specs.Rays.{AreRaysOf};
ghost use Rattle.cad_near.specs.Seen.{IsInReach};

use crate::Moved;
use crate::rays::{MOST_RAYS, Ray, rays_at};
use crate::rounds::round_along;
use crate::seen::{Reach, grown, is_small};
use crate::ways::{goes_clear, is_alone_at};
use cad_map::{MapView, is_face, position};
use cad_rows::{Face, PointNo};
use cell_grid::{CellGrid, HeldPoint};
use geo_exact::{Pt, crosses};

/// Whether a move, if there was one, is seen to leave the rings of a face as they were to one another.
/// It walks along those that pass the point, and looks at what the grid holds near it.
pub(crate) fn leaves_face<M: MapView>(
    map: &M,
    grid: &CellGrid,
    face: &Face,
    moved: Option<&Moved>,
) -> bool
    requires whole { HasWholeRings (M.map map.now) }
    requires held { HoldsMap grid.now (M.map map.now) }
    requires moved { IfSome moved (λ v. MovesValid (M.map map.now) v.now) }
    ensures outlines { IsTrue result → OfFace (M.map map.now) (HasOutlines (M.map map.now)) face.now }
    ensures holes { IsTrue result → OfFace (M.map map.now) (HasSoundHoles (M.map map.now)) face.now }
{
    match moved {
        Some(moved) => leaves_rings(map, grid, face, moved),
        None => false,
    }
}

/// Whether a move is seen to leave the rings of a face as they were to one another.
fn leaves_rings<M: MapView>(map: &M, grid: &CellGrid, face: &Face, moved: &Moved) -> bool
    requires whole { HasWholeRings (M.map map.now) }
    requires held { HoldsMap grid.now (M.map map.now) }
    ensures { IsTrue result → LeavesRings (M.map map.now) face.now moved.now }
{
    if map.degree(moved.point) > MOST_RAYS {
        return false;
    }
    let rays = rays_at(map, moved.point);
    let at = position(map, moved.point);
    if !go_past(map, grid, face, moved, at, rays.as_slice()) {
        return false;
    }
    if turn_as_before(map, face, moved, false, rays.as_slice()) {
        return true;
    }
    leaves_anchor(map, grid, face, moved, at, rays.as_slice())
}

/// Whether the rings of a face that pass a moved point turn as before, whose rays these are, and it went
/// clear of others, so that it may be the anchor of one.
fn leaves_anchor<M: MapView>(
    map: &M,
    grid: &CellGrid,
    face: &Face,
    moved: &Moved,
    at: Pt,
    rays: &[Ray],
) -> bool
    requires whole { HasWholeRings (M.map map.now) }
    requires held { HoldsMap grid.now (M.map map.now) }
    requires rays { AreRaysOf (M.map map.now) moved.now.point rays.now }
    requires at { at ≡ position_of (M.map map.now) moved.now.point }
    ensures clear { IsTrue result → GoesClear (M.map map.now) face.now moved.now }
    ensures turn { IsTrue result → AllByRecursion
        (λ r. TurnAlong (M.map map.now) face.now moved.now true r.far) rays.now }
{
    goes_clear(map, grid, face, moved, at, rays) && turn_as_before(map, face, moved, true, rays)
}

// ---- Points

/// Whether of the sides from a ray's end to where a point is and to where it lay one is counted at q.
fn is_counted_anew(at: Pt, from: Pt, q: Pt, ray: &Ray) -> bool
    ensures { result ≡ is_counted_anew_of at from q ray.now.position }
{
    if crosses(ray.position, at, q) {
        !crosses(ray.position, from, q)
    } else {
        crosses(ray.position, from, q)
    }
}

/// Whether a point went past q with all its sides.
fn goes_past_with_all(at: Pt, from: Pt, rays: &[Ray], q: Pt) -> bool
    ensures { result ≡ list_all (λ r. is_counted_anew_of at from q r.position) rays.now }
{
    rays.iter().all(|ray| is_counted_anew(at, from, q, ray))
}

/// Whether it went past q with none of them.
fn goes_past_with_none(at: Pt, from: Pt, rays: &[Ray], q: Pt) -> bool
    ensures { result ≡ list_all (λ r. not (is_counted_anew_of at from q r.position)) rays.now }
{
    rays.iter().all(|ray| !is_counted_anew(at, from, q, ray))
}

/// Whether it went past q with all its sides, or with none.
fn goes_past_alike(at: Pt, from: Pt, rays: &[Ray], q: Pt) -> bool
    ensures { result ≡ goes_past_alike_of at from rays.now q }
{
    goes_past_with_all(at, from, rays, q) || goes_past_with_none(at, from, rays, q)
}

/// Whether a held point is the moved one, or that went past it so.
fn is_past_alike(at: Pt, moved: &Moved, rays: &[Ray], held: &HeldPoint) -> bool
    ensures { result ≡ is_past_alike_of at moved.now rays.now held.now }
{
    held.point.get() == moved.point.get() || goes_past_alike(at, moved.from, rays, held.position)
}

/// Whether a point went past a held one with all its sides but the one to that.
fn goes_past_with_all_but(at: Pt, from: Pt, rays: &[Ray], held: &HeldPoint) -> bool
    ensures { result ≡ list_all (λ r. (r.far == held.now.point)
        || is_counted_anew_of at from held.now.position r.position) rays.now }
{
    rays.iter().all(|ray| {
        ray.far.get() == held.point.get() || is_counted_anew(at, from, held.position, ray)
    })
}

/// Whether it went past that with none of them.
fn goes_past_with_none_but(at: Pt, from: Pt, rays: &[Ray], held: &HeldPoint) -> bool
    ensures { result ≡ list_all (λ r. (r.far == held.now.point)
        || not (is_counted_anew_of at from held.now.position r.position)) rays.now }
{
    rays.iter().all(|ray| {
        ray.far.get() == held.point.get() || !is_counted_anew(at, from, held.position, ray)
    })
}

/// Whether it went past that with all of them, or with none.
fn goes_past_but(at: Pt, from: Pt, rays: &[Ray], held: &HeldPoint) -> bool
    ensures { result ≡ goes_past_but_of at from rays.now held.now }
{
    goes_past_with_all_but(at, from, rays, held) || goes_past_with_none_but(at, from, rays, held)
}

/// Whether it went past a held point with all its sides or with none, or did so but for the side to that,
/// which one ring of the face alone passes.
fn goes_past<M: MapView>(
    map: &M,
    face: &Face,
    moved: &Moved,
    at: Pt,
    rays: &[Ray],
    held: &HeldPoint,
) -> bool
    requires { HasWholeRings (M.map map.now) }
    ensures { IsTrue result → IsPast (M.map map.now) face.now moved.now at rays.now held.now }
{
    if is_past_alike(at, moved, rays, held) {
        return true;
    }
    if !goes_past_but(at, moved.from, rays, held) {
        return false;
    }
    is_alone_at(map, face, held.point)
}

/// The box of a point, of where it lay, and of the ends of its rays.
pub(crate) fn reach_round(at: Pt, from: Pt, rays: &[Ray]) -> Reach
    ensures at { IsInReach result at }
    ensures from { IsInReach result from }
    ensures rays { AllByRecursion (λ r. IsInReach result r.position) rays.now }
{
    let mut reach = grown(Reach { low: at, high: at }, from);
    for ray in rays {
        reach = grown(reach, ray.position);
    }
    reach
}

/// Whether the moved point is seen to have gone past each other point that the grid holds with all its
/// sides, or with none. It looks at those in the box round its rays, where that is small: past all
/// others it does.
pub(crate) fn go_past_alike(grid: &CellGrid, moved: &Moved, at: Pt, rays: &[Ray]) -> bool
    ensures { IsTrue result → (n : ℕ) (q : Position) → HoldsPoint grid.now n q
        → n ≢ moved.now.point
        → IsTrue (goes_past_alike_of at moved.now.from rays.now q) }
{
    let reach = reach_round(at, moved.from, rays);
    is_small(&reach)
        && grid
            .point_candidates(reach.low, reach.high)
            .all(|held| is_past_alike(at, moved, rays, &held))
}

/// Whether it is seen to have gone past each other point that the grid holds as the rings of a face ask.
/// It looks at those in the same box.
fn go_past<M: MapView>(
    map: &M,
    grid: &CellGrid,
    face: &Face,
    moved: &Moved,
    at: Pt,
    rays: &[Ray],
) -> bool
    requires { HasWholeRings (M.map map.now) }
    ensures { IsTrue result → (n : ℕ) (q : Position) → HoldsPoint grid.now n q → n ≢ moved.now.point
        → IsPast (M.map map.now) face.now moved.now at rays.now
        (record { point = n; position = q }) }
{
    let reach = reach_round(at, moved.from, rays);
    is_small(&reach)
        && grid
            .point_candidates(reach.low, reach.high)
            .all(|held| goes_past(map, face, moved, at, rays, &held))
}

// ---- Rings

/// Whether two doubled areas are both positive, both negative, or both nothing.
pub(crate) fn is_same_turn(a: i128, b: i128) -> bool
    ensures positive { IsTrue result → int_lt (pos 0) a ≡ int_lt (pos 0) b }
    ensures negative { IsTrue result → int_lt a (pos 0) ≡ int_lt b (pos 0) }
{
    (a > 0) == (b > 0) && (a < 0) == (b < 0)
}

/// Whether the ring that leaves a moved point along one side is positive or negative as it was, and
/// has its anchor elsewhere, unless the point went clear.
fn turns_as_before<M: MapView>(map: &M, moved: &Moved, clear: bool, to: PointNo) -> bool
    requires whole { HasWholeRings (M.map map.now) }
    requires side { Contains {X = Side} (all_sides (M.map map.now)) (moved.now.point, to) }
    ensures { IsTrue result → (f : FaceOf) → TurnAlong (M.map map.now) f moved.now clear to }
{
    let round = round_along(map, moved, moved.point, to);
    if !clear {
        if round.least.get() >= moved.point.get() {
            return false;
        }
    }
    is_same_turn(round.area, round.area_before)
}

/// Whether it does, where it is a ring of a face.
fn turns_if_of_face<M: MapView>(
    map: &M,
    face: &Face,
    moved: &Moved,
    clear: bool,
    to: PointNo,
) -> bool
    requires whole { HasWholeRings (M.map map.now) }
    requires side { Contains {X = Side} (all_sides (M.map map.now)) (moved.now.point, to) }
    ensures { IsTrue result → TurnAlong (M.map map.now) face.now moved.now clear to }
{
    if let Some(left) = map.face_of(moved.point, to) {
        if !is_face(face, &left) {
            return true;
        }
    }
    turns_as_before(map, moved, clear, to)
}

/// Whether all rings of a face that pass a moved point do, whose rays these are.
fn turn_as_before<M: MapView>(
    map: &M,
    face: &Face,
    moved: &Moved,
    clear: bool,
    rays: &[Ray],
) -> bool
    requires whole { HasWholeRings (M.map map.now) }
    requires rays { AreRaysOf (M.map map.now) moved.now.point rays.now }
    ensures { IsTrue result
        → AllByRecursion (λ r. TurnAlong (M.map map.now) face.now moved.now clear r.far) rays.now }
{
    for ray in rays {
        if !turns_if_of_face(map, face, moved, clear, ray.far) {
            return false;
        }
    }
    true
}
