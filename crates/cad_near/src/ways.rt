//! Whether a moved point went clear of all but what it is on: then a ring has its place inside where it
//! had it, also where the point is an anchor.
ghost use Rattle.std.specs.Prelude.{◌≡◌, ◌≢◌, ◌≤◌, ◌↔◌, ℕ, false, count_by, IsTrue};
ghost use Rattle.std.specs.List.{AllByRecursion, Contains};
ghost use Rattle.geo_exact.specs.Position.{Position};
ghost use Rattle.geo_exact.specs.SignTest.{boxes_overlap};
ghost use Rattle.cad_rows.specs.declared.rows.StringRow.{StringRow as StringOf};
ghost use Rattle.cell_grid.specs.Grid.{HoldsPoint};
ghost use Rattle.cad_rings.specs.Cycle.{has_side};
ghost use Rattle.cad_map.specs.Map.{face_sides, is_end as is_end_of, position_of};
ghost use Rattle.cad_map.specs.Rings.{HasWholeRings};
ghost use Rattle.cad_map.specs.Valid.{HasSoundRows};
ghost use Rattle.cad_map.specs.Views.{HasSide};
ghost use Rattle.cad_near.specs.Moves.{lies_elsewhere as lies_elsewhere_of, GoesClear, PassesAlone};
ghost use Rattle.cad_near.specs.Near.{HoldsMap, OfString};
ghost use Rattle.cad_near.specs.Rays.{AreRaysOf};

use crate::Moved;
use crate::rays::{MOST_RAYS, Ray, rays_at};
use cad_map::{MapView, is_end, is_face};
use cad_rows::{Face, PointNo, StringNo};
use cell_grid::{CellGrid, HeldPoint};
use geo_exact::Pt;

/// Whether a held point is the moved one, or lies elsewhere than that lay.
fn lies_elsewhere(moved: &Moved, held: &HeldPoint) -> bool
    ensures { result ≡ lies_elsewhere_of moved.now held.now }
{
    held.point.get() == moved.point.get()
        || held.position.x != moved.from.x
        || held.position.y != moved.from.y
}

/// Whether no other point that the grid holds lies where a moved point lay.
fn has_left(grid: &CellGrid, moved: &Moved) -> bool
    ensures { IsTrue result → (n : ℕ) (q : Position) → HoldsPoint grid.now n q
        → n ≢ moved.now.point → q ≢ moved.now.from }
{
    grid.point_candidates(moved.from, moved.from)
        .all(|held| lies_elsewhere(moved, &held))
}

/// Whether the string with a number, if the map has it, has an end at a point.
#[tactic(auto, using(crate::proofs::RowsByNumber::rows_found))]
pub(crate) fn ends_there<M: MapView>(map: &M, string: StringNo, point: PointNo) -> bool
    requires { HasSoundRows (M.map map.now) }
    ensures { IsTrue result
        ↔ OfString (M.map map.now) (λ s. IsTrue (is_end_of s point)) string }
{
    match map.string(string) {
        Some(row) => is_end(row, point),
        None => true,
    }
}

/// The same, where all of these strings that the map has do: one of them isn't looked up.
fn is_own<M: MapView>(map: &M, own: &[StringNo], string: StringNo, point: PointNo) -> bool
    requires sound { HasSoundRows (M.map map.now) }
    requires own { AllByRecursion
        (OfString (M.map map.now) (λ s. IsTrue (is_end_of s point))) own.now }
    ensures { IsTrue result
        ↔ OfString (M.map map.now) (λ s. IsTrue (is_end_of s point)) string }
{
    own.contains(&string) || ends_there(map, string, point)
}

/// Whether no string that the grid holds comes near the way between two positions, but those of a point.
/// `own`: strings of the point, which need not be looked up.
pub(crate) fn is_way_clear<M: MapView>(
    map: &M,
    grid: &CellGrid,
    own: &[StringNo],
    point: PointNo,
    from: Pt,
    to: Pt,
) -> bool
    requires sound { HasSoundRows (M.map map.now) }
    requires held { HoldsMap grid.now (M.map map.now) }
    requires own { AllByRecursion
        (OfString (M.map map.now) (λ s. IsTrue (is_end_of s point))) own.now }
    ensures { IsTrue result → (s : StringOf) → Contains (M.map map.now).strings s
        → is_end_of s point ≡ false → boxes_overlap from to
        (position_of (M.map map.now) s.from) (position_of (M.map map.now) s.to) ≡ false }
{
    grid.candidates(from, to)
        .all(|held| is_own(map, own, held.string, point))
}

/// Whether a face has the side that leaves a point along a ray.
fn is_out_of_face<M: MapView>(map: &M, face: &Face, point: PointNo, ray: &Ray) -> bool
    requires { HasWholeRings (M.map map.now) }
    ensures { HasSide (M.map map.now) face.now (point, ray.now.far) → IsTrue result }
{
    match map.face_of(point, ray.far) {
        Some(left) => is_face(face, &left),
        None => false,
    }
}

/// Whether one ring of a face at most passes a point, whose rays these are.
fn is_passed_once<M: MapView>(map: &M, face: &Face, point: PointNo, rays: &[Ray]) -> bool
    requires { HasWholeRings (M.map map.now) }
    ensures { IsTrue result → count_by
        (λ r. has_side (point, r.far) (face_sides (M.map map.now) face.now)) rays.now ≤ 1 }
{
    let mut times = 0usize;
    for ray in rays {
        if is_out_of_face(map, face, point, ray) {
            times += 1;
        }
    }
    times <= 1
}

/// Whether one ring of a face at most passes a point of few strings.
pub(crate) fn is_alone_at<M: MapView>(map: &M, face: &Face, point: PointNo) -> bool
    requires { HasWholeRings (M.map map.now) }
    ensures { IsTrue result → PassesAlone (M.map map.now) face.now point }
{
    if map.degree(point) > MOST_RAYS {
        return false;
    }
    let rays = rays_at(map, point);
    is_passed_once(map, face, point, rays.as_slice())
}

/// Whether a moved point is seen to have gone clear of all rings of a face but one that it is on.
pub(crate) fn goes_clear<M: MapView>(
    map: &M,
    grid: &CellGrid,
    face: &Face,
    moved: &Moved,
    at: Pt,
    rays: &[Ray],
) -> bool
    requires whole { HasWholeRings (M.map map.now) }
    requires held { HoldsMap grid.now (M.map map.now) }
    requires rays { AreRaysOf (M.map map.now) moved.now.point rays.now }
    requires at { at ≡ position_of (M.map map.now) moved.now.point }
    ensures { IsTrue result → GoesClear (M.map map.now) face.now moved.now }
{
    if !is_passed_once(map, face, moved.point, rays) || !has_left(grid, moved) {
        return false;
    }
    is_way_clear(map, grid, &[], moved.point, moved.from, at)
}
