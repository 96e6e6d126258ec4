//! Whether a moved point went past all others, with all of its strings: then V3 and V4 still hold.
ghost use Rattle.std.specs.Prelude.{◌≡◌, ◌≢◌, ◌↔◌, ℕ, IsTrue};
ghost use Rattle.std.specs.List.{AllByRecursion, list_all};
ghost use Rattle.geo_exact.specs.Position.{Position};
ghost use Rattle.cad_rows.specs.declared.refusals.Rule.TheVariants.{V3, V4};
ghost use Rattle.cell_grid.specs.Grid.{HoldsPoint};
ghost use Rattle.cad_map.specs.Map.{is_end as is_end_of};
ghost use Rattle.cad_map.specs.Valid.{EachPair, HasSoundRows, HasTwoEnds, Keeps};
ghost use Rattle.cad_near.specs.Near.{ComesFromValid, HoldsMap, OfString, touched_of};
ghost use Rattle.cad_near.specs.Triangles.{is_past_three as is_past_three_of};
ghost use Rattle.cad_near.specs.Triangles.{is_beyond as is_beyond_of};
ghost use Rattle.cad_near.specs.Triangles.{is_seen_outside as is_seen_outside_of};
ghost use Rattle.cad_near.specs.Triangles.{is_past_ray as is_past_ray_of};
ghost use Rattle.cad_near.specs.Triangles.{is_past_rays as is_past_rays_of};
ghost use Rattle.cad_near.specs.Triangles.{has_area as has_area_of};
ghost use Rattle.cad_near.specs.Triangles.{AreSeenClear, LeadApart, MovesClear, TouchesAlone};

use crate::moves::reach_round;
use crate::rays::{MOST_RAYS, Ray, rays_at};
use crate::seen::is_small;
use crate::ways::{ends_there, is_way_clear};
use crate::{Moved, Touched};
use cad_map::{MapView, position};
use cad_rows::{PointNo, StringNo};
use cell_grid::{CellGrid, HeldPoint};
use geo_exact::{Pt, lies_outside, orient};

/// Whether a move is seen to leave points apart, and strings meeting only at ends: the edit touched no
/// more than a point of few strings, these swept over no other point, and no other string comes near
/// the point's way. It takes no memory.
pub(crate) fn is_move_clear<M: MapView>(map: &M, grid: &CellGrid, touched: &Touched) -> bool
    requires sound { HasSoundRows (M.map map.now) }
    requires two { HasTwoEnds (M.map map.now) }
    requires held { HoldsMap grid.now (M.map map.now) }
    requires touched { ComesFromValid (touched_of touched.now) (M.map map.now) }
    ensures distinct { IsTrue result → Keeps (M.map map.now) V3 }
    ensures uncrossed { IsTrue result → Keeps (M.map map.now) V4 }
{
    match touched.moved.as_ref() {
        Some(moved) => {
            touches_alone(map, touched, moved.point)
                && moves_clear(map, grid, touched.strings.as_slice(), moved)
        }
        None => false,
    }
}

// ---- What was touched

/// Whether an edit touched no point but this one, and no string but its own.
fn touches_alone<M: MapView>(map: &M, touched: &Touched, point: PointNo) -> bool
    requires { HasSoundRows (M.map map.now) }
    ensures { IsTrue result → TouchesAlone (M.map map.now) (touched_of touched.now) point }
{
    are_this(touched.points.as_slice(), point) && end_there(map, touched.strings.as_slice(), point)
}

/// Whether all of these are one point.
fn are_this(points: &[PointNo], point: PointNo) -> bool
    ensures { IsTrue result ↔ AllByRecursion (λ q. q ≡ point) points.now }
{
    points.iter().all(|other| other.get() == point.get())
}

/// Whether the string at a place among those that have a point is the one with a number.
fn is_string_at<M: MapView>(map: &M, point: PointNo, place: usize, string: StringNo) -> bool
    requires { HasSoundRows (M.map map.now) }
    ensures { IsTrue result
        → OfString (M.map map.now) (λ s. IsTrue (is_end_of s point)) string }
{
    match map.span_with(point, place) {
        Some(span) => span.string.get() == string.get(),
        None => false,
    }
}

/// Whether the string with a number, if the map has it, has an end at a point. It is looked up only
/// where it isn't the one at a place among those that have the point.
fn ends_at<M: MapView>(map: &M, string: StringNo, point: PointNo, place: usize) -> bool
    requires { HasSoundRows (M.map map.now) }
    ensures { IsTrue result
        ↔ OfString (M.map map.now) (λ s. IsTrue (is_end_of s point)) string }
{
    if is_string_at(map, point, place, string) {
        return true;
    }
    ends_there(map, string, point)
}

/// Whether all of these strings that the map has have an end at a point. Mostly they are those that
/// have the point, in the order in which the map tells them, and so no string is looked up.
fn end_there<M: MapView>(map: &M, strings: &[StringNo], point: PointNo) -> bool
    requires { HasSoundRows (M.map map.now) }
    ensures { IsTrue result ↔ AllByRecursion
        (OfString (M.map map.now) (λ s. IsTrue (is_end_of s point))) strings.now }
{
    for place in 0..strings.len() {
        if !ends_at(map, strings[place], point, place) {
            return false;
        }
    }
    true
}

// ---- What the strings swept

/// Whether a point of few strings went clear of all other points and strings. `own`: strings of the
/// point.
fn moves_clear<M: MapView>(map: &M, grid: &CellGrid, own: &[StringNo], moved: &Moved) -> bool
    requires sound { HasSoundRows (M.map map.now) }
    requires held { HoldsMap grid.now (M.map map.now) }
    requires own { AllByRecursion
        (OfString (M.map map.now) (λ s. IsTrue (is_end_of s moved.now.point))) own.now }
    ensures { IsTrue result → MovesClear (M.map map.now) moved.now }
{
    let degree = map.degree(moved.point);
    if degree == 0 || degree > MOST_RAYS {
        return false;
    }
    let rays = rays_at(map, moved.point);
    let at = position(map, moved.point);
    are_seen_clear(grid, moved, at, rays.as_slice())
        && is_way_clear(map, grid, own, moved.point, moved.from, at)
}

/// Whether the rays of a moved point lead to different points, and their triangles have area and no
/// other point is seen in them.
fn are_seen_clear(grid: &CellGrid, moved: &Moved, at: Pt, rays: &[Ray]) -> bool
    ensures { IsTrue result → AreSeenClear grid.now moved.now at rays.now }
{
    lead_apart(rays) && have_area(moved.from, at, rays) && is_all_past(grid, moved, at, rays)
}

/// Whether no two rays lead to one point.
fn lead_apart(rays: &[Ray]) -> bool
    ensures { IsTrue result → EachPair LeadApart rays.now }
{
    for place in 0..rays.len() {
        if !leads_elsewhere(&rays[..place], &rays[place]) {
            return false;
        }
    }
    true
}

/// Whether a ray leads to another point than each of those before it.
fn leads_elsewhere(earlier: &[Ray], ray: &Ray) -> bool
    ensures { IsTrue result ↔ AllByRecursion (λ e. LeadApart e ray.now) earlier.now }
{
    earlier.iter().all(|other| other.far.get() != ray.far.get())
}

/// Whether the triangle of a ray has area: between its far end, where the point lay, and where it is.
fn has_area(from: Pt, at: Pt, ray: &Ray) -> bool
    ensures { result ≡ has_area_of from at ray.now }
{
    orient(ray.position, from, at) != 0
}

/// Whether the triangles of all rays do.
fn have_area(from: Pt, at: Pt, rays: &[Ray]) -> bool
    ensures { result ≡ list_all (has_area_of from at) rays.now }
{
    rays.iter().all(|ray| has_area(from, at, ray))
}

// ---- Points that were passed

/// Whether a coordinate is greater than all of three others, or less than all.
#[tactic(auto, unfolding(crate::specs::Triangles::is_past_three))]
fn is_past_three(q: i64, a: i64, b: i64, r: i64) -> bool
    ensures { result ≡ is_past_three_of q a b r }
{
    (q < r && a < r && b < r) || (r < q && r < a && r < b)
}

/// Whether r lies beyond all of three positions, to the east, west, north or south.
#[tactic(auto, unfolding(crate::specs::Triangles::is_beyond))]
fn is_beyond(q: Pt, a: Pt, b: Pt, r: Pt) -> bool
    ensures { result ≡ is_beyond_of q a b r }
{
    is_past_three(q.x, a.x, b.x, r.x) || is_past_three(q.y, a.y, b.y, r.y)
}

/// Whether r is seen outside of a triangle.
fn is_seen_outside(q: Pt, a: Pt, b: Pt, r: Pt) -> bool
    ensures { result ≡ is_seen_outside_of q a b r }
{
    is_beyond(q, a, b, r) || lies_outside(q, a, b, r)
}

/// Whether a held point is the far end of a ray, or is seen outside of its triangle.
fn is_past_ray(from: Pt, at: Pt, held: &HeldPoint, ray: &Ray) -> bool
    ensures { result ≡ is_past_ray_of from at held.now ray.now }
{
    ray.far.get() == held.point.get() || is_seen_outside(ray.position, from, at, held.position)
}

/// Whether a held point is past all rays.
fn is_past_all(from: Pt, at: Pt, rays: &[Ray], held: &HeldPoint) -> bool
    ensures { result ≡ list_all (is_past_ray_of from at held.now) rays.now }
{
    rays.iter().all(|ray| is_past_ray(from, at, held, ray))
}

/// Whether a held point is the moved one, or is past all rays.
fn is_past_rays(moved: &Moved, at: Pt, rays: &[Ray], held: &HeldPoint) -> bool
    ensures { result ≡ is_past_rays_of moved.now at rays.now held.now }
{
    held.point.get() == moved.point.get() || is_past_all(moved.from, at, rays, held)
}

/// Whether each other point that the grid holds is past all rays. It looks at those in the box round
/// these, where that is small: all others are.
fn is_all_past(grid: &CellGrid, moved: &Moved, at: Pt, rays: &[Ray]) -> bool
    ensures { IsTrue result → (n : ℕ) (q : Position) → HoldsPoint grid.now n q → n ≢ moved.now.point
        → IsTrue (list_all
        (is_past_ray_of moved.now.from at (record { point = n; position = q })) rays.now) }
{
    let reach = reach_round(at, moved.from, rays);
    is_small(&reach)
        && grid
            .point_candidates(reach.low, reach.high)
            .all(|held| is_past_rays(moved, at, rays, &held))
}
