//! The corners at a point of many strings, told by one sort of these by their directions.
ghost use Rattle.std.specs.Prelude.{◌≡◌, ◌↔◌, ◌≤◌, true, length, IsTrue, IfOk, IfSome};
ghost use Rattle.std.specs.List.{list_all};
ghost use Rattle.cad_rings.specs.Surgery.{corner};
ghost use Rattle.cad_map.specs.Map.{position_of};
ghost use Rattle.cad_map.specs.Rings.{HasWholeRings};
ghost use Rattle.cad_map.specs.Turn.{AreMetInTurn};
ghost use Rattle.cad_map.specs.Valid.{is_empty_corner as is_empty_corner_of};
ghost use Rattle.cad_valid.specs.Corners.{is_empty_after as is_empty_after_side};
ghost use Rattle.cad_near.specs.Many.{HasSpokesOf};
ghost use Rattle.cad_near.specs.Near.{HasEmptyCornersAt};
ghost use Rattle.cad_near.specs.Rays.{AreSpokesOf};

use cad_map::{MapView, Spoke, far_end, position, sort_in_turn};
use cad_rows::{Memory, PointNo};
use cad_valid::is_empty_after;
use std::alloc::Global;

/// The strings of a point as it sees them, each with its place among these.
pub(crate) fn spokes_at<M: MapView>(
    alloc: Global,
    map: &M,
    point: PointNo,
) -> Result<Vec<Spoke>, Memory>
    ensures rays { IfOk result (λ spokes. AreSpokesOf (M.map map.now) point spokes.items) }
    ensures strings { IfOk result (λ spokes. HasSpokesOf (M.map map.now) point spokes.items) }
{
    let degree = map.degree(point);
    let mut spokes = Vec::with_capacity(alloc, degree)?;
    for place in 0..degree {
        let far = far_end(map.string_with(point, place).unwrap(), point);
        spokes.push(Spoke {
            at: point,
            far,
            position: position(map, far),
            place,
        })?;
    }
    Ok(spokes)
}

/// Whether the corner after a side to a point is empty, where one between that side and the point
/// before it in a turn is. Mostly that is the corner.
fn is_empty_beside<M: MapView>(map: &M, from: PointNo, point: PointNo, before: PointNo) -> bool
    requires whole { HasWholeRings (M.map map.now) }
    requires clear { is_empty_corner_of (M.map map.now) (corner from point before) ≡ true }
    ensures { result ≡ is_empty_after_side (M.map map.now) (from, point) }
{
    if let Some(after) = map.after(from, point) {
        if after == before {
            return true;
        }
    }
    is_empty_after(map, from, point)
}

/// Whether the corners at a point are empty, whose spokes a turn about it meets in this order. Between
/// two that it meets one after the other there is none.
fn are_empty_in_turn<M: MapView>(map: &M, point: PointNo, order: &[Spoke]) -> bool
    requires whole { HasWholeRings (M.map map.now) }
    requires spokes { AreSpokesOf (M.map map.now) point order.now }
    requires turn { AreMetInTurn (position_of (M.map map.now) point) order.now }
    requires many { 2 ≤ length order.now }
    ensures { result ≡ list_all (λ x. is_empty_after_side (M.map map.now) (x.far, point)) order.now }
{
    for place in 0..order.len() {
        let before = if place == 0 {
            order.len() - 1
        } else {
            place - 1
        };
        if !is_empty_beside(map, order[place].far, point, order[before].far) {
            return false;
        }
    }
    true
}

/// Whether the corners at a point are empty, told by a sort of its strings by their directions. `None`
/// where two of them may lead into one direction, or memory runs out. It takes n log n steps for n
/// strings, and for each of them what it takes to tell what follows a side.
pub(crate) fn empty_by_turn<M: MapView>(alloc: Global, map: &M, point: PointNo) -> Option<bool>
    requires { HasWholeRings (M.map map.now) }
    ensures { IfSome result (λ b. IsTrue b ↔ HasEmptyCornersAt (M.map map.now) point) }
{
    let Ok(mut spokes) = spokes_at(alloc, map, point) else {
        return None;
    };
    let order = spokes.as_mut_slice();
    if order.len() < 2 || !sort_in_turn(position(map, point), order) {
        return None;
    }
    Some(are_empty_in_turn(map, point, order))
}
