//! The outlines of a map's faces.
ghost use Rattle.std.specs.Prelude.{◌≡◌, ◌<◌, ◌++◌, true, length, filter, map as map_of, is_some, IfSome, IfOk, OnOk};
ghost use Rattle.cad_map.specs.Boundaries.{bounding, canonical_order};
ghost use Rattle.cad_map.specs.Map.{rings_at, rings_of, has_face as has_face_of};
ghost use Rattle.cad_map.specs.Outline.{is_outer as is_outer_of, outline_of};
ghost use Rattle.cad_map.specs.Rings.{HasWholeRings, ring_at as ring_at_of};
ghost use Rattle.cad_map.specs.Valid.{IsValid};

use crate::boundary::Boundary;
use crate::canonical::in_canonical_order;
use crate::rings::has_face;
use crate::store::MapView;
use crate::walk::Walk;
use cad_rings::Ring;
use cad_rows::{Face, Memory};
use std::alloc::Global;

/// The rings of a face: that of positive doubled area first, which runs around it, and then the others, around its
/// holes, in canonical order. Each is written from the point on from which it comes before its other rotations. `None`
/// for an unknown parcel. An error where memory runs out.
#[tactic(auto, using(crate::proofs::Boundaries::RingsOfMap::whole_valid))]
pub(crate) fn outline<M: MapView>(
    alloc: Global,
    map: &M,
    face: Face,
) -> Result<Option<Vec<Ring>>, Memory>
    requires { IsValid (M.map map.now) }
    ensures some { IfOk result
        (λ told. IfSome told (λ rings. rings.items ≡ outline_of (M.map map.now) face)) }
    ensures known { IfOk result (λ told. is_some told ≡ has_face_of (M.map map.now) face) }
{
    if !has_face(map, &face) {
        return Ok(None);
    }
    let mut rings = Vec::new(alloc);
    append_canonical(&mut rings, map, &face, true)?;
    append_canonical(&mut rings, map, &face, false)?;
    Ok(Some(rings))
}

/// Appends those rings of a face that have positive doubled area, or all its others, in canonical order.
fn append_canonical<M: MapView>(
    rings: &mut Vec<Ring>,
    map: &M,
    face: &Face,
    outer: bool,
) -> Result<(), Memory>
    requires { HasWholeRings (M.map map.now) }
    ensures { OnOk result (rings.new.items
        ≡ rings.old.items ++ filter (is_outer_of (M.map map.now) outer)
        (rings_of (M.map map.now) face.now)) }
{
    let boundaries = collect(*rings.allocator(), map, face, outer)?;
    for boundary in in_canonical_order(boundaries) {
        rings.push(boundary.ring)?;
    }
    Ok(())
}

/// Those rings of a face that have positive doubled area, or all its others, as the map keeps them.
fn collect<M: MapView>(
    alloc: Global,
    map: &M,
    face: &Face,
    outer: bool,
) -> Result<Vec<Boundary>, Memory>
    requires { HasWholeRings (M.map map.now) }
    ensures kept { IfOk result (λ boundaries. boundaries.items
        ≡ map_of (bounding face.now)
        (filter (is_outer_of (M.map map.now) outer) (rings_at face.now (M.rings map.now)))) }
    ensures canonical_order { canonical_order (M.rings map.now) ≡ (M.map map.now).boundaries }
{
    let mut boundaries = Vec::new(alloc);
    for place in 0..map.ring_count(*face) {
        if is_outer(map, face, place) == outer {
            let ring = ring_at(alloc, map, face, place)?;
            boundaries.push(Boundary { face: *face, ring })?;
        }
    }
    Ok(boundaries)
}

/// Whether the ring at a place has positive doubled area.
fn is_outer<M: MapView>(map: &M, face: &Face, place: usize) -> bool
    requires whole { HasWholeRings (M.map map.now) }
    requires there { place < length (rings_at face.now (M.rings map.now)) }
    ensures { result ≡ is_outer_of (M.map map.now) true
        (ring_at_of (M.rings map.now) face.now place) }
{
    map.ring_area(*face, place) > 0
}

/// The ring at a place, from the point on from which the map keeps it.
fn ring_at<M: MapView>(alloc: Global, map: &M, face: &Face, place: usize) -> Result<Ring, Memory>
    requires whole { HasWholeRings (M.map map.now) }
    requires there { place < length (rings_at face.now (M.rings map.now)) }
    ensures { IfOk result (λ ring. ring ≡ ring_at_of (M.rings map.now) face.now place) }
{
    let mut points = Vec::new(alloc);
    for (point, _) in Walk::of_ring(map, face, place) {
        points.push(point)?;
    }
    Ring::from_points(alloc, points.as_slice())
}
