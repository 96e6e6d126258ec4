//! Rings, cut where they pass a point twice.
ghost use Rattle.std.specs.Prelude.{◌≡◌, ℕ, List, [], ◌∷◌, ◌++◌, OnOk, IfOk, flat_map};
ghost use Rattle.std.specs.List.{AllByRecursion};
ghost use Rattle.geo_exact.specs.Measure.{Measure, sum_over};
ghost use Rattle.cad_rows.specs.declared.names.Face.{Face as FaceOf};
ghost use Rattle.cad_rings.specs.Cycle.{Ring as RingOf, sides_of, placed};
ghost use Rattle.cad_map.specs.Map.{Map, rings_of, sum_of_face, position_of};
ghost use Rattle.cad_map.specs.Valid.{IsValid};
ghost use Rattle.cad_views.specs.Cut.{AreCutFrom, HasTwoEndsEach};
ghost use Rattle.cad_views.specs.Walked.{IsWalked, HaveTwoEnds};

use cad_map::PlainMap;
use cad_rings::Ring;
use cad_rows::{Face, Memory, PointNo};
use indexmap::IndexSet;
use number_hash::NumberHash;
use std::alloc::Global;

// Walks on to a point. Where it stands on the open path, the part of the path since then is closed to a ring.
fn walk_to(
    alloc: Global,
    path: &mut IndexSet<PointNo, NumberHash>,
    pieces: &mut Vec<Ring>,
    point: PointNo,
) -> Result<(), Memory>
    requires { (done : List ℕ) × IsWalked done path.old.keys pieces.old.items
        × HaveTwoEnds done point }
    ensures { OnOk result ((done : List ℕ) → IsWalked done path.old.keys pieces.old.items
        → IsWalked (done ++ point ∷ []) path.new.keys pieces.new.items) }
{
    match path.get_index_of(&point) {
        Some(place) => {
            let ring = Ring::from_points(alloc, &path.as_slice()[place..])?;
            pieces.push(ring)?;
            path.truncate(place + 1);
        }
        None => {
            path.insert(point)?;
        }
    }
    Ok(())
}

/// Cuts a ring where it passes a point twice, into rings that pass no point twice: together they have its sides and no
/// others. Takes a look into a table for each point, which it finds by the given hash. `Err`
/// where memory runs out.
pub fn cut_ring(alloc: Global, hash: NumberHash, ring: &Ring) -> Result<Vec<Ring>, Memory>
    requires { HasTwoEndsEach ring.now }
    ensures { IfOk result (λ pieces. AreCutFrom (ring.now ∷ []) pieces.items) }
{
    let mut pieces = Vec::new(alloc);
    let mut path = IndexSet::with_hasher(alloc, hash);
    let points = ring.points();
    for place in 0..ring.len() {
        walk_to(alloc, &mut path, &mut pieces, points[place])?;
    }
    pieces.push(Ring::from_points(alloc, path.as_slice())?)?;
    Ok(pieces)
}

/// Cuts rings, each as [`cut_ring`] does.
pub(crate) fn cut_each(alloc: Global, hash: NumberHash, rings: &[Ring]) -> Result<Vec<Ring>, Memory>
    requires { AllByRecursion HasTwoEndsEach rings.now }
    ensures { IfOk result (λ pieces. AreCutFrom rings.now pieces.items) }
{
    let mut pieces = Vec::new(alloc);
    for place in 0..rings.len() {
        let mut cut = cut_ring(alloc, hash, &rings[place])?;
        pieces.append(&mut cut)?;
    }
    Ok(pieces)
}

/// The rings of a face of a valid map, cut where they pass a point twice. `Err` where memory runs out.
pub fn cut_rings(alloc: Global, map: &PlainMap, face: Face) -> Result<Vec<Ring>, Memory>
    requires { IsValid map.now }
    ensures { IfOk result (λ pieces. AreCutFrom (rings_of map.now face) pieces.items) }
{
    let mut pieces = Vec::new(alloc);
    let rings = map.run_of(face);
    for place in 0..rings.len() {
        let mut cut = cut_ring(alloc, map.hash(), &rings[place].ring)?;
        pieces.append(&mut cut)?;
    }
    Ok(pieces)
}

/// Rings that a face's are cut into have its sum, for every measure.
pub fn cut_adds_up()
    ensures { (f : Measure) (m : Map) (face : FaceOf) (pieces : List RingOf)
        → AreCutFrom (rings_of m face) pieces
        → sum_over f (placed (position_of m) (flat_map sides_of pieces)) ≡ sum_of_face f m face }
{}
