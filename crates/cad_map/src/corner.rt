//! Corners of a face's rings: the one that a chain leaves at a point, and whether two of them are in one ring.
ghost use Rattle.std.specs.Prelude.{◌≡◌, ◌⊎◌, ◌&&◌, ℕ, [], ◌∷◌, Some, option_map, slice_get};
ghost use Rattle.std.specs.List.{Contains, list_any};
ghost use Rattle.std.specs.List.Sorted.{IsPermutation};
ghost use Rattle.cad_rows.specs.declared.names.Face.{Face as FaceOf};
ghost use Rattle.cad_rings.specs.Cycle.{is_side, has_side, sides_of};
ghost use Rattle.cad_rings.specs.Surgery.{corner as corner_of};
ghost use Rattle.cad_map.specs.Chain.{leaving, has_in_sector as has_in_sector_of, chosen_corner as chosen_corner_of};
ghost use Rattle.cad_map.specs.Choice.{MayBeChosen, IsFirst};
ghost use Rattle.cad_map.specs.Map.{rings_of, face_corners, far_end, strings_at};
ghost use Rattle.cad_map.specs.Valid.{IsValid};

use crate::look::is_face;
use crate::rings::position;
use crate::store::MapView;
use crate::walk::Walk;
use cad_rows::{Face, PointNo};
use geo_exact::in_sector;
use std::marker::Model;

/// A point of a ring, with the one before it and the one after it.
#[derive(Clone, Copy, PartialEq, Eq)]
pub struct Corner {
    pub before: PointNo,
    pub at: PointNo,
    pub after: PointNo,
}

impl Model for Corner {
    ghost use Rattle.cad_rings.specs.Cycle.{Corner};

    ghost Value = { Corner };

    ghost view = { λ c. record { before = c.before; at = c.at; after = c.after } };

    ghost inverse = { λ c. record { before = c.before; at = c.at; after = c.after } };
}

/// The corner of a face at a point whose sector has another point; of several, the one whose following point has the
/// least number. `None` where no corner at the point has the other in its sector. It looks at each string of the point
/// once, and takes no memory.
pub fn chosen_corner<M: MapView>(
    map: &M,
    face: &Face,
    at: PointNo,
    towards: PointNo,
) -> Option<Corner>
    requires { IsValid (M.map map.now) }
    ensures { result ≡ chosen_corner_of (M.map map.now) face.now at towards }
{
    let mut chosen = None;
    for place in 0..map.degree(at) {
        chosen = first_by_after(chosen, corner_at(map, face, at, place, towards));
    }
    chosen
}

/// The corner of a face at a point after the side along the string at a place among those that have the point, where
/// its sector has another point.
#[tactic(auto, using(crate::proofs::Boundaries::RingsOfMap::whole_valid))]
fn corner_at<M: MapView>(
    map: &M,
    face: &Face,
    at: PointNo,
    place: usize,
    towards: PointNo,
) -> Option<Corner>
    requires { IsValid (M.map map.now) }
    ensures first { (from : ℕ) → option_map (λ s. far_end s at)
        (slice_get (M.view_strings map.now at) place) ≡ Some from
        → IsFirst (MayBeChosen (M.map map.now) face.now at towards (from ∷ [])) result }
    // The strings are the point's, each once.
    ensures each { IsPermutation (strings_at (M.map map.now) at) (M.view_strings map.now at) }
{
    let (from, on_left) = map.side_to(at, place)?;
    if !is_face(face, &on_left) {
        return None;
    }
    let after = map.after(from, at)?;
    if has_in_sector(map, from, at, after, towards) {
        Some(Corner {
            before: from,
            at,
            after,
        })
    } else {
        None
    }
}

/// Whether the sector of a corner has a point.
fn has_in_sector<M: MapView>(
    map: &M,
    before: PointNo,
    at: PointNo,
    after: PointNo,
    towards: PointNo,
) -> bool
    ensures { result ≡ has_in_sector_of (M.map map.now) (corner_of before at after) towards }
{
    in_sector(
        position(map, at),
        position(map, after),
        position(map, before),
        position(map, towards),
    )
}

/// Of two corners, each of which may be missing, the one whose following point has the lesser number.
fn first_by_after(one: Option<Corner>, other: Option<Corner>) -> Option<Corner>
    ensures { IsFirst (λ c. (one ≡ Some c) ⊎ (other ≡ Some c)) result }
{
    let Some(a) = one else { return other };
    let Some(b) = other else { return one };
    if b.after.get() < a.after.get() {
        other
    } else {
        one
    }
}

/// Whether the side that leaves a corner is the one from a point to another.
fn leaves_by(corner: &Corner, from: PointNo, to: PointNo) -> bool
    ensures { result ≡ is_side (leaving corner.now) (from, to) }
{
    corner.at.get() == from.get() && corner.after.get() == to.get()
}

/// Whether the sides that leave two corners are in one ring. Takes no memory.
pub fn are_in_one_ring<M: MapView>(map: &M, first: &Corner, last: &Corner) -> bool
    requires { IsValid (M.map map.now) }
    ensures { (face : FaceOf) → Contains (face_corners (M.map map.now) face) first.now
        → result ≡ list_any
        (λ r. has_side (leaving first.now) (sides_of r) && has_side (leaving last.now) (sides_of r))
        (rings_of (M.map map.now) face) }
{
    for (from, to) in Walk::from(map, first.at, first.after) {
        if leaves_by(last, from, to) {
            return true;
        }
    }
    false
}
