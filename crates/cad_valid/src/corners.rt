//! Whether the corners of rings are empty: no string lies between the two sides that make one.
ghost use Rattle.std.specs.Prelude.{◌≡◌, IsTrue};
ghost use Rattle.cad_rings.specs.Surgery.{corner};
ghost use Rattle.cad_map.specs.Map.{has_point};
ghost use Rattle.cad_map.specs.Valid.{HasSoundRows, is_empty_corner as is_empty_corner_of, has_empty_corners as has_empty_corners_of};
ghost use Rattle.cad_map.specs.Rings.{HasWholeRings};
ghost use Rattle.cad_valid.specs.Corners.{is_clear_of_sector, is_empty_after as is_empty_after_side, are_empty_beside as are_empty_beside_string};

use cad_map::{MapView, position};
use cad_rows::{PointNo, StringRow};
use geo_exact::{Pt, in_sector};

/// Whether no string lies in the sector of a corner of a ring. Each corner is met by the side before it, which is a
/// side of a string.
pub(crate) fn has_empty_corners<M: MapView>(map: &M) -> bool
    requires { HasWholeRings (M.map map.now) }
    ensures { result ≡ has_empty_corners_of (M.map map.now) }
{
    for place in 0..map.counts().strings {
        let string = map.string_at(place).unwrap();
        if !are_empty_beside(map, string) {
            return false;
        }
    }
    true
}

/// Whether the corners after both sides of a string are empty.
fn are_empty_beside<M: MapView>(map: &M, string: &StringRow) -> bool
    requires { HasWholeRings (M.map map.now) }
    ensures { result ≡ are_empty_beside_string (M.map map.now) string.now }
{
    is_empty_after(map, string.from, string.to) && is_empty_after(map, string.to, string.from)
}

/// Whether the corner after a side is empty. A side that no ring has has no corner.
pub fn is_empty_after<M: MapView>(map: &M, from: PointNo, to: PointNo) -> bool
    requires { HasWholeRings (M.map map.now) }
    ensures { result ≡ is_empty_after_side (M.map map.now) (from, to) }
{
    match map.after(from, to) {
        Some(after) => is_empty_corner(map, from, to, after),
        None => true,
    }
}

/// Whether no string lies in the sector of the corner at a point of a ring, between the points before and after it.
#[tactic(auto, using(crate::proofs::StarTests::star_begun))]
fn is_empty_corner<M: MapView>(map: &M, before: PointNo, at: PointNo, after: PointNo) -> bool
    requires sound { HasSoundRows (M.map map.now) }
    requires before_in { IsTrue (has_point (M.map map.now) before) }
    requires at_in { IsTrue (has_point (M.map map.now) at) }
    requires after_in { IsTrue (has_point (M.map map.now) after) }
    ensures { result ≡ is_empty_corner_of (M.map map.now) (corner before at after) }
{
    let sector = Sector {
        at: position(map, at),
        after: position(map, after),
        before: position(map, before),
    };
    for place in 0..map.degree(at) {
        let string = map.string_with(at, place).unwrap();
        if !is_clear_of(map, at, &sector, string) {
            return false;
        }
    }
    true
}

/// Where the corner at a point of a ring lies, and the points after and before it in the ring.
#[derive(Clone, Copy)]
struct Sector {
    at: Pt,
    after: Pt,
    before: Pt,
}

/// Whether a string doesn't lie in the sector of a corner. `at`: the corner's point.
fn is_clear_of<M: MapView>(map: &M, at: PointNo, sector: &Sector, string: &StringRow) -> bool
    requires { IsTrue (has_point (M.map map.now) string.now.from)
        × IsTrue (has_point (M.map map.now) string.now.to) }
    ensures { result ≡ is_clear_of_sector (M.map map.now) at sector.now.at sector.now.after
        sector.now.before string.now }
{
    let far = if string.from.get() == at.get() {
        string.to
    } else if string.to.get() == at.get() {
        string.from
    } else {
        return true;
    };
    !in_sector(sector.at, sector.after, sector.before, position(map, far))
}
