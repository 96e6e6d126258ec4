//! Sums over the faces of a map.
ghost use Rattle.std.specs.Prelude.{◌≡◌, ◌≤◌, ◌*◌, ◌+ℤ◌, ℕ, List, unsigned_abs, is_some, IfSome};
ghost use Rattle.geo_exact.specs.Measure.{measure_limit};
ghost use Rattle.cad_rows.specs.Limits.{string_limit};
ghost use Rattle.cad_rows.specs.declared.edits.Edit.TheVariants.{Divide, Merge, Enclose};
ghost use Rattle.cad_rows.specs.declared.names.Face.TheVariants.{Parcel};
ghost use Rattle.cad_map.specs.Map.{Map, has_face as has_face_of, sum_of_face};
ghost use Rattle.cad_map.specs.Outcome.{LeadsTo};
ghost use Rattle.cad_map.specs.Rings.{HasWholeRings};
ghost use Rattle.cad_map.specs.Sums.{IsBalanced};
ghost use Rattle.cad_map.specs.Valid.{IsValid};

use crate::rings::{has_face, ring_sum};
use crate::store::MapView;
use cad_rows::Face;
use geo_exact::SideMeasure;

/// The measures of all sides of a face, added up, and `None` for an unknown parcel. By `DoubledArea` it is the area of
/// the face in doubled square millimetres. It is within 8·10²⁵ either way. Takes no memory.
///
/// For every measure the sums of all faces, the outside included, add up to 0; after a division or an enclosure the new
/// parcel and what is left of the face have what the face had; after a merger the kept parcel has what both had.
pub fn sum_of<M: MapView, F: SideMeasure>(map: &M, face: Face, measure: &F) -> Option<i128>
    requires { HasWholeRings (M.map map.now) }
    ensures some { IfSome result
        (λ sum. sum ≡ sum_of_face (F.measure measure.now) (M.map map.now) face) }
    ensures small { IfSome result (λ sum. unsigned_abs sum ≤ 2 * string_limit * measure_limit) }
    ensures known { is_some result ≡ has_face_of (M.map map.now) face }
    ensures divided { IfSome result (λ sum. (old : Map) (chain strings : List ℕ) (parcel : ℕ)
        (label : List ℕ) (source : ℕ) → IsValid old
        → LeadsTo old (Divide face chain strings parcel label source) (M.map map.now)
        → sum_of_face (F.measure measure.now) old face
        ≡ sum +ℤ sum_of_face (F.measure measure.now) (M.map map.now) (Parcel parcel)) }
    ensures enclosed { IfSome result (λ sum. (old : Map) (points strings : List ℕ) (parcel : ℕ)
        (label : List ℕ) (source : ℕ) → IsValid old
        → LeadsTo old (Enclose face points strings parcel label source) (M.map map.now)
        → sum_of_face (F.measure measure.now) old face
        ≡ sum +ℤ sum_of_face (F.measure measure.now) (M.map map.now) (Parcel parcel)) }
    ensures merged { IfSome result (λ sum. (old : Map) (ended : Face) → IsValid old
        → LeadsTo old (Merge face ended) (M.map map.now)
        → sum ≡ sum_of_face (F.measure measure.now) old face
        +ℤ sum_of_face (F.measure measure.now) old ended) }
    ensures balanced { IsBalanced (F.measure measure.now) (M.map map.now) }
{
    if has_face(map, &face) {
        Some(sum_of_rings(map, &face, measure))
    } else {
        None
    }
}

/// The sums of a face's rings, added up.
fn sum_of_rings<M: MapView, F: SideMeasure>(map: &M, face: &Face, measure: &F) -> i128
    requires { HasWholeRings (M.map map.now) }
    ensures value { result ≡ sum_of_face (F.measure measure.now) (M.map map.now) face.now }
    ensures small { unsigned_abs result ≤ 2 * string_limit * measure_limit }
{
    let mut sum = 0;
    for place in 0..map.ring_count(*face) {
        sum += ring_sum(map, face, place, measure);
    }
    sum
}
