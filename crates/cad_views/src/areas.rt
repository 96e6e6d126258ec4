//! The area of a face.
ghost use Rattle.std.specs.Prelude.{◌≡◌, ◌≤◌, ◌^◌, unsigned_abs};
ghost use Rattle.geo_exact.specs.Measure.{doubled_area};
ghost use Rattle.cad_map.specs.Map.{sum_of_face};
ghost use Rattle.cad_map.specs.Valid.{IsValid};

use cad_map::{PlainMap, sum_round};
use cad_rows::Face;
use geo_exact::DoubledArea;

/// The area of a face of a valid map, in doubled square millimetres. It takes a step for each of the face's sides, and no
/// memory.
pub fn face_area(map: &PlainMap, face: Face) -> i128
    requires { IsValid map.now }
    ensures value { result ≡ sum_of_face doubled_area map.now face }
    ensures small { unsigned_abs result ≤ 10 ^ 26 }
{
    let mut sum = 0;
    let rings = map.run_of(face);
    for place in 0..rings.len() {
        sum += sum_round(map, &rings[place].ring, &DoubledArea);
    }
    sum
}
