//! Whether each parcel has one outline, and the outside none, asked of a plain map: the rings of a
//! face stand together there, and no ring is walked.
ghost use Rattle.std.specs.Prelude.{◌≡◌};
ghost use Rattle.cad_map.specs.Map.{rings_of};
ghost use Rattle.cad_map.specs.Valid.{has_outlines as has_outlines_of};
ghost use Rattle.cad_map.specs.Valid.{has_one_outline_each as has_one_outline_each_of};
ghost use Rattle.cad_map.specs.Rings.{HasWholeRings};

use crate::outlines::OutlineCount;
use cad_map::{MapView, PlainMap, sum_round};
use cad_rows::Face;
use geo_exact::DoubledArea;

/// Whether the outside has negative rings alone, and each parcel one positive ring and negative
/// ones. Takes no memory. For each face its rings are found in as many steps as the number of all
/// rings has binary digits; for each side of a ring two positions are looked up.
pub(crate) fn has_one_outline_each_by_runs(map: &PlainMap) -> bool
    requires { HasWholeRings map.now }
    ensures { result ≡ has_one_outline_each_of map.now }
{
    if !has_outlines(map, Face::Outside, 0) {
        return false;
    }
    for place in 0..map.counts().parcels {
        let parcel = map.parcel_at(place).unwrap();
        if !has_outlines(map, Face::Parcel(parcel.number), 1) {
            return false;
        }
    }
    true
}

/// Whether so many rings of a face have positive doubled area, and all others negative.
fn has_outlines(map: &PlainMap, face: Face, wanted: usize) -> bool
    requires { HasWholeRings map.now }
    ensures { result ≡ has_outlines_of wanted map.now (rings_of map.now face) }
{
    let mut outlines = OutlineCount::none();
    for boundary in map.run_of(face) {
        outlines.add(sum_round(map, &boundary.ring, &DoubledArea));
    }
    outlines.is(wanted)
}
