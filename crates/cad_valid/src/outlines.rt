//! Whether each parcel has one outline, and the outside none.
ghost use Rattle.std.specs.Prelude.{◌≡◌, ◌+◌, ◌<◌, ◌^◌, ◌&&◌, ◌==◌, ◌++◌, ◌∷◌, [], ℤ, List};
ghost use Rattle.cad_map.specs.Map.{rings_of};
ghost use Rattle.cad_map.specs.Valid.{has_outlines as has_outlines_of, has_one_outline_each as has_one_outline_each_of};
ghost use Rattle.cad_map.specs.Rings.{HasWholeRings};
ghost use Rattle.cad_valid.specs.Outlines.{outlines_among};

use crate::rings::doubled_area_of;
use cad_map::MapView;
use cad_rows::Face;
use std::marker::Model;

/// What the doubled areas of rings tell: how many are positive, and whether all others are
/// negative.
#[derive(Clone, Copy)]
pub struct OutlineCount {
    outlines: usize,
    is_sound: bool,
}

impl Model for OutlineCount {
    ghost use Rattle.cad_valid.specs.Outlines.{Counted};

    ghost Value = { Counted };

    ghost view = { λ c. record { outlines = c.outlines; is_sound = c.is_sound } };

    ghost inverse = { λ c. record { outlines = c.outlines; is_sound = c.is_sound } };
}

impl OutlineCount {
    /// Of no ring.
    pub fn none() -> OutlineCount
        ensures { result ≡ outlines_among [] }
    {
        OutlineCount {
            outlines: 0,
            is_sound: true,
        }
    }

    /// With one more ring, by its doubled area.
    pub fn add(&mut self, area: i128)
        requires { self.old.outlines + 1 < 2 ^ 64 }
        ensures { (areas : List ℤ) → self.old ≡ outlines_among areas
            → self.new ≡ outlines_among (areas ++ area ∷ []) }
    {
        if area > 0 {
            self.outlines += 1;
        }
        if area == 0 {
            self.is_sound = false;
        }
    }

    /// Whether so many are positive, and all others negative.
    pub fn is(&self, wanted: usize) -> bool
        ensures { result ≡ ((self.now.outlines == wanted) && self.now.is_sound) }
    {
        self.outlines == wanted && self.is_sound
    }
}

/// Whether the outside has negative rings alone, and each parcel one positive ring and negative ones.
pub(crate) fn has_one_outline_each<M: MapView>(map: &M) -> bool
    requires { HasWholeRings (M.map map.now) }
    ensures { result ≡ has_one_outline_each_of (M.map map.now) }
{
    if !has_outlines(map, &Face::Outside, 0) {
        return false;
    }
    for place in 0..map.counts().parcels {
        let parcel = map.parcel_at(place).unwrap();
        if !has_outlines(map, &Face::Parcel(parcel.number), 1) {
            return false;
        }
    }
    true
}

/// Whether so many rings of a face have positive doubled area, and all others negative.
pub fn has_outlines<M: MapView>(map: &M, face: &Face, wanted: usize) -> bool
    requires { HasWholeRings (M.map map.now) }
    ensures { result ≡ has_outlines_of wanted (M.map map.now) (rings_of (M.map map.now) face.now) }
{
    let mut outlines = OutlineCount::none();
    for place in 0..map.ring_count(*face) {
        outlines.add(doubled_area_of(map, face, place));
    }
    outlines.is(wanted)
}
