//! Numbers and positions.
ghost use Rattle.std.specs.Prelude.{◌≡◌};

use cad_rows::{PointNo, StringNo};
use geo_exact::Pt;
use std::process::Abort;

pub(crate) type Place = (i64, i64);

pub(crate) fn string(rt: &impl Abort, number: u32) -> StringNo
    ensures { result ≡ number }
{
    StringNo::new(number).expect(rt, "number")
}

pub(crate) fn point(rt: &impl Abort, number: u32) -> PointNo
    ensures { result ≡ number }
{
    PointNo::new(number).expect(rt, "number")
}

pub(crate) fn at(rt: &impl Abort, place: Place) -> Pt {
    Pt::new(place.0, place.1).expect(rt, "place")
}
