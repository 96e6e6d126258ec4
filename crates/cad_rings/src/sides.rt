//! The sides of a ring, one after the other.
ghost use Rattle.std.specs.Prelude.{◌≡◌, ◌+◌, ◌<◌, ◌∷◌, drop, length};
ghost use Rattle.std.specs.Iterator.{YieldsFirst, item_count};
ghost use Rattle.cad_rings.specs.Cycle.{sides_of};
ghost use Rattle.cad_rings.specs.SidesLeft.{sides_left};

use cad_rows::PointNo;

/// The sides of a ring that are left to give, of which the last leads back to its first point.
#[derive(Drop)]
pub struct Sides<'a> {
    points: &'a [PointNo],
    given: usize,
}

/// The side from the point at a place on.
pub(crate) fn side_at(points: &[PointNo], place: usize) -> (PointNo, PointNo)
    requires { place < length points.now }
    ensures { drop place (sides_of points.now) ≡ result ∷ drop (place + 1) (sides_of points.now) }
{
    if place + 1 < points.len() {
        (points[place], points[place + 1])
    } else {
        (points[place], points[0])
    }
}

impl<'a> Sides<'a> {
    pub(crate) fn of(points: &'a [PointNo]) -> Sides<'a>
        ensures { sides_left result ≡ sides_of points.now }
    {
        Sides { points, given: 0 }
    }
}

impl<'a> Iterator for Sides<'a> {
    type Item = (PointNo, PointNo);

    ghost next_gives = { YieldsFirst sides_left };

    ghost remaining = { item_count sides_left };

    fn next(&mut self) -> Option<(PointNo, PointNo)> {
        if self.given < self.points.len() {
            let side = side_at(self.points, self.given);
            self.given += 1;
            Some(side)
        } else {
            None
        }
    }
}
