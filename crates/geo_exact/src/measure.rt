ghost use Rattle.std.specs.Prelude.{◌≡◌, ◌≤◌, ◌*ℤ◌, unsigned_abs};
ghost use Rattle.geo_exact.specs.Position.{InRange};
ghost use Rattle.geo_exact.specs.Measure.{Measure, IsOdd, IsBounded, measure_limit, rectangle_limit, doubled_area};
ghost use Rattle.geo_exact.specs.Inside.{winding};
ghost use Rattle.geo_exact.specs.MeasureLaws.{doubled_area-odd, doubled_area-bounded, winding-odd, winding-bounded};

use crate::inside::crosses_upwards;
use crate::position::Pt;

/// A number for each side of a ring, which is the opposite number for the side taken the other way. So the numbers of a
/// side that two rings have in common cancel, and a sum over rings is kept where rings are cut or joined.
pub trait SideMeasure {
    ghost measure: { Self → Measure };

    /// The number of the side from a to b, within 2·10²⁰ either way.
    fn of(&self, a: Pt, b: Pt) -> i128
        ensures value { result ≡ measure self.now a b }
        ensures small { unsigned_abs result ≤ measure_limit };

    ghost odd: { (m : Self) → IsOdd (measure m) };

    ghost bounded: { (m : Self) → IsBounded (measure m) };
}

// The signed area of the rectangle with one corner at the origin and the opposite one at (x, y).
fn rectangle_area(x: i64, y: i64) -> i128
    requires x_in { InRange x }
    requires y_in { InRange y }
    ensures value { result ≡ x *ℤ y }
    ensures small { unsigned_abs result ≤ rectangle_limit }
{
    (x as i128) * (y as i128)
}

/// The part of a side in the doubled area of its ring, in doubled square millimetres: the sum over a ring is positive
/// where the ring runs counterclockwise.
///
/// The formula for the area of a polygon of O'Rourke, Computational Geometry in C, section 1.3.
#[derive(Clone, Copy, PartialEq, Eq)]
pub struct DoubledArea;

impl SideMeasure for DoubledArea {
    ghost measure = { λ _. doubled_area };

    fn of(&self, a: Pt, b: Pt) -> i128 {
        rectangle_area(a.x, b.y) - rectangle_area(b.x, a.y)
    }

    ghost odd = { λ _. doubled_area-odd };

    ghost bounded = { λ _. doubled_area-bounded };
}

/// The winding of a side at a position: 1 where it is counted there and runs upwards, -1 where it is counted and runs
/// downwards, else 0. The sum over a ring tells how often the ring goes around the position.
#[derive(Clone, Copy, PartialEq, Eq)]
pub struct Winding {
    pub at: Pt,
}

impl SideMeasure for Winding {
    ghost measure = { λ w. winding w.at };

    fn of(&self, a: Pt, b: Pt) -> i128 {
        if crosses_upwards(a, b, self.at) {
            1
        } else if crosses_upwards(b, a, self.at) {
            -1
        } else {
            0
        }
    }

    ghost odd = { λ w. winding-odd w.at };

    ghost bounded = { λ w. winding-bounded w.at };
}
