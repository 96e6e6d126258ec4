//! Rings in the plane, and whether two of them lie apart.
ghost use Rattle.std.specs.Prelude.{◌≡◌, ◌≤◌, ◌*◌, length, List, IfOk};
ghost use Rattle.std.specs.Iterator.{IsFinite, Drains};
ghost use Rattle.geo_exact.specs.Inside.{is_inside};
ghost use Rattle.cad_rows.specs.Limits.{string_limit};
ghost use Rattle.cad_rings.specs.Cycle.{Side};
ghost use Rattle.cad_map.specs.Map.{position_of};
ghost use Rattle.sweep.specs.Extents.{IsExtent};
ghost use Rattle.cad_valid.specs.Shapes.{Shape, shape_along, area_of};
ghost use Rattle.cad_valid.specs.Shapes.{are_shapes_apart as are_apart_of, Encloses};

use crate::extents::{extent_at, grown};
use cad_map::{MapView, position};
use cad_rows::{Memory, PointNo};
use geo_exact::{DoubledArea, Pt, SideMeasure, crosses};
use std::alloc::Global;
use std::marker::Model;
use sweep::Extent;

/// A ring that can be asked what lies inside it.
pub(crate) trait Enclosing {
    /// It may be asked.
    ghost can_tell: { Self → Type 0 };

    /// The ring in the plane.
    ghost shape: { Self → Shape };

    /// Where its anchor is, its least point.
    fn anchor(&self) -> Pt
        requires { can_tell self.now }
        ensures { result ≡ (shape self.now).anchor };

    /// Whether a position is inside: an odd number of its sides is counted there.
    fn has_inside(&self, at: Pt) -> bool
        requires { can_tell self.now }
        ensures { result ≡ is_inside (shape self.now).sides at };
}

/// Whether of two rings neither has the other's anchor inside.
pub(crate) fn are_apart<R: Enclosing>(a: &R, b: &R) -> bool
    requires first { R.can_tell a.now }
    requires second { R.can_tell b.now }
    ensures { result ≡ are_apart_of (R.shape a.now) (R.shape b.now) }
{
    !a.has_inside(b.anchor()) && !b.has_inside(a.anchor())
}

/// The position of a point that mostly is the one where a side before ended, which lies there.
fn position_after<M: MapView>(map: &M, end: PointNo, at: Pt, point: PointNo) -> Pt
    requires { at ≡ position_of (M.map map.now) end }
    ensures { result ≡ position_of (M.map map.now) point }
{
    if point == end {
        at
    } else {
        position(map, point)
    }
}

/// A ring with the positions of its points.
#[derive(Drop)]
pub struct PlacedRing {
    sides: Vec<(Pt, Pt)>,
    anchor: Pt,
}

impl Model for PlacedRing {
    ghost use Rattle.cad_valid.specs.Shapes.{Shape};

    ghost Value = { Shape };

    ghost view = { λ r. record { sides = r.sides.items; anchor = r.anchor } };
}

impl PlacedRing {
    /// The ring of these sides, each of its points where a map has it. `first` is one of the points.
    pub fn of<M: MapView, I: Iterator<Item = (PointNo, PointNo)> + Drop>(
        alloc: Global,
        map: &M,
        first: PointNo,
        sides: I,
    ) -> Result<PlacedRing, Memory>
        requires can { I.can_next sides }
        requires ends { IsFinite (I.remaining sides) }
        ensures { IfOk result (λ placed. (given : List Side) × Drains I.next_gives sides given
            × (placed ≡ shape_along (position_of (M.map map.now)) first given)) }
    {
        let mut placed = Vec::new(alloc);
        let mut least = first;
        let (mut end, mut at) = (first, position(map, first));
        for (from, to) in sides {
            let start = position_after(map, end, at, from);
            (end, at) = (to, position(map, to));
            placed.push((start, at))?;
            if from.get() < least.get() {
                least = from;
            }
        }
        let anchor = position(map, least);
        Ok(PlacedRing {
            sides: placed,
            anchor,
        })
    }

    /// Its sides.
    pub(crate) fn sides(&self) -> &[(Pt, Pt)]
        ensures { result.now ≡ self.now.sides }
    {
        self.sides.as_slice()
    }

    /// Its doubled area, in doubled square millimetres.
    pub(crate) fn doubled_area(&self) -> i128
        requires { length self.now.sides ≤ 2 * string_limit }
        ensures { result ≡ area_of self.now }
    {
        let mut sum = 0;
        for (from, to) in &self.sides {
            sum += DoubledArea.of(*from, *to);
        }
        sum
    }

    /// The box of the ring.
    pub(crate) fn extent(&self) -> Extent
        ensures whole { IsExtent result }
        ensures around { Encloses result self.now }
    {
        let mut extent = extent_at(self.anchor);
        for (from, to) in &self.sides {
            extent = grown(grown(extent, *from), *to);
        }
        extent
    }
}

impl Enclosing for PlacedRing {
    ghost can_tell = { λ _. Unit {0} };

    ghost shape = { λ r. r };

    fn anchor(&self) -> Pt {
        self.anchor
    }

    fn has_inside(&self, at: Pt) -> bool {
        let mut inside = false;
        for (a, b) in &self.sides {
            if crosses(*a, *b, at) {
                inside = !inside;
            }
        }
        inside
    }
}
