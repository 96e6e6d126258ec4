//! The boxes of strings and points, counted in millimetres from the least coordinate of a map.
ghost use Rattle.std.specs.Prelude.{◌≡◌, ℤ, pos, ◌+ℤ◌, map, IfOk};
ghost use Rattle.geo_exact.specs.Position.{InRange, coordinate_limit};
ghost use Rattle.sweep.specs.Extents.{IsExtent, HasExtents};
ghost use Rattle.cad_valid.specs.Boxes.{from_least as counted_of, box_of as box_in};

use crate::placed::Placed;
use cad_rows::Memory;
use geo_exact::COORDINATE_LIMIT;
use std::alloc::Global;
use sweep::Extent;

/// The boxes of these strings and points, in their order.
pub fn boxes_of(alloc: Global, items: &[Placed]) -> Result<Vec<Extent>, Memory>
    ensures boxes { IfOk result (λ boxes. boxes.items ≡ map box_in items.now) }
    ensures extents { IfOk result (λ boxes. HasExtents boxes.items) }
{
    let mut boxes = Vec::with_capacity(alloc, items.len())?;
    for item in items {
        boxes.push(box_of(item))?;
    }
    Ok(boxes)
}

// The least box that has both ends.
fn box_of(item: &Placed) -> Extent
    ensures value { result ≡ box_in item.now }
    ensures extent { IsExtent result }
{
    let (ax, ay) = (counted(item.a.x), counted(item.a.y));
    let (bx, by) = (counted(item.b.x), counted(item.b.y));
    Extent {
        left: ax.min(bx),
        right: ax.max(bx),
        bottom: ay.min(by),
        top: ay.max(by),
    }
}

/// A coordinate, counted from the least that there can be.
pub(crate) fn counted(coordinate: i64) -> u64
    requires { InRange coordinate }
    ensures value { result ≡ counted_of coordinate }
    ensures moved { pos result ≡ coordinate +ℤ coordinate_limit }
{
    (coordinate + COORDINATE_LIMIT).unsigned_abs()
}
