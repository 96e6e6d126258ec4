//! Boxes of positions, counted in millimetres from the least coordinate of a map.
ghost use Rattle.geo_exact.specs.Position.{Position};
ghost use Rattle.sweep.specs.Extents.{IsExtent};
ghost use Rattle.cad_valid.specs.Extents.{IsWithin};

use crate::boxes::counted;
use geo_exact::Pt;
use sweep::Extent;

/// The box of a position alone.
pub(crate) fn extent_at(p: Pt) -> Extent
    ensures whole { IsExtent result }
    ensures within { IsWithin result p }
{
    let x = counted(p.x);
    let y = counted(p.y);
    Extent {
        left: x,
        right: x,
        bottom: y,
        top: y,
    }
}

/// The box of this one and a position.
pub(crate) fn grown(extent: Extent, p: Pt) -> Extent
    requires { IsExtent extent }
    ensures whole { IsExtent result }
    ensures within { IsWithin result p }
    ensures kept { (q : Position) → IsWithin extent q → IsWithin result q }
{
    let x = counted(p.x);
    let y = counted(p.y);
    Extent {
        left: extent.left.min(x),
        right: extent.right.max(x),
        bottom: extent.bottom.min(y),
        top: extent.top.max(y),
    }
}
