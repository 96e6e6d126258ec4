//! The rings of a plan, from its sides and those that follow them.
ghost use Rattle.std.specs.Prelude.{◌≡◌, ◌≢◌, ◌≤◌, ◌<◌, ◌∷◌, ◌++◌, [], false, length, map, slice_get, Some, IfOk, IfSome, IfNone, IsPermutation};
ghost use Rattle.std.specs.List.{AllByRecursion, Contains};
ghost use Rattle.cad_files.specs.Cycles.{side_of_followed, side_behind, followed_side, AreFollowed, AreLinked, followed_of, followed_in};

use crate::side_pool::SidePool;
use crate::sides::PlanSide;
use cad_map::Boundary;
use cad_rings::Ring;
use cad_rows::Memory;
use std::alloc::Global;

// The ring that begins with a side. Its other sides are taken out of the pool.
fn ring_from(alloc: Global, first: PlanSide, rest: &mut SidePool) -> Result<Boundary, Memory>
    requires among { Contains rest.old.all first }
    requires followed { AreFollowed (followed_side first ∷ rest.old.left) }
    ensures ring { IfOk result
        (λ b. IsPermutation (followed_side first ∷ rest.old.left)
        (followed_of b ++ rest.new.left)) }
    ensures two { IfOk result (λ b. 2 ≤ length b.ring) }
    ensures left { IfOk result (λ b. AreFollowed rest.new.left) }
    ensures all { rest.new.all ≡ rest.old.all }
{
    let mut points = Vec::new(alloc);
    points.push(first.from)?;
    let mut last = first;
    while let Some(next) = rest.take_next(&last) {
        points.push(next.from)?;
        last = next;
    }
    let ring = Ring::from_points(alloc, points.as_slice())?;
    Ok(Boundary {
        face: first.face,
        ring,
    })
}

/// The rings of sides that follow one another, each in the face of its sides, in some order and each from some side on:
/// each side is in one ring, once, and no other side is in any. Takes one step a side.
pub(crate) fn rings_of(alloc: Global, sides: Vec<PlanSide>) -> Result<Vec<Boundary>, Memory>
    requires linked { AreLinked sides.items }
    requires followed { AreFollowed (map followed_side sides.items) }
    // The rings' sides, each with the point after it and the ring's face, are these in another order.
    ensures rings { IfOk result
        (λ rings. IsPermutation (map followed_side sides.items) (followed_in rings.items)) }
    ensures two { IfOk result (λ rings. AllByRecursion (λ b. 2 ≤ length b.ring) rings.items) }
{
    let mut rest = SidePool::of(alloc, sides)?;
    let mut rings = Vec::new(alloc);
    while let Some(first) = rest.take_first() {
        rings.push(ring_from(alloc, first, &mut rest)?)?;
    }
    Ok(rings)
}
