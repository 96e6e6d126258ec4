//! What the rings of a face tell as they lie in memory: of holes only those are compared whose boxes
//! overlap.
ghost use Rattle.std.specs.Prelude.{◌≡◌, ◌≤◌, ◌*◌, ◌++◌, ◌∷◌, ◌==◌, ◌&&◌, [], List, length, IfOk, OnOk};
ghost use Rattle.std.specs.List.{list_all};
ghost use Rattle.geo_exact.specs.Inside.{is_inside};
ghost use Rattle.cad_rows.specs.Limits.{string_limit};
ghost use Rattle.cad_map.specs.Valid.{each_pair};
ghost use Rattle.sweep.specs.Extents.{HasExtents};
ghost use Rattle.cad_valid.specs.Shapes.{Shape, AreShapes, AreEnclosed, told_apart, are_sound};
ghost use Rattle.cad_valid.specs.Shapes.{are_shapes_apart as are_apart_of, are_apart_at};

use crate::anchors::are_each_inside;
use crate::shapes::{Enclosing, PlacedRing, are_apart};
use cad_rows::Memory;
use std::alloc::Global;
use std::marker::Model;
use sweep::{Extent, PairTest, all_that_overlap_pass, row_height};

/// So few anchors are counted one by one.
const FEW: usize = 16;

/// The rings of a face as they lie: outlines, which have positive doubled area, and holes, which
/// have negative. Of others is known whether there is one.
#[derive(Drop)]
pub struct FaceShapes {
    outlines: Vec<PlacedRing>,
    holes: Vec<PlacedRing>,
    have_areas: bool,
}

impl Model for FaceShapes {
    ghost use Rattle.cad_valid.specs.Shapes.{ToldApart};

    ghost Value = { ToldApart };

    ghost view = { λ f. record {
      outlines = f.outlines.items;
      holes = f.holes.items;
      have_areas = f.have_areas;
    } };
}

impl FaceShapes {
    /// Of no ring.
    pub fn none(alloc: Global) -> FaceShapes
        ensures { result ≡ told_apart [] }
    {
        FaceShapes {
            outlines: Vec::new(alloc),
            holes: Vec::new(alloc),
            have_areas: true,
        }
    }

    /// With one more ring.
    pub fn add(&mut self, ring: PlacedRing) -> Result<(), Memory>
        requires { length ring.sides ≤ 2 * string_limit }
        ensures { (shapes : List Shape) → self.old ≡ told_apart shapes
            → OnOk result (self.new ≡ told_apart (shapes ++ ring ∷ [])) }
    {
        let area = ring.doubled_area();
        if area > 0 {
            self.outlines.push(ring)?;
        } else if area < 0 {
            self.holes.push(ring)?;
        } else {
            self.have_areas = false;
        }
        Ok(())
    }

    /// Whether so many have positive doubled area, and all others negative.
    pub fn has_outlines(&self, wanted: usize) -> bool
        ensures { result ≡ ((length self.now.outlines == wanted) && self.now.have_areas) }
    {
        self.outlines.len() == wanted && self.have_areas
    }

    /// Whether each hole's anchor is inside each outline, and in no other hole. Takes memory for a box
    /// and an anchor of each hole, and for at most three spans a box. Time is that of each side of the
    /// outlines with the anchors whose height it spans, of the sorts of anchors and boxes, and of each
    /// two holes whose boxes overlap.
    pub fn has_sound_holes(&self, alloc: Global) -> Result<bool, Memory>
        requires { AreShapes self.now.holes }
        ensures { IfOk result (λ b. b ≡ are_sound self.now) }
    {
        Ok(
            are_inside(alloc, self.holes.as_slice(), self.outlines.as_slice())?
                && are_each_apart(alloc, self.holes.as_slice())?,
        )
    }
}

/// Whether the anchor of each of these holes is inside each of these outlines.
fn are_inside(alloc: Global, holes: &[PlacedRing], outlines: &[PlacedRing]) -> Result<bool, Memory>
    ensures { IfOk result (λ b. b ≡ list_all (λ hole.
        list_all (λ outline. is_inside outline.sides hole.anchor) outlines.now) holes.now) }
{
    for outline in outlines {
        if !are_inside_one(alloc, holes, outline)? {
            return Ok(false);
        }
    }
    Ok(true)
}

/// Whether the anchor of each of these holes is inside this outline.
fn are_inside_one(alloc: Global, holes: &[PlacedRing], outline: &PlacedRing) -> Result<bool, Memory>
    ensures { IfOk result (λ b. b ≡ list_all (λ hole. is_inside outline.now.sides hole.anchor) holes.now) }
{
    if holes.len() <= FEW {
        return Ok(are_few_inside(holes, outline));
    }
    are_each_inside(alloc, holes, outline)
}

/// The same, one by one.
fn are_few_inside(holes: &[PlacedRing], outline: &PlacedRing) -> bool
    ensures { result ≡ list_all (λ hole. is_inside outline.now.sides hole.anchor) holes.now }
{
    holes.iter().all(|hole| outline.has_inside(hole.anchor()))
}

/// Whether of each two of these holes neither has the other's anchor inside. Those whose boxes are
/// apart don't.
fn are_each_apart(alloc: Global, holes: &[PlacedRing]) -> Result<bool, Memory>
    requires { AreShapes holes.now }
    ensures { IfOk result (λ b. b ≡ each_pair are_apart_of holes.now) }
{
    let extents = extents_of(alloc, holes)?;
    let height = row_height(extents.as_slice());
    let test = AreApartAt { holes };
    Ok(all_that_overlap_pass(alloc, &test, extents.as_slice(), height)?)
}

/// The boxes of these rings.
fn extents_of(alloc: Global, rings: &[PlacedRing]) -> Result<Vec<Extent>, Memory>
    ensures boxes { IfOk result (λ extents. HasExtents extents.items) }
    ensures around { IfOk result (λ extents. AreEnclosed extents.items rings.now) }
{
    let mut extents = Vec::new(alloc);
    for ring in rings {
        extents.push(ring.extent())?;
    }
    Ok(extents)
}

/// Whether of the holes at two places neither has the other's anchor inside.
#[derive(Clone, Copy)]
struct AreApartAt<'a> {
    holes: &'a [PlacedRing],
}

impl PairTest for AreApartAt<'_> {
    ghost passes = { λ t i j. are_apart_at t.holes.now i j };

    fn pass(&self, first: usize, second: usize) -> bool {
        match (self.holes.get(first), self.holes.get(second)) {
            (Some(a), Some(b)) => are_apart(a, b),
            _ => true,
        }
    }
}
