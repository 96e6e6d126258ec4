//! Whether touched faces have their outlines, and their holes in place.
ghost use Rattle.std.specs.Prelude.{◌≡◌, ◌↔◌, ◌<◌, ◌≤◌, ◌*◌, IsTrue, length, map as map_of, IfOk, IfSome};
ghost use Rattle.std.specs.List.{AllByRecursion};
ghost use Rattle.geo_exact.specs.Measure.{doubled_area};
ghost use Rattle.cad_rows.specs.Limits.{string_limit};
ghost use Rattle.cad_map.specs.Boundaries.{canonical_order};
ghost use Rattle.cad_map.specs.Map.{Map, rings_at, rings_of, position_of, sum_of_face};
ghost use Rattle.cad_map.specs.Rings.{HasWholeRings, ring_at};
ghost use Rattle.cad_near.specs.Joins.{JoinsValid};
ghost use Rattle.cad_near.specs.KeptAreas.{HoldsAreas};
ghost use Rattle.cad_near.specs.Moves.{MovesValid};
ghost use Rattle.cad_near.specs.Near.{HoldsMap};
ghost use Rattle.cad_near.specs.Near.{OfFace, HasOutlines, HasSoundHoles};
ghost use Rattle.cad_near.specs.Near.{outlines_wanted as outlines_wanted_of, rules_of};
ghost use Rattle.cad_valid.specs.Shapes.{shape_of, told_apart};

use crate::areas::FaceAreas;
use crate::joins::joins_face;
use crate::moves::leaves_face;
use crate::{Joined, Moved};
use cad_map::{MapView, Walk, has_face};
use cad_rows::{Face, Memory};
use cad_valid::{
    FaceShapes, OutlineCount, PlacedRing, has_one_ring, has_outlines, has_sound_holes,
};
use cell_grid::CellGrid;
use std::alloc::Global;

/// Up to so many rings of a face are walked each time that something is asked of one, which takes no
/// memory.
const FEW_RINGS: usize = 4;

/// What the rings of a face tell, or those of several.
#[derive(Clone, Copy)]
pub(crate) struct FaceRules {
    /// Whether each face has its outlines.
    pub(crate) outlines: bool,
    /// Whether the holes of each are in place.
    pub(crate) holes: bool,
}

/// What the rings of these faces tell. One that the map doesn't have breaks no rule.
pub(crate) fn rules_of_faces<M: MapView>(
    alloc: Global,
    map: &M,
    grid: &CellGrid,
    areas: &FaceAreas,
    faces: &[Face],
    moved: Option<&Moved>,
    joined: Option<&Joined>,
) -> FaceRules
    requires whole { HasWholeRings (M.map map.now) }
    requires held { HoldsMap grid.now (M.map map.now) }
    requires areas { HoldsAreas areas.now (M.map map.now) }
    requires moved { IfSome moved (λ v. MovesValid (M.map map.now) v.now) }
    requires joined { IfSome joined (λ j. JoinsValid (M.map map.now) j.now) }
    ensures outlines { IsTrue result.outlines
        ↔ AllByRecursion (OfFace (M.map map.now) (HasOutlines (M.map map.now))) faces.now }
    ensures holes { IsTrue result.holes
        ↔ AllByRecursion (OfFace (M.map map.now) (HasSoundHoles (M.map map.now))) faces.now }
{
    let mut outlines = true;
    let mut holes = true;
    for face in faces {
        let rules = rules_of_face_if_there(alloc, map, grid, areas, face, moved, joined);
        outlines &= rules.outlines;
        holes &= rules.holes;
    }
    FaceRules { outlines, holes }
}

/// What the rings of a face tell, if the map has it. Where it has many, and the edit is seen to leave
/// them as they were to one another, they aren't looked at: they broke no rule before.
fn rules_of_face_if_there<M: MapView>(
    alloc: Global,
    map: &M,
    grid: &CellGrid,
    areas: &FaceAreas,
    face: &Face,
    moved: Option<&Moved>,
    joined: Option<&Joined>,
) -> FaceRules
    requires whole { HasWholeRings (M.map map.now) }
    requires held { HoldsMap grid.now (M.map map.now) }
    requires areas { HoldsAreas areas.now (M.map map.now) }
    requires moved { IfSome moved (λ v. MovesValid (M.map map.now) v.now) }
    requires joined { IfSome joined (λ j. JoinsValid (M.map map.now) j.now) }
    ensures outlines { IsTrue result.outlines
        ↔ OfFace (M.map map.now) (HasOutlines (M.map map.now)) face.now }
    ensures holes { IsTrue result.holes
        ↔ OfFace (M.map map.now) (HasSoundHoles (M.map map.now)) face.now }
{
    let many = map.ring_count(*face) > FEW_RINGS;
    if many && (leaves_face(map, grid, face, moved) || joins_face(map, grid, face, joined)) {
        return FaceRules {
            outlines: true,
            holes: true,
        };
    }
    let rules = rules_of_face(alloc, map, areas, face, many);
    FaceRules {
        outlines: rules.outlines || !has_face(map, face),
        holes: rules.holes || !has_face(map, face),
    }
}

/// What the rings of a face tell.
///
/// Many are walked once and laid out in memory, so that of holes only those are compared whose boxes
/// overlap. Where there are few, and where memory runs out, they are walked again for each question:
/// that takes none, and a time that grows with the square of their number.
fn rules_of_face<M: MapView>(
    alloc: Global,
    map: &M,
    areas: &FaceAreas,
    face: &Face,
    many: bool,
) -> FaceRules
    requires whole { HasWholeRings (M.map map.now) }
    requires areas { HoldsAreas areas.now (M.map map.now) }
    ensures { result ≡ rules_of (M.map map.now) face.now }
{
    if !many {
        return rules_of_few(map, areas, face);
    }
    match rules_by_shapes(alloc, map, face) {
        Ok(rules) => rules,
        Err(_) => rules_by_walks(map, face),
    }
}

/// What the few rings of a face tell. Of one alone the area is the face's, and is looked up.
fn rules_of_few<M: MapView>(map: &M, areas: &FaceAreas, face: &Face) -> FaceRules
    requires whole { HasWholeRings (M.map map.now) }
    requires areas { HoldsAreas areas.now (M.map map.now) }
    ensures { result ≡ rules_of (M.map map.now) face.now }
{
    if has_one_ring(map, face) {
        if let Some(area) = areas.get(face) {
            return rules_of_one_ring(face, area);
        }
    }
    rules_by_walks(map, face)
}

/// What the one ring of a face tells by its doubled area, which is the face's. It is no hole of
/// another, and has none.
fn rules_of_one_ring(face: &Face, area: i128) -> FaceRules
    ensures { (m : Map) → length (rings_of m face.now) ≡ 1
        → area ≡ sum_of_face doubled_area m face.now → result ≡ rules_of m face.now }
{
    let mut outlines = OutlineCount::none();
    outlines.add(area);
    FaceRules {
        outlines: outlines.is(outlines_wanted(face)),
        holes: true,
    }
}

/// What the rings of a face tell, each walked for each question. Takes no memory.
fn rules_by_walks<M: MapView>(map: &M, face: &Face) -> FaceRules
    requires { HasWholeRings (M.map map.now) }
    ensures { result ≡ rules_of (M.map map.now) face.now }
{
    FaceRules {
        outlines: has_outlines(map, face, outlines_wanted(face)),
        holes: has_sound_holes(map, face),
    }
}

/// What the rings of a face tell as they lie. Takes memory for their positions, 32 bytes a side, and
/// for the boxes of holes.
fn rules_by_shapes<M: MapView>(alloc: Global, map: &M, face: &Face) -> Result<FaceRules, Memory>
    requires { HasWholeRings (M.map map.now) }
    ensures { IfOk result (λ rules. rules ≡ rules_of (M.map map.now) face.now) }
{
    let shapes = shapes_of(alloc, map, face)?;
    let holes = shapes.has_sound_holes(alloc)?;
    Ok(FaceRules {
        outlines: shapes.has_outlines(outlines_wanted(face)),
        holes,
    })
}

/// The rings of a face as they lie.
fn shapes_of<M: MapView>(alloc: Global, map: &M, face: &Face) -> Result<FaceShapes, Memory>
    requires { HasWholeRings (M.map map.now) }
    ensures shapes { IfOk result (λ shapes. shapes ≡ told_apart
        (map_of (shape_of (position_of (M.map map.now))) (rings_at face.now (M.rings map.now)))) }
    // The rings are those of the map.
    ensures canonical_order { canonical_order (M.rings map.now) ≡ (M.map map.now).boundaries }
{
    let mut shapes = FaceShapes::none(alloc);
    for place in 0..map.ring_count(*face) {
        shapes.add(placed_ring(alloc, map, face, place)?)?;
    }
    Ok(shapes)
}

/// A ring of a face as it lies.
fn placed_ring<M: MapView>(
    alloc: Global,
    map: &M,
    face: &Face,
    place: usize,
) -> Result<PlacedRing, Memory>
    requires whole { HasWholeRings (M.map map.now) }
    requires there { place < length (rings_at face.now (M.rings map.now)) }
    ensures placed { IfOk result (λ placed. placed ≡ shape_of (position_of (M.map map.now))
        (ring_at (M.rings map.now) face.now place)) }
    ensures few { IfOk result (λ placed. length placed.sides ≤ 2 * string_limit) }
{
    let walk = Walk::of_ring(map, face, place);
    let (first, _) = walk.first_side();
    PlacedRing::of(alloc, map, first, walk)
}

/// How many outlines a face has: the outside none, and a parcel one.
fn outlines_wanted(face: &Face) -> usize
    ensures { result ≡ outlines_wanted_of face.now }
{
    match face {
        Face::Outside => 0,
        Face::Parcel(_) => 1,
    }
}
