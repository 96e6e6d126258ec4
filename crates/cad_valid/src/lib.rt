//! The first rule that a map breaks, and the tests of its strings, points, corners, rings and faces that
//! tell it.
#![tactic(auto)]

mod anchors;
mod boxes;
mod corners;
mod crossings;
mod extents;
mod face_shapes;
mod holes;
mod holes_swept;
mod hubs;
mod outlines;
mod outlines_by_runs;
mod placed;
mod points;
mod rings;
mod shapes;
mod swept;

ghost use Rattle.std.specs.Prelude.{IfSome, IfNone, IfOk};
ghost use Rattle.cad_rows.specs.declared.refusals.Rule.TheVariants.{V3, V4, V6};
ghost use Rattle.cad_map.specs.Valid.{CanBeTested, Keeps, KeepsAll, FirstBroken};

use crate::corners::has_empty_corners;
use crate::crossings::has_no_crossing;
use crate::holes::has_holes_in_place;
use crate::holes_swept::has_holes_in_place_swept;
use crate::outlines::has_one_outline_each;
use crate::outlines_by_runs::has_one_outline_each_by_runs;
use crate::points::has_distinct_positions;
use crate::swept::first_broken_of_places;
pub use anchors::insides_of;
pub use boxes::boxes_of;
use cad_map::{MapView, PlainMap};
use cad_rows::{Memory, Rule};
pub use corners::is_empty_after;
pub use face_shapes::FaceShapes;
pub use holes::has_sound_holes;
pub use hubs::{HUB, each_alone};
pub use outlines::{OutlineCount, has_outlines};
pub use placed::{
    Placed, lies_only_as_end, meet_at_ends, placed_beside, placed_point, placed_string,
};
pub use points::is_same;
pub use rings::{anchor_of, doubled_area_of, has_one_ring, is_hole};
pub use shapes::PlacedRing;
use std::alloc::Global;
pub use swept::{Uncrossed, is_point};

/// The first rule that a map breaks, of V3, V4, V6, V7 and V8 in this order, or `None` where it keeps them all. Takes no
/// memory. It looks at each pair of strings, so its time grows with the square of the map's size.
///
/// It is asked of maps that keep V1 and V2, and V5 unless they break V3 or V4: what an edit makes of a valid map.
#[tactic(auto, using(crate::proofs::Whole::whole))]
pub fn first_broken<M: MapView>(map: &M) -> Option<Rule>
    requires { CanBeTested (M.map map.now) }
    ensures broken { IfSome result (FirstBroken (M.map map.now)) }
    ensures kept { IfNone result (KeepsAll (M.map map.now)) }
{
    if !has_distinct_positions(map) {
        return Some(Rule::V3);
    }
    if !has_no_crossing(map) {
        return Some(Rule::V4);
    }
    if !has_empty_corners(map) {
        return Some(Rule::V6);
    }
    if !has_one_outline_each(map) {
        return Some(Rule::V7);
    }
    if !has_holes_in_place(map) {
        return Some(Rule::V8);
    }
    None
}

/// The first rule that a map breaks, as [`first_broken`] tells it, of a map whose corners are empty
/// unless it breaks V3 or V4: then V6 need not be looked at.
///
/// That is the caller's to know. Who makes rings by following each side to the next one round its
/// point puts no string inside a corner, so a map read from strings alone has it by the way its rings
/// were made, and to look at each corner again would cost more than all else.
///
/// V3 and V4 are told by one sort of boxes, and by one more each where a map breaks one of them: of
/// strings and points only those are compared whose boxes lie beside one another in a row of the map.
/// For that it takes memory for the boxes, and for at most three spans a box. Its time for them is
/// that of the sort and of these pairs: many long strings that lie slantwise over one another are
/// compared each with each. Where a point may have very many strings they are told by a sort each,
/// and its strings are sorted by their directions instead, and not compared with one another.
///
/// V7 and V8 take each face's rings as they stand together in the map's list, and of holes too only
/// those are compared whose boxes overlap. Each side of an outline is counted at the anchors of those
/// holes whose height it spans.
///
/// # Errors
/// Memory ran out.
#[tactic(auto, using(crate::proofs::Whole::whole))]
pub fn first_broken_swept(alloc: Global, map: &PlainMap) -> Result<Option<Rule>, Memory>
    requires tested { CanBeTested map.now }
    requires corners { Keeps map.now V3 → Keeps map.now V4 → Keeps map.now V6 }
    ensures broken { IfOk result (λ rule. IfSome rule (FirstBroken map.now)) }
    ensures kept { IfOk result (λ rule. IfNone rule (KeepsAll map.now)) }
{
    if let Some(rule) = first_broken_of_places(alloc, map)? {
        return Ok(Some(rule));
    }
    if !has_one_outline_each_by_runs(map) {
        return Ok(Some(Rule::V7));
    }
    if !has_holes_in_place_swept(alloc, map)? {
        return Ok(Some(Rule::V8));
    }
    Ok(None)
}
