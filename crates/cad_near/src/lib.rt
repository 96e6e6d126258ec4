//! The first rule that a map breaks, looked for near an edit that made it of a valid one.
#![tactic(auto)]

mod areas;
mod corners;
mod faces;
mod joins;
mod many;
mod moves;
mod passed;
mod points;
mod rays;
mod rounds;
mod seen;
mod sight;
mod strings;
mod turns;
mod ways;

ghost use Rattle.std.specs.Prelude.{◌≡◌, ◌↔◌, [], IsTrue, IfSome, IfNone};
ghost use Rattle.std.specs.List.{AllByRecursion};
ghost use Rattle.cad_rows.specs.declared.refusals.Rule.TheVariants.{V3, V4, V6, V7, V8};
ghost use Rattle.cad_map.specs.Valid.{HasSoundRows, HasTwoEnds};
ghost use Rattle.cad_map.specs.Valid.{CanBeTested, Keeps, KeepsAll, FirstBroken};
ghost use Rattle.cad_map.specs.Crossings.{HasPlacedRows};
ghost use Rattle.cad_map.specs.Rings.{HasWholeRings};
ghost use Rattle.cad_map.specs.Touched.{Touched as TouchedOf};
ghost use Rattle.cad_near.specs.KeptAreas.{HoldsAreas};
ghost use Rattle.cad_near.specs.Near.{HoldsMap, ComesFromValid, touched_of};
ghost use Rattle.cad_near.specs.Near.{AreUncrossed, HasEmptyCornersAt};
ghost use Rattle.cad_near.specs.Seen.{IsSeenAlone};

use crate::corners::{are_empty_at, are_empty_at_ends, are_empty_round};
use crate::faces::{FaceRules, rules_of_faces};
use crate::many::are_many_uncrossed;
use crate::passed::is_move_clear;
use crate::points::are_alone;
use crate::seen::{Seen, gather};
use crate::sight::{sees_points_clear, sees_strings_clear};
use crate::strings::{are_uncrossed, lie_at_ends};
pub use areas::FaceAreas;
use cad_map::MapView;
use cad_rows::{Face, PointNo, Rule, StringNo};
use cell_grid::CellGrid;
use geo_exact::Pt;
pub use joins::area_of_bend;
use std::alloc::Global;
use std::marker::Model;

/// A point that was moved, and where it lay. One that came between the ends of a string counts as
/// moved from where the first of them lies.
#[derive(Clone, Copy)]
pub struct Moved {
    pub point: PointNo,
    pub from: Pt,
}

impl Model for Moved {
    ghost use Rattle.geo_exact.specs.Position.{OnTheMap};
    ghost use Rattle.cad_map.specs.Touched.{Moved};

    ghost Value = { Moved };

    ghost view = { λ v. record { point = v.point; from = v.from } };

    ghost invariant = { λ v. OnTheMap v.from };

    ghost inverse = { λ v. record { point = v.point; from = v.from } };
}

/// A point that went from between two others, which one string joins then, and where it lay.
#[derive(Clone, Copy)]
pub struct Joined {
    pub point: PointNo,
    pub position: Pt,
    pub first: PointNo,
    pub second: PointNo,
}

impl Model for Joined {
    ghost use Rattle.geo_exact.specs.Position.{OnTheMap};
    ghost use Rattle.cad_map.specs.Touched.{Joined};

    ghost Value = { Joined };

    ghost view = { λ j. record {
      point = j.point;
      position = j.position;
      first = j.first;
      second = j.second;
    } };

    ghost invariant = { λ j. OnTheMap j.position };

    ghost inverse = { λ j. record {
      point = j.point;
      position = j.position;
      first = j.first;
      second = j.second;
    } };
}

/// What an edit touched. More may be named than was.
///
/// The points are those that are new, lie elsewhere, or have other strings or corners. The strings
/// are those that are new, have other ends, or an end that lies elsewhere. The faces are those that
/// are new, have other rings, or a point that lies elsewhere. Where the edit moved a point, split a
/// string at one or joined two there, and did no more, it may be told; then less has to be looked at.
#[derive(Drop)]
pub struct Touched {
    pub points: Vec<PointNo>,
    pub strings: Vec<StringNo>,
    pub faces: Vec<Face>,
    pub moved: Option<Moved>,
    pub joined: Option<Joined>,
}

/// The first rule that a map breaks, as [`first_broken`](cad_valid::first_broken) tells it, of a map
/// that an edit made of a valid one. It looks at what the edit touched, and at what the grid holds
/// near it.
///
/// A touched face of many rings is looked at whole: its rings are walked once and laid out in memory,
/// 32 bytes a side, with a box for each hole and at most three spans a box. Where there is no memory
/// it does without and answers the same, by walks round each two of the rings. Where a point was moved
/// that few strings have, a string was split or two were joined, and that is seen to leave the rings as
/// they were to one another, only those that pass there are walked. Of a touched face of one ring the
/// area is looked up in `areas`, and the ring is walked only where none is kept. At a touched point of
/// more than eight strings these are laid out too and sorted by their directions, 32 bytes a string;
/// without memory each corner there is compared with each of them. Where a point was moved, of the other
/// strings at the far end of one of its own only the two next to that are looked at, if it is still seen
/// between them. Where 64 strings or more were touched, what the grid holds near them is laid out and
/// compared by a sort of its boxes, some 200 bytes for each string and point; without memory each is
/// looked at by itself. All else takes none.
///
/// Where an edit only moved a point of few strings, which swept over no other point, and no other string
/// comes near the point's way, that alone tells that points lie apart and strings meet only at ends.
///
/// The grid holds the map's strings and points at their positions. It may hold others as well: a
/// candidate is tested where the map has it, and one that the map doesn't have is passed over.
#[tactic(auto, using(cad_valid::proofs::CallerLemmas::whole, cad_valid::proofs::CallerLemmas::placed))]
pub fn first_broken_near<M: MapView>(
    alloc: Global,
    map: &M,
    grid: &CellGrid,
    areas: &FaceAreas,
    touched: &Touched,
) -> Option<Rule>
    requires tested { CanBeTested (M.map map.now) }
    requires held { HoldsMap grid.now (M.map map.now) }
    requires areas { HoldsAreas areas.now (M.map map.now) }
    requires touched { ComesFromValid (touched_of touched.now) (M.map map.now) }
    ensures broken { IfSome result (FirstBroken (M.map map.now)) }
    ensures kept { IfNone result (KeepsAll (M.map map.now)) }
{
    if let Some(rule) = first_broken_apart(alloc, map, grid, touched) {
        return Some(rule);
    }
    if !has_empty_corners(alloc, map, touched) {
        return Some(Rule::V6);
    }
    let rules = rules_near(alloc, map, grid, areas, touched);
    if !rules.outlines {
        return Some(Rule::V7);
    }
    if !rules.holes {
        return Some(Rule::V8);
    }
    None
}

/// Of V3 and V4 the first that a map breaks. It breaks neither where a move of one point alone is seen
/// to have gone clear of all else. Otherwise what was touched is compared with all that lies near it.
fn first_broken_apart<M: MapView>(
    alloc: Global,
    map: &M,
    grid: &CellGrid,
    touched: &Touched,
) -> Option<Rule>
    requires tested { CanBeTested (M.map map.now) }
    requires held { HoldsMap grid.now (M.map map.now) }
    requires touched { ComesFromValid (touched_of touched.now) (M.map map.now) }
    ensures broken { IfSome result (FirstBroken (M.map map.now)) }
    ensures distinct { IfNone result (Keeps (M.map map.now) V3) }
    ensures uncrossed { IfNone result (Keeps (M.map map.now) V4) }
{
    if is_move_clear(map, grid, touched) {
        return None;
    }
    let mut gathered = Seen::none();
    let seen = seen_alone(map, grid, touched, &mut gathered);
    if !has_distinct_positions(map, grid, touched, seen) {
        return Some(Rule::V3);
    }
    if !has_no_crossing(alloc, map, grid, touched, seen) {
        return Some(Rule::V4);
    }
    None
}

/// What an edit touched, where that is little and near together, and all points near it are seen to be
/// clear of it. It is gathered in `seen`, where nothing was gathered yet.
fn seen_alone<'a, M: MapView>(
    map: &M,
    grid: &CellGrid,
    touched: &Touched,
    seen: &'a mut Seen,
) -> Option<&'a Seen>
    requires sound { HasSoundRows (M.map map.now) }
    requires held { HoldsMap grid.now (M.map map.now) }
    requires no_strings { seen.old.strings.items ≡ [] }
    requires no_points { seen.old.points.items ≡ [] }
    ensures { IfSome result (λ v. IsSeenAlone (M.map map.now) (touched_of touched.now) v.now) }
{
    if gather(map, touched, seen) && sees_points_clear(map, grid, seen) {
        Some(seen)
    } else {
        None
    }
}

/// Whether no two points have the same position. Two that weren't touched had others before.
/// `seen`: what was touched, where it is seen that no point lies there.
fn has_distinct_positions<M: MapView>(
    map: &M,
    grid: &CellGrid,
    touched: &Touched,
    seen: Option<&Seen>,
) -> bool
    requires sound { HasSoundRows (M.map map.now) }
    requires two { HasTwoEnds (M.map map.now) }
    requires held { HoldsMap grid.now (M.map map.now) }
    requires touched { ComesFromValid (touched_of touched.now) (M.map map.now) }
    requires seen { IfSome seen (λ v. IsSeenAlone (M.map map.now) (touched_of touched.now) v.now) }
    ensures { IsTrue result ↔ Keeps (M.map map.now) V3 }
{
    match seen {
        Some(_) => true,
        None => are_alone(map, grid, touched.points.as_slice()),
    }
}

/// Whether strings and points meet only at ends. Those that weren't touched did before. `seen`:
/// what was touched, where it is seen that no point lies there. Where it is very much, all that lies
/// near is compared by one sort first, if there is memory for that.
fn has_no_crossing<M: MapView>(
    alloc: Global,
    map: &M,
    grid: &CellGrid,
    touched: &Touched,
    seen: Option<&Seen>,
) -> bool
    requires rows { HasPlacedRows (M.map map.now) }
    requires held { HoldsMap grid.now (M.map map.now) }
    requires touched { ComesFromValid (touched_of touched.now) (M.map map.now) }
    requires seen { IfSome seen (λ v. IsSeenAlone (M.map map.now) (touched_of touched.now) v.now) }
    ensures { IsTrue result ↔ Keeps (M.map map.now) V4 }
{
    are_seen_uncrossed(map, grid, seen)
        || are_many_uncrossed(alloc, map, grid, touched)
        || (are_uncrossed(map, grid, touched.strings.as_slice())
            && lie_at_ends(map, grid, touched.points.as_slice()))
}

/// Whether strings and points that were gathered, where no point lies, are seen to meet others only
/// at ends.
fn are_seen_uncrossed<M: MapView>(map: &M, grid: &CellGrid, seen: Option<&Seen>) -> bool
    requires rows { HasPlacedRows (M.map map.now) }
    requires held { HoldsMap grid.now (M.map map.now) }
    ensures { (t : TouchedOf) → IfSome seen.entry (λ v. IsSeenAlone (M.map map.now) t v.now)
        → IsTrue result → AreUncrossed (M.map map.now) t }
{
    match seen {
        Some(seen) => sees_strings_clear(map, grid, seen),
        None => false,
    }
}

/// Whether corners are empty. One at a point that wasn't touched, and where no touched string ends,
/// was empty before.
fn has_empty_corners<M: MapView>(alloc: Global, map: &M, touched: &Touched) -> bool
    requires whole { HasWholeRings (M.map map.now) }
    requires touched { ComesFromValid (touched_of touched.now) (M.map map.now) }
    ensures { IsTrue result ↔ Keeps (M.map map.now) V6 }
{
    are_empty_at(alloc, map, touched.points.as_slice())
        && has_empty_corners_beside(alloc, map, touched)
}

/// Whether corners are empty, where those at touched points are. Of an edit that moved a point and did
/// no more, those at the other ends of its strings are left; of another, those at the ends of touched
/// strings.
fn has_empty_corners_beside<M: MapView>(alloc: Global, map: &M, touched: &Touched) -> bool
    requires whole { HasWholeRings (M.map map.now) }
    requires touched { ComesFromValid (touched_of touched.now) (M.map map.now) }
    requires points { AllByRecursion (HasEmptyCornersAt (M.map map.now)) touched.now.points.items }
    ensures { IsTrue result ↔ Keeps (M.map map.now) V6 }
{
    match touched.moved {
        Some(moved) => are_empty_round(alloc, map, moved.point),
        None => are_empty_at_ends(
            alloc,
            map,
            touched.strings.as_slice(),
            touched.points.as_slice(),
        ),
    }
}

/// Whether each parcel has one outline and the outside none, and whether the holes of each face are in
/// place. A face that wasn't touched has its own from before, and in their places.
fn rules_near<M: MapView>(
    alloc: Global,
    map: &M,
    grid: &CellGrid,
    areas: &FaceAreas,
    touched: &Touched,
) -> FaceRules
    requires whole { HasWholeRings (M.map map.now) }
    requires held { HoldsMap grid.now (M.map map.now) }
    requires areas { HoldsAreas areas.now (M.map map.now) }
    requires touched { ComesFromValid (touched_of touched.now) (M.map map.now) }
    ensures outlines { IsTrue result.outlines ↔ Keeps (M.map map.now) V7 }
    ensures holes { IsTrue result.holes ↔ Keeps (M.map map.now) V8 }
{
    rules_of_faces(
        alloc,
        map,
        grid,
        areas,
        touched.faces.as_slice(),
        touched.moved.as_ref(),
        touched.joined.as_ref(),
    )
}
