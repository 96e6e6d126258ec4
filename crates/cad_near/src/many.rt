//! Whether very many touched strings and points meet others only at ends, told by one sort of the
//! boxes of all that the grid holds near them.
ghost use Rattle.std.specs.Prelude.{◌≡◌, ◌<◌, ◌^◌, ℕ, length, IsTrue, IfSome};
ghost use Rattle.std.specs.Bool.{OnTrue};
ghost use Rattle.std.specs.List.{AllByRecursion, Contains};
ghost use Rattle.geo_exact.specs.Position.{Position};
ghost use Rattle.geo_exact.specs.SignTest.{boxes_overlap};
ghost use Rattle.cell_grid.specs.Grid.{HoldsString, HoldsPoint};
ghost use Rattle.cad_map.specs.Valid.{HasSoundRows};
ghost use Rattle.cad_map.specs.Crossings.{HasPlacedRows};
ghost use Rattle.cad_near.specs.Near.{HoldsMap, OfPoint, OfString, AreUncrossed, touched_of};
ghost use Rattle.cad_valid.specs.Placed.{placed_point as placed_point_of};
ghost use Rattle.cad_near.specs.Seen.{IsInReach, HasInReach};
ghost use Rattle.cad_near.specs.Seen.{lying_string as lying_string_of, lying_point as lying_point_of};
ghost use Rattle.cad_near.specs.Many.{HasTouchedIn, AreNamed, HasAllIn, AreAllNear};
ghost use Rattle.cad_near.specs.Many.{LeadApart, AreGroupsIn, AreRegroupedIn, PassInGroups};
ghost use Rattle.cad_near.specs.Many.{is_string_of as is_string_of_in};

use crate::Touched;
use crate::seen::{Reach, grown};
use crate::turns::spokes_at;
use cad_map::{MapView, position, sort_in_turn};
use cad_rows::{PointNo, StringNo};
use cad_valid::{
    HUB, Placed, Uncrossed, boxes_of, each_alone, is_point, placed_point, placed_string,
};
use cell_grid::CellGrid;
use std::alloc::Global;
use sweep::all_of_two_groups_pass;

/// Fewer touched strings are looked at one by one.
const MANY: usize = 64;

/// Where more are held near than so many for each touched string, there is much that lies near none
/// of them.
const MOST_NEAR: usize = 256;

/// Whether many touched strings and points are seen to meet others only at ends, by one sort of the
/// boxes of all that the grid holds near them. `false` where they are few or far apart, where memory
/// runs out, or where something seems to be in the way: then they are looked at one by one.
pub(crate) fn are_many_uncrossed<M: MapView>(
    alloc: Global,
    map: &M,
    grid: &CellGrid,
    touched: &Touched,
) -> bool
    requires rows { HasPlacedRows (M.map map.now) }
    requires held { HoldsMap grid.now (M.map map.now) }
    ensures { IsTrue result → AreUncrossed (M.map map.now) (touched_of touched.now) }
{
    if touched.strings.len() < MANY {
        return false;
    }
    let Some(items) = items_near(alloc, map, grid, touched) else {
        return false;
    };
    match pass_in_groups(alloc, map, touched.points.as_slice(), items.as_slice()) {
        Some(pass) => pass,
        None => false,
    }
}

// ---- What lies near

/// A box round all touched strings and points that the map has, and `None` where no point is named.
fn reach_of<M: MapView>(map: &M, touched: &Touched) -> Option<Reach>
    requires { HasSoundRows (M.map map.now) }
    ensures { IfSome result (HasTouchedIn (M.map map.now) (touched_of touched.now)) }
{
    let first = position(map, *touched.points.as_slice().first()?);
    let at_first = Reach {
        low: first,
        high: first,
    };
    let reach = grown_by_strings(map, at_first, touched.strings.as_slice());
    Some(grown_by_points(map, reach, touched.points.as_slice()))
}

/// The box of this one and those of these strings that the map has.
fn grown_by_strings<M: MapView>(map: &M, reach: Reach, strings: &[StringNo]) -> Reach
    requires { HasSoundRows (M.map map.now) }
    ensures all { AllByRecursion
        (OfString (M.map map.now) (λ s. HasInReach result (lying_string_of (M.map map.now) s)))
        strings.now }
    ensures kept { (q : Position) → IsInReach reach q → IsInReach result q }
{
    let mut so_far = reach;
    for place in 0..strings.len() {
        if let Some(row) = map.string(strings[place]) {
            so_far = grown(
                grown(so_far, position(map, row.from)),
                position(map, row.to),
            );
        }
    }
    so_far
}

/// The box of this one and those of these points that the map has.
fn grown_by_points<M: MapView>(map: &M, reach: Reach, points: &[PointNo]) -> Reach
    requires { HasSoundRows (M.map map.now) }
    ensures all { AllByRecursion
        (OfPoint (M.map map.now) (λ p. HasInReach result (lying_point_of p))) points.now }
    ensures kept { (q : Position) → IsInReach reach q → IsInReach result q }
{
    let mut so_far = reach;
    for place in 0..points.len() {
        if let Some(row) = map.point(points[place]) {
            so_far = grown(so_far, row.position);
        }
    }
    so_far
}

/// The strings held in a box, in order of their numbers, and `None` where there are more than so many
/// or memory runs out.
fn strings_near(alloc: Global, grid: &CellGrid, reach: &Reach, most: usize) -> Option<Vec<StringNo>>
    ensures { IfSome result (λ numbers. (n : ℕ) (c d : Position) → HoldsString grid.now n c d
        → IsTrue (boxes_overlap reach.now.low reach.now.high c d) → Contains numbers.items n) }
{
    let mut numbers = Vec::new(alloc);
    for held in grid.candidates(reach.low, reach.high) {
        if numbers.len() >= most {
            return None;
        }
        numbers.push(held.string).ok()?;
    }
    numbers.sort_unstable_by_key(|number| number.get());
    Some(numbers)
}

/// The points held in a box, and `None` where there are more than so many or memory runs out.
fn points_near(alloc: Global, grid: &CellGrid, reach: &Reach, most: usize) -> Option<Vec<PointNo>>
    ensures { IfSome result (λ numbers. (n : ℕ) (c : Position) → HoldsPoint grid.now n c
        → IsTrue (boxes_overlap reach.now.low reach.now.high c c) → Contains numbers.items n) }
{
    let mut numbers = Vec::new(alloc);
    for held in grid.point_candidates(reach.low, reach.high) {
        if numbers.len() >= most {
            return None;
        }
        numbers.push(held.point).ok()?;
    }
    Some(numbers)
}

/// Those of these strings that the map has. One that is named twice in a row comes once.
fn placed_strings<M: MapView>(alloc: Global, map: &M, numbers: &[StringNo]) -> Option<Vec<Placed>>
    requires { HasPlacedRows (M.map map.now) }
    ensures { IfSome result (λ items. AreNamed (M.map map.now) numbers.now items.items) }
{
    let mut items = Vec::new(alloc);
    for place in 0..numbers.len() {
        if place > 0 && numbers[place - 1] == numbers[place] {
            continue;
        }
        if let Some(row) = map.string(numbers[place]) {
            items.push(placed_string(map, row)).ok()?;
        }
    }
    Some(items)
}

/// Those of these points that the map has.
fn placed_points<M: MapView>(alloc: Global, map: &M, numbers: &[PointNo]) -> Option<Vec<Placed>>
    requires { HasSoundRows (M.map map.now) }
    ensures { IfSome result (λ items. AllByRecursion (OfPoint (M.map map.now)
        (λ p. Contains items.items (placed_point_of p))) numbers.now) }
{
    let mut items = Vec::new(alloc);
    for place in 0..numbers.len() {
        if let Some(row) = map.point(numbers[place]) {
            items.push(placed_point(row)).ok()?;
        }
    }
    Some(items)
}

/// The strings and points of the map in a box, and `None` where more than so many strings or points
/// are held there or memory runs out.
fn items_in<M: MapView>(
    alloc: Global,
    map: &M,
    grid: &CellGrid,
    reach: &Reach,
    most: usize,
) -> Option<Vec<Placed>>
    requires rows { HasPlacedRows (M.map map.now) }
    requires held { HoldsMap grid.now (M.map map.now) }
    ensures { IfSome result (λ items. HasAllIn (M.map map.now) reach.now items.items) }
{
    let strings = strings_near(alloc, grid, reach, most)?;
    let points = points_near(alloc, grid, reach, most)?;
    let mut items = placed_strings(alloc, map, strings.as_slice())?;
    let mut others = placed_points(alloc, map, points.as_slice())?;
    items.append(&mut others).ok()?;
    Some(items)
}

/// The strings and points of the map in a box round those that were touched, and `None` where these
/// are far apart or memory runs out.
fn items_near<M: MapView>(
    alloc: Global,
    map: &M,
    grid: &CellGrid,
    touched: &Touched,
) -> Option<Vec<Placed>>
    requires rows { HasPlacedRows (M.map map.now) }
    requires held { HoldsMap grid.now (M.map map.now) }
    ensures { IfSome result
        (λ items. AreAllNear (M.map map.now) (touched_of touched.now) items.items) }
{
    let reach = reach_of(map, touched)?;
    let most = touched.strings.len().saturating_mul(MOST_NEAR);
    items_in(alloc, map, grid, &reach, most)
}

// ---- Groups

/// Whether no two strings of a point are seen to lead into one direction.
fn lead_apart<M: MapView>(alloc: Global, map: &M, point: PointNo) -> Option<bool>
    ensures { IfSome result (λ b. OnTrue b (LeadApart (M.map map.now) point)) }
{
    let Ok(mut spokes) = spokes_at(alloc, map, point) else {
        return None;
    };
    Some(sort_in_turn(position(map, point), spokes.as_mut_slice()))
}

/// Whether it is a string that ends at a point.
fn is_string_of(item: &Placed, point: PointNo) -> bool
    ensures { result ≡ is_string_of_in item.now point }
{
    item.is_end(point) && !is_point(item)
}

/// Puts the strings of a point into one group.
fn put_group(point: PointNo, items: &[Placed], groups: &mut Vec<u64>)
    ensures count { length groups.new.items ≡ length groups.old.items }
    ensures each { AreRegroupedIn point items.now groups.old.items groups.new.items }
    ensures small { point < 2 ^ 32 }
{
    let group = u64::from(point.get());
    for place in 0..items.len() {
        if place < groups.len() && is_string_of(&items[place], point) {
            groups[place] = group;
        }
    }
}

/// Puts the strings of a point into one group, where it has very many and no two lead into one
/// direction.
fn put_if_apart<M: MapView>(
    alloc: Global,
    map: &M,
    point: PointNo,
    items: &[Placed],
    groups: &mut Vec<u64>,
) -> Option<()>
    requires { AreGroupsIn (M.map map.now) items.now groups.old.items }
    ensures count { IfSome result (λ _. length groups.new.items ≡ length groups.old.items) }
    ensures groups { IfSome result (λ _.
        AreGroupsIn (M.map map.now) items.now groups.new.items) }
{
    if map.degree(point) >= HUB && lead_apart(alloc, map, point)? {
        put_group(point, items, groups);
    }
    Some(())
}

/// A group for each of these strings and points: two of one group are strings that meet at one point
/// alone. Such groups have the strings of those of these points that have very many.
fn groups_of<M: MapView>(
    alloc: Global,
    map: &M,
    points: &[PointNo],
    items: &[Placed],
) -> Option<Vec<u64>>
    requires { length items.now < 2 ^ 63 }
    ensures count { IfSome result (λ groups. length groups.items ≡ length items.now) }
    ensures groups { IfSome result (λ groups.
        AreGroupsIn (M.map map.now) items.now groups.items) }
{
    let mut groups = each_alone(alloc, items.len()).ok()?;
    for place in 0..points.len() {
        put_if_apart(alloc, map, points[place], items, &mut groups)?;
    }
    Some(groups)
}

/// Whether each two of these strings and points whose boxes overlap, but for those of one group, pass
/// the test of V4. The strings of those of these points that have very many are of one group.
fn pass_in_groups<M: MapView>(
    alloc: Global,
    map: &M,
    points: &[PointNo],
    items: &[Placed],
) -> Option<bool>
    ensures { IfSome result (λ b. OnTrue b (PassInGroups (M.map map.now) items.now)) }
{
    let boxes = boxes_of(alloc, items).ok()?;
    let groups = groups_of(alloc, map, points, items)?;
    all_of_two_groups_pass(alloc, &Uncrossed { items }, boxes, groups).ok()
}
