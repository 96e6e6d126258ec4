//! Which points have one position, and which strings and points cross, told by sorts of their boxes:
//! by one for both where nothing is wrong, and by one each where something is.
ghost use Rattle.std.specs.Prelude.{◌≡◌, ◌++◌, length, IsTrue, IfOk, IfSome, IfNone, OnOk};
ghost use Rattle.std.specs.Bool.{OnTrue, OnFalse};
ghost use Rattle.cad_rows.specs.declared.refusals.Rule.TheVariants.{V3, V4};
ghost use Rattle.cad_map.specs.Valid.{CanBeTested, Keeps, FirstBroken};
ghost use Rattle.cad_map.specs.Valid.{HasSoundRows, HasTwoEnds, HasNoCrossing};
ghost use Rattle.cad_map.specs.Valid.{has_distinct_positions as has_distinct_positions_of};
ghost use Rattle.cad_map.specs.Crossings.{HasPlacedRows};
ghost use Rattle.sweep.specs.Extents.{HasExtents, AllThatOverlapPass, SomePairFails};
ghost use Rattle.cad_valid.specs.Hubs.{boxes_in};
ghost use Rattle.cad_valid.specs.Swept.{passes_at, lie_apart as lie_apart_of};
ghost use Rattle.cad_valid.specs.Swept.{is_point as is_point_of, have_no_crossing as have_no_crossing_of};
ghost use Rattle.cad_valid.specs.Swept.{are_clear as are_clear_of};
ghost use Rattle.cad_valid.specs.Swept.{placed_rows as placed_rows_of};
ghost use Rattle.cad_valid.specs.Swept.{placed_strings as placed_strings_of};
ghost use Rattle.cad_valid.specs.Swept.{placed_points as placed_points_of};

use crate::boxes::boxes_of;
use crate::hubs::{groups_of, may_have_hub};
use crate::placed::{Placed, lies_only_as_end, meet_at_ends, placed_point, placed_string};
use crate::points::is_same;
use cad_map::{MapView, PlainMap};
use cad_rows::{Memory, Rule};
use std::alloc::Global;
use sweep::{Extent, PairTest, all_of_two_groups_pass, all_that_overlap_pass, row_height};

/// The first of V3 and V4 that the map breaks, or `None` where it keeps both. That it keeps both is
/// told by one sort of boxes. Where one of them is broken, or a point may have very many strings, V3
/// is told by a sort of its own, and then V4.
#[tactic(auto, using(crate::proofs::Whole::placed))]
pub(crate) fn first_broken_of_places(alloc: Global, map: &PlainMap) -> Result<Option<Rule>, Memory>
    requires { CanBeTested map.now }
    ensures broken { IfOk result (λ rule. IfSome rule (FirstBroken map.now)) }
    ensures v3 { IfOk result (λ rule. IfNone rule (Keeps map.now V3)) }
    ensures v4 { IfOk result (λ rule. IfNone rule (Keeps map.now V4)) }
{
    let hub = may_have_hub(alloc, map)?;
    if !hub && has_clear_rows(alloc, map)? {
        return Ok(None);
    }
    if !has_distinct_positions_swept(alloc, map)? {
        return Ok(Some(Rule::V3));
    }
    if !has_no_crossing_swept(alloc, map, hub)? {
        return Ok(Some(Rule::V4));
    }
    Ok(None)
}

// Whether no two points have one position and nothing crosses, by one sort of the boxes of strings
// and points. Strings of one point are tested with one another, however many they are.
fn has_clear_rows(alloc: Global, map: &PlainMap) -> Result<bool, Memory>
    requires sound { HasSoundRows map.now }
    requires ends { HasTwoEnds map.now }
    ensures apart { IfOk result (λ b. OnTrue b (IsTrue (has_distinct_positions_of map.now))) }
    ensures uncrossed { IfOk result (λ b. OnTrue b (HasNoCrossing map.now)) }
{
    let items = placed_rows(alloc, map)?;
    let boxes = boxes_of(alloc, &items)?;
    let clear = ClearOfEach { items: &items };
    let height = row_height(&boxes);
    Ok(all_that_overlap_pass(alloc, &clear, &boxes, height)?)
}

// Whether no two points have the same position. Takes memory for a box and for a span or two of
// each point; its time is that of a sort of these.
fn has_distinct_positions_swept(alloc: Global, map: &PlainMap) -> Result<bool, Memory>
    ensures { IfOk result (λ b. b ≡ has_distinct_positions_of map.now) }
{
    let mut points = Vec::with_capacity(alloc, map.counts().points)?;
    put_points(&mut points, map)?;
    let boxes = boxes_of(alloc, &points)?;
    let apart = Apart { points: &points };
    let height = row_height(&boxes);
    Ok(all_that_overlap_pass(alloc, &apart, &boxes, height)?)
}

// Whether no two strings have a common location but a shared end, and no point lies on a string but
// its ends. Takes memory for each string and point with its box, and for at most three spans a box
// or, where a point may have very many strings, a hub, some boxes more for each.
fn has_no_crossing_swept(alloc: Global, map: &PlainMap, hub: bool) -> Result<bool, Memory>
    requires { HasPlacedRows map.now }
    ensures kept { IfOk result (λ b. OnTrue b (HasNoCrossing map.now)) }
    ensures broken { IfOk result (λ b. OnFalse b (¬ HasNoCrossing map.now)) }
{
    let items = placed_rows(alloc, map)?;
    let boxes = boxes_of(alloc, &items)?;
    are_uncrossed(alloc, map, hub, &items, boxes)
}

// Whether each two of the map's strings and points whose boxes overlap pass the test of V4. Where
// there may be a hub, strings of a hub aren't tested with one another if no two of them lead into one
// direction.
fn are_uncrossed(
    alloc: Global,
    map: &PlainMap,
    hub: bool,
    items: &[Placed],
    boxes: Vec<Extent>,
) -> Result<bool, Memory>
    requires rows { HasPlacedRows map.now }
    requires items { items.now ≡ placed_rows_of map.now }
    requires boxes { boxes.items ≡ boxes_in items.now }
    requires extents { HasExtents boxes.items }
    ensures passed { IfOk result (λ b. OnTrue b
        (AllThatOverlapPass (passes_at have_no_crossing_of items.now) boxes.items)) }
    ensures failed { IfOk result (λ b. OnFalse b
        (SomePairFails (passes_at have_no_crossing_of items.now) (length boxes.items))) }
{
    let uncrossed = Uncrossed { items };
    if !hub {
        let height = row_height(&boxes);
        return Ok(all_that_overlap_pass(alloc, &uncrossed, &boxes, height)?);
    }
    let groups = groups_of(alloc, map, boxes.len())?;
    Ok(all_of_two_groups_pass(alloc, &uncrossed, boxes, groups)?)
}

// The test of V3: two points have different positions.
#[derive(Drop)]
struct Apart<'a> {
    points: &'a [Placed],
}

impl PairTest for Apart<'_> {
    ghost passes = { λ test i j. passes_at lie_apart_of test.points.now i j };

    fn pass(&self, first: usize, second: usize) -> bool {
        match (self.points.get(first), self.points.get(second)) {
            (Some(a), Some(b)) => lie_apart(a, b),
            _ => true,
        }
    }
}

fn lie_apart(a: &Placed, b: &Placed) -> bool
    ensures { result ≡ lie_apart_of a.now b.now }
{
    !is_same(a.a, b.a)
}

/// The test of V4. Two points pass it: V3 is told before.
#[derive(Drop)]
pub struct Uncrossed<'a> {
    /// The strings and points that are tested, by their places.
    pub items: &'a [Placed],
}

impl PairTest for Uncrossed<'_> {
    ghost passes = { λ test i j. passes_at have_no_crossing_of test.items.now i j };

    fn pass(&self, first: usize, second: usize) -> bool {
        match (self.items.get(first), self.items.get(second)) {
            (Some(a), Some(b)) => have_no_crossing(a, b),
            _ => true,
        }
    }
}

/// Whether two strings meet at ends alone, and a point lies on a string only as its end.
fn have_no_crossing(a: &Placed, b: &Placed) -> bool
    ensures { result ≡ have_no_crossing_of a.now b.now }
{
    match (is_point(a), is_point(b)) {
        (true, true) => true,
        (true, false) => lies_only_as_end(a, b),
        (false, true) => lies_only_as_end(b, a),
        (false, false) => meet_at_ends(a, b),
    }
}

// The tests of V3 and V4 in one.
#[derive(Drop)]
struct ClearOfEach<'a> {
    items: &'a [Placed],
}

impl PairTest for ClearOfEach<'_> {
    ghost passes = { λ test i j. passes_at are_clear_of test.items.now i j };

    fn pass(&self, first: usize, second: usize) -> bool {
        match (self.items.get(first), self.items.get(second)) {
            (Some(a), Some(b)) => are_clear(a, b),
            _ => true,
        }
    }
}

// Whether two points lie apart, and any other two have no crossing.
fn are_clear(a: &Placed, b: &Placed) -> bool
    ensures { result ≡ are_clear_of a.now b.now }
{
    match (is_point(a), is_point(b)) {
        (true, true) => lie_apart(a, b),
        _ => have_no_crossing(a, b),
    }
}

/// Whether it is a point, and no string.
pub fn is_point(item: &Placed) -> bool
    ensures { result ≡ is_point_of item.now }
{
    item.from == item.to
}

/// The strings of the map, and then its points.
fn placed_rows(alloc: Global, map: &PlainMap) -> Result<Vec<Placed>, Memory>
    ensures { IfOk result (λ items. items.items ≡ placed_rows_of map.now) }
{
    let counts = map.counts();
    let mut items = Vec::with_capacity(alloc, counts.strings.saturating_add(counts.points))?;
    put_strings(&mut items, map)?;
    put_points(&mut items, map)?;
    Ok(items)
}

/// Puts the strings of the map.
fn put_strings(items: &mut Vec<Placed>, map: &PlainMap) -> Result<(), Memory>
    ensures { OnOk result (items.new.items ≡ items.old.items ++ placed_strings_of map.now) }
{
    for place in 0..map.counts().strings {
        let string = map.string_at(place).unwrap();
        items.push(placed_string(map, string))?;
    }
    Ok(())
}

/// Puts the points of the map.
fn put_points(items: &mut Vec<Placed>, map: &PlainMap) -> Result<(), Memory>
    ensures { OnOk result (items.new.items ≡ items.old.items ++ placed_points_of map.now) }
{
    for place in 0..map.counts().points {
        let point = map.point_at(place).unwrap();
        items.push(placed_point(point))?;
    }
    Ok(())
}
