//! Sides that stand twice, and followers that do.
ghost use Rattle.std.specs.Prelude.{◌≡◌, ◌≢◌, ◌<◌, ◌≤◌, ◌==◌, ◌^◌, length, map, count_by, IfOk, IfSome, IfNone};
ghost use Rattle.std.specs.Bool.{OnTrue};
ghost use Rattle.std.specs.List.{AllByRecursion};
ghost use Rattle.sweep.specs.Repeats.{AreDistinct};
ghost use Rattle.cad_map.specs.Map.{Map, string_sides};
ghost use Rattle.cad_map.specs.Valid.{EachPair};
ghost use Rattle.cad_files.specs.Arrival.{AreStarsOf};
ghost use Rattle.cad_files.specs.Corners.{IsFirstMet, NoneMet, LeadsAlone, leads, key_of, two_points_of, lesser_of};
ghost use Rattle.cad_files.specs.Cycles.{AreLinked, plan_side_of};

use crate::rows::PlanString;
use crate::sides::PlanSide;
use crate::turns::MANY_STRINGS;
use cad_map::{Spoke, Stars};
use cad_rows::{Memory, PointNo};
use std::alloc::Global;
use sweep::first_repeated;

/// Two points as one number.
pub(crate) fn key(first: PointNo, second: PointNo) -> u64
    ensures value { result ≡ key_of (first, second) }
    ensures small { (first < 2 ^ 32) × (second < 2 ^ 32) }
{
    u64::from(first.get()) * (1 << 32) + u64::from(second.get())
}

// Two points of a side: from where and to where it leads, or where it ends and what follows.
fn two_points(side: &PlanSide, is_onward: bool) -> (PointNo, PointNo)
    ensures { result ≡ two_points_of is_onward side.now }
{
    if is_onward {
        (side.to, side.after)
    } else {
        (side.from, side.to)
    }
}

// Two points of each of these sides, as one number.
fn keys_of(alloc: Global, sides: &[PlanSide], is_onward: bool) -> Result<Vec<u64>, Memory>
    ensures keys { IfOk result
        (λ keys. keys.items ≡ map (λ s. key_of (two_points_of is_onward s)) sides.now) }
    ensures small { IfOk result (λ keys. AllByRecursion (λ s. ((two_points_of is_onward s).0 < 2 ^ 32)
        × ((two_points_of is_onward s).1 < 2 ^ 32)) sides.now) }
{
    let mut keys = Vec::with_capacity(alloc, sides.len())?;
    for i in 0..sides.len() {
        let (first, second) = two_points(&sides[i], is_onward);
        keys.push(key(first, second))?;
    }
    Ok(keys)
}

// The lesser of two places.
fn lesser(a: Option<usize>, b: Option<usize>) -> Option<usize>
    ensures { result ≡ lesser_of a b }
{
    match a {
        None => b,
        Some(p) => match b {
            None => Some(p),
            Some(q) => Some(p.min(q)),
        },
    }
}

/// The place of the first of these sides that stands among earlier ones, or leads to the end of an earlier one and has
/// its follower. Takes two sorts.
pub(crate) fn first_met(alloc: Global, sides: &[PlanSide]) -> Result<Option<usize>, Memory>
    ensures some { IfOk result (λ place. IfSome place (IsFirstMet sides.now)) }
    ensures none { IfOk result (λ place. IfNone place (NoneMet sides.now (length sides.now))) }
{
    let keys = keys_of(alloc, sides, false)?;
    let as_side = first_repeated(alloc, keys.as_slice())?;
    let keys = keys_of(alloc, sides, true)?;
    let by_follower = first_repeated(alloc, keys.as_slice())?;
    Ok(lesser(as_side, by_follower))
}

// How many of these spokes lead to the point.
fn count_to(ends: &[Spoke], far: PointNo) -> usize
    ensures { result ≡ count_by (λ e. e.far == far) ends.now }
{
    ends.iter().filter(|end| end.far.get() == far.get()).count()
}

// Whether at most one string leads from a point of few strings to the other point.
fn is_led_to_once(stars: &Stars, at: PointNo, far: PointNo) -> bool
    ensures { (m : Map) → AreStarsOf m stars.now
        → OnTrue result (count_by (leads at far) m.strings ≤ 1) }
{
    let ends = stars.ends(at);
    ends.len() < MANY_STRINGS && count_to(ends, far) <= 1
}

// Whether the string leads from one point to another, and no other one does, where one of these has few strings.
fn leads_alone(stars: &Stars, string: &PlanString) -> bool
    ensures { (m : Map) → AreStarsOf m stars.now
        → OnTrue result (LeadsAlone m.strings string.now.row) }
{
    let row = &string.row;
    row.from.get() != row.to.get()
        && (is_led_to_once(stars, row.from, row.to) || is_led_to_once(stars, row.to, row.from))
}

/// Whether no two sides of these strings are equal, as far as the spokes at points of few strings tell.
pub(crate) fn lead_alone(stars: &Stars, strings: &[PlanString]) -> bool
    ensures { (m : Map) → AreStarsOf m stars.now → m.strings ≡ map (λ s. s.row) strings.now
        → OnTrue result (EachPair (λ a b. a ≢ b) (string_sides m)) }
{
    for string in strings {
        if !leads_alone(stars, string) {
            return false;
        }
    }
    true
}

// Whether no two of these sides are equal. Takes a sort where it isn't known before.
fn are_apart(alloc: Global, sides: &[PlanSide], is_known: bool) -> Result<bool, Memory>
    requires { OnTrue is_known (EachPair (λ a b. a ≢ b) (map plan_side_of sides.now)) }
    ensures { IfOk result
        (λ apart. OnTrue apart (EachPair (λ a b. a ≢ b) (map plan_side_of sides.now))) }
{
    if is_known {
        return Ok(true);
    }
    let keys = keys_of(alloc, sides, false)?;
    Ok(first_repeated(alloc, keys.as_slice())?.is_none())
}

// Whether no two of these sides go on to the same one, told by a mark at each that one goes on to.
fn go_on_apart(alloc: Global, sides: &[PlanSide]) -> Result<bool, Memory>
    requires { AllByRecursion (λ s. s.next < length sides.now) sides.now }
    ensures { IfOk result (λ apart. OnTrue apart (AreDistinct (map (λ s. s.next) sides.now))) }
{
    let mut is_reached = Vec::from_elem(alloc, false, sides.len())?;
    for i in 0..sides.len() {
        let next = sides[i].next;
        if is_reached[next] {
            return Ok(false);
        }
        is_reached[next] = true;
    }
    Ok(true)
}

/// Whether none of these sides stands among earlier ones, or leads to the end of an earlier one and has its follower.
/// They are all sides of a plan: two that have a follower in common go on to one side. Takes a sort where it isn't
/// known that no two are equal.
pub(crate) fn are_met_once(
    alloc: Global,
    sides: &[PlanSide],
    is_known: bool,
) -> Result<bool, Memory>
    requires apart { OnTrue is_known (EachPair (λ a b. a ≢ b) (map plan_side_of sides.now)) }
    requires linked { AreLinked sides.now }
    ensures { IfOk result (λ once. OnTrue once (NoneMet sides.now (length sides.now))) }
{
    if are_apart(alloc, sides, is_known)? {
        go_on_apart(alloc, sides)
    } else {
        Ok(false)
    }
}
