//! Strings of one point that are known to meet there alone.
ghost use Rattle.std.specs.Prelude.{◌≡◌, ◌<◌, ◌^◌, ℕ, length, slice_index_or, IfOk, OnOk};
ghost use Rattle.cad_map.specs.Map.{Map};
ghost use Rattle.cad_map.specs.Stars.{star, spokes_of};
ghost use Rattle.cad_valid.specs.Hubs.{alone as alone_at, AreGroupsOf, AreRegrouped};

use cad_map::{MapView, PlainMap, Spoke, Stars, position, sort_in_turn};
use cad_rows::{Memory, PointNo};
use std::alloc::Global;

/// A point of so many strings may be a hub.
pub const HUB: usize = 200;

// Points whose numbers leave the same remainder by this are counted together.
const REMAINDERS: usize = 65_536;

// Counts an end of a string.
fn count_end(counts: &mut [usize], point: PointNo) {
    if let Some(count) = counts.get_mut(point.get() as usize % REMAINDERS) {
        *count = count.saturating_add(1);
    }
}

// For each remainder nothing counted yet.
fn no_counts(alloc: Global) -> Result<Vec<usize>, Memory> {
    let mut counts: Vec<usize> = Vec::with_capacity(alloc, REMAINDERS)?;
    for _ in 0..REMAINDERS {
        counts.push(0)?;
    }
    Ok(counts)
}

// How many ends of strings lie at the points of each remainder. Takes two steps for each string.
fn count_ends(alloc: Global, map: &PlainMap) -> Result<Vec<usize>, Memory> {
    let mut counts = no_counts(alloc)?;
    for place in 0..map.counts().strings {
        let string = map.string_at(place).unwrap();
        count_end(counts.as_mut_slice(), string.from);
        count_end(counts.as_mut_slice(), string.to);
    }
    Ok(counts)
}

/// Whether some point may be a hub. Takes a step or two for each string.
pub(crate) fn may_have_hub(alloc: Global, map: &PlainMap) -> Result<bool, Memory> {
    let counts = count_ends(alloc, map)?;
    Ok(counts.iter().any(|count| *count >= HUB))
}

// Marks the remainders of points that may be hubs.
fn hub_marks(alloc: Global, map: &PlainMap) -> Result<Vec<bool>, Memory> {
    let counts = count_ends(alloc, map)?;
    let mut marks = Vec::with_capacity(alloc, counts.len())?;
    for count in &counts {
        marks.push(*count >= HUB)?;
    }
    Ok(marks)
}

// The number of the group that only the row at a place is of. It is no point's.
fn alone(place: usize) -> u64
    requires { place < 2 ^ 63 }
    ensures { result ≡ alone_at place }
{
    (1 << 32) + place as u64
}

/// So many rows, each of a group of its own.
pub fn each_alone(alloc: Global, count: usize) -> Result<Vec<u64>, Memory>
    requires { count < 2 ^ 63 }
    ensures count { IfOk result (λ groups. length groups.items ≡ count) }
    ensures alone { IfOk result (λ groups.
        (i : ℕ) → i < count → slice_index_or groups.items i 0 ≡ alone_at i) }
    ensures groups { IfOk result (λ groups. (m : Map) → AreGroupsOf m groups.items) }
{
    let mut groups = Vec::with_capacity(alloc, count)?;
    for place in 0..count {
        groups.push(alone(place))?;
    }
    Ok(groups)
}

// Puts the strings of a point into one group.
fn put_hub(point: PointNo, spokes: &[Spoke], groups: &mut Vec<u64>)
    ensures count { length groups.new.items ≡ length groups.old.items }
    ensures each { AreRegrouped point spokes.now groups.old.items groups.new.items }
    ensures small { point < 2 ^ 32 }
{
    let group = u64::from(point.get());
    for spoke in spokes {
        if spoke.place < groups.len() {
            groups[spoke.place] = group;
        }
    }
}

// Puts the strings of a point into one group, where no two of them lead into one direction.
fn put_star(
    alloc: Global,
    map: &PlainMap,
    point: PointNo,
    ends: &[Spoke],
    groups: &mut Vec<u64>,
) -> Result<(), Memory>
    requires all { ends.now ≡ star point (spokes_of map.now) }
    requires groups { AreGroupsOf map.now groups.old.items }
    ensures count { OnOk result (length groups.new.items ≡ length groups.old.items) }
    ensures groups { OnOk result (AreGroupsOf map.now groups.new.items) }
{
    let mut order = Vec::from_slice(alloc, ends)?;
    if sort_in_turn(position(map, point), order.as_mut_slice()) {
        put_hub(point, ends, groups);
    }
    Ok(())
}

/// A group for each of so many rows, the strings of the map first: two rows of one group are strings that meet at one
/// point alone. It is the number of a point of many strings of which no two lead into one direction.
pub(crate) fn groups_of(alloc: Global, map: &PlainMap, count: usize) -> Result<Vec<u64>, Memory>
    requires { count < 2 ^ 63 }
    ensures count { IfOk result (λ groups. length groups.items ≡ count) }
    ensures groups { IfOk result (λ groups. AreGroupsOf map.now groups.items) }
{
    let marks = hub_marks(alloc, map)?;
    let stars = Stars::of_marked(alloc, map.hash(), map, marks.as_slice())?;
    let mut groups = each_alone(alloc, count)?;
    for place in 0..map.counts().points {
        let point = map.point_at(place).unwrap().number;
        let ends = stars.ends(point);
        if ends.len() >= HUB {
            put_star(alloc, map, point, ends, &mut groups)?;
        }
    }
    Ok(groups)
}
