//! Boxes in the plane, and whether each two of two groups that overlap pass a test.
ghost use Rattle.std.specs.Prelude.{◌≡◌, ◌≢◌, ℕ, ◌<◌, ◌≤◌, length, slice_index_or, IfOk};
ghost use Rattle.std.specs.Bool.{OnTrue, OnFalse};
ghost use Rattle.std.specs.List.Sorted.{IsPermutation};
ghost use Rattle.sweep.specs.Extents.{SomePairFails};
ghost use Rattle.sweep.specs.Parts.{overlap, PassBetween, AllBetweenPass, HasFailedPart, HasFailedBeside};
ghost use Rattle.sweep.specs.Parts.{AreAlike, ArePartsOf, HavePartsBelow, AllOfTwoGroupsPass};

use crate::extent::Extent;
use crate::part::{Part, halves_of};
use crate::scan::PairTest;
use std::alloc::{AllocError, Global};

// Boxes are parted at most so many times one after another, which is enough to tell 2^35 places upwards and across.
const MOST_LEVELS: u32 = 80;

// Whether two boxes have a location in common.
fn do_overlap(a: Extent, b: Extent) -> bool
    ensures { result ≡ overlap a b }
{
    a.left <= b.right && b.left <= a.right && a.bottom <= b.top && b.bottom <= a.top
}

// The place behind those that stand one after another from this one on and are of its group.
fn end_of_group(parts: &[Part], place: usize) -> usize
    requires { place < length parts.now }
    ensures within { (place < result) × (result ≤ length parts.now) }
    ensures alike { AreAlike parts.now place result }
{
    let group = parts[place].group;
    for end in place + 1..parts.len() {
        if parts[end].group != group {
            return end;
        }
    }
    parts.len()
}

// Whether a box passes with each from a place on that it overlaps.
fn passes_later<T: PairTest>(test: &T, parts: &[Part], first: Part, from: usize) -> bool
    ensures passed { OnTrue result ((k : ℕ) (d : Part) → from ≤ k → k < length parts.now
        → PassBetween (T.passes test.now) first (slice_index_or parts.now k d)) }
    ensures failed { OnFalse result (HasFailedBeside (T.passes test.now) parts.now first) }
{
    for place in from..parts.len() {
        let other = parts[place];
        if first.place != other.place
            && do_overlap(first.extent, other.extent)
            && !test.pass(first.place, other.place)
        {
            return false;
        }
    }
    true
}

// Whether each two of these boxes that overlap pass, but for those of one group that stand one after another.
fn passes_each<T: PairTest>(test: &T, parts: &[Part]) -> bool
    ensures passed { OnTrue result (AllBetweenPass (T.passes test.now) parts.now) }
    ensures failed { OnFalse result (HasFailedPart (T.passes test.now) parts.now) }
{
    let mut end = 0;
    for place in 0..parts.len() {
        if end <= place {
            end = end_of_group(parts, place);
        }
        if !passes_later(test, parts, parts[place], end) {
            return false;
        }
    }
    true
}

// Whether each two of these boxes of two groups that overlap pass. They are parted at most so many times.
fn passes_within<T: PairTest>(
    alloc: Global,
    test: &T,
    parts: Vec<Part>,
    levels: u32,
) -> Result<bool, AllocError>
    ensures passed { IfOk result (λ b. OnTrue b (AllBetweenPass (T.passes test.now) parts.items)) }
    ensures failed { IfOk result (λ b. OnFalse b (HasFailedPart (T.passes test.now) parts.items)) }
{
    if levels == 0 {
        return Ok(passes_each(test, parts.as_slice()));
    }
    let Some(halves) = halves_of(alloc, parts.as_slice(), levels % 2 == 0)? else {
        return Ok(passes_each(test, parts.as_slice()));
    };
    drop(parts);
    if !passes_within(alloc, test, halves.lower, levels - 1)? {
        return Ok(false);
    }
    passes_within(alloc, test, halves.upper, levels - 1)
}

// Each of these boxes with its group and its place.
fn parts_of(alloc: Global, extents: &[Extent], groups: &[u64]) -> Result<Vec<Part>, AllocError>
    requires { length groups.now ≡ length extents.now }
    ensures each { IfOk result (λ parts. ArePartsOf extents.now groups.now parts.items) }
    ensures below { IfOk result (λ parts. HavePartsBelow parts.items (length extents.now)) }
{
    let mut parts = Vec::with_capacity(alloc, extents.len())?;
    for place in 0..extents.len() {
        parts.push(Part {
            extent: extents[place],
            group: groups[place],
            place,
        })?;
    }
    Ok(parts)
}

// These boxes, those of a group one after another.
fn by_groups(parts: Vec<Part>) -> Vec<Part>
    ensures { IsPermutation parts.items result.items }
{
    let mut parts = parts;
    parts.sort_unstable_by_key(|p| p.group);
    parts
}

/// Whether each two of these boxes that overlap and are of two groups pass the test, in one of the two orders. Where it
/// answers `false`, two different places fail. These needn't overlap: the test is to pass what lies apart.
///
/// Boxes are parted by a number across or upwards into those that begin below it and those that reach it, and these
/// again, in turn across and upwards, as long as that leaves less to compare. Two that overlap stay together in one part.
/// What is left is compared two by two, but for boxes of one group: so many that all overlap cost nothing where they are
/// of one group. Where they aren't, each two of them are compared.
///
/// Memory is some boxes' of 48 bytes each, for all and for the parts that wait. The boxes and groups themselves end before
/// they are parted.
///
/// # Errors
/// Memory ran out.
pub fn all_of_two_groups_pass<T: PairTest>(
    alloc: Global,
    test: &T,
    extents: Vec<Extent>,
    groups: Vec<u64>,
) -> Result<bool, AllocError>
    requires { length groups.items ≡ length extents.items }
    ensures passed { IfOk result (λ b. OnTrue b
        (AllOfTwoGroupsPass (T.passes test.now) extents.items groups.items)) }
    ensures failed { IfOk result (λ b. OnFalse b
        (SomePairFails (T.passes test.now) (length extents.items))) }
{
    let parts = parts_of(alloc, extents.as_slice(), groups.as_slice())?;
    drop(extents);
    drop(groups);
    passes_within(alloc, test, by_groups(parts), MOST_LEVELS)
}
