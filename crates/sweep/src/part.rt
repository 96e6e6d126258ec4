//! Boxes of groups, parted into halves.
ghost use Rattle.std.specs.Prelude.{◌≡◌, ◌<◌, nat_lt, nat_le, length, filter, IfOk, IfSome};
ghost use Rattle.sweep.specs.Parts.{begin_of, end_of, AreHalves};

use crate::extent::Extent;
use std::alloc::{AllocError, Global};

/// A box, the group that it belongs to, and its place among all.
#[derive(Clone, Copy)]
pub(crate) struct Part {
    pub(crate) extent: Extent,
    pub(crate) group: u64,
    pub(crate) place: usize,
}

/// The two halves of some boxes.
#[derive(Drop)]
pub(crate) struct Halves {
    pub(crate) lower: Vec<Part>,
    pub(crate) upper: Vec<Part>,
}

// About so many boxes are looked at for where to part all.
const SAMPLE: usize = 15;

// So few comparisons of each box, in the mean, aren't worth parting for.
const FEW: u64 = 16;

// Where a box begins, upwards or across.
fn begin(part: &Part, upwards: bool) -> u64
    ensures { result ≡ begin_of upwards part.now }
{
    if upwards {
        part.extent.bottom
    } else {
        part.extent.left
    }
}

// Where it ends, which is never before it begins.
fn end(part: &Part, upwards: bool) -> u64
    ensures { result ≡ end_of upwards part.now }
{
    if upwards {
        part.extent.bottom.max(part.extent.top)
    } else {
        part.extent.left.max(part.extent.right)
    }
}

// Whether the box at a place is the first of its group, where each group's stand together.
fn is_first(parts: &[Part], place: usize) -> bool
    requires { place < length parts.now }
{
    place == 0 || parts[place - 1].group != parts[place].group
}

// How many groups these boxes are of, where each group's stand together.
fn groups_in(parts: &[Part]) -> usize {
    let mut groups: usize = 0;
    for place in 0..parts.len() {
        if is_first(parts, place) {
            groups = groups.wrapping_add(1);
        }
    }
    groups
}

// The middles of the boxes of a few groups, one of each, that stand evenly among all.
fn some_middles(alloc: Global, parts: &[Part], upwards: bool) -> Result<Vec<u64>, AllocError> {
    let mut middles = Vec::with_capacity(alloc, SAMPLE)?;
    let step = groups_in(parts) / SAMPLE;
    let mut waiting = step / 2;
    for place in 0..parts.len() {
        if is_first(parts, place) {
            if waiting == 0 {
                middles.push(begin(&parts[place], upwards) / 2 + end(&parts[place], upwards) / 2)?;
                waiting = step;
            } else {
                waiting -= 1;
            }
        }
    }
    Ok(middles)
}

// A number that about half of the groups have their boxes below.
fn middle_of(alloc: Global, parts: &[Part], upwards: bool) -> Result<u64, AllocError> {
    let mut middles = some_middles(alloc, parts, upwards)?;
    middles.sort_unstable();
    Ok(middles.get(middles.len() / 2).copied().unwrap_or(0))
}

// Those of these boxes that begin below a number.
fn below(alloc: Global, parts: &[Part], upwards: bool, middle: u64) -> Result<Vec<Part>, AllocError>
    ensures { IfOk result (λ some. some.items
        ≡ filter (λ p. nat_lt (begin_of upwards p) middle) parts.now) }
{
    let mut some = Vec::with_capacity(alloc, parts.len())?;
    for part in parts {
        if begin(part, upwards) < middle {
            some.push(*part)?;
        }
    }
    Ok(some)
}

// Those of these boxes that reach a number, or lie above it.
fn reaching(
    alloc: Global,
    parts: &[Part],
    upwards: bool,
    middle: u64,
) -> Result<Vec<Part>, AllocError>
    ensures { IfOk result (λ some. some.items
        ≡ filter (λ p. nat_le middle (end_of upwards p)) parts.now) }
{
    let mut some = Vec::with_capacity(alloc, parts.len())?;
    for part in parts {
        if middle <= end(part, upwards) {
            some.push(*part)?;
        }
    }
    Ok(some)
}

// How many pairs of these boxes are of two groups, where each group's stand together. It is for speed alone, and wraps.
fn pairs_of(parts: &[Part]) -> u64 {
    let mut pairs: u64 = 0;
    let mut first = 0;
    let mut group = 0;
    for place in 0..parts.len() {
        if parts[place].group != group {
            first = place;
            group = parts[place].group;
        }
        pairs = pairs.wrapping_add(first as u64);
    }
    pairs
}

// Boxes parted by a number, upwards or across, where that leaves an eighth fewer than so many pairs to compare.
fn halves_along(
    alloc: Global,
    parts: &[Part],
    upwards: bool,
    pairs: u64,
) -> Result<Option<Halves>, AllocError>
    ensures { IfOk result (λ halves. IfSome halves (AreHalves parts.now)) }
{
    let middle = middle_of(alloc, parts, upwards)?;
    let halves = Halves {
        lower: below(alloc, parts, upwards, middle)?,
        upper: reaching(alloc, parts, upwards, middle)?,
    };
    let left = pairs_of(halves.lower.as_slice()).wrapping_add(pairs_of(halves.upper.as_slice()));
    if left < pairs - pairs / 8 {
        Ok(Some(halves))
    } else {
        Ok(None)
    }
}

/// Boxes parted by a number into those that begin below it and those that reach it, upwards or across, first as is said:
/// two that overlap stand in one of the halves together. `None` where few are left to compare with each box, or both ways
/// leave as many.
pub(crate) fn halves_of(
    alloc: Global,
    parts: &[Part],
    upwards: bool,
) -> Result<Option<Halves>, AllocError>
    ensures { IfOk result (λ halves. IfSome halves (AreHalves parts.now)) }
{
    let pairs = pairs_of(parts);
    if pairs / FEW <= parts.len() as u64 {
        return Ok(None);
    }
    if let Some(halves) = halves_along(alloc, parts, upwards, pairs)? {
        return Ok(Some(halves));
    }
    halves_along(alloc, parts, !upwards, pairs)
}
