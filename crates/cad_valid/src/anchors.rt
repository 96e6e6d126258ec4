//! Positions in the order of their heights, at which the sides of an outline are counted: each side
//! at those alone whose height it spans.
ghost use Rattle.std.specs.Prelude.{◌≡◌, ◌≤◌, ◌<◌, ◌+ℤ◌, pos, [], length, map, IfOk};
ghost use Rattle.std.specs.List.{list_all, enumerate_from};
ghost use Rattle.std.specs.List.Sorted.{IsPermutation, IsNonDecreasingBy, IsPartitionPoint};
ghost use Rattle.geo_exact.specs.Inside.{is_inside};
ghost use Rattle.geo_exact.specs.Position.{coordinate_limit};
ghost use Rattle.cad_valid.specs.Boxes.{from_least};
ghost use Rattle.cad_valid.specs.Anchors.{height_of, counted_at, with_one_more};

use crate::boxes::counted;
use crate::shapes::{Enclosing, PlacedRing};
use cad_rows::Memory;
use geo_exact::{Pt, crosses};
use std::alloc::Global;

/// A position, the place that it has among those asked of, and whether an odd number of the sides so
/// far is counted there.
#[derive(Clone, Copy)]
pub(crate) struct Anchor {
    at: Pt,
    place: usize,
    inside: bool,
}

// How high a position lies, in millimetres from the least coordinate that there can be.
fn height_at(at: Pt) -> u64
    ensures value { result ≡ from_least at.y }
    ensures moved { pos result ≡ at.y +ℤ coordinate_limit }
{
    counted(at.y)
}

// How high an anchor lies.
fn height(anchor: &Anchor) -> u64
    ensures { result ≡ height_of anchor.now }
{
    height_at(anchor.at)
}

// The anchors at these positions, with no side counted.
fn anchors_of(alloc: Global, positions: &[Pt]) -> Result<Vec<Anchor>, Memory>
    ensures { IfOk result (λ anchors. anchors.items ≡ map (counted_at []) (enumerate_from 0 positions.now)) }
{
    let mut anchors = Vec::with_capacity(alloc, positions.len())?;
    for place in 0..positions.len() {
        anchors.push(Anchor {
            at: positions[place],
            place,
            inside: false,
        })?;
    }
    Ok(anchors)
}

// Puts anchors into the order of their heights, the lowest first.
fn sort_up(anchors: &mut [Anchor])
    ensures same { IsPermutation anchors.old anchors.new }
    ensures rise { IsNonDecreasingBy height_of anchors.new }
{
    anchors.sort_unstable_by_key(|anchor| height(anchor));
}

// Puts anchors back into the order of their places.
fn sort_back(anchors: &mut [Anchor])
    ensures same { IsPermutation anchors.old anchors.new }
    ensures rise { IsNonDecreasingBy (λ a. a.place) anchors.new }
{
    anchors.sort_unstable_by_key(|anchor| anchor.place);
}

// How many of these anchors lie lower than a height, by halving.
fn count_below(anchors: &[Anchor], bound: u64) -> usize
    requires { IsNonDecreasingBy height_of anchors.now }
    ensures within { result ≤ length anchors.now }
    ensures below { IsPartitionPoint
        (λ a. height_of a < bound) (λ a. bound ≤ height_of a) anchors.now result }
{
    anchors.partition_point(|anchor| height(anchor) < bound)
}

// The anchor with one more side counted.
fn with_side(anchor: &Anchor, a: Pt, b: Pt) -> Anchor
    ensures { result ≡ with_one_more (a, b) anchor.now }
{
    Anchor {
        at: anchor.at,
        place: anchor.place,
        inside: anchor.inside != crosses(a, b, anchor.at),
    }
}

// Counts a side at each of these anchors. It is asked at those alone whose height it spans.
fn count_side(anchors: &mut [Anchor], a: Pt, b: Pt)
    requires { IsNonDecreasingBy height_of anchors.old }
    ensures { anchors.new ≡ map (with_one_more (a, b)) anchors.old }
{
    let (ay, by) = (height_at(a), height_at(b));
    let first = count_below(anchors, ay.min(by));
    let end = count_below(anchors, ay.max(by));
    for place in first..end {
        anchors[place] = with_side(&anchors[place], a, b);
    }
}

// Which of these anchors have been found inside.
fn flags_of(alloc: Global, anchors: &[Anchor]) -> Result<Vec<bool>, Memory>
    ensures { IfOk result (λ flags. flags.items ≡ map (λ a. a.inside) anchors.now) }
{
    let mut flags = Vec::with_capacity(alloc, anchors.len())?;
    for anchor in anchors {
        flags.push(anchor.inside)?;
    }
    Ok(flags)
}

/// Whether each of these positions is inside a closed list of sides: an odd number of them is counted
/// there. Takes memory for the positions, and time for their sort and for each side with the positions
/// whose height it spans.
///
/// # Errors
/// Memory ran out.
pub fn insides_of(alloc: Global, positions: &[Pt], sides: &[(Pt, Pt)]) -> Result<Vec<bool>, Memory>
    ensures { IfOk result (λ each. each.items ≡ map (is_inside sides.now) positions.now) }
{
    let mut held = anchors_of(alloc, positions)?;
    let anchors = held.as_mut_slice();
    sort_up(anchors);
    for (a, b) in sides {
        count_side(anchors, *a, *b);
    }
    sort_back(anchors);
    flags_of(alloc, anchors)
}

// Where the anchors of these holes are.
fn positions_of(alloc: Global, holes: &[PlacedRing]) -> Result<Vec<Pt>, Memory>
    ensures { IfOk result (λ positions. positions.items ≡ map (λ hole. hole.anchor) holes.now) }
{
    let mut positions = Vec::with_capacity(alloc, holes.len())?;
    for hole in holes {
        positions.push(hole.anchor())?;
    }
    Ok(positions)
}

// Whether all of these flags are true.
fn are_all(flags: &[bool]) -> bool
    ensures { result ≡ list_all (λ flag. flag) flags.now }
{
    flags.iter().all(|flag| *flag)
}

/// Whether the anchor of each of these holes is inside an outline. Takes memory for the anchors, and
/// time for their sort and for each side with the anchors whose height it spans.
pub(crate) fn are_each_inside(
    alloc: Global,
    holes: &[PlacedRing],
    outline: &PlacedRing,
) -> Result<bool, Memory>
    ensures { IfOk result (λ b. b ≡ list_all (λ hole. is_inside outline.now.sides hole.anchor) holes.now) }
{
    let positions = positions_of(alloc, holes)?;
    let insides = insides_of(alloc, positions.as_slice(), outline.sides())?;
    Ok(are_all(insides.as_slice()))
}
