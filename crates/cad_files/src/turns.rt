//! What follows the sides at a point of many strings, told by one sort of these.
ghost use Rattle.std.specs.Prelude.{◌≡◌, ◌<◌, ◌≤◌, length, IfOk, OnOk, IfSome};
ghost use Rattle.std.specs.List.Sorted.{IsPermutation};
ghost use Rattle.cad_map.specs.Map.{Map, position_of};
ghost use Rattle.cad_map.specs.Stars.{star, spokes_of};
ghost use Rattle.cad_map.specs.Turn.{AreMetInTurn};
ghost use Rattle.cad_files.specs.Arrival.{AreStarsOf};
ghost use Rattle.cad_files.specs.Turns.{AreTurnsOf, IsSoleSpoke, place_before as place_before_of};

use crate::repeats::key;
use cad_map::{MapView, PlainMap, Spoke, Stars, position, sort_in_turn};
use cad_rows::{Memory, PointNo};
use indexmap::IndexMap;
use number_hash::NumberHash;
use std::alloc::Global;

/// A side, and the spoke from its end to the point that follows it.
#[derive(Clone, Copy)]
pub(crate) struct Turn {
    from: PointNo,
    to: PointNo,
    next: Spoke,
}

/// What follows sides, each under the key of its side.
pub(crate) type Turns = IndexMap<u64, Turn, NumberHash>;

/// So many strings at a point are sorted. Fewer are looked at one by one for each side.
pub(crate) const MANY_STRINGS: usize = 12;

// The place before this one among so many in a circle.
fn place_before(place: usize, count: usize) -> usize
    requires { place < count }
    ensures { result ≡ place_before_of place count }
{
    if place == 0 { count - 1 } else { place - 1 }
}

// Puts what follows the sides to a point, whose spokes are met in turn.
fn put_each(
    plain: &PlainMap,
    point: PointNo,
    order: &[Spoke],
    turns: &mut Turns,
) -> Result<(), Memory>
    requires many { 2 ≤ length order.now }
    requires all { IsPermutation (star point (spokes_of plain.now)) order.now }
    requires turn { AreMetInTurn (position_of plain.now point) order.now }
    requires turns { AreTurnsOf plain.now turns.old.entries }
    ensures { OnOk result (AreTurnsOf plain.now turns.new.entries) }
{
    for i in 0..order.len() {
        let from = order[i].far;
        let next = order[place_before(i, order.len())];
        let turn = Turn {
            from,
            to: point,
            next,
        };
        turns.insert(key(from, point), turn)?;
    }
    Ok(())
}

// Puts what follows the sides to a point, where a turn about it meets its spokes one after another.
fn put_star(
    alloc: Global,
    plain: &PlainMap,
    point: PointNo,
    ends: &[Spoke],
    turns: &mut Turns,
) -> Result<(), Memory>
    requires many { 2 ≤ length ends.now }
    requires all { ends.now ≡ star point (spokes_of plain.now) }
    requires turns { AreTurnsOf plain.now turns.old.entries }
    ensures { OnOk result (AreTurnsOf plain.now turns.new.entries) }
{
    let mut order = Vec::from_slice(alloc, ends)?;
    if sort_in_turn(position(plain, point), order.as_mut_slice()) {
        put_each(plain, point, order.as_slice(), turns)?;
    }
    Ok(())
}

/// What follows the sides to each point of many strings, where no two of these lead into one direction. It takes n log n
/// steps for n strings of such points.
pub(crate) fn turns_of(alloc: Global, plain: &PlainMap, stars: &Stars) -> Result<Turns, Memory>
    requires { AreStarsOf plain.now stars.now }
    ensures { IfOk result (λ turns. AreTurnsOf plain.now turns.entries) }
{
    let mut turns = IndexMap::with_hasher(alloc, plain.hash());
    for place in 0..plain.counts().points {
        let point = plain.point_at(place).unwrap().number;
        let ends = stars.ends(point);
        if ends.len() >= MANY_STRINGS {
            put_star(alloc, plain, point, ends, &mut turns)?;
        }
    }
    Ok(turns)
}

/// The spoke to the one point that follows a side, where a sort told it.
pub(crate) fn turn_after(turns: &Turns, from: PointNo, to: PointNo) -> Option<Spoke>
    ensures { IfSome result
        (λ w. (m : Map) → AreTurnsOf m turns.now.entries → IsSoleSpoke m from to w) }
{
    if turns.is_empty() {
        return None;
    }
    let turn = turns.get(&key(from, to))?;
    if turn.from == from && turn.to == to {
        Some(turn.next)
    } else {
        None
    }
}
