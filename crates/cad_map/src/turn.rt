//! The strings at a point in the order in which a turn about it meets them.
ghost use Rattle.std.specs.Bool.{OnTrue};
ghost use Rattle.std.specs.List.Sorted.{IsPermutation};
ghost use Rattle.cad_map.specs.Turn.{AreMetInTurn};

use crate::stars::Spoke;
use geo_exact::{Pt, is_met_first};
use std::cmp::Ordering;

// Which of two spokes a turn counterclockwise about a position, begun in the east, meets first.
fn turn_order(centre: Pt, a: &Spoke, b: &Spoke) -> Ordering {
    if is_met_first(centre, a.position, b.position) {
        Ordering::Less
    } else if is_met_first(centre, b.position, a.position) {
        Ordering::Greater
    } else {
        Ordering::Equal
    }
}

// Whether none of these spokes leads to the position itself, and a turn about it meets each before the next one.
fn are_met_in_turn(centre: Pt, spokes: &[Spoke]) -> bool
    ensures { OnTrue result (AreMetInTurn centre spokes.now) }
{
    for i in 0..spokes.len() {
        let here = spokes[i].position;
        if here == centre {
            return false;
        }
        if i > 0 && !is_met_first(centre, spokes[i - 1].position, here) {
            return false;
        }
    }
    true
}

/// Puts the spokes of a point at this position into the order in which a turn counterclockwise about it, begun in the
/// east, meets them. Tells whether it meets one after another: `false` where two of them may lead into one direction, or
/// one to the position itself. Takes no memory, and n log n steps for n spokes.
pub fn sort_in_turn(centre: Pt, spokes: &mut [Spoke]) -> bool
    ensures same { IsPermutation spokes.old spokes.new }
    ensures turn { OnTrue result (AreMetInTurn centre spokes.new) }
{
    spokes.sort_unstable_by(|a, b| turn_order(centre, a, b));
    are_met_in_turn(centre, spokes)
}
