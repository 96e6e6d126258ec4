//! A path of two strings put in the place of one, and one in the place of two.
ghost use Rattle.std.specs.Prelude.{◌≡◌, ◌∷◌, []};
ghost use Rattle.half_table.specs.Half.{twin};
ghost use Rattle.half_table.specs.Rows.{next, strings};
ghost use Rattle.half_table.specs.Count.{ticked};
ghost use Rattle.half_paths.specs.Loose.{AreLoose};
ghost use Rattle.map_parts.specs.FaceTicks.{ticks_to_pass};
ghost use Rattle.map_parts.specs.Handing.{KeepsEnds};
ghost use Rattle.map_parts.specs.Passing.{FitTable, CanGoThrough, CanGoPast};

use crate::edits::kept_places::replace_kept;
use half_paths::reroute;
use half_table::{Half, HalfTable, Tally};
use key_lists::KeyLists;

/// A point between two others: the halves of the path through it, and the half past it, from the
/// one end of the path to the other.
#[derive(Clone, Copy)]
pub(crate) struct Passing {
    pub(crate) first: Half,
    pub(crate) second: Half,
    pub(crate) whole: Half,
}

/// Puts the path through a point in the place of the string past it, which is loose then. The
/// rings along the path keep their faces. It takes no memory; one tick for each half of the two
/// rings, and five more.
pub(crate) fn go_through<T: Tally>(
    table: &mut HalfTable<T>,
    kept: &mut KeyLists<Half>,
    passing: &Passing,
)
    requires { CanGoThrough passing.now table.old.rows kept.old }
    ensures fits { (can : CanGoThrough passing.now table.old.rows kept.old)
        → FitTable can.through table.new.rows kept.new }
    ensures loose { AreLoose (next table.new.rows) (passing.now.whole ∷ []) }
    ensures halves { KeepsEnds table.old.rows table.new.rows }
    ensures strings { strings table.new.rows ≡ strings table.old.rows }
    ensures work { table.new.work
        ≡ ticked (ticks_to_pass table.new.rows passing.now.first (twin passing.now.second))
        table.old.work }
{
    let first = &passing.first;
    let second = &passing.second;
    let whole = &passing.whole;
    let back = &table.twin(*whole);
    let second_back = &table.twin(*second);
    let left = &table.face(*whole);
    let right = &table.face(*back);
    reroute(table, *whole, &[], *first, &[*second]);
    table.relabel(*first, *left);
    table.relabel(*second_back, *right);
    replace_kept(kept, left, whole, first);
    replace_kept(kept, right, back, second_back);
}

/// Puts the string past a point in the place of the path through it, whose strings are loose then.
/// The rings along the string keep their faces. It takes no memory; one tick for each half of the
/// two rings, and five more.
pub(crate) fn go_past<T: Tally>(
    table: &mut HalfTable<T>,
    kept: &mut KeyLists<Half>,
    passing: &Passing,
)
    requires { CanGoPast passing.now table.old.rows kept.old }
    ensures fits { (can : CanGoPast passing.now table.old.rows kept.old)
        → FitTable can.past table.new.rows kept.new }
    ensures loose { AreLoose (next table.new.rows) (passing.now.first ∷ passing.now.second ∷ []) }
    ensures halves { KeepsEnds table.old.rows table.new.rows }
    ensures strings { strings table.new.rows ≡ strings table.old.rows }
    ensures work { table.new.work
        ≡ ticked (ticks_to_pass table.new.rows passing.now.whole (twin passing.now.whole))
        table.old.work }
{
    let first = &passing.first;
    let second = &passing.second;
    let whole = &passing.whole;
    let first_back = &table.twin(*first);
    let second_back = &table.twin(*second);
    let back = &table.twin(*whole);
    let left = &table.face(*first);
    let right = &table.face(*second_back);
    reroute(table, *first, &[*second], *whole, &[]);
    table.relabel(*whole, *left);
    table.relabel(*back, *right);
    replace_kept(kept, left, first, whole);
    replace_kept(kept, left, second, whole);
    replace_kept(kept, right, second_back, back);
    replace_kept(kept, right, first_back, back);
}
