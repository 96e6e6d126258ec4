//! One path put in the place of another.
ghost use Rattle.std.specs.Prelude.{◌≡◌, ◌∷◌, ◌++◌, ◌+◌, length};
ghost use Rattle.half_table.specs.declared.half.Half.{Half as HalfEdge};
ghost use Rattle.half_table.specs.Half.{twin};
ghost use Rattle.half_table.specs.Rows.{next, prev, IsLinked};
ghost use Rattle.half_table.specs.Surgery.{KeepsHalves};
ghost use Rattle.half_table.specs.Count.{ticked};
ghost use Rattle.half_paths.specs.Redirect.{redirect};
ghost use Rattle.half_paths.specs.Path.{AreIn, AreDifferent, last_of};
ghost use Rattle.half_paths.specs.Rerouted.{rerouted, CanReroute};

use crate::ends::{cut_path, put_path};
use crate::path::{loosen, string_up};
use half_table::{Half, HalfTable, Tally};

/// Puts a path of loose strings in the place of another, whose strings are loose then. What came
/// before and after the old path, there and back, comes before and after the new one. The new one
/// is tied together and put in beside the old one, which is cut out and taken apart: one tick for
/// each string of both, and two more.
///
/// A string is split by a path of two in its place, and two are joined by one in theirs.
///
/// Condition: the strings of both paths differ, the old one is tied together, and what follows it
/// at either end is no end of it.
pub fn reroute<T: Tally>(
    table: &mut HalfTable<T>,
    old_first: Half,
    old_rest: &[Half],
    first: Half,
    rest: &[Half],
)
    requires linked { IsLinked table.old.rows }
    requires old_in { AreIn table.old.rows (old_first ∷ old_rest.now) }
    requires new_in { AreIn table.old.rows (first ∷ rest.now) }
    requires different { AreDifferent ((old_first ∷ old_rest.now) ++ first ∷ rest.now) }
    requires can { CanReroute old_first old_rest.now first rest.now (next table.old.rows) }
    ensures next { let before = prev table.old.rows old_first in
        let beyond = prev table.old.rows (twin (last_of old_first old_rest.now)) in
        (g : HalfEdge) → next table.new.rows g
        ≡ redirect (rerouted before beyond old_first old_rest.now first rest.now (next table.old.rows)) (next table.old.rows) g }

    // A path that was put in the place of the new one gives way to it: all is what it was before.
    ensures back { (was : HalfEdge → HalfEdge) (before beyond : HalfEdge)
        → CanReroute first rest.now old_first old_rest.now was
        → was before ≡ first → was beyond ≡ twin (last_of first rest.now)
        → ((g : HalfEdge) → next table.old.rows g
        ≡ redirect (rerouted before beyond first rest.now old_first old_rest.now was) was g)
        → (g : HalfEdge) → next table.new.rows g ≡ was g }

    ensures halves { KeepsHalves table.old.rows table.new.rows }
    ensures linked { IsLinked table.new.rows }
    ensures work { table.new.work ≡ ticked (length rest.now + (length old_rest.now + 4)) table.old.work }
{
    let old_start = &old_first;
    let start = &first;
    let old_last = last_half(*old_start, old_rest);
    let last = last_half(*start, rest);
    let old_end = &old_last;
    let before = table.prev(*old_start);
    string_up(table, *start, rest);
    loosen(table, *old_start, old_rest);
    put_path(table, before, *old_end, *start, last);
    cut_path(table, *old_start, *old_end);
}

/// The last half of a path.
pub fn last_half(first: Half, rest: &[Half]) -> Half
    ensures { result ≡ last_of first rest.now }
{
    let mut last = first;
    for h in rest {
        last = *h;
    }
    last
}
