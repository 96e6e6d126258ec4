//! Strings tied together to a path, and taken apart.
ghost use Rattle.std.specs.Prelude.{◌≡◌, ◌∷◌, true, length};
ghost use Rattle.half_table.specs.declared.half.Half.{Half as HalfEdge};
ghost use Rattle.half_table.specs.Half.{twin};
ghost use Rattle.half_table.specs.Rows.{has, next, IsLinked};
ghost use Rattle.half_table.specs.Surgery.{KeepsHalves, IsSpliced};
ghost use Rattle.half_table.specs.Count.{ticked};
ghost use Rattle.half_paths.specs.Redirect.{redirect};
ghost use Rattle.half_paths.specs.Path.{AreIn, AreDifferent, last_of};
ghost use Rattle.half_paths.specs.Strung.{strung, unstrung, IsStrung, IsUnstrung, along};

use half_table::{Half, HalfTable, Tally};

/// Ties the strings of a path together: each half of it is followed by the next one, and on the way
/// back each by the one before. What follows the path's two ends stays. One tick for each string
/// but the first.
///
/// Condition: at each point within the path each of its strings leads back to itself.
pub fn string_up<T: Tally>(table: &mut HalfTable<T>, first: Half, rest: &[Half])
    requires linked { IsLinked table.old.rows }
    requires within { AreIn table.old.rows (first ∷ rest.now) }
    requires different { AreDifferent (first ∷ rest.now) }
    requires unstrung { IsUnstrung (next table.old.rows) first rest.now }
    ensures next { (g : HalfEdge) → next table.new.rows g
        ≡ redirect (strung first rest.now) (next table.old.rows) g }
    ensures first_end { next table.new.rows (twin first) ≡ next table.old.rows (twin first) }
    ensures last_end { next table.new.rows (last_of first rest.now)
        ≡ next table.old.rows (last_of first rest.now) }

    // A path that was taken apart is what it was before.
    ensures back { (before : HalfEdge → HalfEdge) → IsStrung before first rest.now
        → ((g : HalfEdge) → next table.old.rows g ≡ redirect (unstrung first rest.now) before g)
        → (g : HalfEdge) → next table.new.rows g ≡ before g }

    ensures halves { KeepsHalves table.old.rows table.new.rows }
    ensures linked { IsLinked table.new.rows }
    ensures work { table.new.work ≡ ticked (length rest.now) table.old.work }
{
    splice_along(table, first, rest);
}

/// Takes the strings of a path apart: at each point within it each string leads back to itself.
/// What follows the path's two ends stays. One tick for each string but the first.
///
/// Condition: the strings lead on to one another, there and back.
pub fn loosen<T: Tally>(table: &mut HalfTable<T>, first: Half, rest: &[Half])
    requires linked { IsLinked table.old.rows }
    requires within { AreIn table.old.rows (first ∷ rest.now) }
    requires different { AreDifferent (first ∷ rest.now) }
    requires strung { IsStrung (next table.old.rows) first rest.now }
    ensures next { (g : HalfEdge) → next table.new.rows g
        ≡ redirect (unstrung first rest.now) (next table.old.rows) g }
    ensures first_end { next table.new.rows (twin first) ≡ next table.old.rows (twin first) }
    ensures last_end { next table.new.rows (last_of first rest.now)
        ≡ next table.old.rows (last_of first rest.now) }

    // Strings that were tied together are what they were before.
    ensures back { (before : HalfEdge → HalfEdge) → IsUnstrung before first rest.now
        → ((g : HalfEdge) → next table.old.rows g ≡ redirect (strung first rest.now) before g)
        → (g : HalfEdge) → next table.new.rows g ≡ before g }

    ensures halves { KeepsHalves table.old.rows table.new.rows }
    ensures linked { IsLinked table.new.rows }
    ensures work { table.new.work ≡ ticked (length rest.now) table.old.work }
{
    splice_along(table, first, rest);
}

/// A splice at each point within a path: of the half that comes to it, and of the next string's
/// half that comes to it on the way back. It ties loose strings together and parts tied ones.
fn splice_along<T: Tally>(table: &mut HalfTable<T>, first: Half, rest: &[Half])
    requires linked { IsLinked table.old.rows }
    requires within { AreIn table.old.rows (first ∷ rest.now) }
    ensures next { next table.new.rows ≡ along first rest.now (next table.old.rows) }
    ensures halves { KeepsHalves table.old.rows table.new.rows }
    ensures linked { IsLinked table.new.rows }
    ensures work { table.new.work ≡ ticked (length rest.now) table.old.work }
{
    let mut last = first;
    for h in rest {
        splice_between(table, last, *h);
        last = *h;
    }
}

/// A splice at the point that one half comes to and another leaves: of the one, and of the other's
/// twin. It ties two free ends together and parts tied ones.
pub(crate) fn splice_between<T: Tally>(table: &mut HalfTable<T>, coming: Half, leaving: Half)
    requires coming_in { has table.old.rows coming ≡ true }
    requires leaving_in { has table.old.rows leaving ≡ true }
    ensures spliced { IsSpliced coming (twin leaving) table.old.rows table.new.rows }
    ensures linked { IsLinked table.new.rows }
    ensures work { table.new.work ≡ ticked 1 table.old.work }
{
    let back = table.twin(leaving);
    table.splice(coming, back);
}
