//! Loose strings tied together to a ring, and a ring taken apart.
ghost use Rattle.std.specs.Prelude.{◌≡◌, ◌∷◌, ◌+◌, length};
ghost use Rattle.half_table.specs.declared.half.Half.{Half as HalfEdge};
ghost use Rattle.half_table.specs.Rows.{next, IsLinked};
ghost use Rattle.half_table.specs.Surgery.{KeepsHalves};
ghost use Rattle.half_table.specs.Count.{ticked};
ghost use Rattle.half_paths.specs.Path.{AreIn, AreDifferent, AreElsewhere};
ghost use Rattle.half_paths.specs.Loose.{AreLoose};
ghost use Rattle.half_paths.specs.Round.{IsRound};

use crate::ends::{close_ring, open_ring};
use crate::path::{loosen, string_up};
use crate::rerouting::last_half;
use half_table::{Half, HalfTable, Tally};

/// Ties loose strings together to a ring: each half is followed by the next one and the last by the
/// first, and so on the way back. One tick for each string.
///
/// Condition: the strings are loose and differ.
pub fn tie_ring<T: Tally>(table: &mut HalfTable<T>, first: Half, rest: &[Half])
    requires linked { IsLinked table.old.rows }
    requires within { AreIn table.old.rows (first ∷ rest.now) }
    requires different { AreDifferent (first ∷ rest.now) }
    requires loose { AreLoose (next table.old.rows) (first ∷ rest.now) }
    ensures round { IsRound (next table.new.rows) first rest.now }
    ensures elsewhere { (g : HalfEdge) → AreElsewhere g (first ∷ rest.now)
        → next table.new.rows g ≡ next table.old.rows g }
    ensures halves { KeepsHalves table.old.rows table.new.rows }
    ensures linked { IsLinked table.new.rows }
    ensures work { table.new.work ≡ ticked (length rest.now + 1) table.old.work }
{
    let start = &first;
    let last = last_half(*start, rest);
    string_up(table, *start, rest);
    close_ring(table, *start, last);
}

/// Takes a ring apart: each of its strings is loose. One tick for each string.
///
/// Condition: the strings differ and are tied together to a ring.
pub fn untie_ring<T: Tally>(table: &mut HalfTable<T>, first: Half, rest: &[Half])
    requires linked { IsLinked table.old.rows }
    requires within { AreIn table.old.rows (first ∷ rest.now) }
    requires different { AreDifferent (first ∷ rest.now) }
    requires round { IsRound (next table.old.rows) first rest.now }
    ensures loose { AreLoose (next table.new.rows) (first ∷ rest.now) }
    ensures elsewhere { (g : HalfEdge) → AreElsewhere g (first ∷ rest.now)
        → next table.new.rows g ≡ next table.old.rows g }
    ensures halves { KeepsHalves table.old.rows table.new.rows }
    ensures linked { IsLinked table.new.rows }
    ensures work { table.new.work ≡ ticked (length rest.now + 1) table.old.work }
{
    let start = &first;
    let last = last_half(*start, rest);
    open_ring(table, *start, last);
    loosen(table, *start, rest);
}
