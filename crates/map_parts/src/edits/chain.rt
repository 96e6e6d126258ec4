//! A chain of strings that parts a ring of a table in two, or joins two, and goes again.
ghost use Rattle.std.specs.Prelude.{◌≡◌, ◌≢◌, ◌∷◌, ◌+◌, length};
ghost use Rattle.half_table.specs.declared.half.Half.{Half as HalfOf};
ghost use Rattle.half_table.specs.Half.{twin};
ghost use Rattle.half_table.specs.Rows.{IsLinked, next};
ghost use Rattle.half_table.specs.Surgery.{KeepsHalves};
ghost use Rattle.half_table.specs.Count.{ticked};
ghost use Rattle.half_paths.specs.Path.{AreElsewhere, last_of};
ghost use Rattle.half_paths.specs.Strung.{IsStrung};
ghost use Rattle.half_paths.specs.Loose.{AreLoose};
ghost use Rattle.map_parts.specs.FaceChanges.{CanBringChain, CanTakeChain};
ghost use Rattle.map_parts.specs.FaceChanges.{IsLocalWithChain, IsLocalWithoutChain};

use half_paths::{cut_path, last_half, loosen, put_path, string_up};
use half_table::{Half, HalfTable, Tally};

/// Ties loose strings together and puts them in before two halves: what led to the first of them
/// leads into the path, which leads on to the second, and so on the way back. One tick for each
/// string, and one more.
pub(crate) fn bring_chain<T: Tally>(
    table: &mut HalfTable<T>,
    first: &Half,
    rest: &[Half],
    start: &Half,
    end: &Half,
)
    requires { CanBringChain (first.now ∷ rest.now) start.now end.now table.old.rows }
    ensures strung { IsStrung (next table.new.rows) first.now rest.now }
    ensures leaves { next table.new.rows (last_of first.now rest.now) ≡ end.now }
    ensures comes_back { next table.new.rows (twin first.now) ≡ start.now }
    ensures enters { (g : HalfOf) → next table.old.rows g ≡ start.now → next table.new.rows g ≡ first.now }
    ensures returns { (g : HalfOf) → next table.old.rows g ≡ end.now
        → next table.new.rows g ≡ twin (last_of first.now rest.now) }
    ensures others { (g : HalfOf) → AreElsewhere g (first.now ∷ rest.now)
        → next table.old.rows g ≢ start.now → next table.old.rows g ≢ end.now
        → next table.new.rows g ≡ next table.old.rows g }

    // A table that is local to a map is local to the map that has the chain more.
    ensures local { IsLocalWithChain (first.now ∷ rest.now) start.now end.now table.old.rows
        table.new.rows }

    ensures halves { KeepsHalves table.old.rows table.new.rows }
    ensures linked { IsLinked table.new.rows }
    ensures work { table.new.work ≡ ticked (length rest.now + 2) table.old.work }
{
    let last = last_half(*first, rest);
    let before = table.prev(*start);
    let beyond = table.prev(*end);
    string_up(table, *first, rest);
    put_path(table, before, beyond, *first, last);
}

/// Cuts a path out, wherever it is in, and takes its strings apart. What led into the path leads on
/// to what followed it on the way back, and likewise at the other end. One tick for each string, and
/// one more.
pub(crate) fn take_chain<T: Tally>(table: &mut HalfTable<T>, first: &Half, rest: &[Half])
    requires { CanTakeChain first.now rest.now table.old.rows }
    ensures loose { AreLoose (next table.new.rows) (first.now ∷ rest.now) }
    ensures enters { (g : HalfOf) → AreElsewhere g (first.now ∷ rest.now) → next table.old.rows g ≡ first.now
        → next table.new.rows g ≡ next table.old.rows (twin first.now) }
    ensures returns { (g : HalfOf) → AreElsewhere g (first.now ∷ rest.now)
        → next table.old.rows g ≡ twin (last_of first.now rest.now)
        → next table.new.rows g ≡ next table.old.rows (last_of first.now rest.now) }
    ensures others { (g : HalfOf) → AreElsewhere g (first.now ∷ rest.now)
        → next table.old.rows g ≢ first.now → next table.old.rows g ≢ twin (last_of first.now rest.now)
        → next table.new.rows g ≡ next table.old.rows g }

    // A table that is local to a map with a chain more is local to the map without it.
    ensures local { IsLocalWithoutChain (first.now ∷ rest.now) table.old.rows table.new.rows }

    ensures halves { KeepsHalves table.old.rows table.new.rows }
    ensures linked { IsLinked table.new.rows }
    ensures work { table.new.work ≡ ticked (length rest.now + 2) table.old.work }
{
    let last = last_half(*first, rest);
    cut_path(table, *first, last);
    loosen(table, *first, rest);
}
