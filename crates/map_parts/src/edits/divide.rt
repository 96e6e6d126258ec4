//! A chain that comes across a face, and goes again, with the faces of the rings on both its hands.
ghost use Rattle.std.specs.Prelude.{◌≡◌, ◌∷◌, ◌+◌, ◌*◌, ℕ, length, if◌then◌else◌};
ghost use Rattle.cad_map.specs.Boundaries.{face_place as face_place_of};
ghost use Rattle.half_table.specs.declared.half.Half.{Half as HalfOf};
ghost use Rattle.half_table.specs.Count.{ticked};
ghost use Rattle.half_table.specs.Cycle.{holds};
ghost use Rattle.half_table.specs.Rows.{IsLinked, next, face, cycle};
ghost use Rattle.half_paths.specs.Path.{strings_of};
ghost use Rattle.half_paths.specs.Loose.{is_of, AreLoose};
ghost use Rattle.map_parts.specs.FaceChanges.{CanBringChain, CanTakeChain};
ghost use Rattle.map_parts.specs.FaceChanges.{CanBringAcross, CanTakeAcross};
ghost use Rattle.map_parts.specs.FaceChanges.{IsLocalWithChain, IsLocalWithoutChain};
ghost use Rattle.map_parts.specs.FaceChanges.{GoesWithChain, GoesWithoutChain};
ghost use Rattle.map_parts.specs.Handing.{KeepsEnds, KeepsNoMore};
ghost use Rattle.key_lists.specs.Held.{items_at, capacity_at};
ghost use Rattle.map_parts.specs.FaceTicks.{ticks_to_bring_across, ticks_to_take_across};

use crate::edits::chain::{bring_chain, take_chain};
use crate::edits::faces::{relabel_each, relabel_path};
use crate::edits::handing::{clear, hand_over, keep_both, keep_one};
use cad_map::face_place;
use cad_rows::Face;
use half_table::{Half, HalfTable, Tally};
use key_lists::KeyLists;

/// Brings a chain of loose strings across the outer face. The ring left of it is the inner face's.
/// Three ticks for each string, one more, and one for each half of that ring.
pub(crate) fn bring_left<T: Tally>(
    table: &mut HalfTable<T>,
    first: &Half,
    rest: &[Half],
    start: &Half,
    end: &Half,
    outer: &Face,
    inner: &Face,
)
    requires { CanBringChain (first.now ∷ rest.now) start.now end.now table.old.rows }
    ensures faces { (g : HalfOf) → face table.new.rows g
        ≡ (if holds (cycle table.new.rows first.now) g then inner.now
        else if is_of (strings_of (first.now ∷ rest.now)) g then outer.now
        else face table.old.rows g) }

    // A table that is local to a map is local to the map that has the chain more.
    ensures local { IsLocalWithChain (first.now ∷ rest.now) start.now end.now table.old.rows
        table.new.rows }

    ensures halves { KeepsEnds table.old.rows table.new.rows }
    ensures linked { IsLinked table.new.rows }
    ensures work { table.new.work ≡ ticked (2 + 2 * length rest.now + (length rest.now + 2)
        + length (cycle table.new.rows first.now)) table.old.work }
{
    relabel_path(table, first, rest, outer);
    bring_chain(table, first, rest, start, end);
    table.relabel(*first, *inner);
}

/// Takes a chain out, whose left ring is the inner face's: what it parted is the outer face's, and
/// its strings are loose. They have the inner face then, so that they are told by it. Three ticks
/// for each string, one more, and one for each half of the left ring.
pub(crate) fn take_left<T: Tally>(
    table: &mut HalfTable<T>,
    first: &Half,
    rest: &[Half],
    outer: &Face,
    inner: &Face,
)
    requires { CanTakeChain first.now rest.now table.old.rows }
    ensures faces { (g : HalfOf) → face table.new.rows g
        ≡ (if is_of (strings_of (first.now ∷ rest.now)) g then inner.now
        else if holds (cycle table.old.rows first.now) g then outer.now
        else face table.old.rows g) }

    // A table that is local to a map with a chain more is local to the map without it.
    ensures local { IsLocalWithoutChain (first.now ∷ rest.now) table.old.rows table.new.rows }

    ensures loose { AreLoose (next table.new.rows) (first.now ∷ rest.now) }
    ensures halves { KeepsEnds table.old.rows table.new.rows }
    ensures linked { IsLinked table.new.rows }
    ensures work { table.new.work ≡ ticked (length (cycle table.old.rows first.now)
        + (length rest.now + 2) + (2 + 2 * length rest.now)) table.old.work }
{
    table.relabel(*first, *outer);
    take_chain(table, first, rest);
    relabel_path(table, first, rest, inner);
}

/// Brings a chain of loose strings across the outer face: left of it is a ring of the inner face,
/// and the rings of the moved halves are the inner face's too. One half is kept of each ring. It
/// takes no memory. Three ticks for each string, one more, and one for each half of a ring that gets
/// the inner face.
pub(crate) fn bring_across<T: Tally>(
    table: &mut HalfTable<T>,
    kept: &mut KeyLists<Half>,
    first: &Half,
    rest: &[Half],
    start: &Half,
    end: &Half,
    outer: &Face,
    inner: &Face,
    moved: &[Half],
)
    requires { CanBringAcross first.now rest.now start.now end.now outer.now inner.now
        moved.now table.old.rows kept.old }

    // A table that goes with a map goes with the map that has the chain more, and so do the kept
    // halves.
    ensures chain { GoesWithChain (first.now ∷ rest.now) start.now end.now outer.now inner.now
        moved.now table.old.rows kept.old table.new.rows kept.new }

    ensures halves { KeepsEnds table.old.rows table.new.rows }
    ensures linked { IsLinked table.new.rows }
    ensures work { table.new.work
        ≡ ticked (ticks_to_bring_across table.new.rows first.now rest.now moved.now)
        table.old.work }
    ensures count { length (items_at kept.new (face_place_of inner.now))
        + length (items_at kept.new (face_place_of outer.now))
        ≡ length (items_at kept.old (face_place_of inner.now))
        + length (items_at kept.old (face_place_of outer.now)) + 1 }
    ensures capacity { (n : ℕ) → capacity_at kept.new n ≡ capacity_at kept.old n }
{
    bring_left(table, first, rest, start, end, outer, inner);
    hand_over(table, kept, outer, inner);
    let back = table.twin(*first);
    keep_both(kept, first, &back, inner, outer);
    relabel_each(table, moved, inner);
    hand_over(table, kept, outer, inner);
}

/// Takes a chain out, which has a ring of the inner face left of it: its strings are loose, what it
/// parted is one ring of the outer face, and the rings of the moved halves are the outer face's too.
/// One half is kept of each ring. It takes no memory. Three ticks for each string, one more, and one
/// for each half of a ring that gets the outer face.
pub(crate) fn take_across<T: Tally>(
    table: &mut HalfTable<T>,
    kept: &mut KeyLists<Half>,
    first: &Half,
    rest: &[Half],
    outer: &Face,
    inner: &Face,
    moved: &[Half],
)
    requires { CanTakeAcross first.now rest.now outer.now inner.now moved.now table.old.rows
        kept.old }

    // A table that goes with a map with a chain more goes with the map without it, and so do the
    // kept halves.
    ensures chain { GoesWithoutChain (first.now ∷ rest.now) outer.now inner.now moved.now
        table.old.rows kept.old table.new.rows kept.new }

    ensures loose { AreLoose (next table.new.rows) (first.now ∷ rest.now) }
    ensures halves { KeepsEnds table.old.rows table.new.rows }
    ensures linked { IsLinked table.new.rows }
    ensures work { table.new.work
        ≡ ticked (ticks_to_take_across table.old.rows first.now rest.now moved.now)
        table.old.work }
    ensures kept { KeepsNoMore (face_place_of inner.now) (face_place_of outer.now) kept.old
        kept.new }
{
    relabel_each(table, moved, outer);
    hand_over(table, kept, inner, outer);
    clear(kept, face_place(*inner));
    let back = table.twin(*first);
    let start = table.next(back);
    take_left(table, first, rest, outer, inner);
    hand_over(table, kept, outer, inner);
    keep_one(kept, &start, inner, outer);
}
