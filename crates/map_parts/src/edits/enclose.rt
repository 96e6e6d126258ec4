//! An island in a face, with the halves that are kept of its rings: it comes where a face is
//! enclosed, and goes where two faces are merged round it.
ghost use Rattle.std.specs.Prelude.{◌≡◌, ◌∷◌, ◌+◌, ℕ, length};
ghost use Rattle.cad_map.specs.Boundaries.{face_place as face_place_of};
ghost use Rattle.half_table.specs.Half.{twin};
ghost use Rattle.half_table.specs.Rows.{IsLinked, next};
ghost use Rattle.half_table.specs.Count.{ticked};
ghost use Rattle.half_paths.specs.Loose.{AreLoose};
ghost use Rattle.key_lists.specs.Held.{items_at, capacity_at};
ghost use Rattle.map_parts.specs.FaceChanges.{CanBring, CanTakeOut};
ghost use Rattle.map_parts.specs.FaceChanges.{GoesWithIsland, GoesWithoutIsland};
ghost use Rattle.map_parts.specs.FaceTicks.{ticks_to_bring_in, ticks_to_take_out};
ghost use Rattle.map_parts.specs.Handing.{KeepsEnds, KeepsNoMore};

use crate::edits::handing::{clear, hand_over};
use crate::edits::island::{bring_island, take_island};
use cad_map::face_place;
use cad_rows::Face;
use half_table::{Half, HalfTable, Tally};
use key_lists::KeyLists;

/// Brings an island into the outer face: its ring along the path is the inner face's, and the rings
/// of the moved halves are too. One half is kept of each of the two rings, and those of the moved
/// rings pass over. It takes no memory. One tick for each string, and for each half of a ring that
/// gets a face.
pub(crate) fn bring_in<T: Tally>(
    table: &mut HalfTable<T>,
    kept: &mut KeyLists<Half>,
    first: &Half,
    rest: &[Half],
    outer: &Face,
    inner: &Face,
    moved: &[Half],
)
    requires { CanBring first.now rest.now outer.now inner.now moved.now table.old.rows
        kept.old }

    // A table that goes with a map goes with that map and the island, and so do the kept halves.
    ensures island { GoesWithIsland (first.now ∷ rest.now) outer.now inner.now moved.now
        table.old.rows kept.old table.new.rows kept.new }

    ensures halves { KeepsEnds table.old.rows table.new.rows }
    ensures linked { IsLinked table.new.rows }
    ensures work { table.new.work
        ≡ ticked (ticks_to_bring_in table.new.rows first.now rest.now moved.now) table.old.work }
    ensures capacity { (n : ℕ) → capacity_at kept.new n ≡ capacity_at kept.old n }
    // Two halves more are kept of the rings of the two faces.
    ensures count { length (items_at kept.new (face_place_of inner.now)) + length (items_at kept.new (face_place_of outer.now))
        ≡ length (items_at kept.old (face_place_of inner.now)) + length (items_at kept.old (face_place_of outer.now)) + 2 }
{
    bring_island(table, first, rest, outer, inner, moved);
    hand_over(table, kept, outer, inner);
    let inner_key = face_place(*inner);
    let outer_key = face_place(*outer);
    let back = table.twin(*first);
    kept.put(inner_key, *first);
    kept.put(outer_key, back);
}

/// Takes an island out of the outer face: its strings are loose, the rings of the moved halves are
/// the outer face's, and so are all halves that were kept for the inner face, but the island's own.
/// It takes no memory. One tick for each string, and for each half of a ring that gets a face.
pub(crate) fn take_out<T: Tally>(
    table: &mut HalfTable<T>,
    kept: &mut KeyLists<Half>,
    first: &Half,
    rest: &[Half],
    outer: &Face,
    inner: &Face,
    moved: &[Half],
)
    requires { CanTakeOut first.now rest.now outer.now inner.now moved.now table.old.rows
        kept.old }

    // A table that goes with a map and an island goes with the map without it, and so do the kept
    // halves.
    ensures island { GoesWithoutIsland (first.now ∷ rest.now) outer.now inner.now moved.now
        table.old.rows kept.old table.new.rows kept.new }

    ensures loose { AreLoose (next table.new.rows) (first.now ∷ rest.now) }
    ensures halves { KeepsEnds table.old.rows table.new.rows }
    ensures linked { IsLinked table.new.rows }
    ensures work { table.new.work
        ≡ ticked (ticks_to_take_out table.old.rows first.now rest.now moved.now) table.old.work }
    // No more halves are kept for the two faces together.
    ensures kept { KeepsNoMore (face_place_of inner.now) (face_place_of outer.now) kept.old
        kept.new }
{
    take_island(table, first, rest, outer, inner, moved);
    hand_over(table, kept, inner, outer);
    hand_over(table, kept, outer, inner);
    clear(kept, face_place(*inner));
}
