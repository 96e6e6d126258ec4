//! An island that comes into a face of a table, and goes from it.
ghost use Rattle.std.specs.Prelude.{◌≡◌, ◌∷◌, ◌≤◌, List, length, if◌then◌else◌};
ghost use Rattle.std.specs.List.{AllByRecursion};
ghost use Rattle.cad_rings.specs.Cycle.{Ring, sides_of};
ghost use Rattle.cad_map.specs.declared.boundary.Boundary.{Boundary as BoundaryOf};
ghost use Rattle.cad_map.specs.Map.{Map};
ghost use Rattle.cad_map.specs.Rings.{HasWholeRings};
ghost use Rattle.half_table.specs.declared.half.Half.{Half as HalfOf};
ghost use Rattle.half_table.specs.Half.{twin};
ghost use Rattle.half_table.specs.Rows.{IsLinked, next, face, cycle};
ghost use Rattle.half_table.specs.Count.{ticked};
ghost use Rattle.half_table.specs.Cycle.{holds};
ghost use Rattle.half_paths.specs.Path.{AreIn, AreDifferent};
ghost use Rattle.half_paths.specs.Loose.{AreLoose};
ghost use Rattle.half_paths.specs.Round.{IsRound};
ghost use Rattle.map_parts.specs.FaceTicks.{ticks_to_bring_in, ticks_to_take_out};
ghost use Rattle.map_parts.specs.Handing.{KeepsEnds};
ghost use Rattle.map_parts.specs.Parts.{HasHalves};
ghost use Rattle.map_parts.specs.Paths.{AreAlong, HasStringsMore};
ghost use Rattle.map_parts.specs.Relabelled.{on_cycles};
ghost use Rattle.map_parts.specs.Islands.{FitsTable, AreOfRings, IsIslandOf};

use crate::edits::faces::relabel_each;
use cad_rows::Face;
use half_paths::{tie_ring, untie_ring};
use half_table::{Half, HalfTable, Tally};

/// Ties loose strings to an island. The inner ring, along the path, is the inner face's, and so are
/// the rings of the moved halves; the ring back is the outer face's. One tick for each string, and
/// for each half of a ring that gets a face.
pub(crate) fn bring_island<T: Tally>(
    table: &mut HalfTable<T>,
    first: &Half,
    rest: &[Half],
    outer: &Face,
    inner: &Face,
    moved: &[Half],
)
    requires linked { IsLinked table.old.rows }
    requires within { AreIn table.old.rows (first.now ∷ rest.now) }
    requires different { AreDifferent (first.now ∷ rest.now) }
    requires loose { AreLoose (next table.old.rows) (first.now ∷ rest.now) }
    requires moved_in { AreIn table.old.rows moved.now }

    // A table that goes with a map goes with that map and the island.
    ensures island { (whole parted : Map) (ring : Ring) (left right : BoundaryOf) (others : List BoundaryOf)
        → HasWholeRings whole → HasWholeRings parted
        → IsIslandOf whole parted outer.now inner.now ring left right others
        → HasStringsMore whole parted (first.now ∷ rest.now)
        → AreAlong table.old.rows (first.now ∷ rest.now) (sides_of ring)
        → AllByRecursion (HasHalves table.old.rows) parted.strings
        → AreOfRings parted table.old.rows moved.now inner.now others
        → FitsTable whole table.old.rows → FitsTable parted table.new.rows }

    ensures halves { KeepsEnds table.old.rows table.new.rows }
    ensures linked { IsLinked table.new.rows }
    ensures work { table.new.work
        ≡ ticked (ticks_to_bring_in table.new.rows first.now rest.now moved.now) table.old.work }
{
    tie_ring(table, *first, rest);
    table.relabel(*first, *inner);
    let back = table.twin(*first);
    table.relabel(back, *outer);
    relabel_each(table, moved, inner);
}

/// Takes an island out: its strings are loose, and the rings of the moved halves are the outer
/// face's. The island's outer ring has the inner face then, so that both its rings are told by
/// their face. One tick for each string, and for each half of a ring that gets a face.
pub(crate) fn take_island<T: Tally>(
    table: &mut HalfTable<T>,
    first: &Half,
    rest: &[Half],
    outer: &Face,
    inner: &Face,
    moved: &[Half],
)
    requires linked { IsLinked table.old.rows }
    requires within { AreIn table.old.rows (first.now ∷ rest.now) }
    requires different { AreDifferent (first.now ∷ rest.now) }
    requires round { IsRound (next table.old.rows) first.now rest.now }
    requires moved_in { AreIn table.old.rows moved.now }

    // A table that goes with a map and an island goes with the map without it.
    ensures island { (whole parted : Map) (ring : Ring) (left right : BoundaryOf) (others : List BoundaryOf)
        → HasWholeRings parted → 2 ≤ length ring
        → IsIslandOf whole parted outer.now inner.now ring left right others
        → HasStringsMore whole parted (first.now ∷ rest.now)
        → AreAlong table.old.rows (first.now ∷ rest.now) (sides_of ring)
        → AllByRecursion (HasHalves table.old.rows) whole.strings
        → AreOfRings parted table.old.rows moved.now inner.now others
        → FitsTable parted table.old.rows → FitsTable whole table.new.rows }

    ensures faces { (g : HalfOf) → face table.new.rows g
        ≡ (if holds (cycle table.old.rows (twin first.now)) g then inner.now
        else if on_cycles table.old.rows moved.now g then outer.now else face table.old.rows g) }
    ensures loose { AreLoose (next table.new.rows) (first.now ∷ rest.now) }
    ensures halves { KeepsEnds table.old.rows table.new.rows }
    ensures linked { IsLinked table.new.rows }
    ensures work { table.new.work
        ≡ ticked (ticks_to_take_out table.old.rows first.now rest.now moved.now) table.old.work }
{
    relabel_each(table, moved, outer);
    let back = table.twin(*first);
    table.relabel(back, *inner);
    untie_ring(table, *first, rest);
}
