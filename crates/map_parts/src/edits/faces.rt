//! Rings that get another face.
ghost use Rattle.std.specs.Prelude.{◌≡◌, ◌∷◌};
ghost use Rattle.half_table.specs.Rows.{IsLinked};
ghost use Rattle.half_table.specs.Count.{ticked};
ghost use Rattle.half_paths.specs.Path.{AreIn};
ghost use Rattle.map_parts.specs.Relabelled.{cycles_length, RelabelsEach};

use cad_rows::Face;
use half_table::{Half, HalfTable, Tally};

/// Gives the rings of these halves a face. One tick for each half of each ring.
pub(crate) fn relabel_each<T: Tally>(table: &mut HalfTable<T>, halves: &[Half], face: &Face)
    requires linked { IsLinked table.old.rows }
    requires within { AreIn table.old.rows halves.now }
    ensures relabels { RelabelsEach halves.now face.now table.old.rows table.new.rows }
    ensures linked { IsLinked table.new.rows }
    ensures work { table.new.work ≡ ticked (cycles_length table.old.rows halves.now) table.old.work }
{
    for half in halves {
        table.relabel(*half, *face);
    }
}

/// Gives the rings of the halves of a path a face. One tick for each half of each ring.
pub(crate) fn relabel_path<T: Tally>(
    table: &mut HalfTable<T>,
    first: &Half,
    rest: &[Half],
    face: &Face,
)
    requires linked { IsLinked table.old.rows }
    requires within { AreIn table.old.rows (first.now ∷ rest.now) }
    ensures relabels { RelabelsEach (first.now ∷ rest.now) face.now table.old.rows table.new.rows }
    ensures linked { IsLinked table.new.rows }
    ensures work { table.new.work
        ≡ ticked (cycles_length table.old.rows (first.now ∷ rest.now)) table.old.work }
{
    table.relabel(*first, *face);
    relabel_each(table, rest, face);
}
