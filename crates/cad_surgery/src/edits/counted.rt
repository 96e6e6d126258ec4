//! The work that a table counts.
ghost use Rattle.std.specs.Prelude.{◌≤◌};
ghost use Rattle.half_table.specs.Count.{greatest};

use half_table::{HalfTable, Tally};

/// The work that a table has counted is in range, by its type.
pub(crate) fn is_work_in_range<T: Tally>(table: &HalfTable<T>)
    ensures { table.now.work ≤ greatest }
{
    let _ = table.work();
}
