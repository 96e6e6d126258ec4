//! Lines are kept.
ghost use Rattle.std.specs.Prelude.{◌≡◌, ◌⊎◌, ◌<◌, ◌^◌, ◌+◌, ◌++◌, List, length, OnOk};
ghost use Rattle.sqlite_trees.specs.Tree.{Trees};
ghost use Rattle.sqlite_trees.specs.View.{IsClean};
ghost use Rattle.map_journal.specs.Journal.{Line, IsAtRest, IsKept, HasLines};

use crate::JOURNAL;
use crate::line::Lines;
use sqlite_trees::error::StoreError;
use sqlite_trees::store::Store;
use sqlite_value::row::Row;
use sqlite_value::value::Bytes;
use stored_rows::append_rows;

/// Puts a batch of lines behind the `count` lines of the journal, and commits them together. At `Ok`
/// they are on the disk.
pub fn keep_batch<S: Store>(
    store: &mut S,
    row: &mut Row,
    count: u64,
    lines: &[Bytes],
) -> Result<(), StoreError>
    requires number { count + length lines.now < 2 ^ 63 }
    requires rest { IsClean (S.view store.old)
        → (done : List Line) × IsAtRest (S.view store.old) done × (length done ≡ count) }
    ensures kept { OnOk result (IsClean (S.view store.new) → (done : List Line)
        → IsAtRest (S.view store.old) done
        → IsKept (S.view store.old) (S.view store.new) (done ++ lines.now)) }

    // A crash at any moment leaves the lines from before, or those and the whole batch.
    ensures crash { (done : List Line) → IsAtRest (S.view store.old) done
        → (db : Trees) → S.recovers store.new db
        → HasLines (S.view store.old).committed done db
        ⊎ HasLines (S.view store.old).committed (done ++ lines.now) db }

    // A store that took a wrong answer of the disk as true doesn't forget it, and then a crash has no
    // new outcome.
    ensures falls { IsClean (S.view store.new) → IsClean (S.view store.old) }
    ensures dirty { (IsClean (S.view store.old) → ⊥)
        → (db : Trees) → S.recovers store.new db → S.recovers store.old db }
{
    append_rows(store, row, JOURNAL, &Lines, count, lines)?;
    store.commit()
}
