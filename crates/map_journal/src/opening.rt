//! A journal is opened, also after a crash.
ghost use Rattle.std.specs.Prelude.{◌≡◌, ◌⊎◌, ◌<◌, ◌^◌, ◌+◌, ◌++◌, List, length, IfOk, true};
ghost use Rattle.sqlite_trees.specs.Tree.{Trees};
ghost use Rattle.sqlite_trees.specs.View.{IsClean};
ghost use Rattle.map_journal.specs.Journal.{Line, IsAtRest};

use crate::JOURNAL;
use crate::journal::keep_batch;
use crate::line::Lines;
use sqlite_trees::error::StoreError;
use sqlite_trees::store::{Reopen, Shape, Store};
use sqlite_value::row::Row;
use sqlite_value::value::Bytes;
use std::alloc::Global;
use stored_rows::{TableError, read_rows};

/// The lines of the journal. From then on lines can be kept behind them. What the transaction has
/// written is dropped.
pub fn open_journal<S: Store>(store: &mut S, alloc: Global) -> Result<Vec<Bytes>, TableError>
    ensures rest { IfOk result
        (λ lines. IsClean (S.view store.new) → IsAtRest (S.view store.new) lines.items) }
    ensures crash { (db : Trees) → S.recovers store.new db → S.recovers store.old db }
{
    store.rollback();
    if store.is_broken() {
        return Err(TableError::Store(StoreError::Broken));
    }
    if store.shape(JOURNAL) != Shape::Table {
        return Err(TableError::Unsound);
    }
    read_rows(store, alloc, JOURNAL, &Lines)
}

/// Keeps a batch of lines, and opens the journal again after a crash at that moment, which may be one
/// within the call: then it has the lines from before, or those and the whole batch, and surely these
/// where the batch was acknowledged.
pub fn keep_crash_open<S: Reopen>(
    store: &mut S,
    alloc: Global,
    row: &mut Row,
    count: u64,
    lines: &[Bytes],
    acknowledged: &mut bool,
) -> Result<Vec<Bytes>, TableError>
    requires number { count + length lines.now < 2 ^ 63 }
    requires rest { IsClean (S.Store.view store.old)
        → (done : List Line) × IsAtRest (S.Store.view store.old) done × (length done ≡ count) }
    ensures found { IfOk result (λ found. IsClean (S.Store.view store.new) → (done : List Line)
        → IsAtRest (S.Store.view store.old) done
        → (found.items ≡ done) ⊎ (found.items ≡ done ++ lines.now)) }
    ensures all { IfOk result (λ found. IsClean (S.Store.view store.new) → (done : List Line)
        → IsAtRest (S.Store.view store.old) done → acknowledged.new ≡ true
        → found.items ≡ done ++ lines.now) }
{
    *acknowledged = keep_batch(store, row, count, lines).is_ok();
    match store.crash_and_reopen() {
        Ok(()) => {}
        Err(e) => return Err(TableError::Store(e)),
    }
    read_rows(store, alloc, JOURNAL, &Lines)
}
