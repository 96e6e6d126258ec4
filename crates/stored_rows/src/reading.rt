//! Rows are read.
ghost use Rattle.std.specs.Prelude.{◌≡◌, ◌<◌, ◌^◌, map, IfOk, OnOk};
ghost use Rattle.sqlite_trees.specs.View.{IsClean, IsQuiet};
ghost use Rattle.stored_rows.specs.Tables.{OnlyReads, placed, placed_from};

use crate::writing::{Layout, write_placed};
use sqlite_trees::error::StoreError;
use sqlite_trees::store::{Direction, Store};
use sqlite_value::row::Row;
use std::alloc::Global;

/// Why a table isn't read.
#[derive(Clone, Copy, Debug, PartialEq, Eq)]
pub enum TableError {
    /// The store failed, or memory ran out.
    Store(StoreError),
    /// A row isn't one of the table's.
    Unsound,
}

const NO_MEMORY: TableError = TableError::Store(StoreError::OutOfMemory);

// What a row under its place holds.
fn item_of<T: Drop, L: Layout<T>>(
    alloc: Global,
    row: &Row,
    layout: &L,
    place: u64,
    again: &mut Row,
) -> Result<T, TableError>
    requires { place < 2 ^ 63 }
    ensures { IfOk result (λ item. row.now ≡ placed place (L.fields layout.now item)) }
{
    let item = match layout.read(alloc, row) {
        Ok(Some(item)) => item,
        Ok(None) => return Err(TableError::Unsound),
        Err(_) => return Err(NO_MEMORY),
    };
    if write_placed(again, layout, place, &item).is_err() {
        return Err(NO_MEMORY);
    }
    if row.is_same(again) {
        Ok(item)
    } else {
        Err(TableError::Unsound)
    }
}

/// The rows of a table, in order.
pub fn read_rows<S: Store, T: Drop, L: Layout<T>>(
    store: &mut S,
    alloc: Global,
    tree: u32,
    layout: &L,
) -> Result<Vec<T>, TableError>
    ensures rows { IfOk result (λ items. IsClean (S.view store.new)
        → (S.view store.old).trees tree ≡ placed_from 1 (map (L.fields layout.now) items.items)) }
    ensures same { OnOk result (IsClean (S.view store.new)
        → OnlyReads (S.view store.old) (S.view store.new)) }
    ensures quiet { IsQuiet S.view S.faults S.recovers S.is_shielded store.old store.new }
{
    let mut row = Row::new(alloc);
    let mut again = Row::new(alloc);
    let mut items = Vec::new(alloc);
    match store.seek(0, tree, &row, Direction::Forward) {
        Ok(()) => {}
        Err(e) => return Err(TableError::Store(e)),
    }
    // A disk that lies could keep a cursor going, so the loop counts.
    'rows: for n in 1..1u64 << 62 {
        match store.next(0, &mut row) {
            Ok(true) => {}
            Ok(false) => return Ok(items),
            Err(e) => return Err(TableError::Store(e)),
        }
        let item: T = item_of(alloc, &row, layout, n, &mut again)?;
        match items.push(item) {
            Ok(()) => {}
            Err(_) => return Err(NO_MEMORY),
        }
    }
    Err(NO_MEMORY)
}
