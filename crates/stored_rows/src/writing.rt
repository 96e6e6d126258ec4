//! Rows are written.
ghost use Rattle.std.specs.Prelude.{◌≡◌, ◌<◌, ◌^◌, ◌+◌, ◌++◌, [], List, length, map, pos, OnOk};
ghost use Rattle.sqlite_value.specs.Order.{Row as RowOf};
ghost use Rattle.sqlite_trees.specs.Tree.{put_row, without_rowid};
ghost use Rattle.sqlite_trees.specs.View.{IsClean, IsQuiet, KeepsSchema, SetsTree};
ghost use Rattle.sqlite_trees.specs.declared.store.Shape.TheVariants as shapes;
ghost use Rattle.stored_rows.specs.Tables.{placed, placed_from, PutsRows};

use sqlite_trees::error::StoreError;
use sqlite_trees::store::Store;
use sqlite_value::row::Row;
use sqlite_value::value::ValueRef;
use std::alloc::{AllocError, Global};

/// How the rows of a table stand for values.
pub trait Layout<T> {
    /// A value's columns behind the key's.
    ghost fields: { Self → T → RowOf };

    /// Writes a value's columns behind those that the row has.
    fn write(&self, item: &T, row: &mut Row) -> Result<(), AllocError>
        ensures { OnOk result (row.new ≡ row.old ++ fields self.now item.now) };

    /// What a row may hold: whether it does is asked by writing it again.
    fn read(&self, alloc: Global, row: &Row) -> Result<Option<T>, AllocError>;
}

// The key of the row under a place.
fn key_of(place: u64) -> i64
    requires { place < 2 ^ 63 }
    ensures { result ≡ pos place }
{
    place as i64
}

// Writes a row under its place.
pub(crate) fn write_placed<T, L: Layout<T>>(
    row: &mut Row,
    layout: &L,
    place: u64,
    item: &T,
) -> Result<(), StoreError>
    requires { place < 2 ^ 63 }
    ensures { OnOk result (row.new ≡ placed place (L.fields layout.now item.now)) }
{
    row.clear();
    if row.push(ValueRef::Int(key_of(place))).is_err() || row.push(ValueRef::Null).is_err() {
        return Err(StoreError::OutOfMemory);
    }
    match layout.write(item, row) {
        Ok(()) => Ok(()),
        Err(_) => Err(StoreError::OutOfMemory),
    }
}

// Puts a row under its place.
fn put_placed<S: Store, T, L: Layout<T>>(
    store: &mut S,
    row: &mut Row,
    tree: u32,
    layout: &L,
    place: u64,
    item: &T,
) -> Result<(), StoreError>
    requires place { place < 2 ^ 63 }
    requires shape { IsClean (S.view store.old) → (S.view store.old).shape tree ≡ shapes.Table }
    ensures ok { OnOk result (IsClean (S.view store.new)
        → SetsTree (S.view store.old) (S.view store.new) tree
        (put_row (placed place (L.fields layout.now item.now)))) }
    ensures schema { KeepsSchema (S.view store.old) (S.view store.new) }
    ensures quiet { IsQuiet S.view S.faults S.recovers S.is_shielded store.old store.new }
{
    write_placed(row, layout, place, item)?;
    store.put(tree, row)
}

/// Puts rows behind the `count` rows of a table, in the transaction that is open. An error where the store fails or
/// memory runs out: what was put so far is then dropped with the transaction.
pub fn append_rows<S: Store, T, L: Layout<T>>(
    store: &mut S,
    row: &mut Row,
    tree: u32,
    layout: &L,
    count: u64,
    items: &[T],
) -> Result<(), StoreError>
    requires few { count + length items.now < 2 ^ 63 }
    requires shape { IsClean (S.view store.old) → (S.view store.old).shape tree ≡ shapes.Table }
    requires there { IsClean (S.view store.old) → (rows : List RowOf)
        × ((S.view store.old).trees tree ≡ placed_from 1 rows) × (length rows ≡ count) }
    ensures put { OnOk result (IsClean (S.view store.new) → (rows : List RowOf)
        → (S.view store.old).trees tree ≡ placed_from 1 rows
        → PutsRows (S.view store.old) tree (rows ++ map (L.fields layout.now) items.now) (S.view store.new)) }
    ensures schema { KeepsSchema (S.view store.old) (S.view store.new) }
    ensures quiet { IsQuiet S.view S.faults S.recovers S.is_shielded store.old store.new }
{
    let mut place = count;
    for item in items {
        place += 1;
        put_placed(store, row, tree, layout, place, item)?;
    }
    Ok(())
}

// Takes the row under a place out.
fn delete_placed<S: Store>(store: &mut S, tree: u32, place: u64) -> Result<(), StoreError>
    requires place { place < 2 ^ 63 }
    requires shape { IsClean (S.view store.old) → (S.view store.old).shape tree ≡ shapes.Table }
    ensures ok { OnOk result (IsClean (S.view store.new)
        → SetsTree (S.view store.old) (S.view store.new) tree (without_rowid (pos place))) }
    ensures schema { KeepsSchema (S.view store.old) (S.view store.new) }
    ensures quiet { IsQuiet S.view S.faults S.recovers S.is_shielded store.old store.new }
{
    store.delete(tree, key_of(place))
}

/// Takes the `count` rows of a table out, in the transaction that is open. An error where the store fails or memory runs
/// out, as in [`append_rows`].
pub fn clear_rows<S: Store>(store: &mut S, tree: u32, count: u64) -> Result<(), StoreError>
    requires few { count < 2 ^ 63 }
    requires shape { IsClean (S.view store.old) → (S.view store.old).shape tree ≡ shapes.Table }
    requires there { IsClean (S.view store.old) → (rows : List RowOf)
        × ((S.view store.old).trees tree ≡ placed_from 1 rows) × (length rows ≡ count) }
    ensures cleared { OnOk result (IsClean (S.view store.new)
        → PutsRows (S.view store.old) tree [] (S.view store.new)) }
    ensures schema { KeepsSchema (S.view store.old) (S.view store.new) }
    ensures quiet { IsQuiet S.view S.faults S.recovers S.is_shielded store.old store.new }
{
    for gone in 0..count {
        delete_placed(store, tree, count - gone)?;
    }
    Ok(())
}
