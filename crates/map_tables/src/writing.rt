//! A plan's rows are put into the tables of a map file.
ghost use Rattle.std.specs.Prelude.{◌≡◌, ◌<◌, ◌^◌, [], length, map, OnOk};
ghost use Rattle.sqlite_trees.specs.View.{IsClean, IsQuiet, KeepsSchema};
ghost use Rattle.sqlite_trees.specs.declared.store.Shape.TheVariants as shapes;
ghost use Rattle.stored_rows.specs.Tables.{PutsRows};
ghost use Rattle.map_tables.specs.Tables.{AreEmpty, AreTables, PutsPlan};

use crate::layouts::PlanLayout;
use crate::{PARCELS, POINTS, RETIRED, SOURCES, STRINGS};
use cad_files::PlanRows;
use sqlite_trees::error::StoreError;
use sqlite_trees::store::Store;
use sqlite_value::row::Row;
use std::alloc::Global;
use stored_rows::{Layout, append_rows};

/// Fills a table that is empty.
fn fill_table<S: Store, T, L: Layout<T>>(
    store: &mut S,
    row: &mut Row,
    tree: u32,
    layout: &L,
    items: &[T],
) -> Result<(), StoreError>
    requires few { length items.now < 2 ^ 63 }
    requires shape { IsClean (S.view store.old) → (S.view store.old).shape tree ≡ shapes.Table }
    requires empty { IsClean (S.view store.old) → (S.view store.old).trees tree ≡ [] }
    ensures put { OnOk result (IsClean (S.view store.new)
        → PutsRows (S.view store.old) tree (map (L.fields layout.now) items.now) (S.view store.new)) }
    ensures schema { KeepsSchema (S.view store.old) (S.view store.new) }
    ensures quiet { IsQuiet S.view S.faults S.recovers S.is_shielded store.old store.new }
{
    append_rows(store, row, tree, layout, 0, items)
}

/// Puts a plan's rows into the five tables, which are empty, in the transaction that is open. An error where the store fails
/// or memory runs out: what was put so far is then dropped with the transaction.
pub fn put_plan_rows<S: Store>(
    store: &mut S,
    alloc: Global,
    rows: &PlanRows,
) -> Result<(), StoreError>
    requires shapes { IsClean (S.view store.old) → AreTables (S.view store.old).shape }
    requires empty { IsClean (S.view store.old) → AreEmpty (S.view store.old).trees }
    ensures put { OnOk result (IsClean (S.view store.new)
        → PutsPlan (S.view store.old) rows.now (S.view store.new)) }
    ensures schema { KeepsSchema (S.view store.old) (S.view store.new) }
    ensures quiet { IsQuiet S.view S.faults S.recovers S.is_shielded store.old store.new }
{
    let layout = PlanLayout::new(alloc);
    let mut row = Row::new(alloc);
    fill_table(store, &mut row, SOURCES, &layout, rows.sources.as_slice())?;
    fill_table(store, &mut row, POINTS, &layout, rows.points.as_slice())?;
    fill_table(store, &mut row, PARCELS, &layout, rows.parcels.as_slice())?;
    fill_table(store, &mut row, STRINGS, &layout, rows.strings.as_slice())?;
    fill_table(store, &mut row, RETIRED, &layout, rows.retired.as_slice())
}
