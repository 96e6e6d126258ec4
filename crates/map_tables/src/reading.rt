//! A plan's rows are read from the tables of a map file.
ghost use Rattle.std.specs.Prelude.{◌≡◌, ◌↔◌, List, map, IsTrue, IfOk, OnOk};
ghost use Rattle.cad_files.specs.Rows.{no_rows};
ghost use Rattle.cad_files.specs.declared.rows.PlanRow.{PlanRow as PlanRowOf};
ghost use Rattle.cad_files.specs.declared.rows.PlanRow.TheVariants as rows;
ghost use Rattle.sqlite_trees.specs.View.{IsClean, IsQuiet};
ghost use Rattle.stored_rows.specs.Tables.{OnlyReads, placed_from};
ghost use Rattle.map_tables.specs.Tables.{AreTables, HasRows, with_rows};

use crate::layouts::PlanLayout;
use crate::{PARCELS, POINTS, RETIRED, SOURCES, STRINGS};
use cad_files::{PlanRow, PlanRows, PlanString};
use cad_rows::{Memory, ParcelNo, ParcelRow, PointRow, SourceRow};
use sqlite_trees::error::StoreError;
use sqlite_trees::store::{Shape, Store};
use std::alloc::Global;
use stored_rows::{Layout, TableError, read_rows};

/// A row of a plan, whatever its kind.
trait PlanItem: Sized {
    ghost row_of: { Self → PlanRowOf };

    fn into_row(self) -> PlanRow
        ensures { result ≡ row_of self };
}

impl PlanItem for SourceRow {
    ghost row_of = { λ r. rows.Source r };

    fn into_row(self) -> PlanRow {
        PlanRow::Source(self)
    }
}

impl PlanItem for PointRow {
    ghost row_of = { λ r. rows.Point r };

    fn into_row(self) -> PlanRow {
        PlanRow::Point(self)
    }
}

impl PlanItem for ParcelRow {
    ghost row_of = { λ r. rows.Parcel r };

    fn into_row(self) -> PlanRow {
        PlanRow::Parcel(self)
    }
}

impl PlanItem for PlanString {
    ghost row_of = { λ s. rows.String s };

    fn into_row(self) -> PlanRow {
        PlanRow::String(self)
    }
}

impl PlanItem for ParcelNo {
    ghost row_of = { λ n. rows.Retired n };

    fn into_row(self) -> PlanRow {
        PlanRow::Retired(self)
    }
}

/// Puts rows behind those of their kinds, up to one that may not stand there, and says whether there was none.
fn add_all<T: PlanItem + Drop>(
    alloc: Global,
    rows: &mut PlanRows,
    items: Vec<T>,
) -> Result<bool, Memory>
    ensures { IfOk result (λ all. IsTrue all → rows.new ≡ with_rows rows.old (map T.row_of items.items)) }
{
    for item in items {
        if !rows.add(alloc, item.into_row())? {
            return Ok(false);
        }
    }
    Ok(true)
}

/// Reads a table, and puts its rows behind those of their kind.
fn read_table<S: Store, T: PlanItem + Drop, L: Layout<T>>(
    store: &mut S,
    alloc: Global,
    tree: u32,
    layout: &L,
    rows: &mut PlanRows,
) -> Result<(), TableError>
    ensures rows { OnOk result (IsClean (S.view store.new) → (items : List T)
        × ((S.view store.old).trees tree ≡ placed_from 1 (map (L.fields layout.now) items))
        × (rows.new ≡ with_rows rows.old (map T.row_of items))) }
    ensures same { OnOk result (IsClean (S.view store.new)
        → OnlyReads (S.view store.old) (S.view store.new)) }
    ensures quiet { IsQuiet S.view S.faults S.recovers S.is_shielded store.old store.new }
{
    let items: Vec<T> = read_rows(store, alloc, tree, layout)?;
    match add_all(alloc, rows, items) {
        Ok(true) => Ok(()),
        Ok(false) => Err(TableError::Unsound),
        Err(Memory) => Err(TableError::Store(StoreError::OutOfMemory)),
    }
}

/// Whether the five trees are tables.
pub fn has_tables<S: Store>(store: &S) -> bool
    ensures { IsTrue result ↔ AreTables (S.view store.now).shape }
{
    store.shape(SOURCES) == Shape::Table
        && store.shape(POINTS) == Shape::Table
        && store.shape(PARCELS) == Shape::Table
        && store.shape(STRINGS) == Shape::Table
        && store.shape(RETIRED) == Shape::Table
}

/// The rows of a plan that the tables hold. An error where the store fails, memory runs out, or the tables hold what no plan
/// may have: a number out of range, a list of sources that names one twice, too many rows.
pub fn read_plan_rows<S: Store>(store: &mut S, alloc: Global) -> Result<PlanRows, TableError>
    ensures rows { IfOk result (λ rows. IsClean (S.view store.new)
        → HasRows (S.view store.old).trees rows) }
    ensures same { OnOk result (IsClean (S.view store.new)
        → OnlyReads (S.view store.old) (S.view store.new)) }
    ensures quiet { IsQuiet S.view S.faults S.recovers S.is_shielded store.old store.new }
{
    let layout = PlanLayout::new(alloc);
    let mut rows = PlanRows::new(alloc);
    read_table::<S, SourceRow, PlanLayout>(store, alloc, SOURCES, &layout, &mut rows)?;
    read_table::<S, PointRow, PlanLayout>(store, alloc, POINTS, &layout, &mut rows)?;
    read_table::<S, ParcelRow, PlanLayout>(store, alloc, PARCELS, &layout, &mut rows)?;
    read_table::<S, PlanString, PlanLayout>(store, alloc, STRINGS, &layout, &mut rows)?;
    read_table::<S, ParcelNo, PlanLayout>(store, alloc, RETIRED, &layout, &mut rows)?;
    Ok(rows)
}
