//! Rows of a plan are put into tables, and read again.
ghost use Rattle.std.specs.Prelude.{IfOk};
ghost use Rattle.sqlite_trees.specs.Memory.{memory_view};
ghost use Rattle.map_tables.specs.Tables.{AreEmpty};
ghost use Rattle.map_job.specs.Files.{IsFresh};

use crate::plans::{PLAN, map_of, rows};
use cad_files::{PlanRows, plan_text};
use map_tables::{POINTS, STRINGS, has_tables, put_plan_rows, read_plan_rows};
use sqlite_trees::memory::MemStore;
use sqlite_trees::schema::Object;
use sqlite_trees::store::{Shape, Store};
use sqlite_value::row::Row;
use sqlite_value::value::ValueRef;
use std::alloc::Global;
use std::process::Abort;
use std::test::Fail;
use stored_rows::{TableError, clear_rows};

/// A table of the tests.
const TABLE: Object<'static> = Object {
    shape: Shape::Table,
    kind: "table",
    name: "table",
    table: "table",
    reals: 0,
    sql: None,
};

/// The tables of a map file, without a row.
pub(crate) fn new_tables(alloc: Global) -> Result<MemStore, Fail>
    ensures empty { IfOk result (λ store. AreEmpty (memory_view store).trees) }
    ensures fresh { IfOk result (λ store. IsFresh (memory_view store)) }
{
    Ok(MemStore::new(alloc, &[TABLE, TABLE, TABLE, TABLE, TABLE, TABLE, TABLE])?)
}

/// The text of a plan with these rows.
fn text_of(rt: &impl Abort, alloc: Global, rows: &PlanRows) -> Result<Vec<u8>, Fail> {
    Ok(plan_text(alloc, &map_of(rt, alloc, rows))?)
}

/// The tables hold the rows of this plan.
fn holds<S: Store>(rt: &impl Abort, alloc: Global, store: &mut S, plan: &str) -> Result<(), Fail> {
    let found = read_plan_rows(store, alloc)?;
    let text = text_of(rt, alloc, &found)?;
    assert!(rt; text.as_slice() == plan.as_bytes(), "{plan}");
    Ok(())
}

#[test]
fn rows_are_put_and_read(rt: HostRuntime) -> Result<(), Fail> {
    let mut store = new_tables(rt.alloc())?;
    let rows = rows(&rt, rt.alloc(), PLAN);
    assert!(&rt; has_tables(&store));
    put_plan_rows(&mut store, rt.alloc(), &rows)?;
    holds(&rt, rt.alloc(), &mut store, PLAN)?;
    store.commit()?;
    holds(&rt, rt.alloc(), &mut store, PLAN)
}

/// What reading the tables tells where the points' table has one row, with these columns.
fn fault<S: Store>(
    rt: &impl Abort,
    alloc: Global,
    store: &mut S,
    columns: &[ValueRef<'_>; 4],
) -> Result<Option<TableError>, Fail> {
    assert!(rt; has_tables(store));
    let mut row = Row::new(alloc);
    row.push(ValueRef::Int(1))?;
    row.push(ValueRef::Null)?;
    row.push(columns[0])?;
    row.push(columns[1])?;
    row.push(columns[2])?;
    row.push(columns[3])?;
    store.put(POINTS, &row)?;
    let told = read_plan_rows(store, alloc).err();
    store.rollback();
    Ok(told)
}

#[test]
fn rows_of_no_plan_are_told(rt: HostRuntime) -> Result<(), Fail> {
    let mut store = new_tables(rt.alloc())?;
    let (number, x, y) = (ValueRef::Int(4), ValueRef::Int(-5), ValueRef::Int(6));
    let (none, two) = (ValueRef::Text(b""), ValueRef::Text(b"1 2"));
    let sound: [[ValueRef<'_>; 4]; 2] = [[number, x, y, none], [number, x, y, two]];
    for columns in &sound {
        assert_eq!(&rt; fault(&rt, rt.alloc(), &mut store, columns)?, None);
    }
    let wrong: [[ValueRef<'_>; 4]; 9] = [
        [ValueRef::Int(0), x, y, none],
        [ValueRef::Int(1_000_000_000), x, y, none],
        [ValueRef::Text(b"4"), x, y, none],
        [number, ValueRef::Int(i64::MAX), y, none],
        [number, x, ValueRef::Null, none],
        [number, x, y, ValueRef::Null],
        [number, x, y, ValueRef::Text(b"1 1")],
        [number, x, y, ValueRef::Text(b"01")],
        [number, x, y, ValueRef::Text(b"1  2")],
    ];
    for columns in &wrong {
        assert_eq!(&rt;
            fault(&rt, rt.alloc(), &mut store, columns)?,
            Some(TableError::Unsound)
        );
    }
    Ok(())
}

/// Takes the rows of the strings' table out.
fn clear_strings<S: Store>(rt: &impl Abort, alloc: Global, store: &mut S) -> Result<(), Fail> {
    let found = read_plan_rows(store, alloc)?;
    assert!(rt; has_tables(store));
    clear_rows(store, STRINGS, found.strings.len() as u64)?;
    Ok(())
}

#[test]
fn a_table_is_cleared(rt: HostRuntime) -> Result<(), Fail> {
    let mut store = new_tables(rt.alloc())?;
    let rows = rows(&rt, rt.alloc(), PLAN);
    assert!(&rt; has_tables(&store));
    put_plan_rows(&mut store, rt.alloc(), &rows)?;
    clear_strings(&rt, rt.alloc(), &mut store)?;
    let left = read_plan_rows(&mut store, rt.alloc())?;
    assert_eq!(&rt;
        (left.strings.len(), left.points.len(), left.retired.len()),
        (0, 4, 1)
    );
    Ok(())
}
