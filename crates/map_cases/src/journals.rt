//! Lines are kept, and found again.
use map_journal::{keep_batch, keep_crash_open, open_journal};
use sqlite_trees::memory::MemStore;
use sqlite_trees::schema::Object;
use sqlite_trees::store::{Reopen, Shape, Store};
use sqlite_value::row::Row;
use sqlite_value::value::{Bytes, ValueRef};
use std::alloc::Global;
use std::process::Abort;
use std::test::Fail;
use stored_rows::TableError;

const TABLE: Object<'static> = Object {
    shape: Shape::Table,
    kind: "table",
    name: "journal",
    table: "journal",
    reals: 0,
    sql: Some("CREATE TABLE journal (seq INTEGER PRIMARY KEY, line TEXT NOT NULL) STRICT"),
};

// These texts, a line each.
pub(crate) fn lines(alloc: Global, texts: &[&str]) -> Result<Vec<Bytes>, Fail> {
    let mut lines = Vec::new(alloc);
    for text in texts {
        lines.push(Bytes::from_slice(alloc, text.as_bytes())?)?;
    }
    Ok(lines)
}

// The journal has these lines, and is opened.
fn has<S: Store>(
    rt: &impl Abort,
    alloc: Global,
    store: &mut S,
    texts: &[&str],
) -> Result<(), Fail> {
    let found = open_journal(store, alloc)?;
    assert_eq!(rt; found.len(), texts.len());
    for (line, text) in found.as_slice().iter().zip(texts) {
        assert!(rt; line.as_slice() == text.as_bytes(), "{text}");
    }
    Ok(())
}

// Opens the journal, and keeps these lines behind those that it has, by one commit.
pub(crate) fn keep<S: Store>(alloc: Global, store: &mut S, texts: &[&str]) -> Result<(), Fail> {
    let lines = lines(alloc, texts)?;
    let count = open_journal(store, alloc)?.len();
    if count > 1_000 || lines.len() > 1_000 {
        return Err(Fail::from(TableError::Unsound));
    }
    let mut row = Row::new(alloc);
    keep_batch(store, &mut row, count as u64, lines.as_slice())?;
    Ok(())
}

fn keeps_in_batches<S: Reopen>(rt: &impl Abort, alloc: Global, store: &mut S) -> Result<(), Fail> {
    has(rt, alloc, store, &[])?;
    keep(alloc, store, &["add-point,9,0,0,1,,", "undo,,,,,,"])?;
    has(rt, alloc, store, &["add-point,9,0,0,1,,", "undo,,,,,,"])?;
    keep(alloc, store, &[])?;
    keep(alloc, store, &["redo,,,,,,"])?;
    store.crash_and_reopen()?;
    has(
        rt,
        alloc,
        store,
        &["add-point,9,0,0,1,,", "undo,,,,,,", "redo,,,,,,"],
    )
}

#[test]
fn lines_are_kept_in_batches(rt: HostRuntime) -> Result<(), Fail> {
    let mut store = MemStore::new(rt.alloc(), &[TABLE])?;
    keeps_in_batches(&rt, rt.alloc(), &mut store)
}

// Puts a row with this under a number, in the transaction that is open.
fn put<S: Store>(
    alloc: Global,
    store: &mut S,
    number: i64,
    value: ValueRef<'_>,
) -> Result<(), Fail> {
    if store.shape(0) != Shape::Table {
        return Err(Fail::from(TableError::Unsound));
    }
    let mut row = Row::new(alloc);
    row.push(ValueRef::Int(number))?;
    row.push(ValueRef::Null)?;
    row.push(value)?;
    store.put(0, &row)?;
    Ok(())
}

#[test]
fn what_was_not_committed_is_dropped(rt: HostRuntime) -> Result<(), Fail> {
    let mut store = MemStore::new(rt.alloc(), &[TABLE])?;
    keep(rt.alloc(), &mut store, &["undo,,,,,,"])?;
    put(rt.alloc(), &mut store, 2, ValueRef::Text(b"redo,,,,,,"))?;
    has(&rt, rt.alloc(), &mut store, &["undo,,,,,,"])
}

// What opening the journal tells, `None` where it is opened.
fn fault<S: Store>(alloc: Global, store: &mut S) -> Option<TableError> {
    open_journal(store, alloc).err()
}

#[test]
fn a_foreign_row_is_told(rt: HostRuntime) -> Result<(), Fail> {
    let mut store = MemStore::new(rt.alloc(), &[TABLE])?;
    put(rt.alloc(), &mut store, 1, ValueRef::Int(5))?;
    store.commit()?;
    assert_eq!(&rt; fault(rt.alloc(), &mut store), Some(TableError::Unsound));
    Ok(())
}

#[test]
fn a_gap_is_told(rt: HostRuntime) -> Result<(), Fail> {
    let mut store = MemStore::new(rt.alloc(), &[TABLE])?;
    put(rt.alloc(), &mut store, 2, ValueRef::Text(b"undo,,,,,,"))?;
    store.commit()?;
    assert_eq!(&rt; fault(rt.alloc(), &mut store), Some(TableError::Unsound));
    Ok(())
}

#[test]
fn a_file_without_a_journal_is_told(rt: HostRuntime) -> Result<(), Fail> {
    let mut store = MemStore::new(rt.alloc(), &[])?;
    assert_eq!(&rt; fault(rt.alloc(), &mut store), Some(TableError::Unsound));
    Ok(())
}

// Keeps a line, crashes and opens: the line is there, and was acknowledged.
fn outlives<S: Reopen>(rt: &impl Abort, alloc: Global, store: &mut S) -> Result<(), Fail> {
    if !open_journal(store, alloc)?.is_empty() {
        return Err(Fail::from(TableError::Unsound));
    }
    let lines = lines(alloc, &["undo,,,,,,"])?;
    if lines.len() > 1_000 {
        return Err(Fail::from(TableError::Unsound));
    }
    let mut row = Row::new(alloc);
    let mut acknowledged = false;
    let found = keep_crash_open(
        store,
        alloc,
        &mut row,
        0,
        lines.as_slice(),
        &mut acknowledged,
    )?;
    assert!(rt; acknowledged);
    assert_eq!(rt; found.len(), 1);
    has(rt, alloc, store, &["undo,,,,,,"])
}

#[test]
fn an_acknowledged_line_outlives_a_crash(rt: HostRuntime) -> Result<(), Fail> {
    let mut store = MemStore::new(rt.alloc(), &[TABLE])?;
    outlives(&rt, rt.alloc(), &mut store)
}
