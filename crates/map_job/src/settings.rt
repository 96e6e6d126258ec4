//! The settings of a map file: its format, and how many edits can be undone.
ghost use Rattle.std.specs.Prelude.{◌≡◌, [], map, IsTrue, IfOk, IfSome, OnOk};
ghost use Rattle.sqlite_trees.specs.View.{IsClean, IsQuiet, KeepsSchema};
ghost use Rattle.sqlite_trees.specs.declared.store.Shape.TheVariants as shapes;
ghost use Rattle.stored_rows.specs.Tables.{OnlyReads, PutsRows};
ghost use Rattle.map_job.specs.Files.{HasDepth, depth_rows, setting_fields};

use cad_history::Depth;
use itoa::Buffer;
use sqlite_trees::error::StoreError;
use sqlite_trees::store::Store;
use sqlite_value::row::Row;
use sqlite_value::value::{Bytes, ValueRef};
use std::alloc::{AllocError, Global};
use std::str;
use stored_rows::{Layout, TableError, append_rows, read_rows};

/// The tree of the settings' table.
pub const SETTINGS: u32 = 6;

/// A setting.
#[derive(Drop)]
struct Setting {
    name: Bytes,
    value: Bytes,
}

/// `settings`: name, value.
#[derive(Drop)]
struct SettingLayout;

impl Layout<Setting> for SettingLayout {
    ghost fields = { λ _ s. setting_fields s.name s.value };

    fn write(&self, item: &Setting, row: &mut Row) -> Result<(), AllocError> {
        row.push(ValueRef::Text(item.name.as_slice()))?;
        row.push(ValueRef::Text(item.value.as_slice()))
    }

    fn read(&self, alloc: Global, row: &Row) -> Result<Option<Setting>, AllocError> {
        match (row.get(2), row.get(3)) {
            (ValueRef::Text(name), ValueRef::Text(value)) => Ok(Some(Setting {
                name: Bytes::from_slice(alloc, name)?,
                value: Bytes::from_slice(alloc, value)?,
            })),
            _ => Ok(None),
        }
    }
}

/// A setting with this name and value. An error where memory runs out.
fn make_setting(alloc: Global, name: &[u8], value: &[u8]) -> Result<Setting, AllocError>
    ensures { IfOk result (λ s. (s.name ≡ name.now) × (s.value ≡ value.now)) }
{
    Ok(Setting {
        name: Bytes::from_slice(alloc, name)?,
        value: Bytes::from_slice(alloc, value)?,
    })
}

/// The settings of a file in which so many edits can be undone.
fn settings_of(alloc: Global, depth: Depth) -> Result<[Setting; 2], AllocError>
    ensures { IfOk result (λ both. map (λ s. setting_fields s.name s.value) both ≡ depth_rows depth) }
{
    let mut digits = Buffer::new();
    let format = make_setting(alloc, b"format", b"1")?;
    let depth = make_setting(alloc, b"depth", digits.format(depth.get()).as_bytes())?;
    Ok([format, depth])
}

/// Whether two settings are the same.
fn is_same(a: &Setting, b: &Setting) -> bool
    ensures { IsTrue result → (a.now.name ≡ b.now.name) × (a.now.value ≡ b.now.value) }
{
    a.name.as_slice() == b.name.as_slice() && a.value.as_slice() == b.value.as_slice()
}

/// Whether the settings are these two.
fn are_same(rows: &[Setting], wanted: &[Setting; 2]) -> bool
    ensures { IsTrue result → map (λ s. setting_fields s.name s.value) rows.now
        ≡ map (λ s. setting_fields s.name s.value) wanted.now }
{
    rows.len() == 2 && is_same(&rows[0], &wanted[0]) && is_same(&rows[1], &wanted[1])
}

/// The depth that settings tell. Whether they are just those of a file is asked by making them again.
fn told_depth(rows: &[Setting]) -> Option<Depth> {
    let digits = str::from_utf8(rows.get(1)?.value.as_slice()).ok()?;
    Depth::new(digits.parse::<usize>().ok()?)
}

/// The depth that settings tell, if they are those of a file.
fn depth_in(alloc: Global, rows: &[Setting]) -> Result<Option<Depth>, AllocError>
    ensures { IfOk result (λ found. IfSome found (λ depth.
        map (λ s. setting_fields s.name s.value) rows.now ≡ depth_rows depth)) }
{
    let Some(depth) = told_depth(rows) else {
        return Ok(None);
    };
    if are_same(rows, &settings_of(alloc, depth)?) {
        Ok(Some(depth))
    } else {
        Ok(None)
    }
}

/// How many edits can be undone. An error where the store fails, memory runs out, or the settings aren't those of a map file
/// of this format.
pub fn read_depth<S: Store>(store: &mut S, alloc: Global) -> Result<Depth, TableError>
    ensures depth { IfOk result (λ depth. IsClean (S.view store.new)
        → HasDepth (S.view store.old).trees depth) }
    ensures same { OnOk result (IsClean (S.view store.new)
        → OnlyReads (S.view store.old) (S.view store.new)) }
    ensures quiet { IsQuiet S.view S.faults S.recovers S.is_shielded store.old store.new }
{
    let rows: Vec<Setting> = read_rows(store, alloc, SETTINGS, &SettingLayout)?;
    match depth_in(alloc, rows.as_slice()) {
        Ok(Some(depth)) => Ok(depth),
        Ok(None) => Err(TableError::Unsound),
        Err(_) => Err(TableError::Store(StoreError::OutOfMemory)),
    }
}

/// Puts the settings into their table, which is empty, in the transaction that is open.
pub fn put_depth<S: Store>(store: &mut S, alloc: Global, depth: Depth) -> Result<(), StoreError>
    requires shape { IsClean (S.view store.old) → (S.view store.old).shape 6 ≡ shapes.Table }
    requires empty { IsClean (S.view store.old) → (S.view store.old).trees 6 ≡ [] }
    ensures put { OnOk result (IsClean (S.view store.new)
        → PutsRows (S.view store.old) 6 (depth_rows depth) (S.view store.new)) }
    ensures schema { KeepsSchema (S.view store.old) (S.view store.new) }
    ensures quiet { IsQuiet S.view S.faults S.recovers S.is_shielded store.old store.new }
{
    let Ok(settings) = settings_of(alloc, depth) else {
        return Err(StoreError::OutOfMemory);
    };
    let mut row = Row::new(alloc);
    append_rows(
        store,
        &mut row,
        SETTINGS,
        &SettingLayout,
        0,
        settings.as_slice(),
    )
}
