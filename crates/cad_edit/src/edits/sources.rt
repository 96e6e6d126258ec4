//! Sources added, put to items and taken from them.
ghost use Rattle.std.specs.Prelude.{◌≡◌, None, length, [], ◌∷◌, not, filter, IfOk, ◌==◌, ◌++◌, OnOk, unwrap_or, nat_le};
ghost use Rattle.cad_map.specs.Map.{source_of};
ghost use Rattle.cad_map.specs.Changes.{change_point, change_parcel, change_sources as change_sources_of, change_string};
ghost use Rattle.std.specs.Option.{option_copied};
ghost use Rattle.cad_rows.specs.Limits.{source_limit};
ghost use Rattle.cad_map.specs.Refusals.{already_attached, not_attached, sources_at, is_attached};
ghost use Rattle.cad_edit.specs.SourceChange.{sources_after};

use cad_map::{MapView, PlainMap};
use cad_rows::{
    Edit, Item, Label, Memory, Numbers, ParcelNo, PointNo, Refusal, SOURCE_LIMIT, SourceNo,
    SourceRow, StringNo,
};
use std::alloc::Global;

/// The sources of an item that is there.
fn sources_of<M: MapView>(map: &M, item: Item) -> Option<&Numbers<SourceNo>>
    ensures { unwrap_or (option_copied result) [] ≡ sources_at (M.map map.now) item }
{
    match item {
        Item::Point(no) => {
            let row = map.point(no)?;
            Some(&row.sources)
        }
        Item::String(no) => {
            let row = map.string(no)?;
            Some(&row.sources)
        }
        Item::Parcel(no) => {
            let row = map.parcel(no)?;
            Some(&row.sources)
        }
    }
}

fn has_source<M: MapView>(map: &M, item: Item, source: SourceNo) -> bool
    ensures { result ≡ is_attached (M.map map.now) item source }
{
    match sources_of(map, item) {
        Some(sources) => sources.as_slice().iter().any(|no| no.get() == source.get()),
        None => false,
    }
}

/// The item has the source already.
pub(crate) fn already_attached_refusal<M: MapView>(map: &M, edit: &Edit) -> Option<Refusal>
    ensures { result ≡ already_attached (M.map map.now) edit.now }
{
    match edit {
        Edit::Attach { item, source } => {
            if has_source(map, *item, *source) {
                Some(Refusal::AlreadyAttached)
            } else {
                None
            }
        }
        _ => None,
    }
}

/// The item doesn't have the source.
pub(crate) fn not_attached_refusal<M: MapView>(map: &M, edit: &Edit) -> Option<Refusal>
    ensures { result ≡ not_attached (M.map map.now) edit.now }
{
    match edit {
        Edit::Detach { item, source } => {
            if has_source(map, *item, *source) {
                None
            } else {
                Some(Refusal::NotAttached)
            }
        }
        _ => None,
    }
}

pub(crate) fn has_all_sources<M: MapView>(map: &M, item: Item) -> bool
    ensures { result ≡ nat_le source_limit (length (sources_at (M.map map.now) item)) }
{
    match sources_of(map, item) {
        Some(sources) => SOURCE_LIMIT <= sources.len(),
        None => false,
    }
}

/// Puts a source last.
pub(crate) fn add_source(map: &mut PlainMap, source: SourceNo, text: &Label) -> Result<(), Memory>
    requires { source_of map.old source ≡ None }
    ensures { OnOk result (map.new
        ≡ record map.old {
          sources = map.old.sources ++ record { number = source; text = text.now } ∷ [];
        }) }
{
    let text = text.copy()?;
    map.put_source(SourceRow {
        number: source,
        text,
    })
}

/// What becomes of the sources of an item.
#[derive(Drop)]
pub(crate) enum SourceChange {
    /// The source is put last.
    Put(SourceNo),
    /// The source is left out.
    Leave(SourceNo),
}

/// The sources as a change leaves them.
fn sources_changed(
    sources: &Numbers<SourceNo>,
    change: &SourceChange,
    alloc: Global,
) -> Result<Numbers<SourceNo>, Memory>
    ensures { IfOk result (λ made. made ≡ sources_after change.now sources.now) }
{
    match change {
        SourceChange::Put(source) => {
            let mut made = sources.copy()?;
            made.push(*source)?;
            Ok(made)
        }
        SourceChange::Leave(source) => without(sources, *source, alloc),
    }
}

/// The sources but for one.
fn without(
    sources: &Numbers<SourceNo>,
    source: SourceNo,
    alloc: Global,
) -> Result<Numbers<SourceNo>, Memory>
    ensures { IfOk result (λ made. made ≡ filter (λ s. not (s == source)) sources.now) }
{
    let mut made = Numbers::new(alloc);
    for other in sources.as_slice() {
        if other.get() != source.get() {
            made.push(*other)?;
        }
    }
    Ok(made)
}

/// Changes the sources of an item.
pub(crate) fn change_sources(
    map: &mut PlainMap,
    item: Item,
    change: &SourceChange,
) -> Result<(), Memory>
    ensures { OnOk result (map.new ≡ change_sources_of item (sources_after change.now) map.old) }
{
    match item {
        Item::Point(no) => change_of_point(map, no, change),
        Item::String(no) => change_of_string(map, no, change),
        Item::Parcel(no) => change_of_parcel(map, no, change),
    }
}

fn change_of_point(map: &mut PlainMap, no: PointNo, change: &SourceChange) -> Result<(), Memory>
    ensures { OnOk result (map.new
        ≡ change_point no (λ row. record row { sources = sources_after change.now row.sources })
        map.old) }
{
    let Some(row) = map.point(no) else {
        return Ok(());
    };
    let mut row = row.copy()?;
    row.sources = sources_changed(&row.sources, change, map.allocator())?;
    map.set_point(row);
    Ok(())
}

fn change_of_string(map: &mut PlainMap, no: StringNo, change: &SourceChange) -> Result<(), Memory>
    ensures { OnOk result (map.new
        ≡ change_string no (λ row. record row { sources = sources_after change.now row.sources })
        map.old) }
{
    let Some(row) = map.string(no) else {
        return Ok(());
    };
    let mut row = row.copy()?;
    row.sources = sources_changed(&row.sources, change, map.allocator())?;
    map.set_string(row);
    Ok(())
}

fn change_of_parcel(map: &mut PlainMap, no: ParcelNo, change: &SourceChange) -> Result<(), Memory>
    ensures { OnOk result (map.new
        ≡ change_parcel no (λ row. record row { sources = sources_after change.now row.sources })
        map.old) }
{
    let Some(row) = map.parcel(no) else {
        return Ok(());
    };
    let mut row = row.copy()?;
    row.sources = sources_changed(&row.sources, change, map.allocator())?;
    map.set_parcel(row);
    Ok(())
}
