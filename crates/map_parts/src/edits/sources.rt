//! Sources that come and go, and that are attached and detached, among the rows.
ghost use Rattle.std.specs.Prelude.{◌≡◌, ◌≤◌, ◌==◌, not, filter, ◌++◌, ◌∷◌, [], None, Some, length, insert, slice_get, IsTrue, IfOk, OnOk, OnErr};
ghost use Rattle.std.specs.List.{list_any};
ghost use Rattle.cad_map.specs.Changes.{change_sources as change_sources_of, change_point, change_string, change_parcel};
ghost use Rattle.cad_map.specs.Map.{source_of, has_point, has_string, has_parcel};
ghost use Rattle.cad_map.specs.Refusals.{is_there, item_named, is_attached, sources_at};
ghost use Rattle.numbered_rows.specs.Rows.{without_row};
ghost use Rattle.cad_map.specs.MapRows.{map_in};

use cad_map::MapRows;
use cad_rows::{Item, Memory, Numbers, ParcelNo, PointNo, SourceNo, SourceRow, StringNo};
use std::alloc::Global;

/// Puts a source last. Where memory runs out the rows stay.
pub fn add_source(rows: &mut MapRows, row: SourceRow) -> Result<(), Memory>
    requires { source_of (map_in rows.old) row.number ≡ None }
    ensures ok { OnOk result (map_in rows.new ≡ record (map_in rows.old) {
      sources = (map_in rows.old).sources ++ row ∷ [];
    }) }
    ensures err { OnErr result (map_in rows.new ≡ map_in rows.old) }
{
    rows.sources.push(row)
}

/// Takes a source out. It takes no memory.
pub fn take_source(rows: &mut MapRows, source: SourceNo)
    ensures { map_in rows.new ≡ record (map_in rows.old) {
      sources = without_row (λ r. r.number) source (map_in rows.old).sources;
    } }
{
    let _ = rows.sources.take(source.get());
}

// The sources of an item.
fn sources_of(rows: &MapRows, item: Item) -> &Numbers<SourceNo>
    requires { IsTrue (is_there (map_in rows.now) (item_named item)) }
    ensures { result.now ≡ sources_at (map_in rows.now) item }
{
    match item {
        Item::Point(no) => &rows.points.get(no.get()).unwrap().sources,
        Item::String(no) => &rows.strings.get(no.get()).unwrap().sources,
        Item::Parcel(no) => &rows.parcels.get(no.get()).unwrap().sources,
    }
}

// Gives a point other sources. It takes no memory.
fn set_point_sources(rows: &mut MapRows, no: PointNo, sources: Numbers<SourceNo>)
    requires { IsTrue (has_point (map_in rows.old) no) }
    ensures { map_in rows.new
        ≡ change_point no (λ r. record r { sources = sources }) (map_in rows.old) }
{
    let (place, mut row) = rows.points.take_there(no.get());
    row.sources = sources;
    rows.points.put_at(row, place);
}

// Gives a string other sources. It takes no memory.
fn set_string_sources(rows: &mut MapRows, no: StringNo, sources: Numbers<SourceNo>)
    requires { IsTrue (has_string (map_in rows.old) no) }
    ensures { map_in rows.new
        ≡ change_string no (λ r. record r { sources = sources }) (map_in rows.old) }
{
    let (place, mut row) = rows.strings.take_there(no.get());
    row.sources = sources;
    rows.strings.put_at(row, place);
}

// Gives a parcel other sources. It takes no memory.
fn set_parcel_sources(rows: &mut MapRows, no: ParcelNo, sources: Numbers<SourceNo>)
    requires { IsTrue (has_parcel (map_in rows.old) no) }
    ensures { map_in rows.new
        ≡ change_parcel no (λ r. record r { sources = sources }) (map_in rows.old) }
{
    let (place, mut row) = rows.parcels.take_there(no.get());
    row.sources = sources;
    rows.parcels.put_at(row, place);
}

// Gives an item other sources. It takes no memory.
fn set_sources(rows: &mut MapRows, item: Item, sources: Numbers<SourceNo>)
    requires { IsTrue (is_there (map_in rows.old) (item_named item)) }
    ensures { map_in rows.new ≡ change_sources_of item (λ _. sources) (map_in rows.old) }
{
    match item {
        Item::Point(no) => set_point_sources(rows, no, sources),
        Item::String(no) => set_string_sources(rows, no, sources),
        Item::Parcel(no) => set_parcel_sources(rows, no, sources),
    }
}

/// Puts a source last in an item's list. Where memory runs out the rows stay.
pub fn attach(rows: &mut MapRows, item: &Item, source: SourceNo) -> Result<(), Memory>
    requires { IsTrue (is_there (map_in rows.old) (item_named item.now)) }
    ensures ok { OnOk result (map_in rows.new
        ≡ change_sources_of item.now (λ sources. sources ++ source ∷ []) (map_in rows.old)) }
    ensures err { OnErr result (map_in rows.new ≡ map_in rows.old) }
{
    let mut sources = sources_of(rows, *item).copy()?;
    sources.push(source)?;
    set_sources(rows, *item, sources);
    Ok(())
}

// Puts sources last in a list.
fn push_all(sources: &mut Numbers<SourceNo>, more: &[SourceNo]) -> Result<(), Memory>
    ensures { OnOk result (sources.new ≡ sources.old ++ more.now) }
{
    for source in more {
        sources.push(*source)?;
    }
    Ok(())
}

// The place of a source in a list.
fn place_of(sources: &Numbers<SourceNo>, source: SourceNo) -> usize
    requires { IsTrue (list_any (λ s. s == source) sources.now) }
    ensures { slice_get sources.now result ≡ Some source }
{
    for place in 0..sources.len() {
        let other = sources.get(place).unwrap();
        if other.get() == source.get() {
            return place;
        }
    }
    unreachable!()
}

// The sources but for one.
fn without(
    alloc: Global,
    sources: &[SourceNo],
    source: SourceNo,
) -> Result<Numbers<SourceNo>, Memory>
    ensures { IfOk result (λ made. made ≡ filter (λ s. not (s == source)) sources.now) }
{
    let mut made = Numbers::new(alloc);
    for other in sources {
        if other.get() != source.get() {
            made.push(*other)?;
        }
    }
    Ok(made)
}

// The place of a source in an item's list, and the list without it.
fn sources_without(
    rows: &MapRows,
    item: &Item,
    source: SourceNo,
) -> Result<(usize, Numbers<SourceNo>), Memory>
    requires there { IsTrue (is_there (map_in rows.now) (item_named item.now)) }
    requires attached { IsTrue (is_attached (map_in rows.now) item.now source) }
    ensures place { IfOk result
        (λ left. slice_get (sources_at (map_in rows.now) item.now) left.0 ≡ Some source) }
    ensures left { IfOk result
        (λ left. left.1 ≡ filter (λ s. not (s == source)) (sources_at (map_in rows.now) item.now)) }
{
    let sources = sources_of(rows, *item);
    let place = place_of(sources, source);
    let left = without(rows.points.allocator(), sources.as_slice(), source)?;
    Ok((place, left))
}

/// Takes a source out of an item's list, and gives its place. Where memory runs out the rows stay.
pub fn detach(rows: &mut MapRows, item: &Item, source: SourceNo) -> Result<usize, Memory>
    requires there { IsTrue (is_there (map_in rows.old) (item_named item.now)) }
    requires attached { IsTrue (is_attached (map_in rows.old) item.now source) }
    ensures place { IfOk result
        (λ place. slice_get (sources_at (map_in rows.old) item.now) place ≡ Some source) }
    ensures ok { OnOk result (map_in rows.new
        ≡ change_sources_of item.now (λ sources. filter (λ s. not (s == source)) sources)
        (map_in rows.old)) }
    ensures err { OnErr result (map_in rows.new ≡ map_in rows.old) }
{
    let (place, left) = sources_without(rows, item, source)?;
    set_sources(rows, *item, left);
    Ok(place)
}

// The sources with one more at a place.
fn with_source_at(
    alloc: Global,
    sources: &[SourceNo],
    place: usize,
    source: SourceNo,
) -> Result<Numbers<SourceNo>, Memory>
    requires { place ≤ length sources.now }
    ensures { IfOk result (λ made. made ≡ insert sources.now place source) }
{
    let mut made = Numbers::new(alloc);
    push_all(&mut made, &sources[..place])?;
    made.push(source)?;
    push_all(&mut made, &sources[place..])?;
    Ok(made)
}

// An item's list with one source more at a place.
fn sources_with(
    rows: &MapRows,
    item: &Item,
    source: SourceNo,
    place: usize,
) -> Result<Numbers<SourceNo>, Memory>
    requires there { IsTrue (is_there (map_in rows.now) (item_named item.now)) }
    requires place { place ≤ length (sources_at (map_in rows.now) item.now) }
    ensures { IfOk result
        (λ more. more ≡ insert (sources_at (map_in rows.now) item.now) place source) }
{
    let sources = sources_of(rows, *item);
    with_source_at(rows.points.allocator(), sources.as_slice(), place, source)
}

/// Puts a source into an item's list at a place. Where memory runs out the rows stay.
pub fn attach_at(
    rows: &mut MapRows,
    item: &Item,
    source: SourceNo,
    place: usize,
) -> Result<(), Memory>
    requires there { IsTrue (is_there (map_in rows.old) (item_named item.now)) }
    requires place { place ≤ length (sources_at (map_in rows.old) item.now) }
    ensures ok { OnOk result (map_in rows.new
        ≡ change_sources_of item.now (λ sources. insert sources place source) (map_in rows.old)) }
    ensures err { OnErr result (map_in rows.new ≡ map_in rows.old) }
{
    let more = sources_with(rows, item, source, place)?;
    set_sources(rows, *item, more);
    Ok(())
}
