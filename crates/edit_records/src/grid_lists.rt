//! What an edit takes out of a grid and puts into it, listed beside the map before it or after it.
ghost use Rattle.std.specs.Prelude.{◌≡◌, ◌<◌, ◌≤◌, ◌+◌, ◌++◌, ◌∷◌, [], ℕ, List, Some, length, slice_get, map as each_of, IsPermutation, OnOk, IfOk, if◌then◌else◌};
ghost use Rattle.geo_exact.specs.Position.{Position};
ghost use Rattle.cad_rows.specs.declared.edits.Edit.TheVariants.{AddPoint, DropPoint, Split, Join, Divide, Merge, Move, Enclose};
ghost use Rattle.cad_rows.specs.declared.names.Face.{Face};
ghost use Rattle.cad_rows.specs.declared.rows.PointRow.{PointRow};
ghost use Rattle.cad_rows.specs.declared.rows.StringRow.{StringRow};
ghost use Rattle.cad_map.specs.Chain.{start_of, strings_along};
ghost use Rattle.cad_map.specs.Changes.{by_number};
ghost use Rattle.cad_map.specs.Map.{Map, point_of, string_of, strings_at, far_end, position_of};
ghost use Rattle.cad_map.specs.Spans.{span_of};
ghost use Rattle.cad_map.specs.Valid.{IsValid};
ghost use Rattle.cad_laws.specs.Counts.{shared_strings};
ghost use Rattle.cell_grid.specs.Grid.{entry_of};
ghost use Rattle.edit_records.specs.Gridded.{string_entry, point_entry};
ghost use Rattle.edit_records.specs.GridEdits.{gone_by, come_by};
ghost use Rattle.edit_records.specs.HeldChains.{closed, rows_along};
ghost use Rattle.edit_records.specs.GridLists.{AreEntries, IsBeside, position_by as position_by_of, span_entry, span_at};

use crate::point_strings::span_at_place;
use crate::record::ChainString;
use cad_map::{MapView, Span, position};
use cad_rows::{Memory, PointNo, StringNo};
use cell_grid::Entries;
use geo_exact::Pt;
use half_table::Half;
use std::alloc::Global;

// The position of a point of the map, where this one lies at the position that is given.
fn position_by<M: MapView>(map: &M, no: PointNo, point: PointNo, at: Pt) -> Pt
    ensures { result ≡ position_by_of (M.map map.now) point at no }
{
    if no == point { at } else { position(map, no) }
}

// Adds a string, where a point lies at the position that is given.
fn add_span_by<M: MapView>(
    entries: &mut Entries,
    map: &M,
    span: Span,
    point: PointNo,
    at: Pt,
) -> Result<(), Memory>
    ensures strings { OnOk result (entries.new.strings
        ≡ entries.old.strings ++ span_entry (M.map map.now) point at span ∷ []) }
    ensures points { entries.new.points ≡ entries.old.points }
{
    let from = position_by(map, span.from, point, at);
    let to = position_by(map, span.to, point, at);
    entries.add_string(span.string, from, to)
}

/// A point alone: what comes where it is added, and goes where it is dropped.
pub(crate) fn lone_point(alloc: Global, point: PointNo, at: Pt) -> Result<Entries, Memory>
    ensures comes { IfOk result (λ l. (b : Map)
        → AreEntries (come_by b (AddPoint point at.x at.y)) l) }
    ensures goes { IfOk result (λ l. (b : Map) (row : PointRow) → IsValid b
        → point_of b point ≡ Some row → row.position ≡ at
        → AreEntries (gone_by b (DropPoint point)) l) }
{
    let mut entries = Entries::new(alloc);
    entries.add_point(point, at)?;
    Ok(entries)
}

/// A string alone, where a point lies at the position that is given: what goes where it is split at
/// that point, and comes where two are joined that met there.
pub(crate) fn lone_string<M: MapView>(
    alloc: Global,
    map: &M,
    span: Span,
    point: PointNo,
    at: Pt,
) -> Result<Entries, Memory>
    ensures splits { IfOk result (λ l. (b : Map) (row : StringRow) (first second : ℕ)
        → let e = Split span.string point at.x at.y first second in
        IsBeside (M.map map.now) b e → string_of b span.string ≡ Some row → span ≡ span_of row
        → AreEntries (gone_by b e) l) }
    ensures joins { IfOk result (λ l. (b : Map) (first second : StringRow)
        → IsBeside (M.map map.now) b (Join point span.string)
        → by_number (strings_at b point) ≡ first ∷ second ∷ []
        → span.from ≡ far_end first point → span.to ≡ far_end second point
        → AreEntries (come_by b (Join point span.string)) l) }
{
    let mut entries = Entries::new(alloc);
    add_span_by(&mut entries, map, span, point, at)?;
    Ok(entries)
}

/// Two strings and the point where they meet, which lies at the position that is given: what comes
/// where one is split there, and goes where they are joined.
pub(crate) fn two_strings<M: MapView>(
    alloc: Global,
    map: &M,
    first: Span,
    second: Span,
    point: PointNo,
    at: Pt,
) -> Result<Entries, Memory>
    ensures splits { IfOk result (λ l. (b : Map) (row : StringRow)
        → let e = Split row.number point at.x at.y first.string second.string in
        IsBeside (M.map map.now) b e → string_of b row.number ≡ Some row
        → first.from ≡ row.from → first.to ≡ point → second.from ≡ point → second.to ≡ row.to
        → AreEntries (come_by b e) l) }
    ensures joins { IfOk result (λ l. (b : Map) (row : PointRow) (s t : StringRow) (new : ℕ)
        → IsBeside (M.map map.now) b (Join point new)
        → by_number (strings_at b point) ≡ s ∷ t ∷ [] → first ≡ span_of s → second ≡ span_of t
        → point_of b point ≡ Some row → row.position ≡ at
        → AreEntries (gone_by b (Join point new)) l) }
{
    let mut entries = Entries::new(alloc);
    add_span_by(&mut entries, map, first, point, at)?;
    add_span_by(&mut entries, map, second, point, at)?;
    entries.add_point(point, at)?;
    Ok(entries)
}

// The strings of a point, where it lies at the position that is given.
fn strings_by<M: MapView>(alloc: Global, map: &M, point: PointNo, at: Pt) -> Result<Entries, Memory>
    ensures strings { IfOk result (λ l. IsPermutation
        (each_of (span_at (M.map map.now) point at) (strings_at (M.map map.now) point)) l.strings) }
    ensures points { IfOk result (λ l. l.points ≡ []) }
{
    let mut entries = Entries::new(alloc);
    for place in 0..map.degree(point) {
        let span = span_at_place(map, point, place);
        add_span_by(&mut entries, map, span, point, at)?;
    }
    Ok(entries)
}

/// A point and its strings, where it lies at the position that is given: what goes where it moves
/// from there, and comes where it moves there. What goes where its two strings are joined, too.
pub(crate) fn point_with_strings<M: MapView>(
    alloc: Global,
    map: &M,
    point: PointNo,
    at: Pt,
) -> Result<Entries, Memory>
    ensures goes { IfOk result (λ l. (b : Map) (row : PointRow) (to : Position)
        → let e = Move point to.x to.y in IsBeside (M.map map.now) b e
        → point_of b point ≡ Some row → row.position ≡ at → AreEntries (gone_by b e) l) }
    ensures comes { IfOk result (λ l. (b : Map)
        → let e = Move point at.x at.y in IsBeside (M.map map.now) b e
        → AreEntries (come_by b e) l) }
    ensures joins { IfOk result (λ l. (row : PointRow) (new : ℕ) → IsValid (M.map map.now)
        → point_of (M.map map.now) point ≡ Some row → row.position ≡ at
        → AreEntries (gone_by (M.map map.now) (Join point new)) l) }
{
    let mut entries = strings_by(alloc, map, point, at)?;
    entries.add_point(point, at)?;
    Ok(entries)
}

/// Strings of a map: what goes where two faces are merged that share them.
pub(crate) fn several_strings<M: MapView>(
    alloc: Global,
    map: &M,
    spans: &[Span],
) -> Result<Entries, Memory>
    ensures { IfOk result (λ l. (b : Map) (kept ended : Face)
        → IsBeside (M.map map.now) b (Merge kept ended)
        → IsPermutation (each_of span_of (shared_strings b kept ended)) spans.now
        → AreEntries (gone_by b (Merge kept ended)) l) }
{
    let mut entries = Entries::new(alloc);
    for span in spans {
        let from = position(map, span.from);
        let to = position(map, span.to);
        entries.add_string(span.string, from, to)?;
    }
    Ok(entries)
}

// The point after a place of a chain, and after the last the first one.
fn point_after(chain: &[PointNo], place: usize) -> PointNo
    requires { place < length chain.now }
    ensures { slice_get (chain.now ++ start_of chain.now ∷ []) (place + 1) ≡ Some result }
{
    if place + 1 < chain.len() {
        chain[place + 1]
    } else {
        chain[0]
    }
}

/// Strings along a chain of points, or, where they are as many as the points, round it: what comes
/// where a face is divided by them, or they enclose a parcel.
pub(crate) fn strings_of_chain<M: MapView>(
    alloc: Global,
    map: &M,
    strings: &[StringNo],
    chain: &[PointNo],
) -> Result<Entries, Memory>
    requires { length strings.now ≤ length chain.now }
    ensures divides { IfOk result (λ l. (b : Map) (face : Face) (parcel : ℕ) (label : List ℕ)
        (source : ℕ) → let e = Divide face chain.now strings.now parcel label source in
        IsBeside (M.map map.now) b e → AreEntries (come_by b e) l) }
    ensures encloses { IfOk result (λ l. (b : Map) (face : Face) (parcel : ℕ) (label : List ℕ)
        (source : ℕ) → let e = Enclose face chain.now strings.now parcel label source in
        IsBeside (M.map map.now) b e → AreEntries (come_by b e) l) }
{
    let mut entries = Entries::new(alloc);
    for place in 0..strings.len() {
        let from = position(map, chain[place]);
        let to = position(map, point_after(chain, place));
        entries.add_string(strings[place], from, to)?;
    }
    Ok(entries)
}

/// The string along a half between two points, the first of them where it begins.
pub fn span_between(half: &Half, from: PointNo, to: PointNo) -> Span
    ensures { result ≡ record {
      string = half.now.string;
      from = if half.now.forward then from else to;
      to = if half.now.forward then to else from;
    } }
{
    if half.forward {
        Span {
            string: half.string,
            from,
            to,
        }
    } else {
        Span {
            string: half.string,
            from: to,
            to: from,
        }
    }
}

// Strings along a chain of points, or, where they are as many as the points, round it.
fn spans_along(
    alloc: Global,
    strings: &[ChainString],
    chain: &[PointNo],
) -> Result<Vec<Span>, Memory>
    requires { length strings.now ≤ length chain.now }
    ensures { IfOk result (λ spans. spans.items
        ≡ each_of span_of (rows_along strings.now (closed chain.now))) }
{
    let mut spans = Vec::new(alloc);
    for place in 0..strings.len() {
        let to = point_after(chain, place);
        let span = span_between(&strings[place].half, chain[place], to);
        spans.push(span)?;
    }
    Ok(spans)
}

/// Strings along a chain of points, or round it, that two faces share: what goes where they are
/// merged.
pub(crate) fn strings_between<M: MapView>(
    alloc: Global,
    map: &M,
    strings: &[ChainString],
    chain: &[PointNo],
) -> Result<Entries, Memory>
    requires { length strings.now ≤ length chain.now }
    ensures { IfOk result (λ l. (b : Map) (kept ended : Face)
        → IsBeside (M.map map.now) b (Merge kept ended)
        → IsPermutation (rows_along strings.now (closed chain.now)) (shared_strings b kept ended)
        → AreEntries (gone_by b (Merge kept ended)) l) }
{
    let spans = spans_along(alloc, strings, chain)?;
    several_strings(alloc, map, spans.as_slice())
}
