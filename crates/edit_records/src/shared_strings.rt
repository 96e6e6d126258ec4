//! The strings that two faces share, listed along the rings of one of them.
ghost use Rattle.std.specs.Prelude.{◌≡◌, ◌<◌, ◌≤◌, ◌+◌, Some, IsTrue, length, filter, OnOk, IfOk, if◌then◌else◌};
ghost use Rattle.std.specs.List.{Contains};
ghost use Rattle.cad_rings.specs.Cycle.{Side, opposite, sides_of};
ghost use Rattle.cad_rows.specs.declared.edits.Edit.TheVariants.{Merge};
ghost use Rattle.cad_rows.specs.declared.rows.StringRow.{StringRow as StringOf};
ghost use Rattle.cad_map.specs.declared.span.Span.{Span as SpanOf};
ghost use Rattle.cad_map.specs.Map.{rings_at};
ghost use Rattle.cad_map.specs.Merger.{shared_sides};
ghost use Rattle.cad_map.specs.Rings.{ring_at};
ghost use Rattle.cad_map.specs.Spans.{span_of as span_of_row};
ghost use Rattle.cad_map.specs.Steps.{has_twin_in};
ghost use Rattle.cad_map.specs.Valid.{IsValid};
ghost use Rattle.cad_map.specs.Views.{HasSide};
ghost use Rattle.cad_laws.specs.Tried.{IsTried};
ghost use Rattle.edit_records.specs.GridEdits.{gone_by};
ghost use Rattle.edit_records.specs.GridLists.{AreEntries, LeadsBetween};

use crate::grid_lists::several_strings;
use crate::point_strings::string_at;
use crate::touched::is_behind;
use cad_map::{MapView, Span, Walk, far_end, span_of};
use cad_rows::{Face, Memory, PointNo};
use cell_grid::Entries;
use std::alloc::Global;

// The string between two points.
fn span_joining<M: MapView>(map: &M, from: PointNo, to: PointNo) -> Option<Span>
    requires { IsValid (M.map map.now) }
    ensures { (s : StringOf) → Contains (M.map map.now).strings s → LeadsBetween s (from, to)
        → result ≡ Some (span_of_row s) }
{
    for place in 0..map.degree(from) {
        let row = string_at(map, from, place);
        if far_end(row, from) == to {
            return Some(span_of(row));
        }
    }
    None
}

// Adds the string between two points, where it is wanted.
fn add_if<M: MapView>(
    spans: &mut Vec<Span>,
    map: &M,
    from: PointNo,
    to: PointNo,
    is_wanted: bool,
) -> Result<(), Memory>
    requires { IsValid (M.map map.now) }
    ensures keeps { OnOk result
        ((s : SpanOf) → Contains spans.old.items s → Contains spans.new.items s) }
    ensures string { OnOk result (IsTrue is_wanted → (s : StringOf)
        → Contains (M.map map.now).strings s → LeadsBetween s (from, to)
        → Contains spans.new.items (span_of_row s)) }
    ensures few { OnOk result
        (length spans.new.items ≤ length spans.old.items + (if is_wanted then 1 else 0)) }
{
    if is_wanted {
        if let Some(span) = span_joining(map, from, to) {
            spans.push(span)?;
        }
    }
    Ok(())
}

// Adds the strings along one of a face's rings that have another face on their other side.
fn add_ring<M: MapView>(
    spans: &mut Vec<Span>,
    map: &M,
    face: &Face,
    place: usize,
    other: &Face,
) -> Result<(), Memory>
    requires valid { IsValid (M.map map.now) }
    requires there { place < length (rings_at face.now (M.rings map.now)) }
    ensures keeps { OnOk result
        ((s : SpanOf) → Contains spans.old.items s → Contains spans.new.items s) }
    ensures strings { OnOk result ((t : Side) (s : StringOf)
        → Contains (sides_of (ring_at (M.rings map.now) face.now place)) t
        → HasSide (M.map map.now) other.now (opposite t)
        → Contains (M.map map.now).strings s → LeadsBetween s t
        → Contains spans.new.items (span_of_row s)) }
    ensures few { OnOk result (length spans.new.items ≤ length spans.old.items
        + length (filter (has_twin_in (M.map map.now) other.now)
        (sides_of (ring_at (M.rings map.now) face.now place)))) }
{
    for (from, to) in Walk::of_ring(map, face, place) {
        let is_shared = is_behind(map, other, from, to);
        add_if(spans, map, from, to, is_shared)?;
    }
    Ok(())
}

// The strings along a face's rings that have another face on their other side.
fn shared_spans<M: MapView>(
    alloc: Global,
    map: &M,
    face: &Face,
    other: &Face,
) -> Result<Vec<Span>, Memory>
    requires { IsValid (M.map map.now) }
    ensures strings { IfOk result (λ spans. (t : Side) (s : StringOf)
        → HasSide (M.map map.now) face.now t → HasSide (M.map map.now) other.now (opposite t)
        → Contains (M.map map.now).strings s → LeadsBetween s t
        → Contains spans.items (span_of_row s)) }
    ensures few { IfOk result (λ spans.
        length spans.items ≤ length (shared_sides (M.map map.now) face.now other.now)) }
{
    let mut spans = Vec::new(alloc);
    for place in 0..map.ring_count(*face) {
        add_ring(&mut spans, map, face, place, other)?;
    }
    Ok(spans)
}

/// What goes where two faces are merged: the strings that they share.
pub(crate) fn strings_shared<M: MapView>(
    alloc: Global,
    map: &M,
    kept: &Face,
    ended: &Face,
) -> Result<Entries, Memory>
    requires { IsTried (M.map map.now) (Merge kept.now ended.now) }
    ensures { IfOk result (AreEntries (gone_by (M.map map.now) (Merge kept.now ended.now))) }
{
    let spans = shared_spans(alloc, map, kept, ended)?;
    several_strings(alloc, map, spans.as_slice())
}
