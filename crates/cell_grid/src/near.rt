//! The search for the entries near a segment.
ghost use Rattle.std.specs.List.{Contains};
ghost use Rattle.geo_exact.specs.SignTest.{boxes_overlap};
ghost use Rattle.geo_exact.specs.Position.{OnTheMap};
ghost use Rattle.std.specs.Prelude.{◌≡◌, IsTrue, ◌<◌, ◌≤◌, ◌∷◌, ◌++◌, [], filter, IfSome, IfNone};
ghost use Rattle.std.specs.Iterator.{YieldsFirstRef, item_count};
ghost use Rattle.cell_grid.specs.declared.entry.Entry.{Entry as Segment};
ghost use Rattle.cell_grid.specs.Bounds.{bounds_of as bounds_of_box, is_near as is_near_of};
ghost use Rattle.cell_grid.specs.Cells.{IsCellSize, IsBlock};
ghost use Rattle.cell_grid.specs.Spread.{IsSpread, Stands};
ghost use Rattle.cell_grid.specs.Near.{IsScope, searched_count as searched_count_of, searched_list as searched_list_of, lists_from, IsFirstNear, IsFirstFrom};
ghost use Rattle.cell_grid.specs.Kept.{kept, AreSpread, IsHeld};

use crate::block::{Block, block_of};
use crate::bounds::{Bounds, bounds_of, is_near};
use crate::layer::Layer;
use crate::packed::PackedEntry;
use crate::segments::Segments;
use geo_exact::Pt;
use std::marker::Model;

/// The cells of a layer that the box of the segment touches. `all`: the layer has fewer lists than
/// these, and its lists are gone through in turn.
#[derive(Clone, Copy)]
pub(crate) struct Scope {
    pub block: Block,
    pub all: bool,
}

/// The cells that are looked at for a segment.
#[inline(always)]
fn scope_of(layer: &Layer, from: Pt, to: Pt) -> Scope
    requires { IsCellSize layer.now.size }
    ensures { IsScope layer.now.size from to result }
{
    let block = block_of(layer.size, from, to);
    let all = block.cell_count() > layer.lists.cell_count() as u64;
    Scope { block, all }
}

/// How many lists there are to look at.
#[inline(always)]
fn searched_count(layer: &Layer, scope: &Scope) -> usize
    requires { IsBlock scope.now.block }
    ensures { result ≡ searched_count_of layer.now.lists scope.now }
{
    if scope.all {
        layer.lists.cell_count()
    } else {
        scope.block.cell_count() as usize
    }
}

/// The list at a place among these. One of a cell that the box doesn't touch counts as empty.
#[inline(always)]
fn searched_list<'a>(layer: &'a Layer, scope: &Scope, place: usize) -> &'a [PackedEntry]
    requires block { IsBlock scope.now.block }
    requires there { place < searched_count_of layer.now.lists scope.now }
    ensures { result.now ≡ searched_list_of layer.now.lists scope.now place }
{
    if scope.all {
        let (cell, list) = layer.lists.in_turn(place);
        if scope.block.has(cell) { list } else { &[] }
    } else {
        layer.lists.at(scope.block.cell_at(place as u64))
    }
}

/// The first entry of a list that is near, and those that come after it.
#[inline(always)]
fn first_near<'a>(
    list: &'a [PackedEntry],
    bounds: &Bounds,
) -> Option<(&'a PackedEntry, &'a [PackedEntry])>
    ensures stands { IfSome result (λ r. IsFirstNear bounds.now list.now r.0.now r.1.now) }
    ensures some { IfSome result (λ r. filter (is_near_of bounds.now) list.now
        ≡ r.0.now ∷ filter (is_near_of bounds.now) r.1.now) }
    ensures none { IfNone result (filter (is_near_of bounds.now) list.now ≡ []) }
{
    for (place, entry) in list.iter().enumerate() {
        if is_near(bounds, entry) {
            return Some((entry, &list[place + 1..]));
        }
    }
    None
}

/// An entry that was found near, what comes after it in its list, and the place of the next list.
struct Found<'a> {
    entry: &'a PackedEntry,
    rest: &'a [PackedEntry],
    next: usize,
}

/// The first entry near in the lists from one place on to the last, which is at the place before
/// `end`.
#[inline(always)]
fn find_from<'a>(
    layer: &'a Layer,
    bounds: &Bounds,
    scope: &Scope,
    from: usize,
    end: usize,
) -> Option<Found<'a>>
    requires block { IsBlock scope.now.block }
    requires there { from ≤ end }
    requires end { end ≡ searched_count_of layer.now.lists scope.now }
    ensures stands { IfSome result (λ f. IsFirstFrom layer.now.lists scope.now bounds.now from
        f.entry.now f.rest.now f.next) }
    ensures within { IfSome result (λ f. f.next ≤ end) }
    ensures some { IfSome result
        (λ f. filter (is_near_of bounds.now) (lists_from layer.now.lists scope.now from)
        ≡ f.entry.now ∷ (filter (is_near_of bounds.now) f.rest.now
        ++ filter (is_near_of bounds.now) (lists_from layer.now.lists scope.now f.next))) }
    ensures none { IfNone result
        (filter (is_near_of bounds.now) (lists_from layer.now.lists scope.now from) ≡ []) }
{
    for step in from..end {
        if let Some((entry, rest)) = first_near(searched_list(layer, scope, step), bounds) {
            return Some(Found {
                entry,
                rest,
                next: step + 1,
            });
        }
    }
    None
}

/// The entries of a layer near a segment, one after another. One that stands in several cells may
/// be given several times.
#[derive(Drop)]
pub(crate) struct NearInLayer<'a> {
    layer: &'a Layer,
    bounds: Bounds,
    scope: Scope,
    // What is left of the list at hand, the place of the next one, and how many there are.
    list: &'a [PackedEntry],
    next: usize,
    end: usize,
}

impl<'a> Model for NearInLayer<'a> {
    ghost use Rattle.std.specs.Prelude.{List};
    ghost use Rattle.cell_grid.specs.declared.entry.Entry.{Entry as Segment};

    ghost Value = { List Segment };

    ghost use Rattle.cell_grid.specs.Ahead.{entries_ahead, IsUnderWay};

    ghost view = { entries_ahead };

    ghost invariant = { IsUnderWay };
}

impl<'a> NearInLayer<'a> {
    /// The search at its beginning, for a segment with these bounds. It takes no memory.
    #[inline(always)]
    fn of(layer: &'a Layer, from: Pt, to: Pt, bounds: Bounds) -> NearInLayer<'a>
        requires spread { IsSpread layer.now.size layer.now.lists }
        requires on_from { OnTheMap from }
        requires on_to { OnTheMap to }
        requires bounds { bounds ≡ bounds_of_box from to }
        ensures held { (e : Segment) → Contains result e
            → Stands layer.now.lists e × IsTrue (boxes_overlap from to e.from e.to) }
        ensures all { (e : Segment) → Stands layer.now.lists e
            → IsTrue (boxes_overlap from to e.from e.to) → Contains result e }
    {
        let scope = scope_of(layer, from, to);
        NearInLayer {
            layer,
            bounds,
            scope,
            list: &[],
            next: 0,
            end: searched_count(layer, &scope),
        }
    }
}

impl<'a> Iterator for NearInLayer<'a> {
    type Item = &'a PackedEntry;

    ghost next_gives = { YieldsFirstRef (λ w. w) };

    ghost remaining = { item_count (λ w. w) };

    #[inline(always)]
    fn next(&mut self) -> Option<&'a PackedEntry> {
        if let Some((entry, rest)) = first_near(self.list, &self.bounds) {
            self.list = rest;
            return Some(entry);
        }
        self.list = &[];
        let found = find_from(self.layer, &self.bounds, &self.scope, self.next, self.end);
        let Some(Found { entry, rest, next }) = found else {
            self.next = self.end;
            return None;
        };
        self.list = rest;
        self.next = next;
        Some(entry)
    }
}

/// The entries near a segment: those in smaller squares, then those in squares, then those in
/// lanes, then the long ones.
#[derive(Drop)]
pub(crate) struct NearEntries<'a> {
    small_squares: NearInLayer<'a>,
    squares: NearInLayer<'a>,
    lanes_east: NearInLayer<'a>,
    lanes_north: NearInLayer<'a>,
    bounds: Bounds,
    // What is left of the long ones.
    long: &'a [PackedEntry],
}

impl<'a> Model for NearEntries<'a> {
    ghost use Rattle.std.specs.Prelude.{List, ◌++◌, filter};
    ghost use Rattle.cell_grid.specs.declared.entry.Entry.{Entry as Segment};
    ghost use Rattle.cell_grid.specs.Bounds.{is_near};

    ghost Value = { List Segment };

    ghost view = { λ w. w.small_squares ++ (w.squares ++ (w.lanes_east ++ (w.lanes_north
        ++ filter (is_near w.bounds) w.long.now))) };
}

impl<'a> NearEntries<'a> {
    /// The search at its beginning. It takes no memory.
    #[inline(always)]
    pub(crate) fn of(segments: &'a Segments, from: Pt, to: Pt) -> NearEntries<'a>
        requires spread { AreSpread segments.now }
        requires on_from { OnTheMap from }
        requires on_to { OnTheMap to }
        ensures held { (e : Segment) → Contains result e
            → IsHeld (kept segments.now) e × IsTrue (boxes_overlap from to e.from e.to) }
        ensures all { (e : Segment) → IsHeld (kept segments.now) e
            → IsTrue (boxes_overlap from to e.from e.to) → Contains result e }
    {
        let bounds = bounds_of(from, to);
        NearEntries {
            small_squares: NearInLayer::of(&segments.small_squares, from, to, bounds),
            squares: NearInLayer::of(&segments.squares, from, to, bounds),
            lanes_east: NearInLayer::of(&segments.lanes_east, from, to, bounds),
            lanes_north: NearInLayer::of(&segments.lanes_north, from, to, bounds),
            bounds,
            long: segments.long.entries.as_slice(),
        }
    }
}

impl<'a> Iterator for NearEntries<'a> {
    type Item = &'a PackedEntry;

    ghost next_gives = { YieldsFirstRef (λ w. w) };

    ghost remaining = { item_count (λ w. w) };

    #[inline(always)]
    fn next(&mut self) -> Option<&'a PackedEntry> {
        if let Some(entry) = self.small_squares.next() {
            return Some(entry);
        }
        if let Some(entry) = self.squares.next() {
            return Some(entry);
        }
        if let Some(entry) = self.lanes_east.next() {
            return Some(entry);
        }
        if let Some(entry) = self.lanes_north.next() {
            return Some(entry);
        }
        let Some((entry, rest)) = first_near(self.long, &self.bounds) else {
            self.long = &[];
            return None;
        };
        self.long = rest;
        Some(entry)
    }
}
