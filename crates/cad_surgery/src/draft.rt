//! A map on half-edges that is looked at, whether it keeps the rules or not.
ghost use Rattle.std.specs.Prelude.{◌≡◌, true, option_map, slice_get, IfSome, IfNone, IfOk};
ghost use Rattle.cad_map.specs.Valid.{IsValid};
ghost use Rattle.cad_map.specs.Views.{IsNoSide, AreBeyond};
ghost use Rattle.cad_map.specs.Map.{has_string};
ghost use Rattle.half_table.specs.declared.half.Half.{Half as HalfOf};
ghost use Rattle.half_table.specs.Half.{twin};
ghost use Rattle.half_table.specs.Rows.{has, origin_of};
ghost use Rattle.key_lists.specs.Held.{items_at};
ghost use Rattle.cad_laws.specs.Local.{IsShown, side_by};
ghost use Rattle.map_parts.specs.Labels.{IsAlong};
ghost use Rattle.edit_records.specs.Gridded.{IsGridOf};
ghost use Rattle.map_parts.specs.Parts.{rows_of, map_of, FitTogether};
ghost use Rattle.map_parts.specs.Views.{view_half};
ghost use Rattle.cad_surgery.specs.Spans.{span_along};

use crate::areas::area_along;
use cad_map::{Counts, MapRows, MapView, PlainMap, Span, face_place};
use cad_rows::{
    Face, Memory, ParcelNo, ParcelRow, PointNo, PointRow, SourceNo, SourceRow, StringNo, StringRow,
};
use cell_grid::CellGrid;
use edit_records::{grid_of, span_between};
use half_table::{Half, HalfTable, Tally};
use key_lists::KeyLists;
use map_parts::{
    Spoke, add_strings, far_in_star, find_half_in_star, half_at, kept_half, link_rings, star_of,
};
use std::alloc::Global;
use std::marker::Model;

/// A map whose rings are the cycles of a table of half-edges.
pub(crate) struct Draft<T: Tally> {
    pub(crate) rows: MapRows,
    pub(crate) table: HalfTable<T>,
    pub(crate) kept: KeyLists<Half>,
    pub(crate) stars: KeyLists<Spoke>,
    pub(crate) grid: CellGrid,
}

// Written out, so that the end of one is a single call in a caller's proof.
impl<T: Tally> Drop for Draft<T> {
    fn drop(self) {
        let Draft {
            rows: _rows,
            table: _table,
            kept: _kept,
            stars: _stars,
            grid: _grid,
        } = self;
    }
}

impl<T: Tally> Model for Draft<T> {
    ghost use Rattle.map_parts.specs.Parts.{Parts, FitTogether};
    ghost use Rattle.map_parts.specs.Building.{parts_of};
    ghost use Rattle.cad_map.specs.MapRows.{map_in};

    ghost Value = { Parts };

    ghost view = { λ a. parts_of (map_in a.rows) a.table a.kept a.stars a.grid };

    ghost invariant = { λ a. FitTogether (parts_of (map_in a.rows) a.table a.kept a.stars a.grid) };
}

/// The side along a half.
pub(crate) fn side<T: Tally>(table: &HalfTable<T>, half: &Half) -> (PointNo, PointNo)
    requires { has table.now.rows half.now ≡ true }
    ensures { result ≡ side_by table.now.rows half.now }
{
    let twin = table.twin(*half);
    (table.origin(*half), table.origin(twin))
}

/// So many, and an eighth more: the first edits then move no table to put a row into it.
fn and_more(rows: usize) -> usize {
    rows.saturating_add(rows / 8)
}

/// The number and the ends of the string at a place in the star of a point, and `None` past the last.
#[inline(always)]
fn span_at(stars: &KeyLists<Spoke>, point: PointNo, place: usize) -> Option<Span>
    ensures { result ≡ option_map (span_along point) (slice_get (items_at stars.now point) place) }
{
    let spoke = star_of(stars, point).get(place)?;
    Some(span_between(&spoke.half, point, spoke.far))
}

/// The spoke at a place in the star of a point, and `None` past the last.
#[inline(always)]
fn spoke_at(stars: &KeyLists<Spoke>, point: PointNo, place: usize) -> Option<Spoke>
    ensures { result ≡ slice_get (items_at stars.now point) place }
{
    let spoke = star_of(stars, point).get(place)?;
    Some(*spoke)
}

impl<T: Tally> Draft<T> {
    /// The map on half-edges of a valid map, whose rows are moved into it. It takes time by the map's
    /// rows and sides, and by the strings at the end of each side where few begin.
    pub(crate) fn of(alloc: Global, map: PlainMap, tally: T) -> Result<Draft<T>, Memory>
        requires { IsValid map }
        ensures is { IfOk result (λ made. map_of made ≡ map) }
        ensures fit { IfOk result FitTogether }
        ensures halves { IfOk result (λ made. (h : HalfOf) → has made.table.rows h ≡ has_string map h.string) }
        ensures grid { IfOk result (λ made. IsGridOf made.grid map) }
    {
        let counts = map.counts();
        let mut table = HalfTable::with_room(alloc, map.hash(), and_more(counts.strings), tally)?;
        let mut stars = KeyLists::with_room(alloc, map.hash(), and_more(counts.points))?;
        add_strings(&map, &mut table, &mut stars)?;
        let mut linking = table.open();
        let kept = link_rings(alloc, &map, &mut linking, &stars)?;
        let table = linking.close();
        let grid = grid_of(alloc, &map)?;
        let rows = map.into_rows()?;
        Ok(Draft {
            rows,
            table,
            kept,
            stars,
            grid,
        })
    }

    /// The table of half-edges.
    pub(crate) fn table(&self) -> &HalfTable<T>
        ensures is { result.now ≡ self.now.table }
        ensures fit { FitTogether self.now }
    {
        &self.table
    }

    /// The grid of strings and points.
    pub(crate) fn grid(&self) -> &CellGrid
        ensures { result.now ≡ self.now.grid }
    {
        &self.grid
    }

    /// The half along the side from one point to another, sought at the second where few halves begin
    /// there: who asks what comes after a side has mostly just looked at them.
    pub(crate) fn half(&self, from: PointNo, to: PointNo) -> Option<Half>
        ensures told { result ≡ view_half self.now (from, to) }
        ensures some { IfSome result (IsAlong (rows_of self.now) self.now.table.rows (from, to)) }
        ensures none { IfNone result (IsNoSide (map_of self.now) (from, to)) }
    {
        self.half_in(star_of(&self.stars, to), from, to)
    }

    /// As [`Draft::half`], with the star of the second point at hand.
    #[inline(always)]
    fn half_in(&self, here: &[Spoke], from: PointNo, to: PointNo) -> Option<Half>
        requires { here.now ≡ items_at self.now.stars to }
        ensures told { result ≡ view_half self.now (from, to) }
        ensures some { IfSome result (IsAlong (rows_of self.now) self.now.table.rows (from, to)) }
        ensures none { IfNone result (IsNoSide (map_of self.now) (from, to)) }
    {
        find_half_in_star(&self.stars, here, from, to)
    }

    /// The points on both sides beyond the end of a half of the map's strings: what comes before its
    /// twin, and what comes after it.
    fn ends_beyond(&self, half: &Half) -> (PointNo, PointNo)
        requires { IsShown (rows_of self.now) half.now }
        ensures { AreBeyond (map_of self.now) (origin_of self.now.table.rows half.now)
            (origin_of self.now.table.rows (twin half.now)) result.0 result.1 }
    {
        let before = self.table.prev(self.table.twin(*half));
        let after = self.table.twin(self.table.next(*half));
        (self.table.origin(before), self.table.origin(after))
    }

    /// The point where a half ends. It is sought in the star of the point where it begins, which is at
    /// hand.
    #[inline(always)]
    fn far_in(&self, point: PointNo, here: &[Spoke], half: &Half) -> PointNo
        requires there { has self.now.table.rows half.now ≡ true }
        requires star { here.now ≡ items_at self.now.stars point }
        ensures { result ≡ origin_of self.now.table.rows (twin half.now) }
    {
        match far_in_star(here, *half) {
            Some(far) => far,
            None => self.table.origin(self.table.twin(*half)),
        }
    }
}

impl<T: Tally> MapView for Draft<T> {
    ghost use Rattle.map_parts.specs.Parts.{map_of, rings_kept};
    ghost use Rattle.map_parts.specs.Views.{view_face, view_next, view_faces, view_strings};

    ghost map = { λ d. map_of d };

    ghost rings = { λ d. rings_kept d };

    ghost view_face = { λ d s. view_face d s };

    ghost view_next = { λ d s. view_next d s };

    ghost view_faces = { λ d n. view_faces d n };

    ghost view_strings = { λ d p. view_strings d p };

    fn counts(&self) -> Counts {
        Counts {
            sources: self.rows.sources.len(),
            points: self.rows.points.len(),
            parcels: self.rows.parcels.len(),
            strings: self.rows.strings.len(),
            retired: self.rows.retired.len(),
        }
    }

    fn source_at(&self, place: usize) -> Option<&SourceRow> {
        self.rows.sources.at(place)
    }

    fn point_at(&self, place: usize) -> Option<&PointRow> {
        self.rows.points.at(place)
    }

    fn parcel_at(&self, place: usize) -> Option<&ParcelRow> {
        self.rows.parcels.at(place)
    }

    fn string_at(&self, place: usize) -> Option<&StringRow> {
        self.rows.strings.at(place)
    }

    fn retired_at(&self, place: usize) -> Option<ParcelNo> {
        let row = self.rows.retired.at(place)?;
        Some(row.number)
    }

    fn source(&self, no: SourceNo) -> Option<&SourceRow> {
        self.rows.sources.get(no.get())
    }

    fn point(&self, no: PointNo) -> Option<&PointRow> {
        self.rows.points.get(no.get())
    }

    fn parcel(&self, no: ParcelNo) -> Option<&ParcelRow> {
        self.rows.parcels.get(no.get())
    }

    fn string(&self, no: StringNo) -> Option<&StringRow> {
        self.rows.strings.get(no.get())
    }

    fn is_retired(&self, no: ParcelNo) -> bool {
        self.rows.retired.has(no.get())
    }

    fn string_with(&self, point: PointNo, place: usize) -> Option<&StringRow> {
        let half = half_at(&self.stars, point, place)?;
        self.rows.strings.get(half.string.get())
    }

    #[inline(always)]
    fn span_with(&self, point: PointNo, place: usize) -> Option<Span> {
        span_at(&self.stars, point, place)
    }

    #[inline(always)]
    fn side_to(&self, point: PointNo, place: usize) -> Option<(PointNo, Face)> {
        let spoke = spoke_at(&self.stars, point, place)?;
        Some((spoke.far, self.table.face(self.table.twin(spoke.half))))
    }

    fn degree(&self, no: PointNo) -> usize {
        star_of(&self.stars, no).len()
    }

    fn left_right(&self, no: StringNo) -> Option<(Face, Face)> {
        let row = self.rows.strings.get(no.get())?;
        let forward = Half {
            string: row.number,
            forward: true,
        };
        let backward = Half {
            string: row.number,
            forward: false,
        };
        Some((self.table.face(forward), self.table.face(backward)))
    }

    fn face_of(&self, from: PointNo, to: PointNo) -> Option<Face> {
        let half = self.half(from, to)?;
        Some(self.table.face(half))
    }

    #[inline(always)]
    fn after(&self, from: PointNo, to: PointNo) -> Option<PointNo> {
        let here = star_of(&self.stars, to);
        let half = self.half_in(here, from, to)?;
        let after = self.table.next(half);
        Some(self.far_in(to, here, &after))
    }

    fn beyond(&self, point: PointNo, place: usize) -> Option<(PointNo, PointNo)> {
        let half = half_at(&self.stars, point, place)?;
        Some(self.ends_beyond(&half))
    }

    fn ring_side(&self, face: Face, place: usize) -> Option<(PointNo, PointNo)> {
        let half = kept_half(&self.kept, face, place)?;
        Some(side(&self.table, &half))
    }

    fn ring_count(&self, face: Face) -> usize {
        self.kept.at(face_place(face)).len()
    }

    fn ring_area(&self, face: Face, place: usize) -> i128 {
        let half = kept_half(&self.kept, face, place).unwrap();
        area_along(&self.rows.points, &self.table, &half)
    }
}
