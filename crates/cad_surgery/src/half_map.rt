//! A map on half-edges.
ghost use Rattle.std.specs.Prelude.{◌≡◌, IfOk};
ghost use Rattle.cad_map.specs.Valid.{IsValid};
ghost use Rattle.cad_near.specs.Near.{HoldsMap};
ghost use Rattle.edit_records.specs.Gridded.{IsGridOf};
ghost use Rattle.map_parts.specs.Parts.{map_of, kept_at};
ghost use Rattle.cad_surgery.specs.Proper.{IsProper};

use crate::draft::Draft;
use crate::draft_areas::{faces_of_long_rings, keep_areas};
use cad_map::{Counts, MapView, PlainMap, Span};
use cad_near::FaceAreas;
use cad_rows::{
    Face, Memory, ParcelNo, ParcelRow, PointNo, PointRow, SourceNo, SourceRow, StringNo, StringRow,
};
use cell_grid::CellGrid;
use half_table::{HalfTable, Tally};
use std::alloc::Global;
use std::marker::Model;

/// A map whose rings are the cycles of a table of half-edges: what follows a side, and the face that
/// has it, are read off the table. Beside the table it keeps the rows, one half of each ring, the
/// halves that begin at each point, and a grid of its strings and points.
#[derive(Drop)]
pub struct HalfMap<T: Tally> {
    pub(crate) draft: Draft<T>,
    /// The areas of its long rings, as far as there was memory to keep them.
    pub(crate) areas: FaceAreas,
    /// What was read ahead last. Nothing is told by it.
    pub(crate) ahead: u64,
}

impl<T: Tally> Model for HalfMap<T> {
    ghost use Rattle.map_parts.specs.Parts.{Parts};
    ghost use Rattle.cad_surgery.specs.AtRest.{IsWhole};

    ghost Value = { Parts };

    ghost view = { λ a. a.draft };

    ghost invariant = { λ a. IsWhole a.draft a.areas };
}

impl<T: Tally> HalfMap<T> {
    /// The map on half-edges of a valid map; the tally counts the work on its table. It takes time
    /// by the map's rows and sides, and by the strings at the end of each side where few begin.
    pub fn of(alloc: Global, map: &PlainMap, tally: T) -> Result<HalfMap<T>, Memory>
        requires { IsValid map.now }
        ensures is { IfOk result (λ made. map_of made ≡ map.now) }
        ensures proper { IfOk result (λ made. IsProper map.now made.table.rows (kept_at made)) }
    {
        HalfMap::from_map(alloc, map.copy()?, tally)
    }

    /// As [`of`](HalfMap::of), of a map that ends: its rows are moved and not copied, each kind's
    /// table ends when they are, and so the two maps never stand whole beside each other.
    pub fn from_map(alloc: Global, map: PlainMap, tally: T) -> Result<HalfMap<T>, Memory>
        requires { IsValid map }
        ensures is { IfOk result (λ made. map_of made ≡ map) }
        ensures proper { IfOk result (λ made. IsProper map made.table.rows (kept_at made)) }
    {
        let hash = map.hash();
        let long = faces_of_long_rings(alloc, &map)?;
        let draft = Draft::of(alloc, map, tally)?;
        let mut areas = FaceAreas::none(alloc, hash);
        keep_areas(&draft, &mut areas, long.as_slice());
        Ok(HalfMap {
            draft,
            areas,
            ahead: 0,
        })
    }

    /// The doubly connected edge list of the map. It takes no memory.
    pub fn table(&self) -> &HalfTable<T>
        ensures is { result.now ≡ self.now.table }
        ensures proper { IsProper (map_of self.now) result.now.rows (kept_at self.now) }
    {
        self.draft.table()
    }

    /// The grid of the map's strings and points, in squares of 131 metres and in smaller ones, and in
    /// lanes: it holds just these, at their positions. It takes no memory.
    pub fn grid(&self) -> &CellGrid
        ensures is { result.now ≡ self.now.grid }
        ensures just { IsGridOf result.now (map_of self.now) }
        ensures held { HoldsMap result.now (map_of self.now) }
    {
        self.draft.grid()
    }
}

impl<T: Tally> MapView for HalfMap<T> {
    ghost use Rattle.map_parts.specs.Parts.{map_of, rings_kept};
    ghost use Rattle.map_parts.specs.Views.{view_face, view_next, view_faces, view_strings};

    ghost map = { λ d. map_of d };

    ghost rings = { λ d. rings_kept d };

    ghost view_face = { λ d s. view_face d s };

    ghost view_next = { λ d s. view_next d s };

    ghost view_faces = { λ d n. view_faces d n };

    ghost view_strings = { λ d p. view_strings d p };

    fn counts(&self) -> Counts {
        self.draft.counts()
    }

    fn source_at(&self, place: usize) -> Option<&SourceRow> {
        self.draft.source_at(place)
    }

    fn point_at(&self, place: usize) -> Option<&PointRow> {
        self.draft.point_at(place)
    }

    fn parcel_at(&self, place: usize) -> Option<&ParcelRow> {
        self.draft.parcel_at(place)
    }

    fn string_at(&self, place: usize) -> Option<&StringRow> {
        self.draft.string_at(place)
    }

    fn retired_at(&self, place: usize) -> Option<ParcelNo> {
        self.draft.retired_at(place)
    }

    fn source(&self, no: SourceNo) -> Option<&SourceRow> {
        self.draft.source(no)
    }

    fn point(&self, no: PointNo) -> Option<&PointRow> {
        self.draft.point(no)
    }

    fn parcel(&self, no: ParcelNo) -> Option<&ParcelRow> {
        self.draft.parcel(no)
    }

    fn string(&self, no: StringNo) -> Option<&StringRow> {
        self.draft.string(no)
    }

    fn is_retired(&self, no: ParcelNo) -> bool {
        self.draft.is_retired(no)
    }

    fn string_with(&self, point: PointNo, place: usize) -> Option<&StringRow> {
        self.draft.string_with(point, place)
    }

    fn span_with(&self, point: PointNo, place: usize) -> Option<Span> {
        self.draft.span_with(point, place)
    }

    fn side_to(&self, point: PointNo, place: usize) -> Option<(PointNo, Face)> {
        self.draft.side_to(point, place)
    }

    fn degree(&self, no: PointNo) -> usize {
        self.draft.degree(no)
    }

    fn left_right(&self, no: StringNo) -> Option<(Face, Face)> {
        self.draft.left_right(no)
    }

    fn face_of(&self, from: PointNo, to: PointNo) -> Option<Face> {
        self.draft.face_of(from, to)
    }

    fn after(&self, from: PointNo, to: PointNo) -> Option<PointNo> {
        self.draft.after(from, to)
    }

    fn beyond(&self, point: PointNo, place: usize) -> Option<(PointNo, PointNo)> {
        self.draft.beyond(point, place)
    }

    fn ring_side(&self, face: Face, place: usize) -> Option<(PointNo, PointNo)> {
        self.draft.ring_side(face, place)
    }

    fn ring_count(&self, face: Face) -> usize {
        self.draft.ring_count(face)
    }

    fn ring_area(&self, face: Face, place: usize) -> i128 {
        self.draft.ring_area(face, place)
    }
}
