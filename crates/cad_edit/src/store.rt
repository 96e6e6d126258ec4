//! A plain map that can be edited. Its records are two whole maps.
ghost use Rattle.std.specs.Prelude.{◌≡◌};

use crate::effect::try_edit;
use cad_map::{Counts, MapStore, MapView, PlainMap, Span};
use cad_rows::{
    Edit, Face, Memory, ParcelNo, ParcelRow, PointNo, PointRow, Refusal, SourceNo, SourceRow,
    StringNo, StringRow,
};
use cad_valid::first_broken;

/// The maps before and after an edit.
#[derive(Drop)]
pub struct WholeMaps {
    before: PlainMap,
    after: PlainMap,
}

/// A plain map that can be edited.
#[derive(Drop)]
pub struct PlainStore {
    pub map: PlainMap,
}

impl MapView for PlainStore {
    ghost use Rattle.cad_map.specs.Map.{face_at, point_after, strings_at};
    ghost use Rattle.cad_map.specs.Views.{faces_beside};

    ghost map = { λ store. store.map };

    ghost rings = { λ store. store.map.boundaries };

    ghost view_face = { λ store side. face_at store.map side };

    ghost view_next = { λ store side. point_after side store.map.boundaries };

    ghost view_faces = { λ store number. faces_beside store.map number };

    ghost view_strings = { λ store point. strings_at store.map point };

    fn counts(&self) -> Counts {
        self.map.counts()
    }

    fn source_at(&self, place: usize) -> Option<&SourceRow> {
        self.map.source_at(place)
    }

    fn point_at(&self, place: usize) -> Option<&PointRow> {
        self.map.point_at(place)
    }

    fn parcel_at(&self, place: usize) -> Option<&ParcelRow> {
        self.map.parcel_at(place)
    }

    fn string_at(&self, place: usize) -> Option<&StringRow> {
        self.map.string_at(place)
    }

    fn retired_at(&self, place: usize) -> Option<ParcelNo> {
        self.map.retired_at(place)
    }

    fn source(&self, no: SourceNo) -> Option<&SourceRow> {
        self.map.source(no)
    }

    fn point(&self, no: PointNo) -> Option<&PointRow> {
        self.map.point(no)
    }

    fn parcel(&self, no: ParcelNo) -> Option<&ParcelRow> {
        self.map.parcel(no)
    }

    fn string(&self, no: StringNo) -> Option<&StringRow> {
        self.map.string(no)
    }

    fn is_retired(&self, no: ParcelNo) -> bool {
        self.map.is_retired(no)
    }

    fn string_with(&self, point: PointNo, place: usize) -> Option<&StringRow> {
        self.map.string_with(point, place)
    }

    fn span_with(&self, point: PointNo, place: usize) -> Option<Span> {
        self.map.span_with(point, place)
    }

    fn side_to(&self, point: PointNo, place: usize) -> Option<(PointNo, Face)> {
        self.map.side_to(point, place)
    }

    fn degree(&self, no: PointNo) -> usize {
        self.map.degree(no)
    }

    fn left_right(&self, no: StringNo) -> Option<(Face, Face)> {
        self.map.left_right(no)
    }

    fn face_of(&self, from: PointNo, to: PointNo) -> Option<Face> {
        self.map.face_of(from, to)
    }

    fn after(&self, from: PointNo, to: PointNo) -> Option<PointNo> {
        self.map.after(from, to)
    }

    fn beyond(&self, point: PointNo, place: usize) -> Option<(PointNo, PointNo)> {
        self.map.beyond(point, place)
    }

    fn ring_side(&self, face: Face, place: usize) -> Option<(PointNo, PointNo)> {
        self.map.ring_side(face, place)
    }

    fn ring_count(&self, face: Face) -> usize {
        self.map.ring_count(face)
    }

    fn ring_area(&self, face: Face, place: usize) -> i128 {
        self.map.ring_area(face, place)
    }
}

impl MapStore for PlainStore {
    type Record = WholeMaps;

    ghost belongs = { λ r b a. (r.before ≡ b) × (r.after ≡ a) };

    fn apply(&mut self, edit: &Edit) -> Result<WholeMaps, Refusal> {
        let made = match try_edit(&self.map, edit) {
            Ok(made) => made,
            Err(refusal) => return Err(refusal),
        };
        if let Some(rule) = first_broken(&made) {
            return Err(Refusal::Breaks(rule));
        }
        let Ok(after) = made.copy() else {
            return Err(Refusal::Memory);
        };
        let before = std::mem::replace(&mut self.map, made);
        Ok(WholeMaps { before, after })
    }

    fn back(&mut self, change: &WholeMaps) -> Result<(), Memory> {
        self.map = change.before.copy()?;
        Ok(())
    }

    fn forward(&mut self, change: &WholeMaps) -> Result<(), Memory> {
        self.map = change.after.copy()?;
        Ok(())
    }
}
