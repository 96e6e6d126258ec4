//! A view of a map that counts how often it is asked.
ghost use Rattle.std.specs.Prelude.{◌≡◌};

use cad_map::{Counts, MapView, Span};
use cad_rows::{
    Face, ParcelNo, ParcelRow, PointNo, PointRow, SourceNo, SourceRow, StringNo, StringRow,
};
use std::cell::Cell;

/// A view that counts the calls on another one, and those for the point, the string or the parcel at a place among all
/// that there are.
#[derive(Drop)]
pub(crate) struct Counted<'a, M: MapView> {
    inner: &'a M,
    calls: Cell<u64>,
    by_place: Cell<u64>,
    areas: Cell<u64>,
}

impl<'a, M: MapView> Counted<'a, M> {
    pub(crate) fn new(inner: &'a M) -> Counted<'a, M>
        ensures { result.inner.now ≡ inner.now }
    {
        Counted {
            inner,
            calls: Cell::new(0),
            by_place: Cell::new(0),
            areas: Cell::new(0),
        }
    }

    /// How many calls there were, how many of them by place, and how many for the area of a ring.
    pub(crate) fn counted(&self) -> (u64, u64, u64) {
        (self.calls.get(), self.by_place.get(), self.areas.get())
    }

    fn count(&self) {
        self.calls.set(self.calls.get().saturating_add(1));
    }

    fn count_by_place(&self) {
        self.by_place.set(self.by_place.get().saturating_add(1));
        self.count();
    }
}

impl<M: MapView> MapView for Counted<'_, M> {
    ghost map = { λ c. M.map c.inner.now };

    ghost rings = { λ c. M.rings c.inner.now };

    ghost view_face = { λ c side. M.view_face c.inner.now side };

    ghost view_next = { λ c side. M.view_next c.inner.now side };

    ghost view_faces = { λ c number. M.view_faces c.inner.now number };

    ghost view_strings = { λ c point. M.view_strings c.inner.now point };

    fn counts(&self) -> Counts {
        self.count();
        self.inner.counts()
    }

    fn source_at(&self, place: usize) -> Option<&SourceRow> {
        self.count();
        self.inner.source_at(place)
    }

    fn point_at(&self, place: usize) -> Option<&PointRow> {
        self.count_by_place();
        self.inner.point_at(place)
    }

    fn parcel_at(&self, place: usize) -> Option<&ParcelRow> {
        self.count_by_place();
        self.inner.parcel_at(place)
    }

    fn string_at(&self, place: usize) -> Option<&StringRow> {
        self.count_by_place();
        self.inner.string_at(place)
    }

    fn retired_at(&self, place: usize) -> Option<ParcelNo> {
        self.count();
        self.inner.retired_at(place)
    }

    fn source(&self, no: SourceNo) -> Option<&SourceRow> {
        self.count();
        self.inner.source(no)
    }

    fn point(&self, no: PointNo) -> Option<&PointRow> {
        self.count();
        self.inner.point(no)
    }

    fn parcel(&self, no: ParcelNo) -> Option<&ParcelRow> {
        self.count();
        self.inner.parcel(no)
    }

    fn string(&self, no: StringNo) -> Option<&StringRow> {
        self.count();
        self.inner.string(no)
    }

    fn is_retired(&self, no: ParcelNo) -> bool {
        self.count();
        self.inner.is_retired(no)
    }

    fn string_with(&self, point: PointNo, place: usize) -> Option<&StringRow> {
        self.count();
        self.inner.string_with(point, place)
    }

    fn span_with(&self, point: PointNo, place: usize) -> Option<Span> {
        self.count();
        self.inner.span_with(point, place)
    }

    fn side_to(&self, point: PointNo, place: usize) -> Option<(PointNo, Face)> {
        self.count();
        self.inner.side_to(point, place)
    }

    fn degree(&self, no: PointNo) -> usize {
        self.count();
        self.inner.degree(no)
    }

    fn left_right(&self, no: StringNo) -> Option<(Face, Face)> {
        self.count();
        self.inner.left_right(no)
    }

    fn face_of(&self, from: PointNo, to: PointNo) -> Option<Face> {
        self.count();
        self.inner.face_of(from, to)
    }

    fn after(&self, from: PointNo, to: PointNo) -> Option<PointNo> {
        self.count();
        self.inner.after(from, to)
    }

    fn beyond(&self, point: PointNo, place: usize) -> Option<(PointNo, PointNo)> {
        self.count();
        self.inner.beyond(point, place)
    }

    fn ring_side(&self, face: Face, place: usize) -> Option<(PointNo, PointNo)> {
        self.count();
        self.inner.ring_side(face, place)
    }

    fn ring_count(&self, face: Face) -> usize {
        self.count();
        self.inner.ring_count(face)
    }

    fn ring_area(&self, face: Face, place: usize) -> i128 {
        self.areas.set(self.areas.get().saturating_add(1));
        self.count();
        self.inner.ring_area(face, place)
    }
}
