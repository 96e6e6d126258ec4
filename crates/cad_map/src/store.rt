//! Maps that can be looked at, and maps that can be edited.
ghost use Rattle.std.specs.Prelude.{◌≡◌, ℕ, ◌<◌, ◌≤◌, ◌⊎◌, List, Option, Some, length, slice_get, option_and_then, option_map, is_some, IfSome, IfNone, IfOk, IfErr, OnOk, OnErr};
ghost use Rattle.std.specs.Option.{option_copied};
ghost use Rattle.std.specs.List.{AllByRecursion};
ghost use Rattle.std.specs.List.Sorted.{IsPermutation};
ghost use Rattle.geo_exact.specs.Measure.{doubled_area};
ghost use Rattle.cad_rows.specs.declared.names.Face.{Face as FaceOf};
ghost use Rattle.cad_rows.specs.declared.rows.StringRow.{StringRow as StringOf};
ghost use Rattle.cad_rings.specs.Cycle.{Side};
ghost use Rattle.cad_map.specs.declared.boundary.Boundary.{Boundary};
ghost use Rattle.cad_map.specs.Boundaries.{canonical_order};
ghost use Rattle.cad_map.specs.Map.{Map, source_of, point_of, parcel_of, string_of, is_retired as is_retired_in, strings_at, degree as degree_of, far_end, rings_at, sum_of_ring, has_face};
ghost use Rattle.cad_map.specs.Outline.{outline_of};
ghost use Rattle.cad_map.specs.Rings.{HasWholeRings, ring_at};
ghost use Rattle.cad_map.specs.Spans.{span_of};
ghost use Rattle.cad_map.specs.Valid.{IsValid};
ghost use Rattle.cad_map.specs.Views.{HasSide, IsNoSide, ComesAfter, AreBeyond, HasFaces, HasNoFaces};
ghost use Rattle.cad_map.specs.Walk.{first_side};
ghost use Rattle.cad_map.specs.Outcome.{LeadsTo, MayRefuse};

use crate::outlines::outline;
use crate::span::Span;
use cad_rings::Ring;
use cad_rows::{
    Edit, Face, Memory, ParcelNo, ParcelRow, PointNo, PointRow, Refusal, SourceNo, SourceRow,
    StringNo, StringRow,
};
use std::alloc::Global;

/// How many rows of each kind a map has.
#[derive(Clone, Copy, PartialEq, Eq)]
pub struct Counts {
    pub sources: usize,
    pub points: usize,
    pub parcels: usize,
    pub strings: usize,
    pub retired: usize,
}

/// A map that can be looked at, however it is kept. No call but `outline` takes memory.
///
/// Where a map breaks the rules, several faces may have one side. Then `face_of`, `after` and `left_right` answer for
/// one of them, and always for the same one.
pub trait MapView {
    /// The map that it stands for.
    ghost map: { Self → Map };

    /// Its rings as it keeps them, each from some point on, in some order.
    ghost rings: { Self → List Boundary };

    /// The face that it tells of a side.
    ghost view_face: { Self → Side → Option FaceOf };

    /// The point that it tells to come after a side.
    ghost view_next: { Self → Side → Option ℕ };

    /// The faces that it tells to be on the left and on the right of the string with a number.
    ghost view_faces: { Self → ℕ → Option (FaceOf × FaceOf) };

    /// The strings of a point, in the order in which it tells them.
    ghost view_strings: { Self → ℕ → List StringOf };

    /// How many rows of each kind it has.
    fn counts(&self) -> Counts
        ensures { result ≡ record {
          sources = length (map self.now).sources;
          points = length (map self.now).points;
          parcels = length (map self.now).parcels;
          strings = length (map self.now).strings;
          retired = length (map self.now).retired;
        } };

    /// The source at a place in order of entry, and `None` past the end.
    fn source_at(&self, place: usize) -> Option<&SourceRow>
        ensures { option_copied result ≡ slice_get (map self.now).sources place };

    /// The point at a place in order of entry, and `None` past the end.
    fn point_at(&self, place: usize) -> Option<&PointRow>
        ensures { option_copied result ≡ slice_get (map self.now).points place };

    /// The parcel at a place in order of entry, and `None` past the end.
    fn parcel_at(&self, place: usize) -> Option<&ParcelRow>
        ensures { option_copied result ≡ slice_get (map self.now).parcels place };

    /// The string at a place in order of entry, and `None` past the end.
    fn string_at(&self, place: usize) -> Option<&StringRow>
        ensures { option_copied result ≡ slice_get (map self.now).strings place };

    /// The retired number at a place in order of entry, and `None` past the end.
    fn retired_at(&self, place: usize) -> Option<ParcelNo>
        ensures { result ≡ slice_get (map self.now).retired place };

    /// The source with a number.
    fn source(&self, no: SourceNo) -> Option<&SourceRow>
        ensures { option_copied result ≡ source_of (map self.now) no };

    /// The point with a number.
    fn point(&self, no: PointNo) -> Option<&PointRow>
        ensures { option_copied result ≡ point_of (map self.now) no };

    /// The parcel with a number.
    fn parcel(&self, no: ParcelNo) -> Option<&ParcelRow>
        ensures { option_copied result ≡ parcel_of (map self.now) no };

    /// The string with a number.
    fn string(&self, no: StringNo) -> Option<&StringRow>
        ensures { option_copied result ≡ string_of (map self.now) no };

    /// Whether a merger that stands ended the parcel with a number.
    fn is_retired(&self, no: ParcelNo) -> bool
        ensures { result ≡ is_retired_in (map self.now) no };

    /// The string at a place among those that have a point, and `None` past the last of them. Each
    /// has one place there; which one isn't told.
    fn string_with(&self, point: PointNo, place: usize) -> Option<&StringRow>
        ensures string { option_copied result ≡ slice_get (view_strings self.now point) place }
        // They are the point's strings, each once.
        ensures each { IsPermutation (strings_at (map self.now) point)
            (view_strings self.now point) };

    /// The number and the ends of the string at a place among those that have a point, as
    /// `string_with` tells them, and `None` past the last of them.
    fn span_with(&self, point: PointNo, place: usize) -> Option<Span>
        ensures span { result
            ≡ option_map span_of (slice_get (view_strings self.now point) place) }
        // The strings are the point's, each once.
        ensures each { IsPermutation (strings_at (map self.now) point)
            (view_strings self.now point) };

    /// The far end of the string at a place among those that have a point, as `string_with` tells them, and the face
    /// that has the side from there to the point. `None` past the last string, and where no face has that side.
    fn side_to(&self, point: PointNo, place: usize) -> Option<(PointNo, Face)>
        ensures far { IfSome result (λ side. option_map (λ s. far_end s point)
            (slice_get (view_strings self.now point) place) ≡ Some side.0) }
        ensures some { IfSome result (λ side. HasSide (map self.now) side.1 (side.0, point)) }
        ensures none { IfNone result ((s : StringOf)
            → slice_get (view_strings self.now point) place ≡ Some s
            → IsNoSide (map self.now) (far_end s point, point)) }
        // The strings are the point's, each once.
        ensures each { IsPermutation (strings_at (map self.now) point)
            (view_strings self.now point) };

    /// How many strings have a point.
    fn degree(&self, no: PointNo) -> usize
        ensures { result ≡ degree_of (map self.now) no };

    /// The faces on the left and on the right of the string with a number, and `None` where there is no such string or
    /// no ring has one of its sides.
    fn left_right(&self, no: StringNo) -> Option<(Face, Face)>
        ensures same { result ≡ view_faces self.now no }
        ensures some { IfSome result (λ faces. HasFaces (map self.now) no faces.0 faces.1) }
        ensures none { IfNone result (HasNoFaces (map self.now) no) };

    /// The face that has the side from one point to another, and `None` where none has it.
    fn face_of(&self, from: PointNo, to: PointNo) -> Option<Face>
        ensures same { result ≡ view_face self.now (from, to) }
        ensures some { IfSome result (λ face. HasSide (map self.now) face (from, to)) }
        ensures none { IfNone result (IsNoSide (map self.now) (from, to)) };

    /// The point that comes after the side from one point to another in its ring, and `None` where no ring has it.
    fn after(&self, from: PointNo, to: PointNo) -> Option<PointNo>
        ensures same { result ≡ view_next self.now (from, to) }
        ensures some { IfSome result (λ w. ComesAfter (map self.now) (from, to) w) }
        ensures none { IfNone result (IsNoSide (map self.now) (from, to)) };

    /// The points on both sides beyond the far end of the string at a place among those that have a point, as
    /// `string_with` tells them: what comes before the side from that end back to the point, and what comes after the
    /// side to it. `None` past the last string, and where one of the two sides is in no ring.
    fn beyond(&self, point: PointNo, place: usize) -> Option<(PointNo, PointNo)>
        ensures some { IfSome result (λ ends. (s : StringOf)
            × (slice_get (view_strings self.now point) place ≡ Some s)
            × AreBeyond (map self.now) point (far_end s point) ends.0 ends.1) }
        ensures none { IfNone result ((s : StringOf)
            → slice_get (view_strings self.now point) place ≡ Some s
            → IsNoSide (map self.now) (far_end s point, point)
            ⊎ IsNoSide (map self.now) (point, far_end s point)) };

    /// A side of one ring of a face, and `None` past the last of its rings. Each ring has one place; which one isn't
    /// told.
    fn ring_side(&self, face: Face, place: usize) -> Option<(PointNo, PointNo)>
        ensures side { result
            ≡ option_and_then first_side (slice_get (rings_at face (rings self.now)) place) }
        // The rings are those of the map, and each is of two points or more.
        ensures canonical_order { canonical_order (rings self.now) ≡ (map self.now).boundaries }
        ensures two { AllByRecursion (λ b. 2 ≤ length b.ring) (rings self.now) };

    /// How many rings a face has: they stand at the places before it.
    fn ring_count(&self, face: Face) -> usize
        ensures count { result ≡ length (rings_at face (rings self.now)) }
        // The rings are those of the map.
        ensures canonical_order { canonical_order (rings self.now) ≡ (map self.now).boundaries };

    /// The doubled area of a face's ring at a place, in doubled square millimetres: positive where the ring is
    /// counterclockwise.
    fn ring_area(&self, face: Face, place: usize) -> i128
        requires whole { HasWholeRings (map self.now) }
        requires there { place < length (rings_at face (rings self.now)) }
        ensures { result
            ≡ sum_of_ring doubled_area (map self.now) (ring_at (rings self.now) face place) };

    /// The rings of a face: that of positive doubled area first, which runs around it, and then the others, around its
    /// holes, in canonical order. Each is written from the point on from which it comes before its other rotations.
    /// `None` for an unknown parcel. An error where memory runs out.
    final fn outline(&self, alloc: Global, face: Face) -> Result<Option<Vec<Ring>>, Memory>
    where
        Self: Sized,
        requires valid { IsValid (map self.now) }
        ensures some { IfOk result
            (λ told. IfSome told (λ rings. rings.items ≡ outline_of (map self.now) face)) }
        ensures known { IfOk result (λ told. is_some told ≡ has_face (map self.now) face) }
    {
        outline(alloc, self, face)
    }
}

/// A map that can be edited, with a record of each edit by which it is taken back and made again.
pub trait MapStore: MapView {
    type Record: Drop;

    /// The record leads from the first map to the second and back, on whichever store.
    ghost belongs: { Self.Record → Map → Map → Type 0 };

    /// Makes an edit. A refused one leaves the map as it was.
    fn apply(&mut self, edit: &Edit) -> Result<Self::Record, Refusal>
        requires { IsValid (Self.map self.old) }
        // The outcome is that of the edit, both ways.
        ensures made { OnOk result (LeadsTo (Self.map self.old) edit.now (Self.map self.new)) }
        ensures refused { IfErr result (MayRefuse (Self.map self.old) edit.now) }

        ensures recorded { IfOk result (λ r. belongs r (Self.map self.old) (Self.map self.new)) }
        ensures err { OnErr result (Self.map self.new ≡ Self.map self.old) };

    /// Goes from the map after an edit to the map before it. Where memory runs out the map stays.
    fn back(&mut self, change: &Self::Record) -> Result<(), Memory>
        requires { (before : Map) × belongs change.now before (Self.map self.old) }
        ensures before { OnOk result ((before : Map) → belongs change.now before (Self.map self.old)
            → Self.map self.new ≡ before) }
        ensures err { OnErr result (Self.map self.new ≡ Self.map self.old) };

    /// Goes from the map before an edit to the map after it. Where memory runs out the map stays.
    fn forward(&mut self, change: &Self::Record) -> Result<(), Memory>
        requires { (after : Map) × belongs change.now (Self.map self.old) after }
        ensures after { OnOk result ((after : Map) → belongs change.now (Self.map self.old) after
            → Self.map self.new ≡ after) }
        ensures err { OnErr result (Self.map self.new ≡ Self.map self.old) };
}
