//! A map kept as rows in order of entry, and its rings in canonical order.
ghost use Rattle.std.specs.Prelude.{◌≡◌, ◌≢◌, ◌≤◌, ◌++◌, ◌∷◌, [], None, length, map, IsSome, IfOk, OnOk, OnErr};
ghost use Rattle.std.specs.List.{AllByRecursion};
ghost use Rattle.cad_map.specs.Boundaries.{bounding, canonical_order, without_face};
ghost use Rattle.cad_rows.specs.declared.names.Face.TheVariants.{Parcel};
ghost use Rattle.cad_map.specs.Map.{empty_map, rings_at, source_of, point_of, parcel_of, string_of};
ghost use Rattle.numbered_rows.specs.Rows.{without_row, with_row};
ghost use Rattle.cad_map.specs.MapRows.{map_in};
ghost use Rattle.cad_map.specs.Valid.{EachPair, IsValid};

use crate::boundary::Boundary;
use crate::canonical::{arrange, in_canonical_order};
use crate::look::{self, is_face};
use crate::map_rows::{MapRows, retired_rows};
use crate::retired::Retired;
use crate::span::{Span, span_of};
use crate::store::{Counts, MapView};
use cad_rings::Ring;
use cad_rows::{
    Face, Memory, ParcelNo, ParcelRow, PointNo, PointRow, SourceNo, SourceRow, StringNo, StringRow,
};
use number_hash::NumberHash;
use numbered_rows::Rows;
use std::alloc::Global;
use std::marker::Model;

/// A map whose rows stand in tables, in order of entry. None of its calls asks for a valid map.
pub struct PlainMap {
    sources: Rows<SourceRow>,
    points: Rows<PointRow>,
    parcels: Rows<ParcelRow>,
    strings: Rows<StringRow>,
    retired: Retired,
    boundaries: Vec<Boundary>,
}

// Written out, so that a caller's end of a map is one call in its proof, and not a step a field.
impl Drop for PlainMap {
    fn drop(self) {
        let PlainMap {
            sources: _sources,
            points: _points,
            parcels: _parcels,
            strings: _strings,
            retired: _retired,
            boundaries: _boundaries,
        } = self;
    }
}

impl Model for PlainMap {
    ghost use Rattle.std.specs.Prelude.{◌≡◌, ◌≤◌, length};
    ghost use Rattle.std.specs.List.{AllByRecursion};
    ghost use Rattle.numbered_rows.specs.Rows.{rows_in};
    ghost use Rattle.cad_map.specs.Boundaries.{canonical_order};
    ghost use Rattle.cad_map.specs.Map.{Map};

    ghost Value = { Map };

    ghost view = { λ a. record {
      sources = rows_in a.sources;
      points = rows_in a.points;
      parcels = rows_in a.parcels;
      strings = rows_in a.strings;
      retired = a.retired;
      boundaries = a.boundaries.items;
    } };

    ghost invariant = { λ a. (canonical_order a.boundaries.items ≡ a.boundaries.items)
        × AllByRecursion (λ b. 2 ≤ length b.ring) a.boundaries.items };
}

impl PlainMap {
    /// The map without rows, whose tables find numbers by the fixed hash: for maps that no stranger wrote.
    pub fn empty(alloc: Global) -> PlainMap
        ensures empty { result ≡ empty_map }
        ensures valid { IsValid result }
    {
        let hash = NumberHash::fixed();
        PlainMap {
            sources: Rows::new(alloc, hash),
            points: Rows::new(alloc, hash),
            parcels: Rows::new(alloc, hash),
            strings: Rows::new(alloc, hash),
            retired: Retired::new(alloc, hash),
            boundaries: Vec::new(alloc),
        }
    }

    /// The map without rows, and with room for so many of each kind, so that its tables need not grow
    /// for them; they will find numbers by this hash.
    pub fn with_room(alloc: Global, hash: NumberHash, counts: &Counts) -> Result<PlainMap, Memory>
        ensures empty { IfOk result (λ made. made ≡ empty_map) }
    {
        Ok(PlainMap {
            sources: Rows::with_room(alloc, hash, counts.sources)?,
            points: Rows::with_room(alloc, hash, counts.points)?,
            parcels: Rows::with_room(alloc, hash, counts.parcels)?,
            strings: Rows::with_room(alloc, hash, counts.strings)?,
            retired: Retired::new(alloc, hash),
            boundaries: Vec::new(alloc),
        })
    }

    /// What the map takes its memory from.
    pub fn allocator(&self) -> Global {
        self.points.allocator()
    }

    /// How the map's tables find numbers.
    pub fn hash(&self) -> NumberHash {
        self.points.hash()
    }

    /// An equal map.
    pub fn copy(&self) -> Result<PlainMap, Memory>
        ensures { IfOk result (λ copied. copied ≡ self.now) }
    {
        Ok(PlainMap {
            sources: self.sources.copy()?,
            points: self.points.copy()?,
            parcels: self.parcels.copy()?,
            strings: self.strings.copy()?,
            retired: self.retired.copy()?,
            boundaries: copies(self.allocator(), self.boundaries.as_slice())?,
        })
    }

    /// The rows of a map, of whose retired numbers no two are the same, by themselves; its rings end. They stay where they
    /// stand: only the retired ones take memory.
    pub fn into_rows(self) -> Result<MapRows, Memory>
        requires { EachPair (λ a b. a ≢ b) self.retired }
        ensures { IfOk result (λ rows. map_in rows ≡ record self { boundaries = [] }) }
    {
        let PlainMap {
            sources,
            points,
            parcels,
            strings,
            retired,
            boundaries: _boundaries,
        } = self;
        let retired = retired_rows(points.allocator(), points.hash(), &retired)?;
        Ok(MapRows {
            sources,
            points,
            parcels,
            strings,
            retired,
        })
    }

    /// The rings of all faces, each from the point on from which it comes before its other rotations: the outside's
    /// first, then those of parcels by their numbers, and of one face in the order of their points.
    pub fn boundaries(&self) -> &[Boundary]
        ensures { result.now ≡ self.now.boundaries }
    {
        self.boundaries.as_slice()
    }

    /// The rings of a face, in the order of `boundaries`. Takes no memory. They stand together there,
    /// and are found by halving: in as many steps as the number of all rings has binary digits.
    pub fn run_of(&self, face: Face) -> &[Boundary]
        ensures { map (λ b. b.ring) result.now ≡ rings_at face self.now.boundaries }
    {
        look::run_of(self.boundaries.as_slice(), &face)
    }

    /// Puts a source last. Where memory runs out the map stays.
    pub fn put_source(&mut self, row: SourceRow) -> Result<(), Memory>
        requires { source_of self.old row.number ≡ None }
        ensures ok { OnOk result
            (self.new ≡ record self.old { sources = self.old.sources ++ row ∷ [] }) }
        ensures err { OnErr result (self.new ≡ self.old) }
    {
        self.sources.push(row)
    }

    /// Puts a point last. Where memory runs out the map stays.
    pub fn put_point(&mut self, row: PointRow) -> Result<(), Memory>
        requires { point_of self.old row.number ≡ None }
        ensures ok { OnOk result
            (self.new ≡ record self.old { points = self.old.points ++ row ∷ [] }) }
        ensures err { OnErr result (self.new ≡ self.old) }
    {
        self.points.push(row)
    }

    /// Puts a parcel last. Where memory runs out the map stays.
    pub fn put_parcel(&mut self, row: ParcelRow) -> Result<(), Memory>
        requires { parcel_of self.old row.number ≡ None }
        ensures ok { OnOk result
            (self.new ≡ record self.old { parcels = self.old.parcels ++ row ∷ [] }) }
        ensures err { OnErr result (self.new ≡ self.old) }
    {
        self.parcels.push(row)
    }

    /// Puts a string last. Where memory runs out the map stays.
    pub fn put_string(&mut self, row: StringRow) -> Result<(), Memory>
        requires { string_of self.old row.number ≡ None }
        ensures ok { OnOk result
            (self.new ≡ record self.old { strings = self.old.strings ++ row ∷ [] }) }
        ensures err { OnErr result (self.new ≡ self.old) }
    {
        self.strings.push(row)
    }

    /// Puts the number of a parcel last among those that mergers ended. Where memory runs out the map stays.
    pub fn put_retired(&mut self, no: ParcelNo) -> Result<(), Memory>
        ensures ok { OnOk result
            (self.new ≡ record self.old { retired = self.old.retired ++ no ∷ [] }) }
        ensures err { OnErr result (self.new ≡ self.old) }
    {
        self.retired.push(no)
    }

    /// Puts a point in the place of the one with its number. It takes no memory.
    pub fn set_point(&mut self, row: PointRow)
        requires { IsSome (point_of self.old row.number) }
        ensures { self.new
            ≡ record self.old { points = with_row (λ r. r.number) row self.old.points } }
    {
        let _ = self.points.replace(row);
    }

    /// Puts a parcel in the place of the one with its number. It takes no memory.
    pub fn set_parcel(&mut self, row: ParcelRow)
        requires { IsSome (parcel_of self.old row.number) }
        ensures { self.new
            ≡ record self.old { parcels = with_row (λ r. r.number) row self.old.parcels } }
    {
        let _ = self.parcels.replace(row);
    }

    /// Puts a string in the place of the one with its number. It takes no memory.
    pub fn set_string(&mut self, row: StringRow)
        requires { IsSome (string_of self.old row.number) }
        ensures { self.new
            ≡ record self.old { strings = with_row (λ r. r.number) row self.old.strings } }
    {
        let _ = self.strings.replace(row);
    }

    /// Takes the point with a number away, if there is one.
    pub fn take_point(&mut self, no: PointNo)
        ensures { self.new
            ≡ record self.old { points = without_row (λ r. r.number) no self.old.points } }
    {
        let _ = self.points.take(no.get());
    }

    /// Takes the parcel with a number away, if there is one, and its rings with it.
    pub fn take_parcel(&mut self, no: ParcelNo)
        ensures { self.new
            ≡ record self.old {
              parcels = without_row (λ r. r.number) no self.old.parcels;
              boundaries = without_face (Parcel no) self.old.boundaries;
            } }
    {
        let _ = self.parcels.take(no.get());
        drop_rings(&mut self.boundaries, &Face::Parcel(no));
    }

    /// Takes the string with a number away, if there is one.
    pub fn take_string(&mut self, no: StringNo)
        ensures { self.new
            ≡ record self.old { strings = without_row (λ r. r.number) no self.old.strings } }
    {
        let _ = self.strings.take(no.get());
    }

    /// Puts these rings in the place of those of a face, in whatever order and rotation they are given. Where memory runs out
    /// the map stays.
    pub fn set_rings(&mut self, face: Face, rings: Vec<Ring>) -> Result<(), Memory>
        ensures ok { OnOk result (self.new ≡ record self.old {
          boundaries = canonical_order
              (without_face face self.old.boundaries ++ map (bounding face) rings.items);
        }) }
        ensures err { OnErr result (self.new ≡ self.old) }
    {
        let mut given = boundaries_of(&face, rings)?;
        self.boundaries.reserve(given.len())?;
        drop_rings(&mut self.boundaries, &face);
        self.boundaries.append(&mut given).unwrap();
        arrange(&mut self.boundaries);
        Ok(())
    }

    /// Puts these rings in the place of all rings, in whatever order and rotation they are given. Takes no memory.
    pub fn set_boundaries(&mut self, boundaries: Vec<Boundary>)
        ensures { self.new ≡ record self.old { boundaries = canonical_order boundaries.items } }
    {
        self.boundaries = in_canonical_order(boundaries);
    }
}

// Takes the rings of a face out. Takes no memory.
fn drop_rings(boundaries: &mut Vec<Boundary>, face: &Face)
    ensures rings { boundaries.new.items ≡ without_face face.now boundaries.old.items }
    ensures len { boundaries.new.len ≤ boundaries.old.len }
    ensures capacity { boundaries.new.cap ≡ boundaries.old.cap }
{
    boundaries.retain(|boundary| !is_face(&boundary.face, face));
}

// These rings, with the face to their left.
fn boundaries_of(face: &Face, rings: Vec<Ring>) -> Result<Vec<Boundary>, Memory>
    ensures { IfOk result (λ made. made.items ≡ map (bounding face.now) rings.items) }
{
    let mut made = Vec::new(*rings.allocator());
    for ring in rings {
        made.push(Boundary { face: *face, ring })?;
    }
    Ok(made)
}

impl MapView for PlainMap {
    ghost use Rattle.cad_map.specs.Map.{face_at, point_after, strings_at};
    ghost use Rattle.cad_map.specs.Views.{faces_beside};

    ghost map = { λ m. m };

    ghost rings = { λ m. m.boundaries };

    ghost view_face = { λ m s. face_at m s };

    ghost view_next = { λ m s. point_after s m.boundaries };

    ghost view_faces = { λ m n. faces_beside m n };

    ghost view_strings = { λ m p. strings_at m p };

    fn counts(&self) -> Counts {
        Counts {
            sources: self.sources.len(),
            points: self.points.len(),
            parcels: self.parcels.len(),
            strings: self.strings.len(),
            retired: self.retired.len(),
        }
    }

    fn source_at(&self, place: usize) -> Option<&SourceRow> {
        self.sources.at(place)
    }

    fn point_at(&self, place: usize) -> Option<&PointRow> {
        self.points.at(place)
    }

    fn parcel_at(&self, place: usize) -> Option<&ParcelRow> {
        self.parcels.at(place)
    }

    fn string_at(&self, place: usize) -> Option<&StringRow> {
        self.strings.at(place)
    }

    fn retired_at(&self, place: usize) -> Option<ParcelNo> {
        self.retired.get(place)
    }

    fn source(&self, no: SourceNo) -> Option<&SourceRow> {
        self.sources.get(no.get())
    }

    fn point(&self, no: PointNo) -> Option<&PointRow> {
        self.points.get(no.get())
    }

    fn parcel(&self, no: ParcelNo) -> Option<&ParcelRow> {
        self.parcels.get(no.get())
    }

    fn string(&self, no: StringNo) -> Option<&StringRow> {
        self.strings.get(no.get())
    }

    fn is_retired(&self, no: ParcelNo) -> bool {
        self.retired.contains(no)
    }

    fn string_with(&self, point: PointNo, place: usize) -> Option<&StringRow> {
        look::string_with(&self.strings, point, place)
    }

    fn span_with(&self, point: PointNo, place: usize) -> Option<Span> {
        let row = self.string_with(point, place)?;
        Some(span_of(row))
    }

    fn side_to(&self, point: PointNo, place: usize) -> Option<(PointNo, Face)> {
        let row = self.string_with(point, place)?;
        let far = look::far_end(row, point);
        let face = self.face_of(far, point)?;
        Some((far, face))
    }

    fn degree(&self, no: PointNo) -> usize {
        look::strings_with(&self.strings, no)
    }

    fn left_right(&self, no: StringNo) -> Option<(Face, Face)> {
        let row = self.string(no)?;
        let left = self.face_of(row.from, row.to)?;
        let right = self.face_of(row.to, row.from)?;
        Some((left, right))
    }

    fn face_of(&self, from: PointNo, to: PointNo) -> Option<Face> {
        look::face_with(self.boundaries.as_slice(), from, to)
    }

    fn after(&self, from: PointNo, to: PointNo) -> Option<PointNo> {
        look::point_after(self.boundaries.as_slice(), from, to)
    }

    fn beyond(&self, point: PointNo, place: usize) -> Option<(PointNo, PointNo)> {
        let row = self.string_with(point, place)?;
        let far = look::far_end(row, point);
        let before = look::point_before(self.boundaries.as_slice(), far, point)?;
        let after = self.after(point, far)?;
        Some((before, after))
    }

    fn ring_side(&self, face: Face, place: usize) -> Option<(PointNo, PointNo)> {
        let ring = look::ring_at(self.boundaries.as_slice(), face, place)?;
        ring.sides().next()
    }

    fn ring_count(&self, face: Face) -> usize {
        look::rings_with(self.boundaries.as_slice(), &face)
    }

    fn ring_area(&self, face: Face, place: usize) -> i128 {
        let ring = look::ring_at(self.boundaries.as_slice(), face, place).unwrap();
        look::area_of(&self.points, ring)
    }
}

// Equal boundaries.
fn copies(alloc: Global, boundaries: &[Boundary]) -> Result<Vec<Boundary>, Memory>
    ensures { IfOk result (λ copied. copied.items ≡ boundaries.now) }
{
    let mut copied = Vec::new(alloc);
    for boundary in boundaries {
        copied.push(boundary.copy()?)?;
    }
    Ok(copied)
}
