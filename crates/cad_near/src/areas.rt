//! Areas of faces that are kept.
ghost use Rattle.std.specs.Prelude.{◌≡◌, ◌≢◌, ◌+ℤ◌, Some, None, IfSome, IsTrue, false, true, is_some, FitsSigned};
ghost use Rattle.std.specs.Int.{w128};
ghost use Rattle.std.specs.List.{AllByRecursion, Contains};
ghost use Rattle.cad_rows.specs.declared.names.Face.{Face as FaceOf};
ghost use Rattle.cad_map.specs.Rings.{HasWholeRings};
ghost use Rattle.cad_near.specs.KeptAreas.{area_at, Gains, HoldsAreas, TellsGap};

use cad_map::{MapView, face_place};
use cad_rows::Face;
use cad_valid::{doubled_area_of, has_one_ring};
use indexmap::IndexMap;
use number_hash::NumberHash;
use std::alloc::Global;
use std::marker::Model;

/// Twice the areas of some faces, kept so that a long ring isn't walked to add it up again. An area
/// is what the sides of all rings of the face add up to, in doubled square millimetres: its holes
/// are taken off.
///
/// Only `keep` and `keep_of` take memory. Where that runs out, less is kept.
#[derive(Drop)]
pub struct FaceAreas {
    /// Each under the place of its face.
    areas: IndexMap<u64, i128, NumberHash>,
    /// Whether one was forgotten.
    has_gaps: bool,
}

impl Model for FaceAreas {
    ghost use Rattle.cad_near.specs.KeptAreas.{KeptAreas};

    ghost Value = { KeptAreas };

    ghost view = { λ a. record { areas = a.areas.entries; has_gaps = a.has_gaps } };
}

impl FaceAreas {
    /// Of no face. Takes no memory.
    pub fn none(alloc: Global, hash: NumberHash) -> FaceAreas
        ensures none { (f : FaceOf) → area_at result f ≡ None }
        ensures whole { result.has_gaps ≡ false }
    {
        FaceAreas {
            areas: IndexMap::with_hasher(alloc, hash),
            has_gaps: false,
        }
    }

    /// Whether the area of a face was forgotten. It is for speed alone: where none was, each long ring
    /// that had its area kept has it still, and none has to be sought.
    pub fn has_gaps(&self) -> bool
        ensures { result ≡ self.now.has_gaps }
    {
        self.has_gaps
    }

    /// The area that is kept of a face.
    pub fn get(&self, face: &Face) -> Option<i128>
        ensures { result ≡ area_at self.now face.now }
    {
        if self.areas.is_empty() {
            return None;
        }
        self.areas.get(&face_place(*face)).copied()
    }

    /// Keeps the area of a face, in the place of one that was kept, which takes no memory. Where
    /// memory runs out none is kept of the face.
    pub fn keep(&mut self, face: &Face, area: i128)
        ensures here { IfSome (area_at self.new face.now) (λ kept. kept ≡ area) }
        ensures again { IsTrue (is_some (area_at self.old face.now))
            → area_at self.new face.now ≡ Some area }
        ensures elsewhere { (f : FaceOf) → f ≢ face.now → area_at self.new f ≡ area_at self.old f }
        ensures gaps { self.new.has_gaps ≡ self.old.has_gaps }
    {
        let _ = self.areas.insert(face_place(*face), area);
    }

    /// Keeps the area of a face of a map that has one ring, where none is kept of it. It walks the
    /// ring.
    pub fn keep_of<M: MapView>(&mut self, map: &M, face: &Face)
        requires { HasWholeRings (M.map map.now) }
        ensures holds { HoldsAreas self.old (M.map map.now) → HoldsAreas self.new (M.map map.now) }
        ensures gaps { self.new.has_gaps ≡ self.old.has_gaps }
    {
        if self.get(face).is_none() && has_one_ring(map, face) {
            self.keep(face, doubled_area_of(map, face, 0));
        }
    }

    /// Keeps none of a face.
    pub fn forget(&mut self, face: &Face)
        ensures here { area_at self.new face.now ≡ None }
        ensures elsewhere { (f : FaceOf) → f ≢ face.now → area_at self.new f ≡ area_at self.old f }
        ensures gaps { self.new.has_gaps ≡ true }
    {
        self.has_gaps = true;
        if !self.areas.is_empty() {
            self.areas.swap_remove(&face_place(*face));
        }
    }

    /// Keeps none.
    pub fn clear(&mut self)
        ensures none { (f : FaceOf) → area_at self.new f ≡ None }
        ensures gaps { self.new.has_gaps ≡ true }
    {
        self.areas.clear();
        self.has_gaps = true;
    }

    /// Adds to the area of a face, if one is kept. Where the sum is too large for an `i128` none is
    /// kept of the face.
    pub fn add(&mut self, face: &Face, by: i128)
        ensures here { Gains self.old self.new face.now by }
        ensures kept { IfSome (area_at self.old face.now) (λ was. FitsSigned w128 (was +ℤ by)
            → area_at self.new face.now ≡ Some (was +ℤ by)) }
        ensures elsewhere { (f : FaceOf) → f ≢ face.now → area_at self.new f ≡ area_at self.old f }
        ensures gaps { TellsGap self.old self.new face.now }
    {
        if self.areas.is_empty() {
            return;
        }
        if let Some(area) = self.areas.get_mut(&face_place(*face)) {
            match area.checked_add(by) {
                Some(sum) => *area = sum,
                None => self.forget(face),
            }
        }
    }

    /// Whether the area of one of these faces is kept.
    pub fn keeps_any(&self, faces: &[Face]) -> bool
        ensures some { IsTrue result
            → (f : FaceOf) × Contains faces.now f × IsTrue (is_some (area_at self.now f)) }
        ensures none { result ≡ false → AllByRecursion (λ f. area_at self.now f ≡ None) faces.now }
    {
        for face in faces {
            if self.get(face).is_some() {
                return true;
            }
        }
        false
    }
}
