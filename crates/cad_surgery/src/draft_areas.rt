//! The areas of long rings, kept beside a map on half-edges.
ghost use Rattle.std.specs.Prelude.{◌≡◌, true};
ghost use Rattle.cad_map.specs.Rings.{HasWholeRings};
ghost use Rattle.cad_near.specs.KeptAreas.{HoldsAreas};
ghost use Rattle.half_table.specs.Rows.{has};
ghost use Rattle.map_parts.specs.Parts.{map_of};

use crate::draft::Draft;
use cad_map::PlainMap;
use cad_near::{FaceAreas, Touched};
use cad_rows::{Edit, Face, Memory};
use half_table::{Half, HalfTable, Tally};
use map_parts::kept_half;
use std::alloc::Global;

/// A ring of so many sides is walked each time that its area is asked for; of a longer one the area is
/// kept.
const FEW_SIDES: usize = 64;

/// The faces of a map's long rings.
pub(crate) fn faces_of_long_rings(alloc: Global, map: &PlainMap) -> Result<Vec<Face>, Memory> {
    let mut faces = Vec::new(alloc);
    for boundary in map.boundaries() {
        if boundary.ring.len() > FEW_SIDES {
            faces.push(boundary.face)?;
        }
    }
    Ok(faces)
}

// Whether more than a few sides are passed before a half comes again.
fn is_long<T: Tally>(table: &HalfTable<T>, start: Half) -> bool
    requires { has table.now.rows start ≡ true }
{
    let mut half = table.next(start);
    for _ in 0..FEW_SIDES {
        if half == start {
            return false;
        }
        half = table.next(half);
    }
    true
}

/// Keeps the areas of those of these faces that have one long ring, where none is kept.
pub(crate) fn keep_areas<T: Tally>(draft: &Draft<T>, areas: &mut FaceAreas, faces: &[Face])
    requires { HasWholeRings (map_of draft.now) }
    ensures { HoldsAreas areas.old (map_of draft.now) → HoldsAreas areas.new (map_of draft.now) }
{
    for face in faces {
        draft.keep_area(areas, *face);
    }
}

impl<T: Tally> Draft<T> {
    // Whether the first ring of a face is long.
    fn has_long_ring(&self, face: Face) -> bool {
        match kept_half(&self.kept, face, 0) {
            Some(half) => is_long(&self.table, half),
            None => false,
        }
    }

    // Keeps the area of a face that has one long ring, where none is kept of it.
    fn keep_area(&self, areas: &mut FaceAreas, face: Face)
        requires { HasWholeRings (map_of self.now) }
        ensures { HoldsAreas areas.old (map_of self.now) → HoldsAreas areas.new (map_of self.now) }
    {
        if areas.get(&face).is_none() && self.has_long_ring(face) {
            areas.keep_of(self, &face);
        }
    }

    /// Keeps the areas of long rings that an edit touched, and of which none is kept. What an edit cuts
    /// was just walked, and may be cut again: it waits for the next edit that only bends it. A move makes
    /// no ring longer.
    pub(crate) fn keep_bent(&self, areas: &mut FaceAreas, edit: &Edit, touched: &Touched)
        requires { HasWholeRings (map_of self.now) }
        ensures { HoldsAreas areas.old (map_of self.now) → HoldsAreas areas.new (map_of self.now) }
    {
        let is_wanted = match edit {
            Edit::Move { .. } => areas.has_gaps(),
            Edit::Split { .. } | Edit::Join { .. } => true,
            _ => false,
        };
        if is_wanted {
            keep_areas(self, areas, touched.faces.as_slice());
        }
    }
}
