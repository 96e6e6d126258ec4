//! Whole maps copied from any view.
ghost use Rattle.std.specs.Prelude.{◌≡◌, ◌++◌, [], map as map_of, IfOk, OnOk, IsTrue};
ghost use Rattle.cad_map.specs.Boundaries.{bounding, canonical_order};
ghost use Rattle.cad_map.specs.Map.{has_face};
ghost use Rattle.cad_map.specs.Outline.{outline_of};
ghost use Rattle.cad_map.specs.Valid.{IsValid};

use crate::boundary::Boundary;
use crate::outlines::outline;
use crate::plain::PlainMap;
use crate::store::MapView;
use cad_rows::{Face, Memory};
use std::alloc::Global;

impl PlainMap {
    /// The map that a view stands for. An error where memory runs out.
    pub fn of_view<M: MapView>(alloc: Global, view: &M) -> Result<PlainMap, Memory>
        requires { IsValid (M.map view.now) }
        ensures { IfOk result (λ made. made ≡ M.map view.now) }
    {
        let mut made = PlainMap::empty(alloc);
        copy_sources(&mut made, view)?;
        copy_points(&mut made, view)?;
        copy_parcels(&mut made, view)?;
        copy_strings(&mut made, view)?;
        copy_retired(&mut made, view)?;
        made.set_boundaries(all_rings(alloc, view)?);
        Ok(made)
    }
}

// Puts the sources of the view into a map without sources.
#[tactic(auto, using(crate::proofs::Lists::Entries::put_in_turn))]
fn copy_sources<M: MapView>(made: &mut PlainMap, view: &M) -> Result<(), Memory>
    requires valid { IsValid (M.map view.now) }
    requires none { made.old.sources ≡ [] }
    ensures { OnOk result (made.new ≡ record made.old { sources = (M.map view.now).sources }) }
{
    for place in 0..view.counts().sources {
        let row = view.source_at(place).unwrap();
        made.put_source(row.copy()?)?;
    }
    Ok(())
}

// Puts the points of the view into a map without points.
#[tactic(auto, using(crate::proofs::Lists::Entries::put_in_turn))]
fn copy_points<M: MapView>(made: &mut PlainMap, view: &M) -> Result<(), Memory>
    requires valid { IsValid (M.map view.now) }
    requires none { made.old.points ≡ [] }
    ensures { OnOk result (made.new ≡ record made.old { points = (M.map view.now).points }) }
{
    for place in 0..view.counts().points {
        let row = view.point_at(place).unwrap();
        made.put_point(row.copy()?)?;
    }
    Ok(())
}

// Puts the parcels of the view into a map without parcels.
#[tactic(auto, using(crate::proofs::Lists::Entries::put_in_turn))]
fn copy_parcels<M: MapView>(made: &mut PlainMap, view: &M) -> Result<(), Memory>
    requires valid { IsValid (M.map view.now) }
    requires none { made.old.parcels ≡ [] }
    ensures { OnOk result (made.new ≡ record made.old { parcels = (M.map view.now).parcels }) }
{
    for place in 0..view.counts().parcels {
        let row = view.parcel_at(place).unwrap();
        made.put_parcel(row.copy()?)?;
    }
    Ok(())
}

// Puts the strings of the view into a map without strings.
#[tactic(auto, using(crate::proofs::Lists::Entries::put_in_turn))]
fn copy_strings<M: MapView>(made: &mut PlainMap, view: &M) -> Result<(), Memory>
    requires valid { IsValid (M.map view.now) }
    requires none { made.old.strings ≡ [] }
    ensures { OnOk result (made.new ≡ record made.old { strings = (M.map view.now).strings }) }
{
    for place in 0..view.counts().strings {
        let row = view.string_at(place).unwrap();
        made.put_string(row.copy()?)?;
    }
    Ok(())
}

// Puts the retired numbers of the view into a map without any.
fn copy_retired<M: MapView>(made: &mut PlainMap, view: &M) -> Result<(), Memory>
    requires { made.old.retired ≡ [] }
    ensures { OnOk result (made.new ≡ record made.old { retired = (M.map view.now).retired }) }
{
    for place in 0..view.counts().retired {
        let number = view.retired_at(place).unwrap();
        made.put_retired(number)?;
    }
    Ok(())
}

// The rings of all faces, face by face.
fn all_rings<M: MapView>(alloc: Global, view: &M) -> Result<Vec<Boundary>, Memory>
    requires { IsValid (M.map view.now) }
    ensures { IfOk result
        (λ boundaries. canonical_order boundaries.items ≡ (M.map view.now).boundaries) }
{
    let mut boundaries = Vec::new(alloc);
    append_outline(&mut boundaries, view, Face::Outside)?;
    for place in 0..view.counts().parcels {
        let parcel = view.parcel_at(place).unwrap();
        append_outline(&mut boundaries, view, Face::Parcel(parcel.number))?;
    }
    Ok(boundaries)
}

// Appends the rings of a face.
fn append_outline<M: MapView>(
    boundaries: &mut Vec<Boundary>,
    view: &M,
    face: Face,
) -> Result<(), Memory>
    requires valid { IsValid (M.map view.now) }
    requires there { IsTrue (has_face (M.map view.now) face) }
    ensures { OnOk result (boundaries.new.items
        ≡ boundaries.old.items ++ map_of (bounding face) (outline_of (M.map view.now) face)) }
{
    let rings = outline(*boundaries.allocator(), view, face)?.unwrap();
    for ring in rings {
        boundaries.push(Boundary { face, ring })?;
    }
    Ok(())
}
