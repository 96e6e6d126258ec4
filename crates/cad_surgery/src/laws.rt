//! What the parts of a map on half-edges have to do with the map that they stand for.
ghost use Rattle.std.specs.Prelude.{◌≡◌, false, ℕ, List, map, reverse};
ghost use Rattle.std.specs.List.{Contains};
ghost use Rattle.cad_rows.specs.declared.edits.Edit.{Edit};
ghost use Rattle.cad_rows.specs.declared.edits.Edit.TheVariants.{Divide, Merge, Enclose};
ghost use Rattle.cad_rows.specs.declared.names.Face.{Face};
ghost use Rattle.cad_rows.specs.declared.names.Face.TheVariants.{Parcel};
ghost use Rattle.cad_rings.specs.Cycle.{Ring, Corner, IsSameRing};
ghost use Rattle.cad_map.specs.declared.boundary.Boundary.{Boundary};
ghost use Rattle.cad_map.specs.Boundaries.{bounding, canonical_form};
ghost use Rattle.cad_map.specs.Division.{hole_placed};
ghost use Rattle.cad_map.specs.Effects.{after};
ghost use Rattle.cad_map.specs.Map.{Map, has_face};
ghost use Rattle.cad_map.specs.Merger.{shared_chains};
ghost use Rattle.cad_map.specs.Merger.ChainInRings.{along, around};
ghost use Rattle.cad_map.specs.Rings.{HasWholeRings};
ghost use Rattle.cad_laws.specs.Faces.{IsDividedIn, left_of_chain, right_of_chain, uncut};
ghost use Rattle.cad_laws.specs.Tried.{IsTried, AreChosen};
ghost use Rattle.map_parts.specs.Parts.{Parts, FitTogether, map_of};
ghost use Rattle.map_parts.specs.Fits.{FitRings, HasSidesOnce, with_rings};
ghost use Rattle.edit_records.specs.Exchanged.{IsExchange};
ghost use Rattle.edit_records.specs.GridEdits.{gone_by, come_by};
ghost use Rattle.map_parts.specs.Chains.{IsChainOf, IsTakenChain};
ghost use Rattle.map_parts.specs.Islands.{IsIslandOf, IsTakenIsland};
ghost use Rattle.map_parts.specs.Handing.{HaveTwoFaces};

/// Where the parts go half by half with the rings of a map whose rings are whole, they stand for
/// that map.
pub fn halves_make_the_map()
    ensures fit { (d : Parts) (bs : List Boundary) → HasWholeRings (with_rings d bs) → FitRings d bs
        → FitTogether d }
    ensures map { (d : Parts) (bs : List Boundary) → HasWholeRings (with_rings d bs) → FitRings d bs
        → map_of d ≡ with_rings d bs }
{}

/// Parts that stand for a map go half by half with its rings, if no side of a string stands twice.
pub fn the_map_makes_halves()
    ensures { (d : Parts) → FitTogether d → HasSidesOnce d → FitRings d (map_of d).boundaries }
{}

/// What an edit that is tried takes out of the grid of its map is what only the map before it has,
/// and what it puts in is what only the map after it has: the strings and points that come or go,
/// and a point that moves with its strings.
pub fn edits_exchange_entries()
    ensures { (m : Map) (e : Edit) → IsTried m e
        → IsExchange m (gone_by m e) (come_by m e) (after m e) }
{}

/// An enclosure that is tried brings an island into the face: the new parcel's ring, and its reverse
/// as a hole of the face. The new parcel is one face more, and has the holes that pass over.
pub fn enclosures_bring_islands()
    ensures island { (m : Map) (face : Face) (points strings : List ℕ) (parcel : ℕ)
        (label : List ℕ) (source : ℕ)
        → let e = Enclose face points strings parcel label source in IsTried m e
        → IsIslandOf m (after m e) face (Parcel parcel) points
        (canonical_form (bounding (Parcel parcel) points))
        (canonical_form (bounding face (reverse points)))
        (map (hole_placed m face (Parcel parcel) points) m.boundaries) }
    ensures faces { (m : Map) (face : Face) (points strings : List ℕ) (parcel : ℕ)
        (label : List ℕ) (source : ℕ)
        → let e = Enclose face points strings parcel label source in IsTried m e
        → HaveTwoFaces m (after m e) face (Parcel parcel) }
{}

/// A division that is tried brings a chain across the face: left of it is the new parcel's ring, and
/// right of it one of the face, in the place of the ring that is cut. The new parcel is one face
/// more, and has the holes that pass over.
pub fn divisions_bring_chains()
    ensures chain { (m : Map) (face : Face) (points strings : List ℕ) (parcel : ℕ)
        (label : List ℕ) (source : ℕ) (first last : Corner)
        → let e = Divide face points strings parcel label source in IsTried m e
        → AreChosen m face points first last
        → (it : IsDividedIn m (after m e) face (Parcel parcel) points first last)
        → IsChainOf m (after m e) face (Parcel parcel) points first last it.cut
        (canonical_form (bounding (Parcel parcel) (left_of_chain points first last it.cut.ring)))
        (canonical_form (bounding face (right_of_chain points first last it.cut.ring)))
        (map (hole_placed m face (Parcel parcel) (left_of_chain points first last it.cut.ring))
        (uncut m first)) }
    ensures faces { (m : Map) (face : Face) (points strings : List ℕ) (parcel : ℕ)
        (label : List ℕ) (source : ℕ)
        → let e = Divide face points strings parcel label source in IsTried m e
        → HaveTwoFaces m (after m e) face (Parcel parcel) }
{}

/// A merger along a chain that is tried takes the chain out: read from the map after it to the one
/// before, a chain comes across the kept parcel, and left of it is the ended parcel's ring. The ended
/// parcel is one face more then.
pub fn mergers_take_chains()
    ensures chain { (m : Map) (kept ended : Face) (n : ℕ) (k : Ring) (i : ℕ) (e : Ring) (j : ℕ)
        → IsTried m (Merge kept ended) → Contains (shared_chains m kept ended) (along n k i e j)
        → IsTakenChain m (after m (Merge kept ended)) kept ended n k i e j }
    ensures faces { (m : Map) (kept ended : Face) → IsTried m (Merge kept ended)
        → HaveTwoFaces (after m (Merge kept ended)) m kept ended
        × (has_face (after m (Merge kept ended)) ended ≡ false) }
{}

/// A merger round an island that is tried takes the island out, whichever of the two parcels is
/// inside the other: read from the map after it to the one before, a ring of the ended parcel comes
/// into the kept one, and the same ring back is one of the kept parcel's.
pub fn mergers_take_islands()
    ensures { (m : Map) (kept ended : Face) (points k e : Ring) → IsTried m (Merge kept ended)
        → Contains (shared_chains m kept ended) (around k e) → IsSameRing points e
        → IsTakenIsland m (after m (Merge kept ended)) kept ended points k e }
{}
