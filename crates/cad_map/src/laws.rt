//! The laws of maps. Each function does nothing, and its contract holds for all maps.
ghost use Rattle.std.specs.Prelude.{◌≡◌, ◌≢◌, ℕ, List, map, IsPermutation};
ghost use Rattle.std.specs.List.{Contains};
ghost use Rattle.geo_exact.specs.Measure.{Measure, IsOdd};
ghost use Rattle.cad_rows.specs.declared.names.Face.{Face};
ghost use Rattle.cad_rows.specs.declared.edits.Edit.{Edit};
ghost use Rattle.cad_rows.specs.declared.edits.Edit.TheVariants.{Divide, Merge, Enclose};
ghost use Rattle.cad_rows.specs.declared.refusals.Refusal.{Refusal};
ghost use Rattle.cad_rows.specs.declared.refusals.Rule.{Rule};
ghost use Rattle.cad_map.specs.Map.{Map};
ghost use Rattle.cad_map.specs.declared.boundary.Boundary.{Boundary};
ghost use Rattle.cad_map.specs.Boundaries.{canonical_form, canonical_order, sides_in, corners_in};
ghost use Rattle.cad_map.specs.Sums.{IsBalanced, IsSharedOut, IsTakenIn};
ghost use Rattle.cad_map.specs.Valid.{IsValid, FirstBroken};
ghost use Rattle.cad_map.specs.Outcome.{LeadsTo, IsRefused};
ghost use Rattle.cad_map.specs.Merger.{ChainInRings, shared_chains, boundaries_by};
ghost use Rattle.cad_map.specs.Changes.{merge_at};

/// An edit leads to one map at most, is refused in one way at most, and never both; and a map breaks one rule first
/// at most.
pub fn one_outcome()
    ensures map { (m : Map) (e : Edit) (x y : Map) → LeadsTo m e x → LeadsTo m e y → x ≡ y }
    ensures refusal { (m : Map) (e : Edit) (r s : Refusal) → IsRefused m e r → IsRefused m e s
        → r ≡ s }
    ensures either { (m : Map) (e : Edit) (x : Map) (r : Refusal) → LeadsTo m e x
        → ¬ IsRefused m e r }
    ensures rule { (m : Map) (r s : Rule) → FirstBroken m r → FirstBroken m s → r ≡ s }
{}

/// The sums of all faces of a valid map, the outside included, add up to 0, for every measure. So the doubled areas of
/// the parcels are what the outside has, with the other sign.
pub fn faces_balance()
    ensures { (f : Measure) → IsOdd f → (m : Map) → IsValid m → IsBalanced f m }
{}

/// What an edit makes of parcels adds up, for every measure: a new parcel and what is left of the face have what the face
/// had, and the kept parcel of a merger has what both had. So it holds of doubled areas, and of the winding at every
/// location.
pub fn parcels_add_up()
    ensures divided { (f : Measure) → IsOdd f → (m new : Map) (face : Face) (chain strings : List ℕ)
        (parcel : ℕ) (label : List ℕ) (source : ℕ) → IsValid m
        → LeadsTo m (Divide face chain strings parcel label source) new
        → IsSharedOut f m face parcel new }
    ensures enclosed { (f : Measure) → IsOdd f
        → (m new : Map) (face : Face) (points strings : List ℕ)
        (parcel : ℕ) (label : List ℕ) (source : ℕ) → IsValid m
        → LeadsTo m (Enclose face points strings parcel label source) new
        → IsSharedOut f m face parcel new }
    ensures merged { (f : Measure) → IsOdd f → (m new : Map) (kept ended : Face) → IsValid m
        → LeadsTo m (Merge kept ended) new → IsTakenIn f m kept ended new }
{}

/// Boundaries have one list, however they are kept: that list is its own, and boundaries in another order have
/// the same.
pub fn one_list()
    ensures canonical_again { (bs : List Boundary)
        → canonical_order (canonical_order bs) ≡ canonical_order bs }
    ensures any_order { (bs cs : List Boundary)
        → IsPermutation (map canonical_form bs) (map canonical_form cs)
        → canonical_order bs ≡ canonical_order cs }
    ensures sides { (bs : List Boundary)
        → IsPermutation (sides_in bs) (sides_in (canonical_order bs)) }
    ensures corners { (bs : List Boundary)
        → IsPermutation (corners_in bs) (corners_in (canonical_order bs)) }
{}

/// Two parcels of a valid map have one shared chain at most: any two give the same boundaries, and by whichever is found
/// they are those of the merger.
pub fn one_shared_chain()
    ensures same { (m : Map) (kept ended : Face) (x y : ChainInRings) → IsValid m → kept ≢ ended
        → Contains (shared_chains m kept ended) x → Contains (shared_chains m kept ended) y
        → boundaries_by m kept ended x ≡ boundaries_by m kept ended y }
    ensures merged { (m : Map) (kept ended : Face) (x : ChainInRings) → IsValid m → kept ≢ ended
        → Contains (shared_chains m kept ended) x
        → merge_at m kept ended (shared_chains m kept ended) ≡ boundaries_by m kept ended x }
{}
