//! The laws of edits. Each function does nothing, and its contract holds for all maps. A store
//! that keeps rings as half-edges reads from them which half's next changes, which face each half
//! has, and which rings pass over.
ghost use Rattle.std.specs.Prelude.{◌≡◌, ◌≢◌, ℕ, ℤ, ◌≤◌, ◌+◌, ◌*◌, ◌+ℤ◌, List, [], ◌∷◌, length, Some, reverse};
ghost use Rattle.std.specs.List.{Contains};
ghost use Rattle.geo_exact.specs.Measure.{doubled_area};
ghost use Rattle.geo_exact.specs.Position.{Position};
ghost use Rattle.cad_rows.specs.declared.edits.Edit.{Edit};
ghost use Rattle.cad_rows.specs.declared.edits.Edit.TheVariants.{Split, Join, Divide, Merge, Enclose};
ghost use Rattle.cad_rows.specs.declared.names.Face.{Face};
ghost use Rattle.cad_rows.specs.declared.names.Face.TheVariants.{Parcel};
ghost use Rattle.cad_rows.specs.declared.refusals.Rule.TheVariants.{V4};
ghost use Rattle.cad_rows.specs.declared.rows.StringRow.{StringRow};
ghost use Rattle.cad_rings.specs.Cycle.{Ring, Corner, has_side};
ghost use Rattle.cad_map.specs.Changes.{by_number};
ghost use Rattle.cad_map.specs.Costs.{rows_changed, rings_moved, sources_removed, sides_changed, weight_bound, work_bound};
ghost use Rattle.cad_map.specs.Effects.{after};
ghost use Rattle.cad_map.specs.Map.{Map, string_of, face_sides, far_end, strings_at, sum_of_face};
ghost use Rattle.cad_map.specs.Merger.{ChainInRings, shared_chains, shared_sides, boundaries_by};
ghost use Rattle.cad_map.specs.Rings.{HasWholeRings};
ghost use Rattle.cad_map.specs.Touched.{Touched, GoesStraight, IsTouched};
ghost use Rattle.cad_map.specs.Valid.{HasTwoEnds, IsValid, FirstBroken};
ghost use Rattle.half_table.specs.declared.half.Half.{Half};
ghost use Rattle.half_table.specs.Rows.{HalfRows};
ghost use Rattle.cad_laws.specs.Areas.{bend_beside, ended_by, HasPointAt, swept_beside, sum_of_strings};
ghost use Rattle.cad_laws.specs.Tried.{IsTried, AreChosen};
ghost use Rattle.cad_laws.specs.Parting.{IsParted, HasIsland, IsMergedBy};
ghost use Rattle.cad_laws.specs.Faces.{HasPlaced, IsDividedIn, IsMergedIn};
ghost use Rattle.cad_laws.specs.Joining.{AreNotJoined, IsJoinedAt, FarEndsAreApart};
ghost use Rattle.cad_laws.specs.Local.{IsShown, IsLocal, BeginAtEnds, side_by};
ghost use Rattle.cad_laws.specs.Touching.{touched_by};
ghost use Rattle.cad_laws.specs.Counts.{rows_by, sources_by, sides_by, rings_by, shared_strings};
ghost use Rattle.cad_laws.specs.Tables.{GoesOnParted, GoesOnWhole, GoesOnWith, GoesOnWithout, GoesOnJoined, GoesOnSplit};

/// A division that is tried parts the two chosen corners in two each, brings the chain's corners
/// both ways, and leaves every other corner as it is. Of the one ring that has both corners two
/// are made: what is left of the chain is the new parcel's, and so are the holes inside it; every
/// other ring keeps its face. The map after it may break a rule.
pub fn divided()
    ensures corners { (m : Map) (face : Face) (chain strings : List ℕ) (parcel : ℕ)
        (label : List ℕ) (source : ℕ) (first last : Corner)
        → let e = Divide face chain strings parcel label source in
        IsTried m e → AreChosen m face chain first last
        → IsParted m (after m e) chain first last }
    ensures faces { (m : Map) (face : Face) (chain strings : List ℕ) (parcel : ℕ)
        (label : List ℕ) (source : ℕ) (first last : Corner)
        → let e = Divide face chain strings parcel label source in
        IsTried m e → AreChosen m face chain first last
        → IsDividedIn m (after m e) face (Parcel parcel) chain first last }
{}

/// An enclosure that is tried brings the corners of its ring, both ways, and no other corner comes
/// or goes. All rings stay, the holes inside the new one are the new parcel's, and the ring's
/// reverse is a hole of the face.
pub fn enclosed()
    ensures corners { (m : Map) (face : Face) (points strings : List ℕ) (parcel : ℕ)
        (label : List ℕ) (source : ℕ)
        → let e = Enclose face points strings parcel label source in IsTried m e
        → HasIsland m (after m e) points }
    ensures faces { (m : Map) (face : Face) (points strings : List ℕ) (parcel : ℕ)
        (label : List ℕ) (source : ℕ)
        → let e = Enclose face points strings parcel label source in IsValid m
        → HasPlaced m (after m e) face (Parcel parcel) [] points (reverse points) m.boundaries }
{}

/// A merger that is tried takes out the corners of the chain, or of the island, both ways,
/// whichever shared chain is found, and at each end of the chain it makes one corner of two: read from the
/// map after it to the one before, it is a division or an enclosure. The kept face has all other
/// rings of the ended one, and every other side keeps its face.
pub fn merged()
    ensures corners { (m : Map) (kept ended : Face) (x : ChainInRings)
        → IsTried m (Merge kept ended)
        → Contains (shared_chains m kept ended) x → IsMergedBy x (after m (Merge kept ended)) m }
    ensures faces { (m : Map) (kept ended : Face) (x : ChainInRings) → IsTried m (Merge kept ended)
        → Contains (shared_chains m kept ended) x
        → IsMergedIn x m (after m (Merge kept ended)) kept ended }
{}

/// A join that is tried takes out the two corners at the point, and of the two strings' far ends
/// each sees the other in the point's place; every other corner, and the face of every other side,
/// is as it was. Where a side leads from one far end to the other already, V4 is the first rule
/// that is broken: so a store looks for such a side before it joins.
pub fn joined()
    ensures corners { (m : Map) (p new : ℕ) (s t : StringRow) → IsTried m (Join p new)
        → by_number (strings_at m p) ≡ s ∷ t ∷ []
        → IsJoinedAt m (after m (Join p new)) p (far_end s p) (far_end t p) }
    ensures breaks { (m : Map) (p new : ℕ) → IsTried m (Join p new)
        → (¬ FarEndsAreApart m (Join p new)) → FirstBroken (after m (Join p new)) V4 }
{}

/// A split that is tried is a join read backwards: each of the string's ends sees the new point in
/// the other's place. And after it no side leads from one of the two ends to the other, so that it
/// can be taken back.
pub fn split_between()
    ensures corners { (m : Map) (s p : ℕ) (x y : ℤ) (first second : ℕ) (row : StringRow)
        → let e = Split s p x y first second in IsTried m e → string_of m s ≡ Some row
        → IsJoinedAt (after m e) m p row.from row.to }
    ensures apart { (m : Map) (s p : ℕ) (x y : ℤ) (first second : ℕ) (row : StringRow)
        → let e = Split s p x y first second in IsTried m e → string_of m s ≡ Some row
        → AreNotJoined (after m e) row.from row.to }
{}

/// The rings of the map after an edit that is tried are whole, whether or not it breaks a rule: no
/// side stands twice, so a corner is known by either of its sides. Of a join it has to be looked
/// first whether its far ends are joined already.
pub fn whole_rings()
    ensures { (m : Map) (e : Edit) → IsTried m e → FarEndsAreApart m e → HasWholeRings (after m e) }
{}

/// An edit that is tried touches no more than is named here from the edit and the map before it:
/// every other point is where it was, with the same neighbours and corners, every other string has
/// its ends where they were, and every other face has its rings where they were. So a check that
/// looks again at what is named has looked at all that is new.
pub fn touched()
    ensures { (m : Map) (e : Edit) → IsTried m e → IsTouched m (after m e) (touched_by m e) }
{}

/// How many rows an edit that is tried brings and takes, and how many sources are attached to those
/// that it takes; how many sides of rings change or pass to another face, and how many rings pass,
/// both at the least. The strings that a merger takes are as many as the sides that are shared.
/// Against these counts the record of the edit and its work are held.
pub fn counts()
    ensures rows { (m : Map) (e : Edit) → IsTried m e → rows_changed m (after m e) ≡ rows_by m e }
    ensures sources { (m : Map) (e : Edit) → IsTried m e
        → sources_removed m (after m e) ≡ sources_by m e }
    ensures sides { (m : Map) (e : Edit) → IsTried m e
        → sides_by m e ≤ sides_changed m (after m e) }
    ensures shared { (m : Map) (kept ended : Face) → IsTried m (Merge kept ended)
        → length (shared_strings m kept ended) ≡ length (shared_sides m kept ended) }
    ensures rings { (m : Map) (e : Edit) → IsTried m e → rings_by m e ≤ rings_moved m (after m e) }
    ensures weight { (m : Map) (e : Edit) → IsTried m e
        → 8 + 3 * rows_by m e + rings_by m e + sources_by m e ≤ weight_bound m (after m e) }
    ensures work { (m : Map) (e : Edit) → IsTried m e
        → 16 * (rows_by m e + 1) + 4 * sides_by m e ≤ work_bound m (after m e) }
{}

/// What the halves of a table that is local to one map of an edit go on to in the other: so a
/// store knows which halves it links anew, doing the edit and taking it back. And that a table
/// whose halves begin at their strings' ends has no two halves with one side.
pub fn tables()
    ensures chain_comes { (whole parted : Map) (rows : HalfRows) (chain : List ℕ)
        (first last : Corner)
        → IsLocal whole rows → HasWholeRings whole → IsParted whole parted chain first last
        → GoesOnParted whole parted rows chain first last }
    ensures chain_goes { (whole parted : Map) (rows : HalfRows) (chain : List ℕ)
        (first last : Corner)
        → IsLocal parted rows → HasWholeRings parted → 2 ≤ length chain
        → IsParted whole parted chain first last → GoesOnWhole whole parted rows chain first last }
    ensures island_comes { (whole parted : Map) (rows : HalfRows) (ring : Ring) → IsLocal whole rows
        → HasIsland whole parted ring → GoesOnWith whole parted rows }
    ensures island_goes { (whole parted : Map) (rows : HalfRows) (ring : Ring)
        → IsLocal parted rows → HasWholeRings parted → 2 ≤ length ring → HasIsland whole parted ring
        → GoesOnWithout whole parted rows ring }
    ensures point_goes { (m after : Map) (rows : HalfRows) (p a b : ℕ) → IsLocal m rows
        → IsJoinedAt m after p a b → GoesOnJoined m after rows p a b }
    ensures point_comes { (m after : Map) (rows : HalfRows) (p a b : ℕ)
        → IsLocal after rows → IsJoinedAt m after p a b → HasWholeRings m → HasWholeRings after
        → AreNotJoined m a b → GoesOnSplit m after rows p a b }
    ensures apart { (m : Map) (rows : HalfRows) → HasTwoEnds m → HasWholeRings m
        → BeginAtEnds m rows
        → (g h : Half) → IsShown m g → IsShown m h → side_by rows g ≡ side_by rows h → g ≡ h }
{}

/// A face that an edit doesn't touch keeps its area, and so does one that neither map has.
pub fn areas_stand()
    ensures { (m : Map) (e : Edit) (t : Touched) (f : Face) → IsTried m e
        → IsTouched m (after m e) t → ¬ Contains t.faces f → ¬ Contains (ended_by e) f
        → sum_of_face doubled_area (after m e) f ≡ sum_of_face doubled_area m f }
{}

/// What a face's area gains where a point goes from a to b is told by the point's strings alone.
pub fn areas_swept()
    ensures { (m x y : Map) (p : ℕ) (a b : Position) (f : Face) → HasWholeRings m
        → HasPointAt m x p a → HasPointAt m y p b
        → sum_of_face doubled_area y f
        ≡ sum_of_face doubled_area x f
        +ℤ sum_of_strings (swept_beside m f p a b) (strings_at m p) }
{}

/// What a face's area has more in the map that goes round by a point than in the one that goes
/// straight: the bend, on the left of the sides by the point. Such a side, with its face, stands
/// for the straight one, either way.
pub fn areas_bent()
    ensures area { (bent straight : Map) (p a b : ℕ) (f : Face) → HasWholeRings bent
        → GoesStraight bent straight p a b
        → sum_of_face doubled_area bent f
        ≡ sum_of_face doubled_area straight f +ℤ bend_beside bent f p a b }
    ensures along { (bent straight : Map) (p a b : ℕ) (f : Face) → HasWholeRings bent
        → GoesStraight bent straight p a b → AreNotJoined bent a b
        → has_side (a, p) (face_sides bent f) ≡ has_side (a, b) (face_sides straight f) }
    ensures against { (bent straight : Map) (p a b : ℕ) (f : Face) → HasWholeRings bent
        → GoesStraight bent straight p a b → AreNotJoined bent a b
        → has_side (p, a) (face_sides bent f) ≡ has_side (b, a) (face_sides straight f) }
{}
