//! The laws of rings. Each function does nothing, and its contract holds for all rings, places and measures.

ghost use Rattle.std.specs.Prelude.{◌≡◌, ℕ, ◌+◌, ◌-◌, ◌*◌, ◌≤◌, true, false, ◌++◌, [], ◌∷◌, List, length, take, drop, map, flat_map, ◌+ℤ◌, neg_ℤ, IsPermutation, Contains, slice_range, slice_index, reverse};
ghost use Rattle.std.specs.List.{AllByRecursion};
ghost use Rattle.geo_exact.specs.Position.{Position};
ghost use Rattle.geo_exact.specs.Measure.{Measure, IsOdd};
ghost use Rattle.cad_rings.specs.Cycle.{Ring, Side, opposite, sides_of, times_along, times_through, Corner, corner_back, corners_of, turned, corner_at, IsSameRing, anchor_of, ring_sum};
ghost use Rattle.cad_rings.specs.Canonical.{comes_first, least_rotation};
ghost use Rattle.cad_rings.specs.Surgery.{reversed, sides_of_chain, both_ways, corners_of_chain, corners_both_ways, parted_by, chain_across, AreTwoPlaces, AreSamePlaces, left_ring, right_ring, chain_from, HaveChainInCommon, joined, put_on, halves_by, without, StandsBetween};

/// To be the same ring is an equivalence, and each turn of a ring is the same ring.
pub fn same_ring()
    ensures reflexive { (r : Ring) → IsSameRing r r }
    ensures symmetric { (r s : Ring) → IsSameRing r s → IsSameRing s r }
    ensures transitive { (r s t : Ring) → IsSameRing r s → IsSameRing s t → IsSameRing r t }
    ensures turned { (place : ℕ) (ring : Ring) → IsSameRing ring (turned place ring) }
{}

/// Lists of numbers have one order.
pub fn one_order()
    ensures reflexive { (xs : List ℕ) → comes_first xs xs ≡ true }
    ensures antisymmetric { (xs ys : List ℕ) → comes_first xs ys ≡ true → comes_first ys xs ≡ true
        → xs ≡ ys }
    ensures transitive { (xs ys zs : List ℕ) → comes_first xs ys ≡ true → comes_first ys zs ≡ true
        → comes_first xs zs ≡ true }
    ensures total { (xs ys : List ℕ) → comes_first xs ys ≡ false → comes_first ys xs ≡ true }
{}

/// A ring has one canonical form: the rotation that comes before all others. Two lists are the same ring exactly where it
/// is the same.
pub fn one_form()
    ensures is_a_rotation { (ring : Ring) → IsSameRing ring (least_rotation ring) }
    ensures before_all { (ring : Ring) (place : ℕ)
        → comes_first (least_rotation ring) (turned place ring) ≡ true }
    ensures same { (r s : Ring) → IsSameRing r s → least_rotation r ≡ least_rotation s }
    ensures told_apart { (r s : Ring) → least_rotation r ≡ least_rotation s → IsSameRing r s }
    ensures canonical_again { (ring : Ring)
        → least_rotation (least_rotation ring) ≡ least_rotation ring }
{}

/// A ring written from another place on has its sides and corners from that place on.
pub fn turned_on()
    ensures sides { (place : ℕ) (ring : Ring)
        → sides_of (turned place ring) ≡ drop place (sides_of ring) ++ take place (sides_of ring) }
    ensures corners { (place : ℕ) (ring : Ring)
        → corners_of (turned place ring)
        ≡ drop place (corners_of ring) ++ take place (corners_of ring) }
{}

/// The same ring has the same points, sides, corners, anchor and sum, wherever it is written from.
pub fn same_ring_keeps()
    ensures length { (r s : Ring) → IsSameRing r s → length s ≡ length r }
    ensures sides { (r s : Ring) → IsSameRing r s → IsPermutation (sides_of r) (sides_of s) }
    ensures corners { (r s : Ring) → IsSameRing r s → IsPermutation (corners_of r) (corners_of s) }
    ensures anchor { (r s : Ring) → IsSameRing r s → anchor_of r ≡ anchor_of s }
    ensures sum { (f : Measure) (position : ℕ → Position) (r s : Ring) → IsSameRing r s
        → ring_sum f position r ≡ ring_sum f position s }
{}

/// The anchor is the least of a ring's points.
pub fn anchor_is_least()
    ensures at_most_each { (ring : Ring) → AllByRecursion (λ p. anchor_of ring ≤ p) ring }
    ensures one_of_them { (ring : Ring) → 1 ≤ length ring → Contains ring (anchor_of ring) }
{}

/// A ring has as many sides as points, and as many corners where they are two or more.
pub fn counts()
    ensures sides { (ring : Ring) → length (sides_of ring) ≡ length ring }
    ensures corners { (ring : Ring) → 2 ≤ length ring → length (corners_of ring) ≡ length ring }
{}

/// The ring in the other direction has the opposite sides, the corners back, the same anchor and the opposite sum.
pub fn reversed_is_opposite()
    ensures back { (ring : Ring) → reversed (reversed ring) ≡ ring }
    ensures same { (r s : Ring) → IsSameRing r s → IsSameRing (reversed r) (reversed s) }
    ensures length { (ring : Ring) → length (reversed ring) ≡ length ring }
    ensures sides { (ring : Ring)
        → IsPermutation (map opposite (sides_of ring)) (sides_of (reversed ring)) }
    ensures corners { (ring : Ring)
        → IsPermutation (map corner_back (corners_of ring)) (corners_of (reversed ring)) }
    ensures anchor { (ring : Ring) → anchor_of (reversed ring) ≡ anchor_of ring }
    ensures sum { (f : Measure) → IsOdd f → (position : ℕ → Position) (ring : Ring)
        → ring_sum f position (reversed ring) ≡ neg_ℤ (ring_sum f position ring) }
{}

/// The two rings of a cut have the sides of the ring, and those of the chain both ways. So they add up to it. They have
/// its corners, of which those at the chain's ends are parted in two, and the corners of the chain both ways.
pub fn cut_adds_up()
    ensures sides { (i j : ℕ) (inner : List ℕ) (ring : Ring) → AreTwoPlaces i j ring
        → IsPermutation (sides_of (left_ring i j inner ring)
        ++ sides_of (right_ring i j inner ring))
        (both_ways (sides_of_chain (chain_across i j inner ring)) ++ sides_of ring) }
    ensures corners { (i j : ℕ) (inner : List ℕ) (ring : Ring) → AreTwoPlaces i j ring
        → let chain = chain_across i j inner ring in
        IsPermutation
        (corner_at i ring ∷ corner_at j ring
        ∷ (corners_of (left_ring i j inner ring) ++ corners_of (right_ring i j inner ring)))
        (parted_by (slice_index chain 1) (corner_at i ring)
        ++ (parted_by (slice_index (reverse chain) 1) (corner_at j ring)
        ++ (corners_both_ways (corners_of_chain chain) ++ corners_of ring))) }
    ensures sum { (f : Measure) → IsOdd f
        → (position : ℕ → Position) (i j : ℕ) (inner : List ℕ) (ring : Ring) → AreTwoPlaces i j ring
        → ring_sum f position (left_ring i j inner ring)
        +ℤ ring_sum f position (right_ring i j inner ring) ≡ ring_sum f position ring }
    ensures length { (i j : ℕ) (inner : List ℕ) (ring : Ring) → AreTwoPlaces i j ring
        → length (left_ring i j inner ring) + length (right_ring i j inner ring)
        ≡ length ring + 2 * (length inner + 1) }
{}

/// Where the sides that lead from two places stand once in a ring, a cut there gives the same two lists, wherever the
/// ring is written from.
pub fn cut_elsewhere()
    ensures left { (inner : List ℕ) (i j : ℕ) (r : Ring) (k l : ℕ) (s : Ring)
        → AreSamePlaces i j r k l s
        → left_ring i j inner r ≡ left_ring k l inner s }
    ensures right { (inner : List ℕ) (i j : ℕ) (r : Ring) (k l : ℕ) (s : Ring)
        → AreSamePlaces i j r k l s
        → right_ring i j inner r ≡ right_ring k l inner s }
{}

/// Two rings with a chain in common have the sides of the ring round both, and those of the chain both ways. So they
/// add up to it. They have its corners, of which those at the chain's ends are parted in two, and the corners of the
/// chain both ways.
pub fn joined_adds_up()
    ensures sides { (i j m : ℕ) (kept ended : Ring) → HaveChainInCommon i j m kept ended
        → IsPermutation (sides_of kept ++ sides_of ended)
        (both_ways (sides_of_chain (chain_from i m kept)) ++ sides_of (joined i j m kept ended)) }
    ensures corners { (i j m : ℕ) (kept ended : Ring) → HaveChainInCommon i j m kept ended
        → let chain = chain_from i m kept in
        let ring = joined i j m kept ended in
        IsPermutation
        (corner_at (length kept - m) ring ∷ corner_at 0 ring
        ∷ (corners_of kept ++ corners_of ended))
        (parted_by (slice_index chain 1) (corner_at (length kept - m) ring)
        ++ (parted_by (slice_index (reverse chain) 1) (corner_at 0 ring)
        ++ (corners_both_ways (corners_of_chain chain) ++ corners_of ring))) }
    ensures sum { (f : Measure) → IsOdd f
        → (position : ℕ → Position) (i j m : ℕ) (kept ended : Ring)
        → HaveChainInCommon i j m kept ended
        → ring_sum f position kept +ℤ ring_sum f position ended
        ≡ ring_sum f position (joined i j m kept ended) }
    ensures length { (i j m : ℕ) (kept ended : Ring) → HaveChainInCommon i j m kept ended
        → length (joined i j m kept ended) + 2 * m ≡ length kept + length ended }
{}

/// A join takes back a cut, and a cut a join.
pub fn cut_and_joined()
    ensures in_common { (i j : ℕ) (inner : List ℕ) (ring : Ring) → AreTwoPlaces i j ring
        → HaveChainInCommon 0 0 (length inner + 1) (left_ring i j inner ring)
        (right_ring i j inner ring) }
    ensures joined_again { (i j : ℕ) (inner : List ℕ) (ring : Ring) → AreTwoPlaces i j ring
        → joined 0 0 (length inner + 1) (left_ring i j inner ring) (right_ring i j inner ring)
        ≡ turned j ring }
    ensures two_places { (i j m : ℕ) (kept ended : Ring) → HaveChainInCommon i j m kept ended
        → AreTwoPlaces (length kept - m) 0 (joined i j m kept ended) }
    ensures left_again { (i j m : ℕ) (kept ended : Ring) → HaveChainInCommon i j m kept ended
        → left_ring (length kept - m) 0 (slice_range (turned i kept) 1 m) (joined i j m kept ended)
        ≡ turned i kept }
    ensures right_again { (i j m : ℕ) (kept ended : Ring) → HaveChainInCommon i j m kept ended
        → right_ring (length kept - m) 0 (slice_range (turned i kept) 1 m) (joined i j m kept ended)
        ≡ turned j ended }
{}

/// A point put on a side makes two of it, wherever the ring is written from.
pub fn put_on_makes_two()
    ensures sides { (s : Side) (p : ℕ) (ring : Ring)
        → sides_of (put_on s p ring) ≡ flat_map (halves_by s p) (sides_of ring) }
    ensures once { (s : Side) (p : ℕ) (ring : Ring) → times_along s ring ≡ 1
        → IsPermutation (s ∷ sides_of (put_on s p ring)) ((s.0, p) ∷ (p, s.1) ∷ sides_of ring) }
    ensures corners { (s : Side) (p : ℕ) (ring : Ring) → times_along s ring ≡ 1 → 2 ≤ length ring
        → StandsBetween s.0 p s.1 (put_on s p ring) ring }
    ensures same { (s : Side) (p : ℕ) (r t : Ring) → IsSameRing r t
        → IsSameRing (put_on s p r) (put_on s p t) }
    ensures length { (s : Side) (p : ℕ) (ring : Ring)
        → length (put_on s p ring) ≡ length ring + times_along s ring }
{}

/// A point dropped makes one side of two, where the ring passes it once.
pub fn without_makes_one()
    ensures sides { (ring : Ring) (c : Corner) → Contains (corners_of ring) c
        → times_through c.at ring ≡ 1
        → IsPermutation ((c.before, c.after) ∷ sides_of ring)
        ((c.before, c.at) ∷ (c.at, c.after) ∷ sides_of (without c.at ring)) }
    ensures corners { (ring : Ring) (c : Corner) → Contains (corners_of ring) c
        → times_through c.at ring ≡ 1 → 3 ≤ length ring
        → StandsBetween c.before c.at c.after ring (without c.at ring) }
    ensures same { (p : ℕ) (r s : Ring) → IsSameRing r s → IsSameRing (without p r) (without p s) }
    ensures length { (p : ℕ) (ring : Ring)
        → length (without p ring) + times_through p ring ≡ length ring }
{}

/// Dropping a point takes back putting it on, and the other way round.
pub fn put_on_and_without()
    ensures dropped_again { (s : Side) (p : ℕ) (ring : Ring) → times_through p ring ≡ 0
        → without p (put_on s p ring) ≡ ring }
    ensures put_on_again { (ring : Ring) (c : Corner) → Contains (corners_of ring) c
        → times_through c.at ring ≡ 1
        → times_along (c.before, c.after) (without c.at ring) ≡ 1
        → IsSameRing ring (put_on (c.before, c.after) c.at (without c.at ring)) }
{}

/// A ring whose points stand where they stood has the same sums.
pub fn sum_is_of_positions()
    ensures { (f : Measure) (before after : ℕ → Position) (ring : Ring)
        → AllByRecursion (λ p. before p ≡ after p) ring
        → ring_sum f before ring ≡ ring_sum f after ring }
{}
