//! The canonical form of a ring, and the order of rings.
ghost use Rattle.std.specs.Prelude.{◌≡◌, ◌+◌, ◌≤◌, ◌<◌, ◌∷◌, length, drop, if◌then◌else◌};
ghost use Rattle.cad_rings.specs.Cycle.{turned};
ghost use Rattle.cad_rings.specs.Canonical.{comes_first as comes_first_of, least_rotation};

use cad_rows::PointNo;

/// Whether a list of points doesn't come after another in lexicographic order.
pub fn comes_first(a: &[PointNo], b: &[PointNo]) -> bool
    ensures { result ≡ comes_first_of a.now b.now }
{
    for place in 0..a.len() {
        if b.len() <= place {
            return false;
        }
        let (x, y) = (a[place].get(), b[place].get());
        if x != y {
            return x < y;
        }
    }
    true
}

/// The point at a place of the ring written from another place on.
pub(crate) fn turned_at(points: &[PointNo], start: usize, place: usize) -> PointNo
    requires start { start ≤ length points.now }
    requires place { place < length points.now }
    ensures { drop place (turned start points.now)
        ≡ result ∷ drop (place + 1) (turned start points.now) }
{
    let until_end = points.len() - start;
    if place < until_end {
        points[start + place]
    } else {
        points[place - until_end]
    }
}

// Whether the ring from place i on doesn't come after the ring from place j on.
fn is_rotation_first(points: &[PointNo], i: usize, j: usize) -> bool
    requires i_within { i < length points.now }
    requires j_within { j < length points.now }
    ensures { result ≡ comes_first_of (turned i points.now) (turned j points.now) }
{
    for place in 0..points.len() {
        let x = turned_at(points, i, place).get();
        let y = turned_at(points, j, place).get();
        if x != y {
            return x < y;
        }
    }
    true
}

// Of two places the one from which the ring comes first.
fn better_place(points: &[PointNo], best: usize, place: usize) -> usize
    requires best { best < length points.now }
    requires place { place < length points.now }
    ensures within { result < length points.now }
    ensures better { turned result points.now
        ≡ (if comes_first_of (turned best points.now) (turned place points.now)
        then turned best points.now else turned place points.now) }
{
    if is_rotation_first(points, best, place) {
        best
    } else {
        place
    }
}

/// The place from which the ring comes before all its other rotations.
pub(crate) fn least_place(points: &[PointNo]) -> usize
    requires { 0 < length points.now }
    ensures within { result < length points.now }
    ensures least { turned result points.now ≡ least_rotation points.now }
{
    let mut best = 0;
    for place in 0..points.len() {
        best = better_place(points, best, place);
    }
    best
}
