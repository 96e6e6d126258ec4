//! The canonical order of boundaries: each ring in canonical form, by faces and then by rings.
ghost use Rattle.std.specs.Prelude.{◌≡◌, ◌≤◌, not, map, length};
ghost use Rattle.std.specs.List.{AllByRecursion};
ghost use Rattle.std.specs.Ordering.{is_lt};
ghost use Rattle.cad_map.specs.Boundaries.{face_place as face_place_of, canonical_form, boundary_comes_first as boundary_comes_first_of, canonical_order};

use crate::boundary::Boundary;
use cad_rings::comes_first;
use cad_rows::Face;
use std::cmp::Ordering;

/// The place of a face: 0 for the outside, and one more than the number of a parcel.
pub fn face_place(face: Face) -> u64
    ensures place { result ≡ face_place_of face }
    ensures small { result ≤ 4294967296 }
{
    match face {
        Face::Outside => 0,
        Face::Parcel(no) => u64::from(no.get()) + 1,
    }
}

fn boundary_comes_first(a: &Boundary, b: &Boundary) -> bool
    ensures { result ≡ boundary_comes_first_of a.now b.now }
{
    let (x, y) = (face_place(a.face), face_place(b.face));
    x < y || (x == y && comes_first(a.ring.points(), b.ring.points()))
}

fn canonical_cmp(a: &Boundary, b: &Boundary) -> Ordering
    ensures { is_lt result ≡ not (boundary_comes_first_of b.now a.now) }
{
    if !boundary_comes_first(b, a) {
        Ordering::Less
    } else if boundary_comes_first(a, b) {
        Ordering::Equal
    } else {
        Ordering::Greater
    }
}

// Writes each ring in canonical form.
fn make_each_canonical(boundaries: &mut [Boundary])
    ensures canonical_form { boundaries.new ≡ map canonical_form boundaries.old }
    ensures two { AllByRecursion (λ b. 2 ≤ length b.ring) boundaries.new }
{
    for boundary in boundaries {
        boundary.ring.make_canonical();
    }
}

// Puts boundaries in canonical order.
fn make_canonical(boundaries: &mut [Boundary])
    ensures canonical_order { boundaries.new ≡ canonical_order boundaries.old }
    ensures two { AllByRecursion (λ b. 2 ≤ length b.ring) boundaries.new }
{
    make_each_canonical(boundaries);
    boundaries.sort_unstable_by(canonical_cmp);
}

/// Puts boundaries in canonical order. Takes no memory.
pub(crate) fn arrange(boundaries: &mut Vec<Boundary>)
    ensures canonical_order { boundaries.new.items ≡ canonical_order boundaries.old.items }
    ensures two { AllByRecursion (λ b. 2 ≤ length b.ring) boundaries.new.items }
{
    make_canonical(boundaries.as_mut_slice());
}

/// These boundaries in canonical order. Takes no memory.
pub(crate) fn in_canonical_order(boundaries: Vec<Boundary>) -> Vec<Boundary>
    ensures canonical_order { result.items ≡ canonical_order boundaries.items }
    ensures two { AllByRecursion (λ b. 2 ≤ length b.ring) result.items }
{
    let mut boundaries = boundaries;
    arrange(&mut boundaries);
    boundaries
}
