ghost use Rattle.std.specs.Prelude.{◌≡◌, ◌↔◌, ◌&&◌, IsTrue};
ghost use Rattle.geo_exact.specs.Segment.{HaveCommonLocation, IsOnSegment};
ghost use Rattle.geo_exact.specs.SignTest.{straddles, are_below, overlaps, boxes_overlap, passes_signs};

use crate::orientation::{is_left_of, is_right_of, orient};
use crate::position::Pt;

// Both of a and b are below both of c and d.
fn are_both_below(a: i64, b: i64, c: i64, d: i64) -> bool
    ensures { result ≡ are_below a b c d }
{
    a.max(b) < c.min(d)
}

// The stretch between a and b and the one between c and d have a number in common.
fn have_stretch_in_common(a: i64, b: i64, c: i64, d: i64) -> bool
    ensures { result ≡ overlaps a b c d }
{
    !are_both_below(a, b, c, d) && !are_both_below(c, d, a, b)
}

// The segments ab and cd have an x in common.
fn have_x_in_common(a: Pt, b: Pt, c: Pt, d: Pt) -> bool
    ensures { result ≡ overlaps a.x b.x c.x d.x }
{
    have_stretch_in_common(a.x, b.x, c.x, d.x)
}

// And a y.
fn have_y_in_common(a: Pt, b: Pt, c: Pt, d: Pt) -> bool
    ensures { result ≡ overlaps a.y b.y c.y d.y }
{
    have_stretch_in_common(a.y, b.y, c.y, d.y)
}

/// Whether the boxes of the segments ab and cd have a location in common. Segments that meet have
/// such boxes, so the test spares `meets` for those that lie apart.
pub fn have_boxes_in_common(a: Pt, b: Pt, c: Pt, d: Pt) -> bool
    ensures { result ≡ boxes_overlap a b c d }
{
    have_x_in_common(a, b, c, d) && have_y_in_common(a, b, c, d)
}

// The positions c and d aren't both on the left of the line ab, nor both on its right.
fn reaches_across(a: Pt, b: Pt, c: Pt, d: Pt) -> bool
    ensures { result ≡ straddles a b c d }
{
    !(is_left_of(a, b, c) && is_left_of(a, b, d)) && !(is_right_of(a, b, c) && is_right_of(a, b, d))
}

// Each of the segments ab and cd reaches across the line of the other.
fn reach_across_each_other(a: Pt, b: Pt, c: Pt, d: Pt) -> bool
    ensures { result ≡ (straddles c d a b && straddles a b c d) }
{
    reaches_across(c, d, a, b) && reaches_across(a, b, c, d)
}

// The test by signs alone. It asks for the boxes first: that costs least, and most segments near one
// another are apart by it.
fn passes_sign_test(a: Pt, b: Pt, c: Pt, d: Pt) -> bool
    ensures { result ≡ passes_signs a b c d }
{
    have_boxes_in_common(a, b, c, d) && reach_across_each_other(a, b, c, d)
}

/// Whether the segments ab and cd have a common location, their ends included. A segment may be a single position, and the
/// two may overlap along a line.
///
/// The segment intersection test by four orientations of de Berg et al., Computational Geometry, chapter 2, with a
/// test of the boxes for segments on one line.
pub fn meets(a: Pt, b: Pt, c: Pt, d: Pt) -> bool
    ensures { IsTrue result ↔ HaveCommonLocation a b c d }
{
    passes_sign_test(a, b, c, d)
}

/// Whether q lies on the segment ab, its ends included: it lies in the segment's box, and on its
/// line, which one orientation tells. The box is asked for first, since that costs less.
pub fn on_segment(a: Pt, b: Pt, q: Pt) -> bool
    ensures { IsTrue result ↔ IsOnSegment a b q }
{
    have_boxes_in_common(a, b, q, q) && orient(a, b, q) == 0
}
