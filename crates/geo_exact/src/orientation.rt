ghost use Rattle.std.specs.Prelude.{◌≡◌, ◌≤◌, ◌-ℤ◌, ◌*ℤ◌, pos, int_lt, unsigned_abs};
ghost use Rattle.geo_exact.specs.Position.{InRange};
ghost use Rattle.geo_exact.specs.Orientation.{orientation, orientation_limit, product_limit, dot, is_left, is_right};

use crate::position::Pt;

// The product of the differences b - a and d - c. Each difference fits an i64, the product takes an i128.
fn product(a: i64, b: i64, c: i64, d: i64) -> i128
    requires a_in { InRange a }
    requires b_in { InRange b }
    requires c_in { InRange c }
    requires d_in { InRange d }
    ensures value { result ≡ (b -ℤ a) *ℤ (d -ℤ c) }
    ensures small { unsigned_abs result ≤ product_limit }
{
    ((b - a) as i128) * ((d - c) as i128)
}

/// Twice the signed area of the triangle abc, in doubled square millimetres: positive where c lies left of the directed
/// line from a to b, zero where it lies on it, negative to its right. It lies within 8·10²⁰ either way.
///
/// The determinant of the two differences, the orientation test of de Berg, Cheong, van Kreveld and Overmars,
/// Computational Geometry, chapter 1.
pub fn orient(a: Pt, b: Pt, c: Pt) -> i128
    ensures value { result ≡ orientation a b c }
    ensures small { unsigned_abs result ≤ orientation_limit }
{
    product(a.x, b.x, a.y, c.y) - product(a.y, b.y, a.x, c.x)
}

// c lies left of the line from a to b.
pub(crate) fn is_left_of(a: Pt, b: Pt, c: Pt) -> bool
    ensures { result ≡ is_left a b c }
{
    orient(a, b, c) > 0
}

// c lies right of the line from a to b.
pub(crate) fn is_right_of(a: Pt, b: Pt, c: Pt) -> bool
    ensures { result ≡ is_right a b c }
{
    orient(a, b, c) < 0
}

// The directions from v to a and from v to b are more than a right angle apart.
pub(crate) fn points_back(v: Pt, a: Pt, b: Pt) -> bool
    ensures { result ≡ int_lt (dot v a b) (pos 0) }
{
    product(v.x, a.x, v.x, b.x) + product(v.y, a.y, v.y, b.y) < 0
}
