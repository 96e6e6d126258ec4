//! Strings that end nowhere, or have one face on both sides.
ghost use Rattle.std.specs.Prelude.{◌≡◌, ◌==◌};
ghost use Rattle.cad_map.specs.Boundaries.{is_face};
ghost use Rattle.cad_map.specs.Map.{Map, degree};
ghost use Rattle.cad_files.specs.Building.{is_dangling as is_dangling_in, dangling};
ghost use Rattle.cad_files.specs.Arrival.{AreStarsOf};

use crate::rows::PlanString;
use cad_map::Stars;
use cad_rows::{Face, PointNo, StringNo};

/// Whether two faces are one.
pub(crate) fn is_same_face(a: &Face, b: &Face) -> bool
    ensures { result ≡ is_face a.now b.now }
{
    match a {
        Face::Outside => match b {
            Face::Outside => true,
            Face::Parcel(_) => false,
        },
        Face::Parcel(m) => match b {
            Face::Outside => false,
            Face::Parcel(n) => m.get() == n.get(),
        },
    }
}

// Whether the point is on just one string.
fn is_at_one(stars: &Stars, point: PointNo) -> bool
    ensures { (m : Map) → AreStarsOf m stars.now → result ≡ (degree m point == 1) }
{
    stars.ends(point).len() == 1
}

// Whether a string's points are one, or its faces are, or one of its ends is on no other string.
fn is_dangling(stars: &Stars, string: &PlanString) -> bool
    ensures { (m : Map) → AreStarsOf m stars.now → result ≡ is_dangling_in m string.now }
{
    let row = &string.row;
    row.from.get() == row.to.get()
        || is_same_face(&string.left, &string.right)
        || is_at_one(stars, row.from)
        || is_at_one(stars, row.to)
}

/// The first string whose points are one, or whose faces are, or of which an end is on no other string.
#[tactic(auto, unfolding(crate::specs::Building::dangling))]
pub(crate) fn first_dangling(stars: &Stars, strings: &[PlanString]) -> Option<StringNo>
    ensures { (m : Map) → AreStarsOf m stars.now → result ≡ dangling m strings.now }
{
    for string in strings {
        if is_dangling(stars, string) {
            return Some(string.row.number);
        }
    }
    None
}
