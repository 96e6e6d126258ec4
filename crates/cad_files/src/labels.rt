//! Sides whose followers have other faces.
ghost use Rattle.std.specs.Prelude.{◌≡◌, ◌≢◌, not, find, option_map, map};
ghost use Rattle.cad_map.specs.Valid.{EachPair};
ghost use Rattle.cad_files.specs.Cycles.{AreLinked, plan_side_of};
ghost use Rattle.cad_files.specs.Corners.{keeps_face_among};

use crate::dangling::is_same_face;
use crate::sides::PlanSide;
use cad_rows::StringNo;

/// The string of the first of these sides after which none of them comes with its face. Takes one step a side.
pub(crate) fn first_other_label(sides: &[PlanSide]) -> Option<StringNo>
    requires once { EachPair (λ a b. a ≢ b) (map plan_side_of sides.now) }
    requires linked { AreLinked sides.now }
    ensures { result ≡ option_map (λ s. s.string)
        (find (λ s. not (keeps_face_among sides.now s)) sides.now) }
{
    for i in 0..sides.len() {
        let side = &sides[i];
        let next = &sides[side.next];
        if !is_same_face(&side.face, &next.face) {
            return Some(side.string);
        }
    }
    None
}
