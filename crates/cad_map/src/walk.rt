//! A walk along a ring of a map, side by side.
ghost use Rattle.std.specs.Prelude.{◌≡◌, ◌≤◌, ◌<◌, ◌*◌, [], length, Some};
ghost use Rattle.std.specs.List.{AllByRecursion};
ghost use Rattle.std.specs.Iterator.{item_count};
ghost use Rattle.cad_map.specs.Boundaries.{canonical_order};
ghost use Rattle.cad_map.specs.Map.{rings_at};
ghost use Rattle.cad_map.specs.Rings.{HasWholeRings, ring_at};
ghost use Rattle.cad_map.specs.Walk.{side_after as side_after_of, IsTold, Walking, walking, GivesNext, sides_ahead, IsOnRing};

use crate::store::MapView;
use cad_rows::{Face, PointNo};

/// The sides of a ring from one of them on, each followed by the side that [`MapView::after`] tells, until the walk is
/// back at the first. It gives at most two for each string of the map, so it ends on any map.
#[derive(Drop)]
pub struct Walk<'a, M: MapView> {
    map: &'a M,
    first: (PointNo, PointNo),
    // How many more sides it may give. Twice a `usize` may not fit a `usize`.
    most: u128,
    at: Option<(PointNo, PointNo)>,
}

/// The side that comes after the one from a point to another, if the walk goes on.
fn side_after<M: MapView>(
    map: &M,
    first: (PointNo, PointNo),
    from: PointNo,
    to: PointNo,
) -> Option<(PointNo, PointNo)>
    ensures next { result ≡ side_after_of first (from, to) (M.view_next map.now (from, to)) }
    ensures told { IsTold (M.map map.now) (M.view_next map.now) (from, to) }
{
    let after = map.after(from, to)?;
    if first.0.get() == to.get() && first.1.get() == after.get() {
        None
    } else {
        Some((to, after))
    }
}

impl<'a, M: MapView> Walk<'a, M> {
    /// The walk from the side between two points on.
    pub fn from(map: &'a M, from: PointNo, to: PointNo) -> Walk<'a, M>
        ensures { walking M.map M.view_next result ≡ record {
          map = M.map map.now;
          follower = M.view_next map.now;
          first = (from, to);
          most = 2 * length (M.map map.now).strings;
          at = Some (from, to);
        } }
    {
        Walk {
            map,
            first: (from, to),
            most: 2 * (map.counts().strings as u128),
            at: Some((from, to)),
        }
    }

    /// The walk round a face's ring at a place.
    pub fn of_ring(map: &'a M, face: &Face, place: usize) -> Walk<'a, M>
        requires whole { HasWholeRings (M.map map.now) }
        requires there { place < length (rings_at face.now (M.rings map.now)) }
        ensures along { IsOnRing (M.map map.now) (ring_at (M.rings map.now) face.now place) []
            (walking M.map M.view_next result) }
        // The rings are those of the map, and each is of two points or more.
        ensures canonical_order { canonical_order (M.rings map.now) ≡ (M.map map.now).boundaries }
        ensures two { AllByRecursion (λ b. 2 ≤ length b.ring) (M.rings map.now) }
    {
        let (from, to) = map.ring_side(*face, place).unwrap();
        Walk::from(map, from, to)
    }

    /// The side that it began with.
    pub fn first_side(&self) -> (PointNo, PointNo)
        ensures { result ≡ (walking M.map M.view_next self.now).first }
    {
        self.first
    }
}

impl<M: MapView> Iterator for Walk<'_, M> {
    type Item = (PointNo, PointNo);

    ghost next_gives = { λ s r t. GivesNext (walking M.map M.view_next s) r
        (walking M.map M.view_next t) };

    ghost remaining = { item_count (λ s. sides_ahead (walking M.map M.view_next s)) };

    fn next(&mut self) -> Option<(PointNo, PointNo)> {
        if self.most == 0 {
            return None;
        }
        let (from, to) = self.at?;
        self.most -= 1;
        self.at = side_after(self.map, self.first, from, to);
        Some((from, to))
    }
}
