//! Rings made of rings: in the other direction, with a point more or less, cut along a chain and joined along one.
ghost use Rattle.std.specs.Prelude.{◌≡◌, ◌≤◌, ◌+◌, ◌++◌, ◌&&◌, length, drop, OnOk, IfOk};
ghost use Rattle.cad_rings.specs.Cycle.{times_through, turned};
ghost use Rattle.cad_rings.specs.Surgery.{reversed, put_on, without, stretch, AreTwoPlaces, left_ring, right_ring, HaveChainInCommon, joined};

use super::Ring;
use cad_rows::{Memory, PointNo};

// Appends the points from place i on, up to the one before place j, going round the end where j is not after i.
fn append_stretch(
    points: &mut Vec<PointNo>,
    ring: &[PointNo],
    i: usize,
    j: usize,
) -> Result<(), Memory>
    requires i_within { i ≤ length ring.now }
    requires j_within { j ≤ length ring.now }
    ensures { OnOk result (points.new.items ≡ points.old.items ++ stretch i j ring.now) }
{
    if i < j {
        points.extend_from_slice(&ring[i..j])?;
    } else {
        points.extend_from_slice(&ring[i..])?;
        points.extend_from_slice(&ring[..j])?;
    }
    Ok(())
}

// Appends the points of the ring but for m of them from a place on. Past the end that place is the ring's first.
fn append_all_but(
    points: &mut Vec<PointNo>,
    ring: &[PointNo],
    place: usize,
    m: usize,
) -> Result<(), Memory>
    requires { m ≤ length ring.now }
    ensures { OnOk result (points.new.items ≡ points.old.items ++ drop m (turned place ring.now)) }
{
    let (before, after) = ring.split_at(place.min(ring.len()));
    let in_after = m.min(after.len());
    points.extend_from_slice(&after[in_after..])?;
    points.extend_from_slice(&before[m - in_after..])?;
    Ok(())
}

impl Ring {
    /// The ring in the other direction: its points from the last to the first. An error where memory runs out.
    pub fn reversed(&self) -> Result<Ring, Memory>
        ensures { IfOk result (λ ring. ring ≡ reversed self.now) }
    {
        let mut ring = self.copy()?;
        ring.points.reverse();
        Ok(ring)
    }

    // The ring with the point on the side, wherever it goes along it.
    fn put_on_each(&self, side: (PointNo, PointNo), point: PointNo) -> Result<Ring, Memory>
        ensures { IfOk result (λ ring. ring ≡ put_on side point self.now) }
    {
        let mut points = Vec::new(*self.points.allocator());
        for (from, to) in self.sides() {
            points.push(from)?;
            if from == side.0 && to == side.1 {
                points.push(point)?;
            }
        }
        Ok(Ring { points })
    }

    /// The ring with the point p between a and b, wherever it goes from a to b. An error where memory runs out.
    pub fn put_between(&self, a: PointNo, b: PointNo, p: PointNo) -> Result<Ring, Memory>
        ensures { IfOk result (λ ring. ring ≡ put_on (a, b) p self.now) }
    {
        self.put_on_each((a, b), p)
    }

    // The ring without the point, wherever it passes it.
    fn without_each(&self, point: PointNo) -> Result<Ring, Memory>
        requires { 2 + times_through point self.now ≤ length self.now }
        ensures { IfOk result (λ ring. ring ≡ without point self.now) }
    {
        let mut ring = self.copy()?;
        ring.points.retain(|other| *other != point);
        Ok(ring)
    }

    /// The ring without the point p, wherever it passes it. At least two points are left. An error where memory runs out.
    pub fn drop_point(&self, p: PointNo) -> Result<Ring, Memory>
        requires { 2 + times_through p self.now ≤ length self.now }
        ensures { IfOk result (λ ring. ring ≡ without p self.now) }
    {
        self.without_each(p)
    }

    // The chain, and the ring from the chain's end back to its beginning.
    fn left_of_chain(&self, i: usize, j: usize, inner: &[PointNo]) -> Result<Ring, Memory>
        requires { AreTwoPlaces i j self.now }
        ensures { IfOk result (λ ring. ring ≡ left_ring i j inner.now self.now) }
    {
        let mut points = Vec::new(*self.points.allocator());
        points.push(self.points[i])?;
        points.extend_from_slice(inner)?;
        append_stretch(&mut points, self.points.as_slice(), j, i)?;
        Ok(Ring { points })
    }

    // The chain backwards, and the ring from the chain's beginning to its end.
    fn right_of_chain(&self, i: usize, j: usize, inner: &[PointNo]) -> Result<Ring, Memory>
        requires { AreTwoPlaces i j self.now }
        ensures { IfOk result (λ ring. ring ≡ right_ring i j inner.now self.now) }
    {
        let mut points = Vec::from_slice(*self.points.allocator(), inner)?;
        points.push(self.points[j])?;
        points.reverse();
        append_stretch(&mut points, self.points.as_slice(), i, j)?;
        Ok(Ring { points })
    }

    /// The two rings into which a chain divides the ring, the one to its left first. The chain leads from the point at
    /// place i through the inner points to the point at place j. An error where memory runs out.
    ///
    /// A polygon is divided so along a diagonal in de Berg, Cheong, van Kreveld and Overmars, Computational Geometry,
    /// chapter 3. Here the diagonal is a chain.
    pub fn cut_by_chain(
        &self,
        i: usize,
        j: usize,
        inner: &[PointNo],
    ) -> Result<(Ring, Ring), Memory>
        requires { AreTwoPlaces i j self.now }
        ensures left { IfOk result (λ rings. rings.0 ≡ left_ring i j inner.now self.now) }
        ensures right { IfOk result (λ rings. rings.1 ≡ right_ring i j inner.now self.now) }
    {
        let left = self.left_of_chain(i, j, inner)?;
        let right = self.right_of_chain(i, j, inner)?;
        Ok((left, right))
    }

    /// The ring round this one and the other, which have m sides in common: from place i of this ring on, and from place j
    /// of the other on in the opposite direction. It takes back what [`Ring::cut_by_chain`] does. An error where memory
    /// runs out.
    pub fn join_along(&self, other: &Ring, i: usize, j: usize, m: usize) -> Result<Ring, Memory>
        requires { HaveChainInCommon i j m self.now other.now }
        ensures { IfOk result (λ ring. ring ≡ joined i j m self.now other.now) }
    {
        let mut points = Vec::new(*self.points.allocator());
        append_all_but(&mut points, self.points.as_slice(), i, m)?;
        append_all_but(&mut points, other.points.as_slice(), j, m)?;
        Ok(Ring { points })
    }
}
