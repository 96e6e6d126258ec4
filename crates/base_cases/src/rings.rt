//! Rings of points.
ghost use Rattle.std.specs.List.{list_all};
ghost use Rattle.std.specs.Prelude.{◌≡◌, ◌∷◌, ◌&&◌, [], map, nat_le, IfOk};

use crate::values::{at, point};
use cad_rings::{RING_LIMIT, Ring, comes_first};
use cad_rows::{Memory, PointNo};
use geo_exact::{DoubledArea, Pt, SideMeasure, Winding};
use std::alloc::Global;
use std::process::Abort;
use std::test::Fail;

// The points 1 to 4 of a square with sides of a metre. The last entry has no say.
fn positions(rt: &impl Abort) -> [(PointNo, Pt); 5]
    ensures { map (λ entry. entry.0) result ≡ 1 ∷ 2 ∷ 3 ∷ 4 ∷ 1 ∷ [] }
{
    [
        (point(rt, 1), at(rt, (0, 0))),
        (point(rt, 2), at(rt, (1000, 0))),
        (point(rt, 3), at(rt, (1000, 1000))),
        (point(rt, 4), at(rt, (0, 1000))),
        (point(rt, 1), at(rt, (500, 500))),
    ]
}

fn square(rt: &impl Abort, alloc: Global) -> Result<Ring, Memory>
    ensures { IfOk result (λ ring. ring ≡ 1 ∷ 2 ∷ 3 ∷ 4 ∷ []) }
{
    Ring::from_points(
        alloc,
        &[point(rt, 1), point(rt, 2), point(rt, 3), point(rt, 4)],
    )
}

fn has_points_of_square(ring: &Ring) -> bool
    ensures { result ≡ list_all (λ p. nat_le 1 p && nat_le p 4) ring.now }
{
    ring.points()
        .iter()
        .all(|point| 1 <= point.get() && point.get() <= 4)
}

fn sum_of<F: SideMeasure>(rt: &impl Abort, ring: &Ring, measure: &F) -> i128 {
    assert!(rt; ring.len() <= RING_LIMIT);
    assert!(rt; has_points_of_square(ring));
    ring.sum(&positions(rt), measure)
}

// The doubled area, and how often a ring winds round the middle, a place near point 4 and one outside.
fn measures(rt: &impl Abort, ring: &Ring) -> [i128; 4] {
    let middle = Winding {
        at: at(rt, (500, 500)),
    };
    let near_four = Winding {
        at: at(rt, (250, 750)),
    };
    let outside = Winding {
        at: at(rt, (500, 1500)),
    };
    [
        sum_of(rt, ring, &DoubledArea),
        sum_of(rt, ring, &middle),
        sum_of(rt, ring, &near_four),
        sum_of(rt, ring, &outside),
    ]
}

// A ring has these measures.
fn adds_up(rt: &impl Abort, ring: &Ring, wanted: [i128; 4]) {
    assert_eq!(rt; measures(rt, ring), wanted);
}

fn is_written(ring: &Ring, numbers: &[u32]) -> bool {
    ring.len() == numbers.len()
        && ring
            .points()
            .iter()
            .zip(numbers)
            .all(|(point, number)| point.get() == *number)
}

fn is_side(side: Option<(PointNo, PointNo)>, from: u32, to: u32) -> bool {
    match side {
        Some((a, b)) => a.get() == from && b.get() == to,
        None => false,
    }
}

#[test]
fn goes_round(rt: HostRuntime) -> Result<(), Fail> {
    let ring = Ring::from_points(rt.alloc(), &[point(&rt, 3), point(&rt, 1), point(&rt, 2)])?;
    assert_eq!(rt; ring.len(), 3);
    assert_eq!(rt; ring.anchor().get(), 1);
    let copied = ring.copy()?;
    let mut sides = copied.sides();
    for (from, to) in [(3, 1), (1, 2), (2, 3)] {
        assert!(rt; is_side(sides.next(), from, to), "from {from}");
    }
    assert!(rt; sides.next().is_none());
    assert_eq!(rt; copied.points().len(), 3);
    Ok(())
}

#[test]
fn adds_measures_up(rt: HostRuntime) -> Result<(), Fail> {
    let ring = square(&rt, rt.alloc())?;
    adds_up(&rt, &ring, [2_000_000, 1, 1, 0]);
    let (left, right) = ring.cut_by_chain(0, 2, &[])?;
    adds_up(&rt, &left, [1_000_000, 0, 1, 0]);
    adds_up(&rt, &right, [1_000_000, 1, 0, 0]);
    Ok(())
}

#[test]
fn goes_back(rt: HostRuntime) -> Result<(), Fail> {
    let points = [
        point(&rt, 9),
        point(&rt, 10),
        point(&rt, 11),
        point(&rt, 12),
    ];
    let back = Ring::from_points(rt.alloc(), &points)?.reversed()?;
    assert!(rt; is_written(&back, &[12, 11, 10, 9]));
    let outside = square(&rt, rt.alloc())?.reversed()?;
    adds_up(&rt, &outside, [-2_000_000, -1, -1, 0]);
    Ok(())
}

#[test]
fn puts_and_drops_points(rt: HostRuntime) -> Result<(), Fail> {
    let ring = square(&rt, rt.alloc())?;
    let inside = ring.put_between(point(&rt, 2), point(&rt, 3), point(&rt, 5))?;
    assert!(rt; is_written(&inside, &[1, 2, 5, 3, 4]));
    let last = ring.put_between(point(&rt, 4), point(&rt, 1), point(&rt, 5))?;
    assert!(rt; is_written(&last, &[1, 2, 3, 4, 5]));
    let dropped = ring.drop_point(point(&rt, 3))?;
    assert!(rt; is_written(&dropped, &[1, 2, 4]));
    Ok(())
}

#[test]
fn cuts_and_joins(rt: HostRuntime) -> Result<(), Fail> {
    let ring = square(&rt, rt.alloc())?;
    let (left, right) = ring.cut_by_chain(0, 2, &[])?;
    assert!(rt; is_written(&left, &[1, 3, 4]));
    assert!(rt; is_written(&right, &[3, 1, 2]));
    let joined = left.join_along(&right, 0, 0, 1)?;
    assert!(rt; is_written(&joined, &[3, 4, 1, 2]));
    let (left, right) = ring.cut_by_chain(2, 0, &[point(&rt, 5), point(&rt, 6)])?;
    assert!(rt; is_written(&left, &[3, 5, 6, 1, 2]));
    assert!(rt; is_written(&right, &[1, 6, 5, 3, 4]));
    let joined = left.join_along(&right, 0, 0, 3)?;
    assert!(rt; is_written(&joined, &[1, 2, 3, 4]));
    Ok(())
}

#[test]
fn is_made_canonical_by_its_least_rotation(rt: HostRuntime) -> Result<(), Fail> {
    let mut ring = Ring::from_points(rt.alloc(), &[point(&rt, 3), point(&rt, 1), point(&rt, 2)])?;
    ring.make_canonical();
    assert!(rt; is_written(&ring, &[1, 2, 3]));
    // Point 1 is passed twice: the rotation that goes on to the lesser point is canonical.
    let mut twice = Ring::from_points(
        rt.alloc(),
        &[
            point(&rt, 1),
            point(&rt, 5),
            point(&rt, 4),
            point(&rt, 1),
            point(&rt, 2),
            point(&rt, 3),
        ],
    )?;
    twice.make_canonical();
    assert!(rt; is_written(&twice, &[1, 2, 3, 1, 5, 4]));
    assert!(rt; comes_first(ring.points(), twice.points()));
    assert!(rt; !comes_first(twice.points(), ring.points()));
    Ok(())
}

#[test]
fn tells_what_comes_after_a_side(rt: HostRuntime) -> Result<(), Fail> {
    let ring = square(&rt, rt.alloc())?;
    assert!(rt; ring.has_side(point(&rt, 4), point(&rt, 1)));
    assert!(rt; !ring.has_side(point(&rt, 1), point(&rt, 4)));
    let after = ring
        .after(point(&rt, 4), point(&rt, 1))
        .ok_or("no point after")?;
    assert_eq!(rt; after.get(), 2);
    assert!(rt; ring.after(point(&rt, 1), point(&rt, 3)).is_none());
    Ok(())
}
