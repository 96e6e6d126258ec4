//! Sweeps over boxes and spans, and repeated values.
ghost use Rattle.std.specs.Prelude.{◌≡◌, length, IfOk, false};
ghost use Rattle.sweep.specs.Extents.{HasExtents};

use std::alloc::{AllocError, Global};
use std::test::Fail;
use sweep::{
    Extent, PairTest, Span, all_of_two_groups_pass, all_that_meet_pass, all_that_overlap_pass,
    first_repeated, row_height,
};

/// No two pass.
struct NonePass;

impl PairTest for NonePass {
    ghost passes = { λ s first second. false };

    fn pass(&self, _first: usize, _second: usize) -> bool {
        false
    }
}

/// Boxes by the left, bottom, width and height of each.
fn boxes(alloc: Global, sides: &[(u32, u32, u32, u32)]) -> Result<Vec<Extent>, AllocError>
    ensures extents { IfOk result (λ boxes. HasExtents boxes.items) }
    ensures count { IfOk result (λ boxes. length boxes.items ≡ length sides.now) }
{
    let mut boxes = Vec::new(alloc);
    for (left, bottom, width, height) in sides {
        let left = u64::from(*left);
        let bottom = u64::from(*bottom);
        boxes.push(Extent {
            left,
            right: left + u64::from(*width),
            bottom,
            top: bottom + u64::from(*height),
        })?;
    }
    Ok(boxes)
}

/// Whether some two of these boxes are tested, in rows of the height that is theirs.
fn some_are_tested(alloc: Global, sides: &[(u32, u32, u32, u32)]) -> Result<bool, AllocError> {
    let boxes = boxes(alloc, sides)?;
    let height = row_height(&boxes);
    Ok(!all_that_overlap_pass(alloc, &NonePass, &boxes, height)?)
}

/// Whether some two of these boxes are tested where each has the group at its place.
fn some_of_groups_are_tested(
    alloc: Global,
    sides: &[(u32, u32, u32, u32)],
    groups: &[u64],
) -> Result<bool, AllocError>
    requires { length groups.now ≡ length sides.now }
{
    let boxes = boxes(alloc, sides)?;
    let groups = Vec::from_slice(alloc, groups)?;
    Ok(!all_of_two_groups_pass(alloc, &NonePass, boxes, groups)?)
}

#[test]
fn boxes_of_two_groups_that_overlap_are_tested(rt: HostRuntime) -> Result<(), Fail> {
    let alloc = rt.alloc();
    let two = [(0, 0, 5, 5), (5, 5, 9, 900)];
    assert!(rt; some_of_groups_are_tested(alloc, &two, &[1, 2])?);
    assert!(rt; !some_of_groups_are_tested(alloc, &two, &[7, 7])?);
    assert!(rt; !some_of_groups_are_tested(alloc, &[(0, 0, 5, 5), (6, 5, 9, 900)], &[1, 2])?);
    Ok(())
}

// Boxes, and whether some two of them are tested.
const LAID: &[(&[(u32, u32, u32, u32)], bool)] = &[
    (&[], false),
    (&[(0, 0, 5, 5)], false),
    // at a corner, apart across, and with no row in common
    (&[(0, 0, 5, 5), (5, 5, 9, 900)], true),
    (&[(0, 0, 5, 5), (6, 5, 9, 900)], false),
    (&[(0, 0, 5, 5), (5, 460, 9, 900)], false),
    // a point in a box, in its last row
    (&[(0, 0, 70, 1000), (9, 4000, 0, 0), (9, 1000, 0, 0)], true),
    // a bar across a post
    (&[(0, 500, 4_000_000_000, 1), (77, 0, 1, 1000)], true),
];

#[test]
fn boxes_that_overlap_are_tested(rt: HostRuntime) -> Result<(), Fail> {
    for (sides, are) in LAID {
        assert_eq!(rt; some_are_tested(rt.alloc(), sides)?, *are);
    }
    Ok(())
}

#[test]
fn heights_of_rows(rt: HostRuntime) -> Result<(), Fail> {
    let alloc = rt.alloc();
    assert_eq!(rt; row_height(&[]), 64);
    assert_eq!(rt;
        row_height(&boxes(alloc, &[(1, 1, 3000, 65), (4, 4, 0, 62)])?),
        64
    );
    assert_eq!(rt;
        row_height(&boxes(alloc, &[(1, 1, 0, 100), (4, 4, 0, 0), (4, 4, 0, 200)])?),
        100
    );
    Ok(())
}

#[test]
fn spans_meet(rt: HostRuntime) {
    let span = |low, high, place| Span { low, high, place };
    // of one place
    assert!(rt; all_that_meet_pass(&NonePass, &mut [span(3, 5, 1), span(0, 4, 1)]));
    assert!(rt; all_that_meet_pass(&NonePass, &mut [span(5, 5, 1), span(0, 4, 2)]));
    assert!(rt;
        !all_that_meet_pass(
            &NonePass,
            &mut [span(4, 5, 1), span(9, 9, 3), span(0, 4, 2)]
        )
    );
}

#[test]
fn a_repeated_value_is_told_by_its_least_later_place(rt: HostRuntime) -> Result<(), Fail> {
    let alloc = rt.alloc();
    assert_eq!(rt; first_repeated(alloc, &[])?, None);
    assert_eq!(rt; first_repeated(alloc, &[7, 0, u64::MAX, 3])?, None);
    // 9 stands again before 2 does, and a third time later
    assert_eq!(rt; first_repeated(alloc, &[2, 9, 5, 9, 2, 9])?, Some(3));
    assert_eq!(rt; first_repeated(alloc, &[8, 1, 4, 8])?, Some(3));
    Ok(())
}
