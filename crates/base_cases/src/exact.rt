//! Exact tests on positions.
use crate::values::at;
use geo_exact::{
    DoubledArea, Pt, SideMeasure, Winding, crosses, have_boxes_in_common, in_sector, meets,
    on_segment, one_direction_is_first, orient,
};

#[test]
fn takes_coordinates_within_the_limit(rt: HostRuntime) {
    for (x, y, is_in) in [
        (10_000_000_000, -10_000_000_000, true),
        (-10_000_000_000, 10_000_000_000, true),
        (10_000_000_001, 0, false),
        (-10_000_000_001, 0, false),
        (0, 10_000_000_001, false),
        (0, -10_000_000_001, false),
    ] {
        assert_eq!(rt; Pt::new(x, y).is_some(), is_in, "at {x}, {y}");
    }
    let p = at(&rt, (-7, 10_000_000_000));
    assert!(rt; p.x == -7 && p.y == 10_000_000_000);
}

#[test]
fn orients(rt: HostRuntime) {
    for (r, area) in [
        (10_000_000_000, 400_000_000_000_000_000_000),
        (1_000_000_000, 4_000_000_000_000_000_000),
    ] {
        assert_eq!(rt;
            orient(at(&rt, (-r, -r)), at(&rt, (r, -r)), at(&rt, (r, r))),
            area,
            "at {r}"
        );
    }
}

#[test]
fn finds_common_locations(rt: HostRuntime) {
    let a = at(&rt, (0, 0));
    let b = at(&rt, (4, 0));
    for (cx, cy, dx, dy, does_meet) in [
        (2, 0, 6, 0, true),
        (2, 0, 2, 5, true),
        (5, 0, 6, 0, false),
        (4, 0, 9, 9, true),
    ] {
        assert_eq!(rt;
            meets(a, b, at(&rt, (cx, cy)), at(&rt, (dx, dy))),
            does_meet,
            "at {cx}, {cy}"
        );
    }
    assert!(rt; on_segment(a, b, at(&rt, (2, 0))));
    assert!(rt; !on_segment(a, b, at(&rt, (5, 0))));
}

#[test]
fn finds_boxes_in_common(rt: HostRuntime) {
    let a = at(&rt, (0, 4));
    let b = at(&rt, (4, 0));
    for (cx, cy, dx, dy, have_common) in [
        (3, 3, 9, 9, true),
        (4, 4, 9, 9, true),
        (5, 0, 9, 4, false),
        (0, -9, 4, -1, false),
    ] {
        assert_eq!(rt;
            have_boxes_in_common(a, b, at(&rt, (cx, cy)), at(&rt, (dx, dy))),
            have_common,
            "at {cx}, {cy}"
        );
    }
}

#[test]
fn tells_sectors(rt: HostRuntime) {
    let v = at(&rt, (0, 0));
    for (nx, ny, px, py, wx, wy, is_in) in [
        (1, 0, 0, 1, 1, 1, true),
        (1, 0, 0, 1, 1, 0, false),
        (0, 1, 1, 0, 1, 1, false),
        (1, 0, -1, 0, 0, -1, false),
        (1, 0, 2, 0, -1, 0, true),
    ] {
        assert_eq!(rt;
            in_sector(v, at(&rt, (nx, ny)), at(&rt, (px, py)), at(&rt, (wx, wy))),
            is_in,
            "from {nx}, {ny} to {px}, {py}: {wx}, {wy}"
        );
    }
    one_direction_is_first(v, at(&rt, (1, 0)), at(&rt, (0, 1)), at(&rt, (-1, -1)));
}

#[test]
fn counts_the_lower_end(rt: HostRuntime) {
    let a = at(&rt, (4, 0));
    let b = at(&rt, (4, 2));
    assert!(rt; crosses(a, b, at(&rt, (0, 0))));
    assert!(rt; !crosses(a, b, at(&rt, (0, 2))));
}

#[test]
fn measures_sides(rt: HostRuntime) {
    let around = Winding {
        at: at(&rt, (0, 0)),
    };
    for (ax, ay, bx, by, area, turn) in [
        (4, 0, 4, 2, 8, 1),
        (4, 2, 4, 0, -8, -1),
        (-4, 0, -4, 2, -8, 0),
    ] {
        let a = at(&rt, (ax, ay));
        let b = at(&rt, (bx, by));
        assert_eq!(rt; DoubledArea.of(a, b), area, "from {ax}, {ay}");
        assert_eq!(rt; around.of(a, b), turn, "from {ax}, {ay}");
    }
}
