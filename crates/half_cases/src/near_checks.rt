//! The check near an edit beside the whole one: both tell the same of the map that an edit makes. The near one goes
//! through no list of all rows, and asks no more often where the map is larger.
ghost use Rattle.std.specs.Prelude.{◌≡◌, ◌≤◌, length};
ghost use Rattle.cad_map.specs.Effects.{after};
ghost use Rattle.cad_map.specs.Valid.{IsValid, CanBeTested};
ghost use Rattle.cad_laws.specs.Tried.{IsTried};
ghost use Rattle.cad_near.specs.KeptAreas.{HoldsAreas};
ghost use Rattle.cad_near.specs.Near.{HoldsMap, ComesFromValid, touched_of};

use crate::counted::Counted;
use crate::far::{
    Corners, LOW, POINTED, ROUND_NEXT, TALL, far_plan, long_lot, with_first_island, with_islands,
    with_petals,
};
use crate::plans::{ISLAND, Plan, SQUARE, SQUARE_RECORDS, edit_of, map_of, text_of};
use crate::plans_after::{DIVIDED, DIVIDED_ISLAND, JOINED};
use crate::plans_enclosed::{ENCLOSE_NINE, FREE_CORNERS, WITH_FRAME, WITH_NINE_POINTS};
use cad_edit::try_edit;
use cad_map::{MapView, PlainMap};
use cad_near::{FaceAreas, Touched, first_broken_near};
use cad_rows::{Edit, Face, Memory, Rule};
use cad_surgery::touched_by;
use cad_valid::first_broken;
use cell_grid::CellGrid;
use edit_records::{grid_of, turn_areas};
use std::alloc::Global;
use std::process::Abort;
use std::test::Fail;

/// What makes the square three parcels: one on each side of its diagonal, and one in its corner at point 2.
const CORNER_RECORDS: &str =
    "point,5,600,0; point,6,1000,400; parcel,2,B; parcel,3,C; string,11,1,5,1,0; \
    string,12,2,6,2,0; string,13,3,4,3,0; string,14,4,1,3,0; string,15,5,2,2,0; \
    string,16,6,3,1,0; string,21,1,3,3,1; string,22,5,6,1,2";

/// An island in that corner.
const ISLAND_IN_CORNER: &str =
    "point,7,800,50; point,8,900,50; point,9,900,150; parcel,4,D; string,31,7,8,4,2; \
    string,32,8,9,4,2; string,33,9,7,4,2";

/// The square in those parcels.
const WITH_CORNER: Plan = &[SQUARE_RECORDS, CORNER_RECORDS];

/// The same with that island.
const WITH_ISLAND_IN_CORNER: Plan = &[SQUARE_RECORDS, CORNER_RECORDS, ISLAND_IN_CORNER];

/// What a check told of a map, and how often it asked: at all, for a row by its place, and for the area of a ring.
#[derive(Drop)]
struct Told {
    rule: Option<Rule>,
    calls: u64,
    by_place: u64,
    areas: u64,
}

/// The areas of those of these faces that have one ring on a map.
fn areas_of(alloc: Global, map: &PlainMap, faces: &[Face]) -> FaceAreas
    requires { IsValid map.now }
    ensures { HoldsAreas result map.now }
{
    let mut areas = FaceAreas::none(alloc, map.hash());
    for face in faces {
        areas.keep_of(map, face);
    }
    areas
}

/// What the near check tells.
fn told_near(
    alloc: Global,
    made: &PlainMap,
    grid: &CellGrid,
    areas: &FaceAreas,
    touched: &Touched,
) -> Told
    requires tested { CanBeTested made.now }
    requires held { HoldsMap grid.now made.now }
    requires areas { HoldsAreas areas.now made.now }
    requires touched { ComesFromValid (touched_of touched.now) made.now }
{
    let view = Counted::new(made);
    let rule = first_broken_near(alloc, &view, grid, areas, touched);
    let (calls, by_place, areas) = view.counted();
    Told {
        rule,
        calls,
        by_place,
        areas,
    }
}

/// What the whole check tells.
fn told_whole(made: &PlainMap) -> Told
    requires { CanBeTested made.now }
{
    let view = Counted::new(made);
    let rule = first_broken(&view);
    let (calls, by_place, areas) = view.counted();
    Told {
        rule,
        calls,
        by_place,
        areas,
    }
}

/// What the near check tells of the map that an edit makes of another.
fn told_after(
    alloc: Global,
    before: &PlainMap,
    edit: &Edit,
    made: &PlainMap,
) -> Result<Told, Memory>
    requires tried { IsTried before.now edit.now }
    requires made { made.now ≡ after before.now edit.now }
    requires tested { CanBeTested made.now }
{
    let grid = grid_of(alloc, made)?;
    let touched = touched_by(alloc, before, edit)?;
    let mut areas = areas_of(alloc, before, touched.faces.as_slice());
    turn_areas(&mut areas, before, edit, &touched);
    Ok(told_near(alloc, made, &grid, &areas, &touched))
}

/// How often the near check asks of the map that an edit makes. Fails where it tells another rule than the whole one, or
/// asks for a point, a string or a parcel by its place.
pub(crate) fn check_edit<R: Abort + AllocGlobal>(
    rt: &R,
    map: &PlainMap,
    edit: &Edit,
) -> Result<u64, Memory>
    requires { IsValid map.now }
{
    let Ok(made) = try_edit(map, edit) else {
        return Ok(0);
    };
    let near = told_after(rt.alloc(), map, edit, &made)?;
    let whole = told_whole(&made);
    assert!(rt; near.rule == whole.rule);
    assert_eq!(rt; near.by_place, 0);
    assert!(rt; whole.by_place > 0 || made.counts().points == 0);
    Ok(near.calls)
}

/// How often the near check asks of the map that an edit of a plan makes.
fn calls_after<R: Abort + AllocGlobal>(rt: &R, plan: &str, edit: &str) -> Result<u64, Fail> {
    let map = map_of(rt.alloc(), plan)?;
    let edit = edit_of(rt.alloc(), edit)?;
    Ok(check_edit(rt, &map, &edit)?)
}

/// Fails where the near check asks nothing of the map that one of these edits makes.
fn check_edits<R: Abort + AllocGlobal>(rt: &R, edits: &[(Plan, &'static str)]) -> Result<(), Fail> {
    for (plan, edit) in edits {
        let text = text_of(rt.alloc(), plan)?;
        let calls = calls_after(rt, text.as_str(), edit)?;
        assert!(rt; calls > 0);
    }
    Ok(())
}

#[test]
fn points_and_strings_changed(rt: HostRuntime) -> Result<(), Fail> {
    check_edits(
        &rt,
        &[
            (SQUARE, "split,11,5,500,0,22,23"),
            (SQUARE, "join,1,21"),
            (JOINED, "join,2,22"),
            (SQUARE, "move,3,500,-500"),
            (SQUARE, "move,3,-1000,-1000"),
            (SQUARE, "move,3,1200,1000"),
            (SQUARE, "add-point,5,500,500"),
            (SQUARE, "add-point,6,1000,1000"),
            (SQUARE, "add-point,6,500,0"),
        ],
    )
}

#[test]
fn parcels_divided_and_merged(rt: HostRuntime) -> Result<(), Fail> {
    check_edits(
        &rt,
        &[
            (SQUARE, "divide,1,1 3,21,2,C,1"),
            (SQUARE, "divide,1,3 1,21,2,C,1"),
            (DIVIDED, "merge,1,2"),
            (ISLAND, "divide,1,1 3,21,3,C,1"),
            (DIVIDED_ISLAND, "merge,1,3"),
            (ISLAND, "move,3,400,400"),
            (ISLAND, "merge,1,2"),
            (ISLAND, "merge,2,1"),
        ],
    )
}

#[test]
fn islands_enclosed(rt: HostRuntime) -> Result<(), Fail> {
    check_edits(
        &rt,
        &[
            (FREE_CORNERS, "enclose,0,1 2 3 4,11 12 13 14,1,A,1"),
            (FREE_CORNERS, "enclose,0,4 3 2 1,11 12 13 14,1,A,1"),
            (WITH_FRAME, "enclose,1,9 10 11 12,41 42 43 44,3,C,1"),
            (WITH_FRAME, "enclose,2,9 10 11 12,41 42 43 44,3,C,1"),
            (WITH_FRAME, "enclose,1,9 10 11,41 42 43,3,C,1"),
        ],
    )
}

#[test]
fn division_is_checked_no_longer_on_a_larger_map(rt: HostRuntime) -> Result<(), Fail> {
    let division = "divide,1,1 3,21,2,C,1";
    let square = text_of(rt.alloc(), SQUARE)?;
    let far = far_plan(rt.alloc(), square.as_str())?;
    let few = calls_after(&rt, square.as_str(), division)?;
    let many = calls_after(&rt, far.as_str(), division)?;
    assert!(rt; few > 0);
    assert_eq!(rt; few, many);
    Ok(())
}

/// What the near check alone tells of the map that an edit makes.
fn told_of_edit(alloc: Global, map: &PlainMap, edit: &Edit) -> Result<Told, Fail>
    requires { IsValid map.now }
{
    match try_edit(map, edit) {
        Ok(made) => Ok(told_after(alloc, map, edit, &made)?),
        Err(_) => Err(Fail::from("an edit that is made")),
    }
}

/// How often the near check alone asks of the map that an edit of a plan makes. Fails where it asks for a point, a string
/// or a parcel by its place.
fn near_calls<R: Abort + AllocGlobal>(rt: &R, plan: &str, edit: &str) -> Result<u64, Fail> {
    let map = map_of(rt.alloc(), plan)?;
    let edit = edit_of(rt.alloc(), edit)?;
    let near = told_of_edit(rt.alloc(), &map, &edit)?;
    assert_eq!(rt; near.by_place, 0);
    Ok(near.calls)
}

/// Fails where the near check asks more or less often on a larger plan.
fn check_larger<R: Abort + AllocGlobal>(
    rt: &R,
    plan: &str,
    larger: &str,
    edit: &str,
) -> Result<(), Fail> {
    let few = near_calls(rt, plan, edit)?;
    let many = near_calls(rt, larger, edit)?;
    assert!(rt; few > 0);
    assert_eq!(rt; few, many);
    Ok(())
}

/// And where the plan has a hundred far squares more.
fn check_far<R: Abort + AllocGlobal>(rt: &R, plan: Plan, edit: &str) -> Result<(), Fail> {
    let near = text_of(rt.alloc(), plan)?;
    let far = far_plan(rt.alloc(), near.as_str())?;
    check_larger(rt, near.as_str(), far.as_str(), edit)
}

#[test]
fn what_lies_near_is_seen_without_its_rows(rt: HostRuntime) -> Result<(), Fail> {
    // The box of the diagonal has the island, in a parcel that the edit doesn't touch.
    let few = text_of(rt.alloc(), WITH_CORNER)?;
    let more = text_of(rt.alloc(), WITH_ISLAND_IN_CORNER)?;
    check_larger(&rt, few.as_str(), more.as_str(), "move,3,1100,1100")
}

#[test]
fn islands_and_mergers_are_checked_no_longer_on_a_larger_map(rt: HostRuntime) -> Result<(), Fail> {
    for (plan, edit) in [
        (WITH_FRAME, "enclose,1,9 10 11 12,41 42 43 44,3,C,1"),
        (WITH_NINE_POINTS, ENCLOSE_NINE),
        (DIVIDED, "merge,1,2"),
        (ISLAND, "merge,1,2"),
    ] {
        check_far(&rt, plan, edit)?;
    }
    Ok(())
}

/// The rule that the near check tells of the map that an edit makes of a plan's. Fails where the whole check tells
/// another.
fn rule_after<R: Abort + AllocGlobal>(
    rt: &R,
    plan: &str,
    edit: &str,
) -> Result<Option<Rule>, Fail> {
    let map = map_of(rt.alloc(), plan)?;
    let edit = edit_of(rt.alloc(), edit)?;
    check_edit(rt, &map, &edit)?;
    Ok(told_of_edit(rt.alloc(), &map, &edit)?.rule)
}

/// Fails where an edit of a lot with so many islands breaks another rule than the one told here.
fn check_islands<R: Abort + AllocGlobal>(rt: &R, count: u32) -> Result<(), Fail>
    requires { count ≤ 1000 }
{
    let plan = with_islands(rt.alloc(), count)?;
    for (edit, rule) in [
        ("move,11,1400,1200,,,", None),
        // The tall island's anchor is moved.
        ("move,10,900,500,,,", None),
        // The tall island's tip goes past the next island, which is in it then.
        ("move,11,2900,1200,,,", Some(Rule::V8)),
        // The lot is folded away from its islands.
        ("move,3,100,100,,,", Some(Rule::V8)),
        // The tall island's tip goes past its base.
        ("move,11,900,1200,,,", Some(Rule::V7)),
    ] {
        assert!(rt; rule_after(rt, plan.as_str(), edit)? == rule);
    }
    Ok(())
}

#[test]
fn faces_of_many_rings_are_told_as_others(rt: HostRuntime) -> Result<(), Fail> {
    check_islands(&rt, 12)
}

#[test]
fn faces_of_very_many_rings_are_told_as_others(rt: HostRuntime) -> Result<(), Fail> {
    check_islands(&rt, 24)
}

#[test]
fn corners_at_a_point_of_many_strings_are_told_as_others(rt: HostRuntime) -> Result<(), Fail> {
    let plan = with_petals(rt.alloc(), 6)?;
    for (edit, rule) in [
        ("move,1,0,50,,,", None),
        // The first petal opens, as far as the second.
        ("move,3,1000,150,,,", None),
        // The first petal goes round the second.
        ("move,3,4000,1400,,,", Some(Rule::V6)),
    ] {
        assert!(rt; rule_after(&rt, plan.as_str(), edit)? == rule);
    }
    Ok(())
}

#[test]
fn many_rings_are_walked_once_each(rt: HostRuntime) -> Result<(), Fail> {
    let few = with_islands(rt.alloc(), 12)?;
    let many = with_islands(rt.alloc(), 24)?;
    // The tip goes past the next island, so each ring is looked at.
    let calls = near_calls(&rt, few.as_str(), "move,11,2900,1200,,,")?;
    let more = near_calls(&rt, many.as_str(), "move,11,2900,1200,,,")?;
    assert!(rt; calls < more && more < calls.saturating_mul(3));
    Ok(())
}

#[test]
fn a_move_among_many_rings_walks_those_that_pass_the_point(rt: HostRuntime) -> Result<(), Fail> {
    check_among_islands(&rt, TALL, "move,11,1400,1200")?;
    // It goes up past a neighbour in the west.
    check_among_islands(&rt, TALL, "move,11,1400,1750")?;
    // The point is its island's anchor.
    check_among_islands(&rt, TALL, "move,10,900,500")
}

/// Fails where an edit of a lot with many islands, of which the first one has these corners, asks more or less often
/// among more of them.
fn check_among_islands<R: Abort + AllocGlobal>(
    rt: &R,
    corners: Corners,
    edit: &str,
) -> Result<(), Fail>
    requires { length corners.now ≤ 10 }
{
    let few = with_first_island(rt.alloc(), 12, corners)?;
    let many = with_first_island(rt.alloc(), 24, corners)?;
    check_larger(rt, few.as_str(), many.as_str(), edit)
}

#[test]
fn a_split_and_a_join_among_many_rings_walk_those_that_pass_there(
    rt: HostRuntime,
) -> Result<(), Fail> {
    check_among_islands(&rt, TALL, "split,11,900,1400,1500,901,902")?;
    check_among_islands(&rt, POINTED, "join,12,900")
}

/// Fails where an edit of a lot with many islands, of which the first one has these corners, breaks another rule.
fn check_first_island<R: Abort + AllocGlobal>(
    rt: &R,
    corners: Corners,
    edit: &str,
    rule: Option<Rule>,
) -> Result<(), Fail>
    requires { length corners.now ≤ 10 }
{
    let plan = with_first_island(rt.alloc(), 12, corners)?;
    assert!(rt; rule_after(rt, plan.as_str(), edit)? == rule);
    Ok(())
}

#[test]
fn a_split_and_a_join_among_many_rings_are_told_as_others(rt: HostRuntime) -> Result<(), Fail> {
    check_first_island(&rt, TALL, "split,11,900,1400,1500,901,902", None)?;
    // The two new sides go round the next island.
    check_first_island(&rt, LOW, "split,11,900,2950,1200,901,902", Some(Rule::V8))?;
    check_first_island(&rt, POINTED, "join,12,900", None)?;
    // The new side closes the island that goes round the next one.
    check_first_island(&rt, ROUND_NEXT, "join,12,900", Some(Rule::V8))
}

/// How often the near check alone asks for the area of a ring of the map that an edit of a plan makes.
fn areas_asked<R: Abort + AllocGlobal>(rt: &R, plan: &str, edit: &str) -> Result<u64, Fail> {
    let map = map_of(rt.alloc(), plan)?;
    let edit = edit_of(rt.alloc(), edit)?;
    Ok(told_of_edit(rt.alloc(), &map, &edit)?.areas)
}

#[test]
fn an_area_that_is_kept_is_not_added_up_anew(rt: HostRuntime) -> Result<(), Fail> {
    let lot = long_lot(rt.alloc(), 40)?;
    for edit in ["move,5,50,-3,,,", "split,5,900,55,-3,901,902", "join,5,900"] {
        assert_eq!(rt; areas_asked(&rt, lot.as_str(), edit)?, 0);
    }
    // No area of a parcel that comes is kept before it is there.
    assert!(rt; areas_asked(&rt, lot.as_str(), "divide,1,5 76,900,2,B,1")? > 0);
    Ok(())
}

#[test]
fn a_face_between_many_strings_of_a_point_is_walked_once(rt: HostRuntime) -> Result<(), Fail> {
    let few = with_petals(rt.alloc(), 40)?;
    let many = with_petals(rt.alloc(), 80)?;
    let calls = near_calls(&rt, few.as_str(), "move,1,0,50,,,")?;
    let more = near_calls(&rt, many.as_str(), "move,1,0,50,,,")?;
    assert!(rt; calls < more && more < calls.saturating_mul(3));
    Ok(())
}
