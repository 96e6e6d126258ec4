//! What an edit of parcels costs: the weight of its record and the work on the table, both the same where the map is
//! larger.
ghost use Rattle.std.specs.Prelude.{◌≤◌};
ghost use Rattle.cad_map.specs.Valid.{IsValid};
ghost use Rattle.map_parts.specs.Parts.{map_of as map_that_stands};

use crate::far::{far_plan, long_lot};
use crate::plans::{ISLAND, Plan, SQUARE, edit_of, map_of, text_of};
use crate::plans_after::DIVIDED;
use crate::plans_enclosed::WITH_FRAME;
use cad_map::{MapStore, PlainMap};
use cad_rows::Edit;
use cad_surgery::{HalfMap, weight};
use half_table::Ticks;
use std::alloc::Global;
use std::process::Abort;
use std::test::Fail;

/// The weight of a record, and the work on the table while it was made.
#[derive(Drop)]
struct Cost {
    weight: u64,
    work: u64,
}

/// What an edit costs that is made on a map on half-edges. None where it is refused.
fn cost_on(map: &mut HalfMap<Ticks>, edit: &Edit) -> Option<Cost>
    requires { IsValid (map_that_stands map.old) }
{
    let before = map.table().work();
    match map.apply(edit) {
        Ok(change) => Some(Cost {
            weight: weight(&change),
            work: map.table().work().saturating_sub(before),
        }),
        Err(_) => None,
    }
}

/// What an edit costs that is made on the half-edges of a map.
fn cost_on_halves(alloc: Global, map: &PlainMap, edit: &Edit) -> Result<Cost, Fail>
    requires { IsValid map.now }
{
    let mut halves = HalfMap::of(alloc, map, Ticks::new())?;
    Ok(cost_on(&mut halves, edit).ok_or("an edit that is made")?)
}

/// What an edit of a plan costs.
fn cost_of(alloc: Global, plan: &str, edit: &str) -> Result<Cost, Fail> {
    let map = map_of(alloc, plan)?;
    let edit = edit_of(alloc, edit)?;
    cost_on_halves(alloc, &map, &edit)
}

/// Fails where the record of an edit has another weight, or where either grows with a hundred far squares more.
fn check_far<R: Abort + AllocGlobal>(
    rt: &R,
    plan: Plan,
    edit: &str,
    wanted: u64,
) -> Result<(), Fail> {
    let near = text_of(rt.alloc(), plan)?;
    let far = far_plan(rt.alloc(), near.as_str())?;
    let few = cost_of(rt.alloc(), near.as_str(), edit)?;
    let many = cost_of(rt.alloc(), far.as_str(), edit)?;
    assert_eq!(rt; few.weight, wanted);
    assert_eq!(rt; many.weight, wanted);
    assert!(rt; few.work > 0);
    assert_eq!(rt; few.work, many.work);
    Ok(())
}

#[test]
fn edits_cost_no_more_on_a_larger_map(rt: HostRuntime) -> Result<(), Fail> {
    for (plan, edit, wanted) in [
        (SQUARE, "divide,1,1 3,21,2,C,1", 9),
        (WITH_FRAME, "enclose,1,9 10 11 12,41 42 43 44,3,C,1", 13),
        (DIVIDED, "merge,1,2", 12),
        (ISLAND, "merge,1,2", 13),
    ] {
        check_far(&rt, plan, edit, wanted)?;
    }
    Ok(())
}

/// The weight of the record of an edit on a lot with so many points on each of its long sides.
fn weight_on_long_lot(alloc: Global, half: u32, edit: &str) -> Result<u64, Fail>
    requires { half ≤ 500 }
{
    let plan = long_lot(alloc, half)?;
    let cost = cost_of(alloc, plan.as_str(), edit)?;
    Ok(cost.weight)
}

#[test]
fn record_of_a_division_is_as_small_on_a_long_lot(rt: HostRuntime) -> Result<(), Fail> {
    let few = weight_on_long_lot(rt.alloc(), 5, "divide,1,1 6,11,2,C,1")?;
    let many = weight_on_long_lot(rt.alloc(), 500, "divide,1,1 501,1001,2,C,1")?;
    assert!(rt; many <= 14);
    assert_eq!(rt; few, many);
    Ok(())
}
