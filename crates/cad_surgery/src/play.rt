//! Edits tried on a map on half-edges: made, looked at, and taken back where they break a rule.
ghost use Rattle.std.specs.Prelude.{◌≡◌, ◌↔◌, IsTrue, IfOk, IfErr, OnOk, OnErr};
ghost use Rattle.cad_map.specs.Asked.{GivesInRange};
ghost use Rattle.cad_map.specs.Costs.{work_bound};
ghost use Rattle.cad_map.specs.Effects.{after};
ghost use Rattle.cad_map.specs.Map.{Map};
ghost use Rattle.cad_map.specs.Outcome.{MayRefuse};
ghost use Rattle.cad_map.specs.Touched.{IsTouched};
ghost use Rattle.cad_map.specs.Valid.{IsValid};
ghost use Rattle.cad_laws.specs.Tried.{IsTried};
ghost use Rattle.cad_edit.specs.Admitted.{HasCorners};
ghost use Rattle.cad_near.specs.KeptAreas.{HoldsAreas};
ghost use Rattle.cad_near.specs.Near.{HoldsMap, touched_of};
ghost use Rattle.cad_surgery.specs.AtRest.{IsAtRest};
ghost use Rattle.edit_records.specs.GridEdits.{gone_by, come_by};
ghost use Rattle.edit_records.specs.GridLists.{AreEntries, IsBeside};
ghost use Rattle.map_parts.specs.Parts.{map_of};
ghost use Rattle.edit_records.specs.Record.{edit_of, Holds, Belongs, IsPlaced};
ghost use Rattle.cad_surgery.specs.RowEdits.{is_of_rows, KeepsBeside};
ghost use Rattle.cad_surgery.specs.Trials.{IsReadyFor, IsTakenBack, IsTrialOf, IsMade, StandsBeside};
ghost use Rattle.cad_surgery.specs.Work.{TakesWork};

use crate::draft::Draft;
use crate::edits::added::{back_added, forward_added};
use crate::edits::merged::{back_merge, forward_merge};
use crate::edits::try_adding::try_adding;
use crate::edits::try_join::{back_join, forward_join, try_join};
use crate::edits::try_merge::try_merge;
use crate::edits::try_split::{Halving, back_split, forward_split, try_split};
use cad_map::Corner;
use cad_near::{FaceAreas, Touched, first_broken_near};
use cad_rows::{Edit, Memory, Refusal};
use cell_grid::Entries;
use edit_records::{
    SmallRecord, areas_again, areas_back, at, coming, going, return_areas, touched_by, turn_areas,
    what_comes, what_goes,
};
use half_table::Tally;

// Whether a point came, or lies elsewhere: of the edits of rows alone no other can break a rule.
fn is_placed(change: &SmallRecord) -> bool
    ensures { IsTrue result ↔ IsPlaced change.now }
{
    match change {
        SmallRecord::AddPoint { .. } | SmallRecord::Move { .. } => true,
        _ => false,
    }
}

// Makes an edit of rows alone, and takes it back where it breaks a rule. The grid holds the strings
// and points of the map after it.
fn try_rows<T: Tally>(
    draft: &mut Draft<T>,
    edit: &Edit,
    areas: &FaceAreas,
    touched: &Touched,
) -> Result<SmallRecord, Refusal>
    requires alone { IsTrue (is_of_rows edit.now) }
    requires tried { IsTried (map_of draft.old) edit.now }
    requires held { HoldsMap draft.old.grid (after (map_of draft.old) edit.now) }
    requires areas { HoldsAreas areas.now (after (map_of draft.old) edit.now) }
    requires touched { IsTouched (map_of draft.old) (after (map_of draft.old) edit.now)
        (touched_of touched.now) }
    ensures made { OnOk result (map_of draft.new ≡ after (map_of draft.old) edit.now) }
    ensures valid { OnOk result (IsValid (map_of draft.new)) }
    ensures edit { IfOk result (λ r. edit_of r ≡ edit.now) }
    ensures holds { IfOk result (λ r. Holds r (map_of draft.old)) }
    ensures refused { IfErr result (MayRefuse (map_of draft.old) edit.now) }
    ensures err { OnErr result (map_of draft.new ≡ map_of draft.old) }
    ensures beside { KeepsBeside draft.old draft.new }
{
    let Ok(change) = draft.make_rows(edit) else {
        return Err(Refusal::Memory);
    };
    if !is_placed(&change) {
        return Ok(change);
    }
    let alloc = draft.rows.points.allocator();
    if let Some(rule) = first_broken_near(alloc, draft, draft.grid(), areas, touched) {
        let _ = draft.unmake_rows(&change);
        return Err(Refusal::Breaks(rule));
    }
    Ok(change)
}

// Makes an edit, of a division by the corners that were found, and takes it back where it breaks a
// rule. The grid holds the strings and points of the map after it.
fn try_edit<T: Tally>(
    draft: &mut Draft<T>,
    edit: &Edit,
    corners: Option<(Corner, Corner)>,
    areas: &FaceAreas,
    touched: &Touched,
) -> Result<SmallRecord, Refusal>
    requires ready { IsReadyFor edit.now draft.old areas.now touched.now }
    requires corners { HasCorners (map_of draft.old) edit.now corners }
    ensures { IsTrialOf edit.now draft.old draft.new result }
{
    match edit {
        Edit::Split {
            string,
            point,
            x,
            y,
            first,
            second,
        } => {
            let position = at(*x, *y);
            let halving = Halving {
                point: *point,
                position,
                first: *first,
                second: *second,
            };
            try_split(draft, *string, &halving, areas, touched)
        }
        Edit::Join { point, string } => try_join(draft, *point, *string, areas, touched),
        Edit::Divide { .. } | Edit::Enclose { .. } => {
            try_adding(draft, edit, corners, areas, touched)
        }
        Edit::Merge { kept, ended } => try_merge(draft, *kept, *ended, areas, touched),
        _ => try_rows(draft, edit, areas, touched),
    }
}

// What goes out of the grid by an edit, and what comes in.
#[derive(Drop)]
struct Exchange {
    gone: Entries,
    come: Entries,
}

// What an edit exchanges in the grid, and what it touches.
#[derive(Drop)]
struct Plan {
    exchange: Exchange,
    touched: Touched,
}

fn plan_of<T: Tally>(draft: &Draft<T>, edit: &Edit) -> Result<Plan, Memory>
    requires { IsTried (map_of draft.now) edit.now }
    ensures gone { IfOk result
        (λ p. AreEntries (gone_by (map_of draft.now) edit.now) p.exchange.gone) }
    ensures come { IfOk result
        (λ p. AreEntries (come_by (map_of draft.now) edit.now) p.exchange.come) }
    ensures touched { IfOk result (λ p. IsTouched (map_of draft.now)
        (after (map_of draft.now) edit.now) (touched_of p.touched)) }
{
    let exchange = exchange_by(draft, edit)?;
    let touched = touched_by(draft.rows.points.allocator(), draft, edit)?;
    Ok(Plan { exchange, touched })
}

fn exchange_by<T: Tally>(draft: &Draft<T>, edit: &Edit) -> Result<Exchange, Memory>
    requires { IsTried (map_of draft.now) edit.now }
    ensures gone { IfOk result (λ x. AreEntries (gone_by (map_of draft.now) edit.now) x.gone) }
    ensures come { IfOk result (λ x. AreEntries (come_by (map_of draft.now) edit.now) x.come) }
{
    let alloc = draft.rows.points.allocator();
    let gone = going(alloc, draft, edit)?;
    let come = coming(alloc, draft, edit)?;
    Ok(Exchange { gone, come })
}

/// Makes an edit that nothing speaks against at once, of a division by the corners that were found,
/// and gives its record. Where memory runs out, or it breaks a rule, the map stays. The areas are
/// those that are kept of the map.
pub(crate) fn play<T: Tally>(
    draft: &mut Draft<T>,
    areas: &mut FaceAreas,
    edit: &Edit,
    corners: Option<(Corner, Corner)>,
) -> Result<SmallRecord, Refusal>
    requires tried { IsTried (map_of draft.old) edit.now }
    requires corners { HasCorners (map_of draft.old) edit.now corners }
    requires rest { IsAtRest draft.old }
    requires areas { HoldsAreas areas.old (map_of draft.old) }
    ensures made { OnOk result (map_of draft.new ≡ after (map_of draft.old) edit.now) }
    ensures valid { OnOk result (IsValid (map_of draft.new)) }
    ensures edit { IfOk result (λ r. edit_of r ≡ edit.now) }
    ensures holds { IfOk result (λ r. Holds r (map_of draft.old)) }
    ensures refused { IfErr result (MayRefuse (map_of draft.old) edit.now) }
    ensures err { OnErr result (map_of draft.new ≡ map_of draft.old) }
    ensures rest { IsAtRest draft.new }
    ensures areas { HoldsAreas areas.new (map_of draft.new) }
    ensures work { TakesWork draft.old.table draft.new.table
        (work_bound (map_of draft.old) (after (map_of draft.old) edit.now)) }
{
    let Ok(plan) = plan_of(draft, edit) else {
        return Err(Refusal::Memory);
    };
    let Ok(()) = draft.enter(&plan.exchange.come) else {
        return Err(Refusal::Memory);
    };
    turn_areas(areas, draft, edit, &plan.touched);
    match try_edit(draft, edit, corners, areas, &plan.touched) {
        Ok(change) => {
            draft.withdraw(&plan.exchange.gone);
            draft.keep_bent(areas, edit, &plan.touched);
            Ok(change)
        }
        Err(refusal) => {
            return_areas(areas, draft, edit, &plan.touched);
            draft.withdraw(&plan.exchange.come);
            draft.keep_bent(areas, edit, &plan.touched);
            Err(refusal)
        }
    }
}

// Takes an edit back. The grid stays.
fn back_edit<T: Tally>(draft: &mut Draft<T>, change: &SmallRecord) -> Result<(), Memory>
    requires given { GivesInRange (edit_of change.now) }
    requires beside { StandsBeside (λ m. Belongs change.now m (map_of draft.old)) draft.old }
    ensures { IsTakenBack (λ m. Belongs change.now m (map_of draft.old)) draft.old draft.new
        result }
{
    match change {
        SmallRecord::Split { .. } => back_split(draft, change),
        SmallRecord::Join { .. } => back_join(draft, change),
        SmallRecord::Divide { .. } | SmallRecord::Enclose { .. } => back_added(draft, change),
        SmallRecord::MergeAlong { .. } | SmallRecord::MergeIsland { .. } => {
            back_merge(draft, change)
        }
        _ => draft.unmake_rows(change),
    }
}

// Makes an edit again. The grid stays.
fn forward_edit<T: Tally>(draft: &mut Draft<T>, change: &SmallRecord) -> Result<(), Memory>
    requires given { GivesInRange (edit_of change.now) }
    requires beside { StandsBeside (Belongs change.now (map_of draft.old)) draft.old }
    ensures { IsMade (edit_of change.now) draft.old draft.new result }
{
    match change {
        SmallRecord::Split { .. } => forward_split(draft, change),
        SmallRecord::Join { row, string, .. } => forward_join(draft, row.number, *string),
        SmallRecord::Divide { .. } | SmallRecord::Enclose { .. } => forward_added(draft, change),
        SmallRecord::MergeAlong { .. } | SmallRecord::MergeIsland { .. } => {
            forward_merge(draft, change)
        }
        _ => draft.remake_rows(change),
    }
}

fn exchange_of<T: Tally>(draft: &Draft<T>, change: &SmallRecord) -> Result<Exchange, Memory>
    requires { (b : Map) × IsBeside (map_of draft.now) b (edit_of change.now) × Holds change.now b }
    ensures gone { IfOk result (λ x. (b : Map) → IsBeside (map_of draft.now) b (edit_of change.now)
        → Holds change.now b → AreEntries (gone_by b (edit_of change.now)) x.gone) }
    ensures come { IfOk result (λ x. (b : Map) → IsBeside (map_of draft.now) b (edit_of change.now)
        → Holds change.now b → AreEntries (come_by b (edit_of change.now)) x.come) }
{
    let alloc = draft.rows.points.allocator();
    let gone = what_goes(alloc, draft, change)?;
    let come = what_comes(alloc, draft, change)?;
    Ok(Exchange { gone, come })
}

/// Goes from the map after an edit to the map before it. Where memory runs out the map stays, and no
/// area is kept.
pub(crate) fn play_back<T: Tally>(
    draft: &mut Draft<T>,
    areas: &mut FaceAreas,
    change: &SmallRecord,
) -> Result<(), Memory>
    requires given { GivesInRange (edit_of change.now) }
    requires made { (m : Map) × Belongs change.now m (map_of draft.old) }
    requires rest { IsAtRest draft.old }
    requires areas { HoldsAreas areas.old (map_of draft.old) }
    ensures before { OnOk result ((m : Map) → Belongs change.now m (map_of draft.old)
        → map_of draft.new ≡ m) }
    ensures err { OnErr result (map_of draft.new ≡ map_of draft.old) }
    ensures rest { IsAtRest draft.new }
    ensures areas { HoldsAreas areas.new (map_of draft.new) }
    ensures work { (m : Map) → Belongs change.now m (map_of draft.old)
        → TakesWork draft.old.table draft.new.table (work_bound m (map_of draft.old)) }
{
    let exchange = exchange_of(draft, change)?;
    draft.enter(&exchange.gone)?;
    areas_back(areas, draft, change);
    match back_edit(draft, change) {
        Ok(()) => {
            draft.withdraw(&exchange.come);
            Ok(())
        }
        Err(memory) => {
            areas.clear();
            draft.withdraw(&exchange.gone);
            Err(memory)
        }
    }
}

/// Goes from the map before an edit to the map after it. Where memory runs out the map stays, and no
/// area is kept.
pub(crate) fn play_again<T: Tally>(
    draft: &mut Draft<T>,
    areas: &mut FaceAreas,
    change: &SmallRecord,
) -> Result<(), Memory>
    requires given { GivesInRange (edit_of change.now) }
    requires made { (n : Map) × Belongs change.now (map_of draft.old) n }
    requires rest { IsAtRest draft.old }
    requires areas { HoldsAreas areas.old (map_of draft.old) }
    ensures after { OnOk result (map_of draft.new ≡ after (map_of draft.old) (edit_of change.now)) }
    ensures err { OnErr result (map_of draft.new ≡ map_of draft.old) }
    ensures rest { IsAtRest draft.new }
    ensures areas { HoldsAreas areas.new (map_of draft.new) }
    ensures work { TakesWork draft.old.table draft.new.table
        (work_bound (map_of draft.old) (after (map_of draft.old) (edit_of change.now))) }
{
    let exchange = exchange_of(draft, change)?;
    draft.enter(&exchange.come)?;
    areas_again(areas, draft, change);
    match forward_edit(draft, change) {
        Ok(()) => {
            draft.withdraw(&exchange.gone);
            Ok(())
        }
        Err(memory) => {
            areas.clear();
            draft.withdraw(&exchange.come);
            Err(memory)
        }
    }
}
