//! Steps of worked jobs, made on both stores: each edit is answered as its job says, and comes to the plan that is told.
//! Through an editor it is taken back and made again, and its record leads back and on again on another map. Where a growth
//! is refused nothing has changed, and the same call is made again.
ghost use Rattle.std.specs.Prelude.{◌≡◌, OnOk, OnErr, IfOk};
ghost use Rattle.cad_map.specs.Map.{Map};
ghost use Rattle.cad_map.specs.Valid.{IsValid};
ghost use Rattle.map_parts.specs.Parts.{map_of as map_that_stands};
ghost use Rattle.edit_records.specs.Record.{Belongs};

use crate::editors::{Texts, check_answer, check_in_editor};
use crate::plans::{Plan, append, edit_of, map_of, text_of};
use crate::sights::{Seen, Sight, check_same, check_text};
use cad_edit::PlainStore;
use cad_history::{Answer, Command};
use cad_map::{MapStore, PlainMap};
use cad_rows::{Edit, Memory, Refusal};
use cad_surgery::{HalfMap, SmallRecord};
use half_table::Ticks;
use std::alloc::{AllocError, Global};
use std::process::Abort;
use std::test::Fail;

/// An edit of a worked job: the plan, the record, why it is refused, as the fields of the answer say it, and the plan
/// after it.
#[derive(Drop)]
pub(crate) struct Step {
    before: Plan,
    edit: &'static str,
    refusal: Option<&'static str>,
    after: Plan,
}

/// Whether strings come with an edit.
fn brings_strings(edit: &Edit) -> bool {
    matches!(edit, Edit::Divide { .. } | Edit::Enclose { .. })
}

/// Whether strings come with the edit of a record, or come back where it is taken back.
fn moves_strings(change: &SmallRecord) -> bool {
    matches!(
        change,
        SmallRecord::Divide { .. }
            | SmallRecord::Enclose { .. }
            | SmallRecord::MergeAlong { .. }
            | SmallRecord::MergeIsland { .. }
    )
}

/// What is seen of a map on half-edges, and the work on its table.
#[derive(Drop)]
struct Before {
    sight: Sight,
    work: u64,
}

fn before_of<R: Abort + AllocGlobal>(rt: &R, store: &HalfMap<Ticks>) -> Result<Before, Memory>
    requires { IsValid (map_that_stands store.now) }
{
    Ok(Before {
        sight: store.sight(rt)?,
        work: store.table().work(),
    })
}

/// Fails where something else is seen of a map than before. The work is as before too, but where strings came and were
/// taken out: that is counted.
fn check_unchanged<R: Abort + AllocGlobal>(
    rt: &R,
    store: &HalfMap<Ticks>,
    before: &Before,
    may_count: bool,
) -> Result<(), Memory>
    requires { IsValid (map_that_stands store.now) }
{
    let work = store.table().work();
    assert!(rt; work == before.work || may_count && work > before.work);
    check_same(rt, &store.sight(rt)?, &before.sight);
    Ok(())
}

/// Makes an edit; where a growth is refused, once more.
fn make<R: Abort + AllocGlobal>(
    rt: &R,
    store: &mut HalfMap<Ticks>,
    edit: &Edit,
) -> Result<Result<SmallRecord, Refusal>, Memory>
    requires valid { IsValid (map_that_stands store.old) }
    ensures recorded { IfOk result (λ made. IfOk made
        (λ r. Belongs r (map_that_stands store.old) (map_that_stands store.new))) }
    ensures err { IfOk result (λ made. OnErr made
        (map_that_stands store.new ≡ map_that_stands store.old)) }
{
    let before = before_of(rt, store)?;
    match store.apply(edit) {
        Err(Refusal::Memory) => {
            check_unchanged(rt, store, &before, brings_strings(edit))?;
            Ok(store.apply(edit))
        }
        made => Ok(made),
    }
}

/// Goes back; where a growth is refused, once more.
fn go_back<R: Abort + AllocGlobal>(
    rt: &R,
    store: &mut HalfMap<Ticks>,
    change: &SmallRecord,
) -> Result<(), Memory>
    requires valid { IsValid (map_that_stands store.old) }
    requires belongs { (before : Map) × Belongs change.now before (map_that_stands store.old) }
    ensures { OnOk result ((before : Map) → Belongs change.now before (map_that_stands store.old)
        → map_that_stands store.new ≡ before) }
{
    let before = before_of(rt, store)?;
    match store.back(change) {
        Ok(()) => Ok(()),
        Err(_) => {
            check_unchanged(rt, store, &before, moves_strings(change))?;
            store.back(change)
        }
    }
}

/// Goes on again; where a growth is refused, once more.
fn go_forward<R: Abort + AllocGlobal>(
    rt: &R,
    store: &mut HalfMap<Ticks>,
    change: &SmallRecord,
) -> Result<(), Memory>
    requires valid { IsValid (map_that_stands store.old) }
    requires belongs { (after : Map) × Belongs change.now (map_that_stands store.old) after }
    ensures { OnOk result ((after : Map) → Belongs change.now (map_that_stands store.old) after
        → map_that_stands store.new ≡ after) }
{
    let before = before_of(rt, store)?;
    match store.forward(change) {
        Ok(()) => Ok(()),
        Err(_) => {
            check_unchanged(rt, store, &before, moves_strings(change))?;
            store.forward(change)
        }
    }
}

/// Goes back and on again by a record.
fn go_both_ways<R: Abort + AllocGlobal>(
    rt: &R,
    store: &mut HalfMap<Ticks>,
    change: &SmallRecord,
    texts: &Texts<'_>,
) -> Result<(), Memory>
    requires belongs { (before : Map) × Belongs change.now before (map_that_stands store.old) }
{
    go_back(rt, store, change)?;
    check_text(rt, store, texts.before)?;
    go_forward(rt, store, change)?;
    check_text(rt, store, texts.after)
}

/// Goes both ways on another map on half-edges.
fn go_on_another<R: Abort + AllocGlobal>(
    rt: &R,
    after: &PlainMap,
    change: &SmallRecord,
    texts: &Texts<'_>,
) -> Result<(), Memory>
    requires belongs { (before : Map) × Belongs change.now before after.now }
{
    let mut other = HalfMap::of(rt.alloc(), after, Ticks::new())?;
    go_both_ways(rt, &mut other, change, texts)
}

/// Goes both ways by a record that led to a map, on another one that is made of that.
fn check_record<R: Abort + AllocGlobal>(
    rt: &R,
    store: &HalfMap<Ticks>,
    change: &SmallRecord,
    texts: &Texts<'_>,
) -> Result<(), Memory>
    requires { (before : Map) × Belongs change.now before (map_that_stands store.now) }
{
    check_text(rt, store, texts.after)?;
    let after = PlainMap::of_view(rt.alloc(), store)?;
    go_on_another(rt, &after, change, texts)
}

/// Makes an edit on half-edges, and looks at its answer, its map and its record.
fn check_made<R: Abort + AllocGlobal>(
    rt: &R,
    store: &mut HalfMap<Ticks>,
    edit: &Edit,
    texts: &Texts<'_>,
) -> Result<(), Memory>
    requires valid { IsValid (map_that_stands store.old) }
{
    match make(rt, store, edit)? {
        Ok(change) => {
            check_answer(rt, &Answer::Done, texts.answer)?;
            check_record(rt, store, &change, texts)
        }
        Err(refusal) => {
            check_answer(rt, &Answer::Refused(refusal), texts.answer)?;
            check_text(rt, store, texts.after)
        }
    }
}

/// Makes an edit on the half-edges of a map.
fn check_on_halves<R: Abort + AllocGlobal>(
    rt: &R,
    map: &PlainMap,
    edit: &Edit,
    texts: &Texts<'_>,
) -> Result<(), Memory>
    requires { IsValid map.now }
{
    let mut halves = HalfMap::of(rt.alloc(), map, Ticks::new())?;
    check_made(rt, &mut halves, edit, texts)
}

/// Makes an edit through editors of a map, one on half-edges and one on the plain store.
fn check_in_editors<R: Abort + AllocGlobal>(
    rt: &R,
    map: PlainMap,
    edit: &Command,
    texts: &Texts<'_>,
) -> Result<(), Memory>
    requires { IsValid map }
{
    let halves = HalfMap::of(rt.alloc(), &map, Ticks::new())?;
    check_in_editor(rt, halves, edit, texts)?;
    check_in_editor(rt, PlainStore { map }, edit, texts)
}

/// The record of an answer, as a line.
fn answer_record(alloc: Global, refusal: Option<&str>) -> Result<String, AllocError> {
    let mut line = String::new(alloc);
    match refusal {
        None => append(&mut line, "ok")?,
        Some(why) => append(&mut line, format!(in alloc; "refused,{why}")?.as_str())?,
    }
    Ok(line)
}

/// Makes an edit of a worked job on both stores.
fn check_step<R: Abort + AllocGlobal>(rt: &R, step: &Step) -> Result<(), Fail> {
    let before = text_of(rt.alloc(), step.before)?;
    let after = text_of(rt.alloc(), step.after)?;
    let answer = answer_record(rt.alloc(), step.refusal)?;
    let texts = Texts {
        before: before.as_str(),
        answer: answer.as_str(),
        after: after.as_str(),
    };
    let edit = edit_of(rt.alloc(), step.edit)?;
    let map = map_of(rt.alloc(), texts.before)?;
    check_on_halves(rt, &map, &edit, &texts)?;
    check_in_editors(rt, map, &Command::Edit(edit), &texts)?;
    Ok(())
}

/// Makes edits of worked jobs on both stores, each on the plan before it.
pub(crate) fn check_steps<R: Abort + AllocGlobal>(rt: &R, steps: &[Step]) -> Result<(), Fail> {
    for step in steps {
        check_step(rt, step)?;
    }
    Ok(())
}

/// A refusal on a plan, which stays as it is.
pub(crate) fn refused(before: Plan, edit: &'static str, why: &'static str) -> Step {
    Step {
        before,
        edit,
        refusal: Some(why),
        after: before,
    }
}

/// An edit that is made.
pub(crate) fn made(before: Plan, edit: &'static str, after: Plan) -> Step {
    Step {
        before,
        edit,
        refusal: None,
        after,
    }
}
