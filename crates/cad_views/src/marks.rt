//! What became of a row since an older map.
ghost use Rattle.std.specs.Option.{ForSome};
ghost use Rattle.cad_map.specs.Valid.{IsValid};

use crate::differences::is_alike;
use crate::telling::is_told;
use cad_map::{MapView, PlainMap, position};
use cad_rows::{Memory, Name, PointNo, SourceNo, StringNo, StringRow};
use std::alloc::Global;

/// What became of a row.
#[derive(Clone, Copy, PartialEq, Eq)]
pub(crate) enum Mark {
    Same,
    Added,
    Changed,
    Removed,
}

impl Mark {
    /// The word for it, in a list and as a class of what is drawn.
    pub(crate) fn word(&self) -> &'static str {
        match self {
            Mark::Same => "same",
            Mark::Added => "added",
            Mark::Changed => "changed",
            Mark::Removed => "removed",
        }
    }
}

// Whether two maps have the same of a source.
fn is_source_alike(old: &PlainMap, map: &PlainMap, no: SourceNo) -> bool {
    match (old.source(no), map.source(no)) {
        (Some(was), Some(is)) => was.text.as_str() == is.text.as_str(),
        _ => true,
    }
}

// Whether two maps have the same of a point.
fn is_point_alike(old: &PlainMap, map: &PlainMap, no: PointNo) -> bool {
    match (old.point(no), map.point(no)) {
        (Some(was), Some(is)) => {
            was.position == is.position && was.sources.as_slice() == is.sources.as_slice()
        }
        _ => true,
    }
}

// Whether two maps have the same of a string, but for where its ends are.
fn is_string_alike(old: &PlainMap, map: &PlainMap, no: StringNo) -> bool {
    match (old.string(no), map.string(no)) {
        (Some(was), Some(is)) => {
            was.from == is.from
                && was.to == is.to
                && was.sources.as_slice() == is.sources.as_slice()
        }
        _ => true,
    }
}

// Whether two valid maps have the same of a name, as `is_alike` finds it, but without words of what isn't a parcel.
fn is_same(alloc: Global, old: &PlainMap, map: &PlainMap, name: &Name) -> Result<bool, Memory>
    requires old_valid { IsValid old.now }
    requires valid { IsValid map.now }
{
    match name {
        Name::Source(no) => Ok(is_source_alike(old, map, *no)),
        Name::Point(no) => Ok(is_point_alike(old, map, *no)),
        Name::String(no) => Ok(is_string_alike(old, map, *no)),
        Name::Parcel(_) => is_alike(alloc, old, map, name),
    }
}

// What became of a name that two maps have the same of, or don't.
fn became(old: &PlainMap, map: &PlainMap, name: &Name, alike: bool) -> Mark {
    match (is_told(old, name), is_told(map, name)) {
        (false, true) => Mark::Added,
        (true, false) => Mark::Removed,
        (true, true) if !alike => Mark::Changed,
        _ => Mark::Same,
    }
}

/// What became of a name since an older map, if there is one; both maps are valid. `Err` where memory runs out.
pub(crate) fn mark_of(
    alloc: Global,
    since: Option<&PlainMap>,
    map: &PlainMap,
    name: &Name,
) -> Result<Mark, Memory>
    requires old_valid { ForSome since (λ old. IsValid old.now) }
    requires valid { IsValid map.now }
{
    let Some(old) = since else {
        return Ok(Mark::Same);
    };
    let alike = is_same(alloc, old, map, name)?;
    Ok(became(old, map, name, alike))
}

/// What became of a point since an older map, if there is one.
pub(crate) fn point_mark(since: Option<&PlainMap>, map: &PlainMap, no: PointNo) -> Mark {
    match since {
        Some(old) => became(old, map, &Name::Point(no), is_point_alike(old, map, no)),
        None => Mark::Same,
    }
}

// Whether a string that both maps have runs elsewhere than before.
fn runs_elsewhere(old: &PlainMap, map: &PlainMap, was: &StringRow, is: &StringRow) -> bool {
    position(old, was.from) != position(map, is.from)
        || position(old, was.to) != position(map, is.to)
}

/// What became of a string since an older map, if there is one: it changes with its ends.
pub(crate) fn string_mark(since: Option<&PlainMap>, map: &PlainMap, row: &StringRow) -> Mark {
    let Some(old) = since else {
        return Mark::Same;
    };
    let Some(was) = old.string(row.number) else {
        return Mark::Added;
    };
    if runs_elsewhere(old, map, was, row) || !is_string_alike(old, map, row.number) {
        return Mark::Changed;
    }
    Mark::Same
}

/// Whether a string of an older map isn't where it was.
pub(crate) fn has_left(old: &PlainMap, map: &PlainMap, was: &StringRow) -> bool {
    match map.string(was.number) {
        Some(is) => runs_elsewhere(old, map, was, is),
        None => true,
    }
}
