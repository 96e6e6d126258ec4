//! A merger on a map on half-edges, along a chain or round an island, taken back and made again by
//! its record.
ghost use Rattle.std.specs.Prelude.{◌≡◌, ◌<◌, ◌+◌, length, map as map_by, IfOk};
ghost use Rattle.cad_map.specs.Asked.{GivesInRange};
ghost use Rattle.cad_map.specs.Map.{Map};
ghost use Rattle.cad_surgery.specs.ToldMergers.{IsMergedBy, IsOfMerge, TellsMerged, WentAlong};
ghost use Rattle.cad_surgery.specs.ToldMergers.{CanGoBack, GoesBack, chain_told, halves_of};
ghost use Rattle.cad_surgery.specs.Trials.{IsTakenBack, IsMade, StandsBeside};
ghost use Rattle.edit_records.specs.HeldChains.{row_between, rows_along};
ghost use Rattle.edit_records.specs.Record.{edit_of, Belongs};
ghost use Rattle.map_parts.specs.Merging.{rows_gone};
ghost use Rattle.map_parts.specs.Parts.{map_of};

use crate::draft::Draft;
use crate::edits::counted::is_work_in_range;
use crate::edits::given::{closed, first_and_rest};
use crate::edits::merging::{Merger, Way, merge_again};
use crate::edits::shared::numbers_of;
use cad_map::MapRows;
use cad_rows::{Face, Memory, ParcelRow, PointNo, StringRow};
use edit_records::{ChainString, SmallRecord};
use half_table::{Half, HalfTable, Tally};
use key_lists::KeyLists;
use map_parts::{EndedParcel, PlacedString, Spoke, begin_unmerge_along, begin_unmerge_island};
use std::alloc::Global;

// What the record of a merger tells.
#[derive(Clone, Copy)]
struct Merged<'a> {
    kept: Face,
    row: &'a ParcelRow,
    place: usize,
    way: Way,
    points: &'a [PointNo],
    strings: &'a [ChainString],
    moved: &'a [Half],
}

fn merger_of(change: &SmallRecord) -> Merged<'_>
    requires { IsOfMerge change.now }
    ensures { TellsMerged change.now result }
{
    match change {
        SmallRecord::MergeAlong {
            kept,
            row,
            place,
            chain,
            strings,
            start,
            end,
            moved,
        } => Merged {
            kept: *kept,
            row,
            place: *place,
            way: Way::Along {
                start: *start,
                end: *end,
            },
            points: chain.as_slice(),
            strings: strings.as_slice(),
            moved: moved.as_slice(),
        },
        SmallRecord::MergeIsland {
            kept,
            row,
            place,
            points,
            strings,
            moved,
        } => Merged {
            kept: *kept,
            row,
            place: *place,
            way: Way::Round,
            points: points.as_slice(),
            strings: strings.as_slice(),
            moved: moved.as_slice(),
        },
        _ => unreachable!(),
    }
}

// The halves of strings that went.
fn path_of(alloc: Global, strings: &[ChainString]) -> Result<Vec<Half>, Memory>
    ensures { IfOk result (λ path. path.items ≡ halves_of strings.now) }
{
    let mut path = Vec::new(alloc);
    for place in 0..strings.len() {
        path.push(strings[place].half)?;
    }
    Ok(path)
}

/// Merges a parcel into a face again, by the record. Where memory runs out the map stays.
pub(crate) fn forward_merge<T: Tally>(
    draft: &mut Draft<T>,
    change: &SmallRecord,
) -> Result<(), Memory>
    requires merger { IsOfMerge change.now }
    requires given { GivesInRange (edit_of change.now) }
    requires beside { StandsBeside (Belongs change.now (map_of draft.old)) draft.old }
    ensures { IsMade (edit_of change.now) draft.old draft.new result }
{
    let alloc = draft.rows.points.allocator();
    let told = merger_of(change);
    let path = path_of(alloc, told.strings)?;
    let strings = numbers_of(alloc, path.as_slice())?;
    let merger = Merger {
        kept: told.kept,
        ended: told.row.number,
        way: told.way,
        path: path.as_slice(),
        strings: strings.as_slice(),
        moved: told.moved,
    };
    merge_again(draft, &merger)
}

// A string that went between two neighbours of a chain, with its place.
fn string_between(
    string: &ChainString,
    before: PointNo,
    behind: PointNo,
) -> Result<PlacedString, Memory>
    ensures row { IfOk result (λ g. g.row ≡ row_between string.now before behind) }
    ensures place { IfOk result (λ g. g.place ≡ string.now.place) }
{
    let sources = string.sources.copy()?;
    let (from, to) = if string.half.forward {
        (before, behind)
    } else {
        (behind, before)
    };
    Ok(PlacedString {
        row: StringRow {
            number: string.half.string,
            from,
            to,
            sources,
        },
        place: string.place,
    })
}

// The strings that went along a chain, with their places.
fn strings_back(
    alloc: Global,
    strings: &[ChainString],
    chain: &[PointNo],
) -> Result<Vec<PlacedString>, Memory>
    requires { length chain.now ≡ length strings.now + 1 }
    ensures rows { IfOk result (λ gone. rows_gone gone.items ≡ rows_along strings.now chain.now) }
    ensures places { IfOk result
        (λ gone. map_by (λ g. g.place) gone.items ≡ map_by (λ s. s.place) strings.now) }
{
    let mut gone = Vec::new(alloc);
    for place in 0..strings.len() {
        let string = string_between(&strings[place], chain[place], chain[place + 1])?;
        gone.push(string)?;
    }
    Ok(gone)
}

// The points that the strings lead along: those of a ring back to the first.
fn chain_of(alloc: Global, way: Way, points: &[PointNo]) -> Result<Vec<PointNo>, Memory>
    requires { 0 < length points.now }
    ensures { IfOk result (λ chain. chain.items ≡ chain_told way points.now) }
{
    match way {
        Way::Along { .. } => Ok(Vec::from_slice(alloc, points)?),
        Way::Round => closed(alloc, points),
    }
}

// All that went by a merger: the parcel, and the strings.
fn ended_by(alloc: Global, told: &Merged<'_>) -> Result<EndedParcel, Memory>
    requires some { 0 < length told.now.points.now }
    requires as_many { length (chain_told told.now.way told.now.points.now)
        ≡ length told.now.strings.now + 1 }
    ensures { IfOk result (WentAlong told.now.row.now told.now.place told.now.strings.now
        (chain_told told.now.way told.now.points.now)) }
{
    let chain = chain_of(alloc, told.way, told.points)?;
    let strings = strings_back(alloc, told.strings, chain.as_slice())?;
    let row = told.row.copy()?;
    Ok(EndedParcel {
        row,
        place: told.place,
        strings,
    })
}

// Takes a merger back, with all that went, where the table has none of its strings. Where memory runs
// out the map stays.
fn begin_unmerge<T: Tally>(
    rows: &mut MapRows,
    table: &mut HalfTable<T>,
    kept: &mut KeyLists<Half>,
    stars: &mut KeyLists<Spoke>,
    told: &Merged<'_>,
    path: &[Half],
    gone: EndedParcel,
) -> Result<(), Memory>
    requires { (m : Map) × CanGoBack m told.now path.now gone rows.old table.old kept.old stars.old }
    ensures { (m : Map) → CanGoBack m told.now path.now gone rows.old table.old kept.old stars.old
        → GoesBack m told.now path.now gone table.old rows.new table.new kept.new stars.new result }
{
    let keeper = &told.kept;
    let moved = told.moved;
    let (first, rest) = first_and_rest(path);
    match told.way {
        Way::Along { start, end } => begin_unmerge_along(
            rows, table, kept, stars, keeper, gone, first, rest, &start, &end, moved,
        ),
        Way::Round => begin_unmerge_island(
            rows, table, kept, stars, keeper, gone, first, rest, moved,
        ),
    }
}

// Takes a merger back, with all that went.
fn unmerge_with<T: Tally>(
    draft: &mut Draft<T>,
    told: &Merged<'_>,
    path: &[Half],
    gone: EndedParcel,
) -> Result<(), Memory>
    requires path { path.now ≡ halves_of told.now.strings.now }
    requires gone { WentAlong told.now.row.now told.now.place told.now.strings.now
        (chain_told told.now.way told.now.points.now) gone }
    requires beside { StandsBeside (λ m. IsMergedBy m (map_of draft.old) told.now) draft.old }
    ensures { IsTakenBack (λ m. IsMergedBy m (map_of draft.old) told.now)
        draft.old draft.new result }
{
    is_work_in_range(&draft.table);
    begin_unmerge(
        &mut draft.rows,
        &mut draft.table,
        &mut draft.kept,
        &mut draft.stars,
        told,
        path,
        gone,
    )?;
    Ok(())
}

/// Takes a merger back, by the record: puts the parcel and the strings in at their places again, and
/// the ring along them is the parcel's. Where memory runs out the map stays.
pub(crate) fn back_merge<T: Tally>(draft: &mut Draft<T>, change: &SmallRecord) -> Result<(), Memory>
    requires merger { IsOfMerge change.now }
    requires given { GivesInRange (edit_of change.now) }
    requires beside { StandsBeside (λ m. Belongs change.now m (map_of draft.old)) draft.old }
    ensures { IsTakenBack (λ m. Belongs change.now m (map_of draft.old)) draft.old draft.new
        result }
{
    is_work_in_range(&draft.table);
    let alloc = draft.rows.points.allocator();
    let told = merger_of(change);
    let path = path_of(alloc, told.strings)?;
    let gone = ended_by(alloc, &told)?;
    unmerge_with(draft, &told, path.as_slice(), gone)
}
