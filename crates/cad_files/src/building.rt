//! Building the map of a plan.
ghost use Rattle.std.specs.Prelude.{◌≡◌, ◌≢◌, ◌<◌, ◌+◌, ◌||◌, false, length, get_or, IfOk, IfErr, OnOk, Some, None, option_map, map};
ghost use Rattle.cad_map.specs.Map.{empty_map, has_parcel, is_retired};
ghost use Rattle.cad_files.specs.Arrival.{AreStarsOf};
ghost use Rattle.cad_files.specs.Building.{twice_numbered, map_of, first_fault};
ghost use Rattle.cad_files.specs.Kinds.{numbers_of, name_of, is_taken as is_taken_in, taken_of, filled};
ghost use Rattle.cad_files.specs.Cycles.{AreSidesOf, AreLinked, followed_side};
ghost use Rattle.cad_files.specs.declared.faults.PlanFault.TheVariants as faults;

use crate::corners::follow_sides;
use crate::dangling::first_dangling;
use crate::faults::PlanFault;
use crate::kinds::Kind;
use crate::labels::first_other_label;
use crate::naming::missing_row;
use crate::rows::PlanRows;
use crate::sides::PlanSide;
use cad_map::{MapView, PlainMap, Stars};
use cad_rows::{Memory, Name, ParcelNo};
use std::alloc::Global;

// How many rows of a kind there are.
fn count_of(rows: &PlanRows, kind: Kind) -> usize
    ensures { result ≡ length (numbers_of rows.now kind) }
{
    match kind {
        Kind::Sources => rows.sources.len(),
        Kind::Points => rows.points.len(),
        Kind::Parcels => rows.parcels.len(),
        Kind::Strings => rows.strings.len(),
        Kind::Retired => rows.retired.len(),
    }
}

// The name of the row of a kind at a place.
fn name_at(rows: &PlanRows, kind: Kind, place: usize) -> Name
    requires { place < length (numbers_of rows.now kind) }
    ensures { result ≡ name_of kind (get_or (numbers_of rows.now kind) place 0) }
{
    match kind {
        Kind::Sources => Name::Source(rows.sources[place].number),
        Kind::Points => Name::Point(rows.points[place].number),
        Kind::Parcels => Name::Parcel(rows.parcels[place].number),
        Kind::Strings => Name::String(rows.strings[place].row.number),
        Kind::Retired => Name::Parcel(rows.retired[place]),
    }
}

// Whether the map has the parcel, or its number is retired.
fn is_used(plain: &PlainMap, no: ParcelNo) -> bool
    ensures { result ≡ (has_parcel plain.now no || is_retired plain.now no) }
{
    plain.parcel(no).is_some() || plain.is_retired(no)
}

// Whether the map has a row with this name, or its number is retired.
fn is_taken(plain: &PlainMap, name: &Name) -> bool
    ensures { result ≡ is_taken_in plain.now name.now }
{
    match name {
        Name::Source(no) => plain.source(*no).is_some(),
        Name::Point(no) => plain.point(*no).is_some(),
        Name::Parcel(no) => is_used(plain, *no),
        Name::String(no) => plain.string(*no).is_some(),
    }
}

// Puts the row of a kind at a place behind those before it.
fn put_row(plain: &mut PlainMap, rows: &PlanRows, kind: Kind, place: usize) -> Result<(), Memory>
    requires there { place < length (numbers_of rows.now kind) }
    requires before { plain.old ≡ filled rows.now kind place }
    requires free { is_taken_in plain.old (name_of kind (get_or (numbers_of rows.now kind) place 0))
        ≡ false }
    ensures { OnOk result (plain.new ≡ filled rows.now kind (place + 1)) }
{
    match kind {
        Kind::Sources => plain.put_source(rows.sources[place].copy()?),
        Kind::Points => plain.put_point(rows.points[place].copy()?),
        Kind::Parcels => plain.put_parcel(rows.parcels[place].copy()?),
        Kind::Strings => plain.put_string(rows.strings[place].row.copy()?),
        Kind::Retired => plain.put_retired(rows.retired[place]),
    }
}

// Puts the rows of a kind behind those of the kinds before it, up to one whose number is taken before it.
fn put_kind(plain: &mut PlainMap, rows: &PlanRows, kind: Kind) -> Result<(), PlanFault>
    requires { plain.old ≡ filled rows.now kind 0 }
    ensures ok { OnOk result
        (plain.new ≡ filled rows.now kind (length (numbers_of rows.now kind))) }
    ensures free { OnOk result (taken_of rows.now kind ≡ None) }
    ensures err { IfErr result (λ fault. fault ≢ faults.Memory
        → option_map (λ n. faults.Taken n) (taken_of rows.now kind) ≡ Some fault) }
{
    for place in 0..count_of(rows, kind) {
        let name = name_at(rows, kind, place);
        if is_taken(plain, &name) {
            return Err(PlanFault::Taken(name));
        }
        put_row(plain, rows, kind, place)?;
    }
    Ok(())
}

/// Puts the rows of a plan into an empty map, kind by kind, up to one whose number an earlier one has. The map has no
/// rings yet.
pub(crate) fn put_rows(plain: &mut PlainMap, rows: &PlanRows) -> Result<(), PlanFault>
    requires { plain.old ≡ empty_map }
    ensures ok { OnOk result (plain.new ≡ map_of rows.now) }
    ensures free { OnOk result (twice_numbered rows.now ≡ None) }
    ensures err { IfErr result (λ fault. fault ≢ faults.Memory
        → option_map (λ n. faults.Taken n) (twice_numbered rows.now) ≡ Some fault) }
{
    if let Err(fault) = put_kind(plain, rows, Kind::Sources) {
        return Err(fault);
    }
    if let Err(fault) = put_kind(plain, rows, Kind::Points) {
        return Err(fault);
    }
    if let Err(fault) = put_kind(plain, rows, Kind::Parcels) {
        return Err(fault);
    }
    if let Err(fault) = put_kind(plain, rows, Kind::Strings) {
        return Err(fault);
    }
    put_kind(plain, rows, Kind::Retired)
}

/// The sides of a plan's strings with their followers, where its rows have no fault. `stars`: the
/// strings at each point.
pub(crate) fn find_sides(
    alloc: Global,
    plain: &PlainMap,
    stars: &Stars,
    rows: &PlanRows,
) -> Result<Vec<PlanSide>, PlanFault>
    requires map { plain.now ≡ map_of rows.now }
    requires stars { AreStarsOf plain.now stars.now }
    requires free { twice_numbered rows.now ≡ None }
    ensures faultless { OnOk result (first_fault rows.now ≡ None) }
    ensures sides { IfOk result
        (λ sides. AreSidesOf plain.now rows.now.strings (map followed_side sides.items)) }
    ensures linked { IfOk result (λ sides. AreLinked sides.items) }
    ensures err { IfErr result (λ fault. fault ≢ faults.Memory
        → first_fault rows.now ≡ Some fault) }
{
    if let Some(name) = missing_row(plain, rows) {
        return Err(PlanFault::Unknown(name));
    }
    if let Some(string) = first_dangling(stars, rows.strings.as_slice()) {
        return Err(PlanFault::Dangling(string));
    }
    let sides = follow_sides(alloc, plain, stars, rows.strings.as_slice())?;
    if let Some(string) = first_other_label(sides.as_slice()) {
        return Err(PlanFault::Labels(string));
    }
    Ok(sides)
}
