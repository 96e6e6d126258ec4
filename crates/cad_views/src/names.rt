//! The names of a map's rows.
ghost use Rattle.std.specs.Prelude.{◌≡◌, ◌<◌, ◌++◌, Some, length, slice_get, OnOk, IfOk};
ghost use Rattle.cad_files.specs.Answers.{kind_of, number_named};
ghost use Rattle.cad_views.specs.Differences.{names_of_kind, names_in};

use cad_map::{MapView, PlainMap};
use cad_rows::{Memory, Name};
use std::alloc::Global;

/// The kinds of a map's names.
#[derive(Clone, Copy)]
enum Kind {
    Sources,
    Points,
    Parcels,
    Retired,
    Strings,
}

/// The kind of a name, as records tell it.
pub fn kind_name(name: &Name) -> &'static str
    ensures { result.now ≡ kind_of name.now }
{
    match name {
        Name::Point(_) => "point",
        Name::String(_) => "string",
        Name::Parcel(_) => "parcel",
        Name::Source(_) => "source",
    }
}

/// The number of a name.
pub fn name_number(name: &Name) -> u32
    ensures { result ≡ number_named name.now }
{
    match name {
        Name::Point(no) => no.get(),
        Name::String(no) => no.get(),
        Name::Parcel(no) => no.get(),
        Name::Source(no) => no.get(),
    }
}

// How many names of a kind there are.
#[tactic(auto, using(std::proofs::lemmas::Grind::common_steps))]
fn count_of(map: &PlainMap, kind: Kind) -> usize
    ensures { result ≡ length (names_of_kind map.now kind) }
{
    let counts = map.counts();
    match kind {
        Kind::Sources => counts.sources,
        Kind::Points => counts.points,
        Kind::Parcels => counts.parcels,
        Kind::Retired => counts.retired,
        Kind::Strings => counts.strings,
    }
}

// The name of a kind at a place.
#[tactic(auto, using(std::proofs::lemmas::Grind::common_steps))]
fn name_at(map: &PlainMap, kind: Kind, place: usize) -> Name
    requires { place < length (names_of_kind map.now kind) }
    ensures { slice_get (names_of_kind map.now kind) place ≡ Some result }
{
    match kind {
        Kind::Sources => Name::Source(map.source_at(place).unwrap().number),
        Kind::Points => Name::Point(map.point_at(place).unwrap().number),
        Kind::Parcels => Name::Parcel(map.parcel_at(place).unwrap().number),
        Kind::Retired => Name::Parcel(map.retired_at(place).unwrap()),
        Kind::Strings => Name::String(map.string_at(place).unwrap().number),
    }
}

// Puts the names of a kind last.
fn push_names(names: &mut Vec<Name>, map: &PlainMap, kind: Kind) -> Result<(), Memory>
    ensures { OnOk result (names.new.items ≡ names.old.items ++ names_of_kind map.now kind) }
{
    for place in 0..count_of(map, kind) {
        names.push(name_at(map, kind, place))?;
    }
    Ok(())
}

/// The names of a map's rows and of its retired parcels, kind by kind, in order of entry. `Err` where memory runs out.
pub fn names_of(alloc: Global, map: &PlainMap) -> Result<Vec<Name>, Memory>
    ensures { IfOk result (λ names. names.items ≡ names_in map.now) }
{
    let mut names = Vec::new(alloc);
    push_names(&mut names, map, Kind::Sources)?;
    push_names(&mut names, map, Kind::Points)?;
    push_names(&mut names, map, Kind::Parcels)?;
    push_names(&mut names, map, Kind::Retired)?;
    push_names(&mut names, map, Kind::Strings)?;
    Ok(names)
}
