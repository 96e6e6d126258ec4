//! What an edit names and isn't there, and what it gives a number to that is in use.
ghost use Rattle.std.specs.Prelude.{◌≡◌, None, [], ◌∷◌, not, ◌++◌, find, option_map, if◌then◌else◌, Some};
ghost use Rattle.cad_map.specs.Refusals.{unknown, taken, is_there, item_named, face_named, points_named, strings_named};
ghost use Rattle.cad_rows.specs.declared.names.Name.TheVariants as NameOf;

use cad_map::MapView;
use cad_rows::{Edit, Face, Item, Name, ParcelNo, PointNo, Refusal, SourceNo, StringNo};

fn is_known<M: MapView>(map: &M, name: &Name) -> bool
    ensures { result ≡ is_there (M.map map.now) name.now }
{
    match name {
        Name::Point(no) => map.point(*no).is_some(),
        Name::String(no) => map.string(*no).is_some(),
        Name::Parcel(no) => map.parcel(*no).is_some(),
        Name::Source(no) => map.source(*no).is_some(),
    }
}

fn name_of(item: Item) -> Name
    ensures { result ≡ item_named item }
{
    match item {
        Item::Point(no) => Name::Point(no),
        Item::String(no) => Name::String(no),
        Item::Parcel(no) => Name::Parcel(no),
    }
}

/// The refusal of an edit that names this row, where it isn't there.
fn refusal_unless_known<M: MapView>(map: &M, name: Name) -> Option<Refusal>
    ensures { result ≡ (if is_there (M.map map.now) name then None
        else Some (Refusal.Unknown name)) }
{
    if is_known(map, &name) {
        None
    } else {
        Some(Refusal::Unknown(name))
    }
}

/// A row that the edit names isn't there.
pub(crate) fn unknown_refusal<M: MapView>(map: &M, edit: &Edit) -> Option<Refusal>
    ensures { result ≡ unknown (M.map map.now) edit.now }
{
    match edit {
        Edit::AddSource { .. } | Edit::AddPoint { .. } => None,
        Edit::DropPoint { point } | Edit::Join { point, .. } | Edit::Move { point, .. } =>
            refusal_unless_known(map, Name::Point(*point)),
        Edit::Split { string, .. } => refusal_unless_known(map, Name::String(*string)),
        Edit::Attach { item, source } | Edit::Detach { item, source } => {
            if let Some(refusal) = refusal_unless_known(map, name_of(*item)) {
                return Some(refusal);
            }
            refusal_unless_known(map, Name::Source(*source))
        }
        Edit::Rename { parcel, .. } => refusal_unless_known(map, Name::Parcel(*parcel)),
        Edit::Divide {
            face,
            chain,
            source,
            ..
        } => unknown_for_parcel(map, face, chain.as_slice(), *source),
        Edit::Enclose {
            face,
            points,
            source,
            ..
        } => unknown_for_parcel(map, face, points.as_slice(), *source),
        Edit::Merge { kept, ended } => {
            if let Some(refusal) = refusal_unless_known_face(map, kept) {
                return Some(refusal);
            }
            refusal_unless_known_face(map, ended)
        }
    }
}

/// The refusal of an edit that names this face, where it isn't there. The outside always is.
fn refusal_unless_known_face<M: MapView>(map: &M, face: &Face) -> Option<Refusal>
    ensures { result ≡ option_map (λ n. Refusal.Unknown n)
        (find (λ n. not (is_there (M.map map.now) n)) (face_named face.now)) }
{
    match face {
        Face::Outside => None,
        Face::Parcel(no) => refusal_unless_known(map, Name::Parcel(*no)),
    }
}

/// The refusal of an edit that names these points, where one isn't there: the first.
fn refusal_unless_known_points<M: MapView>(map: &M, points: &[PointNo]) -> Option<Refusal>
    ensures { result ≡ option_map (λ n. Refusal.Unknown n)
        (find (λ n. not (is_there (M.map map.now) n)) (points_named points.now)) }
{
    for point in points {
        if let Some(refusal) = refusal_unless_known(map, Name::Point(*point)) {
            return Some(refusal);
        }
    }
    None
}

/// What isn't there of what a new parcel is made of: the face, the points in order, and the source.
fn unknown_for_parcel<M: MapView>(
    map: &M,
    face: &Face,
    points: &[PointNo],
    source: SourceNo,
) -> Option<Refusal>
    ensures { result ≡ option_map (λ n. Refusal.Unknown n) (find
        (λ n. not (is_there (M.map map.now) n))
        (face_named face.now ++ points_named points.now ++ NameOf.Source source ∷ [])) }
{
    if let Some(refusal) = refusal_unless_known_face(map, face) {
        return Some(refusal);
    }
    if let Some(refusal) = refusal_unless_known_points(map, points) {
        return Some(refusal);
    }
    refusal_unless_known(map, Name::Source(source))
}

/// The refusal of an edit that gives this number, where it is in use.
fn refusal_if_taken<M: MapView>(map: &M, name: Name) -> Option<Refusal>
    ensures { result ≡ (if is_there (M.map map.now) name then Some (Refusal.Taken name) else None) }
{
    if is_known(map, &name) {
        Some(Refusal::Taken(name))
    } else {
        None
    }
}

/// A number that the edit gives is in use.
pub(crate) fn taken_refusal<M: MapView>(map: &M, edit: &Edit) -> Option<Refusal>
    ensures { result ≡ taken (M.map map.now) edit.now }
{
    match edit {
        Edit::AddSource { source, .. } => refusal_if_taken(map, Name::Source(*source)),
        Edit::AddPoint { point, .. } => refusal_if_taken(map, Name::Point(*point)),
        Edit::Split {
            point,
            first,
            second,
            ..
        } => {
            if let Some(refusal) = refusal_if_taken(map, Name::Point(*point)) {
                return Some(refusal);
            }
            if let Some(refusal) = refusal_if_taken(map, Name::String(*first)) {
                return Some(refusal);
            }
            refusal_if_taken(map, Name::String(*second))
        }
        Edit::Join { string, .. } => refusal_if_taken(map, Name::String(*string)),
        Edit::Divide {
            strings,
            parcel,
            ..
        }
        | Edit::Enclose {
            strings,
            parcel,
            ..
        } => taken_for_parcel(map, strings.as_slice(), *parcel),
        Edit::DropPoint { .. }
        | Edit::Merge { .. }
        | Edit::Move { .. }
        | Edit::Attach { .. }
        | Edit::Detach { .. }
        | Edit::Rename { .. } => None,
    }
}

/// The refusal of an edit that gives these strings' numbers, where one is in use: the first.
fn refusal_if_taken_strings<M: MapView>(map: &M, strings: &[StringNo]) -> Option<Refusal>
    ensures { result ≡ option_map (λ n. Refusal.Taken n)
        (find (is_there (M.map map.now)) (strings_named strings.now)) }
{
    for string in strings {
        if let Some(refusal) = refusal_if_taken(map, Name::String(*string)) {
            return Some(refusal);
        }
    }
    None
}

/// What is in use of the numbers that a new parcel and its strings are given.
fn taken_for_parcel<M: MapView>(map: &M, strings: &[StringNo], parcel: ParcelNo) -> Option<Refusal>
    ensures { result ≡ option_map (λ n. Refusal.Taken n)
        (find (is_there (M.map map.now)) (strings_named strings.now ++ NameOf.Parcel parcel ∷ [])) }
{
    if let Some(refusal) = refusal_if_taken_strings(map, strings) {
        return Some(refusal);
    }
    refusal_if_taken(map, Name::Parcel(parcel))
}
