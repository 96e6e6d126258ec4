//! Rows that a plan's records name.
ghost use Rattle.std.specs.Prelude.{◌≡◌, ◌∷◌, [], List, flat_map};
ghost use Rattle.cad_rows.specs.declared.names.Name.{Name as NameOf};
ghost use Rattle.cad_rows.specs.declared.names.Name.TheVariants as name;
ghost use Rattle.cad_files.specs.Building.{sources_named, names_of_face, string_names, points_name, parcels_name, strings_name, missing_name, first_some};

use crate::rows::{PlanRows, PlanString};
use cad_map::{MapView, PlainMap};
use cad_rows::{Face, Name, ParcelRow, PointNo, PointRow, SourceNo};

// The point, where the map doesn't have it.
fn missing_point(plain: &PlainMap, point: PointNo) -> Option<Name>
    ensures { result ≡ missing_name plain.now (name.Point point ∷ []) }
{
    if plain.point(point).is_none() {
        return Some(Name::Point(point));
    }
    None
}

// The parcel of a face, where the map doesn't have it.
fn missing_face(plain: &PlainMap, face: &Face) -> Option<Name>
    ensures { result ≡ missing_name plain.now (names_of_face face.now) }
{
    match face {
        Face::Outside => None,
        Face::Parcel(no) => {
            if plain.parcel(*no).is_none() {
                return Some(Name::Parcel(*no));
            }
            None
        }
    }
}

// The first of these sources that the map doesn't have.
fn missing_source(plain: &PlainMap, sources: &[SourceNo]) -> Option<Name>
    ensures { result ≡ missing_name plain.now (sources_named sources.now) }
{
    for i in 0..sources.len() {
        let source = sources[i];
        if plain.source(source).is_none() {
            return Some(Name::Source(source));
        }
    }
    None
}

// A row that names others.
trait NamesRows {
    ghost names: { Self → List NameOf };

    // The first row that it names and the map doesn't have.
    fn first_missing(&self, plain: &PlainMap) -> Option<Name>
        ensures { result ≡ missing_name plain.now (names self.now) };
}

impl NamesRows for PointRow {
    ghost names = { λ r. sources_named r.sources };

    fn first_missing(&self, plain: &PlainMap) -> Option<Name> {
        missing_source(plain, self.sources.as_slice())
    }
}

impl NamesRows for ParcelRow {
    ghost names = { λ r. sources_named r.sources };

    fn first_missing(&self, plain: &PlainMap) -> Option<Name> {
        missing_source(plain, self.sources.as_slice())
    }
}

impl NamesRows for PlanString {
    ghost names = { string_names };

    // Of its points, its faces and its sources.
    fn first_missing(&self, plain: &PlainMap) -> Option<Name> {
        let from = missing_point(plain, self.row.from);
        let to = missing_point(plain, self.row.to);
        let left = missing_face(plain, &self.left);
        let right = missing_face(plain, &self.right);
        let source = missing_source(plain, self.row.sources.as_slice());
        from.or(to).or(left).or(right).or(source)
    }
}

// The first row that these rows name and the map doesn't have.
fn missing_among<R: NamesRows>(plain: &PlainMap, rows: &[R]) -> Option<Name>
    ensures { result ≡ missing_name plain.now (flat_map R.names rows.now) }
{
    for i in 0..rows.len() {
        let name = rows[i].first_missing(plain);
        if name.is_some() {
            return name;
        }
    }
    None
}

/// The first row that the rows of a plan name and the map doesn't have: what points name comes first, then what parcels
/// and what strings name.
#[tactic(auto, unfolding(crate::specs::Building::points_name, crate::specs::Building::parcels_name, crate::specs::Building::strings_name))]
pub(crate) fn missing_row(plain: &PlainMap, rows: &PlanRows) -> Option<Name>
    ensures { result ≡ first_some (missing_name plain.now (points_name rows.now.points)
        ∷ missing_name plain.now (parcels_name rows.now.parcels)
        ∷ missing_name plain.now (strings_name rows.now.strings) ∷ []) }
{
    if let Some(name) = missing_among(plain, rows.points.as_slice()) {
        return Some(name);
    }
    if let Some(name) = missing_among(plain, rows.parcels.as_slice()) {
        return Some(name);
    }
    missing_among(plain, rows.strings.as_slice())
}
