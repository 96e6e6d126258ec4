//! Two strings joined at a point.
ghost use Rattle.std.specs.Prelude.{◌≡◌, ◌≤◌, ◌+◌, None, length, [], ◌∷◌, not, filter, map as map_of, IfOk, ◌==◌, ◌++◌, OnOk};
ghost use Rattle.std.specs.List.{AllByRecursion, list_any};
ghost use Rattle.cad_map.specs.Valid.{IsValid};
ghost use Rattle.cad_rings.specs.Cycle.{times_through};
ghost use Rattle.cad_rings.specs.Surgery.{without};
ghost use Rattle.cad_map.specs.Boundaries.{bounding};
ghost use Rattle.cad_map.specs.Map.{string_of, degree};
ghost use Rattle.cad_map.specs.Changes.{both_sources as both_sources_of, join as join_of};
ghost use Rattle.cad_map.specs.Refusals.{not_degree_two};
ghost use Rattle.cad_edit.specs.Admitted.{AreStrings, HasStrings};

use crate::strings_at::{is_among, two_at, two_found};
use cad_map::{Boundary, MapView, PlainMap, far_end};
use cad_rows::{Edit, Memory, Numbers, PointNo, Refusal, SourceNo, StringNo, StringRow};

/// A point that has to be on two strings isn't.
pub(crate) fn not_degree_two_refusal<M: MapView>(map: &M, edit: &Edit) -> Option<Refusal>
    ensures { result ≡ not_degree_two (M.map map.now) edit.now }
{
    match edit {
        Edit::Join { point, .. } => {
            let no = *point;
            if map.degree(no) == 2 {
                None
            } else {
                Some(Refusal::NotDegreeTwo(no))
            }
        }
        _ => None,
    }
}

/// Of a join, the numbers of the two strings at its point, the lower first.
pub(crate) fn strings_of<M: MapView>(map: &M, edit: &Edit) -> Option<(StringNo, StringNo)>
    requires valid { IsValid (M.map map.now) }
    requires two { not_degree_two (M.map map.now) edit.now ≡ None }
    ensures { HasStrings (M.map map.now) edit.now result }
{
    let Edit::Join { point, .. } = edit else {
        return None;
    };
    let (first, second) = two_at(map, *point);
    Some((first.number, second.number))
}

/// Joins the two strings at a point, which have these numbers, and takes the point out.
pub(crate) fn join(
    map: &mut PlainMap,
    point: PointNo,
    string: StringNo,
    strings: Option<(StringNo, StringNo)>,
) -> Result<(), Memory>
    requires valid { IsValid map.old }
    requires two { degree map.old point ≡ 2 }
    requires strings { AreStrings map.old point strings }
    requires new { string_of map.old string ≡ None }
    ensures { OnOk result (map.new ≡ join_of map.old point string) }
{
    let boundaries = rings_without(map, point)?;
    let (first, second) = two_found(map, point, strings);
    let (first, second) = (first.copy()?, second.copy()?);
    map.take_string(first.number);
    map.take_string(second.number);
    map.take_point(point);
    map.put_string(StringRow {
        number: string,
        from: far_end(&first, point),
        to: far_end(&second, point),
        sources: both_sources(&first.sources, &second.sources)?,
    })?;
    map.set_boundaries(boundaries);
    Ok(())
}

/// The sources of one list, and then those of another that aren't among them.
pub fn both_sources(
    sources: &Numbers<SourceNo>,
    others: &Numbers<SourceNo>,
) -> Result<Numbers<SourceNo>, Memory>
    ensures { IfOk result (λ made. made ≡ both_sources_of sources.now others.now) }
{
    let mut made = sources.copy()?;
    for other in others.as_slice() {
        put_unless_among(&mut made, sources, *other)?;
    }
    Ok(made)
}

/// Puts a source last, unless it is one of these.
fn put_unless_among(
    made: &mut Numbers<SourceNo>,
    among: &Numbers<SourceNo>,
    source: SourceNo,
) -> Result<(), Memory>
    ensures { OnOk result (made.new
        ≡ made.old ++ filter (λ y. not (list_any (λ x. x == y) among.now)) (source ∷ [])) }
{
    if !is_among(among, source) {
        made.push(source)?;
    }
    Ok(())
}

/// All rings, without a point that each passes at most once.
fn rings_without(map: &PlainMap, point: PointNo) -> Result<Vec<Boundary>, Memory>
    requires { AllByRecursion
        (λ b. 2 + times_through point b.ring ≤ length b.ring) map.now.boundaries }
    ensures { IfOk result (λ made. made.items
        ≡ map_of (λ b. bounding b.face (without point b.ring)) map.now.boundaries) }
{
    let mut made = Vec::new(map.allocator());
    for boundary in map.boundaries() {
        made.push(Boundary {
            face: boundary.face,
            ring: boundary.ring.drop_point(point)?,
        })?;
    }
    Ok(made)
}
