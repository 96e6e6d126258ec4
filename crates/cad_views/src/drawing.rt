//! A map drawn as SVG.
ghost use Rattle.std.specs.Option.{ForSome};
ghost use Rattle.cad_map.specs.Valid.{IsValid};

use crate::changes::push_changes;
use crate::dots::{Dot, dot_size, dots_of, free_count, push_bars, push_dots};
use crate::key::push_key;
use crate::labels::Labels;
use crate::lines::{gone_lines, push_gone_lines, push_strings};
use crate::marks::{Mark, mark_of};
use crate::page::{Extent, HEIGHT, LEFT, Page, Spot, TOP, WIDTH};
use crate::pen::{push, push_box, push_spot};
use crate::sheet::{Sheet, push_title};
use crate::words::Lettering;
use cad_map::{Boundary, MapView, PlainMap, position};
use cad_rows::{Face, Memory, Name, ParcelRow};
use std::alloc::Global;

const HEAD: &str = "\
<svg xmlns=\"http://www.w3.org/2000/svg\" width=\"420mm\" height=\"297mm\" viewBox=\"0 0 42000 29700\">
<style>
text{font-family:\"DejaVu Sans Mono\",\"Liberation Mono\",monospace;fill:#222;text-anchor:middle}
.k,.l{text-anchor:start}
.frame{fill:none;stroke:#222;stroke-width:30}
.paper{fill:#fff}
.p{fill:#f3eee0;fill-rule:evenodd}
.p.added{fill:url(#added)}
.p.changed{fill:url(#changed)}
.s{fill:none;stroke:#333;stroke-width:22;stroke-linecap:round}
.s.added{stroke:#14782a;stroke-width:50}
.s.changed{stroke:#a35c00;stroke-width:45;stroke-dasharray:260 100 20 100}
.s.removed{stroke:#c4161c;stroke-width:40;stroke-dasharray:150 110}
.d{fill:none;stroke:#333;stroke-linecap:round}
.o{fill:#333}
.f{fill:#fff;stroke:#333;stroke-width:18}
.o.added{fill:#14782a}
.o.changed{fill:#fff;stroke:#a35c00;stroke-width:36}
.o.removed{fill:#fff;stroke:#c4161c;stroke-width:30;stroke-dasharray:60 40}
.n{paint-order:stroke;stroke:#fff;stroke-width:70;stroke-linejoin:round}
.l.added,.n.added{fill:#14782a}
.l.changed,.n.changed{fill:#8a5200}
.l.removed,.n.removed{fill:#c4161c}
.bar{fill:#222}
</style>
<defs>
<pattern id=\"added\" patternUnits=\"userSpaceOnUse\" width=\"260\" height=\"260\" patternTransform=\"rotate(45)\">\
<rect width=\"260\" height=\"260\" fill=\"#dff2dc\"/><path d=\"M60,0V260\" stroke=\"#8fcb88\" stroke-width=\"50\"/></pattern>
<pattern id=\"changed\" patternUnits=\"userSpaceOnUse\" width=\"320\" height=\"320\">\
<rect width=\"320\" height=\"320\" fill=\"#fff1c9\"/><circle cx=\"80\" cy=\"80\" r=\"30\" fill=\"#e0ac45\"/>\
<circle cx=\"240\" cy=\"240\" r=\"30\" fill=\"#e0ac45\"/></pattern>
</defs>
";

// The class of parcels of which this became.
fn class_of(mark: Mark) -> &'static str {
    match mark {
        Mark::Same => "p",
        Mark::Added => "p added",
        Mark::Changed => "p changed",
        Mark::Removed => "p removed",
    }
}

// Appends the points of a ring, as a closed line.
fn push_ring(
    text: &mut Vec<u8>,
    page: &Page,
    map: &PlainMap,
    boundary: &Boundary,
) -> Result<(), Memory> {
    let mut letter = "M";
    for point in boundary.ring.points() {
        push(text, letter)?;
        push_spot(text, &page.spot(position(map, *point)))?;
        letter = "L";
    }
    push(text, "Z")
}

// Draws a parcel as the inside of all its rings, by even and odd.
fn push_parcel(
    text: &mut Vec<u8>,
    page: &Page,
    map: &PlainMap,
    row: &ParcelRow,
    mark: Mark,
) -> Result<(), Memory> {
    push(text, "<path class=\"")?;
    push(text, class_of(mark))?;
    push(text, "\" d=\"")?;
    for boundary in map.run_of(Face::Parcel(row.number)) {
        push_ring(text, page, map, boundary)?;
    }
    push(text, "\"/>\n")
}

// Draws each parcel.
fn push_parcels(
    alloc: Global,
    text: &mut Vec<u8>,
    page: &Page,
    map: &PlainMap,
    since: Option<&PlainMap>,
) -> Result<(), Memory>
    requires valid { IsValid map.now }
    requires old_valid { ForSome since (λ old. IsValid old.now) }
{
    for place in 0..map.counts().parcels {
        if let Some(row) = map.parcel_at(place) {
            let mark = mark_of(alloc, since, map, &Name::Parcel(row.number))?;
            push_parcel(text, page, map, row, mark)?;
        }
    }
    Ok(())
}

// Draws what lies in the frame: parcels, strings, points and words.
fn push_map(
    alloc: Global,
    text: &mut Vec<u8>,
    page: &Page,
    map: &PlainMap,
    since: Option<&PlainMap>,
    dots: &[Dot],
) -> Result<(), Memory>
    requires valid { IsValid map.now }
    requires old_valid { ForSome since (λ old. IsValid old.now) }
{
    let radius = dot_size(map);
    let labels = Labels::of(alloc, page, map, since, dots)?;
    let mut others = gone_lines(alloc, page, map, since)?;
    push_parcels(alloc, text, page, map, since)?;
    push_gone_lines(text, others.as_slice())?;
    push_strings(alloc, text, page, map, since)?;
    push_dots(text, dots, radius)?;
    push_bars(&mut others, dots, radius)?;
    labels.push_bars(&mut others)?;
    let lettering = Lettering {
        page,
        map,
        others: others.as_slice(),
        gap: radius.saturating_mul(2),
    };
    lettering.push(alloc, text)?;
    labels.push(text)
}

// The page for a map, and for an older one, if there is one.
fn page_for(map: &PlainMap, since: Option<&PlainMap>) -> Page {
    let mut extent = Extent::new();
    extent.take_in_points(map);
    if let Some(old) = since {
        extent.take_in_points(old);
    }
    Page::of(extent)
}

/// A valid map drawn as SVG on an A3 sheet, north up, with a title, a scale bar and a key: parcels with their numbers, labels
/// and areas where there is room, strings, and points. With an older valid map, what was added, changed or removed since then
/// stands out by colour and pattern, is numbered and is listed; new strings tell their length, and strings that ran elsewhere
/// are drawn there too. `Err` where memory runs out.
pub fn draw(
    alloc: Global,
    sheet: &Sheet,
    map: &PlainMap,
    since: Option<&PlainMap>,
) -> Result<Vec<u8>, Memory>
    requires valid { IsValid map.now }
    requires old_valid { ForSome since (λ old. IsValid old.now) }
{
    let page = page_for(map, since);
    let dots = dots_of(alloc, &page, map, since)?;
    let mut text = Vec::new(alloc);
    push(&mut text, HEAD)?;
    push_box(&mut text, "paper", &Spot::at(0, 0), 42_000, 29_700)?;
    push_map(alloc, &mut text, &page, map, since, dots.as_slice())?;
    push_box(&mut text, "frame", &Spot::at(LEFT, TOP), WIDTH, HEIGHT)?;
    push_title(alloc, &mut text, sheet)?;
    let free = free_count(dots.as_slice());
    push_key(alloc, &mut text, &page, map, free, since.is_some())?;
    if let Some(old) = since {
        push_changes(alloc, &mut text, old, map)?;
    }
    push(&mut text, "</svg>\n")?;
    Ok(text)
}
