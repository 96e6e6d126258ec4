//! Drawings. The field takes the page at 1:500, so a metre is 200 of its units: the largest usual scale at which 100 m are
//! no higher than the frame's 27,700 less its margins. It lies in the middle of the frame: from 7250 to 27250 across, from
//! 4850 to 24850 down.
ghost use Rattle.cad_files.specs.Building.{IsBuilt};

use crate::viewed_plans::{FENCED, FIELD, POND, POND_EAST, Parts, SHIFTED, STRIPS, STUDDED, plan};
use cad_views::{Plan, Sheet, draw};
use std::alloc::{AllocError, Global};
use std::test::Fail;

/// What stands in the drawing of the field, and how often.
const OF_FIELD: [(&str, usize); 18] = [
    ("<svg xmlns=", 1),
    ("</svg>\n", 1),
    (
        "<path class=\"p\" d=\"M7250,24850L27250,24850L27250,4850L7250,4850Z\"/>",
        1,
    ),
    (
        "M7250,24850L27250,24850M27250,24850L27250,4850M27250,4850L7250,4850",
        1,
    ),
    ("M7250,4850L7250,24850\"/>", 1),
    (
        "M7250,24850h0M27250,24850h0M27250,4850h0M7250,4850h0\"/>",
        1,
    ),
    (
        "<circle class=\"f\" cx=\"17250\" cy=\"8850\" r=\"100\"/>",
        1,
    ),
    (
        "<text x=\"17250\" y=\"14489\" font-size=\"380\">7</text>",
        1,
    ),
    (">Field &amp; &lt;pond&gt;</text>", 1),
    (">10000.00 m²</text>", 1),
    (">Scale 1:500 on A3</text>", 1),
    (">25 m</text>", 1),
    (">parcel (1)</text>", 1),
    (">boundary (4)</text>", 1),
    (">point (5)</text>", 1),
    (">free point (1)</text>", 1),
    ("font-size=\"480\">Field &amp; book</text>", 1),
    ("since", 0),
];

/// What stands in the drawing of the fenced field, since it was one: what is added has numbers and lengths, what is removed
/// has numbers.
const SINCE_FIELD: [(&str, usize); 21] = [
    (
        "<path class=\"p changed\" d=\"M7250,24850L19250,24850L19250,4850L7250,4850Z\"/>",
        1,
    ),
    (
        "<path class=\"p added\" d=\"M27250,24850L27250,4850L19250,4850L19250,24850Z\"/>",
        1,
    ),
    (
        "<path class=\"s removed\" d=\"M7250,24850L27250,24850M27250,4850L7250,4850\"/>",
        1,
    ),
    (
        "<path class=\"s\" d=\"M27250,24850L27250,4850M7250,4850L7250,24850\"/>",
        1,
    ),
    (
        "<circle class=\"o added\" cx=\"19250\" cy=\"24850\" r=\"100\"/>",
        1,
    ),
    (
        "<circle class=\"o removed\" cx=\"17250\" cy=\"8850\" r=\"100\"/>",
        1,
    ),
    (
        "<text class=\"n added\" x=\"13250\" y=\"24920\" font-size=\"200\">21: 60.00 m</text>",
        1,
    ),
    (
        "<text class=\"n added\" x=\"19250\" y=\"14920\" font-size=\"200\">31: 100.00 m</text>",
        1,
    ),
    (
        "<text class=\"n added\" x=\"19441\" y=\"24720\" font-size=\"200\">5</text>",
        1,
    ),
    (
        "<text class=\"n removed\" x=\"17250\" y=\"24920\" font-size=\"200\">11</text>",
        1,
    ),
    (
        "<text class=\"n removed\" x=\"17441\" y=\"8720\" font-size=\"200\">9</text>",
        1,
    ),
    (">12</text>", 0),
    (">parcel 7 changed</text>", 1),
    (">parcel 8 added</text>", 1),
    (">string 11 removed</text>", 1),
    (">point 9 removed</text>", 1),
    (">string 31 added</text>", 1),
    ("string 12 ", 0),
    (">since older.csv</text>", 1),
    (">added</text>", 1),
    (">removed, or where it was</text>", 1),
];

/// What stands in the drawing of the fenced field whose fence moved: both parcels changed, and the old lines are drawn.
const SINCE_FENCED: [(&str, usize); 10] = [
    (
        "<path class=\"p changed\" d=\"M7250,24850L21250,24850L19250,4850L7250,4850Z\"/>",
        1,
    ),
    (
        "<path class=\"p changed\" d=\"M27250,24850L27250,4850L19250,4850L21250,24850Z\"/>",
        1,
    ),
    (
        "<path class=\"s removed\" d=\"M7250,24850L19250,24850M19250,24850L27250,24850M19250,24850L19250,4850\"/>",
        1,
    ),
    (
        "<path class=\"s changed\" d=\"M7250,24850L21250,24850M21250,24850L27250,24850M21250,24850L19250,4850\"/>",
        1,
    ),
    (
        "<circle class=\"o changed\" cx=\"21250\" cy=\"24850\" r=\"100\"/>",
        1,
    ),
    (
        "<text class=\"n changed\" x=\"20250\" y=\"14920\" font-size=\"200\">31</text>",
        1,
    ),
    (">point 5 changed</text>", 1),
    (">parcel 7 changed</text>", 1),
    (">parcel 8 changed</text>", 1),
    (">6500.00 m²</text>", 1),
];

/// What stands in the drawing of the field with a point on its lower side: the parcel is as it was.
const SINCE_STUDDED: [(&str, usize); 4] = [
    (
        "<path class=\"p\" d=\"M7250,24850L19250,24850L27250,24850L27250,4850L7250,4850Z\"/>",
        1,
    ),
    (
        "<path class=\"s removed\" d=\"M7250,24850L27250,24850\"/>",
        1,
    ),
    (">parcel 7 changed</text>", 0),
    (">point 5 added</text>", 1),
];

/// What stands in the drawing of the field whose pond moved: the field and the pond changed.
const SINCE_POND: [(&str, usize); 3] = [
    (
        "<path class=\"s removed\" d=\"M15250,16850L19250,16850M19250,16850L19250,12850M19250,12850L15250,12850\
        M15250,12850L15250,16850\"/>",
        1,
    ),
    (">parcel 7 changed</text>", 1),
    (">parcel 8 changed</text>", 1),
];

/// What stands in the drawing of the strips: words give way, and letters are of one size, at which half of the strips have
/// room for number and label.
const OF_STRIPS: [(&str, usize); 11] = [
    (">1</text>", 1),
    (">Road</text>", 1),
    (">200.00 m²</text>", 0),
    (">2</text>", 1),
    (">Path</text>", 0),
    (">3</text>", 0),
    (">4</text>", 1),
    (">Field</text>", 1),
    (">9660.00 m²</text>", 1),
    ("font-size=\"150\"", 6),
    ("font-size=\"380\"", 0),
];

// What a drawing is called.
fn sheet(alloc: Global, since: Option<&str>) -> Result<Sheet, AllocError> {
    let older = match since {
        Some(name) => Some(String::from_str(alloc, name)?),
        None => None,
    };
    Ok(Sheet {
        title: String::from_str(alloc, "Field & book")?,
        plan: String::from_str(alloc, "field.csv")?,
        since: older,
    })
}

// A drawing of a plan, with what changed since an older one where there is one; `None` where there is none.
fn drawing(alloc: Global, text: Parts, older: Option<Parts>) -> Option<Vec<u8>> {
    let Ok(now) = plan(alloc, text) else {
        return None;
    };
    match older {
        Some(older) => drawing_since(alloc, &now, older),
        None => drawing_alone(alloc, &now),
    }
}

// A drawing of a plan; `None` where there is none.
fn drawing_alone(alloc: Global, now: &Plan) -> Option<Vec<u8>>
    requires { IsBuilt now.now.rows now.now.map }
{
    let Ok(sheet) = sheet(alloc, None) else {
        return None;
    };
    draw(alloc, &sheet, &now.map, None).ok()
}

// A drawing of a plan, with what changed since an older one; `None` where there is none.
fn drawing_since(alloc: Global, now: &Plan, older: Parts) -> Option<Vec<u8>>
    requires { IsBuilt now.now.rows now.now.map }
{
    let Ok(sheet) = sheet(alloc, Some("older.csv")) else {
        return None;
    };
    let Ok(old) = plan(alloc, older) else {
        return None;
    };
    draw(alloc, &sheet, &now.map, Some(&old.map)).ok()
}

// How often a piece stands in a text.
fn times(text: &[u8], piece: &str) -> usize {
    let mut count: usize = 0;
    for window in text.windows(piece.len().max(1)) {
        if window == piece.as_bytes() {
            count = count.saturating_add(1);
        }
    }
    count
}

// The first piece that doesn't stand in a text so often as told.
fn first_missing<'a>(text: &[u8], pieces: &[(&'a str, usize)]) -> Option<&'a str> {
    for (piece, wanted) in pieces {
        if times(text, *piece) != *wanted {
            return Some(*piece);
        }
    }
    None
}

#[test]
fn drawn(rt: HostRuntime) -> Result<(), Fail> {
    for (text, older, pieces) in [
        (FIELD, None, OF_FIELD.as_slice()),
        (FENCED, Some(FIELD), SINCE_FIELD.as_slice()),
        (SHIFTED, Some(FENCED), SINCE_FENCED.as_slice()),
        (STUDDED, Some(FIELD), SINCE_STUDDED.as_slice()),
        (POND_EAST, Some(POND), SINCE_POND.as_slice()),
        (STRIPS, None, OF_STRIPS.as_slice()),
    ] {
        let text = drawing(rt.alloc(), text, older).unwrap_or(Vec::new(rt.alloc()));
        assert!(rt; first_missing(text.as_slice(), pieces).is_none());
    }
    Ok(())
}
