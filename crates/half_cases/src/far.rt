//! Larger maps: a plan beside a hundred squares of a metre, each a kilometre east of the one before it, and a lot with
//! many points.
ghost use Rattle.std.specs.Prelude.{length, ◌≤◌, ◌<◌};

use std::alloc::{AllocError, Global};
use std::test::Fail;

/// Appends the records of a square of a metre, so many kilometres east.
fn append_square(text: &mut String, place: u32) -> Result<(), AllocError>
    requires { place ≤ 1000 }
{
    let (a, west) = (100 + 10 * place, 1_000_000 * place);
    let east = west + 1000;
    writeln!(text, "parcel,{a},F,,,,")?;
    for (number, x, y) in [
        (a, west, 0),
        (a + 1, east, 0),
        (a + 2, east, 1000),
        (a + 3, west, 1000),
    ] {
        writeln!(text, "point,{number},{x},{y},,,")?;
    }
    for (number, to) in [(a, a + 1), (a + 1, a + 2), (a + 2, a + 3), (a + 3, a)] {
        writeln!(text, "string,{number},{number},{to},{a},0,")?;
    }
    Ok(())
}

/// A plan and a hundred far squares more, before its own records.
pub(crate) fn far_plan(alloc: Global, plan: &str) -> Result<String, Fail> {
    let head = "plan,2,,,,,\n";
    let rest = plan.strip_prefix(head).ok_or("a plan")?;
    let mut squares = String::new(alloc);
    for place in 1..101 {
        append_square(&mut squares, place)?;
    }
    Ok(format!(in alloc; "{head}{squares}{rest}")?)
}

/// Appends the points at a place of a lot's two long sides, and the strings that begin there.
fn append_pair(text: &mut String, half: u32, place: u32) -> Result<(), AllocError>
    requires few { half ≤ 500 }
    requires inside { place < half }
{
    let (lower, upper) = (place + 1, half + place + 1);
    let (east, west) = (10 * lower, 10 * (half - place));
    let next = lower + 1;
    let last = if lower == half { 1 } else { upper + 1 };
    writeln!(text, "point,{lower},{east},0,,,")?;
    writeln!(text, "point,{upper},{west},1000,,,")?;
    writeln!(text, "string,{lower},{lower},{next},1,0,")?;
    writeln!(text, "string,{upper},{upper},{last},1,0,")
}

/// The plan of a lot that is a metre wide, with so many points on each of its long sides. Its points and its strings are
/// numbered round it from 1 on.
pub(crate) fn long_lot(alloc: Global, half: u32) -> Result<String, Fail>
    requires { half ≤ 500 }
{
    let mut text = format!(in alloc; "plan,2,,,,,\nsource,1,S,,,,\nparcel,1,A,,,,\n")?;
    for place in 0..half {
        append_pair(&mut text, half, place)?;
    }
    text.push_str("open,,,,,,\n")?;
    Ok(text)
}

/// The corners of an island, in millimetres.
pub(crate) type Corners = &'static [(u32, u32)];

/// A triangle with its tip in the east, taller than the islands east of it.
pub(crate) const TALL: Corners = &[(1000, 500), (1300, 1200), (1000, 1700)];

/// The same with its tip low down.
pub(crate) const LOW: Corners = &[(1000, 500), (1300, 600), (1000, 1700)];

/// The same with a point between its tip and the corner after it.
pub(crate) const POINTED: Corners = &[(1000, 500), (1300, 1200), (1200, 1500), (1000, 1700)];

/// An island round three sides of the next one, open to the east.
pub(crate) const ROUND_NEXT: Corners = &[
    (1000, 500),
    (2950, 600),
    (1200, 1300),
    (2950, 1750),
    (900, 1750),
];

/// Appends the records of an island in parcel 1 with these corners. Its points and its strings are numbered from ten
/// times its place and ten on.
fn append_island(text: &mut String, place: u32, corners: &[(u32, u32)]) -> Result<(), AllocError>
    requires place { place ≤ 1000 }
    requires corners { length corners.now ≤ 10 }
{
    let (first, parcel) = (10 + 10 * place, place + 2);
    let count = corners.len() as u32;
    for at in 0..count {
        let (x, y) = corners[at as usize];
        writeln!(text, "point,{},{x},{y},,,", first + at)?;
    }
    writeln!(text, "parcel,{parcel},I,,,,")?;
    for at in 0..count {
        let (number, to) = (first + at, first + (at + 1) % count);
        writeln!(text, "string,{number},{number},{to},{parcel},1,")?;
    }
    Ok(())
}

/// The plan of a lot with so many islands in a row, a metre from one to the next, of which the first one has these
/// corners.
pub(crate) fn with_first_island(
    alloc: Global,
    count: u32,
    corners: &[(u32, u32)],
) -> Result<String, Fail>
    requires count { count ≤ 1000 }
    requires corners { length corners.now ≤ 10 }
{
    let mut text = format!(in alloc; "plan,2,,,,,\nparcel,1,A,,,,\n")?;
    let width = 1000 * count + 1000;
    for (number, x, y) in [(1, 0, 0), (2, width, 0), (3, width, 3000), (4, 0, 3000)] {
        writeln!(text, "point,{number},{x},{y},,,")?;
    }
    for (number, to) in [(1, 2), (2, 3), (3, 4), (4, 1)] {
        writeln!(text, "string,{number},{number},{to},1,0,")?;
    }
    append_island(&mut text, 0, corners)?;
    for place in 1..count {
        let west = 1000 * place + 1000;
        append_island(
            &mut text,
            place,
            &[(west, 1000), (west + 300, 1200), (west, 1400)],
        )?;
    }
    text.push_str("open,,,,,,\n")?;
    Ok(text)
}

/// The plan of a lot with so many islands in a row, of which the first one is taller than the others.
pub(crate) fn with_islands(alloc: Global, count: u32) -> Result<String, Fail>
    requires { count ≤ 1000 }
{
    with_first_island(alloc, count, TALL)
}

/// Appends the records of a petal: a triangle of point 1 and two points in the east, north of the petals before.
fn append_petal(text: &mut String, place: u32) -> Result<(), AllocError>
    requires { place ≤ 1000 }
{
    let (a, string, parcel) = (2 * place + 2, 3 * place + 1, place + 1);
    let (b, south) = (a + 1, 200 * place);
    for (number, y) in [(a, south), (b, south + 100)] {
        writeln!(text, "point,{number},1000,{y},,,")?;
    }
    writeln!(text, "parcel,{parcel},P,,,,")?;
    for (number, from, to) in [(string, 1, a), (string + 1, a, b), (string + 2, b, 1)] {
        writeln!(text, "string,{number},{from},{to},{parcel},0,")?;
    }
    Ok(())
}

/// The plan of so many petals, which have one point in common and gaps between them.
pub(crate) fn with_petals(alloc: Global, count: u32) -> Result<String, Fail>
    requires { count ≤ 1000 }
{
    let mut text = format!(in alloc; "plan,2,,,,,\npoint,1,0,0,,,\n")?;
    for place in 0..count {
        append_petal(&mut text, place)?;
    }
    text.push_str("open,,,,,,\n")?;
    Ok(text)
}
