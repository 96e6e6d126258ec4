//! Values of rows.
use crate::values::{at, point, string};
use cad_rows::{
    Label, Memory, Numbers, ParcelNo, ParcelRow, PointNo, PointRow, SourceNo, SourceRow, StringNo,
    StringRow,
};
use std::alloc::Global;
use std::process::Abort;
use std::test::Fail;

fn is_label(alloc: Global, text: &str) -> Result<bool, Memory> {
    Ok(Label::new(alloc, text)?.is_some())
}

#[test]
fn labels_by_their_length(rt: HostRuntime) -> Result<(), Fail> {
    let alloc = rt.alloc();
    let eighty = "ééééééééééééééééééééééééééééééééééééééééé";
    let longest = &eighty[..80];
    for (text, is) in [("", false), (eighty, false), (longest, true)] {
        assert_eq!(rt; is_label(alloc, text)?, is, "{text}");
    }
    let label = Label::new(alloc, "North, 7")?.expect(&rt, "a label");
    assert!(rt; label.as_str() == "North, 7");
    Ok(())
}

#[test]
fn numbers_at_their_limits(rt: HostRuntime) {
    assert!(rt; PointNo::new(0).is_none());
    assert!(rt; StringNo::new(1).is_some());
    assert!(rt; ParcelNo::new(999_999_999).is_some());
    assert!(rt; SourceNo::new(1_000_000_000).is_none());
}

fn source(rt: &impl Abort) -> SourceNo {
    SourceNo::new(7).expect(rt, "a number")
}

fn sources(rt: &impl Abort, alloc: Global) -> Result<Numbers<SourceNo>, Memory> {
    let mut sources = Numbers::new(alloc);
    sources.push(source(rt))?;
    sources.copy()
}

fn label(rt: &impl Abort, alloc: Global) -> Result<Label, Memory> {
    Ok(Label::new(alloc, "A")?.expect(rt, "a label"))
}

fn point_row(rt: &impl Abort, alloc: Global) -> Result<PointRow, Memory> {
    Ok(PointRow {
        number: point(rt, 3),
        position: at(rt, (5, -6)),
        sources: sources(rt, alloc)?,
    })
}

fn string_row(rt: &impl Abort, alloc: Global) -> Result<StringRow, Memory> {
    Ok(StringRow {
        number: string(rt, 11),
        from: point(rt, 3),
        to: point(rt, 4),
        sources: sources(rt, alloc)?,
    })
}

fn parcel_row(rt: &impl Abort, alloc: Global) -> Result<ParcelRow, Memory> {
    let label = label(rt, alloc)?.copy()?;
    Ok(ParcelRow {
        number: ParcelNo::new(1).expect(rt, "a number"),
        label,
        sources: sources(rt, alloc)?,
    })
}

fn source_row(rt: &impl Abort, alloc: Global) -> Result<SourceRow, Memory> {
    Ok(SourceRow {
        number: source(rt),
        text: label(rt, alloc)?,
    })
}

fn point_row_is_copied(rt: &impl Abort, alloc: Global) -> Result<bool, Memory> {
    let row = point_row(rt, alloc)?.copy()?;
    Ok(
        row.number == point(rt, 3)
            && row.position == at(rt, (5, -6))
            && row.sources.get(0) == Some(source(rt)),
    )
}

fn string_row_is_copied(rt: &impl Abort, alloc: Global) -> Result<bool, Memory> {
    let row = string_row(rt, alloc)?.copy()?;
    Ok(row.from == point(rt, 3) && row.to == point(rt, 4) && row.sources.len() == 1)
}

fn parcel_row_is_copied(rt: &impl Abort, alloc: Global) -> Result<bool, Memory> {
    let row = parcel_row(rt, alloc)?.copy()?;
    Ok(row.label.as_str() == "A" && !row.sources.is_empty())
}

fn source_row_is_copied(rt: &impl Abort, alloc: Global) -> Result<bool, Memory> {
    let row = source_row(rt, alloc)?.copy()?;
    Ok(row.number == source(rt) && row.text.as_str() == "A")
}

/// Each copy succeeds with ample memory, and has what its source has.
#[test]
fn copies(rt: HostRuntime) -> Result<(), Fail> {
    let alloc = rt.alloc();
    assert!(rt; point_row_is_copied(&rt, alloc)?);
    assert!(rt; string_row_is_copied(&rt, alloc)?);
    assert!(rt; parcel_row_is_copied(&rt, alloc)?);
    assert!(rt; source_row_is_copied(&rt, alloc)?);
    Ok(())
}

/// A list and its copy still say what the list was told; one that has grown says nothing of it.
#[test]
fn what_a_list_was_told(rt: HostRuntime) -> Result<(), Fail> {
    let alloc = rt.alloc();
    let number = point(&rt, 3);
    let mut list: Numbers<PointNo> = Numbers::new(alloc).told(true);
    assert!(rt; list.distinct_as_told() == Some(true));
    assert!(rt; list.copy()?.distinct_as_told() == Some(true));
    list.push(number)?;
    assert!(rt; list.distinct_as_told().is_none());
    Ok(())
}
