//! What a sheet is called, and what it calls the files that it shows.

use crate::faults::ViewFault;
use cad_views::Sheet;
use jiff::Timestamp;
use jiff::civil::Date;
use jiff::tz::TimeZone;
use std::fs::{self, Files};
use std::path::Path;

/// The day on which a file was last changed, in UTC, where the system tells it.
fn day_of<R: Files>(rt: &R, path: &str) -> Option<Date> {
    let modified = fs::metadata(rt, path).ok()?.modified().ok()?;
    let instant = Timestamp::try_from(modified).ok()?;
    Some(instant.to_zoned(TimeZone::UTC).date())
}

/// What a sheet calls a file: its name without the folders, and where it is asked also the day on which it was last changed.
fn name_of<R: Files + AllocGlobal>(
    rt: &R,
    path: &str,
    with_day: bool,
) -> Result<String, ViewFault> {
    if path == "-" {
        let words = String::from_str(rt.alloc(), "standard input")?;
        return Ok(words);
    }
    let name = Path::new(path).file_name().unwrap_or(path);
    let mut words = String::from_str(rt.alloc(), name)?;
    if with_day {
        if let Some(day) = day_of(rt, path) {
            words.push_str(", ")?;
            words.push_str(day.to_string(rt.alloc())?.as_str())?;
        }
    }
    Ok(words)
}

/// What a sheet is called that shows a file, and what changed since an older one, if there is one: the days on which they were
/// last changed are told where a title is given. `Err` where memory runs out.
pub fn sheet_of<R: Files + AllocGlobal>(
    rt: &R,
    path: &str,
    since: Option<&str>,
    title: Option<&str>,
) -> Result<Sheet, ViewFault> {
    let older = match since {
        Some(older) => Some(name_of(rt, older, title.is_some())?),
        None => None,
    };
    Ok(Sheet {
        title: String::from_str(rt.alloc(), title.unwrap_or("Cadastral map"))?,
        plan: name_of(rt, path, title.is_some())?,
        since: older,
    })
}
