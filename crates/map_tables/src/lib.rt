//! The tables of a map file that hold a plan's rows: a table for sources, points, parcels, strings and
//! retired numbers each, in order of entry.
#![tactic(auto)]

mod columns;
mod layouts;
mod reading;
mod writing;

pub use layouts::PlanLayout;
pub use reading::{has_tables, read_plan_rows};
pub use writing::put_plan_rows;

/// The tree of the sources' table.
pub const SOURCES: u32 = 1;

/// The tree of the points' table.
pub const POINTS: u32 = 2;

/// The tree of the parcels' table.
pub const PARCELS: u32 = 3;

/// The tree of the strings' table.
pub const STRINGS: u32 = 4;

/// The tree of the table of retired numbers.
pub const RETIRED: u32 = 5;
