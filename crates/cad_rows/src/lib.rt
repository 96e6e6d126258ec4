//! Numbers, labels, rows, edits and refusals of a cadastral map: values that are in range by their
//! type.
#![tactic(auto)]

mod edits;
mod label;
mod limits;
mod list;
mod memory;
mod names;
mod numbers;
mod refusals;
mod rows;

pub use edits::Edit;
pub use label::{LABEL_LIMIT, Label};
pub use limits::{ROW_LIMIT, SOURCE_LIMIT, STRING_LIMIT};
pub use list::Numbers;
pub use memory::Memory;
pub use names::{Face, Item, Name};
pub use numbers::{
    GREATEST_NUMBER, Number, ParcelNo, Parcels, PointNo, Points, SourceNo, Sources, StringNo,
    Strings,
};
pub use refusals::{Refusal, Rule};
pub use rows::{ParcelRow, PointRow, SourceRow, StringRow};
