//! A script done record by record: one call for each record, and its answer as bytes.
#![tactic(auto)]

mod answers;
mod faults;
mod one_record;
mod opening;
mod plain;

pub use answers::answer_of_row;
pub use faults::{SubmitFault, Untold};
pub use one_record::submit;
pub use opening::store_of;
