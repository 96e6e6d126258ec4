//! What is promised of the texts that are read and written: plans, scripts, answers, tables and differences. Each function
//! says a public clause again, and its body is the call: the edits in must-fail/ make that body wrong, and the clause
//! refuses it.
#![tactic(auto)]

mod answers;
mod differences;
mod plans;
mod records;
mod shapes;
mod sinks;

pub use answers::{hundredths_of_an_area, text_of_a_plan, text_of_an_answer, text_of_an_outline};
pub use differences::{differences_of_two_maps, names_that_differ, told_of_a_name};
pub use plans::{map_of_the_rows, rows_of_a_plan};
pub use records::{line_of_a_record, next_record};
pub use shapes::{metres_of_millimetres, shape_of_a_parcel};
pub use sinks::write_each_byte;
