//! Views of a map: its rows with their geometry, what differs between two maps, and drawings.
#![tactic(auto)]

mod areas;
mod changes;
mod cut;
mod differences;
mod dots;
mod drawing;
mod edges;
mod key;
mod labels;
mod land;
mod lines;
mod marks;
mod metres;
mod names;
mod numbers;
mod page;
mod parcels;
mod pen;
mod reading;
mod room;
mod shape;
mod sheet;
mod tables;
mod telling;
mod well_known;
mod words;

pub use areas::face_area;
pub use cut::{cut_adds_up, cut_ring, cut_rings};
pub use differences::{difference_text, differing, one_each};
pub use drawing::draw;
pub use metres::{metres_again, metres_text};
pub use names::{kind_name, name_number, names_of};
pub use numbers::{retired_table, source_table};
pub use parcels::parcel_table;
pub use reading::{Plan, read_map};
pub use shape::shape_text;
pub use sheet::Sheet;
pub use tables::{point_table, string_table};
pub use telling::told;
