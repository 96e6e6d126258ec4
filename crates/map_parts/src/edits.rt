//! Edits of the parts, in place.

pub(crate) mod added;
pub(crate) mod chain;
pub(crate) mod divide;
pub(crate) mod dividing;
pub(crate) mod enclose;
pub(crate) mod enclosing;
pub(crate) mod ended;
pub(crate) mod faces;
pub(crate) mod handing;
pub(crate) mod island;
pub(crate) mod join;
pub(crate) mod kept_places;
pub(crate) mod labels;
pub(crate) mod merging;
pub(crate) mod merging_island;
pub(crate) mod merging_tried;
pub(crate) mod parcel_rooms;
pub(crate) mod passing;
pub(crate) mod placed_strings;
pub(crate) mod points;
pub(crate) mod retired;
pub(crate) mod rooms;
pub(crate) mod sources;
pub(crate) mod split;
pub(crate) mod spokes;
pub(crate) mod string_rows;
