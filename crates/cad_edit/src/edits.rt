//! One file for each edit: its reasons for a refusal, and what it makes of a map.
pub(crate) mod divide;
pub(crate) mod enclose;
pub(crate) mod join;
pub(crate) mod labels;
pub(crate) mod merge;
pub(crate) mod points;
pub(crate) mod sources;
pub(crate) mod split;
