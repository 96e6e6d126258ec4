//! Edits in place.

pub(crate) mod added;
pub(crate) mod adding;
pub(crate) mod chain_strings;
pub(crate) mod coming;
pub(crate) mod counted;
pub(crate) mod crossing;
pub(crate) mod given;
pub(crate) mod hidden;
pub(crate) mod joining;
pub(crate) mod merged;
pub(crate) mod merging;
pub(crate) mod moved;
pub(crate) mod rows;
pub(crate) mod shared;
pub(crate) mod try_adding;
pub(crate) mod try_join;
pub(crate) mod try_merge;
pub(crate) mod try_split;
