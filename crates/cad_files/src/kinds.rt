//! The kinds of a map's rows.

/// A kind of rows.
#[derive(Clone, Copy)]
pub(crate) enum Kind {
    Sources,
    Points,
    Parcels,
    Strings,
    Retired,
}
