//! The sides of a plan's strings.

use cad_rows::{Face, PointNo, StringNo};

/// A side of a string, from one point to another, with the face to its left and the side that follows it.
#[derive(Clone, Copy)]
pub(crate) struct PlanSide {
    pub(crate) string: StringNo,
    pub(crate) from: PointNo,
    pub(crate) to: PointNo,
    pub(crate) face: Face,
    /// The point that the side after it leads to.
    pub(crate) after: PointNo,
    /// The place of the side after it. The sides of the i-th string, from 0 on, are at 2i (from its first point to its
    /// second) and 2i + 1.
    pub(crate) next: usize,
}
