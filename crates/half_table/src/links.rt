//! What half-edges are linked to.
ghost use Rattle.std.specs.Prelude.{◌≡◌};
ghost use Rattle.half_table.specs.Rows.{links_at};
ghost use Rattle.half_table.specs.Writes.{with_links_at};

use crate::half::Half;
use crate::packed::PackedLinks;
use cad_rows::{Face, PointNo};

/// The record of a half-edge: where it begins, what follows it, what it follows, and the face to its left.
#[derive(Clone, Copy, Drop)]
pub struct Links {
    pub origin: PointNo,
    pub next: Half,
    pub prev: Half,
    pub face: Face,
}

/// The links of both halves of a string, packed.
#[derive(Clone, Copy, Drop)]
pub struct Ends {
    pub forward: PackedLinks,
    pub backward: PackedLinks,
}

impl Ends {
    /// The links of one half.
    pub(crate) fn at(&self, forward: bool) -> &PackedLinks
        ensures { result.now ≡ links_at forward self.now }
    {
        if forward {
            &self.forward
        } else {
            &self.backward
        }
    }

    /// Puts other links at one half.
    pub(crate) fn set(&mut self, forward: bool, to: Links)
        ensures { self.new ≡ with_links_at forward to self.old }
    {
        if forward {
            self.forward = PackedLinks::of(&to);
        } else {
            self.backward = PackedLinks::of(&to);
        }
    }
}
