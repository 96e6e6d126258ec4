//! Rings with their faces.
ghost use Rattle.std.specs.Prelude.{◌≡◌, IfOk};

use cad_rings::Ring;
use cad_rows::{Face, Memory};

/// A ring, with the face to its left.
#[derive(Drop)]
pub struct Boundary {
    pub face: Face,
    pub ring: Ring,
}

impl Boundary {
    /// An equal boundary.
    pub fn copy(&self) -> Result<Boundary, Memory>
        ensures { IfOk result (λ copied. copied ≡ self.now) }
    {
        let ring = self.ring.copy()?;
        Ok(Boundary {
            face: self.face,
            ring,
        })
    }
}
