//! What counts the work on a table.
ghost use Rattle.std.specs.Prelude.{◌≡◌, ℕ, ◌≤◌, min};
ghost use Rattle.std.proofs.Common.{arith};
ghost use Rattle.half_table.specs.Count.{one_more, greatest};

use std::marker::Model;

/// Counts the work on one table. Its owner makes it; a table neither makes one nor gives it back.
pub trait Tally: Drop {
    /// What has been counted.
    ghost counted: { Self → ℕ };

    /// What has been counted.
    fn count(&self) -> u64
        ensures { result ≡ counted self.now };

    /// One more, up to the greatest number.
    fn tick(&mut self)
        ensures { counted self.new ≡ one_more (counted self.old) };

    /// The count never passes the greatest number.
    ghost within: { (t : Self) → counted t ≤ greatest };
}

/// A plain tally.
#[derive(Drop)]
pub struct Ticks {
    count: u64,
}

impl Model for Ticks {
    ghost use Rattle.std.specs.Prelude.{ℕ};

    ghost Value = { ℕ };

    ghost view = { λ t. t.count };
}

impl Ticks {
    /// A tally that has counted nothing.
    pub fn new() -> Ticks
        ensures { result ≡ 0 }
    {
        Ticks { count: 0 }
    }
}

impl Tally for Ticks {
    ghost counted = { λ t. min t greatest };

    ghost within = { λ t. Prim.omega arith };

    fn count(&self) -> u64 {
        self.count
    }

    fn tick(&mut self) {
        self.count = self.count.saturating_add(1);
    }
}
