//! The halves of a cycle, one after another.
ghost use Rattle.std.specs.Prelude.{◌≡◌, ◌∷◌, true, Some};
ghost use Rattle.std.specs.Iterator.{YieldsFirst, item_count};
ghost use Rattle.half_table.specs.Rows.{has, cycle, IsLinked};
ghost use Rattle.half_table.specs.Ahead.{halves_ahead, IsWalking};

use crate::half::{Half, is_same};
use crate::rows::{Rows, next_half};
use std::marker::Model;

/// The halves of a cycle from one of them on, each once.
#[derive(Drop)]
pub struct Walk<'a> {
    rows: &'a Rows,
    start: Half,
    at: Option<Half>,
}

impl<'a> Model for Walk<'a> {
    ghost use Rattle.std.specs.Prelude.{List};
    ghost use Rattle.half_table.specs.declared.half.Half.{Half as HalfEdge};
    ghost use Rattle.half_table.specs.Ahead.{halves_ahead, IsWalking};

    ghost Value = { List HalfEdge };

    ghost view = { λ w. halves_ahead w.rows.now w.start w.at };

    ghost invariant = { λ w. IsWalking w.rows.now w.start w.at };
}

/// The half after `at`, if the cycle goes on.
fn half_after(rows: &Rows, start: &Half, at: &Half) -> Option<Half>
    requires { IsWalking rows.now start.now (Some at.now) }
    ensures ahead { halves_ahead rows.now start.now (Some at.now)
        ≡ at.now ∷ halves_ahead rows.now start.now result }
    ensures walking { IsWalking rows.now start.now result }
{
    let after = next_half(rows, at);
    if is_same(&after, start) {
        None
    } else {
        Some(after)
    }
}

/// Walks the cycle of `h`.
pub(crate) fn walk_rows<'a>(rows: &'a Rows, h: &Half) -> Walk<'a>
    requires h_in { has rows.now h.now ≡ true }
    requires linked { IsLinked rows.now }
    ensures { result ≡ cycle rows.now h.now }
{
    Walk {
        rows,
        start: *h,
        at: Some(*h),
    }
}

impl Iterator for Walk<'_> {
    type Item = Half;

    ghost next_gives = { YieldsFirst (λ w. w) };

    ghost remaining = { item_count (λ w. w) };

    fn next(&mut self) -> Option<Half> {
        let at = self.at?;
        self.at = half_after(self.rows, &self.start, &at);
        Some(at)
    }
}
