//! Spans that overlap, two by two.
ghost use Rattle.std.specs.Prelude.{◌≡◌, ◌≢◌, ℕ, Bool, drop};
ghost use Rattle.std.specs.Bool.{OnTrue, OnFalse};
ghost use Rattle.std.specs.List.{AllByRecursion};
ghost use Rattle.sweep.specs.Spans.{EachTwo, IsRising, PassIfMet, AllThatMeetPass};
ghost use Rattle.sweep.specs.Spans.{HasFailed, HasFailedWith};

use crate::span::Span;

/// A test of two things by their places. It answers for all places, also such as nothing stands at.
pub trait PairTest {
    ghost passes: { Self → ℕ → ℕ → Bool };

    /// Whether the things at these two places pass.
    fn pass(&self, first: usize, second: usize) -> bool
        ensures { result ≡ passes self.now first second };
}

/// Whether each two of these spans that overlap pass the test, in one of the two orders: spans of
/// one place aren't tested. Spans are left in order of where they begin. Takes no memory.
///
/// They are sorted by their beginnings, and each is compared with the later ones that begin before
/// it ends: the sweep of a line, of Shamos and Hoey, in one dimension. Its time is that of the sort
/// and of the tests.
pub fn all_that_meet_pass<T: PairTest>(test: &T, spans: &mut [Span]) -> bool
    ensures passed { OnTrue result (AllThatMeetPass (T.passes test.now) spans.old) }
    ensures failed { OnFalse result (HasFailed (T.passes test.now) spans.old) }
{
    spans.sort_unstable_by_key(|s| s.low);
    passes_each(test, spans)
}

// Whether each two of these spans that overlap pass.
fn passes_each<T: PairTest>(test: &T, spans: &[Span]) -> bool
    requires { IsRising spans.now }
    ensures passed { OnTrue result (EachTwo (PassIfMet (T.passes test.now)) spans.now) }
    ensures failed { OnFalse result (HasFailed (T.passes test.now) spans.now) }
{
    for place in 0..spans.len() {
        let first = spans[place];
        if !passes_later(test, spans, first, place + 1) {
            return false;
        }
    }
    true
}

// Whether a span passes with each later one that begins before it ends. They rise, so the first
// that begins past its end is the last one looked at.
fn passes_later<T: PairTest>(test: &T, spans: &[Span], first: Span, from: usize) -> bool
    requires { IsRising (drop from spans.now) }
    ensures passed { OnTrue result (AllByRecursion (PassIfMet (T.passes test.now) first)
        (drop from spans.now)) }
    ensures failed { OnFalse result (HasFailedWith (T.passes test.now) spans.now first) }
{
    for place in from..spans.len() {
        let other = spans[place];
        if other.low > first.high {
            return true;
        }
        if first.place != other.place && !test.pass(first.place, other.place) {
            return false;
        }
    }
    true
}
