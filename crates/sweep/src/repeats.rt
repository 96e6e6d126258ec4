//! The first place at which a value stands again.
ghost use Rattle.std.specs.Prelude.{◌≡◌, length, IfOk, IfSome, IfNone};
ghost use Rattle.std.specs.Bool.{OnTrue};
ghost use Rattle.sweep.specs.Repeats.{AreDistinct, IsFirstRepeat, keyed_of};
ghost use Rattle.sweep.specs.Repeats.{FollowsEqual, PrecedesWithin};

use std::alloc::{AllocError, Global};

/// A key, and the place at which it stands.
#[derive(Clone, Copy)]
struct Keyed {
    key: u64,
    place: usize,
}

// Each of these keys with its place.
fn with_places(alloc: Global, keys: &[u64]) -> Result<Vec<Keyed>, AllocError>
    ensures { IfOk result (λ keyed. keyed.items ≡ keyed_of keys.now) }
{
    let mut keyed = Vec::with_capacity(alloc, keys.len())?;
    for place in 0..keys.len() {
        keyed.push(Keyed {
            key: keys[place],
            place,
        })?;
    }
    Ok(keyed)
}

// The least place among those that stand right behind one with the same key.
fn least_behind_equal(keyed: &[Keyed]) -> Option<usize>
    ensures some { IfSome result (FollowsEqual keyed.now) }
    ensures least { PrecedesWithin keyed.now (length keyed.now) result }
{
    let mut least = None;
    for at in 1..keyed.len() {
        if keyed[at - 1].key == keyed[at].key {
            let place = keyed[at].place;
            least = Some(least.unwrap_or(place).min(place));
        }
    }
    least
}

// Whether no two of these keys are equal, told by a sort of the keys alone.
fn are_distinct(alloc: Global, keys: &[u64]) -> Result<bool, AllocError>
    ensures { IfOk result (λ distinct. OnTrue distinct (AreDistinct keys.now)) }
{
    let mut sorted = Vec::from_slice(alloc, keys)?;
    sorted.sort_unstable();
    Ok(sorted.is_sorted_by(|a, b| a < b))
}

/// The least place of these at which a value stands that an earlier place has, and `None` where no
/// two are equal. By a sort or two, so that no choice of values makes it slow.
pub fn first_repeated(alloc: Global, keys: &[u64]) -> Result<Option<usize>, AllocError>
    ensures some { IfOk result (λ place. IfSome place (IsFirstRepeat keys.now)) }
    ensures none { IfOk result (λ place. IfNone place (AreDistinct keys.now)) }
{
    if are_distinct(alloc, keys)? {
        return Ok(None);
    }
    let mut keyed = with_places(alloc, keys)?;
    keyed.sort_unstable_by_key(|k| (k.key, k.place));
    Ok(least_behind_equal(keyed.as_slice()))
}
