//! What C holds.
ghost use Rattle.std.specs.Prelude.{◌≡◌, Some, None, option_map};
ghost use Rattle.cad_handle.specs.Held.{flag_of};

use crate::kept::Kept;
use crate::state::State;
use std::alloc::Global;
use std::mem;

/// What C holds of a map: all zero while it is closed. A copy of an open one may not be used.
#[repr(C)]
#[derive(Drop)]
pub struct Handle {
    opened: u64,
    pub kept: Kept,
    ghost known: { opened ≡ flag_of kept.state },
}

impl Handle {
    /// A closed handle.
    pub fn closed() -> Handle
        ensures { result.kept.state ≡ None }
    {
        Handle {
            opened: 0,
            kept: Kept::empty(),
        }
    }

    /// Takes the state out, if there is one, and leaves the handle closed.
    pub fn take(&mut self, alloc: Global) -> Option<Box<State>>
        ensures taken { self.old.kept.state ≡ option_map (λ b. b.value) result }
        ensures closed { self.new.kept.state ≡ None }
    {
        let Handle { opened, kept } = mem::replace(self, Handle::closed());
        if opened == 1 {
            return Some(kept.into_box(alloc));
        }
        None
    }

    /// Puts a state into a handle that is closed. One that was open forgets its state.
    pub fn put(&mut self, state: Box<State>)
        ensures { self.new.kept.state ≡ Some state.value }
    {
        *self = Handle {
            opened: 1,
            kept: Kept::of(state),
        };
    }

    /// Leaves the handle closed, and gives the memory of its state back, if there is one.
    pub fn close(&mut self, alloc: Global)
        ensures { self.new.kept.state ≡ None }
    {
        let _ = self.take(alloc);
    }
}
