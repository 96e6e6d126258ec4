//! A state as the pointer to its block.
ghost use Rattle.std.specs.Prelude.{◌≡◌, Option, Some, None};
ghost use Rattle.cad_handle.specs.declared.state.State.{State};
ghost use Rattle.cad_handle.specs.Held.{flag_of};

use crate::loose::Loose;
use crate::state::State;
use std::alloc::Global;
use std::marker::Model;
use std::ptr;

/// A state behind a pointer, or none. It forgets a state that isn't taken out before it ends.
#[repr(C)]
#[derive(Drop)]
pub struct Kept {
    at: *mut u8,
    pub ghost state: { Option State },
}

impl Model for Kept {
    ghost use Rattle.cad_handle.specs.Held.{owns_kept};

    ghost also_owns = { λ k. owns_kept k.at k.state };
}

impl Kept {
    /// No state.
    pub fn empty() -> Kept
        ensures { result.state ≡ None }
    {
        Kept {
            at: ptr::null_mut(),
        }
    }

    /// Keeps the block of a state.
    fn of_loose(loose: Loose<State, Global>) -> Kept
        ensures { result.state ≡ Some loose.value }
    {
        let Loose { at, alloc: _alloc } = loose;
        Kept { at: at as *mut u8 }
    }

    /// The block of the state that is kept.
    fn into_loose(self, alloc: Global) -> Loose<State, Global>
        requires { flag_of self.state ≡ 1 }
        ensures { self.state ≡ Some result.value }
    {
        let Kept { at } = self;
        Loose {
            at: at as *mut State,
            alloc,
        }
    }

    /// Keeps a state.
    pub fn of(state: Box<State>) -> Kept
        ensures { result.state ≡ Some state.value }
    {
        Kept::of_loose(Loose::of(state))
    }

    /// The state that is kept.
    pub fn into_box(self, alloc: Global) -> Box<State>
        requires { flag_of self.state ≡ 1 }
        ensures { self.state ≡ Some result.value }
    {
        self.into_loose(alloc).into_box()
    }
}
