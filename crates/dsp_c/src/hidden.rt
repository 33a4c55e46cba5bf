// A pointer that C may keep.
ghost use Rattle.std.specs.Prelude.{◌≡◌, true, Option, None, Some, is_some};
ghost use Rattle.dsp_c.specs.declared.held.Held.{Held};

use crate::held::Held;
use crate::loose::Loose;
use std::alloc::{Allocator, Global};
use std::marker::Model;
use std::ptr::null_mut;

/// A loose box whose pointer does not say what it leads to, or nothing.
#[repr(C)]
#[derive(Drop)]
pub struct Hidden {
    at: *mut (),
    alloc: Global,
    pub ghost held: { Option Held },
}

impl Model for Hidden {
    ghost use Rattle.std_alloc.specs.Box.Ownership.{box_owns};
    ghost use Rattle.dsp_c.specs.Holding.{if_some};
    ghost use Rattle.dsp_c.specs.contracts.held.Held as row_of_held;
    ghost use Rattle.dsp_c.specs.declared.held.Held.{Held};

    ghost also_owns = { λ h. if_some
        (λ (x : Held). box_owns (⟦<Global as Allocator>⟧.dealloc_token h.alloc) row_of_held.the_row h.at x)
        h.held };
}

impl Hidden {
    /// Nothing.
    pub fn empty(alloc: Global) -> Hidden
        ensures { result.held ≡ None }
    {
        Hidden {
            at: null_mut(),
            alloc,
        }
    }

    /// Hides what a loose box leads to.
    pub fn of(loose: Loose<Held, Global>) -> Hidden
        ensures { result.held ≡ Some loose.value }
    {
        let Loose { at, alloc } = loose;
        Hidden {
            at: at as *mut (),
            alloc,
        }
    }

    /// The loose box, where there is one.
    pub fn into_loose(self) -> Loose<Held, Global>
        requires { is_some self.held ≡ true }
        ensures { self.held ≡ Some result.value }
    {
        let Hidden { at, alloc } = self;
        Loose {
            at: at as *mut Held,
            alloc,
        }
    }
}

// What it leads to owns all that it reaches, so C may pass a handle to another thread.
unsafe impl Send for Hidden {}
