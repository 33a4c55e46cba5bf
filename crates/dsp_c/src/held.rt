//! A signal that C holds from call to call.

ghost use Rattle.std.specs.Prelude.{◌≡◌, ◌≤◌, ◌++◌, length, take, drop, IfOk, IfErr, IfSome, IfNone, Some};
ghost use Rattle.std.specs.Prelude.{None, is_some};
ghost use Rattle.dsp_host.specs.Ongoing.{FailsToPush, Pushed};

use crate::hidden::Hidden;
use crate::loose::Loose;
use dsp_blocks::BlockUnit;
use dsp_defs::Steps;
use dsp_host::{Ongoing, Refusal};
use std::alloc::Global;
use std::mem::replace;
use std::sync::ledger::{Blank, Ledger};

/// What a handle leads to.
#[derive(Drop)]
pub struct Held {
    pub ongoing: Ongoing<BlockUnit>,
}

/// A handle of C's: a signal that goes on, or nothing. C's memory with all bytes 0 is one that holds nothing.
#[repr(C)]
#[derive(Drop)]
pub struct Handle {
    is_full: bool,
    pub(crate) hidden: Hidden,
    ghost tied: { is_some hidden.held ≡ is_full },
}

/// Takes what a handle holds. It then holds nothing.
pub fn take_held(alloc: Global, handle: &mut Handle) -> Option<Box<Held>>
    ensures some { IfSome result (λ held. handle.old.hidden.held ≡ Some held.value) }
    ensures none { IfNone result (handle.old.hidden.held ≡ None) }
    ensures empty { handle.new.hidden.held ≡ None }
{
    let empty = Handle {
        is_full: false,
        hidden: Hidden::empty(alloc),
    };
    let Handle { is_full, hidden } = replace(handle, empty);
    if !is_full {
        return None;
    }
    Some(hidden.into_loose().into_box())
}

/// Has a handle, which holds nothing, hold this.
pub fn put_held(handle: &mut Handle, held: Box<Held>)
    requires { handle.old.hidden.held ≡ None }
    ensures { handle.new.hidden.held ≡ Some held.value }
{
    *handle = Handle {
        is_full: true,
        hidden: Hidden::of(Loose::of(held)),
    };
}

/// Takes the next frames of what is held, with a counter of its own.
pub fn counted_push<L: Ledger>(
    held: &mut Held,
    input: &[u8],
    output: &mut [u8],
    blank: Blank,
) -> Result<usize, Refusal>
    requires name { blank.name ≡ L.name }
    requires parts { blank.parts ≡ 2 }
    requires ledger_parts { L.parts ≡ 2 }
    ensures ok { IfOk result (λ given. Pushed held.old.ongoing held.new.ongoing input.now
        (length output.old) (take given output.new)) }
    ensures within { IfOk result (λ given. given ≤ length output.old) }
    ensures rest { IfOk result (λ given.
        output.new ≡ take given output.new ++ drop given output.old) }
    ensures err { IfErr result (λ why. FailsToPush why held.old.ongoing input.now
        (length output.old)) }
    ensures unchanged { IfErr result (λ _. (held.new ≡ held.old) × (output.new ≡ output.old)) }
{
    let mut steps: Steps<L> = Steps::new(blank);
    held.ongoing.push(input, output, &mut steps)
}
