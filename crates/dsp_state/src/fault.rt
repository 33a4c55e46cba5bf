ghost use Rattle.std.specs.Prelude.{◌≡◌};
ghost use Rattle.dsp_state.specs.declared.fault.LoadFault.TheVariants as load_fault;
ghost use Rattle.dsp_state.specs.declared.fault.NewFault.TheVariants as new_fault;

use dsp_defs::StateKind;
use std::alloc::AllocError;
use thiserror::Error;

/// Why a state is not loaded.
#[derive(Debug, Drop, Error)]
pub enum LoadFault {
    /// The bytes are no state: what is wrong, and where.
    #[error("{kind} at {offset}")]
    State { kind: StateKind, offset: u64 },
    #[error("out of memory")]
    Memory,
}

impl From<AllocError> for LoadFault {
    ghost from_gives = { λ _ e. e ≡ load_fault.Memory };

    fn from(_e: AllocError) -> LoadFault {
        LoadFault::Memory
    }
}

/// Why the state of a run is not begun.
#[derive(Debug, Drop, Error)]
pub enum NewFault {
    /// The canonical text of the script has this many bytes, more than a script may have.
    #[error("a text of {size} bytes")]
    LongText { size: u64 },
    #[error("out of memory")]
    Memory,
}

impl From<AllocError> for NewFault {
    ghost from_gives = { λ _ e. e ≡ new_fault.Memory };

    fn from(_e: AllocError) -> NewFault {
        NewFault::Memory
    }
}
