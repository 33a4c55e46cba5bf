//! Why a text gives no script.

ghost use Rattle.std.specs.Prelude.{◌≡◌};
ghost use Rattle.dsp_script.specs.declared.fault.ParseFault.TheVariants.{Memory, Script};

use dsp_defs::ScriptFault;
use std::alloc::{AllocError, AllocFailed};
use thiserror::Error;

/// Why a text gives no script.
#[derive(Debug, Drop, Error)]
pub enum ParseFault {
    /// The text is no script: its first fault.
    #[error("{0}")]
    Script(ScriptFault),
    #[error("want of memory")]
    Memory,
}

impl From<AllocError> for ParseFault {
    ghost from_gives = { λ _ e. e ≡ Memory };

    fn from(_e: AllocError) -> ParseFault {
        ParseFault::Memory
    }
}

impl<T: Drop> From<AllocFailed<T>> for ParseFault {
    ghost from_gives = { λ _ e. e ≡ Memory };

    fn from(_e: AllocFailed<T>) -> ParseFault {
        ParseFault::Memory
    }
}

impl From<ScriptFault> for ParseFault {
    ghost from_gives = { λ f e. e ≡ Script f };

    fn from(fault: ScriptFault) -> ParseFault {
        ParseFault::Script(fault)
    }
}
