ghost use Rattle.std.specs.Prelude.{◌≡◌};
ghost use Rattle.dsp_check.specs.Check.{of_input, of_mismatch};
ghost use Rattle.dsp_check.specs.declared.fault.CheckFault.TheVariants.{Memory};

use crate::comparing::Mismatch;
use dsp_defs::HeaderFault;
use dsp_input::InputFault;
use std::alloc::AllocError;
use thiserror::Error;

/// Why a file was not found to hold what a script gives.
#[derive(Clone, Copy, Debug, PartialEq, Eq, Error)]
pub enum CheckFault {
    /// The input is no WAVE file as the script says it, or ends before its declared samples; the
    /// offset is in bytes.
    #[error("{fault} at {offset}")]
    Header { fault: HeaderFault, offset: u64 },
    /// So many bytes of the input were taken, and a further one is wanted.
    #[error("{taken} bytes of the input, of which {limit} may be taken")]
    Input { taken: u64, limit: u64 },
    /// The window of a partial convolution ends behind the full one of so many values.
    #[error("a window to {end} of {length} values")]
    Window { end: u64, length: u64 },
    /// The output would be a WAVE file of so many bytes behind its first eight.
    #[error("a RIFF size of {size}, which may be {limit}")]
    Riff { size: u128, limit: u64 },
    /// At a place of the script so many samples stand, of all channels.
    #[error("{size} samples, of which {limit} may be checked")]
    Size { size: u128, limit: u64 },
    /// From this byte on the file is not the output of the script.
    #[error("other bytes at {offset}")]
    Differs { offset: u64 },
    /// The input failed.
    #[error("the input failed")]
    Read,
    /// The port of the file failed.
    #[error("the other input failed")]
    Other,
    /// Want of memory.
    #[error("want of memory")]
    Memory,
}

impl From<InputFault> for CheckFault {
    ghost from_gives = { λ error e. e ≡ of_input error };

    fn from(error: InputFault) -> CheckFault {
        match error {
            InputFault::Header { fault, offset } => CheckFault::Header { fault, offset },
            InputFault::Limit { taken, limit } => CheckFault::Input { taken, limit },
            InputFault::Failed => CheckFault::Read,
        }
    }
}

impl From<Mismatch> for CheckFault {
    ghost from_gives = { λ mismatch e. e ≡ of_mismatch mismatch };

    fn from(mismatch: Mismatch) -> CheckFault {
        match mismatch {
            Mismatch::Differs { offset } => CheckFault::Differs { offset },
            Mismatch::Failed => CheckFault::Other,
        }
    }
}

impl From<AllocError> for CheckFault {
    ghost from_gives = { λ _ e. e ≡ Memory };

    fn from(_: AllocError) -> CheckFault {
        CheckFault::Memory
    }
}
