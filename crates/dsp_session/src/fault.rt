ghost use Rattle.std.specs.Prelude.{◌≡◌};
ghost use Rattle.dsp_session.specs.declared.fault.PartFault.TheVariants.{Stream};
ghost use Rattle.dsp_session.specs.Opening.{of_input};

use dsp_defs::HeaderFault;
use dsp_input::InputFault;
use thiserror::Error;

/// Which length is past its limit.
#[derive(Clone, Copy, Debug, PartialEq, Eq, Error)]
pub enum LengthFault {
    /// So many bytes of the input were taken, and a further one is wanted.
    #[error("{taken} bytes of the input, of which {limit} may be taken")]
    Input { taken: u64, limit: u64 },
    /// A correlation holds so many samples of a channel, and so many more are too many.
    #[error("{held} gathered samples and {more} more")]
    Gather { held: u64, more: u64 },
    /// The window of a partial convolution ends behind the full one of so many values.
    #[error("a window to {end} of {length} values")]
    Window { end: u64, length: u64 },
    /// The output would be a WAVE file of so many bytes behind its first eight.
    #[error("a RIFF size of {size}, which may be {limit}")]
    Riff { size: u128, limit: u64 },
}

/// Why a stream stopped before its end.
#[derive(Clone, Copy, Debug, PartialEq, Eq, Error)]
pub enum StreamFault {
    /// The input is no WAVE file as the script says it, or ends before its declared samples; the
    /// offset is in bytes.
    #[error("{fault} at {offset}")]
    Header { fault: HeaderFault, offset: u64 },
    #[error("{0}")]
    Lengths(LengthFault),
    /// The input failed.
    #[error("the input failed")]
    Input,
    /// The output failed.
    #[error("the output failed")]
    Output,
}

impl From<InputFault> for StreamFault {
    ghost from_gives = { λ error e. e ≡ of_input error };

    fn from(error: InputFault) -> StreamFault {
        match error {
            InputFault::Header { fault, offset } => StreamFault::Header { fault, offset },
            InputFault::Limit { taken, limit } => {
                StreamFault::Lengths(LengthFault::Input { taken, limit })
            }
            InputFault::Failed => StreamFault::Input,
        }
    }
}

/// Why a stream over a part of the input stopped before its end.
#[derive(Clone, Copy, Debug, PartialEq, Eq, Error)]
pub enum PartFault {
    /// The input has so many frames, fewer than the part ends or begins at.
    #[error("{got} frames, of which {at} are taken or passed over")]
    Behind { at: u32, got: u64 },
    #[error("{0}")]
    Stream(StreamFault),
}

impl From<StreamFault> for PartFault {
    ghost from_gives = { λ fault e. e ≡ Stream fault };

    fn from(fault: StreamFault) -> PartFault {
        PartFault::Stream(fault)
    }
}

impl From<InputFault> for PartFault {
    ghost from_gives = { λ error e. e ≡ Stream (of_input error) };

    fn from(error: InputFault) -> PartFault {
        PartFault::Stream(StreamFault::from(error))
    }
}
