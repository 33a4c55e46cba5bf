use dsp_defs::ScriptFault;
use thiserror::Error;

/// Why a text gives no session.
#[derive(Clone, Copy, Debug, PartialEq, Eq, Error)]
pub enum OpenFault {
    /// The text is no script: its first fault.
    #[error("{0}")]
    Script(ScriptFault),
    /// The script runs in no blocks of this length; the unit is 0 where it runs in none at all.
    #[error("blocks of {block} frames, where {unit} is the unit")]
    BlockLength { block: u64, unit: u64 },
    #[error("out of memory")]
    Memory,
}

/// Why a call did nothing.
#[derive(Clone, Copy, Debug, PartialEq, Eq, Error)]
pub enum Refusal {
    /// The text gives no session.
    #[error("{0}")]
    Open(OpenFault),
    /// The numbers are none that the blocks can keep of so many frames.
    #[error("no such state")]
    State,
    /// The bytes are no whole frames, which have so many.
    #[error("frames of {frame} bytes")]
    Frames { frame: u64 },
    /// They are more frames than a block.
    #[error("more than {block} frames")]
    Length { block: u64 },
    /// With them the input would have more frames than it may.
    #[error("more than {limit} frames")]
    Input { limit: u64 },
    /// The output has less room than these bytes.
    #[error("room for {bytes} bytes is wanted")]
    Room { bytes: u128 },
    /// There is less room than for so many kept numbers.
    #[error("room for {numbers} numbers is wanted")]
    KeptRoom { numbers: u128 },
    /// A correlation holds so many samples of a channel, and so many more are too many.
    #[error("{held} gathered samples and {more} more")]
    Gather { held: u64, more: u64 },
    /// A correlation would hold so many samples of a channel, which are too many.
    #[error("{samples} gathered samples")]
    Full { samples: u64 },
    /// The window of a partial convolution ends past it.
    #[error("a window to {end} of {length} values")]
    Window { end: u64, length: u64 },
}
