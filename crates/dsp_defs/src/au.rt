use thiserror::Error;

/// Why a Sun AU file's samples are not read.
#[derive(Clone, Copy, Debug, PartialEq, Eq, Error)]
pub enum AuFault {
    /// The first four bytes are not `.snd`.
    #[error("no AU file")]
    NotAu,
    /// The samples are said to begin within the 24 bytes of the header's fields.
    #[error("a data offset of {got}")]
    Offset { got: u32 },
    /// The samples are not linear, of 8, 16, 24 or 32 bits.
    #[error("the encoding {got}")]
    Encoding { got: u32 },
    /// The file has no channel, or more than there may be.
    #[error("{got} channels")]
    Channels { got: u32 },
    /// The file ends before the samples begin.
    #[error("no samples")]
    Ended,
    /// The file ends before all declared whole frames came.
    #[error("{got} of {declared} declared bytes")]
    Short { declared: u32, got: u64 },
}

/// From which form of file to which the samples are taken.
#[derive(Clone, Copy, Debug, PartialEq, Eq)]
pub enum Direction {
    WaveToAu,
    AuToWave,
}
