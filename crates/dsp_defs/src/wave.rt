use crate::{Coding, Fmt};
use thiserror::Error;

/// What the header of a WAVE file is wanted to say of its samples.
#[derive(Clone, Copy, Debug, PartialEq, Eq)]
pub struct Wanted {
    pub format: Fmt,
    pub channels: u8,
}

/// What the `fmt ` chunk of a file says of its samples: the rate in frames a second, and how they
/// stand as bytes.
#[derive(Clone, Copy, Debug, PartialEq, Eq)]
pub struct Sampling {
    pub rate: u32,
    pub coding: Coding,
}

/// What the header of a file says: the rate in frames a second, the offset of the first sample
/// byte, the bytes of the samples, and how they stand as bytes. No size means that they go to the
/// end of the file.
#[derive(Clone, Copy, Debug, PartialEq, Eq)]
pub struct Header {
    pub rate: u32,
    pub start: u64,
    pub size: Option<u32>,
    pub coding: Coding,
}

/// What the header of a file says of which nothing is wanted: what `Header` says, and the channels.
#[derive(Clone, Copy, Debug, PartialEq, Eq)]
pub struct OpenHeader {
    pub rate: u32,
    pub start: u64,
    pub size: Option<u32>,
    pub coding: Coding,
    pub channels: u8,
}

/// Why a WAVE file's samples are not read.
#[derive(Clone, Copy, Debug, PartialEq, Eq, Error)]
pub enum HeaderFault {
    /// The first four bytes are not `RIFF`.
    #[error("no RIFF file")]
    NotRiff,
    /// Bytes 8 to 11 are not `WAVE`.
    #[error("no WAVE file")]
    NotWave,
    /// A `data` chunk stands before any `fmt ` chunk.
    #[error("samples before their format")]
    NoFormat,
    /// The `fmt ` chunk has fewer than 16 bytes, or fewer than 40 where it is extensible.
    #[error("a format of {got} bytes")]
    FormatSize { got: u32 },
    /// The samples are not linear PCM.
    #[error("the format tag {got}")]
    Tag { got: u16 },
    /// The bits of a sample are not those of the format; Q31 takes 24 and 32.
    #[error("{got} bits, where {wanted} are wanted")]
    Bits { got: u16, wanted: u16 },
    /// The file has another number of channels.
    #[error("{got} channels, where {wanted} are wanted")]
    Channels { got: u16, wanted: u16 },
    /// The bytes of a frame are not those of its samples.
    #[error("frames of {got} bytes, where {wanted} are wanted")]
    Align { got: u16, wanted: u16 },
    /// The file ends before the samples begin.
    #[error("no samples")]
    NoSamples,
    /// The file ends before all declared whole frames came.
    #[error("{got} of {declared} declared bytes")]
    Short { declared: u32, got: u64 },
}
