use dsp_defs::{AuFault, HeaderFault};
use thiserror::Error;

/// Why the header of an AU file is not read.
#[derive(Clone, Copy, Debug, PartialEq, Eq, Error)]
pub enum AuOr {
    /// The bytes are no such file; the offset is in bytes from the file's begin.
    #[error("{fault} at {offset}")]
    Fault { fault: AuFault, offset: u64 },
    /// The source failed.
    #[error("the source failed")]
    Read,
    /// 2^40 bytes were taken, and another is needed. No header is as long.
    #[error("the header is too long")]
    Long,
}

/// Why a conversion stopped before its end.
#[derive(Clone, Copy, Debug, PartialEq, Eq, Error)]
pub enum ConvertFault {
    /// The input is no WAVE file, or ends before its declared samples; the offset is in bytes.
    #[error("{fault} at {offset}")]
    Wave { fault: HeaderFault, offset: u64 },
    /// The input is no AU file, or ends before its declared samples; the offset is in bytes.
    #[error("{fault} at {offset}")]
    Au { fault: AuFault, offset: u64 },
    /// So many bytes of the input were taken, and a further one is wanted.
    #[error("{taken} bytes of the input, of which {limit} may be taken")]
    Input { taken: u64, limit: u64 },
    /// The output would be a WAVE file of so many bytes behind its first eight.
    #[error("a RIFF size of {size}, which may be {limit}")]
    Riff { size: u128, limit: u64 },
    /// The input failed.
    #[error("the input failed")]
    Read,
    /// The output failed.
    #[error("the output failed")]
    Write,
}
