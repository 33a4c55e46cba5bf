use dsp_defs::HeaderFault;
use thiserror::Error;

/// Why an input was not taken.
#[derive(Clone, Copy, Debug, PartialEq, Eq, Error)]
pub enum InputFault {
    /// The input is no WAVE file as the script says it, or ends before its declared samples; the
    /// offset is in bytes.
    #[error("{fault} at {offset}")]
    Header { fault: HeaderFault, offset: u64 },
    /// So many bytes were taken, and a further one is wanted.
    #[error("{taken} bytes of the input, of which {limit} may be taken")]
    Limit { taken: u64, limit: u64 },
    /// The port has failed.
    #[error("the input failed")]
    Failed,
}
