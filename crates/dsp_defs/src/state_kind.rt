use thiserror::Error;

/// What is wrong with a saved state.
#[derive(Clone, Copy, Debug, PartialEq, Eq, Error)]
pub enum StateKind {
    /// The bytes do not begin with the mark of a state.
    #[error("no state")]
    NotState,
    /// The version is another one than 1.
    #[error("version {got}")]
    Version { got: u32 },
    /// The text is not the canonical one of a script that can run.
    #[error("no canonical text of a script")]
    Text,
    /// The bytes end before a field is complete.
    #[error("cut off")]
    Cut,
    /// The frames are too many for a correlation, or the blocks of the script cannot keep the numbers.
    #[error("no such value")]
    Value,
    /// Bytes follow the last number.
    #[error("more bytes than a state has")]
    Extra,
    /// There are more bytes than a state may have.
    #[error("too long")]
    TooLong,
    /// The canonical text of a script that is to be stopped is longer than a script may be.
    #[error("a text of {size} bytes")]
    LongText { size: u64 },
}
