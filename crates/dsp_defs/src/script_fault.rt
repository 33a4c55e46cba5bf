use crate::Fmt;
use thiserror::Error;

/// What is wrong at a place of a script's text.
#[derive(Clone, Copy, Debug, PartialEq, Eq, Error)]
pub enum ScriptKind {
    /// The text has more than `MAX_SCRIPT` bytes.
    #[error("the text is too long")]
    TooLong,
    /// A byte begins no token.
    #[error("a byte begins no token")]
    BadByte,
    /// A word is wanted, and this is none that may stand here; or the text goes on behind its end;
    /// or a list is wanted, and this is the name of no table.
    #[error("unknown word")]
    UnknownWord,
    /// A number is wanted, and this is no numeral.
    #[error("no number")]
    BadNumber,
    #[error("a number outside {low} to {high}")]
    OutOfRange { low: i64, high: i64 },
    /// The text ends too early, or a list begins with no brace where no name may stand.
    #[error("something is missing")]
    Missing,
    /// The block has no form in the present format, or a conversion names the present format.
    #[error("no such form in {format:?}")]
    NoSuchForm { format: Fmt },
    #[error("{got} channels where {wanted} are wanted")]
    ChannelsHere { got: u8, wanted: u8 },
    /// A list ends at a count that it may not have.
    #[error("a list of {taps} for a factor of {factor}")]
    Length { taps: u64, factor: u64 },
    #[error("more than {limit}")]
    TooMany { limit: u64 },
    /// A table is to be named, and this is no name.
    #[error("no name")]
    BadName,
    /// A table is to be named, and an earlier one has this name.
    #[error("a name that is taken")]
    NameTaken,
}

/// The first item of a text, or its end, that can't stand after the items before it.
#[derive(Clone, Copy, Debug, PartialEq, Eq, Error)]
#[error("{kind} at {offset}")]
pub struct ScriptFault {
    /// The byte of the text at which it stands.
    pub offset: u64,
    pub kind: ScriptKind,
}
