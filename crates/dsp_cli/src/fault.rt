use dsp_au::ConvertFault;
use dsp_check::CheckFault;
use dsp_defs::StateKind;
use dsp_script::ScriptFault;
use dsp_session::{PartFault, StreamFault};

/// Why a run is not done.
#[derive(Clone, Copy, Debug, PartialEq, Eq)]
pub enum Fault {
    /// The words are no command.
    Usage,
    /// The script's source failed.
    ScriptRead,
    /// The text is no script: its first fault.
    Script(ScriptFault),
    /// No block may have so many frames; `unit` divides each length that it may have, and is 0 where there is none.
    BlockLength { block: u64, unit: u64 },
    /// Want of memory.
    Memory,
    /// The stream stopped.
    Stream(StreamFault),
    /// The bytes are no state, or the text of a script that is to be stopped is too long for one: what is
    /// wrong, and where.
    State { kind: StateKind, offset: u64 },
    /// The stream over a part of the input stopped.
    Part(PartFault),
    /// The conversion stopped.
    Conversion(ConvertFault),
    /// The other file was not found to be the output.
    Comparison(CheckFault),
}
