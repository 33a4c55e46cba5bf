use dsp_defs::Direction;

/// What the words of a command line ask for.
#[derive(Clone, Copy, Debug, PartialEq, Eq)]
pub enum Command {
    /// Run a script over an input, in blocks of so many frames where the words name a length. Where
    /// it is banked, the biquads of the script work on all channels of a frame at once.
    Run { block: Option<u32>, banked: bool },
    /// Run a script over so many frames that are made from a seed.
    Gen { seed: u32, frames: u32 },
    /// Print the canonical text of a script.
    Print,
    /// Work on the first frames of an input, so many, and report the state behind them.
    Stop { frames: u32 },
    /// Go on from a state, over the frames of the input behind those that it has taken.
    Go,
    /// Write the samples of a file in the other form of file.
    Convert { direction: Direction },
    /// Compare a file with the output that a script has for an input.
    Check,
}

/// Which words name the script, the input, the output and another file that is read, counted from 0;
/// `None` where none does.
#[derive(Clone, Copy, Debug, PartialEq, Eq)]
pub struct Places {
    pub script: Option<usize>,
    pub input: Option<usize>,
    pub output: Option<usize>,
    pub other: Option<usize>,
}
