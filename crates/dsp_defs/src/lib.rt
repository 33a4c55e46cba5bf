//! The definitions that every crate of the library speaks of.
#![tactic(auto)]

mod au;
mod fault;
mod flow;
mod format;
mod laws;
mod limits;
mod list;
mod list_rule;
mod measure;
mod script;
mod script_fault;
mod state_kind;
mod steps;
mod wave;
mod word;

pub use au::{AuFault, Direction};
pub use fault::{GatherFull, MakeFault, WindowFault};
pub use flow::Flow;
pub use format::{Coding, Container, Fmt, Input, InputKind};
pub use laws::{
    cut_header_is_named, divisor_is_greatest, frames_are_counted, given_bytes_stay,
    given_values_stay, header_is_read_back, header_stays, kept_numbers_have_their_place,
    part_stays, samples_are_bytes, unit_is_least,
};
pub use limits::{
    DEFAULT_BLOCK_LENGTH, GENERATED_RATE, MAX_BLOCK_LENGTH, MAX_BLOCKS, MAX_CHANNELS, MAX_CHECKED,
    MAX_CORRELATES, MAX_DELAY, MAX_FACTOR, MAX_GATHERED, MAX_GENERATED, MAX_INPUT,
    MAX_LATTICE_SECTIONS, MAX_MATRIX_SIDE, MAX_NAME, MAX_RIFF_SIZE, MAX_SAMPLES, MAX_SCRIPT,
    MAX_SECTIONS, MAX_STATE, MAX_TABLES, MAX_TAPS, MAX_VERSION,
};
pub use list::List;
pub use list_rule::{Count, ListRule};
pub use measure::Measure;
pub use script::{Block, Blocks, Script};
pub use script_fault::{ScriptFault, ScriptKind};
pub use state_kind::StateKind;
pub use steps::Steps;
pub use wave::{Header, HeaderFault, OpenHeader, Sampling, Wanted};
pub use word::{Formats, Word};
