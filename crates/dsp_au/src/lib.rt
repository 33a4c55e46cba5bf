//! Sun AU files, and the way between them and WAVE files.
#![tactic(auto)]

mod conversion;
mod exchange;
mod fault;
mod laws;
mod reader;
mod source;
mod target;
mod writer;

pub use conversion::{CONVERT_BLOCK, Converted, convert};
pub use dsp_defs::{AuFault, Direction};
pub use fault::{AuOr, ConvertFault};
pub use laws::conversion_keeps_the_signal;
pub use reader::read_au;
pub use writer::{AU_FIELDS, write_au};
