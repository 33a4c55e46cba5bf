//! WAVE files, samples as bytes, and the generated input.
#![tactic(auto)]

mod coded;
mod coding;
mod extension;
mod format;
mod generator;
mod open;
mod reader;
mod samples;
mod slices;
mod writer;

pub use coded::Coded;
pub use coding::{bytes_of, coding_of, format_in, sample_of, whole_samples, width};
pub use dsp_defs::{Coding, OpenHeader};
pub use generator::GenSource;
pub use open::read_open_header;
pub use reader::{HeaderOr, read_header};
pub use samples::{SampleFault, Stored, has_block, read_samples};
pub use slices::{decode, encode};
pub use writer::{
    HEADER_ROOM, open_pad, open_riff_size, pad, riff_size, write_header, write_open_header,
};
