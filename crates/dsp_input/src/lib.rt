//! What stands in a script's input, taken from a port: its header, its samples block after block, and the
//! lengths that follow from it.
#![tactic(auto)]

mod blocks;
mod fault;
mod header;

pub use blocks::{has_block, read_block};
pub use fault::InputFault;
pub use header::{frame_bytes, known_frames, long_riff, output_header, read_input_header};
