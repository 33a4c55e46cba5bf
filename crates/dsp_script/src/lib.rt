//! The script language: a text is read as a script, and a script is printed as its canonical text;
//! its legal block lengths, the frames that a run gives and the products that it takes.
#![tactic(auto)]

mod fault;
mod laws;
mod numeral;
mod places;
mod printer;
mod reader;
mod rows;
mod rules;
mod table;
mod tables;
mod token;

pub use dsp_defs::{ScriptFault, ScriptKind};
pub use dsp_shape::{
    cost, default_block, frames_given, given_frames, legal, output_flow, output_rate, unit,
};
pub use fault::ParseFault;
pub use laws::{
    canonical_text_is_read_back, one_reading, tables_are_their_numbers, unit_divides_legal_lengths,
};
pub use printer::print;
pub use reader::parse;
