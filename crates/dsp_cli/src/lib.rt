//! The top call: words, a script, an input and an output.
#![tactic(auto)]

mod command;
mod conversion;
mod fault;
mod fault_line;
mod line;
mod report;
mod script;
mod top;
mod words;

pub use command::places;
pub use dsp_command::Places;
pub use fault::Fault;
pub use fault_line::{line_of, output_line};
pub use line::Line;
pub use top::run;
pub use words::Words;
