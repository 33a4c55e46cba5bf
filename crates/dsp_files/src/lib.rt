//! Files and standard output as ports, and the whole program over the files that its words name.
#![tactic(auto)]

mod open;
mod over_files;
mod ports;
mod report;

pub use over_files::{FilePorts, run_files};
pub use ports::{FileSink, FileSource};
pub use report::OutSink;
