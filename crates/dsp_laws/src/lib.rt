//! What follows from how a call of `dsp_cli::run` ended.
#![tactic(auto)]

mod laws;

pub use laws::{what_is_reported, what_stands, where_statuses_come_from};
