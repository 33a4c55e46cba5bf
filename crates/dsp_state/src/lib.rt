//! The saved state of a run as bytes and back: a script, how many frames it has taken, and the numbers that
//! its blocks keep of them.
#![tactic(auto)]

mod fault;
mod fields;
mod laws;
mod loading;
mod maker;
mod saved;

pub use fault::{LoadFault, NewFault};
pub use laws::{default_length_is_legal, one_state};
pub use loading::load;
pub use maker::{append_numbers, begin_state};
pub use saved::Saved;
