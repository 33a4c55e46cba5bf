//! What the words of a command line ask for, and the lines that answer them.
#![tactic(auto)]

mod command;

pub use command::{Command, Places};
