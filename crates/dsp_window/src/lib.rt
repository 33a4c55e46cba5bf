//! Rolling windows: the last samples of a signal's past, followed by its current block, as one slice.
#![tactic(auto)]

mod numbers;
mod window;

pub use numbers::{is_sample, load_numbers};
pub use window::Window;
