//! Finite impulse response filters.
#![tactic(auto)]

mod delayed_rows;
mod fir;
mod making;
mod sparse;
mod window_filter;
mod window_rows;

pub use fir::{Dense, Fir};
pub use sparse::{Delayed, Sparse};
pub use window_filter::WindowFilter;
