//! Filters that change the rate of a signal.
#![tactic(auto)]

mod decimate;
mod interpolate;
mod phases;

pub use decimate::Decimate;
pub use interpolate::Interpolate;
