//! What a block that works on each channel by itself gives of one whole channel, by its formula.
#![tactic(auto)]

mod adapting;
mod cascade;
mod channel;
mod controller;
mod correlation;
mod interpolation;
mod ladder;
mod lattice;
mod matrices;
mod newest;
mod sparse_sums;
mod sums;

pub use adapting::lms;
pub use cascade::{biquad, biquad64};
pub use channel::whole_channel;
pub use controller::pid;
pub use correlation::correlate;
pub use interpolation::interpolate;
pub use ladder::lattice_iir;
pub use lattice::lattice_fir;
pub use matrices::matrix;
pub use sparse_sums::sparse;
pub use sums::{conv, conv_partial, decimate, fir};
