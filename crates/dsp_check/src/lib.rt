//! A second way to the same output: whole signals, block after whole block, by the formulas. It shares
//! no filter, no window, no lanes and no blocks of frames with the way that a run takes.
#![tactic(auto)]

mod bytes;
mod channels;
mod checking;
mod comparing;
mod evaluating;
mod fault;
mod frames;
mod lengths;
mod signal;

pub use bytes::{add_coded, signal_of};
pub use checking::check;
pub use comparing::{Mismatch, compare};
pub use evaluating::evaluate;
pub use fault::CheckFault;
pub use lengths::{size_fault, window_fault};
pub use signal::Signal;
