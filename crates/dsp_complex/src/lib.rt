//! Blocks of complex samples: calls on slices of interleaved components, and the unit of a chain.
#![tactic(auto)]

mod calls;
mod frames;
mod operation;
mod scalars;
mod unit;

pub use calls::{conj, mag_squared, mult_cmplx, mult_real};
pub use operation::Operation;
pub use scalars::ComplexSample;
pub use unit::ComplexUnit;
