//! Outside vectors: for each block and format three of them, extremes among them.

mod complex;
mod convolutions;
mod elementwise;
mod matrices;
mod measures;
mod pairs;
mod recursions;
mod sums;
