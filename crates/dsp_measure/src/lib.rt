//! Measures of whole signals: each takes a signal block after block, and gives one value of all of it.
#![tactic(auto)]

mod cmplx_dot;
mod complex_products;
mod dot;
mod extreme;
mod extreme_numbers;
mod measure_block;
mod measured;
mod order;
mod parts;
mod places;
mod power;
mod products;
mod results;
mod squares;
mod unit;

pub use cmplx_dot::CmplxDot;
pub use dot::Dot;
pub use extreme::{Extreme, Max, Min};
pub use measured::MeasureSample;
pub use order::{Greatest, Least, Order};
pub use power::Power;
pub use unit::MeasureUnit;
